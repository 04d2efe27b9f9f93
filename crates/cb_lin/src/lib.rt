//! Linear forms of terms, as rows, and sums of rows times multipliers. No number in them passes 2^100 in size.
#![tactic(auto)]

pub mod laws;
pub mod linear;
pub mod row;
pub mod small;
mod sum;
