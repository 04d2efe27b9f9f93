//! Running systems, whose journals are runs by their type.
#![tactic(auto)]

mod branch;
mod due;
mod firing;
mod pass;
mod perform;
mod row;
pub mod running;
mod settled;
