//! The values of terms and the truth of formulas.
#![tactic(auto)]

pub mod closed;
mod evaluate;
pub mod laws;
mod sets;
mod signs;
pub mod typed;
pub mod walk;
mod wide;
mod widen;
