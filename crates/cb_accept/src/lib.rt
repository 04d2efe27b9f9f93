//! Texts taken whole, from their bytes to the verdicts on what their systems owe.
#![tactic(auto)]

pub mod accept;
pub mod read;
