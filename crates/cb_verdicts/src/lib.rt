//! Verdicts on obligations: which proof is of which obligation, and whether it derives it.
#![tactic(auto)]

pub mod certificates;
pub mod judge;
pub mod names;
pub mod places;
