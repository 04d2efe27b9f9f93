//! The trace of a run, as it is printed.
#![tactic(auto)]

pub mod trace;
pub mod values;
