//! The rules of proof on connectives and booleans: where each applies, its premises, and that it is sound.
#![tactic(auto)]

pub mod laws;
pub mod premises;
