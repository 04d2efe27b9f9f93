//! The rules of proof on quantifiers and equations: where each applies, its premises, and that it is sound.
#![tactic(auto)]

pub mod laws;
pub mod premises;
pub mod replace;
