//! The rules of proof on sets and elements: where each applies, its premises, and that it is sound.
#![tactic(auto)]

pub mod laws;
pub mod members;
pub mod premises;
