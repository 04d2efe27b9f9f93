//! The rules of proof on numbers and on evaluation: where each applies, its premises, and that it is sound.
#![tactic(auto)]

pub mod laws;
mod linear;
pub mod premises;
