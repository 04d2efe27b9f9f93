//! What the beginnings of controllers owe.
#![tactic(auto)]

pub mod copies;
pub mod invariants;
pub mod machines;
pub mod start;
