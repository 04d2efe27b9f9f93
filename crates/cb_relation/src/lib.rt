//! Running substitutions: where a choice is left, a picker takes it.
#![tactic(auto)]

mod choice;
mod known;
pub mod perform;
pub mod pick;
