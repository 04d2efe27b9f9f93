//! One walk over a process: what is owed on the way, and what is met there, within the limits of a list.
#![tactic(auto)]

pub mod branches;
pub mod formulas;
pub mod operations;
pub mod shows;
pub mod visits;
pub mod walk;
