//! Channels and the heads of controllers in a whole text: which of their names, values and arguments are faults.
#![tactic(auto)]

pub mod arguments;
pub mod channel;
pub mod definition;
mod parameters;
pub mod start;
