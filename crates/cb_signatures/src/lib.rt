//! What is known of what processes give values to: the forms of channels' values, and of operations' parameters and results.
#![tactic(auto)]

pub mod channels;
pub mod operations;
pub mod parameters;
pub mod results;
