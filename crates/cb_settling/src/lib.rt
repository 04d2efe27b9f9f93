//! How a controller moves on: its process is resolved, names are bound to values, and operations are performed.
#![tactic(auto)]

pub mod bind;
pub mod call;
pub mod op;
pub mod settle;
