//! What the written annotations of controllers owe.
#![tactic(auto)]

pub mod matches;
