//! Runs a sound system on one thread.
#![tactic(auto)]

pub mod alone;
