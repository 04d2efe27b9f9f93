//! The data of a system and of its runs: machines, channels, controllers, states, journals, and what is meant by them.
#![tactic(auto)]

pub mod event;
pub mod laws;
pub mod process;
pub mod sound;
pub mod state;
pub mod store;
pub mod subst;
pub mod system;
