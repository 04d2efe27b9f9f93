//! The commands, from the words of a command line to what is printed.
#![tactic(auto)]

mod code;
mod commands;
mod judge;
pub mod laws;
mod outcome;
mod print;
mod run;
mod sources;

pub use commands::{command, quiet_command};

/// The most bytes that the files of a request may have, joined.
pub const MAX_BYTES: u64 = 4_194_304;
