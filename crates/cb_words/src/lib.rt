//! The words of a command line: the request that they spell, read by `clap`, and the numbers of its options.
#![tactic(auto)]

mod fault;
mod line;
mod numbers;
mod request;
mod words;

pub use fault::WordsFault;
pub use numbers::{limit_of, seed_of};
pub use request::{FileNames, Request};
pub use words::words_of;
