//! Reads texts: from the lexer's tokens to the machines, channels and controllers that they spell, and the order of a system.
//!
//! The grammar writes items in postfix order for the tokens. The raw text is built from them over a stack, and it is
//! the one for which exactly these items are written. Proofs are not read here.
#![tactic(auto)]

pub mod evaluate;
pub mod laws;
pub mod pops;
mod processes;
pub mod reading;
mod texts;
pub mod words;

pub use reading::{channels, controller, text};
use std::alloc::AllocError;

/// Want of memory.
pub type Memory = AllocError;
