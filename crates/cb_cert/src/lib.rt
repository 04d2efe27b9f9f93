//! Reads the proofs of a text: from the lexer's tokens to the raw proofs that they spell.
//!
//! The grammar writes items in postfix order for the tokens. The raw proofs are built from them over a stack, and they
//! are those for which exactly these items are written.
#![tactic(auto)]

pub mod evaluate;
mod nodes;
mod obligations;
pub mod reading;
mod rules;
pub mod value;
pub mod words;

pub use reading::proofs;
use std::alloc::AllocError;

/// Want of memory.
pub type Memory = AllocError;
