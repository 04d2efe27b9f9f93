//! Reads machines, formulas, terms and domains: from the lexer's tokens to the raw syntax that they spell.
//!
//! The grammar writes items in postfix order for the tokens. The raw value is built from them over a stack, and it is
//! the one for which exactly these items are written.
#![tactic(auto)]

pub mod evaluate;
mod formulas;
pub mod laws;
mod machines;
pub mod reading;
mod substitutions;
mod terms;
pub mod value;
pub mod words;

pub use reading::{domain, formula, machine, term};
use std::alloc::AllocError;

/// Want of memory.
pub type Memory = AllocError;
