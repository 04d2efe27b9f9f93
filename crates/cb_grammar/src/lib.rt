//! The grammar of texts, machines, channels, controllers, processes, terms, formulas, domains and proofs.
//!
//! `read_part` reads one part of the language from the lexer's tokens: the items that the grammar writes for it, in
//! postfix order, or its first fault. The grammar stands in `tools/cspb.grammar`, and the files that say so are
//! written from it.
#![tactic(auto)]

pub mod actions;
mod classes;
pub mod depth;
pub mod laws;
pub mod parts;
pub mod reading;
pub mod table;
pub mod terminals;

pub use cb_engine::{Item, Terminal};
pub use parts::Part;
pub use reading::{SyntaxFault, Written, read_part};
use std::alloc::AllocError;

/// Want of memory.
pub type Memory = AllocError;
