//! Names, kinds, values, terms and formulas: their meaning, substitution, and their printed text. Contracts see terms and
//! formulas as plain trees.
#![tactic(auto)]

use std::alloc::AllocError;

pub mod build;
pub mod change;
pub mod copy;
pub mod count;
pub mod equal;
pub mod free;
pub mod kind;
pub mod laws;
pub mod name;
pub mod sign;
pub mod table;
pub mod text;
pub mod tree;
pub mod value;

/// Want of memory, the only error of this crate.
pub type Memory = AllocError;
