//! Prints terms, formulas and machines as they are written: tokens with a blank behind each. What is printed is read again as the
//! same raw value, places aside.
#![tactic(auto)]

mod formulas;
pub mod laws;
mod machines;
mod substitutions;
mod tokens;

pub use formulas::{print_formula, print_term, put_formula, put_term};
pub use machines::print_machine;
use std::alloc::AllocError;
pub use substitutions::{put_domain, put_subst};
pub use tokens::{put, put_if, put_name, put_number};

/// Want of memory.
pub type Memory = AllocError;
