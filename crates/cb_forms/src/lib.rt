//! Faults with their codes and places, spans of numbers, forms of terms, and tables of names.
#![tactic(auto)]

pub mod fault;
pub mod form;
pub mod laws;
pub mod owners;
pub mod signs;
pub mod span;
pub mod table;
