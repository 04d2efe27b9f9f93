//! What every spelled text meets beside its lines: no list of it is empty where the grammar wants an entry, and each chain of
//! processes has two operands or more. A law alone.
#![tactic(auto)]

pub mod laws;
