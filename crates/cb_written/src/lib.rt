//! The grammar's lines as one usually writes them, where the table has them in pieces. Laws alone.
#![tactic(auto)]

pub mod laws;
