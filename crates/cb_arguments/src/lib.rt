//! Arguments of proofs: formulas and terms among the names of a sequent, in normal form.
#![tactic(auto)]

pub mod argument;
pub mod clear;
pub mod normal;
pub mod scope;
