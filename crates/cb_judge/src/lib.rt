//! What is wrong with terms, formulas and substitutions as they are written: unknown names, kinds, intervals, domains, writes.
#![tactic(auto)]

pub mod domain;
pub mod judge;
pub mod names;
pub mod subst;
pub mod writes;
