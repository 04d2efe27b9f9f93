//! Terms, formulas and substitutions in normal form: constants are their numbers, and each sign is one of the few that are kept.
#![tactic(auto)]

pub mod formula;
pub mod subst;
