//! What a machine owes: the branches of its substitutions, the transformer, the formula of liveness, and the pieces that
//! formulas are cut into; definitions and laws.
#![tactic(auto)]

pub mod laws;
