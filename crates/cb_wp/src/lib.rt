//! What a machine owes, made: the branches of its substitutions, the transformer, the formula of liveness, and the pieces that
//! formulas are cut into, within the limits of a list.
#![tactic(auto)]

pub mod branches;
pub mod changes;
pub mod limits;
pub mod machine;
pub mod pieces;
pub mod sequents;
pub mod transform;
