//! What every spelled proof meets beside its lines: each rule has the arguments and the premises that its word takes. A law
//! alone.
#![tactic(auto)]

pub mod laws;
