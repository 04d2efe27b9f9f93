//! What typing gives: kinds of terms, machines that fit, and obligations that are kinded.
#![tactic(auto)]

pub mod laws;
