//! Sequents, the names of obligations, and certificates, which contracts see as plain trees; kinds of terms, and when a sequent
//! is valid.
#![tactic(auto)]

pub mod among;
pub mod cert;
pub mod clear;
pub mod kinds;
pub mod laws;
pub mod premise;
pub mod rule;
pub mod sequent;
