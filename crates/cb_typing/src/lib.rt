//! Why a text without a fault is a typed system. Laws alone.
#![tactic(auto)]

pub mod laws;
