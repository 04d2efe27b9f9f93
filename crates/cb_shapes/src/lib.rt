//! What every spelled text meets beside its lines: no part of a machine is empty where the grammar wants one. Laws alone.
#![tactic(auto)]

pub mod laws;
