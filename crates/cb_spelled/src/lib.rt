//! What every spelled text is: its parts are written, and not too many. Laws alone.
#![tactic(auto)]

pub mod laws;
