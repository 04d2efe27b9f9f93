//! What every spelled text with channels and controllers is: its parts are written, and not too many. Laws alone.
#![tactic(auto)]

pub mod laws;
