//! The checker of certificates: a certificate that it accepts derives the sequent, and what is derived is valid.
#![tactic(auto)]

pub mod laws;
pub mod premises;
pub mod sequents;
pub mod walk;
