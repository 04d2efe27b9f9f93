//! Processes laid flat, where controllers are among them, and the sides that internal choices take.
#![tactic(auto)]

pub mod code;
pub mod copies;
pub mod place;
pub mod sides;
