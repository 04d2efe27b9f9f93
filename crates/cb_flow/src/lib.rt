//! The flow of a whole text: the choices that its processes meet in silence, who calls which machine, who uses which end of a channel.
#![tactic(auto)]

pub mod ends;
pub mod lists;
pub mod silent;
pub mod uses;
