//! What controllers offer, so that who can meet on a channel is told at once.
#![tactic(auto)]

mod channels;
mod marks;
pub mod offers;
mod table;
