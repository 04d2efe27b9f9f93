//! What controllers owe, and all that a system owes, within the limits of a list.
#![tactic(auto)]

pub mod alone;
pub mod groups;
pub mod limits;
pub mod list;
pub mod loops;
