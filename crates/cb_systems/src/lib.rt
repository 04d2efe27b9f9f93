//! Well-formed texts: the system of a text, in normal form.
#![tactic(auto)]

mod bound;
mod channels;
mod controllers;
mod definitions;
mod events;
mod order;
mod parameters;
mod parts;
mod process;
pub mod whole;
