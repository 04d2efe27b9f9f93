//! How a system begins: the values of its variables, its processes laid flat, and where its controllers are.
#![tactic(auto)]

pub mod begin;
mod initial;
mod layout;
mod room;
