//! A turn on a queue with room for one value: the plain program of the same clauses as `cb_turn`'s.
#![tactic(auto)]

mod law;
mod turn;

pub use turn::{QueuePass, QueueTurn};
