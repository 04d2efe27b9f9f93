//! Processes of controllers: which of their names, arguments, annotations, calls and operands are faults.
#![tactic(auto)]

mod bound;
mod calls;
mod channels;
mod events;
mod operands;
pub mod process;
