//! Symbolic stores, and walks that carry one: written names stand for terms, names are opened, and formulas are supposed and shown as
//! they are read there. No term is built that passes a limit.
#![tactic(auto)]

mod conjuncts;
mod entries;
pub mod show;
pub mod store;
pub mod walk;
mod weighing;
