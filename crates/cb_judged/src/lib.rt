//! A whole system judged: what it owes, each with its verdict, and that it is sound where all is proved.
#![tactic(auto)]

pub mod judge;
pub mod judged;
