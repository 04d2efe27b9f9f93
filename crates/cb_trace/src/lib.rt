//! The printed texts of obligations and of verdicts.
#![tactic(auto)]

pub mod listing;
pub mod verdict;
