//! Whole texts: the first fault of machines, channels and controllers together.
#![tactic(auto)]

pub mod controllers;
pub mod names;
pub mod views;
pub mod whole;
