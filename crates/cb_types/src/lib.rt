//! Well-formed machines: their first fault, and their normal form.
#![tactic(auto)]

pub mod declare;
pub mod machine;
pub mod system;
pub mod tables;
