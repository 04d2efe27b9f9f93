//! Prints whole texts as they are written: tokens with a blank behind each. What is printed is read again as the same raw
//! text, places aside.
#![tactic(auto)]

mod controllers;
mod events;
pub mod laws;
mod processes;
mod texts;

pub use cb_amn_print::Memory;
pub use texts::print_text;
