//! Prints proofs as they are written: tokens with a blank behind each. What is printed is read again as the same raw
//! value, places aside.
#![tactic(auto)]

mod cert;
pub mod laws;
mod proof;

pub use cb_amn_print::Memory;
pub use cert::put_cert;
pub use proof::print_proof;
