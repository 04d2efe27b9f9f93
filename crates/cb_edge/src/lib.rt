//! The outside: files that are read, sinks that are written, and the gate before each step of a controller.
//!
//! `MemFiles` and `MemSink` stand for it in tests, `RealFiles` and `RealSink` are the system's.
#![tactic(auto)]

mod edge;
mod memory;
mod real;
mod text;

pub use edge::{Failed, Files, Gate, Memory, NoGate, Sink};
pub use memory::{MemFiles, MemSink};
pub use real::{RealFiles, RealSink};
pub use text::{ReadAll, read_all, write_text};
