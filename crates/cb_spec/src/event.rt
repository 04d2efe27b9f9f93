//! Events of processes.

use cb_term::name::Names;
use cb_term::tree::{Formula, Terms};

/// What a process offers.
#[derive(Drop)]
pub enum Event {
    /// `c!(terms)`. The guarantee is a formula over the channel's value names; where none is written it is the channel's own.
    Output {
        channel: u32,
        terms: Terms,
        guarantee: Option<Formula>,
    },
    /// `c?(names)`. The assumption is a formula over these names; where none is written it is the channel's own.
    Input {
        channel: u32,
        names: Names,
        assume: Option<Formula>,
    },
    /// `M.op!(args)?(results)`.
    Call {
        machine: u32,
        operation: u32,
        args: Terms,
        results: Names,
    },
}
