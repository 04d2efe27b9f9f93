//! States of a running system, and what happens in it.

use crate::event::Event;
use crate::process::Process;
use crate::store::Store;
use cb_term::value::Value;
use sqlite_items::Items;

/// Values in order.
pub type Values = Items<Value>;

/// Something that a controller offers: the event, what follows it, and the values of the names there.
#[derive(Drop)]
pub struct Branch {
    pub event: Event,
    pub then: Process,
    pub env: Store,
}

/// Where a controller is.
#[derive(Drop)]
pub enum Control {
    /// At a process that is not resolved yet.
    At { process: Process, env: Store },
    /// Its branches are offered.
    Ready(Items<Branch>),
    Ended,
}

/// The values of all machine variables, and where each controller is, by their numbers.
#[derive(Drop)]
pub struct State {
    pub store: Store,
    pub controls: Items<Control>,
}

/// Why a run has ended.
#[derive(Clone, Copy, Debug, PartialEq, Eq)]
pub enum End {
    /// All controllers have ended.
    Ended,
    /// There were as many events as the limit allows.
    Limit,
    /// All controllers wait, and nothing can happen.
    Quiet,
    /// Memory was wanting.
    Memory,
}

/// An entry of a journal.
#[derive(Drop)]
pub enum Entry {
    /// A controller's process is resolved. The i-th internal choice takes its left side where bit i of `bits` is 0.
    Settle {
        controller: u32,
        bits: u64,
    },
    /// A controller's branch calls an operation, which gives results and writes to its machine's variables.
    Op {
        controller: u32,
        branch: u32,
        machine: u32,
        operation: u32,
        args: Values,
        results: Values,
        written: Store,
    },
    /// Values pass a channel, from the sender's branch `sent` to the receiver's branch `got`.
    Pass {
        channel: u32,
        sent: u32,
        got: u32,
        values: Values,
    },
    End(End),
}
