//! Events and calls of processes as they are written.

use crate::raw::name::{RawName, RawNames};
use crate::raw::term::{RawFormula, RawTerms};

/// A call of a definition; with no parentheses there is no argument.
#[derive(Drop)]
pub struct RawCall {
    pub name: RawName,
    pub arguments: RawTerms,
}

/// An event. Its first token is its first name.
#[derive(Drop)]
pub enum RawEvent {
    /// `channel!(values) {condition}`
    Output {
        channel: RawName,
        values: RawTerms,
        condition: Option<RawFormula>,
    },
    /// `channel?(names) {condition}`
    Input {
        channel: RawName,
        names: RawNames,
        condition: Option<RawFormula>,
    },
    /// `machine.operation!(arguments)?(results)`; what is left out is empty.
    Operation {
        machine: RawName,
        operation: RawName,
        arguments: RawTerms,
        results: RawNames,
    },
}
