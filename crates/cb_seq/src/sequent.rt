//! Sequents, and the obligations that they stand for.

use cb_term::kind::Kind;
use cb_term::name::Name;
use cb_term::tree::Formula;

/// Names with their kinds, hypotheses, and the goal that they are to imply.
#[derive(Drop)]
pub struct Sequent {
    /// The variables of the machines concerned, and the opened names.
    pub names: Vec<(Name, Kind)>,
    /// The hypotheses. A rule counts them from 1.
    pub hypotheses: Vec<Formula>,
    pub goal: Formula,
}

/// What an obligation is about.
#[derive(Clone, Copy, Debug, PartialEq, Eq)]
pub enum Group {
    /// A machine's initialisation makes its invariant true.
    Init,
    /// An operation keeps its machine's invariant.
    Op,
    /// An initialisation, or an operation's body, has a run.
    Live,
    /// The initialisations make true what a controller's first call asks.
    Start,
    /// A definition of a controller meets what its events and calls ask.
    Loop,
    /// An annotation of an event fits the channel's assertion.
    Match,
}

/// The name of an obligation.
#[derive(Drop)]
pub struct ObName {
    pub group: Group,
    /// The machine or the controller.
    pub owner: Name,
    /// The operation or the definition, where the group tells of one.
    pub part: Option<Name>,
    /// The piece, counted from 1 in its group.
    pub number: u64,
}

/// A named sequent.
#[derive(Drop)]
pub struct Obligation {
    pub name: ObName,
    pub sequent: Sequent,
}
