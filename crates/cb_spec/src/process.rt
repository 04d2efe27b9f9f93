//! Processes: what controllers do.

use crate::event::Event;
use cb_term::tree::{Formula, Terms};
use std::marker::Model;

/// A process. Contracts see it as a plain tree.
#[cycle(process)]
#[derive(Drop)]
pub struct Process {
    pub node: ProcessNode,
}

/// What a process is.
#[cycle(process)]
#[derive(Drop)]
pub enum ProcessNode {
    /// `STOP`, which offers nothing.
    Stop,
    /// `SKIP`, which ends.
    Skip,
    /// `S(args)`, the controller's definition with this number.
    Call {
        definition: u32,
        args: Terms,
    },
    /// `event -> then`.
    Prefix {
        event: Event,
        then: Box<Process>,
    },
    /// `P [] Q`.
    Choice(Box<Process>, Box<Process>),
    /// `P |~| Q`.
    Internal(Box<Process>, Box<Process>),
    /// `IF test THEN then ELSE other END`.
    If {
        test: Formula,
        then: Box<Process>,
        other: Box<Process>,
    },
}

impl Model for Process {
    ghost use Rattle.cb_spec.specs.ProcessTree.{ProcessTree};
    ghost use Rattle.cb_spec.specs.ProcessCodes.{coded_process};

    ghost Value = { ProcessTree };

    ghost coded = { coded_process };

    ghost use Rattle.cb_spec.specs.ProcessSize.{process_nodes};
    ghost use Rattle.cb_spec.specs.ProcessView.{process_of};

    ghost view = { λ p. process_of p.node };

    ghost size = { process_nodes };

    ghost use Rattle.cb_spec.specs.ProcessFalls.{process_falls};

    ghost size_decreases = { λ a h. process_falls a.node };
}
