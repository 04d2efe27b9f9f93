//! Processes as they are written. Parentheses leave no trace but for the list that they make of a chain.

use crate::raw::event::{RawCall, RawEvent};
use crate::raw::term::RawFormula;
use crate::token::Place;
use sqlite_items::Items;
use std::marker::Model;

/// Processes in order, which contracts see as a list.
pub type RawProcesses = Items<RawProcess>;

/// A process, which contracts see as a plain tree.
#[cycle(raw_process)]
#[derive(Drop)]
pub struct RawProcess {
    pub node: RawProcessNode,
}

/// A process by its outermost part, with the place of its first token where that is a keyword.
#[cycle(raw_process)]
#[derive(Drop)]
pub enum RawProcessNode {
    /// `STOP`
    Stop(Place),
    /// `SKIP`
    Skip(Place),
    Call(RawCall),
    /// `IF condition THEN .. ELSE .. END`
    If {
        place: Place,
        condition: RawFormula,
        then: Box<RawProcess>,
        otherwise: Box<RawProcess>,
    },
    /// `event -> process`
    Prefix {
        event: RawEvent,
        process: Box<RawProcess>,
    },
    /// The operands of a chain of `[]`, two or more.
    External(RawProcesses),
    /// The operands of a chain of `|~|`, two or more.
    Internal(RawProcesses),
}

impl Model for RawProcess {
    ghost use Rattle.cb_lex.specs.RawProcessTree.{RawProcessTree};
    ghost use Rattle.cb_lex.specs.RawProcessCodes.{coded_process};

    ghost Value = { RawProcessTree };

    ghost coded = { coded_process };

    ghost use Rattle.cb_lex.specs.RawProcessTree.{process_nodes};
    ghost use Rattle.cb_lex.specs.RawProcessView.{process_of};

    ghost view = { λ p. process_of p.node };

    ghost size = { process_nodes };

    ghost use Rattle.cb_lex.specs.RawProcessFalls.{process_falls};

    ghost size_decreases = { λ a h. process_falls a.node };
}
