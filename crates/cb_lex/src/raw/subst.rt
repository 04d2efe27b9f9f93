//! Substitutions as they are written. BEGIN and END leave no trace.

use crate::raw::domain::RawDomain;
use crate::raw::name::RawName;
use crate::raw::term::{RawFormula, RawTerm};
use sqlite_items::Items;
use std::marker::Model;

/// Substitutions in order, which contracts see as a list.
pub type RawSubsts = Items<RawSubst>;

/// A substitution, which contracts see as a plain tree.
#[cycle(raw_subst)]
#[derive(Drop)]
pub struct RawSubst {
    pub node: RawSubstNode,
}

/// A substitution by its outermost part.
#[cycle(raw_subst)]
#[derive(Drop)]
pub enum RawSubstNode {
    /// `skip`
    Skip,
    /// `target := term`
    Assign {
        target: RawName,
        term: RawTerm,
    },
    /// `target :: domain`
    Among {
        target: RawName,
        domain: RawDomain,
    },
    /// An IF or ELSIF with no ELSIF or ELSE after it.
    If {
        condition: RawFormula,
        then: Box<RawSubst>,
    },
    /// An IF or ELSIF with what follows; an ELSIF is an IF there.
    IfElse {
        condition: RawFormula,
        then: Box<RawSubst>,
        otherwise: Box<RawSubst>,
    },
    /// The sides of a CHOICE, two or more.
    Choice(RawSubsts),
    /// `ANY name WHERE condition THEN body END`
    Any {
        name: RawName,
        condition: RawFormula,
        body: Box<RawSubst>,
    },
    /// `left || right`; a chain groups to the left.
    Parallel(Box<RawSubst>, Box<RawSubst>),
}

impl Model for RawSubst {
    ghost use Rattle.cb_lex.specs.RawSubstTree.{RawSubstTree};
    ghost use Rattle.cb_lex.specs.RawSubstCodes.{coded_subst};

    ghost Value = { RawSubstTree };

    ghost coded = { coded_subst };

    ghost use Rattle.cb_lex.specs.RawSubstTree.{subst_nodes};
    ghost use Rattle.cb_lex.specs.RawSubstView.{subst_of};

    ghost view = { λ s. subst_of s.node };

    ghost size = { subst_nodes };

    ghost use Rattle.cb_lex.specs.RawSubstFalls.{subst_falls};

    ghost size_decreases = { λ a h. subst_falls a.node };
}
