//! Substitutions: what machines do.

use cb_term::kind::Domain;
use cb_term::name::Name;
use cb_term::tree::{Formula, Term};
use sqlite_items::Items;
use std::marker::Model;

/// A substitution. Contracts see it as a plain tree.
#[cycle(subst)]
#[derive(Drop)]
pub struct Subst {
    pub node: SubstNode,
}

/// What a substitution is.
#[cycle(subst)]
#[derive(Drop)]
pub enum SubstNode {
    /// `skip`.
    Skip,
    /// `x := E`.
    Assign {
        target: Name,
        value: Term,
    },
    /// `S || T`.
    Together(Box<Subst>, Box<Subst>),
    /// `CHOICE S OR T END`.
    Choice(Items<Subst>),
    /// `IF P THEN S ELSE T END`.
    If {
        test: Formula,
        then: Box<Subst>,
        other: Box<Subst>,
    },
    /// `ANY z WHERE P THEN S END`, with z's domain.
    AnyOf {
        name: Name,
        domain: Domain,
        test: Formula,
        body: Box<Subst>,
    },
}

impl Model for Subst {
    ghost use Rattle.cb_spec.specs.SubstTree.{SubstTree};
    ghost use Rattle.cb_spec.specs.SubstCodes.{coded_subst};

    ghost Value = { SubstTree };

    ghost coded = { coded_subst };

    ghost use Rattle.cb_spec.specs.SubstSize.{subst_nodes};
    ghost use Rattle.cb_spec.specs.SubstView.{subst_of};

    ghost view = { λ s. subst_of s.node };

    ghost size = { subst_nodes };

    ghost use Rattle.cb_spec.specs.SubstFalls.{subst_falls};

    ghost size_decreases = { λ a h. subst_falls a.node };
}
