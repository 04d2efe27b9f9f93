//! Terms and formulas. A bound variable is told by the number of binders between it and its own, so no substitution captures.

use crate::kind::Kind;
use crate::name::Name;
use crate::sign::{RelSign, TermSign};
use sqlite_items::Items;
use std::marker::Model;

/// Terms in order.
pub type Terms = Items<Term>;

/// A term.
#[cycle(tree)]
#[derive(Drop)]
pub struct Term {
    pub node: TermNode,
}

/// What a term is.
#[cycle(tree)]
#[derive(Drop)]
pub enum TermNode {
    Var(Name),
    /// A bound variable, with the number of binders between it and its own.
    Bound(u32),
    Num(i64),
    Truth(bool),
    /// An element of an enumerated set, by the set's number and its place there.
    Elem {
        set: u32,
        index: u32,
    },
    Bin {
        sign: TermSign,
        left: Box<Term>,
        right: Box<Term>,
    },
    Neg(Box<Term>),
    /// How many items a set has.
    Card(Box<Term>),
    /// The set of these terms' values: `{a, b}`.
    Listed(Terms),
    /// The enumerated set with this number, as a set of all its elements.
    Elems(u32),
    /// BOOL, the set of both truth values.
    Truths,
    /// `bool(F)`, the truth value of a formula.
    Bool(Box<Formula>),
}

/// A formula.
#[cycle(tree)]
#[derive(Drop)]
pub struct Formula {
    pub node: FormulaNode,
}

/// What a formula is.
#[cycle(tree)]
#[derive(Drop)]
pub enum FormulaNode {
    True,
    False,
    Rel {
        sign: RelSign,
        left: Term,
        right: Term,
    },
    Not(Box<Formula>),
    And(Box<Formula>, Box<Formula>),
    Or(Box<Formula>, Box<Formula>),
    Implies(Box<Formula>, Box<Formula>),
    Iff(Box<Formula>, Box<Formula>),
    /// `!x.(F)`. The name is what is written; it binds by its place.
    Every {
        name: Name,
        kind: Kind,
        body: Box<Formula>,
    },
    /// `#x.(F)`.
    Exist {
        name: Name,
        kind: Kind,
        body: Box<Formula>,
    },
}

impl Model for Term {
    ghost use Rattle.cb_term.specs.Tree.{TermTree};
    ghost use Rattle.cb_term.specs.Codes.{coded_term};

    ghost Value = { TermTree };

    ghost coded = { coded_term };

    ghost use Rattle.cb_term.specs.Size.{term_nodes};
    ghost use Rattle.cb_term.specs.View.{term_of};

    ghost view = { λ t. term_of t.node };

    ghost size = { term_nodes };

    ghost use Rattle.cb_term.specs.Falls.{term_falls};

    ghost size_decreases = { λ a h. term_falls a.node };
}

impl Model for Formula {
    ghost use Rattle.cb_term.specs.Tree.{FormulaTree};
    ghost use Rattle.cb_term.specs.Codes.{coded_formula};

    ghost Value = { FormulaTree };

    ghost coded = { coded_formula };

    ghost use Rattle.cb_term.specs.Size.{formula_nodes};
    ghost use Rattle.cb_term.specs.View.{formula_of};

    ghost view = { λ f. formula_of f.node };

    ghost size = { formula_nodes };

    ghost use Rattle.cb_term.specs.Falls.{formula_falls};

    ghost size_decreases = { λ a h. formula_falls a.node };
}
