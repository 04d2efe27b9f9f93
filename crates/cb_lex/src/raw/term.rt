//! Terms and formulas as they are written. Parentheses that only group leave no trace, and chains group to the left.

use crate::raw::name::RawName;
use crate::raw::sign::{RawAtom, RawOperator, RawRelation};
use crate::token::Place;
use sqlite_items::Items;
use std::marker::Model;

/// Terms in order, which contracts see as a list.
pub type RawTerms = Items<RawTerm>;

/// A term, which contracts see as a plain tree.
#[cycle(raw_term)]
#[derive(Drop)]
pub struct RawTerm {
    pub node: RawTermNode,
}

/// A term by its outermost part. The place of a binary term is that of its sign, of any other that of its first token.
#[cycle(raw_term)]
#[derive(Drop)]
pub enum RawTermNode {
    Number {
        value: i64,
        place: Place,
    },
    Name(RawName),
    Atom {
        atom: RawAtom,
        place: Place,
    },
    Binary {
        operator: RawOperator,
        place: Place,
        left: Box<RawTerm>,
        right: Box<RawTerm>,
    },
    /// `-` before a term.
    Minus {
        place: Place,
        term: Box<RawTerm>,
    },
    /// `card(..)`
    Card {
        place: Place,
        term: Box<RawTerm>,
    },
    /// `bool(..)`
    TruthOf {
        place: Place,
        formula: Box<RawFormula>,
    },
    /// `{..}`
    Listed {
        place: Place,
        terms: RawTerms,
    },
}

/// A formula, which contracts see as a plain tree.
#[cycle(raw_term)]
#[derive(Drop)]
pub struct RawFormula {
    pub node: RawFormulaNode,
}

/// A formula by its outermost part.
#[cycle(raw_term)]
#[derive(Drop)]
pub enum RawFormulaNode {
    /// `btrue`
    True,
    /// `bfalse`
    False,
    Not(Box<RawFormula>),
    And(Box<RawFormula>, Box<RawFormula>),
    Or(Box<RawFormula>, Box<RawFormula>),
    Implies(Box<RawFormula>, Box<RawFormula>),
    /// `<=>`
    Equivalent(Box<RawFormula>, Box<RawFormula>),
    Relation {
        relation: RawRelation,
        /// The place of the sign.
        place: Place,
        left: RawTerm,
        right: RawTerm,
    },
    /// `!name.(domain => body)`
    Every {
        name: RawName,
        domain: Box<RawFormula>,
        body: Box<RawFormula>,
    },
    /// `#name.(body)`
    Exists {
        name: RawName,
        body: Box<RawFormula>,
    },
}

impl Model for RawTerm {
    ghost use Rattle.cb_lex.specs.RawTermTree.{RawTermTree};
    ghost use Rattle.cb_lex.specs.RawTermCodes.{coded_term};

    ghost Value = { RawTermTree };

    ghost coded = { coded_term };

    ghost use Rattle.cb_lex.specs.RawTermTree.{term_nodes};
    ghost use Rattle.cb_lex.specs.RawTermView.{term_of};

    ghost view = { λ t. term_of t.node };

    ghost size = { term_nodes };

    ghost use Rattle.cb_lex.specs.RawTermFalls.{term_falls};

    ghost size_decreases = { λ a h. term_falls a.node };
}

impl Model for RawFormula {
    ghost use Rattle.cb_lex.specs.RawTermTree.{RawFormulaTree};
    ghost use Rattle.cb_lex.specs.RawTermCodes.{coded_formula};

    ghost Value = { RawFormulaTree };

    ghost coded = { coded_formula };

    ghost use Rattle.cb_lex.specs.RawTermTree.{formula_nodes};
    ghost use Rattle.cb_lex.specs.RawTermView.{formula_of};

    ghost view = { λ f. formula_of f.node };

    ghost size = { formula_nodes };

    ghost use Rattle.cb_lex.specs.RawTermFalls.{formula_falls};

    ghost size_decreases = { λ a h. formula_falls a.node };
}
