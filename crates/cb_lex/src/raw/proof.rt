//! Proofs as they are written. PROOF and END leave no trace, nor do the parentheses and brackets.

use crate::raw::name::RawName;
use crate::raw::term::{RawFormula, RawTerm};
use crate::token::Place;
use sqlite_items::Items;
use std::marker::Model;

/// A number and its place. It is not negative, as it comes from the lexer.
#[derive(Clone, Copy, Debug, PartialEq, Eq)]
pub struct RawNumber {
    pub value: i64,
    pub place: Place,
}

/// The name of an obligation. `group` is the word that it begins with.
#[derive(Debug, Drop)]
pub enum RawObligation {
    /// `group:owner:number`, where the group is INIT.
    OfOwner {
        group: RawName,
        owner: RawName,
        number: RawNumber,
    },
    /// `START:owner:number`
    OfStart {
        /// The place of START.
        place: Place,
        owner: RawName,
        number: RawNumber,
    },
    /// `group:owner:part:number`, where the group is OP, LIVE, LOOP or MATCH.
    OfPart {
        group: RawName,
        owner: RawName,
        part: RawName,
        number: RawNumber,
    },
    /// `group:owner:INITIALISATION:number`, where the group is LIVE.
    OfInitialisation {
        group: RawName,
        owner: RawName,
        /// The place of INITIALISATION.
        place: Place,
        number: RawNumber,
    },
}

/// A row of a linear sum and its multiplier, `hypothesis * multiplier` or `hypothesis * -multiplier`.
#[derive(Clone, Copy, Debug, PartialEq, Eq)]
pub struct RawRow {
    pub hypothesis: RawNumber,
    /// Whether a `-` stands before the multiplier.
    pub minus: bool,
    pub multiplier: RawNumber,
}

/// Rows in order.
pub type RawRows = Items<RawRow>;

/// What a rule is given, in the order in which it is written.
#[derive(Drop)]
pub enum RawArguments {
    Nothing,
    Hypothesis(RawNumber),
    TwoHypotheses(RawNumber, RawNumber),
    Rows(RawRows),
    Formula(RawFormula),
    Term(RawTerm),
    TwoTerms(RawTerm, RawTerm),
    HypothesisTerm(RawNumber, RawTerm),
    TermNumber(RawTerm, RawNumber),
}

/// A rule: its word, as `HYP`, and what it is given.
#[derive(Drop)]
pub struct RawRule {
    pub word: RawName,
    pub arguments: RawArguments,
}

/// A certificate: a rule, and a certificate for each of its premises in order. Contracts see a plain tree.
#[derive(Drop)]
pub struct RawCert {
    pub rule: RawRule,
    pub children: Vec<RawCert>,
}

/// The proof of an obligation, `PROOF name cert END`.
#[derive(Drop)]
pub struct RawProof {
    pub name: RawObligation,
    pub cert: RawCert,
}

/// Proofs in order.
pub type RawProofs = Items<RawProof>;

impl Model for RawCert {
    ghost use Rattle.cb_lex.specs.RawCertTree.{RawCertTree, Node, raw_certs};
    ghost use Rattle.cb_lex.specs.RawCertCodes.{coded_cert};

    ghost Value = { RawCertTree };

    ghost coded = { coded_cert };

    ghost use Rattle.cb_lex.specs.RawCertTree.{cert_nodes};

    ghost view = { λ c. Node c.rule (raw_certs c.children.items) };

    ghost size = { cert_nodes };

    ghost use Rattle.cb_lex.specs.RawCertFalls.{cert_falls};

    ghost size_decreases = { λ a h. cert_falls a.rule a.children.items };
}
