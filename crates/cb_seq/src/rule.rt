//! The rules of proof, with their arguments. A hypothesis is named by its number, counted from 1.

use cb_term::kind::Kind;
use cb_term::tree::{Formula, Term};
use sqlite_items::Items;

/// A formula that a rule is given.
#[derive(Drop)]
pub enum FormulaArgument {
    Formula(Formula),
    /// What is written is no formula among the names of the sequent.
    Unclear,
}

/// A term that a rule is given.
#[derive(Drop)]
pub enum TermArgument {
    Term { term: Term, kind: Kind },
    /// A term as it is read, before its kind among the names of a sequent is told.
    Read(Term),
    /// What is written is no term among the names of the sequent.
    Unclear,
}

/// A row of a linear sum, and how often it is taken.
#[derive(Clone, Copy, Debug, PartialEq, Eq)]
pub struct Multiple {
    /// The number of a hypothesis, or 0 for the negated goal.
    pub row: u64,
    pub by: i64,
}

/// Rows in order.
pub type Multiples = Items<Multiple>;

/// A rule of proof.
#[derive(Drop)]
pub enum Rule {
    /// `HYP h`: the goal is the hypothesis.
    Hyp {
        hypothesis: u64,
    },
    /// `CONTRA h j`: the second hypothesis is the negation of the first.
    Contra {
        hypothesis: u64,
        negation: u64,
    },
    /// `EVAL`: the goal evaluates to true.
    Eval,
    /// `EVALNOT h`: the hypothesis evaluates to false.
    EvalNot {
        hypothesis: u64,
    },
    /// `REFL`: the goal is `t = t` or `t <: t`.
    Refl,
    /// `LIN [h * m, ..]`: rows that are at least 0 add up, times their multipliers, to a number below 0.
    Lin {
        rows: Multiples,
    },
    /// `CUT [F]`: the formula first, and then the goal with it.
    Cut {
        formula: FormulaArgument,
    },
    /// `CASES [F]`: the goal with the formula, and with its negation.
    Cases {
        formula: FormulaArgument,
    },
    /// `ANDR`: both sides of the goal.
    AndR,
    /// `OR1`: the left side of the goal.
    Or1,
    /// `OR2`: the right side of the goal.
    Or2,
    /// `IMPR`: the right side of the goal under the left.
    ImpR,
    /// `NOTR`: a contradiction from what the goal denies.
    NotR,
    /// `IFFR`: each side of the goal under the other.
    IffR,
    /// `ALLR`: the body of the goal at a fresh name.
    AllR,
    /// `EXR [t]`: the body of the goal at the term.
    ExR {
        term: TermArgument,
    },
    /// `ANDL h`: both sides of the hypothesis.
    AndL {
        hypothesis: u64,
    },
    /// `ORL h`: the goal under each side of the hypothesis.
    OrL {
        hypothesis: u64,
    },
    /// `IMPL h`: the left side of the hypothesis, and then the goal under the right.
    ImpL {
        hypothesis: u64,
    },
    /// `IFFL h`: the hypothesis as two implications.
    IffL {
        hypothesis: u64,
    },
    /// `NOTL h`: what the hypothesis denies.
    NotL {
        hypothesis: u64,
    },
    /// `ALLL h [t]`: the body of the hypothesis at the term.
    AllL {
        hypothesis: u64,
        term: TermArgument,
    },
    /// `EXL h`: the body of the hypothesis at a fresh name.
    ExL {
        hypothesis: u64,
    },
    /// `EQ h`: the right side of the equation for the left one in the goal.
    Eq {
        equation: u64,
    },
    /// `EQIN h j`: the right side of the equation for the left one in the hypothesis.
    EqIn {
        equation: u64,
        hypothesis: u64,
    },
    /// `BOOLCASES [t]`: the goal where the term is TRUE, and where it is FALSE.
    BoolCases {
        term: TermArgument,
    },
    /// `BOOLR`: the goal `bool(F) = TRUE` or `bool(F) = FALSE` as a formula.
    BoolR,
    /// `BOOLL h`: such a hypothesis as a formula.
    BoolL {
        hypothesis: u64,
    },
    /// `ELEMS [t]`: the goal for each element that the term may be.
    Elems {
        term: TermArgument,
    },
    /// `SPLIT [s] [t]`: the goal where the first number is less, equal and greater.
    Split {
        left: TermArgument,
        right: TermArgument,
    },
    /// `EQLE`: an equation of numbers as two inequalities.
    EqLe,
    /// `RNG`: the goal `t : a..b` as two inequalities.
    Rng,
    /// `RNGL h`: such a hypothesis as two inequalities.
    RngL {
        hypothesis: u64,
    },
    /// `DIVMOD [t] d`: what is known of the quotient and the rest.
    DivMod {
        term: TermArgument,
        divisor: i64,
    },
    /// `MULSIGN [s] [t]`: the product of numbers that are not negative.
    MulSign {
        left: TermArgument,
        right: TermArgument,
    },
    /// `MEMBER`: the goal `t : s` by what s is made of.
    Member,
    /// `MEMBERL h`: such a hypothesis by what the set is made of.
    MemberL {
        hypothesis: u64,
    },
    /// `SUBSET`: the goal `s <: u` at a fresh name.
    Subset,
    /// `SUBSETL h [t]`: the hypothesis `s <: u` at the term.
    SubsetL {
        hypothesis: u64,
        term: TermArgument,
    },
    /// `EXT`: an equation of sets as two inclusions.
    Ext,
    /// `CARDPOS [s]`: a size is not negative.
    CardPos {
        set: TermArgument,
    },
    /// `CARDADD [s] [t]`: the size of a set with one item more.
    CardAdd {
        set: TermArgument,
        item: TermArgument,
    },
    /// `CARDDEL [s] [t]`: the size of a set with one item less.
    CardDel {
        set: TermArgument,
        item: TermArgument,
    },
    /// `CARDSUB [s] [t]`: a set within another has at most its size.
    CardSub {
        inner: TermArgument,
        outer: TermArgument,
    },
}
