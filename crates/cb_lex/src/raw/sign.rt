//! The signs and words of terms and formulas.

/// A word that is a term by itself.
#[derive(Clone, Copy, Debug, PartialEq, Eq)]
pub enum RawAtom {
    /// `TRUE`
    True,
    /// `FALSE`
    False,
    /// `MAXINT`
    MaxInt,
    /// `MININT`
    MinInt,
    /// `NAT`
    Nat,
    /// `NAT1`
    Nat1,
    /// `INT`
    Int,
    /// `BOOL`
    Truths,
}

/// A sign between two terms that makes a term.
#[derive(Clone, Copy, Debug, PartialEq, Eq)]
pub enum RawOperator {
    /// `+`
    Plus,
    /// `-`
    Minus,
    /// `*`
    Times,
    /// `/`
    Divide,
    /// `mod`
    Mod,
    /// `..`
    UpTo,
    /// `\/`
    Union,
    /// `/\`
    Intersection,
}

/// A sign between two terms that makes a formula.
#[derive(Clone, Copy, Debug, PartialEq, Eq)]
pub enum RawRelation {
    /// `=`
    Equal,
    /// `/=`
    Unequal,
    /// `<`
    Less,
    /// `<=`
    AtMost,
    /// `>`
    Greater,
    /// `>=`
    AtLeast,
    /// `:`
    Member,
    /// `/:`
    NotMember,
    /// `<:`
    Subset,
}
