//! Literals and domains as they are written.

use crate::raw::name::RawName;
use crate::token::Place;

/// The number of a constant: `["-"] number`, `MAXINT` or `MININT`.
#[derive(Debug, Drop)]
pub enum RawLiteral {
    Number {
        /// Whether a `-` stands before it.
        minus: bool,
        value: i64,
        /// The place of the number.
        place: Place,
    },
    MaxInt(Place),
    MinInt(Place),
}

/// An end of a range: `["-"] (number | MAXINT | MININT | name)`.
#[derive(Debug, Drop)]
pub struct RawBound {
    /// Whether a `-` stands before it.
    pub minus: bool,
    pub end: RawEnd,
}

/// An end of a range without its minus.
#[derive(Debug, Drop)]
pub enum RawEnd {
    Number { value: i64, place: Place },
    MaxInt(Place),
    MinInt(Place),
    Name(RawName),
}

/// The values of a name: `bound ".." bound`, `NAT`, `NAT1`, `INT`, `BOOL` or the name of a set.
#[derive(Debug, Drop)]
pub enum RawDomain {
    Range { low: RawBound, high: RawBound },
    Nat(Place),
    Nat1(Place),
    Int(Place),
    /// `BOOL`
    Truths(Place),
    Name(RawName),
}

/// A parameter of a definition.
#[derive(Debug, Drop)]
pub enum RawParam {
    /// `name ":" domain`
    Member { name: RawName, domain: RawDomain },
    /// `name "<:" domain`
    Subset { name: RawName, domain: RawDomain },
}
