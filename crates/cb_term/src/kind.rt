//! Kinds of values, and domains of variables.

ghost use Rattle.std.specs.Prelude.{◌≡◌};
ghost use Rattle.cb_term.specs.Kinds.{same_base, same_kind};

/// What the items of a set are.
#[derive(Clone, Copy, Debug, PartialEq, Eq)]
pub enum Base {
    Integer,
    Truth,
    /// The elements of the enumerated set with this number.
    Elem(u32),
}

impl Base {
    /// Whether the kinds of items are the same.
    pub fn is_same(self, other: Base) -> bool
        ensures { result ≡ same_base self other }
    {
        match (self, other) {
            (Base::Integer, Base::Integer) | (Base::Truth, Base::Truth) => true,
            (Base::Elem(j), Base::Elem(k)) => j == k,
            _ => false,
        }
    }
}

/// A kind of values.
#[derive(Clone, Copy, Debug, PartialEq, Eq)]
pub enum Kind {
    /// Every whole number.
    Integer,
    /// TRUE and FALSE.
    Truth,
    /// The elements of the enumerated set with this number.
    Elem(u32),
    /// The finite sets of these items.
    SetOf(Base),
    /// The kind of `{}`, which has the empty set alone.
    EmptySet,
}

impl Kind {
    /// Whether the kinds are the same.
    pub fn is_same(self, other: Kind) -> bool
        ensures { result ≡ same_kind self other }
    {
        match (self, other) {
            (Kind::Integer, Kind::Integer)
            | (Kind::Truth, Kind::Truth)
            | (Kind::EmptySet, Kind::EmptySet) => true,
            (Kind::Elem(j), Kind::Elem(k)) => j == k,
            (Kind::SetOf(b), Kind::SetOf(c)) => b.is_same(c),
            _ => false,
        }
    }
}

/// What a variable ranges over.
#[derive(Clone, Copy, Debug, PartialEq, Eq)]
pub enum Domain {
    /// The numbers from `lo` to `hi`.
    Range { lo: i64, hi: i64 },
    /// TRUE and FALSE.
    Truth,
    /// The elements of the enumerated set with this number.
    Elems(u32),
    /// The sets of numbers from `lo` to `hi`.
    Subsets { lo: i64, hi: i64 },
    /// The sets of elements of the enumerated set with this number.
    ElemSubsets(u32),
}
