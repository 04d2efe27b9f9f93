//! The signs of terms and of relations.

ghost use Rattle.std.specs.Prelude.{◌≡◌};
ghost use Rattle.cb_term.specs.Signs.{same_sign, same_rel};

/// The sign of a term with two operands.
#[derive(Clone, Copy, Debug, PartialEq, Eq)]
pub enum TermSign {
    Add,
    /// `-`, of numbers and of sets.
    Minus,
    Mul,
    /// `/`, which rounds down.
    Div,
    Mod,
    /// `..`, the set of the numbers from one to another.
    Range,
    /// `\/`.
    Union,
    /// `/\`.
    Inter,
}

impl TermSign {
    /// Whether the signs are the same.
    pub fn is_same(self, other: TermSign) -> bool
        ensures { result ≡ same_sign self other }
    {
        match (self, other) {
            (TermSign::Add, TermSign::Add)
            | (TermSign::Minus, TermSign::Minus)
            | (TermSign::Mul, TermSign::Mul)
            | (TermSign::Div, TermSign::Div)
            | (TermSign::Mod, TermSign::Mod)
            | (TermSign::Range, TermSign::Range)
            | (TermSign::Union, TermSign::Union)
            | (TermSign::Inter, TermSign::Inter) => true,
            _ => false,
        }
    }
}

/// The sign of a relation between two terms.
#[derive(Clone, Copy, Debug, PartialEq, Eq)]
pub enum RelSign {
    Equal,
    Less,
    /// `<=`.
    AtMost,
    /// `:`, a value in a set.
    Member,
    /// `<:`, a set within a set.
    Subset,
}

impl RelSign {
    /// Whether the signs are the same.
    pub fn is_same(self, other: RelSign) -> bool
        ensures { result ≡ same_rel self other }
    {
        match (self, other) {
            (RelSign::Equal, RelSign::Equal)
            | (RelSign::Less, RelSign::Less)
            | (RelSign::AtMost, RelSign::AtMost)
            | (RelSign::Member, RelSign::Member)
            | (RelSign::Subset, RelSign::Subset) => true,
            _ => false,
        }
    }
}
