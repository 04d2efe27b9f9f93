//! Laws of kinds. Each is the contract of a function with nothing to do: a caller calls it for its fact.

ghost use Rattle.cb_seq.specs.Laws.{FittingNamesHaveKinds, NamesOfTermsHaveKinds, FittingIsClosed, TermsWithKindsAreClosed, ValuesHaveKinds};

/// Each free name of a formula that fits has a kind.
pub fn fitting_names_have_kinds()
    ensures { FittingNamesHaveKinds }
{}

/// Each free name of a term with a kind has a kind.
pub fn names_of_terms_have_kinds()
    ensures { NamesOfTermsHaveKinds }
{}

/// A formula that fits has no loose bound variable.
pub fn fitting_is_closed()
    ensures { FittingIsClosed }
{}

/// A term with a kind has no loose bound variable.
pub fn terms_with_kinds_are_closed()
    ensures { TermsWithKindsAreClosed }
{}

/// The value of a term with a kind is of that kind.
pub fn values_have_kinds()
    ensures { ValuesHaveKinds }
{}
