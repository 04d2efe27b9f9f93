//! Laws of terms and formulas. Each is the contract of a function with nothing to do: a caller calls it for its fact.

ghost use Rattle.cb_term.specs.Laws.{TruthIsStable, TermsHaveValues, ValuesAreUnique, FreeNamesDecide, FreeNamesDecideValue, ClosedStandsAlone, ClosedValueStandsAlone, SameHoldAlike, SameHaveSameValue, ChangeKeepsTruth, ChangeKeepsValue};

/// A formula that cannot fail holds.
pub fn truth_is_stable()
    ensures { TruthIsStable }
{}

/// No term lacks a value.
pub fn terms_have_values()
    ensures { TermsHaveValues }
{}

/// No term has two values.
pub fn values_are_unique()
    ensures { ValuesAreUnique }
{}

/// A formula's truth depends on its free names alone.
pub fn free_names_decide()
    ensures { FreeNamesDecide }
{}

/// A term's value depends on its free names alone.
pub fn free_names_decide_value()
    ensures { FreeNamesDecideValue }
{}

/// A formula without loose bound variables does not read what surrounds it.
pub fn closed_stands_alone()
    ensures { ClosedStandsAlone }
{}

/// A term without loose bound variables does not read what surrounds it.
pub fn closed_value_stands_alone()
    ensures { ClosedValueStandsAlone }
{}

/// Formulas that are the same, the written names of bound variables aside, hold alike.
pub fn same_hold_alike()
    ensures { SameHoldAlike }
{}

/// Terms that are the same, the written names of bound variables aside, have the same values.
pub fn same_have_same_value()
    ensures { SameHaveSameValue }
{}

/// A changed formula holds where the formula holds with the values of what has been put in.
pub fn change_keeps_truth()
    ensures { ChangeKeepsTruth }
{}

/// A changed term has the values that the term has with those of what has been put in.
pub fn change_keeps_value()
    ensures { ChangeKeepsValue }
{}
