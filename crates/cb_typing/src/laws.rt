//! Laws of texts without a fault. Each is the contract of a function with nothing to do: a caller calls it for its fact.

ghost use Rattle.cb_typing.specs.Laws.{TermsAreTyped, FormulasAreTyped, AlwaysIsAlways, SubstsFit, SubstsAreTyped, ResultsHaveKinds};

/// The normal form of a term without a fault is typed, and has the form that the term has.
pub fn terms_are_typed()
    ensures { TermsAreTyped }
{}

/// The normal form of a formula without a fault is typed.
pub fn formulas_are_typed()
    ensures { FormulasAreTyped }
{}

/// A name that each branch of a substitution writes is written by each run of its normal form.
pub fn always_is_always()
    ensures { AlwaysIsAlways }
{}

/// The normal form of a substitution without a fault fits.
pub fn substs_fit()
    ensures { SubstsFit }
{}

/// The normal form of a substitution without a fault is typed.
pub fn substs_are_typed()
    ensures { SubstsAreTyped }
{}

/// What is assigned to a result is of the kind that is judged.
pub fn results_have_kinds()
    ensures { ResultsHaveKinds }
{}
