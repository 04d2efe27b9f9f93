//! Laws of evaluation. Each is the contract of a function with nothing to do: a caller calls it for its fact.

ghost use Rattle.cb_eval.specs.Laws.{ClosedTruthIsTruth, ClosedTruthIsTold, DomainIsWalked, ChoosableIsWalkable, TypedValuesAreOfForm};

/// A formula whose truth is told by its numbers and sets alone has that truth whatever names stand for.
pub fn closed_truth_is_truth()
    ensures { ClosedTruthIsTruth }
{}

/// Such a truth is told exactly of a formula without names, loose variables and quantifiers whose numbers and sets are small.
pub fn closed_truth_is_told()
    ensures { ClosedTruthIsTold }
{}

/// Each number below their count gives a value of the domain, each value of the domain has such a number, and only one.
pub fn domain_is_walked()
    ensures { DomainIsWalked }
{}

/// A domain of which values are chosen is small enough to be gone over.
pub fn choosable_is_walkable()
    ensures { ChoosableIsWalkable }
{}

/// A typed term's value is of its form: numbers lie within 2^62, and sets have at most 256 items.
pub fn typed_values_are_of_form()
    ensures { TypedValuesAreOfForm }
{}
