//! Laws of faults and spans. Each is the contract of a function with nothing to do: a caller calls it for its fact.

ghost use Rattle.cb_forms.specs.Faults.{FirstIsLeast};
ghost use Rattle.cb_forms.specs.Spans.{CutIsExact};

/// The first of some faults is the least of those that occur.
pub fn first_is_least()
    ensures { FirstIsLeast }
{}

/// A number that is within the bounds after it is cut was not cut.
pub fn cut_is_exact()
    ensures { CutIsExact }
{}
