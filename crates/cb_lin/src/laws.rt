//! Laws of linear forms. Each is the contract of a function with nothing to do: a caller calls it for its fact.

ghost use Rattle.cb_lin.specs.Laws.{FormHasValue, NumbersCanBeGiven, SumHasValue, SumIsNotNegative};

/// A linear form has the value of its term.
pub fn form_has_value()
    ensures { FormHasValue }
{}

/// Terms whose values are whole numbers may be given these numbers.
pub fn numbers_can_be_given()
    ensures { NumbersCanBeGiven }
{}

/// A sum of rows has the sum of the rows' values times their multipliers.
pub fn sum_has_value()
    ensures { SumHasValue }
{}

/// A sum of rows is not negative where no row's value times its multiplier is.
pub fn sum_is_not_negative()
    ensures { SumIsNotNegative }
{}
