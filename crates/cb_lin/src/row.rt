//! Rows: linear forms without a part twice.

ghost use Rattle.std.specs.Prelude.{IsTrue, ◌&&◌};
ghost use Rattle.cb_lin.specs.Small.{is_small, small_parts, are_apart, none_zero};

use cb_term::tree::Term;

/// A sum of terms, each times a coefficient, and of a constant.
#[derive(Drop)]
pub struct Row {
    pub parts: Vec<(Term, i128)>,
    pub constant: i128,
    // No two terms are the same.
    pub ghost apart: { IsTrue (are_apart parts.items) },
    // No coefficient is 0.
    pub ghost nonzero: { IsTrue (none_zero parts.items) },
    // No number passes 2^100.
    pub ghost small: { IsTrue (small_parts parts.items && is_small constant) },
}
