//! Formulas whose truth is told by their numbers and sets alone.

ghost use Rattle.std.specs.Prelude.{◌≡◌, IfOk};
ghost use Rattle.cb_term.specs.Table.{sizes_of};
ghost use Rattle.cb_eval.specs.ClosedTruth as spec;

use crate::evaluate::truth_in;
use cb_spec::store::Store;
use cb_term::Memory;
use cb_term::table::SetTable;
use cb_term::tree::Formula;
use std::alloc::Global;

/// The truth of a formula without free names and quantifiers in which each number is at most 2^100 in size and each set has at most
/// 256 items, a range directly to the right of `:` or `<:` aside. None exactly where the formula isn't such.
pub fn closed_truth(
    alloc: Global,
    sets: &SetTable,
    formula: &Formula,
) -> Result<Option<bool>, Memory>
    ensures { IfOk result (λ o. o ≡ spec.closed_truth (sizes_of sets.now) formula.now) }
{
    let store = Store::new(alloc);
    let mut bound = Vec::new(alloc);
    truth_in(alloc, sets, false, &store, &mut bound, formula)
}
