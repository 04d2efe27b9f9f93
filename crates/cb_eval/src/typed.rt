//! The values of typed terms and the truth of typed formulas.

ghost use Rattle.std.specs.Prelude.{◌≡◌, ◌↔◌, [], IfOk, IsTrue};
ghost use Rattle.cb_term.specs.Holds.{Holds, IsValue};
ghost use Rattle.cb_term.specs.Table.{sizes_of};
ghost use Rattle.cb_spec.specs.Stores.{look_of};
ghost use Rattle.cb_eval.specs.TypedIn.{TypedIn, TypedTermIn};

use crate::evaluate::{truth_in, value_in};
use crate::widen::narrowed;
use cb_spec::store::Store;
use cb_term::Memory;
use cb_term::table::SetTable;
use cb_term::tree::{Formula, Term};
use cb_term::value::Value;
use std::alloc::Global;

/// The value of a term that is typed for what the store's names stand for. A name that the store lacks counts as 0.
pub fn value_of(alloc: Global, sets: &SetTable, term: &Term, store: &Store) -> Result<Value, Memory>
    requires { TypedTermIn (sizes_of sets.now) (look_of store.now) term.now }
    ensures { IfOk result (λ v. IsValue (sizes_of sets.now) (look_of store.now) term.now [] v) }
{
    let mut bound = Vec::new(alloc);
    match value_in(alloc, sets, true, store, &mut bound, term)? {
        Some(value) => narrowed(alloc, &value),
        None => unreachable!(),
    }
}

/// Whether a formula holds that is typed for what the store's names stand for. A name that the store lacks counts as 0. A
/// quantifier goes over the domain that its typing conjuncts give, and stops at the first value that decides it.
pub fn truth_of(
    alloc: Global,
    sets: &SetTable,
    formula: &Formula,
    store: &Store,
) -> Result<bool, Memory>
    requires { TypedIn (sizes_of sets.now) (look_of store.now) formula.now }
    ensures { IfOk result (λ b. IsTrue b ↔ Holds (sizes_of sets.now) (look_of store.now) formula.now []) }
{
    let mut bound = Vec::new(alloc);
    match truth_in(alloc, sets, true, store, &mut bound, formula)? {
        Some(b) => Ok(b),
        None => unreachable!(),
    }
}
