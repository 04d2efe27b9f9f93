//! One run of a substitution.

ghost use Rattle.std.specs.Prelude.{◌≡◌, ◌<◌, length, slice_get, Some, IfOk, OnOk};
ghost use Rattle.cb_term.specs.Table.{sizes_of};
ghost use Rattle.cb_spec.specs.Stores.{look_of};
ghost use Rattle.cb_relation.specs.Performing.{CanRun, RunsOver, IsRunOf};
ghost use Rattle.cb_relation.specs.Trying.{look_in};

use crate::choice::choose;
use crate::known::Known;
use crate::pick::Pick;
use cb_eval::typed::{truth_of, value_of};
use cb_eval::walk::value_count;
use cb_spec::store::Store;
use cb_spec::subst::{Subst, SubstNode};
use cb_term::Memory;
use cb_term::table::SetTable;
use sqlite_items::Items;
use std::alloc::Global;

/// What one run of the substitution writes. The picker takes the side of each CHOICE, and for each ANY the number from which on
/// its domain is gone through.
pub fn perform<P: Pick>(
    alloc: Global,
    sets: &SetTable,
    subst: &Subst,
    store: &Store,
    pick: &mut P,
) -> Result<Store, Memory>
    requires { CanRun (sizes_of sets.now) (look_of store.now) subst.now }
    ensures { IfOk result (λ e. IsRunOf (sizes_of sets.now) subst.now (look_of store.now) e) }
{
    let mut known = Known::Given(store);
    let mut written = Store::new(alloc);
    run(alloc, sets, subst, &mut known, &mut written, pick)?;
    Ok(written)
}

// The side with this number.
fn side(sides: &Items<Subst>, number: usize) -> &Subst
    requires { number < length sides.now }
    ensures { slice_get sides.now number ≡ Some result.now }
{
    &sides.as_slice()[number]
}

// Adds what one run writes to what is written.
fn run<P: Pick>(
    alloc: Global,
    sets: &SetTable,
    subst: &Subst,
    known: &mut Known,
    written: &mut Store,
    pick: &mut P,
) -> Result<(), Memory>
    requires { CanRun (sizes_of sets.now) (look_in known.old) subst.now }
    ensures known { OnOk result (look_in known.new ≡ look_in known.old) }
    ensures written { OnOk result (RunsOver (sizes_of sets.now) subst.now (look_in known.old) written.old written.new) }
{
    match &subst.node {
        SubstNode::Skip => Ok(()),
        SubstNode::Assign { target, value } => {
            let value = value_of(alloc, sets, value, known.store())?;
            written.insert(target.copy(alloc)?, value)
        }
        SubstNode::Together(left, right) => {
            run(alloc, sets, left, known, written, pick)?;
            run(alloc, sets, right, known, written, pick)
        }
        SubstNode::Choice(sides) => {
            let number = pick.below(sides.len() as u64) as usize;
            run(alloc, sets, side(sides, number), known, written, pick)
        }
        SubstNode::If { test, then, other } => {
            if truth_of(alloc, sets, test, known.store())? {
                run(alloc, sets, then, known, written, pick)
            } else {
                run(alloc, sets, other, known, written, pick)
            }
        }
        SubstNode::AnyOf {
            name,
            domain,
            test,
            body,
        } => {
            let before = known.store().value_at(alloc, name)?;
            let start = pick.below(value_count(sets, *domain) as u64) as usize;
            choose(alloc, sets, name, *domain, test, start, known)?;
            run(alloc, sets, body, known, written, pick)?;
            known.put(alloc, name, before)
        }
    }
}
