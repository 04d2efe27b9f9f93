//! The choice of a value for an ANY.

ghost use Rattle.std.specs.Prelude.{◌≡◌, ◌<◌, ◌↔◌, [], IfOk, OnOk, IsTrue};
ghost use Rattle.cb_term.specs.Holds.{Holds};
ghost use Rattle.cb_term.specs.Table.{sizes_of};
ghost use Rattle.cb_term.specs.Values.{set_at};
ghost use Rattle.cb_eval.specs.Walks.{is_walkable, count_of, value_number};
ghost use Rattle.cb_relation.specs.Trying.{look_in, TypedForEach, SomeMeets, IsChosen};

use crate::known::Known;
use cb_eval::typed::truth_of;
use cb_eval::walk::{value_at, value_count};
use cb_term::Memory;
use cb_term::kind::Domain;
use cb_term::name::Name;
use cb_term::table::SetTable;
use cb_term::tree::Formula;
use std::alloc::Global;

// Gives the name the value of its domain with this number, and tells whether the test holds then.
fn meets(
    alloc: Global,
    sets: &SetTable,
    name: &Name,
    domain: Domain,
    test: &Formula,
    number: usize,
    known: &mut Known,
) -> Result<bool, Memory>
    requires walkable { IsTrue (is_walkable (sizes_of sets.now) domain) }
    requires within { number < count_of (sizes_of sets.now) domain }
    requires typed { TypedForEach (sizes_of sets.now) (look_in known.old) name.now domain test.now }
    ensures met { IfOk result (λ b. IsTrue b ↔ Holds (sizes_of sets.now) (set_at (look_in known.old) name.now (value_number (sizes_of sets.now) domain number)) test.now []) }
    ensures known { OnOk result (look_in known.new ≡ set_at (look_in known.old) name.now (value_number (sizes_of sets.now) domain number)) }
{
    let value = value_at(alloc, sets, domain, number)?;
    known.put(alloc, name, value)?;
    truth_of(alloc, sets, test, known.store())
}

/// Gives the name the first value of its domain that meets the test, from the value with the number `start` on and then from
/// the first.
pub fn choose(
    alloc: Global,
    sets: &SetTable,
    name: &Name,
    domain: Domain,
    test: &Formula,
    start: usize,
    known: &mut Known,
) -> Result<(), Memory>
    requires walkable { IsTrue (is_walkable (sizes_of sets.now) domain) }
    requires within { start < count_of (sizes_of sets.now) domain }
    requires typed { TypedForEach (sizes_of sets.now) (look_in known.old) name.now domain test.now }
    requires some { SomeMeets (sizes_of sets.now) (look_in known.old) name.now domain test.now }
    ensures { OnOk result (IsChosen (sizes_of sets.now) (look_in known.old) (look_in known.new) name.now domain test.now) }
{
    for number in start..value_count(sets, domain) {
        if meets(alloc, sets, name, domain, test, number, known)? {
            return Ok(());
        }
    }
    for number in 0..start {
        if meets(alloc, sets, name, domain, test, number, known)? {
            return Ok(());
        }
    }
    unreachable!()
}
