//! The values with which the machines' variables begin.

ghost use Rattle.std.specs.Prelude.{◌≡◌, ◌++◌, IfOk, OnOk};
ghost use Rattle.cb_spec.specs.Stores.{SameMap};
ghost use Rattle.cb_spec.specs.Journals.{set_sizes};
ghost use Rattle.cb_spec.specs.Typed.{Typed};
ghost use Rattle.cb_spec.specs.Sound.{Sound};
ghost use Rattle.cb_beginning.specs.Initial.{HaveBegun};

use cb_relation::perform::perform;
use cb_relation::pick::Pick;
use cb_spec::store::Store;
use cb_spec::system::System;
use cb_term::Memory;
use std::alloc::Global;

// Writes the values of the other store over those of this one.
fn write_over(alloc: Global, store: &mut Store, written: &Store) -> Result<(), Memory>
    ensures { OnOk result (SameMap store.new (written.now ++ store.old)) }
{
    let entries = written.entries();
    let mut left = entries.len();
    while left > 0 {
        left -= 1;
        store.insert(entries[left].0.copy(alloc)?, entries[left].1.copy(alloc)?)?;
    }
    Ok(())
}

/// The values that the machines' initialisations write, each run once where no name has a value.
pub fn initial_store<P: Pick>(alloc: Global, system: &System, pick: &mut P) -> Result<Store, Memory>
    requires typed { Typed system.now }
    requires sound { Sound system.now }
    ensures { IfOk result (λ d. HaveBegun (set_sizes system.now) system.now.machines d) }
{
    let nothing = Store::new(alloc);
    let mut values = Store::new(alloc);
    let machines = system.machines.as_slice();
    let mut left = machines.len();
    while left > 0 {
        left -= 1;
        let written = perform(alloc, &system.sets, &machines[left].init, &nothing, pick)?;
        write_over(alloc, &mut values, &written)?;
    }
    Ok(values)
}
