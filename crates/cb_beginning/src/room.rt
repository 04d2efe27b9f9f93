//! Places in the store for all names that calls give values.

ghost use Rattle.std.specs.Prelude.{◌≡◌, flat_map, IfOk, OnOk};
ghost use Rattle.cb_spec.specs.Bound.{names};
ghost use Rattle.cb_beginning.specs.Room.{GivesPlaces, names_in};

use cb_spec::store::Store;
use cb_spec::system::{Declared, Machine, System};
use cb_term::Memory;
use cb_term::value::Value;
use sqlite_items::Items;
use std::alloc::Global;

// Gives each name that the store lacks the value 0, which it counts as anyway.
fn add_names(alloc: Global, store: &mut Store, declared: &Items<Declared>) -> Result<(), Memory>
    ensures { OnOk result (GivesPlaces (names declared.now) store.old store.new) }
{
    for one in declared.as_slice() {
        if store.get(&one.name).is_none() {
            store.insert(one.name.copy(alloc)?, Value::Int(0))?;
        }
    }
    Ok(())
}

// The same for a machine's variables and the parameters of its operations.
fn add_machine(alloc: Global, store: &mut Store, machine: &Machine) -> Result<(), Memory>
    ensures { OnOk result (GivesPlaces (names_in machine.now) store.old store.new) }
{
    add_names(alloc, store, &machine.variables)?;
    for operation in machine.operations.as_slice() {
        add_names(alloc, store, &operation.params)?;
    }
    Ok(())
}

/// A copy of the store that has each machine's variables, and each parameter of an operation. Names stand for what they did.
pub fn with_room(alloc: Global, system: &System, initial: &Store) -> Result<Store, Memory>
    ensures { IfOk result (λ d. GivesPlaces (flat_map names_in system.now.machines) initial.now d) }
{
    let mut store = initial.copy(alloc)?;
    for machine in system.machines.as_slice() {
        add_machine(alloc, &mut store, machine)?;
    }
    Ok(store)
}
