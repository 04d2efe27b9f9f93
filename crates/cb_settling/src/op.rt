//! Performing an operation, its parameters having places in the store.

ghost use Rattle.std.specs.Prelude.{◌≡◌, length, map, IfOk, OnOk, OnErr};
ghost use Rattle.cb_term.specs.Table.{sizes_of};
ghost use Rattle.cb_spec.specs.Stores.{look_of, over};
ghost use Rattle.cb_spec.specs.Bound.{names, bind};
ghost use Rattle.cb_spec.specs.Machines.{with_args};
ghost use Rattle.cb_relation.specs.Performing.{CanRun, IsRunOf};
ghost use Rattle.cb_settling.specs.Ops.{AllThere, SameBut, AllNothing, HasRoom, KeepsNames};

use cb_relation::perform::perform;
use cb_relation::pick::Pick;
use cb_spec::state::Values;
use cb_spec::store::Store;
use cb_spec::system::{Declared, Operation};
use cb_term::Memory;
use cb_term::name::Name;
use cb_term::table::SetTable;
use cb_term::value::Value;
use sqlite_items::Items;
use std::alloc::Global;

// Gives the parameters copies of the arguments.
fn put_args(
    alloc: Global,
    store: &mut Store,
    params: &[Declared],
    args: &[Value],
) -> Result<(), Memory>
    requires there { AllThere (names params.now) store.old }
    requires as_many { length params.now ≡ length args.now }
    ensures ok { OnOk result (look_of store.new ≡ over (bind (names params.now) args.now) (look_of store.old)) }
    ensures others { SameBut (names params.now) (look_of store.old) (look_of store.new) }
    ensures names { KeepsNames store.old store.new }
{
    let mut left = params.len();
    while left > 0 {
        left -= 1;
        let value = args[left].copy(alloc)?;
        let _old = store.replace(&params[left].name, value);
    }
    Ok(())
}

// Gives the parameters 0 again. It takes no memory.
fn clear(store: &mut Store, params: &[Declared])
    requires there { AllThere (names params.now) store.old }
    ensures zero { AllNothing (names params.now) (look_of store.new) }
    ensures others { SameBut (names params.now) (look_of store.old) (look_of store.new) }
    ensures names { KeepsNames store.old store.new }
{
    let mut left = params.len();
    while left > 0 {
        left -= 1;
        let _old = store.replace(&params[left].name, Value::Int(0));
    }
}

// One run of the body, the parameters having the arguments' values afterwards.
fn run<P: Pick>(
    alloc: Global,
    sets: &SetTable,
    operation: &Operation,
    args: &Values,
    store: &mut Store,
    pick: &mut P,
) -> Result<Store, Memory>
    requires there { AllThere (names operation.now.params) store.old }
    requires as_many { length operation.now.params ≡ length args.now }
    requires can { CanRun (sizes_of sets.now) (with_args operation.now args.now (look_of store.old)) operation.now.body }
    ensures ok { IfOk result (λ e. IsRunOf (sizes_of sets.now) operation.now.body (with_args operation.now args.now (look_of store.old)) e) }
    ensures others { SameBut (names operation.now.params) (look_of store.old) (look_of store.new) }
    ensures names { KeepsNames store.old store.new }
{
    put_args(alloc, store, operation.params.as_slice(), args.as_slice())?;
    perform(alloc, sets, &operation.body, store, pick)
}

/// What one run of an operation's body writes. In the store names stand for what they did, also after want of memory.
pub fn performed<P: Pick>(
    alloc: Global,
    sets: &SetTable,
    operation: &Operation,
    args: &Values,
    store: &mut Store,
    pick: &mut P,
) -> Result<Store, Memory>
    requires room { HasRoom (names operation.now.params) store.old }
    requires as_many { length operation.now.params ≡ length args.now }
    requires can { CanRun (sizes_of sets.now) (with_args operation.now args.now (look_of store.old)) operation.now.body }
    ensures ok { IfOk result (λ e. IsRunOf (sizes_of sets.now) operation.now.body (with_args operation.now args.now (look_of store.old)) e) }
    ensures same { look_of store.new ≡ look_of store.old }
    ensures names { KeepsNames store.old store.new }
{
    let answer = run(alloc, sets, operation, args, store, pick);
    clear(store, operation.params.as_slice());
    answer
}

// Copies of the values alone.
fn values_in(alloc: Global, entries: &[(Name, Value)]) -> Result<Items<Value>, Memory>
    ensures { IfOk result (λ vs. vs ≡ map (λ e. e.1) entries.now) }
{
    let mut values = Items::new(alloc);
    for entry in entries {
        values.push(entry.1.copy(alloc)?)?;
    }
    Ok(values)
}

// Gives each of the names, which are all there, its value. It takes no memory.
fn replace_all(store: &mut Store, entries: &[(Name, Value)], values: Items<Value>)
    requires values { values ≡ map (λ e. e.1) entries.now }
    requires there { AllThere (map (λ e. e.0) entries.now) store.old }
    ensures look { look_of store.new ≡ over entries.now (look_of store.old) }
    ensures names { KeepsNames store.old store.new }
{
    let mut values = values;
    let mut left = entries.len();
    while left > 0 {
        left -= 1;
        if let Some(value) = values.pop() {
            let _old = store.replace(&entries[left].0, value);
        }
    }
}

/// Writes the values of the other store over those of its names, which are all there. After want of memory the store is as before.
pub fn write_over(alloc: Global, store: &mut Store, written: &Store) -> Result<(), Memory>
    requires { AllThere (map (λ e. e.0) written.now) store.old }
    ensures ok { OnOk result (look_of store.new ≡ over written.now (look_of store.old)) }
    ensures names { KeepsNames store.old store.new }
    ensures err { OnErr result (store.new ≡ store.old) }
{
    let values = values_in(alloc, written.entries())?;
    replace_all(store, written.entries(), values);
    Ok(())
}
