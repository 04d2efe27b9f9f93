//! Calls: what one run of an operation gives back, and what it leaves in its machine's variables.

ghost use Rattle.std.specs.Prelude.{◌≡◌, length, map, IfOk};
ghost use Rattle.cb_term.specs.Table.{sizes_of};
ghost use Rattle.cb_spec.specs.Stores.{look_of, SameMap};
ghost use Rattle.cb_spec.specs.Bound.{names, result_names, only};
ghost use Rattle.cb_spec.specs.Machines.{with_args};
ghost use Rattle.cb_relation.specs.Performing.{CanRun};
ghost use Rattle.cb_settling.specs.Ops.{HasRoom, KeepsNames};
ghost use Rattle.cb_settling.specs.Calling.{IsCalled};

use crate::op::performed;
use cb_relation::pick::Pick;
use cb_spec::state::Values;
use cb_spec::store::Store;
use cb_spec::system::{Declared, Machine, Operation};
use cb_term::Memory;
use cb_term::kind::Kind;
use cb_term::name::Name;
use cb_term::table::SetTable;
use sqlite_items::Items;
use std::alloc::Global;

/// What came of a call.
#[derive(Drop)]
pub struct Called {
    /// The values of the operation's results, in their order.
    pub results: Values,
    /// What is written to the machine's variables.
    pub written: Store,
}

// Copies of the values that the results have.
fn results_in(
    alloc: Global,
    results: &Items<(Name, Kind)>,
    written: &Store,
) -> Result<Values, Memory>
    ensures { IfOk result (λ vs. vs ≡ map (look_of written.now) (result_names results.now)) }
{
    let mut values = Items::new(alloc);
    for result in results.as_slice() {
        values.push(written.value_at(alloc, &result.0)?)?;
    }
    Ok(values)
}

// A copy of what is written to the variables alone.
fn written_to(alloc: Global, variables: &Items<Declared>, written: &Store) -> Result<Store, Memory>
    ensures { IfOk result (λ s. SameMap s (only (names variables.now) written.now)) }
{
    let mut own = Store::new(alloc);
    for variable in variables.as_slice() {
        if let Some(value) = written.get(&variable.name) {
            own.insert(variable.name.copy(alloc)?, value.copy(alloc)?)?;
        }
    }
    Ok(own)
}

/// One run of an operation of the machine with these arguments. What names stand for in the store is as before, also after want
/// of memory: what is written is handed out.
pub fn call_operation<P: Pick>(
    alloc: Global,
    sets: &SetTable,
    machine: &Machine,
    operation: &Operation,
    args: &Values,
    store: &mut Store,
    pick: &mut P,
) -> Result<Called, Memory>
    requires room { HasRoom (names operation.now.params) store.old }
    requires as_many { length operation.now.params ≡ length args.now }
    requires can { CanRun (sizes_of sets.now) (with_args operation.now args.now (look_of store.old)) operation.now.body }
    ensures ok { IfOk result (λ c. IsCalled (sizes_of sets.now) machine.now operation.now args.now (look_of store.old) c) }
    ensures same { look_of store.new ≡ look_of store.old }
    ensures names { KeepsNames store.old store.new }
{
    let all = performed(alloc, sets, operation, args, store, pick)?;
    let results = results_in(alloc, &operation.results, &all)?;
    let written = written_to(alloc, &machine.variables, &all)?;
    Ok(Called { results, written })
}
