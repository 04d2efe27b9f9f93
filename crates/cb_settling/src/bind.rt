//! Values of terms, and stores in which names have values.

ghost use Rattle.std.specs.Prelude.{◌≡◌, length, IfOk};
ghost use Rattle.cb_term.specs.Table.{sizes_of};
ghost use Rattle.cb_spec.specs.Bound.{names, bind, bound_look};
ghost use Rattle.cb_spec.specs.Stores.{over, look_of};
ghost use Rattle.cb_spec.specs.Settling.{AreValues};
ghost use Rattle.cb_settling.specs.Resolving.{AreTypedIn};

use cb_eval::typed::value_of;
use cb_spec::state::Values;
use cb_spec::store::Store;
use cb_spec::system::Declared;
use cb_term::Memory;
use cb_term::name::Names;
use cb_term::table::SetTable;
use cb_term::tree::Terms;
use sqlite_items::Items;
use std::alloc::Global;

/// The values of the terms, in order.
pub fn values_of(
    alloc: Global,
    sets: &SetTable,
    terms: &Terms,
    env: &Store,
) -> Result<Values, Memory>
    requires { AreTypedIn (sizes_of sets.now) (look_of env.now) terms.now }
    ensures { IfOk result (λ vs. AreValues (sizes_of sets.now) (look_of env.now) terms.now vs) }
{
    let mut values = Items::new(alloc);
    for term in terms.as_slice() {
        values.push(value_of(alloc, sets, term, env)?)?;
    }
    Ok(values)
}

/// The store in which the parameters have these values, and no other name has one.
pub fn bound_store(alloc: Global, params: &Items<Declared>, args: Values) -> Result<Store, Memory>
    requires { length params.now ≡ length args }
    ensures { IfOk result (λ s. look_of s ≡ bound_look (names params.now) args) }
{
    let mut args = args;
    let mut store = Store::new(alloc);
    let params = params.as_slice();
    let mut left = params.len();
    while left > 0 {
        left -= 1;
        if let Some(value) = args.pop() {
            store.insert(params[left].name.copy(alloc)?, value)?;
        }
    }
    Ok(store)
}

/// The store in which the names have these values, and all other names what they have in the store that is given.
pub fn bound_over(
    alloc: Global,
    store: &Store,
    names: &Names,
    values: &Values,
) -> Result<Store, Memory>
    requires { length names.now ≡ length values.now }
    ensures { IfOk result (λ s. look_of s ≡ over (bind names.now values.now) (look_of store.now)) }
{
    let mut bound = store.copy(alloc)?;
    let names = names.as_slice();
    let values = values.as_slice();
    let mut left = names.len();
    while left > 0 {
        left -= 1;
        bound.insert(names[left].copy(alloc)?, values[left].copy(alloc)?)?;
    }
    Ok(bound)
}
