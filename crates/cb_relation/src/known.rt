//! What names stand for while a substitution runs.

ghost use Rattle.std.specs.Prelude.{◌≡◌, OnOk};
ghost use Rattle.cb_term.specs.Values.{set_at};
ghost use Rattle.cb_relation.specs.Trying.{writes_of, look_in};

use cb_spec::store::Store;
use cb_term::Memory;
use cb_term::name::Name;
use cb_term::value::Value;
use std::alloc::Global;

/// The store that is given, or from the first ANY on a copy of it, in which the variables of ANY have their values.
#[derive(Drop)]
pub enum Known<'a> {
    Given(&'a Store),
    Own(Store),
}

impl Known<'_> {
    /// The store in which names are looked up.
    pub fn store(&self) -> &Store
        ensures { result.now ≡ writes_of self.now }
    {
        match self {
            Known::Given(store) => store,
            Known::Own(store) => store,
        }
    }

    /// Gives the name this value.
    pub fn put(&mut self, alloc: Global, name: &Name, value: Value) -> Result<(), Memory>
        ensures { OnOk result (look_in self.new ≡ set_at (look_in self.old) name.now value) }
    {
        let name = name.copy(alloc)?;
        match self {
            Known::Given(store) => {
                let mut own = store.copy(alloc)?;
                own.insert(name, value)?;
                *self = Known::Own(own);
                Ok(())
            }
            Known::Own(store) => store.insert(name, value),
        }
    }
}
