//! Sets of numbers, as those of the machines whose names are known at a place.

ghost use Rattle.std.specs.Prelude.{◌≡◌, [], OnOk};
ghost use Rattle.cb_forms.specs.Find.{is_in, with_number};

use cb_lex::Memory;
use indexmap::IndexSet;
use std::alloc::Global;
use std::marker::Model;

/// Numbers, which contracts see as a list in the order in which they came.
#[derive(Drop)]
pub struct Owners {
    numbers: IndexSet<u32>,
}

impl Model for Owners {
    ghost use Rattle.std.specs.Prelude.{List, ℕ};

    ghost Value = { List ℕ };

    ghost view = { λ o. o.numbers.keys };
}

impl Owners {
    /// No number.
    pub fn new(alloc: Global) -> Owners
        ensures { result ≡ [] }
    {
        Owners {
            numbers: IndexSet::new(alloc),
        }
    }

    /// Whether the number is one of them.
    pub fn has(&self, number: u32) -> bool
        ensures { result ≡ is_in number self.now }
    {
        self.numbers.contains(&number)
    }

    /// Adds the number.
    pub fn add(&mut self, number: u32) -> Result<(), Memory>
        ensures { OnOk result (self.new ≡ with_number number self.old) }
    {
        self.numbers.insert(number)?;
        Ok(())
    }
}
