//! A value for the tests to keep.
ghost use Rattle.std.specs.Prelude.{◌≡◌, [], ◌++◌, ◌∷◌, IfOk, OnOk, OnErr};

use cb_turn::Kept;
use std::alloc::{AllocError, Global};

/// Numbers, of which each is added at the end. Its plan is the number that names it.
#[derive(Drop)]
pub struct Numbers {
    pub name: u32,
    pub items: Vec<u64>,
}

impl Kept for Numbers {
    type Plan = u32;

    type Entry = u64;

    ghost plan = { λ n. n.name };

    ghost list = { λ n. n.items.items };
}

impl Numbers {
    pub fn new(alloc: Global, name: u32) -> Numbers
        ensures name { result.name ≡ name }
        ensures items { result.items.items ≡ [] }
    {
        Numbers {
            name,
            items: Vec::new(alloc),
        }
    }

    pub fn add(&mut self, number: u64) -> Result<(), AllocError>
        ensures name { self.new.name ≡ self.old.name }
        ensures ok { OnOk result (self.new.items.items ≡ self.old.items.items ++ number ∷ []) }
        ensures err { OnErr result (self.new.items.items ≡ self.old.items.items) }
    {
        self.items.push(number)?;
        Ok(())
    }
}
