//! The sides that internal choices take.

ghost use Rattle.std.specs.Prelude.{◌≡◌, ◌<◌, ◌∷◌, ◌++◌, [], length};
ghost use Rattle.cb_spec.specs.Settling.{number_of};

use std::marker::Model;

/// The sides that were taken, at most 64. Contracts see them in order, true for a right one.
#[derive(Drop)]
pub struct Sides {
    bits: u64,
    count: u32,
}

impl Model for Sides {
    ghost use Rattle.std.specs.Prelude.{List, Bool, ◌<◌, ◌≤◌, ◌^◌};

    ghost Value = { List Bool };

    ghost use Rattle.cb_code.specs.Sides.{sides_of};

    ghost view = { λ s. sides_of s.count s.bits };

    ghost invariant = { λ s. (s.count ≤ 64) × (s.bits < 2 ^ s.count) };
}

impl Sides {
    /// No sides.
    pub fn new() -> Sides
        ensures { result ≡ [] }
    {
        Sides { bits: 0, count: 0 }
    }

    /// Adds a side.
    pub fn push(&mut self, right: bool)
        requires { length self.old < 64 }
        ensures { self.new ≡ self.old ++ right ∷ [] }
    {
        if right {
            self.bits += 2u64.pow(self.count);
        }
        self.count += 1;
    }

    /// The sides as bits, the first being the lowest.
    pub fn bits(&self) -> u64
        ensures { result ≡ number_of self.now }
    {
        self.bits
    }
}
