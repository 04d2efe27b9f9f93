//! Pickers: who takes the choices that are left.

ghost use Rattle.std.specs.Prelude.{◌≡◌, ◌<◌, ◌/◌, ◌%◌, ◌^◌};
ghost use Rattle.cb_relation.specs.Picks.{next_state};

use std::marker::Model;

/// Takes the choices that are left.
pub trait Pick {
    /// A number below n.
    fn below(&mut self, n: u64) -> u64
        requires { 0 < n }
        ensures { result < n };
}

/// A stream of numbers that a seed tells. Contracts see its state.
#[derive(Debug, Drop)]
pub struct Stream {
    state: u64,
}

impl Model for Stream {
    ghost use Rattle.std.specs.Prelude.{ℕ};

    ghost Value = { ℕ };

    ghost view = { λ s. s.state };
}

impl Stream {
    /// The stream of this seed.
    pub fn new(seed: u64) -> Stream
        ensures { result ≡ seed }
    {
        Stream { state: seed }
    }
}

impl Pick for Stream {
    fn below(&mut self, n: u64) -> u64
        requires { 0 < n }
        ensures state { self.new ≡ next_state self.old }
        ensures number { result ≡ (next_state self.old / 2 ^ 33) % n }
        ensures below { result < n }
    {
        self.state = self
            .state
            .wrapping_mul(6364136223846793005)
            .wrapping_add(1442695040888963407);
        (self.state >> 33) % n
    }
}
