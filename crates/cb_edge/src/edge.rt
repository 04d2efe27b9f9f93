//! What the product needs of the outside, as traits.
ghost use Rattle.std.specs.Prelude.{◌≡◌, ℕ, ◌<◌, ◌≤◌, List, length, IfOk};
ghost use Rattle.std.specs.declared.option.Option.{Option};
ghost use Rattle.std.specs.Io.KnownBytes.{WriteAppends};
ghost use Rattle.cb_edge.specs.Edge.{HasCause, ReadsHeld, NoneFalls, StaysSure, KeepsRoom};

use std::alloc::AllocError;
use thiserror::Error;

/// Want of memory.
pub type Memory = AllocError;

/// A read or a write that the outside refused.
///
/// It comes only where the count of faults of what was called rose in the call. A count starts at 0 and
/// stays at its last value, 2^64 - 1; there it counts as risen.
#[derive(Clone, Copy, Debug, PartialEq, Eq, Error)]
#[error("the outside failed")]
pub struct Failed;

/// Files by their names.
pub trait Files {
    /// The bytes held under each name, where they are told.
    ghost held: { Self → List ℕ → Option (List ℕ) };

    /// For each name a number that never falls: the faults that were counted under it.
    ghost faults: { Self → List ℕ → ℕ };

    /// Reads of this name are sure not to fail.
    ghost sure: { Self → List ℕ → Type 0 };

    /// Reads bytes from the place `at` on into the front of `buf`, and answers how many they are.
    ///
    /// 0 is the end of the file: it comes exactly at or past its end. `buf` isn't empty. No read changes
    /// what the files hold.
    ///
    /// # Errors
    ///
    /// `Failed` where the count of this very name rose.
    fn read_at(&mut self, name: &str, at: u64, buf: &mut [u8]) -> Result<usize, Failed>
        requires { 0 < length buf.old }
        ensures bound { IfOk result (λ n. n ≤ length buf.new) }
        ensures bytes { ReadsHeld (held self.old name.now) at result buf.new }
        ensures held { (other : List ℕ) → held self.new other ≡ held self.old other }
        ensures later { NoneFalls (faults self.old) (faults self.new) }
        ensures cause { HasCause (faults self.old name.now) (faults self.new name.now) result }
        ensures sure { StaysSure (sure self.old) (sure self.new) (faults self.old) (faults self.new) };
}

/// A place where bytes are written one after another.
pub trait Sink {
    /// The written bytes, where they are told.
    ghost written: { Self → Option (List ℕ) };

    /// A number that never falls: the faults that were counted.
    ghost faults: { Self → ℕ };

    /// So many bytes more are sure to be taken.
    ghost sure: { Self → ℕ → Type 0 };

    /// Appends the first bytes of `piece`, and answers how many they are: one at least. `piece` isn't empty.
    ///
    /// # Errors
    ///
    /// `Failed` where the count of faults rose. Then nothing was appended.
    fn write(&mut self, piece: &[u8]) -> Result<usize, Failed>
        requires { 0 < length piece.now }
        ensures bound { IfOk result (λ n. (0 < n) × (n ≤ length piece.now)) }
        ensures bytes { WriteAppends (written self.old) (written self.new) result piece.now }
        ensures cause { HasCause (faults self.old) (faults self.new) result }
        ensures sure { KeepsRoom (sure self.old) (sure self.new) (faults self.old) (faults self.new) (length piece.now) result };
}

/// What is called before each step of a controller, while the turn isn't held.
pub trait Gate {
    /// Returns when the controller with this number may go on.
    fn before(&self, controller: u32);
}

/// A gate that lets every step pass at once.
#[derive(Clone, Copy, Debug)]
pub struct NoGate;

impl Gate for NoGate {
    fn before(&self, _controller: u32) {}
}
