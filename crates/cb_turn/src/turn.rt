//! The turn and its passes.
ghost use Rattle.std.specs.Prelude.{◌≡◌, Some, IfOk, MatchOption};
ghost use Rattle.cb_turn.specs.Views.{IsPrefix, AnotherHolds, started, taking, giving, split_from, split_off, joined};
ghost use Rattle.cb_turn.specs.Words.{facts, plan, seen, IsHolding, IsFree, IsFirst, splits, Belongs};

use crate::kept::Kept;
use crate::law::{Claim, Law, Part, Release};
use crate::view::View;
use atomic_table::{Seat, Table};
use std::alloc::{AllocError, Global};
use std::snapshot::Snapshot;
use std::sync::Wait;
use std::thread;

/// A caller's token of a turn. It has no bytes.
///
/// Contracts see what it knows: the plan of the value, the entries that it has seen, the places of those that it gave in, whether it holds the value, and how many passes split off from it are not yet joined.
#[derive(Drop)]
pub struct Pass<T: Kept> {
    seat: Seat<Option<T>, View<T::Plan, T::Entry>>,
}

/// The shared place of one value, which passes take and give back.
#[derive(Drop)]
pub struct Turn<T: Kept> {
    table: Table<Option<T>, View<T::Plan, T::Entry>, Snapshot<T>, Law, Global>,
}

impl<T: Kept + Drop + Send> Turn<T> {
    /// Puts the value in its place, and makes the first pass, which has seen the value's list and has no place of its own.
    ///
    /// `AllocError` comes only where there is no memory. The value is then dropped.
    pub fn start(alloc: Global, value: T) -> Result<(Turn<T>, Pass<T>), AllocError>
        ensures { IfOk result (λ r. Belongs r.0 r.1 × (facts r.1 ≡ started (T.plan value) (T.list value))) }
    {
        let about = Snapshot::of(&value);
        let mut slots = Vec::with_capacity(alloc, 1)?;
        slots.push_reserved(Some(value));
        match Table::new(alloc, &[0], slots, &about) {
            Ok((table, seat)) => Ok((Turn { table }, Pass { seat })),
            Err(_) => Err(AllocError),
        }
    }

    /// Takes the value, and does not wait for it. The pass has then seen the value's list.
    ///
    /// `None` comes only where another pass holds the value when this call looks. The pass knows then what it knew.
    pub fn try_take(&self, pass: &mut Pass<T>) -> Option<T>
        requires pass { Belongs self.now pass.old }
        requires free { IsFree pass.old }
        ensures pass { Belongs self.now pass.new }
        ensures taken { MatchOption result
            ((facts pass.new ≡ facts pass.old) × AnotherHolds (facts pass.old))
            (λ x. (plan pass.old ≡ Some (T.plan x)) × IsPrefix (seen pass.old) (T.list x) × (facts pass.new ≡ taking (facts pass.old) (T.list x))) }
    {
        let words = &self.table.shared;
        if words.compare_exchange::<Claim>(&mut pass.seat, 0, 0, 1) != 0 {
            return None;
        }
        let value = words.exchange(&mut pass.seat, 0, None);
        Some(value.unwrap())
    }

    /// Takes the value, and waits until it is there. The pass has then seen the value's list.
    pub fn take<R: Wait>(&self, rt: &R, pass: &mut Pass<T>) -> T
        requires pass { Belongs self.now pass.old }
        requires free { IsFree pass.old }
        ensures pass { Belongs self.now pass.new }
        ensures plan { plan pass.old ≡ Some (T.plan result) }
        ensures begins { IsPrefix (seen pass.old) (T.list result) }
        ensures seen { seen pass.new ≡ T.list result }
        ensures facts { facts pass.new ≡ taking (facts pass.old) (T.list result) }
    {
        for _ in rt.forever() {
            if let Some(value) = self.try_take(pass) {
                return value;
            }
            thread::yield_now();
        }
        unreachable!()
    }

    /// Gives the value back, with the plan that it had and a list that begins with the one taken.
    ///
    /// The pass has then seen the list given, and the places of the new entries are its own.
    pub fn give(&self, pass: &mut Pass<T>, value: T)
        requires pass { Belongs self.now pass.old }
        requires holds { IsHolding pass.old }
        requires plan { plan pass.old ≡ Some (T.plan value) }
        requires begins { IsPrefix (seen pass.old) (T.list value) }
        ensures pass { Belongs self.now pass.new }
        ensures facts { facts pass.new ≡ giving (facts pass.old) (T.list value) }
    {
        let words = &self.table.shared;
        match words.exchange(&mut pass.seat, 0, Some(value)) {
            None => {}
            Some(_) => unreachable!(),
        }
        words.store::<Release>(&mut pass.seat, 0, 0);
    }

    /// Makes a pass for another thread. It has seen what the first pass has seen, and has no place of its own.
    pub fn split(&self, pass: &mut Pass<T>) -> Pass<T>
        requires pass { Belongs self.now pass.old }
        requires first { IsFirst pass.old }
        requires free { IsFree pass.old }
        ensures pass { Belongs self.now pass.new × (facts pass.new ≡ split_from (facts pass.old)) }
        ensures other { Belongs self.now result × (facts result ≡ split_off (facts pass.old)) }
    {
        Pass {
            seat: self.table.shared.split_seat::<Part>(&mut pass.seat),
        }
    }

    /// Joins a pass that was split off to the first one, which has then seen the longer of what both had seen.
    ///
    /// The places of the other's own entries are lost with it, so read them before.
    pub fn join(&self, pass: &mut Pass<T>, other: Pass<T>)
        requires pass { Belongs self.now pass.old }
        requires first { IsFirst pass.old }
        requires free { IsFree pass.old }
        requires other { Belongs self.now other × IsFree other }
        ensures pass { Belongs self.now pass.new }
        ensures facts { facts pass.new ≡ joined (facts pass.old) (facts other) }
    {
        let Pass { seat } = other;
        self.table.shared.join_seat::<Part>(&mut pass.seat, seat);
    }

    /// Ends the turn once every pass split off is joined, and hands the value out.
    pub fn close(self, pass: Pass<T>) -> T
        requires pass { Belongs self pass }
        requires first { IsFirst pass }
        requires free { IsFree pass }
        requires all_joined { splits pass ≡ 0 }
        ensures plan { plan pass ≡ Some (T.plan result) }
        ensures begins { IsPrefix (seen pass) (T.list result) }
    {
        let Turn { table } = self;
        let Pass { seat } = pass;
        let mut closed = table.close_with(seat);
        let value = closed.take(0);
        closed.free();
        value.unwrap()
    }
}
