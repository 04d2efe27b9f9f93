//! The turn and its passes.
ghost use Rattle.std.specs.Prelude.{◌≡◌, Some, IfOk, MatchOption};
ghost use Rattle.cb_turn.specs.Views.{IsPrefix, AnotherHolds, started, taking, giving, split_from, split_off, joined};
ghost use Rattle.cb_turn_queue.specs.Words.{facts, plan, seen, IsHolding, IsFree, IsFirst, splits, Belongs};

use crate::law::{Give, Law, Part, Start, Take};
use cb_turn::{Kept, View};
use crossbeam_queue::{Pass, RuledArrayQueue};
use std::alloc::{AllocError, Global};
use std::sync::Wait;
use std::thread;

/// A caller's token of a turn. It has no bytes, and contracts see of it what they see of `cb_turn`'s `Pass`.
#[derive(Drop)]
pub struct QueuePass<T: Kept> {
    seat: Pass<T, View<T::Plan, T::Entry>>,
}

/// The shared place of one value, which passes take and give back. What its calls promise, `cb_turn`'s `Turn` promises in the same words; but here those that take or give the value may wait.
#[derive(Drop)]
pub struct QueueTurn<T: Kept> {
    queue: RuledArrayQueue<T, View<T::Plan, T::Entry>, Law>,
}

impl<T: Kept + Drop + Send> QueueTurn<T> {
    /// Puts the value in its place, and makes the first pass, which has seen the value's list and has no place of its own.
    ///
    /// `AllocError` comes only where there is no memory. The value is then dropped.
    pub fn start(alloc: Global, value: T) -> Result<(QueueTurn<T>, QueuePass<T>), AllocError>
        ensures { IfOk result (λ r. Belongs r.0 r.1 × (facts r.1 ≡ started (T.plan value) (T.list value))) }
    {
        let (queue, mut seat) = RuledArrayQueue::ruled(alloc, 1)?;
        match queue.try_push_as::<Start>(&mut seat, value) {
            Ok(()) => Ok((QueueTurn { queue }, QueuePass { seat })),
            // It comes only where another thread has the queue, and none has it yet. No clause of the push says so.
            Err(_) => Err(AllocError),
        }
    }

    /// Takes the value, and does not wait for it to be given back. The pass has then seen the value's list.
    ///
    /// `None` comes only where another pass held the value at one moment of this call. The pass knows then what it knew.
    pub fn try_take<R: Wait>(&self, rt: &R, pass: &mut QueuePass<T>) -> Option<T>
        requires pass { Belongs self.now pass.old }
        requires free { IsFree pass.old }
        ensures pass { Belongs self.now pass.new }
        ensures taken { MatchOption result
            ((facts pass.new ≡ facts pass.old) × AnotherHolds (facts pass.old))
            (λ x. (plan pass.old ≡ Some (T.plan x)) × IsPrefix (seen pass.old) (T.list x) × (facts pass.new ≡ taking (facts pass.old) (T.list x))) }
    {
        self.queue.pop_as::<Take, R>(rt, &mut pass.seat)
    }

    /// Takes the value, and waits until it is there. The pass has then seen the value's list.
    pub fn take<R: Wait>(&self, rt: &R, pass: &mut QueuePass<T>) -> T
        requires pass { Belongs self.now pass.old }
        requires free { IsFree pass.old }
        ensures pass { Belongs self.now pass.new }
        ensures plan { plan pass.old ≡ Some (T.plan result) }
        ensures begins { IsPrefix (seen pass.old) (T.list result) }
        ensures seen { seen pass.new ≡ T.list result }
        ensures facts { facts pass.new ≡ taking (facts pass.old) (T.list result) }
    {
        for _ in rt.forever() {
            if let Some(value) = self.try_take(rt, pass) {
                return value;
            }
            thread::yield_now();
        }
        unreachable!()
    }

    /// Gives the value back, with the plan that it had and a list that begins with the one taken.
    ///
    /// The pass has then seen the list given, and the places of the new entries are its own.
    pub fn give<R: Wait>(&self, rt: &R, pass: &mut QueuePass<T>, value: T)
        requires pass { Belongs self.now pass.old }
        requires holds { IsHolding pass.old }
        requires plan { plan pass.old ≡ Some (T.plan value) }
        requires begins { IsPrefix (seen pass.old) (T.list value) }
        ensures pass { Belongs self.now pass.new }
        ensures facts { facts pass.new ≡ giving (facts pass.old) (T.list value) }
    {
        match self.queue.push_as::<Give, R>(rt, &mut pass.seat, value) {
            Ok(()) => {}
            Err(_) => unreachable!(),
        }
    }

    /// Makes a pass for another thread. It has seen what the first pass has seen, and has no place of its own.
    pub fn split(&self, pass: &mut QueuePass<T>) -> QueuePass<T>
        requires pass { Belongs self.now pass.old }
        requires first { IsFirst pass.old }
        requires free { IsFree pass.old }
        ensures pass { Belongs self.now pass.new × (facts pass.new ≡ split_from (facts pass.old)) }
        ensures other { Belongs self.now result × (facts result ≡ split_off (facts pass.old)) }
    {
        QueuePass {
            seat: self.queue.another::<Part>(&mut pass.seat),
        }
    }

    /// Joins a pass that was split off to the first one, which has then seen the longer of what both had seen.
    ///
    /// The places of the other's own entries are lost with it, so read them before.
    pub fn join(&self, pass: &mut QueuePass<T>, other: QueuePass<T>)
        requires pass { Belongs self.now pass.old }
        requires first { IsFirst pass.old }
        requires free { IsFree pass.old }
        requires other { Belongs self.now other × IsFree other }
        ensures pass { Belongs self.now pass.new }
        ensures facts { facts pass.new ≡ joined (facts pass.old) (facts other) }
    {
        let QueuePass { seat } = other;
        self.queue.absorb::<Part>(&mut pass.seat, seat);
    }

    /// Ends the turn once every pass split off is joined, and hands the value out.
    pub fn close<R: Wait>(self, rt: &R, pass: QueuePass<T>) -> T
        requires pass { Belongs self pass }
        requires first { IsFirst pass }
        requires free { IsFree pass }
        requires all_joined { splits pass ≡ 0 }
        ensures plan { plan pass ≡ Some (T.plan result) }
        ensures begins { IsPrefix (seen pass) (T.list result) }
    {
        let QueuePass { mut seat } = pass;
        match self.queue.pop_as::<Take, R>(rt, &mut seat) {
            Some(value) => value,
            None => unreachable!(),
        }
    }
}
