//! Rows of sides, with marks of them on each channel and counts, so that nothing is searched for.

ghost use Rattle.std.specs.Prelude.{◌≡◌, ◌<◌, ◌≤◌, ◌-◌, ◌^◌, ◌∷◌, ◌++◌, [], length, take, map, replicate, IsTrue, ◌↔◌, MatchOption, IfOk, OnOk, OnErr};
ghost use Rattle.cb_offers.specs.Tables.{AreWithin, IsFiring};
ghost use Rattle.cb_offers.specs.Kept.{call_of, rows_of, row_at, IsThere, IsKept, Steps, HasRoom, CanOffer, Ready, NoneReady, IsReadyAt, AreFresh, IsNew};

use crate::channels::{Channel, met_at, put_at, reserve_at, take_at};
use crate::marks::Mark;
use crate::offers::Side;
use std::alloc::{AllocError, Global};

/// What each controller offers, with all that is kept of it.
#[derive(Drop)]
pub struct Table {
    pub channels: Vec<Channel>,
    pub rows: Vec<Vec<Side>>,
    /// How many channels have both ends offered.
    pub met: u32,
    /// How many branches are calls.
    pub calls: u64,
}

// 1 if the side is a call, else 0.
fn call_of(side: Side) -> u64
    ensures { result ≡ call_of side }
{
    match side {
        Side::Output(_) | Side::Input(_) => 0,
        Side::Call => 1,
    }
}

// Channels with no marks.
fn fresh_channels(alloc: Global, count: u32) -> Result<Vec<Channel>, AllocError>
    ensures fresh { IfOk result (λ v. AreFresh v.items) }
    ensures as_many { IfOk result (λ v. length v.items ≡ count) }
{
    let mut channels = Vec::new(alloc);
    for _number in 0..count {
        channels.push(Channel {
            senders: Vec::new(alloc),
            receivers: Vec::new(alloc),
        })?;
    }
    Ok(channels)
}

// Rows with no sides.
fn empty_rows(alloc: Global, count: u32) -> Result<Vec<Vec<Side>>, AllocError>
    ensures { IfOk result (λ v. map (λ row. row.items) v.items ≡ replicate count []) }
{
    let mut rows = Vec::new(alloc);
    for _number in 0..count {
        rows.push(Vec::new(alloc))?;
    }
    Ok(rows)
}

// Whether the side is a call, or both ends of its channel are offered.
fn is_ready(channels: &[Channel], side: Side) -> bool
    requires { IsThere (length channels.now) side }
    ensures { IsTrue result ↔ Ready channels.now side }
{
    match side {
        Side::Output(_) | Side::Input(_) => met_at(channels, side) == 1,
        Side::Call => true,
    }
}

// The first side of the row that is ready, of those from `low` on and below `high`.
fn ready_in(channels: &[Channel], row: &[Side], low: usize, high: usize) -> Option<u32>
    requires within { AreWithin (length channels.now) row.now }
    requires few { length row.now < 2 ^ 32 }
    requires high { high ≤ length row.now }
    ensures { MatchOption result (NoneReady channels.now row.now low high) (IsReadyAt channels.now row.now) }
{
    for branch in low..high {
        if is_ready(channels, row[branch]) {
            return Some(branch as u32);
        }
    }
    None
}

impl Table {
    /// A table of so many channels and controllers, without offers.
    pub fn new(alloc: Global, channels: u32, controllers: u32) -> Result<Table, AllocError>
        ensures { IfOk result (IsNew channels controllers) }
    {
        let channels = fresh_channels(alloc, channels)?;
        let rows = empty_rows(alloc, controllers)?;
        Ok(Table {
            channels,
            rows,
            met: 0,
            calls: 0,
        })
    }

    // Adds a branch to the controller's row. There is room for all that this wants.
    fn offer(&mut self, controller: u32, side: Side)
        requires kept { IsKept self.old }
        requires can { CanOffer self.old controller side }
        ensures { Steps controller self.old self.new (row_at self.old controller ++ side ∷ []) }
    {
        let row = &mut self.rows[controller as usize];
        let branch = row.len() as u32;
        row.push_reserved(side);
        let before = met_at(&self.channels, side);
        put_at(&mut self.channels, side, Mark { controller, branch });
        let after = met_at(&self.channels, side);
        self.met = self.met - before + after;
        self.calls += call_of(side);
    }

    // Takes the last branch off the controller's row.
    fn withdraw(&mut self, controller: u32)
        requires kept { IsKept self.old }
        requires range { controller < length (rows_of self.old) }
        requires some { 0 < length (row_at self.old controller) }
        ensures { Steps controller self.old self.new (take (length (row_at self.old controller) - 1) (row_at self.old controller)) }
    {
        let row = &mut self.rows[controller as usize];
        let Some(side) = row.pop() else {
            unreachable!()
        };
        let branch = row.len() as u32;
        let before = met_at(&self.channels, side);
        take_at(&mut self.channels, side, Mark { controller, branch });
        let after = met_at(&self.channels, side);
        self.met = self.met - before + after;
        self.calls -= call_of(side);
    }

    /// Makes the controller's row empty. From its end on, a mark goes with the branch that it tells, and no other takes its place.
    pub fn clear(&mut self, controller: u32)
        requires kept { IsKept self.old }
        requires range { controller < length (rows_of self.old) }
        ensures { Steps controller self.old self.new [] }
    {
        let mut left = self.rows[controller as usize].len();
        while left > 0 {
            left -= 1;
            self.withdraw(controller);
        }
    }

    // Takes all the memory that the sides want as the controller's row.
    fn reserve(&mut self, controller: u32, sides: &[Side]) -> Result<(), AllocError>
        requires kept { IsKept self.old }
        requires range { controller < length (rows_of self.old) }
        requires within { AreWithin (length self.old.channels.items) sides.now }
        ensures same { Steps controller self.old self.new (row_at self.old controller) }
        ensures ok { OnOk result (HasRoom self.new controller sides.now) }
    {
        self.rows[controller as usize].reserve(sides.len())?;
        for side in sides {
            reserve_at(&mut self.channels, *side)?;
        }
        Ok(())
    }

    /// Gives the controller this row. All memory is taken first, so that after want of it the rows are as before.
    pub fn set(&mut self, controller: u32, sides: &[Side]) -> Result<(), AllocError>
        requires kept { IsKept self.old }
        requires range { controller < length (rows_of self.old) }
        requires within { AreWithin (length self.old.channels.items) sides.now }
        requires few { length sides.now < 2 ^ 32 }
        ensures ok { OnOk result (Steps controller self.old self.new sides.now) }
        ensures err { OnErr result (Steps controller self.old self.new (row_at self.old controller)) }
    {
        self.reserve(controller, sides)?;
        self.clear(controller);
        for side in sides {
            self.offer(controller, *side);
        }
        Ok(())
    }

    /// The controller's first branch that can fire, from the branch `from` on, going round.
    pub fn firing(&self, controller: u32, from: u32) -> Option<u32>
        requires kept { IsKept self.now }
        requires range { controller < length (rows_of self.now) }
        ensures { IsFiring (rows_of self.now) controller result }
    {
        let row = self.rows[controller as usize].as_slice();
        let start = row.len().min(from as usize);
        match ready_in(&self.channels, row, start, row.len()) {
            Some(branch) => Some(branch),
            None => ready_in(&self.channels, row, 0, start),
        }
    }
}
