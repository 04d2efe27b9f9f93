//! The rendezvous table.

ghost use Rattle.std.specs.Prelude.{◌≡◌, ◌<◌, ◌^◌, [], length, replicate, slice_set, IfOk, OnOk, OnErr, MatchBool};
ghost use Rattle.cb_offers.specs.Tables.{AreWithin, AreIdle, IsFiring, meeting};

use crate::table::Table;
use std::alloc::{AllocError, Global};
use std::marker::Model;

/// What a branch of a controller does.
#[derive(Clone, Copy, Debug, PartialEq, Eq)]
pub enum Side {
    /// It sends on the channel.
    Output(u32),
    /// It receives on the channel.
    Input(u32),
    /// It calls an operation.
    Call,
}

/// What each controller offers. Contracts see how many channels there are and each controller's row of sides.
///
/// Who can meet on a channel, and whether anything can happen at all, is kept and not searched for.
#[derive(Drop)]
pub struct Offers {
    table: Table,
}

impl Model for Offers {
    ghost use Rattle.std.specs.Prelude.{length};
    ghost use Rattle.cb_offers.specs.Tables.{OffersView};
    ghost use Rattle.cb_offers.specs.Codes.{offers_code};

    ghost Value = { OffersView };

    ghost coded = { offers_code };

    ghost use Rattle.cb_offers.specs.Kept.{rows_of, IsKept};

    ghost view = { λ o. record { channels = length o.table.channels.items; rows = rows_of o.table } };

    ghost invariant = { λ o. IsKept o.table };
}

impl Offers {
    /// So many channels and controllers, none of which offers anything. `Err`: want of memory.
    pub fn new(alloc: Global, channels: u32, controllers: u32) -> Result<Offers, AllocError>
        ensures { IfOk result (λ o. o ≡ record { channels = channels; rows = replicate controllers [] }) }
    {
        let table = Table::new(alloc, channels, controllers)?;
        Ok(Offers { table })
    }

    /// Replaces what the controller offers. Its time depends on the old row and on the new one alone, where few share their
    /// channels. `Err`: want of memory, after which all is as before.
    pub fn set(&mut self, controller: u32, sides: &[Side]) -> Result<(), AllocError>
        requires range { controller < length self.old.rows }
        requires within { AreWithin self.old.channels sides.now }
        requires few { length sides.now < 2 ^ 32 }
        ensures ok { OnOk result (self.new ≡ record { channels = self.old.channels; rows = slice_set self.old.rows controller sides.now }) }
        ensures err { OnErr result (self.new ≡ self.old) }
    {
        self.table.set(controller, sides)
    }

    /// Lets the controller offer nothing any more. It takes no memory.
    pub fn clear(&mut self, controller: u32)
        requires { controller < length self.old.rows }
        ensures { self.new ≡ record { channels = self.old.channels; rows = slice_set self.old.rows controller [] } }
    {
        self.table.clear(controller);
    }

    /// The branches that meet on the channel, if both ends are offered: that of the least controller that sends, and that of the
    /// least that receives, at each its first. It takes constant time.
    pub fn meet(&self, channel: u32) -> Option<(u32, u32)>
        requires { channel < self.now.channels }
        ensures { result ≡ meeting self.now.rows channel }
    {
        let channel = &self.table.channels[channel as usize];
        let sender = channel.senders.first()?;
        let receiver = channel.receivers.first()?;
        Some((sender.branch, receiver.branch))
    }

    /// A branch of the controller that can fire, if it has one: the first from the branch `from` on, going round.
    pub fn firing(&self, controller: u32, from: u32) -> Option<u32>
        requires { controller < length self.now.rows }
        ensures { IsFiring self.now.rows controller result }
    {
        self.table.firing(controller, from)
    }

    /// Whether anything can happen: a call is offered, or both ends of some channel. It takes constant time.
    pub fn can_fire(&self) -> bool
        ensures { MatchBool result (¬ AreIdle self.now.rows) (AreIdle self.now.rows) }
    {
        self.table.met > 0 || self.table.calls > 0
    }
}
