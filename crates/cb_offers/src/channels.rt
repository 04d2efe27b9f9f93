//! Channels, and the marks of those that offer to send and to receive on them.

ghost use Rattle.std.specs.Prelude.{◌≡◌, ◌<◌, ◌≤◌, length, OnOk};
ghost use Rattle.cb_offers.specs.Marks.{put_mark, take_mark};
ghost use Rattle.cb_offers.specs.Kept.{list_at, room_at, met_at, IsThere, Changed};

use crate::marks;
use crate::marks::Mark;
use crate::offers::Side;
use std::alloc::AllocError;

/// Who offers to send on a channel and who to receive, each in the order of controllers.
#[derive(Drop)]
pub struct Channel {
    pub senders: Vec<Mark>,
    pub receivers: Vec<Mark>,
}

/// 1 if both ends of the side's channel are offered, else 0.
pub fn met_at(channels: &[Channel], side: Side) -> u32
    requires { IsThere (length channels.now) side }
    ensures { result ≡ met_at channels.now side }
{
    match side {
        Side::Output(channel) | Side::Input(channel) => {
            let channel = &channels[channel as usize];
            if channel.senders.is_empty() || channel.receivers.is_empty() {
                0
            } else {
                1
            }
        }
        Side::Call => 0,
    }
}

/// Takes memory for one mark more at the side's end.
pub fn reserve_at(channels: &mut Vec<Channel>, side: Side) -> Result<(), AllocError>
    requires { IsThere (length channels.old.items) side }
    ensures same { Changed channels.old.items channels.new.items side (list_at channels.old.items side) }
    ensures ok { OnOk result (length (list_at channels.old.items side) < room_at channels.new.items side) }
{
    match side {
        Side::Output(channel) => channels[channel as usize].senders.reserve(1),
        Side::Input(channel) => channels[channel as usize].receivers.reserve(1),
        Side::Call => Ok(()),
    }
}

/// Puts the mark at the side's end. It takes no memory.
pub fn put_at(channels: &mut Vec<Channel>, side: Side, mark: Mark)
    requires there { IsThere (length channels.old.items) side }
    requires room { length (put_mark mark (list_at channels.old.items side)) ≤ room_at channels.old.items side }
    ensures { Changed channels.old.items channels.new.items side (put_mark mark (list_at channels.old.items side)) }
{
    match side {
        Side::Output(channel) => marks::put(&mut channels[channel as usize].senders, mark),
        Side::Input(channel) => marks::put(&mut channels[channel as usize].receivers, mark),
        Side::Call => {}
    }
}

/// Takes the mark from the side's end.
pub fn take_at(channels: &mut Vec<Channel>, side: Side, mark: Mark)
    requires { IsThere (length channels.old.items) side }
    ensures { Changed channels.old.items channels.new.items side (take_mark mark (list_at channels.old.items side)) }
{
    match side {
        Side::Output(channel) => marks::take(&mut channels[channel as usize].senders, mark),
        Side::Input(channel) => marks::take(&mut channels[channel as usize].receivers, mark),
        Side::Call => {}
    }
}
