//! What a controller can do.

ghost use Rattle.std.specs.Prelude.{◌≡◌, ◌<◌, length};
ghost use Rattle.std.specs.Prelude.{◌<◌, ◌≢◌, None};
ghost use Rattle.cb_offers.specs.Tables.{meeting};
ghost use Rattle.cb_system.specs.Tabled.{CanLook, IsMeeting, IsFound};

use crate::branch::branch_at;
use cb_code::code::Code;
use cb_code::place::Place;
use cb_offers::offers::Offers;
use cb_relation::pick::Pick;
use cb_spec::event::Event;

/// What a controller can do.
#[derive(Clone, Copy)]
pub enum Firing {
    /// Nothing.
    Nothing,
    /// Its branch calls an operation.
    Calls { branch: u32 },
    /// Values can pass a channel of its own.
    Passes { channel: u32, sent: u32, got: u32 },
}

// A number of a branch that the place offers, if it offers any.
fn any_branch<P: Pick>(place: &Place, pick: &mut P) -> u32 {
    match place {
        Place::Ready { prefixes, .. } => {
            let most = (prefixes.as_slice().len() as u64).clamp(1, 2u64.pow(32));
            pick.below(most) as u32
        }
        Place::At { .. } | Place::Ended => 0,
    }
}

// What passes on the channel, both ends of which are offered.
fn passing(offers: &Offers, channel: u32) -> Firing
    requires range { channel < offers.now.channels }
    requires meets { meeting offers.now.rows channel ≢ None }
    ensures { IsMeeting offers.now.rows channel result }
{
    match offers.meet(channel) {
        Some((sent, got)) => Firing::Passes { channel, sent, got },
        None => unreachable!(),
    }
}

/// What the controller can do. The search begins at a branch that the picker chooses.
pub fn firing_of<P: Pick>(
    code: &Code,
    places: &[Place],
    offers: &Offers,
    controller: u32,
    pick: &mut P,
) -> Firing
    requires { CanLook code.now places.now offers.now controller }
    ensures { IsFound offers.now.rows controller result }
{
    let from = any_branch(&places[controller as usize], pick);
    match offers.firing(controller, from) {
        None => Firing::Nothing,
        Some(branch) => match branch_at(code, places, controller, branch).event {
            Event::Call { .. } => Firing::Calls { branch },
            Event::Output { channel, .. } => passing(offers, *channel),
            Event::Input { channel, .. } => passing(offers, *channel),
        },
    }
}
