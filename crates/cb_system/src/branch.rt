//! The branches that controllers offer.

ghost use Rattle.std.specs.Prelude.{◌≡◌};
ghost use Rattle.cb_system.specs.Moves.{env_at};
ghost use Rattle.cb_system.specs.Branches.{IsReady, AreOffered, HasBranch, IsBranch};

use cb_code::code::{Code, Node};
use cb_code::place::Place;
use cb_spec::event::Event;
use cb_spec::store::Store;

/// A branch that a controller offers.
#[derive(Clone, Copy)]
pub struct Branch<'a> {
    pub event: &'a Event,
    /// The place of the process that follows.
    pub next: u32,
    /// What names stand for.
    pub env: &'a Store,
}

/// The controller's branch with this number.
pub fn branch_at<'a>(
    code: &'a Code,
    places: &'a [Place],
    controller: u32,
    branch: u32,
) -> Branch<'a>
    requires prefixes { AreOffered code.now places.now }
    requires has { HasBranch places.now controller branch }
    ensures { IsBranch code.now places.now controller branch result.event.now result.next result.env.now }
{
    match &places[controller as usize] {
        Place::Ready { prefixes, env } => {
            match code.node(prefixes.as_slice()[branch as usize]) {
                Node::Prefix { event, then } => Branch {
                    event,
                    next: *then,
                    env,
                },
                _ => unreachable!(),
            }
        }
        Place::At { .. } | Place::Ended => unreachable!(),
    }
}

/// What names stand for where the controller offers branches.
pub fn env_of(place: Place) -> Store
    requires { IsReady place }
    ensures { result ≡ env_at place }
{
    match place {
        Place::Ready { env, .. } => env,
        Place::At { .. } | Place::Ended => unreachable!(),
    }
}
