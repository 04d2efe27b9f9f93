//! A controller's process is resolved.

ghost use Rattle.std.specs.Prelude.{◌≡◌, ◌<◌, ◌+◌, length, IfOk, IfSome, IfNone};
ghost use Rattle.cb_spec.specs.Stores.{Writes};
ghost use Rattle.cb_beginning.specs.Placed.{Laid};
ghost use Rattle.cb_system.specs.Kept.{lives};
ghost use Rattle.cb_system.specs.Moves.{AreGood, env_at, after, IsUnsettled, SettledAt, IsElsewhere};

use cb_code::code::Code;
use cb_code::place::Place;
use cb_relation::pick::Pick;
use cb_settling::settle::{Outcome, settle};
use cb_spec::system::System;
use cb_term::Memory;
use sqlite_items::Items;
use std::alloc::Global;

/// What the process of the controller with this number is resolved to, and by which bits, if it is at one.
pub fn settled_at<P: Pick>(
    alloc: Global,
    system: &System,
    code: &Code,
    places: &[Place],
    bodies: &[Items<u32>],
    number: u32,
    pick: &mut P,
) -> Result<Option<(Outcome, u64)>, Memory>
    requires range { number < length system.now.order }
    requires laid { Laid system.now code.now places.now bodies.now }
    requires good { (store : Writes) × AreGood system.now code.now store places.now }
    ensures some { IfOk result (λ o. IfSome o (λ r. SettledAt system.now code.now places.now number r.0 r.1)) }
    ensures none { IfOk result (λ o. IfNone o (IsElsewhere places.now number)) }
{
    let at = number as usize;
    let controller = &system.controllers.as_slice()[system.order.as_slice()[at] as usize];
    match &places[at] {
        Place::At { process, env } => {
            let settled = settle(
                alloc,
                system,
                controller,
                code,
                bodies[at].as_slice(),
                *process,
                env,
                pick,
            )?;
            Ok(Some(settled))
        }
        Place::Ready { .. } | Place::Ended => Ok(None),
    }
}

/// Where a controller is whose process is resolved to this.
pub fn next(place: Place, outcome: Outcome) -> Place
    requires { IsUnsettled place }
    ensures { result ≡ after (env_at place) outcome }
{
    match place {
        Place::At { env, .. } => match outcome {
            Outcome::Shown { prefixes, own } => match own {
                Some(own) => Place::Ready { prefixes, env: own },
                None => Place::Ready { prefixes, env },
            },
            Outcome::Over => Place::Ended,
        },
        Place::Ready { .. } | Place::Ended => unreachable!(),
    }
}

/// How many controllers have not ended, where there were so many before the process of one was resolved to this.
pub fn living_after(living: u32, outcome: &Outcome) -> u32
    requires { 0 < living }
    ensures { result + 1 ≡ living + lives outcome.now }
{
    match outcome {
        Outcome::Shown { .. } => living,
        Outcome::Over => living - 1,
    }
}
