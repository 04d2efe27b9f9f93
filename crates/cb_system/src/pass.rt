//! Values pass a channel.

ghost use Rattle.std.specs.Prelude.{◌≡◌, IfOk};
ghost use Rattle.cb_system.specs.Firing.{CanPass, IsPassed};

use crate::branch::branch_at;
use cb_code::code::Code;
use cb_code::place::Place;
use cb_settling::bind::{bound_over, values_of};
use cb_spec::event::Event;
use cb_spec::state::Values;
use cb_spec::store::Store;
use cb_spec::system::System;
use cb_term::Memory;
use std::alloc::Global;

/// What passes, and where its sender and its receiver are next.
#[derive(Drop)]
pub struct Passed {
    pub values: Values,
    /// The sender's number, and the place of the process that follows there.
    pub sender: u32,
    pub out_next: u32,
    /// The receiver's number, the place of the process that follows there, and what names stand for.
    pub receiver: u32,
    pub in_next: u32,
    pub env: Store,
}

/// What passes the channel from its sender's branch to its receiver's.
pub fn passed_at(
    alloc: Global,
    system: &System,
    code: &Code,
    places: &[Place],
    channel: u32,
    sent: u32,
    got: u32,
) -> Result<Passed, Memory>
    requires { CanPass system.now code.now places.now channel sent got }
    ensures { IfOk result (λ r. IsPassed system.now code.now places.now channel sent got r) }
{
    let ends = &system.channels.as_slice()[channel as usize];
    let out = branch_at(code, places, ends.sender, sent);
    let into = branch_at(code, places, ends.receiver, got);
    match out.event {
        Event::Output { terms, .. } => match into.event {
            Event::Input { names, .. } => {
                let values = values_of(alloc, &system.sets, terms, out.env)?;
                let env = bound_over(alloc, into.env, names, &values)?;
                Ok(Passed {
                    values,
                    sender: ends.sender,
                    out_next: out.next,
                    receiver: ends.receiver,
                    in_next: into.next,
                    env,
                })
            }
            _ => unreachable!(),
        },
        _ => unreachable!(),
    }
}
