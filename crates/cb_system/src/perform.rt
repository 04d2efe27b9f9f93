//! A controller calls an operation.

ghost use Rattle.std.specs.Prelude.{◌≡◌, IfOk, OnErr};
ghost use Rattle.cb_spec.specs.Stores.{look_of, over};
ghost use Rattle.cb_settling.specs.Ops.{KeepsNames};
ghost use Rattle.cb_system.specs.Firing.{CanPerform, IsPerformed};

use crate::branch::branch_at;
use cb_code::code::Code;
use cb_code::place::Place;
use cb_relation::pick::Pick;
use cb_settling::bind::{bound_over, values_of};
use cb_settling::call::{Called, call_operation};
use cb_settling::op::write_over;
use cb_spec::event::Event;
use cb_spec::state::Values;
use cb_spec::store::Store;
use cb_spec::system::System;
use cb_term::Memory;
use std::alloc::Global;

/// What a controller has called, and where it is next.
#[derive(Drop)]
pub struct Performed {
    pub machine: u32,
    pub operation: u32,
    pub args: Values,
    pub called: Called,
    /// The place of the process that follows.
    pub next: u32,
    /// What names stand for there.
    pub env: Store,
}

/// Performs the operation that the controller's branch calls, and writes over the store what it writes. After want of memory
/// names stand in the store for what they did.
pub fn performed_at<P: Pick>(
    alloc: Global,
    system: &System,
    code: &Code,
    places: &[Place],
    store: &mut Store,
    controller: u32,
    branch: u32,
    pick: &mut P,
) -> Result<Performed, Memory>
    requires { CanPerform system.now code.now store.old places.now controller branch }
    ensures ok { IfOk result (λ r. IsPerformed system.now code.now places.now (look_of store.old) controller branch r) }
    ensures written { IfOk result (λ r. look_of store.new ≡ over r.called.written (look_of store.old)) }
    ensures err { OnErr result (look_of store.new ≡ look_of store.old) }
    ensures names { KeepsNames store.old store.new }
{
    let offered = branch_at(code, places, controller, branch);
    match offered.event {
        Event::Call {
            machine,
            operation,
            args,
            results,
        } => {
            let args = values_of(alloc, &system.sets, args, offered.env)?;
            let of = &system.machines.as_slice()[*machine as usize];
            let called = call_operation(
                alloc,
                &system.sets,
                of,
                &of.operations.as_slice()[*operation as usize],
                &args,
                store,
                pick,
            )?;
            let env = bound_over(alloc, offered.env, results, &called.results)?;
            write_over(alloc, store, &called.written)?;
            Ok(Performed {
                machine: *machine,
                operation: *operation,
                args,
                called,
                next: offered.next,
                env,
            })
        }
        Event::Output { .. } | Event::Input { .. } => unreachable!(),
    }
}
