//! How often a walk visits a process node.

ghost use Rattle.std.specs.Prelude.{◌≡◌, min, true, IfOk};
ghost use Rattle.cb_conditions.specs.Steps as steps;
ghost use Rattle.cb_ways.specs.Calls as calls;
ghost use Rattle.cb_ways.specs.Calls.{counts_of, count_at};

use cb_spec::event::Event;
use cb_spec::process::{Process, ProcessNode};
use cb_spec::system::{Machine, System};
use cb_term::Memory;
use cb_wp::branches::branch_count;
use sqlite_items::{Items, at};
use std::alloc::Global;

/// The number of branches of each operation of each machine. 257 where there are more than 256.
pub fn branch_counts(alloc: Global, system: &System) -> Result<Items<Items<u64>>, Memory>
    ensures { IfOk result (λ counts. counts ≡ counts_of system.now) }
{
    let mut counts = Items::new(alloc);
    for machine in system.machines.as_slice() {
        counts.push(machine_counts(alloc, machine)?)?;
    }
    Ok(counts)
}

fn machine_counts(alloc: Global, machine: &Machine) -> Result<Items<u64>, Memory>
    ensures { IfOk result (λ counts. counts ≡ calls.machine_counts machine.now) }
{
    let mut counts = Items::new(alloc);
    for operation in machine.operations.as_slice() {
        counts.push(branch_count(&operation.body))?;
    }
    Ok(counts)
}

// The number at these places.
fn count_of(counts: &Items<Items<u64>>, machine: u32, operation: u32) -> Option<u64>
    ensures { result ≡ count_at counts.now machine operation }
{
    counts
        .as_slice()
        .get(machine as usize)?
        .as_slice()
        .get(operation as usize)
        .copied()
}

#[tactic(auto, using(crate::proofs::VisitLemmas::within_at, crate::proofs::VisitLemmas::within_where_none))]
// Whether the operation that the event calls, if it calls one, has no more than 256 branches.
fn event_within(_system: &System, counts: &Items<Items<u64>>, event: &Event) -> bool
    requires { counts.now ≡ counts_of _system.now }
    ensures { result ≡ calls.event_within _system.now event.now }
{
    match event {
        Event::Output { .. } | Event::Input { .. } => true,
        Event::Call {
            machine,
            operation,
            ..
        } => match count_of(counts, *machine, *operation) {
            Some(count) => count <= 256,
            None => true,
        },
    }
}

#[tactic(auto, using(crate::proofs::VisitLemmas::within_behind))]
/// Whether no operation that the process calls has more than 256 branches. `counts` are those of the system.
pub fn calls_within(_system: &System, counts: &Items<Items<u64>>, process: &Process) -> bool
    requires { counts.now ≡ counts_of _system.now }
    ensures { result ≡ steps.calls_within _system.now process.now }
{
    match &process.node {
        ProcessNode::Stop | ProcessNode::Skip | ProcessNode::Call { .. } => true,
        ProcessNode::Prefix { event, then } => {
            event_within(_system, counts, event) && calls_within(_system, counts, then)
        }
        ProcessNode::Choice(left, right)
        | ProcessNode::Internal(left, right)
        | ProcessNode::If {
            then: left,
            other: right,
            ..
        } => calls_within(_system, counts, left) && calls_within(_system, counts, right),
    }
}

#[tactic(auto, using(crate::proofs::VisitLemmas::behind_at, crate::proofs::VisitLemmas::behind_where_none))]
// How many ways go on behind the event.
fn ways_behind(_system: &System, counts: &Items<Items<u64>>, event: &Event) -> u64
    requires counts { counts.now ≡ counts_of _system.now }
    requires within { calls.event_within _system.now event.now ≡ true }
    ensures { result ≡ calls.ways_behind _system.now event.now }
{
    match event {
        Event::Output { .. } | Event::Input { .. } => 1,
        Event::Call {
            machine,
            operation,
            ..
        } => count_of(counts, *machine, *operation).unwrap_or(0),
    }
}

fn least(visits: u64) -> u64
    ensures { result ≡ min visits 65537 }
{
    if visits < 65_537 { visits } else { 65_537 }
}

#[tactic(auto, using(crate::proofs::VisitLemmas::visits_behind, crate::proofs::VisitLemmas::least_behind, crate::proofs::VisitLemmas::left_within, crate::proofs::VisitLemmas::right_within, crate::proofs::VisitLemmas::within_behind))]
/// How many process nodes a walk visits. 65,537 where there are more than 65,536. `counts` are those of the system.
pub fn visits(_system: &System, counts: &Items<Items<u64>>, process: &Process) -> u64
    requires counts { counts.now ≡ counts_of _system.now }
    requires within { steps.calls_within _system.now process.now ≡ true }
    ensures { result ≡ min (steps.visits _system.now process.now) 65537 }
{
    match &process.node {
        ProcessNode::Stop | ProcessNode::Skip | ProcessNode::Call { .. } => 1,
        ProcessNode::Prefix { event, then } => {
            let ways = ways_behind(_system, counts, event);
            let rest = visits(_system, counts, then);
            least(ways.saturating_mul(rest).saturating_add(1))
        }
        ProcessNode::Choice(left, right)
        | ProcessNode::Internal(left, right)
        | ProcessNode::If {
            then: left,
            other: right,
            ..
        } => {
            let first = visits(_system, counts, left);
            let second = visits(_system, counts, right);
            least(first.saturating_add(second).saturating_add(1))
        }
    }
}
