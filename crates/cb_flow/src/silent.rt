//! Ways of processes on which too many internal choices are met before an event.

ghost use Rattle.std.specs.Prelude.{◌≡◌, IfOk, nat_lt};
ghost use Rattle.cb_forms.specs.Faults.{Both, fault_if, first};
ghost use Rattle.cb_forms.specs.Find.{found};
ghost use Rattle.cb_lex.specs.RawProcessTree as raw;
ghost use Rattle.cb_text_laws.specs.ProcessFaults as process;
ghost use Rattle.cb_text_laws.specs.SilentFaults as spec;
ghost use Rattle.cb_flow.specs.Chains.{linked};

use cb_forms::fault::{Fault, earlier, when};
use cb_forms::table::Table;
use cb_lex::Memory;
use cb_lex::raw::event::{RawCall, RawEvent};
use cb_lex::raw::process::{RawProcess, RawProcessNode};
use cb_lex::raw::text::RawDefinition;
use cb_lex::token::Place;
use std::alloc::Global;

// One choice more; nothing above 65 is told.
fn one_more(choices: u32) -> u32
    ensures { result ≡ spec.one_more choices }
{
    if choices < 65 { choices + 1 } else { 65 }
}

// The choices with one operand of a chain of `|~|` more.
fn link(before: &Option<u32>, own: u32) -> u32
    ensures { result ≡ linked before.now own }
{
    match before {
        None => own,
        Some(choices) => one_more((*choices).max(own)),
    }
}

fn or_none(choices: &Option<u32>) -> u32
    ensures { result ≡ spec.cost_or_none choices.now }
{
    match choices {
        None => 0,
        Some(n) => *n,
    }
}

fn call_cost(costs: &Table<u32>, call: &RawCall) -> u32
    ensures { result ≡ spec.cost_or_none (found call.now.name.text costs.now) }
{
    or_none(&costs.find(call.name.text.as_slice()))
}

fn place(event: &RawEvent) -> Place
    ensures { result ≡ process.event_place event.now }
{
    match event {
        RawEvent::Output { channel, .. } | RawEvent::Input { channel, .. } => channel.place,
        RawEvent::Operation { machine, .. } => machine.place,
    }
}

// The most choices that a way from the process meets before an event.
#[cycle(cost)]
fn cost(costs: &Table<u32>, process: &RawProcess) -> u32
    ensures { result ≡ spec.cost costs.now process.now }
{
    match &process.node {
        RawProcessNode::Stop(_) | RawProcessNode::Skip(_) | RawProcessNode::Prefix { .. } => 0,
        RawProcessNode::Call(call) => call_cost(costs, call),
        RawProcessNode::If {
            then,
            otherwise,
            ..
        } => cost(costs, then).max(cost(costs, otherwise)),
        RawProcessNode::External(operands) => most(costs, operands.as_slice()),
        RawProcessNode::Internal(operands) => chained(costs, operands.as_slice()),
    }
}

// The most of the operands of a chain of `[]`.
#[cycle(cost)]
fn most(costs: &Table<u32>, operands: &[RawProcess]) -> u32
    ensures { result ≡ spec.most costs.now 0 (raw.raw_processes operands.now) }
{
    let mut choices = 0;
    for operand in operands {
        choices = choices.max(cost(costs, operand));
    }
    choices
}

// The choices of a chain of `|~|`, each of which is one.
#[cycle(cost)]
fn chained(costs: &Table<u32>, operands: &[RawProcess]) -> u32
    ensures { result ≡ spec.cost costs.now (raw.Internal (raw.raw_processes operands.now)) }
{
    let mut choices = None;
    for operand in operands {
        choices = Some(link(&choices, cost(costs, operand)));
    }
    or_none(&choices)
}

// The faults of events after which a way meets too many.
#[cycle(after)]
fn after(costs: &Table<u32>, process: &RawProcess) -> Option<Fault>
    ensures { result ≡ first (spec.after_fault costs.now process.now) }
{
    match &process.node {
        RawProcessNode::Stop(_) | RawProcessNode::Skip(_) | RawProcessNode::Call(_) => None,
        RawProcessNode::If {
            then,
            otherwise,
            ..
        } => earlier(after(costs, then), after(costs, otherwise)),
        RawProcessNode::Prefix { event, process } => earlier(
            when(cost(costs, process) > 64, 23, place(event)),
            after(costs, process),
        ),
        RawProcessNode::External(operands) | RawProcessNode::Internal(operands) => each_after(
            costs,
            operands.as_slice(),
        ),
    }
}

#[cycle(after)]
fn each_after(costs: &Table<u32>, operands: &[RawProcess]) -> Option<Fault>
    ensures { result ≡ first (spec.each_after_fault costs.now (raw.raw_processes operands.now)) }
{
    let mut fault = None;
    for operand in operands {
        fault = earlier(fault, after(costs, operand));
    }
    fault
}

// The choices that each definition meets, from the last to the first, since one goes on in later ones without an event.
fn costs_of(alloc: Global, definitions: &[RawDefinition]) -> Result<Table<u32>, Memory>
    ensures { IfOk result (λ c. c ≡ spec.costs_of definitions.now) }
{
    let mut costs = Table::new(alloc);
    for i in (0..definitions.len()).rev() {
        let definition = &definitions[i];
        let choices = cost(&costs, &definition.process);
        costs.enter(alloc, definition.name.text.as_slice(), choices)?;
    }
    Ok(costs)
}

fn definition_fault(costs: &Table<u32>, definition: &RawDefinition) -> Option<Fault>
    ensures { result ≡ first (Both (fault_if (nat_lt 64 (spec.cost costs.now definition.now.process)) 23 definition.now.name.place) (spec.after_fault costs.now definition.now.process)) }
{
    let many = cost(costs, &definition.process) > 64;
    earlier(
        when(many, 23, definition.name.place),
        after(costs, &definition.process),
    )
}

/// The first fault of definitions: too many internal choices on a way without an event.
pub fn silent_fault(alloc: Global, definitions: &[RawDefinition]) -> Result<Option<Fault>, Memory>
    ensures { IfOk result (λ f. f ≡ first (spec.silent_fault (spec.costs_of definitions.now) definitions.now)) }
{
    let costs = costs_of(alloc, definitions)?;
    let mut fault = None;
    for definition in definitions {
        fault = earlier(fault, definition_fault(&costs, definition));
    }
    Ok(fault)
}
