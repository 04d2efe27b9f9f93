//! The normal form of processes.

ghost use Rattle.std.specs.Prelude.{◌≡◌, IfOk, OnOk, map};
ghost use Rattle.cb_lex.specs.RawProcessTree as raw;
ghost use Rattle.cb_spec.specs.ProcessTree as tree;
ghost use Rattle.cb_forms.specs.Find.{found};
ghost use Rattle.cb_normal.specs.Normal.{formula_in};
ghost use Rattle.cb_signatures.specs.Calls.{AreCallees};
ghost use Rattle.cb_systems.specs.Joins.{chain_in, joined, joined_in};
ghost use Rattle.cb_text_laws.specs.NormalProcesses.{arguments_in, definition_number, process_in};
ghost use Rattle.cb_text_laws.specs.ProcessFaults.{after_event};
ghost use Rattle.cb_text_laws.specs.Signatures.{value_forms};

use crate::events::normal_event;
use crate::parts::{normal_terms, number_or_zero};
use cb_forms::table::Table;
use cb_judge::names::Entry;
use cb_lex::Memory;
use cb_lex::raw::event::{RawCall, RawEvent};
use cb_lex::raw::process::{RawProcess, RawProcessNode};
use cb_lex::raw::term::RawFormula;
use cb_normal::formula::normal_formula;
use cb_processes::process::Around;
use cb_spec::event::Event;
use cb_spec::process::{Process, ProcessNode};
use cb_term::tree::{Formula, Terms};
use std::alloc::Global;

// What joins the operands of a chain.
#[derive(Clone, Copy)]
enum ChainSign {
    /// `[]`
    External,
    /// `|~|`
    Internal,
}

fn stop() -> Process
    ensures { result ≡ tree.Stop }
{
    Process {
        node: ProcessNode::Stop,
    }
}

fn skip() -> Process
    ensures { result ≡ tree.Skip }
{
    Process {
        node: ProcessNode::Skip,
    }
}

fn call(definition: u32, args: Terms) -> Process
    ensures { result ≡ tree.Call definition args }
{
    Process {
        node: ProcessNode::Call { definition, args },
    }
}

fn prefix(event: Event, then: Box<Process>) -> Process
    ensures { result ≡ tree.Prefix event then.value }
{
    Process {
        node: ProcessNode::Prefix { event, then },
    }
}

fn branch(test: Formula, then: Box<Process>, other: Box<Process>) -> Process
    ensures { result ≡ tree.If test then.value other.value }
{
    Process {
        node: ProcessNode::If { test, then, other },
    }
}

fn join(sign: ChainSign, left: Box<Process>, right: Box<Process>) -> Process
    ensures { result ≡ joined sign left.value right.value }
{
    match sign {
        ChainSign::External => Process {
            node: ProcessNode::Choice(left, right),
        },
        ChainSign::Internal => Process {
            node: ProcessNode::Internal(left, right),
        },
    }
}

fn boxed(alloc: Global, process: Process) -> Result<Box<Process>, Memory>
    ensures { IfOk result (λ b. b.value ≡ process) }
{
    Ok(Box::new(alloc, process)?)
}

fn normal_call(
    alloc: Global,
    around: &Around,
    names: &mut Table<Entry>,
    called: &RawCall,
) -> Result<Process, Memory>
    ensures tree { IfOk result (λ p. p ≡ tree.Call (definition_number (found called.now.name.text around.now.definitions.now)) (arguments_in around.now.view.now names.old called.now.arguments)) }
    ensures names { OnOk result (names.new ≡ names.old) }
{
    let number = around.definitions.number(called.name.text.as_slice());
    let args = normal_terms(alloc, around.view, names, called.arguments.as_slice())?;
    Ok(call(number_or_zero(number), args))
}

/// A process in normal form, where the names of the whole text are `globals` and those at its place `names`. Both tables end as they
/// began.
#[cycle(normal)]
pub fn normal_process(
    alloc: Global,
    around: &Around,
    globals: &mut Table<Entry>,
    names: &mut Table<Entry>,
    process: &RawProcess,
) -> Result<Process, Memory>
    requires forms { around.now.forms.now ≡ map (value_forms around.now.view.now globals.old) around.now.channels.now }
    requires operations { AreCallees around.now.known.now globals.old around.now.machines.now around.now.operations.now }
    ensures form { IfOk result (λ p. p ≡ process_in around.now.known.now globals.old around.now.machines.now around.now.channels.now around.now.view.now around.now.own.now around.now.definitions.now names.old process.now) }
    ensures globals { OnOk result (globals.new ≡ globals.old) }
    ensures names { OnOk result (names.new ≡ names.old) }
{
    match &process.node {
        RawProcessNode::Stop(_) => Ok(stop()),
        RawProcessNode::Skip(_) => Ok(skip()),
        RawProcessNode::Call(called) => normal_call(alloc, around, names, called),
        RawProcessNode::If {
            condition,
            then,
            otherwise,
            ..
        } => normal_if(alloc, around, globals, names, condition, then, otherwise),
        RawProcessNode::Prefix { event, process } => {
            normal_prefix(alloc, around, globals, names, event, process)
        }
        RawProcessNode::External(operands) => {
            let operands = operands.as_slice();
            normal_chain(alloc, around, globals, names, ChainSign::External, operands)
        }
        RawProcessNode::Internal(operands) => {
            let operands = operands.as_slice();
            normal_chain(alloc, around, globals, names, ChainSign::Internal, operands)
        }
    }
}

// The process in a box.
#[cycle(normal)]
fn boxed_process(
    alloc: Global,
    around: &Around,
    globals: &mut Table<Entry>,
    names: &mut Table<Entry>,
    process: &RawProcess,
) -> Result<Box<Process>, Memory>
    requires forms { around.now.forms.now ≡ map (value_forms around.now.view.now globals.old) around.now.channels.now }
    requires operations { AreCallees around.now.known.now globals.old around.now.machines.now around.now.operations.now }
    ensures tree { IfOk result (λ b. b.value ≡ process_in around.now.known.now globals.old around.now.machines.now around.now.channels.now around.now.view.now around.now.own.now around.now.definitions.now names.old process.now) }
    ensures globals { OnOk result (globals.new ≡ globals.old) }
    ensures names { OnOk result (names.new ≡ names.old) }
{
    let normal = normal_process(alloc, around, globals, names, process)?;
    boxed(alloc, normal)
}

// A condition and what follows where it holds.
#[cycle(normal)]
fn tested(
    alloc: Global,
    around: &Around,
    globals: &mut Table<Entry>,
    names: &mut Table<Entry>,
    condition: &RawFormula,
    then: &RawProcess,
) -> Result<(Formula, Box<Process>), Memory>
    requires forms { around.now.forms.now ≡ map (value_forms around.now.view.now globals.old) around.now.channels.now }
    requires operations { AreCallees around.now.known.now globals.old around.now.machines.now around.now.operations.now }
    ensures test { IfOk result (λ r. r.0 ≡ formula_in around.now.view.now names.old condition.now) }
    ensures then { IfOk result (λ r. r.1.value ≡ process_in around.now.known.now globals.old around.now.machines.now around.now.channels.now around.now.view.now around.now.own.now around.now.definitions.now names.old then.now) }
    ensures globals { OnOk result (globals.new ≡ globals.old) }
    ensures names { OnOk result (names.new ≡ names.old) }
{
    let test = normal_formula(alloc, around.view, names, condition)?;
    let then = boxed_process(alloc, around, globals, names, then)?;
    Ok((test, then))
}

#[cycle(normal)]
fn normal_if(
    alloc: Global,
    around: &Around,
    globals: &mut Table<Entry>,
    names: &mut Table<Entry>,
    condition: &RawFormula,
    then: &RawProcess,
    otherwise: &RawProcess,
) -> Result<Process, Memory>
    requires forms { around.now.forms.now ≡ map (value_forms around.now.view.now globals.old) around.now.channels.now }
    requires operations { AreCallees around.now.known.now globals.old around.now.machines.now around.now.operations.now }
    ensures tree { IfOk result (λ p. p ≡ tree.If (formula_in around.now.view.now names.old condition.now) (process_in around.now.known.now globals.old around.now.machines.now around.now.channels.now around.now.view.now around.now.own.now around.now.definitions.now names.old then.now) (process_in around.now.known.now globals.old around.now.machines.now around.now.channels.now around.now.view.now around.now.own.now around.now.definitions.now names.old otherwise.now)) }
    ensures globals { OnOk result (globals.new ≡ globals.old) }
    ensures names { OnOk result (names.new ≡ names.old) }
{
    let other = boxed_process(alloc, around, globals, names, otherwise)?;
    let (test, then) = tested(alloc, around, globals, names, condition, then)?;
    Ok(branch(test, then, other))
}

// An event and what follows it, before the names that it binds are left.
#[cycle(normal)]
fn event_and_rest(
    alloc: Global,
    around: &Around,
    globals: &mut Table<Entry>,
    names: &mut Table<Entry>,
    event: &RawEvent,
    process: &RawProcess,
) -> Result<Process, Memory>
    requires forms { around.now.forms.now ≡ map (value_forms around.now.view.now globals.old) around.now.channels.now }
    requires operations { AreCallees around.now.known.now globals.old around.now.machines.now around.now.operations.now }
    ensures tree { IfOk result (λ p. p ≡ process_in around.now.known.now globals.old around.now.machines.now around.now.channels.now around.now.view.now around.now.own.now around.now.definitions.now names.old (raw.Prefix event.now process.now)) }
    ensures globals { OnOk result (globals.new ≡ globals.old) }
    ensures names { OnOk result (names.new ≡ after_event around.now.known.now globals.old around.now.machines.now around.now.channels.now around.now.view.now around.now.own.now around.now.definitions.now names.old event.now) }
{
    let event = normal_event(alloc, around, globals, names, event)?;
    let then = boxed_process(alloc, around, globals, names, process)?;
    Ok(prefix(event, then))
}

#[cycle(normal)]
fn normal_prefix(
    alloc: Global,
    around: &Around,
    globals: &mut Table<Entry>,
    names: &mut Table<Entry>,
    event: &RawEvent,
    process: &RawProcess,
) -> Result<Process, Memory>
    requires forms { around.now.forms.now ≡ map (value_forms around.now.view.now globals.old) around.now.channels.now }
    requires operations { AreCallees around.now.known.now globals.old around.now.machines.now around.now.operations.now }
    ensures tree { IfOk result (λ p. p ≡ process_in around.now.known.now globals.old around.now.machines.now around.now.channels.now around.now.view.now around.now.own.now around.now.definitions.now names.old (raw.Prefix event.now process.now)) }
    ensures globals { OnOk result (globals.new ≡ globals.old) }
    ensures names { OnOk result (names.new ≡ names.old) }
{
    let outside = names.len();
    let normal = event_and_rest(alloc, around, globals, names, event, process)?;
    names.leave(outside);
    Ok(normal)
}

// A chain; one without operands is `STOP`.
#[cycle(normal)]
fn normal_chain(
    alloc: Global,
    around: &Around,
    globals: &mut Table<Entry>,
    names: &mut Table<Entry>,
    sign: ChainSign,
    operands: &[RawProcess],
) -> Result<Process, Memory>
    requires forms { around.now.forms.now ≡ map (value_forms around.now.view.now globals.old) around.now.channels.now }
    requires operations { AreCallees around.now.known.now globals.old around.now.machines.now around.now.operations.now }
    ensures tree { IfOk result (λ p. p ≡ chain_in sign around.now.known.now globals.old around.now.machines.now around.now.channels.now around.now.view.now around.now.own.now around.now.definitions.now names.old (raw.raw_processes operands.now)) }
    ensures globals { OnOk result (globals.new ≡ globals.old) }
    ensures names { OnOk result (names.new ≡ names.old) }
{
    if operands.is_empty() {
        return Ok(stop());
    }
    let first = normal_process(alloc, around, globals, names, &operands[0])?;
    normal_joins(alloc, around, globals, names, sign, first, &operands[1..])
}

// The chain of what is done already and further operands. It groups to the left.
#[cycle(normal)]
fn normal_joins(
    alloc: Global,
    around: &Around,
    globals: &mut Table<Entry>,
    names: &mut Table<Entry>,
    sign: ChainSign,
    done: Process,
    operands: &[RawProcess],
) -> Result<Process, Memory>
    requires forms { around.now.forms.now ≡ map (value_forms around.now.view.now globals.old) around.now.channels.now }
    requires operations { AreCallees around.now.known.now globals.old around.now.machines.now around.now.operations.now }
    ensures tree { IfOk result (λ p. p ≡ joined_in sign around.now.known.now globals.old around.now.machines.now around.now.channels.now around.now.view.now around.now.own.now around.now.definitions.now names.old done (raw.raw_processes operands.now)) }
    ensures globals { OnOk result (globals.new ≡ globals.old) }
    ensures names { OnOk result (names.new ≡ names.old) }
{
    let mut done = done;
    for operand in operands {
        done = with_operand(alloc, around, globals, names, sign, done, operand)?;
    }
    Ok(done)
}

// The chain with one operand more.
#[cycle(normal)]
fn with_operand(
    alloc: Global,
    around: &Around,
    globals: &mut Table<Entry>,
    names: &mut Table<Entry>,
    sign: ChainSign,
    done: Process,
    operand: &RawProcess,
) -> Result<Process, Memory>
    requires forms { around.now.forms.now ≡ map (value_forms around.now.view.now globals.old) around.now.channels.now }
    requires operations { AreCallees around.now.known.now globals.old around.now.machines.now around.now.operations.now }
    ensures tree { IfOk result (λ p. p ≡ joined sign done (process_in around.now.known.now globals.old around.now.machines.now around.now.channels.now around.now.view.now around.now.own.now around.now.definitions.now names.old operand.now)) }
    ensures globals { OnOk result (globals.new ≡ globals.old) }
    ensures names { OnOk result (names.new ≡ names.old) }
{
    let left = boxed(alloc, done)?;
    let right = boxed_process(alloc, around, globals, names, operand)?;
    Ok(join(sign, left, right))
}
