//! Faults of processes.

ghost use Rattle.std.specs.Prelude.{◌≡◌, IfOk, OnOk, map};
ghost use Rattle.cb_lex.specs.RawProcessTree.{raw_processes};
ghost use Rattle.cb_forms.specs.Faults.{first};
ghost use Rattle.cb_judge.specs.Sure.{nowhere};
ghost use Rattle.cb_processes.specs.Chains.{or_place};
ghost use Rattle.cb_signatures.specs.Calls.{AreCallees};
ghost use Rattle.cb_text_laws.specs.ProcessFaults as spec;
ghost use Rattle.cb_text_laws.specs.Signatures.{value_forms};

use crate::calls::judge_call;
use crate::events::judge_event;
use crate::operands::{
    Chain, Judged, no_operand, of_call, of_end, of_external, of_internal, of_prefix, of_sides,
    with_operand,
};
use cb_controls::definition::Definitions;
use cb_forms::fault::Fault;
use cb_forms::form::Form;
use cb_forms::owners::Owners;
use cb_forms::table::Table;
use cb_judge::judge::judge_formula;
use cb_judge::names::{Entry, View};
use cb_lex::Memory;
use cb_lex::raw::process::{RawProcess, RawProcessNode};
use cb_lex::raw::text::{RawChannel, RawMachine};
use cb_signatures::operations::Operations;
use sqlite_items::Items;
use std::alloc::Global;

/// What is known in a controller.
#[derive(Clone, Copy)]
pub struct Around<'a> {
    pub machines: &'a [RawMachine],
    pub channels: &'a [RawChannel],
    /// The names that stand before variables are known.
    pub known: &'a Table<Entry>,
    /// What is known outside of machines.
    pub view: &'a View,
    /// The machines that the controller calls.
    pub own: &'a Owners,
    /// The forms of the channels' values.
    pub forms: &'a Items<Items<Form>>,
    pub operations: &'a Operations,
    pub definitions: &'a Definitions,
}

// Judges a process. Each is walked once: what a chain of `[]` asks of its operands is told with their faults.
#[cycle(judge)]
fn judge(
    alloc: Global,
    around: &Around,
    globals: &mut Table<Entry>,
    number: u32,
    names: &mut Table<Entry>,
    guarded: bool,
    process: &RawProcess,
) -> Result<Judged, Memory>
    requires forms { around.now.forms.now ≡ map (value_forms around.now.view.now globals.old) around.now.channels.now }
    requires operations { AreCallees around.now.known.now globals.old around.now.machines.now around.now.operations.now }
    ensures fault { IfOk result (λ r. r.fault ≡ first (spec.process_fault around.now.known.now globals.old around.now.machines.now around.now.channels.now around.now.view.now around.now.own.now around.now.definitions.now number names.old guarded process.now)) }
    ensures operand { IfOk result (λ r. r.is_operand ≡ spec.is_operand process.now) }
    ensures place { IfOk result (λ r. r.place ≡ spec.first_place process.now) }
    ensures globals { OnOk result (globals.new ≡ globals.old) }
    ensures names { OnOk result (names.new ≡ names.old) }
{
    match &process.node {
        RawProcessNode::Stop(place) => Ok(of_end(true, *place)),
        RawProcessNode::Skip(place) => Ok(of_end(false, *place)),
        RawProcessNode::Call(call) => {
            let own = judge_call(alloc, around, number, names, guarded, call)?;
            Ok(of_call(own, call))
        }
        RawProcessNode::If {
            place,
            condition,
            then,
            otherwise,
        } => {
            let own = judge_formula(alloc, around.view, names, condition)?;
            let first = judge(alloc, around, globals, number, names, guarded, then)?;
            let second = judge(alloc, around, globals, number, names, guarded, otherwise)?;
            Ok(of_sides(*place, own, &first, &second))
        }
        RawProcessNode::Prefix { event, process } => {
            let outside = names.len();
            let own = judge_event(alloc, around, globals, names, event)?;
            let rest = judge(alloc, around, globals, number, names, true, process)?;
            names.leave(outside);
            Ok(of_prefix(event, own, &rest))
        }
        RawProcessNode::External(operands) => {
            let operands = operands.as_slice();
            let chain = judge_chain(alloc, around, globals, number, names, guarded, operands)?;
            Ok(of_external(&chain))
        }
        RawProcessNode::Internal(operands) => {
            let operands = operands.as_slice();
            let chain = judge_chain(alloc, around, globals, number, names, guarded, operands)?;
            Ok(of_internal(&chain))
        }
    }
}

#[cycle(judge)]
fn judge_chain(
    alloc: Global,
    around: &Around,
    globals: &mut Table<Entry>,
    number: u32,
    names: &mut Table<Entry>,
    guarded: bool,
    operands: &[RawProcess],
) -> Result<Chain, Memory>
    requires forms { around.now.forms.now ≡ map (value_forms around.now.view.now globals.old) around.now.channels.now }
    requires operations { AreCallees around.now.known.now globals.old around.now.machines.now around.now.operations.now }
    ensures fault { IfOk result (λ r. r.fault ≡ first (spec.processes_fault around.now.known.now globals.old around.now.machines.now around.now.channels.now around.now.view.now around.now.own.now around.now.definitions.now number names.old guarded (raw_processes operands.now))) }
    ensures stranger { IfOk result (λ r. r.stranger ≡ first (spec.operands_fault (raw_processes operands.now))) }
    ensures operands { IfOk result (λ r. r.are_operands ≡ spec.are_operands (raw_processes operands.now)) }
    ensures place { IfOk result (λ r. or_place r.place nowhere ≡ spec.place_of_first (raw_processes operands.now)) }
    ensures globals { OnOk result (globals.new ≡ globals.old) }
    ensures names { OnOk result (names.new ≡ names.old) }
{
    let mut chain = no_operand();
    for operand in operands {
        let own = judge(alloc, around, globals, number, names, guarded, operand)?;
        chain = with_operand(&chain, &own);
    }
    Ok(chain)
}

/// The first fault of a process that stands in the definition with the number, where the names of the whole text are `globals` and those
/// at its place `names`; an event stands before it there, or none does.
pub fn process_fault(
    alloc: Global,
    around: &Around,
    globals: &mut Table<Entry>,
    number: u32,
    names: &mut Table<Entry>,
    guarded: bool,
    process: &RawProcess,
) -> Result<Option<Fault>, Memory>
    requires forms { around.now.forms.now ≡ map (value_forms around.now.view.now globals.old) around.now.channels.now }
    requires operations { AreCallees around.now.known.now globals.old around.now.machines.now around.now.operations.now }
    ensures fault { IfOk result (λ f. f ≡ first (spec.process_fault around.now.known.now globals.old around.now.machines.now around.now.channels.now around.now.view.now around.now.own.now around.now.definitions.now number names.old guarded process.now)) }
    ensures globals { OnOk result (globals.new ≡ globals.old) }
    ensures names { OnOk result (names.new ≡ names.old) }
{
    let told = judge(alloc, around, globals, number, names, guarded, process)?;
    Ok(told.fault)
}
