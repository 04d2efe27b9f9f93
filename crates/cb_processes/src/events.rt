//! Faults of events.

ghost use Rattle.std.specs.Prelude.{◌≡◌, IfOk, OnOk, length, map, option_copied};
ghost use Rattle.cb_forms.specs.Faults.{Both, first};
ghost use Rattle.cb_forms.specs.Find.{found};
ghost use Rattle.cb_processes.specs.Known.{forms_among, channel_fault, noted, unknown_operation, callee_count_fault, parameters_at, results_at};
ghost use Rattle.cb_signatures.specs.Calls.{AreCallees, callee_among};
ghost use Rattle.cb_text_laws.specs.ProcessFaults as spec;
ghost use Rattle.cb_text_laws.specs.Signatures.{channel_of as channel_named, value_forms};
ghost use Rattle.cb_text_laws.specs.TextNames.{channel_number};
ghost use Rattle.cb_types.specs.Declares.{machine_number};
ghost use Rattle.cb_types.specs.MachineFaults.{maybe_fault};

use crate::bound::{declare_bound, judge_inside};
use crate::channels::{channel_at, forms_at, judge_channel, judge_note};
use crate::process::Around;
use cb_controls::arguments::arguments_fault;
use cb_flow::ends::channel_of;
use cb_forms::fault::{Fault, earlier, when};
use cb_forms::form::Form;
use cb_forms::owners::Owners;
use cb_forms::table::Table;
use cb_judge::names::Entry;
use cb_lex::Memory;
use cb_lex::raw::event::RawEvent;
use cb_lex::raw::name::{RawName, RawNames};
use cb_lex::raw::term::{RawFormula, RawTerms};
use cb_signatures::operations::Signature;
use cb_types::tables::machine_of;
use std::alloc::Global;

fn judge_output(
    alloc: Global,
    around: &Around,
    globals: &mut Table<Entry>,
    names: &mut Table<Entry>,
    channel: &RawName,
    values: &RawTerms,
    said: &Option<RawFormula>,
) -> Result<Option<Fault>, Memory>
    ensures fault { IfOk result (λ f. f ≡ first (Both (channel_fault channel.now (length values.now) (channel_named around.now.channels.now names.old channel.now)) (Both (spec.arguments_fault around.now.view.now names.old (forms_among around.now.forms.now (channel_number (found channel.now.text names.old))) values.now) (maybe_fault around.now.view.now (noted around.now.view.now globals.old (channel_named around.now.channels.now names.old channel.now)) said.now)))) }
    ensures globals { OnOk result (globals.new ≡ globals.old) }
    ensures names { OnOk result (names.new ≡ names.old) }
{
    let number = channel_of(names.find(channel.text.as_slice()));
    let declared = channel_at(around.channels, number);
    let values = values.as_slice();
    let own = judge_channel(channel, values.len(), declared);
    let forms = forms_at(around.forms, number);
    let given = arguments_fault(alloc, around.view, names, forms, values)?;
    let note = judge_note(alloc, around.view, globals, declared, said)?;
    Ok(earlier(own, earlier(given, note)))
}

// Binds the names of an input, with its first fault.
fn judge_input(
    alloc: Global,
    around: &Around,
    globals: &mut Table<Entry>,
    names: &mut Table<Entry>,
    channel: &RawName,
    bound: &RawNames,
    said: &Option<RawFormula>,
) -> Result<Option<Fault>, Memory>
    ensures fault { IfOk result (λ f. f ≡ first (Both (channel_fault channel.now (length bound.now) (channel_named around.now.channels.now names.old channel.now)) (Both (spec.bound_fault names.old bound.now (forms_among around.now.forms.now (channel_number (found channel.now.text names.old)))) (maybe_fault around.now.view.now (spec.with_locals globals.old bound.now (forms_among around.now.forms.now (channel_number (found channel.now.text names.old)))) said.now)))) }
    ensures globals { OnOk result (globals.new ≡ globals.old) }
    ensures names { OnOk result (names.new ≡ spec.with_locals names.old bound.now (forms_among around.now.forms.now (channel_number (found channel.now.text names.old)))) }
{
    let number = channel_of(names.find(channel.text.as_slice()));
    let declared = channel_at(around.channels, number);
    let bound = bound.as_slice();
    let own = judge_channel(channel, bound.len(), declared);
    let forms = forms_at(around.forms, number);
    let twice = declare_bound(alloc, names, bound, forms)?;
    let note = judge_inside(alloc, around.view, globals, bound, forms, said)?;
    Ok(earlier(own, earlier(twice, note)))
}

// The fault of a machine that is none, or of an operation that it does not have or that the controller does not call.
fn unknown(
    own: &Owners,
    number: Option<u32>,
    callee: Option<&Signature>,
    machine: &RawName,
    operation: &RawName,
) -> Option<Fault>
    ensures { result ≡ first (unknown_operation own.now number (option_copied callee.entry) machine.now operation.now) }
{
    match number {
        None => when(true, 2, machine.place),
        Some(k) => when(!own.has(k) || callee.is_none(), 2, operation.place),
    }
}

// The fault of another number of arguments or of results.
fn counts(
    arguments: usize,
    results: usize,
    operation: &RawName,
    callee: Option<&Signature>,
) -> Option<Fault>
    ensures { result ≡ first (callee_count_fault arguments results operation.now (option_copied callee.entry)) }
{
    match callee {
        None => None,
        Some(callee) => {
            let parameters = callee.parameters.as_slice();
            let wanted = callee.results.as_slice();
            let differ = arguments != parameters.len() || results != wanted.len();
            when(differ, 22, operation.place)
        }
    }
}

fn parameters(callee: Option<&Signature>) -> &[Form]
    ensures { result.now ≡ parameters_at (option_copied callee.entry) }
{
    match callee {
        None => &[],
        Some(callee) => callee.parameters.as_slice(),
    }
}

fn results_of(callee: Option<&Signature>) -> &[Form]
    ensures { result.now ≡ results_at (option_copied callee.entry) }
{
    match callee {
        None => &[],
        Some(callee) => callee.results.as_slice(),
    }
}

// Binds the results of a call of an operation, with its first fault.
fn judge_operation(
    alloc: Global,
    around: &Around,
    names: &mut Table<Entry>,
    machine: &RawName,
    operation: &RawName,
    arguments: &RawTerms,
    results: &RawNames,
) -> Result<Option<Fault>, Memory>
    ensures fault { IfOk result (λ f. let k = machine_number (found machine.now.text names.old) in let o = callee_among around.now.operations.now k operation.now.text in f ≡ first (Both (Both (unknown_operation around.now.own.now k o machine.now operation.now) (callee_count_fault (length arguments.now) (length results.now) operation.now o)) (Both (spec.arguments_fault around.now.view.now names.old (parameters_at o) arguments.now) (spec.bound_fault names.old results.now (results_at o))))) }
    ensures names { OnOk result (names.new ≡ spec.with_locals names.old results.now (results_at (callee_among around.now.operations.now (machine_number (found machine.now.text names.old)) operation.now.text))) }
{
    let number = machine_of(names.find(machine.text.as_slice()));
    let callee = around.operations.find(number, operation.text.as_slice());
    let arguments = arguments.as_slice();
    let results = results.as_slice();
    let unknown = unknown(around.own, number, callee, machine, operation);
    let counts = counts(arguments.len(), results.len(), operation, callee);
    let given = arguments_fault(alloc, around.view, names, parameters(callee), arguments)?;
    let twice = declare_bound(alloc, names, results, results_of(callee))?;
    Ok(earlier(earlier(unknown, counts), earlier(given, twice)))
}

/// The first fault of an event, whose names are bound then.
pub fn judge_event(
    alloc: Global,
    around: &Around,
    globals: &mut Table<Entry>,
    names: &mut Table<Entry>,
    event: &RawEvent,
) -> Result<Option<Fault>, Memory>
    requires forms { around.now.forms.now ≡ map (value_forms around.now.view.now globals.old) around.now.channels.now }
    requires operations { AreCallees around.now.known.now globals.old around.now.machines.now around.now.operations.now }
    ensures fault { IfOk result (λ f. f ≡ first (spec.event_fault around.now.known.now globals.old around.now.machines.now around.now.channels.now around.now.view.now around.now.own.now around.now.definitions.now names.old event.now)) }
    ensures globals { OnOk result (globals.new ≡ globals.old) }
    ensures names { OnOk result (names.new ≡ spec.after_event around.now.known.now globals.old around.now.machines.now around.now.channels.now around.now.view.now around.now.own.now around.now.definitions.now names.old event.now) }
{
    match event {
        RawEvent::Output {
            channel,
            values,
            condition,
        } => judge_output(alloc, around, globals, names, channel, values, condition),
        RawEvent::Input {
            channel,
            names: bound,
            condition,
        } => judge_input(alloc, around, globals, names, channel, bound, condition),
        RawEvent::Operation {
            machine,
            operation,
            arguments,
            results,
        } => judge_operation(alloc, around, names, machine, operation, arguments, results),
    }
}
