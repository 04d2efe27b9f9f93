//! The normal form of events.

ghost use Rattle.std.specs.Prelude.{◌≡◌, IfOk, OnOk, map, option_copied};
ghost use Rattle.cb_forms.specs.Find.{found};
ghost use Rattle.cb_processes.specs.Known.{forms_among, noted, results_at};
ghost use Rattle.cb_signatures.specs.Calls.{AreCallees, callee_among};
ghost use Rattle.cb_spec.specs.declared.event.Event.TheVariants as event;
ghost use Rattle.cb_text_laws.specs.NormalProcesses.{arguments_in, event_in, machine_of_callee, note_in, number_of_callee};
ghost use Rattle.cb_text_laws.specs.ProcessFaults as spec;
ghost use Rattle.cb_text_laws.specs.Signatures.{channel_of as channel_named, value_forms};
ghost use Rattle.cb_text_laws.specs.TextNames.{channel_number, number_or_none, numbered};
ghost use Rattle.cb_types.specs.Declares.{machine_number};
ghost use Rattle.cb_types.specs.NormalMachines.{written_name};

use crate::bound::{bind_all, channel_at, forms_at, note_of_names, note_of_values};
use crate::parts::{normal_terms, number_or_zero, written_names};
use cb_flow::ends::channel_of;
use cb_forms::form::Form;
use cb_forms::table::Table;
use cb_judge::names::{Entry, View};
use cb_lex::Memory;
use cb_lex::raw::event::RawEvent;
use cb_lex::raw::name::{RawName, RawNames};
use cb_lex::raw::term::{RawFormula, RawTerms};
use cb_processes::process::Around;
use cb_signatures::operations::Signature;
use cb_spec::event::Event;
use cb_term::name::Names;
use cb_term::tree::{Formula, Terms};
use cb_types::tables::machine_of;
use std::alloc::Global;

// The annotation of an output, and the terms that it gives.
fn output_parts(
    alloc: Global,
    around: &Around,
    globals: &mut Table<Entry>,
    names: &mut Table<Entry>,
    number: Option<u32>,
    values: &RawTerms,
    said: &Option<RawFormula>,
) -> Result<(Option<Formula>, Terms), Memory>
    ensures note { IfOk result (λ p. p.0 ≡ note_in around.now.view.now (noted around.now.view.now globals.old (numbered around.now.channels.now number)) said.now) }
    ensures terms { IfOk result (λ p. p.1 ≡ arguments_in around.now.view.now names.old values.now) }
    ensures globals { OnOk result (globals.new ≡ globals.old) }
    ensures names { OnOk result (names.new ≡ names.old) }
{
    let channel = channel_at(around.channels, number);
    let note = note_of_values(alloc, around.view, globals, channel, said)?;
    let terms = normal_terms(alloc, around.view, names, values.as_slice())?;
    Ok((note, terms))
}

fn normal_output(
    alloc: Global,
    around: &Around,
    globals: &mut Table<Entry>,
    names: &mut Table<Entry>,
    channel: &RawName,
    values: &RawTerms,
    said: &Option<RawFormula>,
) -> Result<Event, Memory>
    ensures event { IfOk result (λ e. e ≡ event.Output (number_or_none (channel_number (found channel.now.text names.old))) (arguments_in around.now.view.now names.old values.now) (note_in around.now.view.now (noted around.now.view.now globals.old (channel_named around.now.channels.now names.old channel.now)) said.now)) }
    ensures globals { OnOk result (globals.new ≡ globals.old) }
    ensures names { OnOk result (names.new ≡ names.old) }
{
    let number = channel_of(names.find(channel.text.as_slice()));
    let (guarantee, terms) = output_parts(alloc, around, globals, names, number, values, said)?;
    Ok(Event::Output {
        channel: number_or_zero(number),
        terms,
        guarantee,
    })
}

// The annotation of an input, and the names that it binds.
fn input_parts(
    alloc: Global,
    around: &Around,
    globals: &mut Table<Entry>,
    number: Option<u32>,
    bound: &RawNames,
    said: &Option<RawFormula>,
) -> Result<(Option<Formula>, Names), Memory>
    ensures note { IfOk result (λ p. p.0 ≡ note_in around.now.view.now (spec.with_locals globals.old bound.now (forms_among around.now.forms.now number)) said.now) }
    ensures names { IfOk result (λ p. p.1 ≡ map written_name bound.now) }
    ensures globals { OnOk result (globals.new ≡ globals.old) }
{
    let bound = bound.as_slice();
    let forms = forms_at(around.forms, number);
    let note = note_of_names(alloc, around.view, globals, bound, forms, said)?;
    let written = written_names(alloc, bound)?;
    Ok((note, written))
}

// Binds the names of an input.
fn normal_input(
    alloc: Global,
    around: &Around,
    globals: &mut Table<Entry>,
    names: &mut Table<Entry>,
    channel: &RawName,
    bound: &RawNames,
    said: &Option<RawFormula>,
) -> Result<Event, Memory>
    ensures event { IfOk result (λ e. e ≡ event.Input (number_or_none (channel_number (found channel.now.text names.old))) (map written_name bound.now) (note_in around.now.view.now (spec.with_locals globals.old bound.now (forms_among around.now.forms.now (channel_number (found channel.now.text names.old)))) said.now)) }
    ensures globals { OnOk result (globals.new ≡ globals.old) }
    ensures names { OnOk result (names.new ≡ spec.with_locals names.old bound.now (forms_among around.now.forms.now (channel_number (found channel.now.text names.old)))) }
{
    let number = channel_of(names.find(channel.text.as_slice()));
    let forms = forms_at(around.forms, number);
    bind_all(alloc, names, bound.as_slice(), forms)?;
    let (assume, written) = input_parts(alloc, around, globals, number, bound, said)?;
    Ok(Event::Input {
        channel: number_or_zero(number),
        names: written,
        assume,
    })
}

fn machine_called(callee: Option<&Signature>) -> u32
    ensures { result ≡ machine_of_callee (option_copied callee.entry) }
{
    match callee {
        None => 0,
        Some(callee) => callee.machine,
    }
}

fn operation_called(callee: Option<&Signature>) -> u32
    ensures { result ≡ number_of_callee (option_copied callee.entry) }
{
    match callee {
        None => 0,
        Some(callee) => callee.operation,
    }
}

fn results_of(callee: Option<&Signature>) -> &[Form]
    ensures { result.now ≡ results_at (option_copied callee.entry) }
{
    match callee {
        None => &[],
        Some(callee) => callee.results.as_slice(),
    }
}

// The arguments and the results of a call of an operation. The results are bound to values of these forms then.
fn operation_parts(
    alloc: Global,
    view: &View,
    names: &mut Table<Entry>,
    arguments: &RawTerms,
    results: &RawNames,
    forms: &[Form],
) -> Result<(Terms, Names), Memory>
    ensures arguments { IfOk result (λ p. p.0 ≡ arguments_in view.now names.old arguments.now) }
    ensures results { IfOk result (λ p. p.1 ≡ map written_name results.now) }
    ensures names { OnOk result (names.new ≡ spec.with_locals names.old results.now forms.now) }
{
    let args = normal_terms(alloc, view, names, arguments.as_slice())?;
    let results = results.as_slice();
    let written = written_names(alloc, results)?;
    bind_all(alloc, names, results, forms)?;
    Ok((args, written))
}

// Binds the results of a call of an operation.
fn normal_operation(
    alloc: Global,
    around: &Around,
    names: &mut Table<Entry>,
    machine: &RawName,
    operation: &RawName,
    arguments: &RawTerms,
    results: &RawNames,
) -> Result<Event, Memory>
    ensures event { IfOk result (λ e. let o = callee_among around.now.operations.now (machine_number (found machine.now.text names.old)) operation.now.text in e ≡ event.Call (machine_of_callee o) (number_of_callee o) (arguments_in around.now.view.now names.old arguments.now) (map written_name results.now)) }
    ensures names { OnOk result (names.new ≡ spec.with_locals names.old results.now (results_at (callee_among around.now.operations.now (machine_number (found machine.now.text names.old)) operation.now.text))) }
{
    let number = machine_of(names.find(machine.text.as_slice()));
    let callee = around.operations.find(number, operation.text.as_slice());
    let forms = results_of(callee);
    let (args, written) = operation_parts(alloc, around.view, names, arguments, results, forms)?;
    Ok(Event::Call {
        machine: machine_called(callee),
        operation: operation_called(callee),
        args,
        results: written,
    })
}

/// An event in normal form, whose names are bound then.
pub fn normal_event(
    alloc: Global,
    around: &Around,
    globals: &mut Table<Entry>,
    names: &mut Table<Entry>,
    event: &RawEvent,
) -> Result<Event, Memory>
    requires forms { around.now.forms.now ≡ map (value_forms around.now.view.now globals.old) around.now.channels.now }
    requires operations { AreCallees around.now.known.now globals.old around.now.machines.now around.now.operations.now }
    ensures event { IfOk result (λ e. e ≡ event_in around.now.known.now globals.old around.now.machines.now around.now.channels.now around.now.view.now around.now.own.now around.now.definitions.now names.old event.now) }
    ensures globals { OnOk result (globals.new ≡ globals.old) }
    ensures names { OnOk result (names.new ≡ spec.after_event around.now.known.now globals.old around.now.machines.now around.now.channels.now around.now.view.now around.now.own.now around.now.definitions.now names.old event.now) }
{
    match event {
        RawEvent::Output {
            channel,
            values,
            condition,
        } => normal_output(alloc, around, globals, names, channel, values, condition),
        RawEvent::Input {
            channel,
            names: bound,
            condition,
        } => normal_input(alloc, around, globals, names, channel, bound, condition),
        RawEvent::Operation {
            machine,
            operation,
            arguments,
            results,
        } => normal_operation(alloc, around, names, machine, operation, arguments, results),
    }
}
