//! Printing calls and events.

ghost use Rattle.std.specs.Prelude.{◌≡◌, ◌++◌, OnOk, true};
ghost use Rattle.cb_amn_print.specs.Machines.{names_text};
ghost use Rattle.cb_text_print.specs.Processes as text;

use crate::Memory;
use cb_amn_print::{put, put_formula, put_if, put_name, put_term};
use cb_lex::raw::event::{RawCall, RawEvent};
use cb_lex::raw::name::RawName;
use cb_lex::raw::term::{RawFormula, RawTerm};
use std::alloc::Global;

// names with commas between them
pub(crate) fn put_names(alloc: Global, out: &mut Vec<u8>, names: &[RawName]) -> Result<(), Memory>
    ensures { OnOk result (out.new.items ≡ out.old.items ++ names_text true names.now) }
{
    let mut first = true;
    for name in names {
        put_if(out, !first, b", ")?;
        put_name(alloc, out, name)?;
        first = false;
    }
    Ok(())
}

// terms with commas between them
fn put_terms(alloc: Global, out: &mut Vec<u8>, terms: &[RawTerm]) -> Result<(), Memory>
    ensures { OnOk result (out.new.items ≡ out.old.items ++ text.list_text terms.now) }
{
    let mut first = true;
    for term in terms {
        put_if(out, !first, b", ")?;
        put_term(alloc, out, false, term)?;
        first = false;
    }
    Ok(())
}

fn put_arguments(alloc: Global, out: &mut Vec<u8>, terms: &[RawTerm]) -> Result<(), Memory>
    ensures { OnOk result (out.new.items ≡ out.old.items ++ text.arguments_text terms.now) }
{
    put_if(out, !terms.is_empty(), b"( ")?;
    put_terms(alloc, out, terms)?;
    put_if(out, !terms.is_empty(), b") ")
}

pub(crate) fn put_call(alloc: Global, out: &mut Vec<u8>, call: &RawCall) -> Result<(), Memory>
    ensures { OnOk result (out.new.items ≡ out.old.items ++ text.call_text call.now) }
{
    put_name(alloc, out, &call.name)?;
    put_arguments(alloc, out, call.arguments.as_slice())
}

fn put_guard(alloc: Global, out: &mut Vec<u8>, condition: &Option<RawFormula>) -> Result<(), Memory>
    ensures { OnOk result (out.new.items ≡ out.old.items ++ text.guard_text condition.now) }
{
    match condition {
        None => Ok(()),
        Some(condition) => {
            put(out, b"{ ")?;
            put_formula(alloc, out, false, condition)?;
            put(out, b"} ")
        }
    }
}

fn put_passed(alloc: Global, out: &mut Vec<u8>, terms: &[RawTerm]) -> Result<(), Memory>
    ensures { OnOk result (out.new.items ≡ out.old.items ++ text.passed_text terms.now) }
{
    put_if(out, !terms.is_empty(), b"! ")?;
    put_arguments(alloc, out, terms)
}

fn put_returned(alloc: Global, out: &mut Vec<u8>, names: &[RawName]) -> Result<(), Memory>
    ensures { OnOk result (out.new.items ≡ out.old.items ++ text.returned_text names.now) }
{
    put_if(out, !names.is_empty(), b"? ( ")?;
    put_names(alloc, out, names)?;
    put_if(out, !names.is_empty(), b") ")
}

pub(crate) fn put_event(alloc: Global, out: &mut Vec<u8>, event: &RawEvent) -> Result<(), Memory>
    ensures { OnOk result (out.new.items ≡ out.old.items ++ text.event_text event.now) }
{
    match event {
        RawEvent::Output {
            channel,
            values,
            condition,
        } => {
            put_name(alloc, out, channel)?;
            put(out, b"! ( ")?;
            put_terms(alloc, out, values.as_slice())?;
            put(out, b") ")?;
            put_guard(alloc, out, condition)
        }
        RawEvent::Input {
            channel,
            names,
            condition,
        } => {
            put_name(alloc, out, channel)?;
            put(out, b"? ( ")?;
            put_names(alloc, out, names.as_slice())?;
            put(out, b") ")?;
            put_guard(alloc, out, condition)
        }
        RawEvent::Operation {
            machine,
            operation,
            arguments,
            results,
        } => {
            put_name(alloc, out, machine)?;
            put(out, b". ")?;
            put_name(alloc, out, operation)?;
            put_passed(alloc, out, arguments.as_slice())?;
            put_returned(alloc, out, results.as_slice())
        }
    }
}
