//! Printing channels and controllers.

ghost use Rattle.std.specs.Prelude.{◌≡◌, ◌++◌, OnOk, true, codes};
ghost use Rattle.cb_amn_print.specs.Machines.{names_text, part_text};
ghost use Rattle.cb_text_print.specs.Texts as text;

use crate::Memory;
use crate::events::{put_call, put_names};
use crate::processes::put_process;
use cb_amn_print::{put, put_domain, put_formula, put_if, put_name};
use cb_lex::raw::domain::RawParam;
use cb_lex::raw::name::RawName;
use cb_lex::raw::term::RawFormula;
use cb_lex::raw::text::{RawChannel, RawController, RawDefinition};
use std::alloc::Global;

fn put_where(alloc: Global, out: &mut Vec<u8>, condition: &Option<RawFormula>) -> Result<(), Memory>
    ensures { OnOk result (out.new.items ≡ out.old.items ++ text.where_text condition.now) }
{
    match condition {
        None => Ok(()),
        Some(condition) => {
            put(out, b"WHERE ")?;
            put_formula(alloc, out, false, condition)
        }
    }
}

fn put_channel(alloc: Global, out: &mut Vec<u8>, channel: &RawChannel) -> Result<(), Memory>
    ensures { OnOk result (out.new.items ≡ out.old.items ++ text.channel_text channel.now) }
{
    put_name(alloc, out, &channel.name)?;
    put(out, b"( ")?;
    put_names(alloc, out, channel.values.as_slice())?;
    put(out, b") ")?;
    put_where(alloc, out, &channel.condition)
}

fn put_each_channel(alloc: Global, out: &mut Vec<u8>, channels: &[RawChannel]) -> Result<(), Memory>
    ensures { OnOk result (out.new.items ≡ out.old.items ++ text.each_channel_text true channels.now) }
{
    let mut first = true;
    for channel in channels {
        put_if(out, !first, b"; ")?;
        put_channel(alloc, out, channel)?;
        first = false;
    }
    Ok(())
}

// with no channel there is no CHANNELS
pub(crate) fn put_channels(
    alloc: Global,
    out: &mut Vec<u8>,
    channels: &[RawChannel],
) -> Result<(), Memory>
    ensures { OnOk result (out.new.items ≡ out.old.items ++ text.channels_text channels.now) }
{
    put_if(out, !channels.is_empty(), b"CHANNELS ")?;
    put_each_channel(alloc, out, channels)?;
    put_if(out, !channels.is_empty(), b"END ")
}

fn put_parameter(alloc: Global, out: &mut Vec<u8>, parameter: &RawParam) -> Result<(), Memory>
    ensures { OnOk result (out.new.items ≡ out.old.items ++ text.parameter_text parameter.now) }
{
    match parameter {
        RawParam::Member { name, domain } => {
            put_name(alloc, out, name)?;
            put(out, b": ")?;
            put_domain(alloc, out, domain)
        }
        RawParam::Subset { name, domain } => {
            put_name(alloc, out, name)?;
            put(out, b"<: ")?;
            put_domain(alloc, out, domain)
        }
    }
}

fn put_each_parameter(
    alloc: Global,
    out: &mut Vec<u8>,
    parameters: &[RawParam],
) -> Result<(), Memory>
    ensures { OnOk result (out.new.items ≡ out.old.items ++ text.each_parameter_text true parameters.now) }
{
    let mut first = true;
    for parameter in parameters {
        put_if(out, !first, b", ")?;
        put_parameter(alloc, out, parameter)?;
        first = false;
    }
    Ok(())
}

fn put_parameters(alloc: Global, out: &mut Vec<u8>, parameters: &[RawParam]) -> Result<(), Memory>
    ensures { OnOk result (out.new.items ≡ out.old.items ++ text.parameters_text parameters.now) }
{
    put_if(out, !parameters.is_empty(), b"( ")?;
    put_each_parameter(alloc, out, parameters)?;
    put_if(out, !parameters.is_empty(), b") ")
}

fn put_invariant(
    alloc: Global,
    out: &mut Vec<u8>,
    invariant: &Option<RawFormula>,
) -> Result<(), Memory>
    ensures { OnOk result (out.new.items ≡ out.old.items ++ text.invariant_text invariant.now) }
{
    match invariant {
        None => Ok(()),
        Some(invariant) => {
            put(out, b"INV ( ")?;
            put_formula(alloc, out, false, invariant)?;
            put(out, b") ")
        }
    }
}

fn put_definition(
    alloc: Global,
    out: &mut Vec<u8>,
    definition: &RawDefinition,
) -> Result<(), Memory>
    ensures { OnOk result (out.new.items ≡ out.old.items ++ text.definition_text definition.now) }
{
    put_name(alloc, out, &definition.name)?;
    put_parameters(alloc, out, definition.parameters.as_slice())?;
    put_invariant(alloc, out, &definition.invariant)?;
    put(out, b"= ")?;
    put_process(alloc, out, false, &definition.process)
}

fn put_definitions(
    alloc: Global,
    out: &mut Vec<u8>,
    definitions: &[RawDefinition],
) -> Result<(), Memory>
    ensures { OnOk result (out.new.items ≡ out.old.items ++ text.definitions_text true definitions.now) }
{
    let mut first = true;
    for definition in definitions {
        put_if(out, !first, b"; ")?;
        put_definition(alloc, out, definition)?;
        first = false;
    }
    Ok(())
}

fn put_machines(alloc: Global, out: &mut Vec<u8>, machines: &[RawName]) -> Result<(), Memory>
    ensures { OnOk result (out.new.items ≡ out.old.items ++ part_text (codes "MACHINES ") names_text machines.now) }
{
    put_if(out, !machines.is_empty(), b"MACHINES ")?;
    put_names(alloc, out, machines)
}

// all before the definitions
#[tactic(auto, unfolding(crate::specs::Texts::head_text))]
fn put_head(alloc: Global, out: &mut Vec<u8>, controller: &RawController) -> Result<(), Memory>
    ensures { OnOk result (out.new.items ≡ out.old.items ++ text.head_text controller.now) }
{
    put(out, b"CONTROLLER ")?;
    put_name(alloc, out, &controller.name)?;
    put_machines(alloc, out, controller.machines.as_slice())?;
    put(out, b"START ")?;
    put_call(alloc, out, &controller.start)
}

pub(crate) fn put_controller(
    alloc: Global,
    out: &mut Vec<u8>,
    controller: &RawController,
) -> Result<(), Memory>
    ensures { OnOk result (out.new.items ≡ out.old.items ++ text.controller_text controller.now) }
{
    put_head(alloc, out, controller)?;
    put(out, b"PROCESSES ")?;
    put_definitions(alloc, out, controller.definitions.as_slice())?;
    put(out, b"END ")
}
