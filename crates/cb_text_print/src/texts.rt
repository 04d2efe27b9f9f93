//! Printing whole texts.

ghost use Rattle.std.specs.Prelude.{◌≡◌, ◌++◌, IfOk, OnOk};
ghost use Rattle.std.specs.List.{flat_map};
ghost use Rattle.cb_amn_print.specs.Machines.{machine_text};
ghost use Rattle.cb_text_print.specs.Texts as text;

use crate::Memory;
use crate::controllers::{put_channels, put_controller};
use crate::events::put_names;
use cb_amn_print::{print_machine, put};
use cb_lex::raw::name::RawName;
use cb_lex::raw::text::{RawController, RawMachine, RawText};
use std::alloc::Global;

/// The text of a raw text, its proofs aside, which is read again as this text, places aside. A text without an order is
/// printed as its machines alone.
pub fn print_text(alloc: Global, raw: &RawText) -> Result<Vec<u8>, Memory>
    ensures { IfOk result (λ out. out.items ≡ text.text_text raw.now) }
{
    let mut out = Vec::new(alloc);
    put_machines(alloc, &mut out, raw.machines.as_slice())?;
    put_rest(alloc, &mut out, raw)?;
    Ok(out)
}

fn put_machine(alloc: Global, out: &mut Vec<u8>, machine: &RawMachine) -> Result<(), Memory>
    ensures { OnOk result (out.new.items ≡ out.old.items ++ machine_text machine.now) }
{
    let printed = print_machine(alloc, machine)?;
    put(out, printed.as_slice())
}

fn put_machines(alloc: Global, out: &mut Vec<u8>, machines: &[RawMachine]) -> Result<(), Memory>
    ensures { OnOk result (out.new.items ≡ out.old.items ++ flat_map machine_text machines.now) }
{
    for machine in machines {
        put_machine(alloc, out, machine)?;
    }
    Ok(())
}

fn put_controllers(
    alloc: Global,
    out: &mut Vec<u8>,
    controllers: &[RawController],
) -> Result<(), Memory>
    ensures { OnOk result (out.new.items ≡ out.old.items ++ flat_map text.controller_text controllers.now) }
{
    for controller in controllers {
        put_controller(alloc, out, controller)?;
    }
    Ok(())
}

// all behind the machines
fn put_rest(alloc: Global, out: &mut Vec<u8>, raw: &RawText) -> Result<(), Memory>
    ensures { OnOk result (out.new.items ≡ out.old.items ++ text.rest_text raw.now raw.now.order) }
{
    match &raw.order {
        None => Ok(()),
        Some(order) => put_system(alloc, out, raw, order.as_slice()),
    }
}

fn put_system(
    alloc: Global,
    out: &mut Vec<u8>,
    raw: &RawText,
    order: &[RawName],
) -> Result<(), Memory>
    ensures { OnOk result (out.new.items ≡ out.old.items ++ text.system_text raw.now order.now) }
{
    put_channels(alloc, out, raw.channels.as_slice())?;
    put_controllers(alloc, out, raw.controllers.as_slice())?;
    put(out, b"SYSTEM ")?;
    put_names(alloc, out, order)?;
    put(out, b"END ")
}
