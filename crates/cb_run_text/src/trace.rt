//! The lines of a trace.

ghost use Rattle.std.specs.Prelude.{◌≡◌, ◌++◌, slice_get, IfOk, OnOk};
ghost use Rattle.std.specs.Option.{option_copied};
ghost use Rattle.cb_run_text.specs.Traces as texts;

use crate::values::{kinds_of, put, put_value, put_values, result_kinds};
use cb_spec::state::{End, Entry, Values};
use cb_spec::store::Store;
use cb_spec::system::{Channel, Declared, Machine, Operation, System};
use cb_term::Memory;
use cb_term::kind::Kind;
use cb_term::name::Name;
use cb_term::table::SetTable;
use cb_term::text::put_name;
use cb_wp::branches::kind_of;
use sqlite_items::at;
use std::alloc::Global;

/// The trace of a run: a line for each variable with its value at the beginning, in text order; one for each event; and the line of
/// its end. A machine, an operation or a channel that the system lacks prints nothing.
pub fn trace_text(
    alloc: Global,
    system: &System,
    values: &Store,
    journal: &[Entry],
) -> Result<Vec<u8>, Memory>
    ensures { IfOk result (λ out. out.items ≡ texts.trace_text system.now values.now journal.now) }
{
    let mut out = Vec::new(alloc);
    put_inits(
        alloc,
        &mut out,
        &system.sets,
        values,
        system.machines.as_slice(),
    )?;
    put_entries(alloc, &mut out, system, journal)?;
    Ok(out)
}

fn put_inits(
    alloc: Global,
    out: &mut Vec<u8>,
    sets: &SetTable,
    values: &Store,
    machines: &[Machine],
) -> Result<(), Memory>
    ensures { OnOk result (out.new.items ≡ out.old.items ++ texts.inits_text sets.now.sets.items values.now machines.now) }
{
    for machine in machines {
        put_variables(
            alloc,
            out,
            sets,
            machine,
            values,
            machine.variables.as_slice(),
        )?;
    }
    Ok(())
}

fn put_variables(
    alloc: Global,
    out: &mut Vec<u8>,
    sets: &SetTable,
    machine: &Machine,
    values: &Store,
    variables: &[Declared],
) -> Result<(), Memory>
    ensures { OnOk result (out.new.items ≡ out.old.items ++ texts.variables_text sets.now.sets.items machine.now values.now variables.now) }
{
    for variable in variables {
        put_variable(alloc, out, sets, machine, values, variable)?;
    }
    Ok(())
}

fn put_variable(
    alloc: Global,
    out: &mut Vec<u8>,
    sets: &SetTable,
    machine: &Machine,
    values: &Store,
    variable: &Declared,
) -> Result<(), Memory>
    ensures { OnOk result (out.new.items ≡ out.old.items ++ texts.variable_text sets.now.sets.items machine.now values.now variable.now) }
{
    put(out, b"init ")?;
    put_name(alloc, out, &machine.name)?;
    put(out, b".")?;
    put_name(alloc, out, &variable.name)?;
    put(out, b" = ")?;
    let value = values.value_at(alloc, &variable.name)?;
    put_value(alloc, out, sets, kind_of(variable.domain), &value)?;
    put(out, b"\n")
}

fn put_entries(
    alloc: Global,
    out: &mut Vec<u8>,
    system: &System,
    journal: &[Entry],
) -> Result<(), Memory>
    ensures { OnOk result (out.new.items ≡ out.old.items ++ texts.entries_text system.now journal.now) }
{
    for entry in journal {
        put_entry(alloc, out, system, entry)?;
    }
    Ok(())
}

fn put_entry(alloc: Global, out: &mut Vec<u8>, system: &System, entry: &Entry) -> Result<(), Memory>
    ensures { OnOk result (out.new.items ≡ out.old.items ++ texts.entry_text system.now entry.now) }
{
    match entry {
        Entry::Settle { .. } => Ok(()),
        Entry::Op {
            machine,
            operation,
            args,
            results,
            ..
        } => {
            let machine = at(system.machines.as_slice(), *machine as usize);
            put_op(alloc, out, &system.sets, machine, *operation, args, results)
        }
        Entry::Pass {
            channel,
            values,
            ..
        } => {
            let channel = at(system.channels.as_slice(), *channel as usize);
            put_pass(alloc, out, &system.sets, channel, values)
        }
        Entry::End(cause) => put(out, end_word(*cause)),
    }
}

fn put_op(
    alloc: Global,
    out: &mut Vec<u8>,
    sets: &SetTable,
    machine: Option<&Machine>,
    operation: u32,
    args: &Values,
    results: &Values,
) -> Result<(), Memory>
    ensures { OnOk result (out.new.items ≡ out.old.items ++ texts.op_text sets.now.sets.items (option_copied machine.entry) operation args.now results.now) }
{
    match machine {
        Some(machine) => {
            let operation = at(machine.operations.as_slice(), operation as usize);
            put_call(alloc, out, sets, machine, operation, args, results)
        }
        None => Ok(()),
    }
}

fn put_call(
    alloc: Global,
    out: &mut Vec<u8>,
    sets: &SetTable,
    machine: &Machine,
    operation: Option<&Operation>,
    args: &Values,
    results: &Values,
) -> Result<(), Memory>
    ensures { OnOk result (out.new.items ≡ out.old.items ++ texts.call_text sets.now.sets.items machine.now (option_copied operation.entry) args.now results.now) }
{
    match operation {
        Some(operation) => {
            put_name(alloc, out, &machine.name)?;
            put(out, b".")?;
            put_name(alloc, out, &operation.name)?;
            put_args(alloc, out, sets, operation.params.as_slice(), args)?;
            put_results(alloc, out, sets, operation.results.as_slice(), results)?;
            put(out, b"\n")
        }
        None => Ok(()),
    }
}

fn put_pass(
    alloc: Global,
    out: &mut Vec<u8>,
    sets: &SetTable,
    channel: Option<&Channel>,
    values: &Values,
) -> Result<(), Memory>
    ensures { OnOk result (out.new.items ≡ out.old.items ++ texts.pass_text sets.now.sets.items (option_copied channel.entry) values.now) }
{
    match channel {
        Some(channel) => {
            put_name(alloc, out, &channel.name)?;
            put_args(alloc, out, sets, channel.values.as_slice(), values)?;
            put(out, b"\n")
        }
        None => Ok(()),
    }
}

fn put_args(
    alloc: Global,
    out: &mut Vec<u8>,
    sets: &SetTable,
    params: &[Declared],
    values: &Values,
) -> Result<(), Memory>
    ensures { OnOk result (out.new.items ≡ out.old.items ++ texts.args_text sets.now.sets.items params.now values.now) }
{
    if params.is_empty() {
        return Ok(());
    }
    let kinds = kinds_of(alloc, params)?;
    put(out, b"(")?;
    put_values(alloc, out, sets, kinds.as_slice(), values.as_slice())?;
    put(out, b")")
}

fn put_results(
    alloc: Global,
    out: &mut Vec<u8>,
    sets: &SetTable,
    results: &[(Name, Kind)],
    values: &Values,
) -> Result<(), Memory>
    ensures { OnOk result (out.new.items ≡ out.old.items ++ texts.results_text sets.now.sets.items results.now values.now) }
{
    if results.is_empty() {
        return Ok(());
    }
    let kinds = result_kinds(alloc, results)?;
    put(out, b" -> ")?;
    put_values(alloc, out, sets, kinds.as_slice(), values.as_slice())
}

fn end_word(cause: End) -> &'static [u8]
    ensures { result.now ≡ texts.end_word cause }
{
    match cause {
        End::Ended => b"end ended\n",
        End::Limit => b"end limit\n",
        End::Quiet => b"end quiet\n",
        End::Memory => b"end memory\n",
    }
}
