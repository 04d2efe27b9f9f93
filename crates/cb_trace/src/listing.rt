//! The listing of obligations.

ghost use Rattle.std.specs.Prelude.{◌≡◌, ◌++◌, IfOk, OnOk};
ghost use Rattle.std.specs.Option.{option_copied};
ghost use Rattle.cb_trace.specs.Texts as texts;

use cb_seq::sequent::{Group, ObName, Obligation};
use cb_term::Memory;
use cb_term::name::Name;
use cb_term::table::SetTable;
use cb_term::text::{put_formula, put_name};
use cb_term::tree::Formula;
use std::alloc::Global;

/// Each obligation with its name, its hypotheses and its goal, a line each, and then how many there are. The names of sets and
/// elements are taken from the table.
pub fn listing_text(alloc: Global, sets: &SetTable, list: &[Obligation]) -> Result<Vec<u8>, Memory>
    ensures { IfOk result (λ out. out.items ≡ texts.listing_text sets.now.sets.items list.now) }
{
    let mut out = Vec::new(alloc);
    for obligation in list {
        put_sequent(alloc, &mut out, sets, obligation)?;
    }
    put_count(alloc, &mut out, list.len() as u64)?;
    Ok(out)
}

/// Appends the name of an obligation, as `OP:M:operation:1`.
pub fn put_obligation(alloc: Global, out: &mut Vec<u8>, name: &ObName) -> Result<(), Memory>
    ensures { OnOk result (out.new.items ≡ out.old.items ++ texts.obligation_text name.now) }
{
    put(out, group_word(name.group))?;
    put(out, b":")?;
    put_name(alloc, out, &name.owner)?;
    put_part(alloc, out, name.group, name.part.as_ref())?;
    put(out, b":")?;
    put_number(alloc, out, name.number)
}

fn put_sequent(
    alloc: Global,
    out: &mut Vec<u8>,
    sets: &SetTable,
    obligation: &Obligation,
) -> Result<(), Memory>
    ensures { OnOk result (out.new.items ≡ out.old.items ++ texts.sequent_text sets.now.sets.items obligation.now) }
{
    let sequent = &obligation.sequent;
    put_obligation(alloc, out, &obligation.name)?;
    put(out, b"\n")?;
    put_hypotheses(alloc, out, sets, sequent.hypotheses.as_slice())?;
    put_goal(alloc, out, sets, &sequent.goal)
}

fn put_goal(alloc: Global, out: &mut Vec<u8>, sets: &SetTable, goal: &Formula) -> Result<(), Memory>
    ensures { OnOk result (out.new.items ≡ out.old.items ++ texts.goal_text sets.now.sets.items goal.now) }
{
    put(out, b"  G ")?;
    put_formula(alloc, out, sets, goal)?;
    put(out, b"\n")
}

pub(crate) fn put_count(alloc: Global, out: &mut Vec<u8>, count: u64) -> Result<(), Memory>
    ensures { OnOk result (out.new.items ≡ out.old.items ++ texts.count_line count) }
{
    put_number(alloc, out, count)?;
    put(out, b" obligations")?;
    put(out, b"\n")
}

fn put_hypotheses(
    alloc: Global,
    out: &mut Vec<u8>,
    sets: &SetTable,
    hypotheses: &[Formula],
) -> Result<(), Memory>
    ensures { OnOk result (out.new.items ≡ out.old.items ++ texts.hypotheses_text sets.now.sets.items 1 hypotheses.now) }
{
    for i in 0..hypotheses.len() {
        put(out, b"  H")?;
        put_number(alloc, out, i as u64 + 1)?;
        put(out, b" ")?;
        put_formula(alloc, out, sets, &hypotheses[i])?;
        put(out, b"\n")?;
    }
    Ok(())
}

fn group_word(group: Group) -> &'static [u8]
    ensures { result.now ≡ texts.group_text group }
{
    match group {
        Group::Init => b"INIT",
        Group::Op => b"OP",
        Group::Live => b"LIVE",
        Group::Start => b"START",
        Group::Loop => b"LOOP",
        Group::Match => b"MATCH",
    }
}

fn put_part(
    alloc: Global,
    out: &mut Vec<u8>,
    group: Group,
    part: Option<&Name>,
) -> Result<(), Memory>
    ensures { OnOk result (out.new.items ≡ out.old.items ++ texts.part_text group (option_copied part.entry)) }
{
    match (group, part) {
        (_, Some(name)) => {
            put(out, b":")?;
            put_name(alloc, out, name)
        }
        (Group::Live, None) => put(out, b":INITIALISATION"),
        (_, None) => Ok(()),
    }
}

pub(crate) fn put_number(alloc: Global, out: &mut Vec<u8>, number: u64) -> Result<(), Memory>
    ensures { OnOk result (out.new.items ≡ out.old.items ++ texts.decimal number) }
{
    let digits = number.to_string(alloc)?;
    put(out, digits.as_bytes())
}

pub(crate) fn put(out: &mut Vec<u8>, bytes: &[u8]) -> Result<(), Memory>
    ensures { OnOk result (out.new.items ≡ out.old.items ++ bytes.now) }
{
    out.extend_from_slice(bytes)?;
    Ok(())
}
