//! Groups of obligations: START, LOOP and MATCH.

ghost use Rattle.std.specs.Prelude.{◌≡◌, ℕ, ◌++◌, Some, OnOk, IfErr, map};
ghost use Rattle.cb_seq.specs.Validity.{claim_of};
ghost use Rattle.cb_spec.specs.States.{IsAt};
ghost use Rattle.cb_obligations.specs.Owed.{owed_of, named};
ghost use Rattle.cb_wp.specs.Limits.{Counted, Faulted};
ghost use Rattle.cb_conditions.specs.Conditions.{start_owes, loop_owes, match_owes};
ghost use Rattle.cb_conditions.specs.Fitting.{PlainController};
ghost use Rattle.cb_conditions.specs.Steps.{start_steps, loop_steps, match_steps};

use crate::loops::loop_sequents;
use cb_matches::matches::match_sequents;
use cb_seq::sequent::{Group, Obligation, Sequent};
use cb_spec::system::{Controller, Definition, System};
use cb_starts::start::start_sequents;
use cb_term::Memory;
use cb_term::name::Name;
use cb_wp::limits::{MakeFault, Used};
use cb_wp::machine::{add_named, first_name};
use std::alloc::Global;

// Appends the sequents as the obligations of the group, counted from 1.
fn add_group(
    alloc: Global,
    group: Group,
    owner: &Name,
    part: Option<Name>,
    sequents: Vec<Sequent>,
    into: &mut Vec<Obligation>,
) -> Result<(), Memory>
    ensures { OnOk result (map owed_of into.new.items ≡ map owed_of into.old.items ++ named group owner.now part 1 (map claim_of sequents.items)) }
{
    let first = first_name(alloc, group, owner, part)?;
    add_named(alloc, &first, sequents, into)
}

// Appends the sequents as the obligations of the group of this definition.
fn add_part(
    alloc: Global,
    group: Group,
    controller: &Controller,
    definition: &Definition,
    sequents: Vec<Sequent>,
    into: &mut Vec<Obligation>,
) -> Result<(), Memory>
    ensures { OnOk result (map owed_of into.new.items ≡ map owed_of into.old.items ++ named group controller.now.name (Some definition.now.name) 1 (map claim_of sequents.items)) }
{
    let part = definition.name.copy(alloc)?;
    add_group(alloc, group, &controller.name, Some(part), sequents, into)
}

/// Appends what the beginning of a controller of the system owes, counted on from what is used, to which it adds.
///
/// # Errors
/// `Limit` with the first limit that is passed on the way, however many branches there are; `Memory`.
pub fn add_start(
    alloc: Global,
    system: &System,
    controller: &Controller,
    used: &mut Used,
    into: &mut Vec<Obligation>,
) -> Result<(), MakeFault>
    requires { PlainController system.now controller.now }
    ensures counted { OnOk result (Counted used.old used.new (start_steps system.now controller.now)) }
    ensures list { OnOk result (map owed_of into.new.items ≡ map owed_of into.old.items ++ start_owes system.now controller.now) }
    ensures fault { IfErr result (λ e. Faulted e used.old (start_steps system.now controller.now)) }
{
    let sequents = start_sequents(alloc, system, controller, used)?;
    add_group(alloc, Group::Start, &controller.name, None, sequents, into)?;
    Ok(())
}

/// Appends what a definition of a controller of the system owes, counted on from what is used, to which it adds.
///
/// # Errors
/// `Limit` with the first limit that is passed on the way, however many branches and visits there are; `Memory`.
pub fn add_loop(
    alloc: Global,
    system: &System,
    controller: &Controller,
    definition: &Definition,
    used: &mut Used,
    into: &mut Vec<Obligation>,
) -> Result<(), MakeFault>
    requires plain { PlainController system.now controller.now }
    requires own { (k : ℕ) × IsAt controller.now.definitions k definition.now }
    ensures counted { OnOk result (Counted used.old used.new (loop_steps system.now controller.now definition.now)) }
    ensures list { OnOk result (map owed_of into.new.items ≡ map owed_of into.old.items ++ loop_owes system.now controller.now definition.now) }
    ensures fault { IfErr result (λ e. Faulted e used.old (loop_steps system.now controller.now definition.now)) }
{
    let sequents = loop_sequents(alloc, system, controller, definition, used)?;
    add_part(alloc, Group::Loop, controller, definition, sequents, into)?;
    Ok(())
}

/// Appends what the written annotations in a definition of the controller owe, counted on from what is used, to which it adds.
///
/// # Errors
/// `Limit` with the first limit that is passed on the way; `Memory`.
pub fn add_match(
    alloc: Global,
    system: &System,
    controller: &Controller,
    definition: &Definition,
    used: &mut Used,
    into: &mut Vec<Obligation>,
) -> Result<(), MakeFault>
    ensures counted { OnOk result (Counted used.old used.new (match_steps system.now definition.now)) }
    ensures list { OnOk result (map owed_of into.new.items ≡ map owed_of into.old.items ++ match_owes system.now controller.now definition.now) }
    ensures fault { IfErr result (λ e. Faulted e used.old (match_steps system.now definition.now)) }
{
    let sequents = match_sequents(alloc, system, definition, used)?;
    add_part(alloc, Group::Match, controller, definition, sequents, into)?;
    Ok(())
}
