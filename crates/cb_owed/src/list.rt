//! All that a system owes.

ghost use Rattle.std.specs.Prelude.{◌≡◌, ℕ, ◌++◌, true, None, map, flat_map, IfOk, OnOk, IfErr};
ghost use Rattle.cb_spec.specs.States.{IsAt};
ghost use Rattle.cb_spec.specs.Typed.{Typed};
ghost use Rattle.cb_obligations.specs.Owed.{owed_of, machine_owes};
ghost use Rattle.cb_wp.specs.Limits.{Tells, Counted, Faulted, machine_steps};
ghost use Rattle.cb_conditions.specs.Conditions as conditions;
ghost use Rattle.cb_conditions.specs.Conditions.{controller_owes};
ghost use Rattle.cb_conditions.specs.Fitting.{PlainController};
ghost use Rattle.cb_owed.specs.Lists.{AreOwed, system_owes, controllers_owe};
ghost use Rattle.cb_owed.specs.Limits as limits;
ghost use Rattle.cb_owed.specs.Limits.{first_limit};
ghost use Rattle.cb_owed.specs.Parts as parts;

use crate::groups::{add_loop, add_match, add_start};
use crate::limits::check_system;
use cb_controlled_laws::laws::typed_controllers_are_plain;
use cb_seq::sequent::Obligation;
use cb_spec::system::{Controller, Definition, Machine, System};
use cb_wp::limits::{MakeFault, Used};
use cb_wp::machine::add_machine;
use std::alloc::Global;

// Appends what the machines owe, in order.
fn add_machines(
    alloc: Global,
    machines: &[Machine],
    used: &mut Used,
    into: &mut Vec<Obligation>,
) -> Result<(), MakeFault>
    requires { limits.machines_within machines.now ≡ true }
    ensures counted { OnOk result (Counted used.old used.new (flat_map machine_steps machines.now)) }
    ensures list { OnOk result (map owed_of into.new.items ≡ map owed_of into.old.items ++ flat_map machine_owes machines.now) }
    ensures fault { IfErr result (λ e. Faulted e used.old (flat_map machine_steps machines.now)) }
{
    for machine in machines {
        add_machine(alloc, machine, used, into)?;
    }
    Ok(())
}

// Appends what the definition owes.
fn add_definition(
    alloc: Global,
    system: &System,
    controller: &Controller,
    definition: &Definition,
    used: &mut Used,
    into: &mut Vec<Obligation>,
) -> Result<(), MakeFault>
    requires plain { PlainController system.now controller.now }
    requires own { (k : ℕ) × IsAt controller.now.definitions k definition.now }
    ensures counted { OnOk result (Counted used.old used.new (parts.definition_steps system.now controller.now definition.now)) }
    ensures list { OnOk result (map owed_of into.new.items ≡ map owed_of into.old.items ++ parts.definition_owes system.now controller.now definition.now) }
    ensures fault { IfErr result (λ e. Faulted e used.old (parts.definition_steps system.now controller.now definition.now)) }
{
    add_loop(alloc, system, controller, definition, used, into)?;
    add_match(alloc, system, controller, definition, used, into)
}

// Appends what the controller's definitions owe, in order.
fn add_definitions(
    alloc: Global,
    system: &System,
    controller: &Controller,
    used: &mut Used,
    into: &mut Vec<Obligation>,
) -> Result<(), MakeFault>
    requires { PlainController system.now controller.now }
    ensures counted { OnOk result (Counted used.old used.new (limits.definitions_steps system.now controller.now controller.now.definitions)) }
    ensures list { OnOk result (map owed_of into.new.items ≡ map owed_of into.old.items ++ conditions.definitions_owe system.now controller.now controller.now.definitions) }
    ensures fault { IfErr result (λ e. Faulted e used.old (limits.definitions_steps system.now controller.now controller.now.definitions)) }
{
    for definition in controller.definitions.as_slice() {
        add_definition(alloc, system, controller, definition, used, into)?;
    }
    Ok(())
}

// Appends what the controller owes.
fn add_controller(
    alloc: Global,
    system: &System,
    controller: &Controller,
    used: &mut Used,
    into: &mut Vec<Obligation>,
) -> Result<(), MakeFault>
    requires { PlainController system.now controller.now }
    ensures counted { OnOk result (Counted used.old used.new (limits.controller_steps system.now controller.now)) }
    ensures list { OnOk result (map owed_of into.new.items ≡ map owed_of into.old.items ++ controller_owes system.now controller.now) }
    ensures fault { IfErr result (λ e. Faulted e used.old (limits.controller_steps system.now controller.now)) }
{
    add_start(alloc, system, controller, used, into)?;
    add_definitions(alloc, system, controller, used, into)
}

// Appends what the controllers of the system owe, in order.
fn add_controllers(
    alloc: Global,
    system: &System,
    used: &mut Used,
    into: &mut Vec<Obligation>,
) -> Result<(), MakeFault>
    requires { Typed system.now }
    ensures counted { OnOk result (Counted used.old used.new (parts.controllers_steps system.now system.now.controllers)) }
    ensures list { OnOk result (map owed_of into.new.items ≡ map owed_of into.old.items ++ controllers_owe system.now system.now.controllers) }
    ensures fault { IfErr result (λ e. Faulted e used.old (parts.controllers_steps system.now system.now.controllers)) }
{
    typed_controllers_are_plain();
    for controller in system.controllers.as_slice() {
        add_controller(alloc, system, controller, used, into)?;
    }
    Ok(())
}

// Appends what the system owes.
fn add_system(
    alloc: Global,
    system: &System,
    used: &mut Used,
    into: &mut Vec<Obligation>,
) -> Result<(), MakeFault>
    requires typed { Typed system.now }
    requires within { limits.machines_within system.now.machines ≡ true }
    ensures counted { OnOk result (Counted used.old used.new (limits.system_steps system.now)) }
    ensures list { OnOk result (map owed_of into.new.items ≡ map owed_of into.old.items ++ system_owes system.now) }
    ensures fault { IfErr result (λ e. Faulted e used.old (limits.system_steps system.now)) }
{
    add_machines(alloc, system.machines.as_slice(), used, into)?;
    add_controllers(alloc, system, used, into)
}

/// All that the system owes, in order: each machine's obligations and then each controller's, in text order.
///
/// # Errors
/// `Limit` with the first limit that is passed: `Controllers` before `Branches`, these before `Visits`, and these before the others,
/// of which the first on the way through the list is told; `Memory`.
pub fn all_obligations(alloc: Global, system: &System) -> Result<Vec<Obligation>, MakeFault>
    requires { Typed system.now }
    ensures list { IfOk result (λ v. AreOwed system.now v.items) }
    ensures within { OnOk result (first_limit system.now ≡ None) }
    ensures fault { IfErr result (λ e. Tells e (first_limit system.now)) }
{
    check_system(alloc, system)?;
    let mut used = Used {
        obligations: 0,
        nodes: 0,
    };
    let mut list = Vec::new(alloc);
    add_system(alloc, system, &mut used, &mut list)?;
    Ok(list)
}
