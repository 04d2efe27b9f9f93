//! Limits that are looked at before anything is made.

ghost use Rattle.std.specs.Prelude.{◌≡◌, true, Option, IfOk, OnOk, IfErr};
ghost use Rattle.cb_wp.specs.Limits.{Tells};
ghost use Rattle.cb_wp.specs.declared.limits.Which.{Which};
ghost use Rattle.cb_conditions.specs.Steps as steps;
ghost use Rattle.cb_ways.specs.Calls.{counts_of};
ghost use Rattle.cb_owed.specs.Limits as limits;
ghost use Rattle.cb_owed.specs.Parts.{body_limit, system_limit};

use cb_spec::system::{Controller, Definition, Machine, System};
use cb_starts::machines::start_within;
use cb_term::Memory;
use cb_ways::visits::{branch_counts, calls_within, visits};
use cb_wp::limits::{MakeFault, Which};
use cb_wp::machine::branches_within;
use sqlite_items::Items;
use std::alloc::Global;

fn machines_within(machines: &[Machine]) -> bool
    ensures { result ≡ limits.machines_within machines.now }
{
    for machine in machines {
        if !branches_within(machine) {
            return false;
        }
    }
    true
}

fn starts_within(system: &System, controllers: &[Controller]) -> bool
    ensures { result ≡ limits.starts_within system.now controllers.now }
{
    for controller in controllers {
        if !start_within(system, controller) {
            return false;
        }
    }
    true
}

// Whether the walk through the body visits no more than 65,536 process nodes.
fn body_within(system: &System, counts: &Items<Items<u64>>, definition: &Definition) -> bool
    requires counts { counts.now ≡ counts_of system.now }
    requires within { steps.calls_within system.now definition.now.body ≡ true }
    ensures { result ≡ limits.body_within system.now definition.now }
{
    visits(system, counts, &definition.body) <= 65_536
}

fn bodies_within(system: &System, counts: &Items<Items<u64>>, definitions: &[Definition]) -> bool
    requires counts { counts.now ≡ counts_of system.now }
    requires within { limits.machines_within system.now.machines ≡ true }
    ensures { result ≡ limits.bodies_within system.now definitions.now }
{
    for definition in definitions {
        if !body_within(system, counts, definition) {
            return false;
        }
    }
    true
}

fn each_within(system: &System, counts: &Items<Items<u64>>, controllers: &[Controller]) -> bool
    requires counts { counts.now ≡ counts_of system.now }
    requires within { limits.machines_within system.now.machines ≡ true }
    ensures { result ≡ limits.controllers_within system.now controllers.now }
{
    for controller in controllers {
        if !bodies_within(system, counts, controller.definitions.as_slice()) {
            return false;
        }
    }
    true
}

fn controllers_within(
    alloc: Global,
    system: &System,
    controllers: &[Controller],
) -> Result<bool, Memory>
    requires { limits.machines_within system.now.machines ≡ true }
    ensures { IfOk result (λ b. b ≡ limits.controllers_within system.now controllers.now) }
{
    let counts = branch_counts(alloc, system)?;
    Ok(each_within(system, &counts, controllers))
}

// What `check_body` does, with the numbers of branches that the operations have.
fn check_counted(
    system: &System,
    counts: &Items<Items<u64>>,
    definition: &Definition,
) -> Result<(), MakeFault>
    requires { counts.now ≡ counts_of system.now }
    ensures calls { OnOk result (steps.calls_within system.now definition.now.body ≡ true) }
    ensures visits { OnOk result (limits.body_within system.now definition.now ≡ true) }
    ensures fault { IfErr result (λ e. (rest : Option Which) → Tells e (body_limit system.now definition.now rest)) }
{
    if !calls_within(system, counts, &definition.body) {
        return Err(MakeFault::Limit(Which::Branches));
    }
    if !body_within(system, counts, definition) {
        return Err(MakeFault::Limit(Which::Visits));
    }
    Ok(())
}

/// That the walk through the definition's body is within the limits: `Limit` with `Branches`, and then with `Visits`.
pub fn check_body(alloc: Global, system: &System, definition: &Definition) -> Result<(), MakeFault>
    ensures calls { OnOk result (steps.calls_within system.now definition.now.body ≡ true) }
    ensures visits { OnOk result (limits.body_within system.now definition.now ≡ true) }
    ensures fault { IfErr result (λ e. (rest : Option Which) → Tells e (body_limit system.now definition.now rest)) }
{
    let counts = branch_counts(alloc, system)?;
    check_counted(system, &counts, definition)
}

/// That the system is within the limits that come before all counting: `Limit` with `Controllers`, then with `Branches`, and then with
/// `Visits`.
pub fn check_system(alloc: Global, system: &System) -> Result<(), MakeFault>
    ensures machines { OnOk result (limits.machines_within system.now.machines ≡ true) }
    ensures within { OnOk result ((rest : Option Which) → system_limit system.now rest ≡ rest) }
    ensures fault { IfErr result (λ e. (rest : Option Which) → Tells e (system_limit system.now rest)) }
{
    let controllers = system.controllers.as_slice();
    if controllers.len() > 64 {
        return Err(MakeFault::Limit(Which::Controllers));
    }
    if !machines_within(system.machines.as_slice()) || !starts_within(system, controllers) {
        return Err(MakeFault::Limit(Which::Branches));
    }
    if !controllers_within(alloc, system, controllers)? {
        return Err(MakeFault::Limit(Which::Visits));
    }
    Ok(())
}
