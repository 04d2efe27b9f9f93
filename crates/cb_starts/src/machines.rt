//! The machines of a controller together: their variables, and how they begin.

ghost use Rattle.std.specs.Prelude.{◌≡◌, ◌≤◌, ◌*◌, ◌++◌, leb, min, IfOk, OnOk, option_copied};
ghost use Rattle.cb_spec.specs.SubstTree as subst;
ghost use Rattle.cb_obligations.specs.Counts.{branch_count};
ghost use Rattle.cb_obligations.specs.Owed.{with_kinds};
ghost use Rattle.cb_conditions.specs.Conditions as conditions;
ghost use Rattle.cb_conditions.specs.Conditions.{listed, variables_of, machines_of};
ghost use Rattle.cb_starts.specs.Starts.{own_variables, own_branches};

use crate::copies::{boxed, boxed_copy, skip, together};
use cb_spec::subst::Subst;
use cb_spec::system::{Controller, Declared, Machine, System};
use cb_term::Memory;
use cb_term::kind::Kind;
use cb_term::name::Name;
use cb_wp::branches::{branch_count, kind_of};
use sqlite_items::{Items, at};
use std::alloc::Global;

// Appends the declared names with their kinds.
fn add_kinds(
    alloc: Global,
    declared: &[Declared],
    names: &mut Items<(Name, Kind)>,
) -> Result<(), Memory>
    ensures { OnOk result (names.new ≡ names.old ++ with_kinds declared.now) }
{
    for one in declared {
        let name = one.name.copy(alloc)?;
        names.push((name, kind_of(one.domain)))?;
    }
    Ok(())
}

// Appends the variables of the machine that is there, with their kinds.
fn add_variables(
    alloc: Global,
    machine: Option<&Machine>,
    names: &mut Items<(Name, Kind)>,
) -> Result<(), Memory>
    ensures { OnOk result (names.new ≡ names.old ++ with_kinds (own_variables (option_copied machine.entry))) }
{
    match machine {
        Some(machine) => add_kinds(alloc, machine.variables.as_slice(), names),
        None => Ok(()),
    }
}

// The variables of the machines at these places, with their kinds.
fn variables_at(
    alloc: Global,
    machines: &[Machine],
    places: &[u32],
) -> Result<Items<(Name, Kind)>, Memory>
    ensures { IfOk result (λ ns. ns ≡ with_kinds (variables_of (listed machines.now places.now))) }
{
    let mut names = Items::new(alloc);
    for place in places {
        add_variables(alloc, at(machines, *place as usize), &mut names)?;
    }
    Ok(names)
}

/// The variables of the controller's machines, with their kinds.
pub fn own_names(
    alloc: Global,
    system: &System,
    controller: &Controller,
) -> Result<Items<(Name, Kind)>, Memory>
    ensures { IfOk result (λ ns. ns ≡ conditions.own_names system.now controller.now) }
{
    variables_at(
        alloc,
        system.machines.as_slice(),
        controller.machines.as_slice(),
    )
}

// With the machine's initialisation beside those of the machines at the places that are left.
#[cycle(beginnings)]
fn with_init(
    alloc: Global,
    machines: &[Machine],
    machine: &Machine,
    left: &[u32],
) -> Result<Subst, Memory>
    ensures { IfOk result (λ s. s ≡ subst.Together machine.now.init (conditions.beginnings (listed machines.now left.now))) }
{
    let init = boxed_copy(alloc, &machine.init)?;
    let others = boxed_beginnings(alloc, machines, left)?;
    Ok(together(init, others))
}

// In a box.
#[cycle(beginnings)]
fn boxed_beginnings(
    alloc: Global,
    machines: &[Machine],
    places: &[u32],
) -> Result<Box<Subst>, Memory>
    ensures { IfOk result (λ b. b.value ≡ conditions.beginnings (listed machines.now places.now)) }
{
    let all = beginnings_at(alloc, machines, places)?;
    boxed(alloc, all)
}

// The substitution nests as deep as there are places, and so does this.
#[cycle(beginnings)]
fn beginnings_at(alloc: Global, machines: &[Machine], places: &[u32]) -> Result<Subst, Memory>
    ensures { IfOk result (λ s. s ≡ conditions.beginnings (listed machines.now places.now)) }
{
    let Some((first, left)) = places.split_first() else {
        return Ok(skip());
    };
    match machines.get(*first as usize) {
        Some(machine) => with_init(alloc, machines, machine, left),
        None => beginnings_at(alloc, machines, left),
    }
}

/// The initialisations of the controller's machines, all at once.
pub fn beginnings(
    alloc: Global,
    system: &System,
    controller: &Controller,
) -> Result<Box<Subst>, Memory>
    ensures { IfOk result (λ b. b.value ≡ conditions.beginnings (machines_of system.now controller.now)) }
{
    boxed_beginnings(
        alloc,
        system.machines.as_slice(),
        controller.machines.as_slice(),
    )
}

// How many branches there are with the initialisation of the machine that is there beside so many. 257 where there are more than 256.
fn with_branches(machine: Option<&Machine>, others: u64) -> u64
    requires { others ≤ 257 }
    ensures { result ≡ min (others * min (own_branches (option_copied machine.entry)) 257) 257 }
{
    match machine {
        Some(machine) => least(branch_count(&machine.init) * others),
        None => others,
    }
}

fn least(count: u64) -> u64
    ensures { result ≡ min count 257 }
{
    if count < 257 { count } else { 257 }
}

// How many branches the initialisations have together. 257 where there are more than 256.
fn branches_at(machines: &[Machine], places: &[u32]) -> u64
    ensures { result ≡ min (branch_count (conditions.beginnings (listed machines.now places.now))) 257 }
{
    let mut count = 1u64;
    for place in places {
        count = with_branches(at(machines, *place as usize), count);
    }
    count
}

/// Whether the initialisations of the controller's machines together have at most 256 branches.
pub fn start_within(system: &System, controller: &Controller) -> bool
    ensures { result ≡ leb (branch_count (conditions.beginnings (machines_of system.now controller.now))) 256 }
{
    branches_at(system.machines.as_slice(), controller.machines.as_slice()) <= 256
}
