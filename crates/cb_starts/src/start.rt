//! START: what the beginning of a controller owes.

ghost use Rattle.std.specs.Prelude.{◌≡◌, ◌++◌, [], IfOk, OnOk, IfErr, map};
ghost use Rattle.cb_seq.specs.Validity.{claim_of};
ghost use Rattle.cb_obligations.specs.Branches as obligations;
ghost use Rattle.cb_obligations.specs.Pieces.{pieces};
ghost use Rattle.cb_wp.specs.Limits.{Counted, Faulted};
ghost use Rattle.cb_wp.specs.Parts.{branch_of};
ghost use Rattle.cb_conditions.specs.Conditions as conditions;
ghost use Rattle.cb_conditions.specs.Conditions.{machines_of, start_formula};
ghost use Rattle.cb_conditions.specs.Fitting.{PlainController};
ghost use Rattle.cb_conditions.specs.Reading.{itself};
ghost use Rattle.cb_conditions.specs.Steps.{start_steps};
ghost use Rattle.cb_conditions.specs.Ways.{leaving};
ghost use Rattle.cb_symbolic.specs.Walks.{way_of};
ghost use Rattle.cb_starts.specs.Starts.{beginning_steps, beginning_ways, beginnings_steps, beginnings_ways};

use crate::invariants::suppose_invariants;
use crate::machines::{beginnings, own_names};
use cb_conditions::laws::start_by_ways;
use cb_seq::sequent::Sequent;
use cb_spec::system::{Controller, System};
use cb_symbolic::show::Made;
use cb_symbolic::walk::{Reached, Walk, beginning, leave};
use cb_term::Memory;
use cb_term::name::Name;
use cb_term::tree::Term;
use cb_ways::branches::enter;
use cb_ways::shows::add_call;
use cb_wp::branches::{Branch, all_branches};
use cb_wp::limits::{MakeFault, Used};
use sqlite_items::Items;
use std::alloc::Global;

// From here on the written names stand for their terms, as these are read here, and each other name for itself.
fn write_all(alloc: Global, walk: &mut Walk, writes: &[(Name, Term)]) -> Result<(), Memory>
    ensures way { OnOk result ((r : Reached) → way_of r walk.new ≡ leaving itself writes.now (way_of r walk.old)) }
    ensures hypotheses { OnOk result (walk.new.hypotheses ≡ walk.old.hypotheses) }
{
    let _inside = leave(alloc, walk, 0, writes)?;
    Ok(())
}

// Appends what is owed after one branch of the machines' beginnings, on a walk that begins.
fn add_after(
    alloc: Global,
    system: &System,
    controller: &Controller,
    branch: &Branch,
    walk: &mut Walk,
    made: &mut Made,
) -> Result<(), MakeFault>
    requires { walk.old ≡ record { store = []; names = conditions.own_names system.now controller.now; hypotheses = [] } }
    ensures counted { OnOk result (Counted made.old.used made.new.used (beginning_steps system.now controller.now (branch_of branch.now))) }
    ensures list { OnOk result (map claim_of made.new.sequents.items ≡ map claim_of made.old.sequents.items ++ beginning_ways system.now controller.now (branch_of branch.now)) }
    ensures fault { IfErr result (λ e. Faulted e made.old.used (beginning_steps system.now controller.now (branch_of branch.now))) }
{
    let inside = enter(
        alloc,
        walk,
        beginning(),
        branch.items.as_slice(),
        &made.used,
    )?;
    write_all(alloc, walk, branch.writes.as_slice())?;
    let reached = suppose_invariants(alloc, system, controller, walk, inside)?;
    add_call(
        alloc,
        system,
        controller,
        walk,
        reached,
        controller.start,
        &controller.start_args,
        made,
    )
}

// Appends what is owed after one branch of the machines' beginnings.
fn add_beginning(
    alloc: Global,
    system: &System,
    controller: &Controller,
    branch: &Branch,
    made: &mut Made,
) -> Result<(), MakeFault>
    ensures counted { OnOk result (Counted made.old.used made.new.used (beginning_steps system.now controller.now (branch_of branch.now))) }
    ensures list { OnOk result (map claim_of made.new.sequents.items ≡ map claim_of made.old.sequents.items ++ beginning_ways system.now controller.now (branch_of branch.now)) }
    ensures fault { IfErr result (λ e. Faulted e made.old.used (beginning_steps system.now controller.now (branch_of branch.now))) }
{
    let mut walk = Walk::first(alloc, own_names(alloc, system, controller)?);
    add_after(alloc, system, controller, branch, &mut walk, made)
}

// Appends what is owed after each branch of the machines' beginnings.
fn add_beginnings(
    alloc: Global,
    system: &System,
    controller: &Controller,
    branches: &[Branch],
    made: &mut Made,
) -> Result<(), MakeFault>
    ensures counted { OnOk result (Counted made.old.used made.new.used (beginnings_steps system.now controller.now (map branch_of branches.now))) }
    ensures list { OnOk result (map claim_of made.new.sequents.items ≡ map claim_of made.old.sequents.items ++ beginnings_ways system.now controller.now (map branch_of branches.now)) }
    ensures fault { IfErr result (λ e. Faulted e made.old.used (beginnings_steps system.now controller.now (map branch_of branches.now))) }
{
    for branch in branches {
        add_beginning(alloc, system, controller, branch, made)?;
    }
    Ok(())
}

fn branches_of(
    alloc: Global,
    system: &System,
    controller: &Controller,
) -> Result<Items<Branch>, Memory>
    ensures { IfOk result (λ bs. map branch_of bs ≡ obligations.branches (conditions.beginnings (machines_of system.now controller.now))) }
{
    let subst = beginnings(alloc, system, controller)?;
    all_branches(alloc, &subst)
}

fn add_all(
    alloc: Global,
    system: &System,
    controller: &Controller,
    made: &mut Made,
) -> Result<(), MakeFault>
    ensures counted { OnOk result (Counted made.old.used made.new.used (start_steps system.now controller.now)) }
    ensures list { OnOk result (map claim_of made.new.sequents.items ≡ map claim_of made.old.sequents.items ++ beginnings_ways system.now controller.now (obligations.branches (conditions.beginnings (machines_of system.now controller.now)))) }
    ensures fault { IfErr result (λ e. Faulted e made.old.used (start_steps system.now controller.now)) }
{
    let branches = branches_of(alloc, system, controller)?;
    add_beginnings(alloc, system, controller, branches.as_slice(), made)
}

/// The sequents of what the beginning of a controller of the system owes, counted on from what is used, to which it adds.
///
/// # Errors
/// `Limit` with the first limit that is passed on the way, however many branches there are; `Memory`.
pub fn start_sequents(
    alloc: Global,
    system: &System,
    controller: &Controller,
    used: &mut Used,
) -> Result<Vec<Sequent>, MakeFault>
    requires { PlainController system.now controller.now }
    ensures counted { OnOk result (Counted used.old used.new (start_steps system.now controller.now)) }
    ensures list { IfOk result (λ v. map claim_of v.items ≡ pieces (conditions.own_names system.now controller.now) [] 0 (start_formula system.now controller.now)) }
    ensures fault { IfErr result (λ e. Faulted e used.old (start_steps system.now controller.now)) }
{
    start_by_ways();
    let mut made = Made {
        used: *used,
        sequents: Vec::new(alloc),
    };
    add_all(alloc, system, controller, &mut made)?;
    *used = made.used;
    Ok(made.sequents)
}
