//! The walk over a process.

ghost use Rattle.std.specs.Prelude.{◌≡◌, ◌≤◌, ◌∷◌, ◌++◌, length, take, IfOk, OnOk, IfErr, map, flat_map};
ghost use Rattle.cb_term.specs.Tree as tree;
ghost use Rattle.cb_seq.specs.Validity.{claim_of};
ghost use Rattle.cb_spec.specs.ProcessTree as shape;
ghost use Rattle.cb_spec.specs.declared.event.Event.TheVariants as event;
ghost use Rattle.cb_obligations.specs.Branches as spec;
ghost use Rattle.cb_obligations.specs.Steps.{Reach};
ghost use Rattle.cb_wp.specs.Limits.{Counted, Faulted};
ghost use Rattle.cb_wp.specs.Parts.{branch_of};
ghost use Rattle.cb_conditions.specs.Conditions as conditions;
ghost use Rattle.cb_conditions.specs.Ways.{supposing, opening_each, ways};
ghost use Rattle.cb_conditions.specs.Steps.{way_steps};
ghost use Rattle.cb_symbolic.specs.Stores.{meaning_of};
ghost use Rattle.cb_symbolic.specs.Walks.{way_of, IsReached, Extends, Passes, Stops};
ghost use Rattle.cb_ways.specs.Calls as calls;

use crate::formulas::assumption;
use crate::operations::{enter_branch, find_operation, leave_branch};
use crate::shows::{add_call, add_sent, show_never};
use cb_spec::event::Event;
use cb_spec::process::{Process, ProcessNode};
use cb_spec::system::{Channel, Controller, Machine, Operation, System};
use cb_symbolic::show::{Made, show};
use cb_symbolic::walk::{Reached, Walk, open_each, suppose, write_terms};
use cb_term::name::{Name, Names};
use cb_term::tree::{Formula, Term, Terms};
use cb_wp::branches::{Branch, all_branches};
use cb_wp::limits::MakeFault;
use std::alloc::Global;

// Opens names for the values that come, and supposes what is known of them.
fn receive(
    alloc: Global,
    walk: &mut Walk,
    reached: Reached,
    channel: &Channel,
    inputs: &[Name],
    assume: &Option<Formula>,
) -> Result<Reached, MakeFault>
    requires { IsReached reached walk.old }
    ensures way { IfOk result (λ r. way_of r walk.new ≡ supposing (opening_each (way_of reached walk.old) (conditions.declared_as inputs.now channel.now.values)) (conditions.assumption channel.now inputs.now assume.now)) }
    ensures extends { OnOk result (Extends walk.new walk.old) }
    ensures reached { IfOk result (λ r. IsReached r walk.new) }
    ensures passes { OnOk result (Passes (Reach (supposing (opening_each (way_of reached walk.old) (conditions.declared_as inputs.now channel.now.values)) (conditions.assumption channel.now inputs.now assume.now)).hypotheses)) }
    ensures stops { IfErr result (λ e. Stops e (Reach (supposing (opening_each (way_of reached walk.old) (conditions.declared_as inputs.now channel.now.values)) (conditions.assumption channel.now inputs.now assume.now)).hypotheses)) }
{
    let opened = open_each(alloc, walk, reached, inputs, channel.values.as_slice())?;
    let known = assumption(alloc, channel, inputs, assume)?;
    suppose(alloc, walk, opened, &known)
}

// Supposes that the test fails.
fn deny(
    alloc: Global,
    walk: &mut Walk,
    reached: Reached,
    test: &Formula,
) -> Result<Reached, MakeFault>
    requires { IsReached reached walk.old }
    ensures way { IfOk result (λ r. way_of r walk.new ≡ supposing (way_of reached walk.old) (tree.Not test.now)) }
    ensures extends { OnOk result (Extends walk.new walk.old) }
    ensures reached { IfOk result (λ r. IsReached r walk.new) }
    ensures passes { OnOk result (Passes (Reach (supposing (way_of reached walk.old) (tree.Not test.now)).hypotheses)) }
    ensures stops { IfErr result (λ e. Stops e (Reach (supposing (way_of reached walk.old) (tree.Not test.now)).hypotheses)) }
{
    let fails = Formula::not(alloc, test.copy(alloc)?)?;
    suppose(alloc, walk, reached, &fails)
}

/// Appends what is owed on the ways through the process of a controller of the system. `Limit` is the first limit that is passed.
/// The walk ends where it began.
#[cycle(walk)]
pub fn add_ways(
    alloc: Global,
    system: &System,
    controller: &Controller,
    walk: &mut Walk,
    reached: Reached,
    process: &Process,
    made: &mut Made,
) -> Result<(), MakeFault>
    requires reached { IsReached reached walk.old }
    ensures walk { OnOk result (walk.new ≡ walk.old) }
    ensures counted { OnOk result (Counted made.old.used made.new.used (way_steps system.now controller.now process.now (way_of reached walk.old))) }
    ensures list { OnOk result (map claim_of made.new.sequents.items ≡ map claim_of made.old.sequents.items ++ ways system.now controller.now process.now (way_of reached walk.old)) }
    ensures fault { IfErr result (λ e. Faulted e made.old.used (way_steps system.now controller.now process.now (way_of reached walk.old))) }
{
    match &process.node {
        ProcessNode::Stop | ProcessNode::Skip => Ok(()),
        ProcessNode::Call { definition, args } => add_call(
            alloc,
            system,
            controller,
            walk,
            reached,
            *definition,
            args,
            made,
        ),
        ProcessNode::Choice(left, right) | ProcessNode::Internal(left, right) => {
            add_both(alloc, system, controller, walk, reached, left, right, made)
        }
        ProcessNode::If { test, then, other } => add_if(
            alloc, system, controller, walk, reached, test, then, other, made,
        ),
        ProcessNode::Prefix {
            event: Event::Output {
                channel,
                terms,
                guarantee,
            },
            then,
        } => add_output(
            alloc, system, controller, walk, reached, *channel, terms, guarantee, then, made,
        ),
        ProcessNode::Prefix {
            event: Event::Input {
                channel,
                names,
                assume,
            },
            then,
        } => add_input(
            alloc, system, controller, walk, reached, *channel, names, assume, then, made,
        ),
        ProcessNode::Prefix {
            event: Event::Call {
                machine,
                operation,
                args,
                results,
            },
            then,
        } => add_operation(
            alloc, system, controller, walk, reached, *machine, *operation, args, results, then,
            made,
        ),
    }
}

// The ways through both sides.
#[cycle(walk)]
#[tactic(auto, using(cb_wp::proofs::CountLemmas::count_after, cb_wp::proofs::CountLemmas::count_passed))]
fn add_both(
    alloc: Global,
    system: &System,
    controller: &Controller,
    walk: &mut Walk,
    reached: Reached,
    left: &Process,
    right: &Process,
    made: &mut Made,
) -> Result<(), MakeFault>
    requires reached { IsReached reached walk.old }
    ensures walk { OnOk result (walk.new ≡ walk.old) }
    ensures counted { OnOk result (Counted made.old.used made.new.used (way_steps system.now controller.now (shape.Choice left.now right.now) (way_of reached walk.old))) }
    ensures list { OnOk result (map claim_of made.new.sequents.items ≡ map claim_of made.old.sequents.items ++ ways system.now controller.now (shape.Choice left.now right.now) (way_of reached walk.old)) }
    ensures fault { IfErr result (λ e. Faulted e made.old.used (way_steps system.now controller.now (shape.Choice left.now right.now) (way_of reached walk.old))) }
{
    add_ways(alloc, system, controller, walk, reached, left, made)?;
    add_ways(alloc, system, controller, walk, reached, right, made)
}

// The ways through an IF.
#[cycle(walk)]
fn add_if(
    alloc: Global,
    system: &System,
    controller: &Controller,
    walk: &mut Walk,
    reached: Reached,
    test: &Formula,
    first: &Process,
    second: &Process,
    made: &mut Made,
) -> Result<(), MakeFault>
    requires reached { IsReached reached walk.old }
    ensures walk { OnOk result (walk.new ≡ walk.old) }
    ensures counted { OnOk result (Counted made.old.used made.new.used (way_steps system.now controller.now (shape.If test.now first.now second.now) (way_of reached walk.old))) }
    ensures list { OnOk result (map claim_of made.new.sequents.items ≡ map claim_of made.old.sequents.items ++ ways system.now controller.now (shape.If test.now first.now second.now) (way_of reached walk.old)) }
    ensures fault { IfErr result (λ e. Faulted e made.old.used (way_steps system.now controller.now (shape.If test.now first.now second.now) (way_of reached walk.old))) }
{
    add_side(alloc, system, controller, walk, reached, test, first, made)?;
    add_other_side(alloc, system, controller, walk, reached, test, second, made)
}

// The ways through the side of an IF where the test holds.
#[cycle(walk)]
fn add_side(
    alloc: Global,
    system: &System,
    controller: &Controller,
    walk: &mut Walk,
    reached: Reached,
    test: &Formula,
    process: &Process,
    made: &mut Made,
) -> Result<(), MakeFault>
    requires reached { IsReached reached walk.old }
    ensures walk { OnOk result (walk.new ≡ walk.old) }
    ensures counted { OnOk result (let v = supposing (way_of reached walk.old) test.now in Counted made.old.used made.new.used (Reach v.hypotheses ∷ way_steps system.now controller.now process.now v)) }
    ensures list { OnOk result (map claim_of made.new.sequents.items ≡ map claim_of made.old.sequents.items ++ ways system.now controller.now process.now (supposing (way_of reached walk.old) test.now)) }
    ensures fault { IfErr result (λ e. let v = supposing (way_of reached walk.old) test.now in Faulted e made.old.used (Reach v.hypotheses ∷ way_steps system.now controller.now process.now v)) }
{
    let mark = walk.mark();
    let inside = suppose(alloc, walk, reached, test)?;
    add_ways(alloc, system, controller, walk, inside, process, made)?;
    walk.cut(mark);
    Ok(())
}

// The ways through the side of an IF where the test fails.
#[cycle(walk)]
fn add_other_side(
    alloc: Global,
    system: &System,
    controller: &Controller,
    walk: &mut Walk,
    reached: Reached,
    test: &Formula,
    process: &Process,
    made: &mut Made,
) -> Result<(), MakeFault>
    requires reached { IsReached reached walk.old }
    ensures walk { OnOk result (walk.new ≡ walk.old) }
    ensures counted { OnOk result (let v = supposing (way_of reached walk.old) (tree.Not test.now) in Counted made.old.used made.new.used (Reach v.hypotheses ∷ way_steps system.now controller.now process.now v)) }
    ensures list { OnOk result (map claim_of made.new.sequents.items ≡ map claim_of made.old.sequents.items ++ ways system.now controller.now process.now (supposing (way_of reached walk.old) (tree.Not test.now))) }
    ensures fault { IfErr result (λ e. let v = supposing (way_of reached walk.old) (tree.Not test.now) in Faulted e made.old.used (Reach v.hypotheses ∷ way_steps system.now controller.now process.now v)) }
{
    let mark = walk.mark();
    let inside = deny(alloc, walk, reached, test)?;
    add_ways(alloc, system, controller, walk, inside, process, made)?;
    walk.cut(mark);
    Ok(())
}

// What is owed at an output, and the ways through what follows it.
#[cycle(walk)]
#[tactic(auto, using(cb_wp::proofs::CountLemmas::count_after, cb_wp::proofs::CountLemmas::count_passed))]
fn add_output(
    alloc: Global,
    system: &System,
    controller: &Controller,
    walk: &mut Walk,
    reached: Reached,
    channel: u32,
    terms: &Terms,
    guarantee: &Option<Formula>,
    process: &Process,
    made: &mut Made,
) -> Result<(), MakeFault>
    requires reached { IsReached reached walk.old }
    ensures walk { OnOk result (walk.new ≡ walk.old) }
    ensures counted { OnOk result (Counted made.old.used made.new.used (way_steps system.now controller.now (shape.Prefix (event.Output channel terms.now guarantee.now) process.now) (way_of reached walk.old))) }
    ensures list { OnOk result (map claim_of made.new.sequents.items ≡ map claim_of made.old.sequents.items ++ ways system.now controller.now (shape.Prefix (event.Output channel terms.now guarantee.now) process.now) (way_of reached walk.old)) }
    ensures fault { IfErr result (λ e. Faulted e made.old.used (way_steps system.now controller.now (shape.Prefix (event.Output channel terms.now guarantee.now) process.now) (way_of reached walk.old))) }
{
    add_sent(
        alloc, system, walk, reached, channel, terms, guarantee, made,
    )?;
    add_ways(alloc, system, controller, walk, reached, process, made)
}

// The ways through an input and what follows it.
#[cycle(walk)]
fn add_input(
    alloc: Global,
    system: &System,
    controller: &Controller,
    walk: &mut Walk,
    reached: Reached,
    channel: u32,
    inputs: &Names,
    assume: &Option<Formula>,
    process: &Process,
    made: &mut Made,
) -> Result<(), MakeFault>
    requires reached { IsReached reached walk.old }
    ensures walk { OnOk result (walk.new ≡ walk.old) }
    ensures counted { OnOk result (Counted made.old.used made.new.used (way_steps system.now controller.now (shape.Prefix (event.Input channel inputs.now assume.now) process.now) (way_of reached walk.old))) }
    ensures list { OnOk result (map claim_of made.new.sequents.items ≡ map claim_of made.old.sequents.items ++ ways system.now controller.now (shape.Prefix (event.Input channel inputs.now assume.now) process.now) (way_of reached walk.old)) }
    ensures fault { IfErr result (λ e. Faulted e made.old.used (way_steps system.now controller.now (shape.Prefix (event.Input channel inputs.now assume.now) process.now) (way_of reached walk.old))) }
{
    match system.channels.as_slice().get(channel as usize) {
        Some(channel) => add_received(
            alloc,
            system,
            controller,
            walk,
            reached,
            channel,
            inputs.as_slice(),
            assume,
            process,
            made,
        ),
        None => show_never(alloc, walk, reached, made),
    }
}

// The ways through what follows an input from the channel.
#[cycle(walk)]
fn add_received(
    alloc: Global,
    system: &System,
    controller: &Controller,
    walk: &mut Walk,
    reached: Reached,
    channel: &Channel,
    inputs: &[Name],
    assume: &Option<Formula>,
    process: &Process,
    made: &mut Made,
) -> Result<(), MakeFault>
    requires reached { IsReached reached walk.old }
    ensures walk { OnOk result (walk.new ≡ walk.old) }
    ensures counted { OnOk result (let v = supposing (opening_each (way_of reached walk.old) (conditions.declared_as inputs.now channel.now.values)) (conditions.assumption channel.now inputs.now assume.now) in Counted made.old.used made.new.used (Reach v.hypotheses ∷ way_steps system.now controller.now process.now v)) }
    ensures list { OnOk result (map claim_of made.new.sequents.items ≡ map claim_of made.old.sequents.items ++ ways system.now controller.now process.now (supposing (opening_each (way_of reached walk.old) (conditions.declared_as inputs.now channel.now.values)) (conditions.assumption channel.now inputs.now assume.now))) }
    ensures fault { IfErr result (λ e. let v = supposing (opening_each (way_of reached walk.old) (conditions.declared_as inputs.now channel.now.values)) (conditions.assumption channel.now inputs.now assume.now) in Faulted e made.old.used (Reach v.hypotheses ∷ way_steps system.now controller.now process.now v)) }
{
    let mark = walk.mark();
    let inside = receive(alloc, walk, reached, channel, inputs, assume)?;
    add_ways(alloc, system, controller, walk, inside, process, made)?;
    walk.cut(mark);
    Ok(())
}

// The ways through a call of an operation and what follows it.
#[cycle(walk)]
fn add_operation(
    alloc: Global,
    system: &System,
    controller: &Controller,
    walk: &mut Walk,
    reached: Reached,
    machine: u32,
    operation: u32,
    args: &Terms,
    results: &Names,
    process: &Process,
    made: &mut Made,
) -> Result<(), MakeFault>
    requires reached { IsReached reached walk.old }
    ensures walk { OnOk result (walk.new ≡ walk.old) }
    ensures counted { OnOk result (Counted made.old.used made.new.used (way_steps system.now controller.now (shape.Prefix (event.Call machine operation args.now results.now) process.now) (way_of reached walk.old))) }
    ensures list { OnOk result (map claim_of made.new.sequents.items ≡ map claim_of made.old.sequents.items ++ ways system.now controller.now (shape.Prefix (event.Call machine operation args.now results.now) process.now) (way_of reached walk.old)) }
    ensures fault { IfErr result (λ e. Faulted e made.old.used (way_steps system.now controller.now (shape.Prefix (event.Call machine operation args.now results.now) process.now) (way_of reached walk.old))) }
{
    match find_operation(system, machine, operation) {
        Some((machine, operation)) => add_called(
            alloc,
            system,
            controller,
            walk,
            reached,
            machine,
            operation,
            args.as_slice(),
            results.as_slice(),
            process,
            made,
        ),
        None => show_never(alloc, walk, reached, made),
    }
}

// What is owed at a call of the operation, and the ways through it and what follows it.
#[cycle(walk)]
fn add_called(
    alloc: Global,
    system: &System,
    controller: &Controller,
    walk: &mut Walk,
    reached: Reached,
    machine: &Machine,
    operation: &Operation,
    args: &[Term],
    results: &[Name],
    process: &Process,
    made: &mut Made,
) -> Result<(), MakeFault>
    requires reached { IsReached reached walk.old }
    ensures walk { OnOk result (walk.new ≡ walk.old) }
    ensures counted { OnOk result (Counted made.old.used made.new.used (calls.call_steps system.now controller.now machine.now operation.now args.now results.now process.now (way_of reached walk.old))) }
    ensures list { OnOk result (map claim_of made.new.sequents.items ≡ map claim_of made.old.sequents.items ++ calls.call_ways system.now controller.now machine.now operation.now args.now results.now process.now (way_of reached walk.old)) }
    ensures fault { IfErr result (λ e. Faulted e made.old.used (calls.call_steps system.now controller.now machine.now operation.now args.now results.now process.now (way_of reached walk.old))) }
{
    let mark = walk.mark();
    write_terms(alloc, walk, operation.params.as_slice(), args)?;
    show(alloc, walk, reached, &operation.pre, made)?;
    add_branches(
        alloc, system, controller, walk, reached, machine, operation, results, process, mark.store,
        made,
    )?;
    walk.cut(mark);
    Ok(())
}

// The ways through the operation's branches, and through what follows each.
#[cycle(walk)]
fn add_branches(
    alloc: Global,
    system: &System,
    controller: &Controller,
    walk: &mut Walk,
    reached: Reached,
    machine: &Machine,
    operation: &Operation,
    results: &[Name],
    process: &Process,
    outer: usize,
    made: &mut Made,
) -> Result<(), MakeFault>
    requires reached { IsReached reached walk.old }
    requires outer { outer ≤ length walk.old.store }
    ensures walk { OnOk result (walk.new ≡ walk.old) }
    ensures counted { OnOk result (Counted made.old.used made.new.used (flat_map (calls.branch_steps system.now controller.now machine.now operation.now results.now process.now (meaning_of (take outer walk.old.store)) (way_of reached walk.old)) (spec.branches operation.now.body))) }
    ensures list { OnOk result (map claim_of made.new.sequents.items ≡ map claim_of made.old.sequents.items ++ flat_map (λ (b : spec.Branch). ways system.now controller.now process.now (calls.branch_way machine.now operation.now results.now (meaning_of (take outer walk.old.store)) (way_of reached walk.old) b)) (spec.branches operation.now.body)) }
    ensures fault { IfErr result (λ e. Faulted e made.old.used (flat_map (calls.branch_steps system.now controller.now machine.now operation.now results.now process.now (meaning_of (take outer walk.old.store)) (way_of reached walk.old)) (spec.branches operation.now.body))) }
{
    let branches = all_branches(alloc, &operation.body)?;
    add_each(
        alloc,
        system,
        controller,
        walk,
        reached,
        machine,
        operation,
        results,
        process,
        branches.as_slice(),
        outer,
        made,
    )
}

// The ways through these branches, and through what follows each.
#[cycle(walk)]
fn add_each(
    alloc: Global,
    system: &System,
    controller: &Controller,
    walk: &mut Walk,
    reached: Reached,
    machine: &Machine,
    operation: &Operation,
    results: &[Name],
    process: &Process,
    branches: &[Branch],
    outer: usize,
    made: &mut Made,
) -> Result<(), MakeFault>
    requires reached { IsReached reached walk.old }
    requires outer { outer ≤ length walk.old.store }
    ensures walk { OnOk result (walk.new ≡ walk.old) }
    ensures counted { OnOk result (Counted made.old.used made.new.used (flat_map (calls.branch_steps system.now controller.now machine.now operation.now results.now process.now (meaning_of (take outer walk.old.store)) (way_of reached walk.old)) (map branch_of branches.now))) }
    ensures list { OnOk result (map claim_of made.new.sequents.items ≡ map claim_of made.old.sequents.items ++ flat_map (λ (b : spec.Branch). ways system.now controller.now process.now (calls.branch_way machine.now operation.now results.now (meaning_of (take outer walk.old.store)) (way_of reached walk.old) b)) (map branch_of branches.now)) }
    ensures fault { IfErr result (λ e. Faulted e made.old.used (flat_map (calls.branch_steps system.now controller.now machine.now operation.now results.now process.now (meaning_of (take outer walk.old.store)) (way_of reached walk.old)) (map branch_of branches.now))) }
{
    for branch in branches {
        add_branch(
            alloc, system, controller, walk, reached, machine, operation, results, process, branch,
            outer, made,
        )?;
    }
    Ok(())
}

// The way through the branch, and the ways through what follows it.
#[cycle(walk)]
fn add_branch(
    alloc: Global,
    system: &System,
    controller: &Controller,
    walk: &mut Walk,
    reached: Reached,
    machine: &Machine,
    operation: &Operation,
    results: &[Name],
    process: &Process,
    branch: &Branch,
    outer: usize,
    made: &mut Made,
) -> Result<(), MakeFault>
    requires reached { IsReached reached walk.old }
    requires outer { outer ≤ length walk.old.store }
    ensures walk { OnOk result (walk.new ≡ walk.old) }
    ensures counted { OnOk result (Counted made.old.used made.new.used (calls.branch_steps system.now controller.now machine.now operation.now results.now process.now (meaning_of (take outer walk.old.store)) (way_of reached walk.old) (branch_of branch.now))) }
    ensures list { OnOk result (map claim_of made.new.sequents.items ≡ map claim_of made.old.sequents.items ++ ways system.now controller.now process.now (calls.branch_way machine.now operation.now results.now (meaning_of (take outer walk.old.store)) (way_of reached walk.old) (branch_of branch.now))) }
    ensures fault { IfErr result (λ e. Faulted e made.old.used (calls.branch_steps system.now controller.now machine.now operation.now results.now process.now (meaning_of (take outer walk.old.store)) (way_of reached walk.old) (branch_of branch.now))) }
{
    let mark = walk.mark();
    let (inside, inner) = enter_branch(
        alloc, walk, reached, machine, operation, results, branch, outer, &made.used,
    )?;
    add_ways(alloc, system, controller, walk, inside, process, made)?;
    leave_branch(walk, mark, outer, inner)?;
    Ok(())
}
