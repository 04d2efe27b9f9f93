//! What a machine owes.

ghost use Rattle.std.specs.Prelude.{◌≡◌, ◌++◌, ◌∷◌, [], true, IfOk, OnOk, IfErr, None, Some, map, flat_map};
ghost use Rattle.cb_term.specs.Tree as tree;
ghost use Rattle.cb_spec.specs.Domains as domains;
ghost use Rattle.cb_seq.specs.Validity.{claim_of};
ghost use Rattle.cb_seq.specs.declared.sequent.Group.TheVariants as group;
ghost use Rattle.cb_obligations.specs.Transform as transform;
ghost use Rattle.cb_obligations.specs.Pieces as pieces;
ghost use Rattle.cb_obligations.specs.Owed as owed;
ghost use Rattle.cb_obligations.specs.Owed.{owed_of, named};
ghost use Rattle.cb_wp.specs.Limits as limits;
ghost use Rattle.cb_obligations.specs.Steps.{steps_under};
ghost use Rattle.cb_wp.specs.Limits.{Tells, Counted, Faulted, formula_steps, init_steps, operation_steps, machine_steps, first_limit};
ghost use Rattle.cb_spec.specs.declared.system.Operation.{Operation};

use crate::branches::{branch_count, kind_of, with_first};
use crate::changes::put;
use crate::limits::{MakeFault, Used, Which};
use crate::pieces::pieces_after;
use crate::transform::{closed_over, live, transformed, where_it_holds};
use cb_seq::sequent::{Group, ObName, Obligation, Sequent};
use cb_spec::system::{Declared, Machine, Operation};
use cb_term::Memory;
use cb_term::kind::Kind;
use cb_term::name::Name;
use cb_term::tree::Formula;
use std::alloc::{AllocError, Global};

fn bodies_within(operations: &[Operation]) -> bool
    ensures { result ≡ limits.bodies_within operations.now }
{
    for operation in operations {
        if branch_count(&operation.body) > 256 {
            return false;
        }
    }
    true
}

/// Whether neither the initialisation nor an operation's body has more than 256 branches.
pub fn branches_within(machine: &Machine) -> bool
    ensures { result ≡ limits.branches_within machine.now }
{
    branch_count(&machine.init) <= 256 && bodies_within(machine.operations.as_slice())
}

/// The declared names with their kinds.
pub fn with_kinds(alloc: Global, declared: &[Declared]) -> Result<Vec<(Name, Kind)>, Memory>
    ensures { IfOk result (λ v. v.items ≡ owed.with_kinds declared.now) }
{
    let mut names = Vec::new(alloc);
    for one in declared {
        let name = one.name.copy(alloc)?;
        put(&mut names, (name, kind_of(one.domain)))?;
    }
    Ok(names)
}

// `P => F`, over the bound names.
fn under_precondition(
    alloc: Global,
    bound: &[Name],
    pre: &Formula,
    formula: &Formula,
) -> Result<Formula, Memory>
    ensures { IfOk result (λ f. f ≡ transform.closed_over bound.now (tree.Implies pre.now formula.now)) }
{
    let inside = closed_over(alloc, bound, formula)?;
    where_it_holds(alloc, bound, pre, inside)
}

/// `P => F` for all values of the parameters. `bound` are the names bound around it, the innermost first.
pub fn for_all(
    alloc: Global,
    bound: &[Name],
    params: &[Declared],
    pre: &Formula,
    formula: &Formula,
) -> Result<Formula, Memory>
    ensures { IfOk result (λ f. f ≡ owed.for_all bound.now params.now (tree.Implies pre.now formula.now)) }
{
    let Some((first, rest)) = params.split_first() else {
        return under_precondition(alloc, bound, pre, formula);
    };
    let inner = with_first(alloc, first.name.copy(alloc)?, bound)?;
    let body = for_all(alloc, inner.as_slice(), rest, pre, formula)?;
    for_each(alloc, first, body)
}

// `!x.(F)`, x being the declared name.
fn for_each(alloc: Global, declared: &Declared, body: Formula) -> Result<Formula, Memory>
    ensures { IfOk result (λ f. f ≡ tree.Every declared.now.name (domains.kind_of_domain declared.now.domain) body) }
{
    let name = declared.name.copy(alloc)?;
    Formula::every(alloc, name, kind_of(declared.domain), body)
}

// That under the invariant the formula holds for all parameters that the operation's precondition allows.
fn of_operation(
    alloc: Global,
    invariant: &Formula,
    operation: &Operation,
    formula: &Formula,
) -> Result<Formula, Memory>
    ensures { IfOk result (λ f. f ≡ owed.of_operation invariant.now operation.now formula.now) }
{
    let params = operation.params.as_slice();
    let inside = for_all(alloc, &[], params, &operation.pre, formula)?;
    let invariant = invariant.copy(alloc)?;
    Formula::implies(alloc, invariant, inside)
}

fn copy_part(alloc: Global, part: &Option<Name>) -> Result<Option<Name>, Memory>
    ensures { IfOk result (λ p. p ≡ part.now) }
{
    match part {
        Some(name) => Ok(Some(name.copy(alloc)?)),
        None => Ok(None),
    }
}

// The name of the group's obligation with that number.
fn numbered(alloc: Global, first: &ObName, number: u64) -> Result<ObName, Memory>
    ensures { IfOk result (λ x. x ≡ record { group = first.now.group; owner = first.now.owner; part = first.now.part; number = number }) }
{
    let owner = first.owner.copy(alloc)?;
    let part = copy_part(alloc, &first.part)?;
    Ok(ObName {
        group: first.group,
        owner,
        part,
        number,
    })
}

// Appends the sequent as the group's obligation with that number.
fn put_named(
    alloc: Global,
    first: &ObName,
    number: u64,
    sequent: Sequent,
    into: &mut Vec<Obligation>,
) -> Result<(), Memory>
    ensures { OnOk result (map owed_of into.new.items ≡ map owed_of into.old.items ++ named first.now.group first.now.owner first.now.part number (claim_of sequent ∷ [])) }
{
    let name = numbered(alloc, first, number)?;
    put(into, Obligation { name, sequent })
}

/// Appends the sequents as the obligations of the group whose first name this is, counted from 1.
pub fn add_named(
    alloc: Global,
    first: &ObName,
    sequents: Vec<Sequent>,
    into: &mut Vec<Obligation>,
) -> Result<(), Memory>
    ensures { OnOk result (map owed_of into.new.items ≡ map owed_of into.old.items ++ named first.now.group first.now.owner first.now.part 1 (map claim_of sequents.items)) }
{
    let mut number = 1u64;
    for sequent in sequents {
        put_named(alloc, first, number, sequent, into)?;
        number = number.checked_add(1).ok_or(AllocError)?;
    }
    Ok(())
}

/// The group's first name.
pub fn first_name(
    alloc: Global,
    group: Group,
    owner: &Name,
    part: Option<Name>,
) -> Result<ObName, Memory>
    ensures { IfOk result (λ x. x ≡ record { group = group; owner = owner.now; part = part; number = 1 }) }
{
    let owner = owner.copy(alloc)?;
    Ok(ObName {
        group,
        owner,
        part,
        number: 1,
    })
}

fn pieces_of(
    alloc: Global,
    names: &[(Name, Kind)],
    formula: Formula,
    used: &mut Used,
) -> Result<Vec<Sequent>, MakeFault>
    ensures counted { OnOk result (Counted used.old used.new (steps_under [] 0 names.now [] formula)) }
    ensures list { IfOk result (λ v. map claim_of v.items ≡ pieces.pieces names.now [] 0 formula) }
    ensures fault { IfErr result (λ e. Faulted e used.old (steps_under [] 0 names.now [] formula)) }
{
    pieces_after(alloc, names, &[], 0, &formula, used)
}

#[tactic(auto, unfolding(crate::specs::Limits::formula_steps))]
// Appends the formula's pieces as the obligations of the group.
fn add_group(
    alloc: Global,
    machine: &Machine,
    names: &[(Name, Kind)],
    formula: Formula,
    group: Group,
    part: Option<Name>,
    used: &mut Used,
    into: &mut Vec<Obligation>,
) -> Result<(), MakeFault>
    requires { names.now ≡ owed.with_kinds machine.now.variables }
    ensures counted { OnOk result (Counted used.old used.new (formula_steps machine.now formula)) }
    ensures list { OnOk result (map owed_of into.new.items ≡ map owed_of into.old.items ++ named group machine.now.name part 1 (owed.pieces_of machine.now formula)) }
    ensures fault { IfErr result (λ e. Faulted e used.old (formula_steps machine.now formula)) }
{
    let sequents = pieces_of(alloc, names, formula, used)?;
    let first = first_name(alloc, group, &machine.name, part)?;
    add_named(alloc, &first, sequents, into)?;
    Ok(())
}

// That the initialisation makes the invariant true.
fn add_init(
    alloc: Global,
    machine: &Machine,
    names: &[(Name, Kind)],
    used: &mut Used,
    into: &mut Vec<Obligation>,
) -> Result<(), MakeFault>
    requires { names.now ≡ owed.with_kinds machine.now.variables }
    ensures counted { OnOk result (Counted used.old used.new (formula_steps machine.now (transform.transformed machine.now.init machine.now.invariant))) }
    ensures list { OnOk result (map owed_of into.new.items ≡ map owed_of into.old.items ++ named group.Init machine.now.name None 1 (owed.pieces_of machine.now (transform.transformed machine.now.init machine.now.invariant))) }
    ensures fault { IfErr result (λ e. Faulted e used.old (formula_steps machine.now (transform.transformed machine.now.init machine.now.invariant))) }
{
    let formula = transformed(alloc, &machine.init, &machine.invariant)?;
    add_group(
        alloc,
        machine,
        names,
        formula,
        Group::Init,
        None,
        used,
        into,
    )
}

// That the initialisation has a run.
fn add_init_live(
    alloc: Global,
    machine: &Machine,
    names: &[(Name, Kind)],
    used: &mut Used,
    into: &mut Vec<Obligation>,
) -> Result<(), MakeFault>
    requires { names.now ≡ owed.with_kinds machine.now.variables }
    ensures counted { OnOk result (Counted used.old used.new (formula_steps machine.now (transform.live machine.now.init))) }
    ensures list { OnOk result (map owed_of into.new.items ≡ map owed_of into.old.items ++ named group.Live machine.now.name None 1 (owed.pieces_of machine.now (transform.live machine.now.init))) }
    ensures fault { IfErr result (λ e. Faulted e used.old (formula_steps machine.now (transform.live machine.now.init))) }
{
    let formula = live(alloc, &machine.init)?;
    add_group(
        alloc,
        machine,
        names,
        formula,
        Group::Live,
        None,
        used,
        into,
    )
}

// That under the invariant and the precondition the formula holds, in the operation's group.
fn add_of_operation(
    alloc: Global,
    machine: &Machine,
    operation: &Operation,
    group: Group,
    formula: &Formula,
    names: &[(Name, Kind)],
    used: &mut Used,
    into: &mut Vec<Obligation>,
) -> Result<(), MakeFault>
    requires { names.now ≡ owed.with_kinds machine.now.variables }
    ensures counted { OnOk result (Counted used.old used.new (formula_steps machine.now (owed.of_operation machine.now.invariant operation.now formula.now))) }
    ensures list { OnOk result (map owed_of into.new.items ≡ map owed_of into.old.items ++ named group machine.now.name (Some operation.now.name) 1 (owed.pieces_of machine.now (owed.of_operation machine.now.invariant operation.now formula.now))) }
    ensures fault { IfErr result (λ e. Faulted e used.old (formula_steps machine.now (owed.of_operation machine.now.invariant operation.now formula.now))) }
{
    let part = operation.name.copy(alloc)?;
    let whole = of_operation(alloc, &machine.invariant, operation, formula)?;
    add_group(alloc, machine, names, whole, group, Some(part), used, into)
}

// That the operation keeps the invariant.
fn add_kept(
    alloc: Global,
    machine: &Machine,
    operation: &Operation,
    names: &[(Name, Kind)],
    used: &mut Used,
    into: &mut Vec<Obligation>,
) -> Result<(), MakeFault>
    requires { names.now ≡ owed.with_kinds machine.now.variables }
    ensures counted { OnOk result (Counted used.old used.new (formula_steps machine.now (owed.of_operation machine.now.invariant operation.now (transform.transformed operation.now.body machine.now.invariant)))) }
    ensures list { OnOk result (map owed_of into.new.items ≡ map owed_of into.old.items ++ named group.Op machine.now.name (Some operation.now.name) 1 (owed.pieces_of machine.now (owed.of_operation machine.now.invariant operation.now (transform.transformed operation.now.body machine.now.invariant)))) }
    ensures fault { IfErr result (λ e. Faulted e used.old (formula_steps machine.now (owed.of_operation machine.now.invariant operation.now (transform.transformed operation.now.body machine.now.invariant)))) }
{
    let formula = transformed(alloc, &operation.body, &machine.invariant)?;
    add_of_operation(
        alloc,
        machine,
        operation,
        Group::Op,
        &formula,
        names,
        used,
        into,
    )
}

// That the operation's body has a run.
fn add_runs(
    alloc: Global,
    machine: &Machine,
    operation: &Operation,
    names: &[(Name, Kind)],
    used: &mut Used,
    into: &mut Vec<Obligation>,
) -> Result<(), MakeFault>
    requires { names.now ≡ owed.with_kinds machine.now.variables }
    ensures counted { OnOk result (Counted used.old used.new (formula_steps machine.now (owed.of_operation machine.now.invariant operation.now (transform.live operation.now.body)))) }
    ensures list { OnOk result (map owed_of into.new.items ≡ map owed_of into.old.items ++ named group.Live machine.now.name (Some operation.now.name) 1 (owed.pieces_of machine.now (owed.of_operation machine.now.invariant operation.now (transform.live operation.now.body)))) }
    ensures fault { IfErr result (λ e. Faulted e used.old (formula_steps machine.now (owed.of_operation machine.now.invariant operation.now (transform.live operation.now.body)))) }
{
    let formula = live(alloc, &operation.body)?;
    add_of_operation(
        alloc,
        machine,
        operation,
        Group::Live,
        &formula,
        names,
        used,
        into,
    )
}

#[tactic(auto, using(crate::proofs::CountLemmas::count_after, crate::proofs::CountLemmas::count_passed))]
// What the operation owes.
fn add_operation(
    alloc: Global,
    machine: &Machine,
    operation: &Operation,
    names: &[(Name, Kind)],
    used: &mut Used,
    into: &mut Vec<Obligation>,
) -> Result<(), MakeFault>
    requires { names.now ≡ owed.with_kinds machine.now.variables }
    ensures counted { OnOk result (Counted used.old used.new (operation_steps machine.now operation.now)) }
    ensures list { OnOk result (map owed_of into.new.items ≡ map owed_of into.old.items ++ owed.operation_owes machine.now operation.now) }
    ensures fault { IfErr result (λ e. Faulted e used.old (operation_steps machine.now operation.now)) }
{
    add_kept(alloc, machine, operation, names, used, into)?;
    add_runs(alloc, machine, operation, names, used, into)
}

#[tactic(auto, using(crate::proofs::CountLemmas::count_after, crate::proofs::CountLemmas::count_passed))]
fn add_inits(
    alloc: Global,
    machine: &Machine,
    names: &[(Name, Kind)],
    used: &mut Used,
    into: &mut Vec<Obligation>,
) -> Result<(), MakeFault>
    requires { names.now ≡ owed.with_kinds machine.now.variables }
    ensures counted { OnOk result (Counted used.old used.new (init_steps machine.now)) }
    ensures list { OnOk result (map owed_of into.new.items ≡ map owed_of into.old.items ++ owed.init_owes machine.now) }
    ensures fault { IfErr result (λ e. Faulted e used.old (init_steps machine.now)) }
{
    add_init(alloc, machine, names, used, into)?;
    add_init_live(alloc, machine, names, used, into)
}

// The operations' obligations, in order.
fn add_operations(
    alloc: Global,
    machine: &Machine,
    names: &[(Name, Kind)],
    used: &mut Used,
    into: &mut Vec<Obligation>,
) -> Result<(), MakeFault>
    requires { names.now ≡ owed.with_kinds machine.now.variables }
    ensures counted { OnOk result (Counted used.old used.new (flat_map (λ (o : Operation). operation_steps machine.now o) machine.now.operations)) }
    ensures list { OnOk result (map owed_of into.new.items ≡ map owed_of into.old.items ++ flat_map (λ (o : Operation). owed.operation_owes machine.now o) machine.now.operations) }
    ensures fault { IfErr result (λ e. Faulted e used.old (flat_map (λ (o : Operation). operation_steps machine.now o) machine.now.operations)) }
{
    for operation in machine.operations.as_slice() {
        add_operation(alloc, machine, operation, names, used, into)?;
    }
    Ok(())
}

#[tactic(auto, using(crate::proofs::CountLemmas::count_after, crate::proofs::CountLemmas::count_passed))]
// What the machine owes, however many branches there are.
fn add_all(
    alloc: Global,
    machine: &Machine,
    used: &mut Used,
    into: &mut Vec<Obligation>,
) -> Result<(), MakeFault>
    ensures counted { OnOk result (Counted used.old used.new (machine_steps machine.now)) }
    ensures list { OnOk result (map owed_of into.new.items ≡ map owed_of into.old.items ++ owed.machine_owes machine.now) }
    ensures fault { IfErr result (λ e. Faulted e used.old (machine_steps machine.now)) }
{
    let names = with_kinds(alloc, machine.variables.as_slice())?;
    add_inits(alloc, machine, names.as_slice(), used, into)?;
    add_operations(alloc, machine, names.as_slice(), used, into)
}

/// Appends what the machine owes, counted on from what is used, to which it adds. `Limit` is the first limit that is passed:
/// branches before all else, the others in the order in which going through the list meets them.
pub fn add_machine(
    alloc: Global,
    machine: &Machine,
    used: &mut Used,
    into: &mut Vec<Obligation>,
) -> Result<(), MakeFault>
    ensures within { OnOk result (limits.branches_within machine.now ≡ true) }
    ensures counted { OnOk result (Counted used.old used.new (machine_steps machine.now)) }
    ensures list { OnOk result (map owed_of into.new.items ≡ map owed_of into.old.items ++ owed.machine_owes machine.now) }
    ensures fault { IfErr result (λ e. Tells e (first_limit used.old machine.now)) }
{
    if !branches_within(machine) {
        return Err(MakeFault::Limit(Which::Branches));
    }
    add_all(alloc, machine, used, into)
}

/// What the machine owes: its initialisation's obligations, and then its operations' in order. `Limit` is the first limit that
/// is passed, where the list had so much before: branches before all else, the others in the order in which going through the
/// list meets them.
pub fn machine_obligations(
    alloc: Global,
    machine: &Machine,
    used: Used,
) -> Result<Vec<Obligation>, MakeFault>
    ensures list { IfOk result (λ v. map owed_of v.items ≡ owed.machine_owes machine.now) }
    ensures within { IfOk result (λ v. first_limit used machine.now ≡ None) }
    ensures fault { IfErr result (λ e. Tells e (first_limit used machine.now)) }
{
    let mut used = used;
    let mut obligations = Vec::new(alloc);
    add_machine(alloc, machine, &mut used, &mut obligations)?;
    Ok(obligations)
}
