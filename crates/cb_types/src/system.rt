//! The machines, sets and constants of a text, in normal form.

ghost use Rattle.std.specs.Prelude.{◌≡◌, ◌++◌, [], IfOk, OnOk, map};
ghost use Rattle.cb_normal.specs.NormalSubsts.{subst_in};
ghost use Rattle.cb_types.specs.Declares.{domains_of, view_of, inner_view, numbers_from};
ghost use Rattle.cb_types.specs.MachineFaults.{inside_operation};
ghost use Rattle.cb_types.specs.NormalMachines.{written_name, declared_name, maybe_formula, kind_or_set, given_kind, result_name, results_in, operation_inside, operation_in, invariant_in, start_in, variables_in, machine_in, machines_in, set_in, constant_in, sets_of, constants_of};

use crate::declare::{domains, next_number, number_or_zero, numbers};
use crate::machine::{declare_locals, view_inside};
use crate::tables::{variable_domains, variables, view};
use cb_forms::table::Table;
use cb_judge::domain::Choice;
use cb_judge::names::{Entry, View};
use cb_judge::subst::{Given, judge_subst};
use cb_lex::Memory;
use cb_lex::raw::name::RawName;
use cb_lex::raw::term::RawFormula;
use cb_lex::raw::text::{RawMachine, RawOperation, RawSet, RawState};
use cb_normal::formula::{copy_name, domain_or_zero, normal_formula};
use cb_normal::subst::{normal_subst, skip};
use cb_spec::subst::Subst;
use cb_spec::system::{Declared, Machine, Operation};
use cb_term::kind::{Base, Kind};
use cb_term::name::{Name, Names};
use cb_term::table::SetNames;
use cb_term::tree::Formula;
use sqlite_items::Items;
use std::alloc::Global;

#[tactic(auto, unfolding(crate::specs::NormalMachines::declared_name))]
fn declared(alloc: Global, domains: &Table<Choice>, name: &RawName) -> Result<Declared, Memory>
    ensures { IfOk result (λ d. d ≡ declared_name domains.now name.now) }
{
    let domain = domain_or_zero(&domains.find(name.text.as_slice()));
    let name = copy_name(alloc, name)?;
    Ok(Declared { name, domain })
}

fn all_declared(
    alloc: Global,
    domains: &Table<Choice>,
    list: &[RawName],
) -> Result<Items<Declared>, Memory>
    ensures { IfOk result (λ ds. ds ≡ map (declared_name domains.now) list.now) }
{
    let mut all = Items::new(alloc);
    for name in list {
        all.push(declared(alloc, domains, name)?)?;
    }
    Ok(all)
}

fn normal_maybe(
    alloc: Global,
    view: &View,
    names: &mut Table<Entry>,
    formula: &Option<RawFormula>,
) -> Result<Formula, Memory>
    ensures formula { IfOk result (λ f. f ≡ maybe_formula view.now names.old formula.now) }
    ensures kept { OnOk result (names.new ≡ names.old) }
{
    match formula {
        None => Ok(Formula::btrue()),
        Some(f) => Ok(normal_formula(alloc, view, names, f)?),
    }
}

fn or_set(kind: Kind) -> Kind
    ensures { result ≡ kind_or_set kind }
{
    match kind {
        Kind::EmptySet => Kind::SetOf(Base::Integer),
        _ => kind,
    }
}

fn kind_given(given: &Option<Given>) -> Kind
    ensures { result ≡ given_kind given.now }
{
    match given {
        None => Kind::Integer,
        Some(g) => or_set(g.kind),
    }
}

#[tactic(auto, unfolding(crate::specs::NormalMachines::result_name))]
fn result_of(alloc: Global, results: &Table<Given>, name: &RawName) -> Result<(Name, Kind), Memory>
    ensures { IfOk result (λ r. r ≡ result_name results.now name.now) }
{
    let kind = kind_given(&results.find(name.text.as_slice()));
    Ok((copy_name(alloc, name)?, kind))
}

fn all_results(
    alloc: Global,
    results: &Table<Given>,
    list: &[RawName],
) -> Result<Items<(Name, Kind)>, Memory>
    ensures { IfOk result (λ rs. rs ≡ map (result_name results.now) list.now) }
{
    let mut all = Items::new(alloc);
    for name in list {
        all.push(result_of(alloc, results, name)?)?;
    }
    Ok(all)
}

// The results of an operation, where the names inside are known.
fn results_inside(
    alloc: Global,
    view: &View,
    names: &mut Table<Entry>,
    operation: &RawOperation,
) -> Result<Items<(Name, Kind)>, Memory>
    ensures results { IfOk result (λ rs. rs ≡ results_in view.now names.old operation.now) }
    ensures kept { OnOk result (names.new ≡ names.old) }
{
    let mut given = Table::new(alloc);
    judge_subst(alloc, view, names, &mut given, &operation.body)?;
    all_results(alloc, &given, operation.results.as_slice())
}

// What an operation says, but for its precondition and its body. One value of several parts is one to drop where memory is wanting.
#[derive(Drop)]
struct Heading {
    name: Name,
    params: Items<Declared>,
    results: Items<(Name, Kind)>,
}

fn name_and_parameters(
    alloc: Global,
    domains: &Table<Choice>,
    operation: &RawOperation,
) -> Result<(Name, Items<Declared>), Memory>
    ensures name { IfOk result (λ r. r.0 ≡ written_name operation.now.name) }
    ensures parameters { IfOk result (λ r. r.1 ≡ map (declared_name domains.now) operation.now.parameters) }
{
    let name = copy_name(alloc, &operation.name)?;
    let params = all_declared(alloc, domains, operation.parameters.as_slice())?;
    Ok((name, params))
}

// The heading of an operation, where the names inside are known.
fn operation_heading(
    alloc: Global,
    view: &View,
    domains: &Table<Choice>,
    names: &mut Table<Entry>,
    operation: &RawOperation,
) -> Result<Heading, Memory>
    ensures name { IfOk result (λ h. h.name ≡ written_name operation.now.name) }
    ensures parameters { IfOk result (λ h. h.params ≡ map (declared_name domains.now) operation.now.parameters) }
    ensures results { IfOk result (λ h. h.results ≡ results_in view.now names.old operation.now) }
    ensures kept { OnOk result (names.new ≡ names.old) }
{
    let results = results_inside(alloc, view, names, operation)?;
    let (name, params) = name_and_parameters(alloc, domains, operation)?;
    Ok(Heading {
        name,
        params,
        results,
    })
}

fn precondition_and_body(
    alloc: Global,
    view: &View,
    names: &mut Table<Entry>,
    operation: &RawOperation,
) -> Result<(Formula, Subst), Memory>
    ensures precondition { IfOk result (λ r. r.0 ≡ maybe_formula view.now names.old operation.now.precondition) }
    ensures body { IfOk result (λ r. r.1 ≡ subst_in view.now names.old operation.now.body) }
    ensures kept { OnOk result (names.new ≡ names.old) }
{
    let pre = normal_maybe(alloc, view, names, &operation.precondition)?;
    let body = normal_subst(alloc, view, names, &operation.body)?;
    Ok((pre, body))
}

// The normal form of an operation, where the names inside are known.
#[tactic(auto, unfolding(crate::specs::NormalMachines::operation_inside, crate::specs::NormalMachines::operation_with))]
fn normal_inside(
    alloc: Global,
    view: &View,
    domains: &Table<Choice>,
    names: &mut Table<Entry>,
    operation: &RawOperation,
) -> Result<Operation, Memory>
    ensures operation { IfOk result (λ o. o ≡ operation_inside view.now domains.now names.old operation.now) }
    ensures kept { OnOk result (names.new ≡ names.old) }
{
    let heading = operation_heading(alloc, view, domains, names, operation)?;
    let (pre, body) = precondition_and_body(alloc, view, names, operation)?;
    let Heading {
        name,
        params,
        results,
    } = heading;
    Ok(Operation {
        name,
        params,
        results,
        pre,
        body,
    })
}

// The normal form of an operation. The names end as those inside it.
fn declared_operation(
    alloc: Global,
    view: &View,
    names: &mut Table<Entry>,
    operation: &RawOperation,
) -> Result<Operation, Memory>
    ensures operation { IfOk result (λ o. o ≡ operation_in view.now names.old operation.now) }
    ensures names { OnOk result (names.new ≡ inside_operation (domains_of view.now names.old operation.now.precondition) operation.now names.old) }
{
    let domains = domains(alloc, view, names, operation.precondition.as_ref())?;
    declare_locals(alloc, names, &domains, operation)?;
    Ok(normal_inside(alloc, view, &domains, names, operation)?)
}

fn normal_operation(
    alloc: Global,
    view: &View,
    names: &mut Table<Entry>,
    operation: &RawOperation,
) -> Result<Operation, Memory>
    ensures operation { IfOk result (λ o. o ≡ operation_in view.now names.old operation.now) }
    ensures kept { OnOk result (names.new ≡ names.old) }
{
    let outside = names.len();
    let normal = declared_operation(alloc, view, names, operation)?;
    names.leave(outside);
    Ok(normal)
}

fn normal_operations(
    alloc: Global,
    view: &View,
    names: &mut Table<Entry>,
    operations: &[RawOperation],
) -> Result<Items<Operation>, Memory>
    ensures operations { IfOk result (λ os. os ≡ map (operation_in view.now names.old) operations.now) }
    ensures kept { OnOk result (names.new ≡ names.old) }
{
    let mut all = Items::new(alloc);
    for operation in operations {
        all.push(normal_operation(alloc, view, names, operation)?)?;
    }
    Ok(all)
}

fn normal_invariant(
    alloc: Global,
    view: &View,
    names: &mut Table<Entry>,
    state: &Option<RawState>,
) -> Result<Formula, Memory>
    ensures invariant { IfOk result (λ f. f ≡ invariant_in view.now names.old state.now) }
    ensures kept { OnOk result (names.new ≡ names.old) }
{
    match state {
        None => Ok(Formula::btrue()),
        Some(s) => Ok(normal_formula(alloc, view, names, &s.invariant)?),
    }
}

fn normal_start(
    alloc: Global,
    view: &View,
    names: &mut Table<Entry>,
    state: &Option<RawState>,
) -> Result<Subst, Memory>
    ensures start { IfOk result (λ s. s ≡ start_in view.now names.old state.now) }
    ensures kept { OnOk result (names.new ≡ names.old) }
{
    match state {
        None => Ok(skip()),
        Some(s) => Ok(normal_subst(alloc, view, names, &s.initialisation)?),
    }
}

fn machine_variables(
    alloc: Global,
    known: &Table<Entry>,
    owner: u32,
    machine: &RawMachine,
) -> Result<Items<Declared>, Memory>
    ensures { IfOk result (λ ds. ds ≡ variables_in known.now owner machine.now) }
{
    let domains = variable_domains(alloc, known, owner, machine)?;
    all_declared(alloc, &domains, variables(&machine.state))
}

// What a machine says, but for its invariant and its initialisation.
#[derive(Drop)]
struct Outline {
    name: Name,
    variables: Items<Declared>,
    operations: Items<Operation>,
}

fn name_and_variables(
    alloc: Global,
    known: &Table<Entry>,
    owner: u32,
    machine: &RawMachine,
) -> Result<(Name, Items<Declared>), Memory>
    ensures name { IfOk result (λ r. r.0 ≡ written_name machine.now.name) }
    ensures variables { IfOk result (λ r. r.1 ≡ variables_in known.now owner machine.now) }
{
    let name = copy_name(alloc, &machine.name)?;
    let variables = machine_variables(alloc, known, owner, machine)?;
    Ok((name, variables))
}

fn machine_operations(
    alloc: Global,
    known: &Table<Entry>,
    names: &mut Table<Entry>,
    owner: u32,
    machine: &RawMachine,
) -> Result<Items<Operation>, Memory>
    ensures operations { IfOk result (λ os. os ≡ map (operation_in (inner_view known.now owner machine.now) names.old) machine.now.operations) }
    ensures kept { OnOk result (names.new ≡ names.old) }
{
    let inner = view_inside(alloc, known, owner, machine)?;
    normal_operations(alloc, &inner, names, machine.operations.as_slice())
}

fn machine_outline(
    alloc: Global,
    known: &Table<Entry>,
    names: &mut Table<Entry>,
    owner: u32,
    machine: &RawMachine,
) -> Result<Outline, Memory>
    ensures name { IfOk result (λ h. h.name ≡ written_name machine.now.name) }
    ensures variables { IfOk result (λ h. h.variables ≡ variables_in known.now owner machine.now) }
    ensures operations { IfOk result (λ h. h.operations ≡ map (operation_in (inner_view known.now owner machine.now) names.old) machine.now.operations) }
    ensures kept { OnOk result (names.new ≡ names.old) }
{
    let operations = machine_operations(alloc, known, names, owner, machine)?;
    let (name, variables) = name_and_variables(alloc, known, owner, machine)?;
    Ok(Outline {
        name,
        variables,
        operations,
    })
}

fn machine_invariant(
    alloc: Global,
    known: &Table<Entry>,
    names: &mut Table<Entry>,
    owner: u32,
    machine: &RawMachine,
) -> Result<Formula, Memory>
    ensures invariant { IfOk result (λ f. f ≡ invariant_in (inner_view known.now owner machine.now) names.old machine.now.state) }
    ensures kept { OnOk result (names.new ≡ names.old) }
{
    let inner = view_inside(alloc, known, owner, machine)?;
    normal_invariant(alloc, &inner, names, &machine.state)
}

fn machine_start(
    alloc: Global,
    known: &Table<Entry>,
    names: &mut Table<Entry>,
    owner: u32,
    machine: &RawMachine,
) -> Result<Subst, Memory>
    ensures start { IfOk result (λ s. s ≡ start_in (view_of known.now owner machine.now) names.old machine.now.state) }
    ensures kept { OnOk result (names.new ≡ names.old) }
{
    let outer = view(alloc, known, owner, machine)?;
    normal_start(alloc, &outer, names, &machine.state)
}

fn invariant_and_start(
    alloc: Global,
    known: &Table<Entry>,
    names: &mut Table<Entry>,
    owner: u32,
    machine: &RawMachine,
) -> Result<(Formula, Subst), Memory>
    ensures invariant { IfOk result (λ r. r.0 ≡ invariant_in (inner_view known.now owner machine.now) names.old machine.now.state) }
    ensures start { IfOk result (λ r. r.1 ≡ start_in (view_of known.now owner machine.now) names.old machine.now.state) }
    ensures kept { OnOk result (names.new ≡ names.old) }
{
    let invariant = machine_invariant(alloc, known, names, owner, machine)?;
    let init = machine_start(alloc, known, names, owner, machine)?;
    Ok((invariant, init))
}

#[tactic(auto, unfolding(crate::specs::NormalMachines::machine_in, crate::specs::NormalMachines::machine_with))]
fn normal_machine(
    alloc: Global,
    known: &Table<Entry>,
    names: &mut Table<Entry>,
    owner: u32,
    machine: &RawMachine,
) -> Result<Machine, Memory>
    ensures machine { IfOk result (λ m. m ≡ machine_in known.now names.old owner machine.now) }
    ensures kept { OnOk result (names.new ≡ names.old) }
{
    let outline = machine_outline(alloc, known, names, owner, machine)?;
    let (invariant, init) = invariant_and_start(alloc, known, names, owner, machine)?;
    let Outline {
        name,
        variables,
        operations,
    } = outline;
    Ok(Machine {
        name,
        variables,
        invariant,
        init,
        operations,
    })
}

/// Machines in normal form, in text order. `known` are the names of sets, elements and constants, and `names` all that stand for
/// something in the whole text; they end as they began.
pub fn normal_machines(
    alloc: Global,
    known: &Table<Entry>,
    names: &mut Table<Entry>,
    machines: &[RawMachine],
) -> Result<Items<Machine>, Memory>
    ensures machines { IfOk result (λ ms. ms ≡ machines_in known.now names.old 0 machines.now) }
    ensures kept { OnOk result (names.new ≡ names.old) }
{
    let mut all = Items::new(alloc);
    let mut owner = 0;
    for machine in machines {
        all.push(normal_machine(alloc, known, names, owner, machine)?)?;
        owner = next_number(owner);
    }
    Ok(all)
}

fn all_names(alloc: Global, list: &[RawName]) -> Result<Names, Memory>
    ensures { IfOk result (λ ns. ns ≡ map written_name list.now) }
{
    let mut all = Items::new(alloc);
    for name in list {
        all.push(copy_name(alloc, name)?)?;
    }
    Ok(all)
}

#[tactic(auto, unfolding(crate::specs::NormalMachines::set_in))]
fn set_names(alloc: Global, set: &RawSet) -> Result<SetNames, Memory>
    ensures { IfOk result (λ s. s ≡ set_in set.now) }
{
    let name = copy_name(alloc, &set.name)?;
    let elements = all_names(alloc, set.elements.as_slice())?;
    Ok(SetNames { name, elements })
}

fn add_sets(alloc: Global, all: &mut Vec<SetNames>, sets: &[RawSet]) -> Result<(), Memory>
    ensures { OnOk result (all.new.items ≡ all.old.items ++ map set_in sets.now) }
{
    for set in sets {
        all.push(set_names(alloc, set)?)?;
    }
    Ok(())
}

fn all_sets(alloc: Global, machines: &[RawMachine]) -> Result<Vec<SetNames>, Memory>
    ensures { IfOk result (λ s. s.items ≡ sets_of machines.now) }
{
    let mut all = Vec::new(alloc);
    for machine in machines {
        add_sets(alloc, &mut all, machine.sets.as_slice())?;
    }
    Ok(all)
}

#[tactic(auto, unfolding(crate::specs::NormalMachines::constant_in))]
fn constant(alloc: Global, numbers: &Table<i64>, name: &RawName) -> Result<(Name, i64), Memory>
    ensures { IfOk result (λ c. c ≡ constant_in numbers.now name.now) }
{
    let number = number_or_zero(numbers.find(name.text.as_slice()));
    Ok((copy_name(alloc, name)?, number))
}

fn add_constants(
    alloc: Global,
    all: &mut Items<(Name, i64)>,
    numbers: &Table<i64>,
    list: &[RawName],
) -> Result<(), Memory>
    ensures { OnOk result (all.new ≡ all.old ++ map (constant_in numbers.now) list.now) }
{
    for name in list {
        all.push(constant(alloc, numbers, name)?)?;
    }
    Ok(())
}

fn add_machine_constants(
    alloc: Global,
    all: &mut Items<(Name, i64)>,
    machine: &RawMachine,
) -> Result<(), Memory>
    ensures { OnOk result (all.new ≡ all.old ++ map (constant_in (numbers_from [] machine.now.properties)) machine.now.constants) }
{
    let numbers = numbers(alloc, machine.properties.as_slice())?;
    add_constants(alloc, all, &numbers, machine.constants.as_slice())
}

fn all_constants(alloc: Global, machines: &[RawMachine]) -> Result<Items<(Name, i64)>, Memory>
    ensures { IfOk result (λ cs. cs ≡ constants_of machines.now) }
{
    let mut all = Items::new(alloc);
    for machine in machines {
        add_machine_constants(alloc, &mut all, machine)?;
    }
    Ok(all)
}

/// The sets of all machines with their elements, and the constants with their numbers, in text order.
pub fn sets_and_constants(
    alloc: Global,
    machines: &[RawMachine],
) -> Result<(Vec<SetNames>, Items<(Name, i64)>), Memory>
    ensures sets { IfOk result (λ r. r.0.items ≡ sets_of machines.now) }
    ensures constants { IfOk result (λ r. r.1 ≡ constants_of machines.now) }
{
    let sets = all_sets(alloc, machines)?;
    let constants = all_constants(alloc, machines)?;
    Ok((sets, constants))
}
