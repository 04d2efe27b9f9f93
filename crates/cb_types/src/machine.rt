//! Faults of machines, but for those of their global names' declarations.

ghost use Rattle.std.specs.Prelude.{◌≡◌, ◌+◌, [], IfOk, None, OnOk, length, nat_lt};
ghost use Rattle.cb_forms.specs.Faults.{first};
ghost use Rattle.cb_judge.specs.Judged.{fault_of};
ghost use Rattle.cb_judge.specs.Substs.{subst_fault};
ghost use Rattle.cb_judge.specs.Writes.{shared};
ghost use Rattle.cb_types.specs.Declares.{domains_of, view_of, inner_view};
ghost use Rattle.cb_types.specs.MachineFaults.{again, with_seen, sees_fault, is_own_constant, properties_fault, operation_names_fault, body_fault, state_fault, maybe_fault, with_results, inside_operation, locals_fault, inside_fault, operation_fault, operations_fault, machine_fault, machines_fault};

use crate::declare::{Sort, declare_plain, declare_typed, domains, next_number};
use crate::tables::{machine_of, view};
use cb_forms::fault::{Fault, earlier, when};
use cb_forms::table::Table;
use cb_judge::domain::Choice;
use cb_judge::judge::judge_formula;
use cb_judge::names::{Entry, Meaning, View};
use cb_judge::subst::judge_subst;
use cb_judge::writes::{add_shared, not_written};
use cb_lex::Memory;
use cb_lex::raw::name::RawName;
use cb_lex::raw::subst::RawSubst;
use cb_lex::raw::term::RawFormula;
use cb_lex::raw::text::{RawMachine, RawOperation, RawProperty, RawState};
use cb_lex::token::Place;
use std::alloc::Global;

fn stands_again(seen: &Table<Place>, name: &RawName) -> Option<Fault>
    ensures { result ≡ first (again seen.now name.now) }
{
    when(seen.find(name.text.as_slice()).is_some(), 1, name.place)
}

fn note(alloc: Global, seen: &mut Table<Place>, name: &RawName) -> Result<(), Memory>
    ensures { OnOk result (seen.new ≡ with_seen name.now seen.old) }
{
    seen.enter(alloc, name.text.as_slice(), name.place)
}

fn judge_sees(
    alloc: Global,
    known: &Table<Entry>,
    sees: &[RawName],
) -> Result<Option<Fault>, Memory>
    ensures { IfOk result (λ f. f ≡ first (sees_fault known.now [] sees.now)) }
{
    let mut fault = None;
    let mut seen = Table::new(alloc);
    for name in sees {
        let number = machine_of(known.find(name.text.as_slice()));
        let own = earlier(
            stands_again(&seen, name),
            when(number.is_none(), 2, name.place),
        );
        fault = earlier(fault, own);
        note(alloc, &mut seen, name)?;
    }
    Ok(fault)
}

fn names_own_constant(owner: u32, entry: Option<Entry>) -> bool
    ensures { result ≡ is_own_constant owner entry }
{
    match entry {
        Some(
            Entry {
                meaning: Meaning::Constant {
                    owner: other,
                    value: _,
                },
                place: _,
            },
        ) => owner == other,
        _ => false,
    }
}

fn judge_properties(
    alloc: Global,
    owner: u32,
    known: &Table<Entry>,
    properties: &[RawProperty],
) -> Result<Option<Fault>, Memory>
    ensures { IfOk result (λ f. f ≡ first (properties_fault owner known.now [] properties.now)) }
{
    let mut fault = None;
    let mut seen = Table::new(alloc);
    for property in properties {
        let text = property.name.text.as_slice();
        let place = property.name.place;
        let unknown = when(!names_own_constant(owner, known.find(text)), 2, place);
        let own = earlier(unknown, when(seen.find(text).is_some(), 4, place));
        fault = earlier(fault, own);
        note(alloc, &mut seen, &property.name)?;
    }
    Ok(fault)
}

fn judge_operation_names(
    alloc: Global,
    operations: &[RawOperation],
) -> Result<Option<Fault>, Memory>
    ensures { IfOk result (λ f. f ≡ first (operation_names_fault [] operations.now)) }
{
    let mut fault = None;
    let mut seen = Table::new(alloc);
    for operation in operations {
        fault = earlier(fault, stands_again(&seen, &operation.name));
        note(alloc, &mut seen, &operation.name)?;
    }
    Ok(fault)
}

// The faults of a body, but for what it writes twice or not at all.
fn judge_alone(
    alloc: Global,
    view: &View,
    names: &mut Table<Entry>,
    body: &RawSubst,
) -> Result<Option<Fault>, Memory>
    ensures fault { IfOk result (λ f. f ≡ first (subst_fault view.now names.old [] body.now)) }
    ensures kept { OnOk result (names.new ≡ names.old) }
{
    let mut given = Table::new(alloc);
    judge_subst(alloc, view, names, &mut given, body)
}

fn judge_shared(
    alloc: Global,
    names: &Table<Entry>,
    body: &RawSubst,
) -> Result<Option<Fault>, Memory>
    ensures { IfOk result (λ f. f ≡ first (shared names.now [] body.now)) }
{
    let mut written = Table::new(alloc);
    add_shared(alloc, names, &mut written, body)
}

// The faults of a body, or of an initialisation, which is to write these names.
#[tactic(auto, unfolding(crate::specs::MachineFaults::body_fault))]
fn judge_body(
    alloc: Global,
    view: &View,
    names: &mut Table<Entry>,
    body: &RawSubst,
    at: Option<Place>,
    list: &[RawName],
) -> Result<Option<Fault>, Memory>
    ensures fault { IfOk result (λ f. f ≡ first (body_fault view.now names.old body.now at list.now)) }
    ensures kept { OnOk result (names.new ≡ names.old) }
{
    let own = judge_alone(alloc, view, names, body)?;
    let shared = judge_shared(alloc, names, body)?;
    let missing = not_written(alloc, body, list, at)?;
    Ok(earlier(own, earlier(shared, missing)))
}

fn judge_maybe(
    alloc: Global,
    view: &View,
    names: &mut Table<Entry>,
    formula: &Option<RawFormula>,
) -> Result<Option<Fault>, Memory>
    ensures fault { IfOk result (λ f. f ≡ first (maybe_fault view.now names.old formula.now)) }
    ensures kept { OnOk result (names.new ≡ names.old) }
{
    match formula {
        None => Ok(None),
        Some(f) => Ok(judge_formula(alloc, view, names, f)?),
    }
}

// Whether there are more than 8 parameters and results together.
fn has_many_names(operation: &RawOperation) -> bool
    ensures { result ≡ nat_lt 8 (length operation.now.parameters + length operation.now.results) }
{
    let parameters = operation.parameters.as_slice().len();
    let results = operation.results.as_slice().len();
    match parameters.checked_add(results) {
        Some(n) => n > 8,
        None => true,
    }
}

/// Declares the results and parameters of an operation.
#[tactic(auto, unfolding(crate::specs::MachineFaults::locals_fault))]
pub fn declare_locals(
    alloc: Global,
    names: &mut Table<Entry>,
    domains: &Table<Choice>,
    operation: &RawOperation,
) -> Result<Option<Fault>, Memory>
    ensures names { OnOk result (names.new ≡ inside_operation domains.now operation.now names.old) }
    ensures fault { IfOk result (λ f. f ≡ first (locals_fault domains.now operation.now names.old)) }
{
    let results = declare_plain(alloc, names, Sort::Result, operation.results.as_slice())?;
    let list = operation.parameters.as_slice();
    let parameters = declare_typed(alloc, names, Sort::Parameter, domains, list)?;
    let many = when(has_many_names(operation), 22, operation.name.place);
    Ok(earlier(results, earlier(parameters, many)))
}

// The faults of an operation, but for those of its own names.
#[tactic(auto, unfolding(crate::specs::MachineFaults::inside_fault))]
fn judge_inside(
    alloc: Global,
    view: &View,
    names: &mut Table<Entry>,
    operation: &RawOperation,
) -> Result<Option<Fault>, Memory>
    ensures fault { IfOk result (λ f. f ≡ first (inside_fault view.now names.old operation.now)) }
    ensures kept { OnOk result (names.new ≡ names.old) }
{
    let before = judge_maybe(alloc, view, names, &operation.precondition)?;
    let at = Some(operation.name.place);
    let body = judge_body(
        alloc,
        view,
        names,
        &operation.body,
        at,
        operation.results.as_slice(),
    )?;
    Ok(earlier(before, body))
}

// Declares the results and parameters of an operation, where the names outside are known.
fn declare_inside(
    alloc: Global,
    view: &View,
    names: &mut Table<Entry>,
    operation: &RawOperation,
) -> Result<Option<Fault>, Memory>
    ensures names { OnOk result (names.new ≡ inside_operation (domains_of view.now names.old operation.now.precondition) operation.now names.old) }
    ensures fault { IfOk result (λ f. f ≡ first (locals_fault (domains_of view.now names.old operation.now.precondition) operation.now names.old)) }
{
    let domains = domains(alloc, view, names, operation.precondition.as_ref())?;
    declare_locals(alloc, names, &domains, operation)
}

#[tactic(auto, unfolding(crate::specs::MachineFaults::operation_fault))]
fn judge_operation(
    alloc: Global,
    view: &View,
    names: &mut Table<Entry>,
    operation: &RawOperation,
) -> Result<Option<Fault>, Memory>
    ensures fault { IfOk result (λ f. f ≡ first (operation_fault view.now names.old operation.now)) }
    ensures kept { OnOk result (names.new ≡ names.old) }
{
    let outside = names.len();
    let locals = declare_inside(alloc, view, names, operation)?;
    let inside = judge_inside(alloc, view, names, operation)?;
    names.leave(outside);
    Ok(earlier(locals, inside))
}

fn judge_operations(
    alloc: Global,
    view: &View,
    names: &mut Table<Entry>,
    operations: &[RawOperation],
) -> Result<Option<Fault>, Memory>
    ensures fault { IfOk result (λ f. f ≡ first (operations_fault view.now names.old operations.now)) }
    ensures kept { OnOk result (names.new ≡ names.old) }
{
    let mut fault = None;
    for operation in operations {
        let own = judge_operation(alloc, view, names, operation)?;
        fault = earlier(fault, own);
    }
    Ok(fault)
}

/// What is known in a machine, with its variables.
pub fn view_inside(
    alloc: Global,
    known: &Table<Entry>,
    owner: u32,
    machine: &RawMachine,
) -> Result<View, Memory>
    ensures { IfOk result (λ v. v ≡ inner_view known.now owner machine.now) }
{
    let mut view = view(alloc, known, owner, machine)?;
    view.reads.add(owner)?;
    Ok(view)
}

fn judge_invariant(
    alloc: Global,
    known: &Table<Entry>,
    names: &mut Table<Entry>,
    owner: u32,
    machine: &RawMachine,
    invariant: &RawFormula,
) -> Result<Option<Fault>, Memory>
    ensures fault { IfOk result (λ f. f ≡ first (fault_of (inner_view known.now owner machine.now) names.old invariant.now)) }
    ensures kept { OnOk result (names.new ≡ names.old) }
{
    let inner = view_inside(alloc, known, owner, machine)?;
    judge_formula(alloc, &inner, names, invariant)
}

fn judge_start(
    alloc: Global,
    known: &Table<Entry>,
    names: &mut Table<Entry>,
    owner: u32,
    machine: &RawMachine,
    state: &RawState,
) -> Result<Option<Fault>, Memory>
    ensures fault { IfOk result (λ f. f ≡ first (body_fault (view_of known.now owner machine.now) names.old state.now.initialisation None state.now.variables)) }
    ensures kept { OnOk result (names.new ≡ names.old) }
{
    let outer = view(alloc, known, owner, machine)?;
    let variables = state.variables.as_slice();
    judge_body(alloc, &outer, names, &state.initialisation, None, variables)
}

fn judge_state(
    alloc: Global,
    known: &Table<Entry>,
    names: &mut Table<Entry>,
    owner: u32,
    machine: &RawMachine,
) -> Result<Option<Fault>, Memory>
    ensures fault { IfOk result (λ f. f ≡ first (state_fault known.now names.old owner machine.now machine.now.state)) }
    ensures kept { OnOk result (names.new ≡ names.old) }
{
    match &machine.state {
        None => Ok(None),
        Some(state) => {
            let invariant = judge_invariant(alloc, known, names, owner, machine, &state.invariant)?;
            let start = judge_start(alloc, known, names, owner, machine, state)?;
            Ok(earlier(invariant, start))
        }
    }
}

fn judge_machine_operations(
    alloc: Global,
    known: &Table<Entry>,
    names: &mut Table<Entry>,
    owner: u32,
    machine: &RawMachine,
) -> Result<Option<Fault>, Memory>
    ensures fault { IfOk result (λ f. f ≡ first (operations_fault (inner_view known.now owner machine.now) names.old machine.now.operations)) }
    ensures kept { OnOk result (names.new ≡ names.old) }
{
    let inner = view_inside(alloc, known, owner, machine)?;
    judge_operations(alloc, &inner, names, machine.operations.as_slice())
}

#[tactic(auto, unfolding(crate::specs::MachineFaults::machine_fault))]
fn judge_machine(
    alloc: Global,
    known: &Table<Entry>,
    names: &mut Table<Entry>,
    owner: u32,
    machine: &RawMachine,
) -> Result<Option<Fault>, Memory>
    ensures fault { IfOk result (λ f. f ≡ first (machine_fault known.now names.old owner machine.now)) }
    ensures kept { OnOk result (names.new ≡ names.old) }
{
    let sees = judge_sees(alloc, known, machine.sees.as_slice())?;
    let properties = judge_properties(alloc, owner, known, machine.properties.as_slice())?;
    let twice = judge_operation_names(alloc, machine.operations.as_slice())?;
    let state = judge_state(alloc, known, names, owner, machine)?;
    let operations = judge_machine_operations(alloc, known, names, owner, machine)?;
    Ok(earlier(
        earlier(sees, properties),
        earlier(twice, earlier(state, operations)),
    ))
}

/// The first fault of the machines, but for those of their global names' declarations.
pub fn judge_machines(
    alloc: Global,
    known: &Table<Entry>,
    names: &mut Table<Entry>,
    machines: &[RawMachine],
) -> Result<Option<Fault>, Memory>
    ensures fault { IfOk result (λ f. f ≡ first (machines_fault known.now names.old 0 machines.now)) }
    ensures kept { OnOk result (names.new ≡ names.old) }
{
    let mut fault = None;
    let mut owner = 0;
    for machine in machines {
        let own = judge_machine(alloc, known, names, owner, machine)?;
        fault = earlier(fault, own);
        owner = next_number(owner);
    }
    Ok(fault)
}
