//! Tables of the names of a text.

ghost use Rattle.std.specs.Prelude.{◌≡◌, [], ◌∷◌, IfOk, OnOk, length, option_copied};
ghost use Rattle.cb_forms.specs.Faults.{first};
ghost use Rattle.cb_types.specs.Declares.{with_set_name, with_sets, set_fault, sets_fault, after_sets, with_machine_name, with_statics, statics_fault, statics_of, machine_number, with_owner, sees_from, view_of, invariant_of, variables_of, own_domains, with_variables, names_of, globals_fault, names_fault, numbers_from, declared, declare_fault, reserved};
ghost use Rattle.cb_types.specs.declared.declare.Sort.TheVariants.{Element as element, Constant as constant, Variable as variable};

use crate::declare::{
    Sort, declare_numbered, declare_plain, declare_typed, domains, next_number, numbers,
};
use cb_forms::fault::{Fault, earlier, when};
use cb_forms::owners::Owners;
use cb_forms::table::Table;
use cb_judge::domain::Choice;
use cb_judge::names::{Entry, Meaning, View, double};
use cb_lex::Memory;
use cb_lex::raw::name::RawName;
use cb_lex::raw::term::RawFormula;
use cb_lex::raw::text::{RawMachine, RawSet, RawState};
use cb_lex::token::Place;
use std::alloc::Global;

fn enter_set(
    alloc: Global,
    names: &mut Table<Entry>,
    owner: u32,
    set: u32,
    raw: &RawSet,
) -> Result<(), Memory>
    ensures { OnOk result (names.new ≡ with_set_name owner set raw.now names.old) }
{
    let size = raw.elements.as_slice().len();
    let meaning = Meaning::Set { owner, set, size };
    let place = raw.name.place;
    names.enter(alloc, raw.name.text.as_slice(), Entry { meaning, place })
}

// Declares a set with its elements.
fn declare_set(
    alloc: Global,
    names: &mut Table<Entry>,
    owner: u32,
    set: u32,
    raw: &RawSet,
) -> Result<Option<Fault>, Memory>
    ensures names { OnOk result (names.new ≡ declared (element owner set) [] [] 0 (with_set_name owner set raw.now names.old) raw.now.elements) }
    ensures fault { IfOk result (λ f. f ≡ first (set_fault owner set names.old raw.now)) }
{
    let twice = double(alloc, names, &raw.name)?;
    let own = earlier(
        twice,
        when(raw.elements.as_slice().len() > 256, 12, raw.name.place),
    );
    enter_set(alloc, names, owner, set, raw)?;
    let sort = Sort::Element { owner, set };
    let elements = declare_plain(alloc, names, sort, raw.elements.as_slice())?;
    Ok(earlier(own, elements))
}

// Declares the sets of a machine; the first has this number. The answer has the number after the last.
fn declare_sets(
    alloc: Global,
    names: &mut Table<Entry>,
    owner: u32,
    set: u32,
    sets: &[RawSet],
) -> Result<(u32, Option<Fault>), Memory>
    ensures names { OnOk result (names.new ≡ with_sets owner set names.old sets.now) }
    ensures next { IfOk result (λ r. r.0 ≡ after_sets set sets.now) }
    ensures fault { IfOk result (λ r. r.1 ≡ first (sets_fault owner set names.old sets.now)) }
{
    let mut fault = None;
    let mut number = set;
    for raw in sets {
        let own = declare_set(alloc, names, owner, number, raw)?;
        fault = earlier(fault, own);
        number = next_number(number);
    }
    Ok((number, fault))
}

fn enter_machine(
    alloc: Global,
    names: &mut Table<Entry>,
    owner: u32,
    name: &RawName,
) -> Result<(), Memory>
    ensures { OnOk result (names.new ≡ with_machine_name owner name.now names.old) }
{
    let meaning = Meaning::Machine(owner);
    let place = name.place;
    names.enter(alloc, name.text.as_slice(), Entry { meaning, place })
}

fn declare_constants(
    alloc: Global,
    names: &mut Table<Entry>,
    owner: u32,
    machine: &RawMachine,
) -> Result<Option<Fault>, Memory>
    ensures names { OnOk result (names.new ≡ declared (constant owner) (numbers_from [] machine.now.properties) [] 0 names.old machine.now.constants) }
    ensures fault { IfOk result (λ f. f ≡ first (declare_fault (constant owner) (numbers_from [] machine.now.properties) [] 0 names.old machine.now.constants)) }
{
    let numbers = numbers(alloc, machine.properties.as_slice())?;
    let list = machine.constants.as_slice();
    declare_numbered(alloc, names, Sort::Constant(owner), &numbers, list)
}

// Declares a machine's name, sets and constants; its first set has this number. The answer has the number after the last.
fn declare_statics(
    alloc: Global,
    names: &mut Table<Entry>,
    owner: u32,
    set: u32,
    machine: &RawMachine,
) -> Result<(u32, Option<Fault>), Memory>
    ensures names { OnOk result (names.new ≡ with_statics owner set names.old machine.now) }
    ensures next { IfOk result (λ r. r.0 ≡ after_sets set machine.now.sets) }
    ensures fault { IfOk result (λ r. r.1 ≡ first (statics_fault owner set names.old machine.now)) }
{
    let own = double(alloc, names, &machine.name)?;
    enter_machine(alloc, names, owner, &machine.name)?;
    let (next, sets) = declare_sets(alloc, names, owner, set, machine.sets.as_slice())?;
    let constants = declare_constants(alloc, names, owner, machine)?;
    Ok((next, earlier(own, earlier(sets, constants))))
}

/// The names of all machines, sets and constants, beside these names.
pub fn statics(
    alloc: Global,
    names: &mut Table<Entry>,
    machines: &[RawMachine],
) -> Result<(), Memory>
    ensures { OnOk result (names.new ≡ statics_of 0 0 names.old machines.now) }
{
    let mut owner = 0;
    let mut set = 0;
    for machine in machines {
        let (next, _) = declare_statics(alloc, names, owner, set, machine)?;
        owner = next_number(owner);
        set = next;
    }
    Ok(())
}

/// The number of the machine that a name is.
pub fn machine_of(entry: Option<Entry>) -> Option<u32>
    ensures { result ≡ machine_number entry }
{
    match entry {
        Some(
            Entry {
                meaning: Meaning::Machine(k),
                place: _,
            },
        ) => Some(k),
        _ => None,
    }
}

fn add_owner(owners: &mut Owners, number: Option<u32>) -> Result<(), Memory>
    ensures { OnOk result (owners.new ≡ with_owner number owners.old) }
{
    match number {
        None => Ok(()),
        Some(k) => Ok(owners.add(k)?),
    }
}

// Adds the numbers of the machines that are seen.
fn add_seen(owners: &mut Owners, known: &Table<Entry>, sees: &[RawName]) -> Result<(), Memory>
    ensures { OnOk result (owners.new ≡ sees_from known.now owners.old sees.now) }
{
    for name in sees {
        add_owner(owners, machine_of(known.find(name.text.as_slice())))?;
    }
    Ok(())
}

/// What is known in a machine, but for its variables.
pub fn view(
    alloc: Global,
    known: &Table<Entry>,
    owner: u32,
    machine: &RawMachine,
) -> Result<View, Memory>
    ensures { IfOk result (λ v. v ≡ view_of known.now owner machine.now) }
{
    let mut sees = Owners::new(alloc);
    sees.add(owner)?;
    add_seen(&mut sees, known, machine.sees.as_slice())?;
    Ok(View {
        machine: owner,
        sees,
        reads: Owners::new(alloc),
    })
}

fn invariant(state: &Option<RawState>) -> Option<&RawFormula>
    ensures { option_copied result ≡ invariant_of state.now }
{
    match state {
        None => None,
        Some(s) => Some(&s.invariant),
    }
}

/// The variables of a machine.
pub fn variables(state: &Option<RawState>) -> &[RawName]
    ensures { result.now ≡ variables_of state.now }
{
    match state {
        None => &[],
        Some(s) => s.variables.as_slice(),
    }
}

/// The domains of a machine's variables.
pub fn variable_domains(
    alloc: Global,
    known: &Table<Entry>,
    owner: u32,
    machine: &RawMachine,
) -> Result<Table<Choice>, Memory>
    ensures { IfOk result (λ ds. ds ≡ own_domains known.now owner machine.now) }
{
    let view = view(alloc, known, owner, machine)?;
    domains(alloc, &view, known, invariant(&machine.state))
}

fn declare_variables(
    alloc: Global,
    known: &Table<Entry>,
    names: &mut Table<Entry>,
    owner: u32,
    machine: &RawMachine,
) -> Result<Option<Fault>, Memory>
    ensures names { OnOk result (names.new ≡ with_variables known.now owner names.old machine.now) }
    ensures fault { IfOk result (λ f. f ≡ first (declare_fault (variable owner) [] (own_domains known.now owner machine.now) 0 names.old (variables_of machine.now.state))) }
{
    let domains = variable_domains(alloc, known, owner, machine)?;
    let list = variables(&machine.state);
    declare_typed(alloc, names, Sort::Variable(owner), &domains, list)
}

// Declares a machine's name, sets, constants and variables; its first set has this number. The answer has the number after the last.
fn declare_machine(
    alloc: Global,
    known: &Table<Entry>,
    names: &mut Table<Entry>,
    owner: u32,
    set: u32,
    machine: &RawMachine,
) -> Result<(u32, Option<Fault>), Memory>
    ensures names { OnOk result (names.new ≡ with_variables known.now owner (with_statics owner set names.old machine.now) machine.now) }
    ensures next { IfOk result (λ r. r.0 ≡ after_sets set machine.now.sets) }
    ensures fault { IfOk result (λ r. r.1 ≡ first (globals_fault known.now owner set names.old machine.now)) }
{
    let (next, statics) = declare_statics(alloc, names, owner, set, machine)?;
    let own = declare_variables(alloc, known, names, owner, machine)?;
    Ok((next, earlier(statics, own)))
}

/// The names of a text in its order, beside these names, with the first fault of their declarations.
pub fn names(
    alloc: Global,
    known: &Table<Entry>,
    names: &mut Table<Entry>,
    machines: &[RawMachine],
) -> Result<Option<Fault>, Memory>
    ensures names { OnOk result (names.new ≡ names_of known.now 0 0 names.old machines.now) }
    ensures fault { IfOk result (λ f. f ≡ first (names_fault known.now 0 0 names.old machines.now)) }
{
    let mut fault = None;
    let mut owner = 0;
    let mut set = 0;
    for machine in machines {
        let (next, own) = declare_machine(alloc, known, names, owner, set, machine)?;
        fault = earlier(fault, own);
        owner = next_number(owner);
        set = next;
    }
    Ok(fault)
}

/// The names that nobody may declare: the word `any`.
pub fn reserved_names(alloc: Global) -> Result<Table<Entry>, Memory>
    ensures { IfOk result (λ ns. ns ≡ reserved) }
{
    let mut names = Table::new(alloc);
    let meaning = Meaning::Reserved;
    let place = Place { line: 0, col: 0 };
    names.enter(alloc, b"any", Entry { meaning, place })?;
    Ok(names)
}
