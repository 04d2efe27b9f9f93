//! Declarations of names, and their faults.

ghost use Rattle.std.specs.Prelude.{◌≡◌, [], IfOk, OnOk, option_copied};
ghost use Rattle.cb_forms.specs.Faults.{first};
ghost use Rattle.cb_types.specs.Declares.{next, or_zero, literal_number, numbers_from, with_choice, with_conjunct, domains_from, domains_of, meaning_of, domain_faults, sort_fault, with_entry, with_name, declared, declare_fault};

use cb_forms::fault::{Fault, earlier, when};
use cb_forms::table::Table;
use cb_judge::domain::{Choice, MAXINT, form_or_zero, given, is_deep, is_lacking, signed};
use cb_judge::names::{Entry, Meaning, View, double};
use cb_lex::Memory;
use cb_lex::raw::domain::RawLiteral;
use cb_lex::raw::name::RawName;
use cb_lex::raw::sign::RawRelation;
use cb_lex::raw::term::{RawFormula, RawFormulaNode, RawTerm, RawTermNode};
use cb_lex::raw::text::RawProperty;
use cb_lex::token::Place;
use std::alloc::Global;

/// What a list of names declares, with the number of the machine.
#[derive(Clone, Copy)]
pub enum Sort {
    Element { owner: u32, set: u32 },
    Constant(u32),
    Variable(u32),
    Parameter,
    Result,
}

/// The next number; a text has fewer things than 32 bits can tell.
pub fn next_number(k: u32) -> u32
    ensures { result ≡ next k }
{
    if k < u32::MAX { k + 1 } else { k }
}

/// The number, or 0 where there is none.
pub fn number_or_zero(number: Option<i64>) -> i64
    ensures { result ≡ or_zero number }
{
    number.unwrap_or(0)
}

fn number_of(literal: &RawLiteral) -> i64
    ensures { result ≡ literal_number literal.now }
{
    match literal {
        RawLiteral::Number {
            minus,
            value,
            place: _,
        } => number_or_zero(signed(*minus, Some(*value))),
        RawLiteral::MaxInt(_) => MAXINT,
        RawLiteral::MinInt(_) => -MAXINT,
    }
}

/// The number of each constant, by its first property.
pub fn numbers(alloc: Global, properties: &[RawProperty]) -> Result<Table<i64>, Memory>
    ensures { IfOk result (λ ns. ns ≡ numbers_from [] properties.now) }
{
    let mut numbers = Table::new(alloc);
    for property in properties {
        let number = number_of(&property.literal);
        numbers.enter(alloc, property.name.text.as_slice(), number)?;
    }
    Ok(numbers)
}

fn add_choice(
    alloc: Global,
    domains: &mut Table<Choice>,
    name: &[u8],
    choice: Option<Choice>,
) -> Result<(), Memory>
    ensures { OnOk result (domains.new ≡ with_choice name.now choice domains.old) }
{
    match choice {
        None => Ok(()),
        Some(c) => Ok(domains.enter(alloc, name, c)?),
    }
}

fn add_conjunct(
    alloc: Global,
    view: &View,
    names: &Table<Entry>,
    domains: &mut Table<Choice>,
    relation: RawRelation,
    left: &RawTerm,
    right: &RawTerm,
) -> Result<(), Memory>
    ensures { OnOk result (domains.new ≡ with_conjunct view.now names.now relation left.now right.now domains.old) }
{
    match &left.node {
        RawTermNode::Name(name) => {
            let choice = given(names, view, relation, right);
            Ok(add_choice(alloc, domains, name.text.as_slice(), choice)?)
        }
        _ => Ok(()),
    }
}

// Adds the domains that typing conjuncts give, the first of each name.
fn add_domains(
    alloc: Global,
    view: &View,
    names: &Table<Entry>,
    domains: &mut Table<Choice>,
    formula: &RawFormula,
) -> Result<(), Memory>
    ensures { OnOk result (domains.new ≡ domains_from view.now names.now domains.old formula.now) }
{
    match &formula.node {
        RawFormulaNode::And(left, right) => {
            add_domains(alloc, view, names, domains, left)?;
            Ok(add_domains(alloc, view, names, domains, right)?)
        }
        RawFormulaNode::Relation {
            relation,
            place: _,
            left,
            right,
        } => { Ok(add_conjunct(alloc, view, names, domains, *relation, left, right)?) }
        _ => Ok(()),
    }
}

/// The domain of each name that the formula gives one.
pub fn domains(
    alloc: Global,
    view: &View,
    names: &Table<Entry>,
    formula: Option<&RawFormula>,
) -> Result<Table<Choice>, Memory>
    ensures { IfOk result (λ ds. ds ≡ domains_of view.now names.now (option_copied formula.entry)) }
{
    let mut domains = Table::new(alloc);
    if let Some(f) = formula {
        add_domains(alloc, view, names, &mut domains, f)?;
    }
    Ok(domains)
}

fn meaning(
    sort: Sort,
    numbers: &Table<i64>,
    domains: &Table<Choice>,
    index: u32,
    name: &RawName,
) -> Meaning
    ensures { result ≡ meaning_of sort numbers.now domains.now index name.now }
{
    let text = name.text.as_slice();
    match sort {
        Sort::Element { owner, set } => Meaning::Element { owner, set, index },
        Sort::Constant(owner) => Meaning::Constant {
            owner,
            value: number_or_zero(numbers.find(text)),
        },
        Sort::Variable(owner) => Meaning::Variable {
            owner,
            form: form_or_zero(&domains.find(text)),
        },
        Sort::Parameter => Meaning::Local(form_or_zero(&domains.find(text))),
        Sort::Result => Meaning::Result,
    }
}

fn domain_fault(choice: &Option<Choice>, place: Place) -> Option<Fault>
    ensures { result ≡ first (domain_faults choice.now place) }
{
    earlier(
        when(is_lacking(choice), 3, place),
        when(is_deep(choice), 12, place),
    )
}

fn own_fault(
    sort: Sort,
    numbers: &Table<i64>,
    domains: &Table<Choice>,
    name: &RawName,
) -> Option<Fault>
    ensures { result ≡ first (sort_fault sort numbers.now domains.now name.now) }
{
    let text = name.text.as_slice();
    match sort {
        Sort::Constant(_) => when(numbers.find(text).is_none(), 3, name.place),
        Sort::Variable(_) => domain_fault(&domains.find(text), name.place),
        Sort::Parameter => domain_fault(&domains.find(text), name.place),
        _ => None,
    }
}

// Adds a name of the sort.
fn enter_of(
    alloc: Global,
    names: &mut Table<Entry>,
    sort: Sort,
    name: &[u8],
    entry: Entry,
) -> Result<(), Memory>
    ensures { OnOk result (names.new ≡ with_entry sort name.now entry names.old) }
{
    match sort {
        Sort::Parameter => Ok(names.enter_beside(alloc, name, entry)?),
        Sort::Result => Ok(names.enter_beside(alloc, name, entry)?),
        _ => Ok(names.enter(alloc, name, entry)?),
    }
}

fn enter(
    alloc: Global,
    names: &mut Table<Entry>,
    sort: Sort,
    numbers: &Table<i64>,
    domains: &Table<Choice>,
    index: u32,
    name: &RawName,
) -> Result<(), Memory>
    ensures { OnOk result (names.new ≡ with_name sort numbers.now domains.now index name.now names.old) }
{
    let meaning = meaning(sort, numbers, domains, index, name);
    let place = name.place;
    enter_of(
        alloc,
        names,
        sort,
        name.text.as_slice(),
        Entry { meaning, place },
    )
}

/// Declares the names of a list, where domains play no part.
pub fn declare_numbered(
    alloc: Global,
    names: &mut Table<Entry>,
    sort: Sort,
    numbers: &Table<i64>,
    list: &[RawName],
) -> Result<Option<Fault>, Memory>
    ensures names { OnOk result (names.new ≡ declared sort numbers.now [] 0 names.old list.now) }
    ensures fault { IfOk result (λ f. f ≡ first (declare_fault sort numbers.now [] 0 names.old list.now)) }
{
    let domains = Table::new(alloc);
    declare(alloc, names, sort, numbers, &domains, list)
}

/// Declares the names of a list, where numbers play no part.
pub fn declare_typed(
    alloc: Global,
    names: &mut Table<Entry>,
    sort: Sort,
    domains: &Table<Choice>,
    list: &[RawName],
) -> Result<Option<Fault>, Memory>
    ensures names { OnOk result (names.new ≡ declared sort [] domains.now 0 names.old list.now) }
    ensures fault { IfOk result (λ f. f ≡ first (declare_fault sort [] domains.now 0 names.old list.now)) }
{
    let numbers = Table::new(alloc);
    declare(alloc, names, sort, &numbers, domains, list)
}

/// Declares the names of a list, where neither numbers nor domains play a part.
pub fn declare_plain(
    alloc: Global,
    names: &mut Table<Entry>,
    sort: Sort,
    list: &[RawName],
) -> Result<Option<Fault>, Memory>
    ensures names { OnOk result (names.new ≡ declared sort [] [] 0 names.old list.now) }
    ensures fault { IfOk result (λ f. f ≡ first (declare_fault sort [] [] 0 names.old list.now)) }
{
    let domains = Table::new(alloc);
    declare_typed(alloc, names, sort, &domains, list)
}

/// Declares the names of a list, and tells the first fault.
pub fn declare(
    alloc: Global,
    names: &mut Table<Entry>,
    sort: Sort,
    numbers: &Table<i64>,
    domains: &Table<Choice>,
    list: &[RawName],
) -> Result<Option<Fault>, Memory>
    ensures names { OnOk result (names.new ≡ declared sort numbers.now domains.now 0 names.old list.now) }
    ensures fault { IfOk result (λ f. f ≡ first (declare_fault sort numbers.now domains.now 0 names.old list.now)) }
{
    let mut fault = None;
    let mut index = 0;
    for name in list {
        let twice = double(alloc, names, name)?;
        let own = earlier(twice, own_fault(sort, numbers, domains, name));
        fault = earlier(fault, own);
        enter(alloc, names, sort, numbers, domains, index, name)?;
        index = next_number(index);
    }
    Ok(fault)
}
