//! What names stand for in an argument of a proof.

ghost use Rattle.std.specs.Prelude.{◌≡◌, IfOk, OnOk};
ghost use Rattle.cb_term.specs.Names.{same_name};
ghost use Rattle.cb_arguments.specs.Scopes.{next, with_elements, with_sets, with_constants, symbols_of, name_of, bound_at, written_at, symbol_at, is_constant, is_plain_end, is_end, only_if, atom_kind, element_kind, element_set_kind, member_kind, subset_kind, given_kind, is_name, typing_kind};

use cb_forms::table::Table;
use cb_lex::Memory;
use cb_lex::raw::name::RawName;
use cb_lex::raw::sign::{RawAtom, RawOperator, RawRelation};
use cb_lex::raw::term::{RawFormula, RawFormulaNode, RawTerm, RawTermNode};
use cb_spec::system::System;
use cb_term::kind::{Base, Kind};
use cb_term::name::{Name, NameText};
use cb_term::table::SetNames;
use std::alloc::Global;

/// What a name of a system stands for in arguments of proofs. Sets, and the elements of each, are told by their places.
#[derive(Clone, Copy)]
pub enum Symbol {
    Set(u32),
    Element { set: u32, index: u32 },
    Constant(i64),
}

/// The sets, elements and constants of a system, by their names. The table is made once, and serves all arguments.
pub type Symbols = Table<Symbol>;

// The next number; a text has fewer things than 32 bits can tell.
fn next_number(k: u32) -> u32
    ensures { result ≡ next k }
{
    k.saturating_add(1)
}

fn add_elements(
    alloc: Global,
    symbols: &mut Symbols,
    set: u32,
    elements: &[Name],
) -> Result<(), Memory>
    ensures { OnOk result (symbols.new ≡ with_elements set 0 symbols.old elements.now) }
{
    let mut index = 0;
    for name in elements {
        symbols.enter(alloc, name.text.as_slice(), Symbol::Element { set, index })?;
        index = next_number(index);
    }
    Ok(())
}

fn add_sets(alloc: Global, symbols: &mut Symbols, sets: &[SetNames]) -> Result<(), Memory>
    ensures { OnOk result (symbols.new ≡ with_sets 0 symbols.old sets.now) }
{
    let mut number = 0;
    for set in sets {
        symbols.enter(alloc, set.name.text.as_slice(), Symbol::Set(number))?;
        add_elements(alloc, symbols, number, set.elements.as_slice())?;
        number = next_number(number);
    }
    Ok(())
}

fn add_constants(
    alloc: Global,
    symbols: &mut Symbols,
    constants: &[(Name, i64)],
) -> Result<(), Memory>
    ensures { OnOk result (symbols.new ≡ with_constants symbols.old constants.now) }
{
    for constant in constants {
        symbols.enter(
            alloc,
            constant.0.text.as_slice(),
            Symbol::Constant(constant.1),
        )?;
    }
    Ok(())
}

/// The sets, elements and constants of the system.
pub fn symbols(alloc: Global, system: &System) -> Result<Symbols, Memory>
    ensures { IfOk result (λ gs. gs ≡ symbols_of system.now) }
{
    let mut all = Table::new(alloc);
    add_sets(alloc, &mut all, system.sets.sets.as_slice())?;
    add_constants(alloc, &mut all, system.constants.as_slice())?;
    Ok(all)
}

/// The name with its number.
pub fn copy_name(alloc: Global, name: &RawName) -> Result<Name, Memory>
    ensures { IfOk result (λ x. x ≡ name_of name.now) }
{
    Ok(Name {
        text: NameText::from_slice(alloc, name.text.as_slice())?,
        number: name.number,
    })
}

fn is_same(name: &RawName, other: &Name) -> bool
    ensures { result ≡ same_name (name_of name.now) other.now }
{
    name.number == other.number && name.text.as_slice() == other.text.as_slice()
}

/// The number of quantifiers between a name and the innermost one that binds it.
pub fn bound_index(bound: &[Name], name: &RawName) -> Option<usize>
    ensures { result ≡ bound_at bound.now (name_of name.now) }
{
    let mut index = None;
    for i in 0..bound.len() {
        if is_same(name, &bound[i]) {
            index = Some(bound.len() - 1 - i);
        }
    }
    index
}

/// What a name stands for where it is not bound, if it is a set, an element or a constant.
pub fn written(symbols: &Symbols, name: &RawName) -> Option<Symbol>
    ensures { result ≡ written_at symbols.now name.now }
{
    if name.number == 0 {
        symbols.find(name.text.as_slice())
    } else {
        None
    }
}

fn symbol_of(symbols: &Symbols, bound: &[Name], name: &RawName) -> Option<Symbol>
    ensures { result ≡ symbol_at symbols.now bound.now name.now }
{
    match bound_index(bound, name) {
        None => written(symbols, name),
        Some(_) => None,
    }
}

fn names_constant(found: Option<Symbol>) -> bool
    ensures { result ≡ is_constant found }
{
    matches!(found, Some(Symbol::Constant(_)))
}

fn is_number(symbols: &Symbols, bound: &[Name], term: &RawTerm) -> bool
    ensures { result ≡ is_plain_end symbols.now bound.now term.now }
{
    match &term.node {
        RawTermNode::Number { .. } => true,
        RawTermNode::Name(name) => names_constant(symbol_of(symbols, bound, name)),
        RawTermNode::Atom {
            atom: RawAtom::MaxInt | RawAtom::MinInt,
            ..
        } => true,
        _ => false,
    }
}

// Whether the term may stand at an end of a range in a typing conjunct.
fn ends_range(symbols: &Symbols, bound: &[Name], term: &RawTerm) -> bool
    ensures { result ≡ is_end symbols.now bound.now term.now }
{
    match &term.node {
        RawTermNode::Minus { term: operand, .. } => is_number(symbols, bound, operand),
        _ => is_number(symbols, bound, term),
    }
}

fn kind_if(test: bool, kind: Kind) -> Option<Kind>
    ensures { result ≡ only_if test kind }
{
    if test { Some(kind) } else { None }
}

fn kind_of_atom(atom: RawAtom) -> Option<Kind>
    ensures { result ≡ atom_kind atom }
{
    match atom {
        RawAtom::Nat | RawAtom::Nat1 | RawAtom::Int => Some(Kind::Integer),
        RawAtom::Truths => Some(Kind::Truth),
        _ => None,
    }
}

fn kind_of_element(found: Option<Symbol>) -> Option<Kind>
    ensures { result ≡ element_kind found }
{
    match found {
        Some(Symbol::Set(set)) => Some(Kind::Elem(set)),
        _ => None,
    }
}

fn kind_of_element_set(found: Option<Symbol>) -> Option<Kind>
    ensures { result ≡ element_set_kind found }
{
    match found {
        Some(Symbol::Set(set)) => Some(Kind::SetOf(Base::Elem(set))),
        _ => None,
    }
}

// The kind that a typing conjunct `x : ..` gives.
fn kind_of_member(symbols: &Symbols, bound: &[Name], term: &RawTerm) -> Option<Kind>
    ensures { result ≡ member_kind symbols.now bound.now term.now }
{
    match &term.node {
        RawTermNode::Binary {
            operator: RawOperator::UpTo,
            left,
            right,
            ..
        } => {
            let is_range = ends_range(symbols, bound, left) && ends_range(symbols, bound, right);
            kind_if(is_range, Kind::Integer)
        }
        RawTermNode::Atom { atom, .. } => kind_of_atom(*atom),
        RawTermNode::Name(name) => kind_of_element(symbol_of(symbols, bound, name)),
        _ => None,
    }
}

// The kind that a typing conjunct `x <: ..` gives.
fn kind_of_subset(symbols: &Symbols, bound: &[Name], term: &RawTerm) -> Option<Kind>
    ensures { result ≡ subset_kind symbols.now bound.now term.now }
{
    match &term.node {
        RawTermNode::Binary {
            operator: RawOperator::UpTo,
            left,
            right,
            ..
        } => {
            let is_range = ends_range(symbols, bound, left) && ends_range(symbols, bound, right);
            kind_if(is_range, Kind::SetOf(Base::Integer))
        }
        RawTermNode::Name(name) => kind_of_element_set(symbol_of(symbols, bound, name)),
        _ => None,
    }
}

fn given(symbols: &Symbols, bound: &[Name], relation: RawRelation, right: &RawTerm) -> Option<Kind>
    ensures { result ≡ given_kind symbols.now bound.now relation right.now }
{
    match relation {
        RawRelation::Member => kind_of_member(symbols, bound, right),
        RawRelation::Subset => kind_of_subset(symbols, bound, right),
        _ => None,
    }
}

fn is_named(term: &RawTerm, name: &RawName) -> bool
    ensures { result ≡ is_name (name_of name.now) term.now }
{
    match &term.node {
        RawTermNode::Name(other) => {
            other.number == name.number && other.text.as_slice() == name.text.as_slice()
        }
        _ => false,
    }
}

/// The kind of a bound name by its first typing conjunct in the formula's top conjunction. The name itself is among the bound
/// ones.
pub fn typing(
    symbols: &Symbols,
    bound: &[Name],
    name: &RawName,
    formula: &RawFormula,
) -> Option<Kind>
    ensures { result ≡ typing_kind symbols.now bound.now (name_of name.now) formula.now }
{
    match &formula.node {
        RawFormulaNode::And(left, right) => match typing(symbols, bound, name, left) {
            Some(kind) => Some(kind),
            None => typing(symbols, bound, name, right),
        },
        RawFormulaNode::Relation {
            relation,
            left,
            right,
            ..
        } => {
            if is_named(left, name) {
                given(symbols, bound, *relation, right)
            } else {
                None
            }
        }
        _ => None,
    }
}
