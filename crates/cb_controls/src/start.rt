//! Arguments of START.

ghost use Rattle.std.specs.Prelude.{◌≡◌, IfOk, OnOk, not};
ghost use Rattle.cb_forms.specs.Faults.{fault_if, first};
ghost use Rattle.cb_forms.specs.Find.{found};
ghost use Rattle.cb_judge.specs.Judged.{place_of};
ghost use Rattle.cb_lex.specs.RawTermTree as raw;
ghost use Rattle.cb_text_laws.specs.ControllerFaults as spec;

use crate::arguments::arguments_fault;
use crate::definition::Definitions;
use cb_forms::fault::{Fault, earlier, when};
use cb_forms::table::Table;
use cb_judge::judge::place;
use cb_judge::names::{Entry, Meaning, View};
use cb_lex::Memory;
use cb_lex::raw::event::RawCall;
use cb_lex::raw::sign::RawAtom;
use cb_lex::raw::term::{RawTerm, RawTermNode};
use std::alloc::Global;

fn is_value_meaning(meaning: &Meaning) -> bool
    ensures { result ≡ spec.is_value_meaning meaning.now }
{
    matches!(meaning, Meaning::Element { .. } | Meaning::Constant { .. })
}

fn is_value_name(entry: Option<Entry>) -> bool
    ensures { result ≡ spec.is_value_name entry }
{
    match entry {
        None => false,
        Some(e) => is_value_meaning(&e.meaning),
    }
}

fn is_value_atom(atom: RawAtom) -> bool
    ensures { result ≡ spec.is_value_atom atom }
{
    matches!(
        atom,
        RawAtom::True | RawAtom::False | RawAtom::MaxInt | RawAtom::MinInt
    )
}

fn is_number_literal(term: &RawTerm) -> bool
    ensures { result ≡ spec.is_number_literal term.now }
{
    matches!(term.node, RawTermNode::Number { .. })
}

// Whether the term is a literal, TRUE, FALSE, an element or a constant.
fn is_plain_item(names: &Table<Entry>, term: &RawTerm) -> bool
    ensures { result ≡ spec.is_plain_item names.now term.now }
{
    match &term.node {
        RawTermNode::Number { .. } => true,
        RawTermNode::Name(name) => is_value_name(names.find(name.text.as_slice())),
        RawTermNode::Atom { atom, .. } => is_value_atom(*atom),
        RawTermNode::Minus { term: operand, .. } => is_number_literal(operand),
        _ => false,
    }
}

fn are_plain_items(names: &Table<Entry>, terms: &[RawTerm]) -> bool
    ensures { result ≡ spec.are_plain_items names.now (raw.raw_terms terms.now) }
{
    for term in terms {
        if !is_plain_item(names, term) {
            return false;
        }
    }
    true
}

// Whether the term is such an item, or a listed set of them.
fn is_plain(names: &Table<Entry>, term: &RawTerm) -> bool
    ensures { result ≡ spec.is_plain names.now term.now }
{
    match &term.node {
        RawTermNode::Listed { terms, .. } => are_plain_items(names, terms.as_slice()),
        _ => is_plain_item(names, term),
    }
}

fn argument_fault(names: &Table<Entry>, term: &RawTerm) -> Option<Fault>
    ensures { result ≡ first (fault_if (not (spec.is_plain names.now term.now)) 24 (place_of term.now)) }
{
    when(!is_plain(names, term), 24, place(term))
}

/// The first fault of START's arguments: one that is no literal, no element, no constant and no listed set of these.
pub fn plain_fault(names: &Table<Entry>, arguments: &[RawTerm]) -> Option<Fault>
    ensures { result ≡ first (spec.plain_fault names.now arguments.now) }
{
    let mut fault = None;
    for argument in arguments {
        fault = earlier(fault, argument_fault(names, argument));
    }
    fault
}

// The fault of a call of no definition, or with another number of arguments.
fn start_count_fault(definitions: &Definitions, call: &RawCall) -> Option<Fault>
    ensures { result ≡ first (spec.start_count_fault call.now (found call.now.name.text definitions.now)) }
{
    let name = call.name.text.as_slice();
    let place = call.name.place;
    match definitions.number(name) {
        None => when(true, 2, place),
        Some(_) => when(
            call.arguments.len() != definitions.parameters(name).len(),
            22,
            place,
        ),
    }
}

/// The first fault of the call after START: of no definition, with another number of arguments, or with arguments that don't fit or are
/// not plain.
pub fn start_fault(
    alloc: Global,
    view: &View,
    names: &mut Table<Entry>,
    definitions: &Definitions,
    call: &RawCall,
) -> Result<Option<Fault>, Memory>
    ensures fault { IfOk result (λ f. f ≡ first (spec.start_fault view.now names.old definitions.now call.now)) }
    ensures kept { OnOk result (names.new ≡ names.old) }
{
    let count = start_count_fault(definitions, call);
    let forms = definitions.parameters(call.name.text.as_slice());
    let arguments = call.arguments.as_slice();
    let given = arguments_fault(alloc, view, names, forms, arguments)?;
    Ok(earlier(count, earlier(given, plain_fault(names, arguments))))
}
