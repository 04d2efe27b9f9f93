//! Faults of substitutions, but for what they write beside each other.

ghost use Rattle.std.specs.Prelude.{◌≡◌, IfOk, OnOk, Option};
ghost use Rattle.cb_spec.specs.Forms.{is_of_kind};
ghost use Rattle.cb_forms.specs.Faults.{first};
ghost use Rattle.cb_forms.specs.Find.{found};
ghost use Rattle.cb_forms.specs.Kinds.{form_of, maybe_form, is_set};
ghost use Rattle.cb_judge.specs.Substs.{kind_of_form, is_empty_set, kind_fault, given_fault, next_given, given_next, target_fault, target_next, is_result, chosen_form, within, results_after, subst_fault};

use crate::domain::{Choice, choice_fault, domain, form, form_or_zero, typing, unknown_in_domain};
use crate::judge::{chosen, judge_formula, judge_term, place};
use crate::names::{Entry, Meaning, View};
use cb_forms::fault::{Fault, earlier, when};
use cb_forms::form::{Form, may_be_set, meet};
use cb_forms::signs::size;
use cb_forms::table::Table;
use cb_lex::Memory;
use cb_lex::raw::name::RawName;
use cb_lex::raw::subst::{RawSubst, RawSubstNode};
use cb_lex::token::Place;
use cb_term::kind::{Base, Kind};
use std::alloc::Global;

/// What is assigned to a result: the kind of the first term whose kind is not that of `{}`, and the place of the first term.
#[derive(Clone, Copy)]
pub struct Given {
    pub kind: Kind,
    pub place: Place,
}

/// The kind of a form.
pub fn kind(form: &Form) -> Kind
    ensures { result ≡ kind_of_form (form_of form.now) }
{
    match form {
        Form::Number(_) => Kind::Integer,
        Form::Truth => Kind::Truth,
        Form::Element(set) => Kind::Elem(*set),
        Form::Numbers(_) => Kind::SetOf(Base::Integer),
        Form::TruthSet => Kind::SetOf(Base::Truth),
        Form::Elements(set) => Kind::SetOf(Base::Elem(*set)),
        Form::Empty => Kind::EmptySet,
    }
}

/// Whether a term of the form may stand where one of the kind is wanted.
pub fn is_kind(form: &Form, kind: &Kind) -> bool
    ensures { result ≡ is_of_kind (form_of form.now) kind.now }
{
    match (form, kind) {
        (Form::Number(_), Kind::Integer) => true,
        (Form::Truth, Kind::Truth) => true,
        (Form::Element(j), Kind::Elem(k)) => *j == *k,
        (Form::Numbers(_), Kind::SetOf(Base::Integer)) => true,
        (Form::TruthSet, Kind::SetOf(Base::Truth)) => true,
        (Form::Elements(j), Kind::SetOf(Base::Elem(k))) => *j == *k,
        (Form::Empty, Kind::SetOf(_)) => true,
        (Form::Empty, Kind::EmptySet) => true,
        _ => false,
    }
}

fn is_empty_kind(kind: &Kind) -> bool
    ensures { result ≡ is_empty_set kind.now }
{
    matches!(kind, Kind::EmptySet)
}

fn tells_set(form: &Form) -> bool
    ensures { result ≡ is_set (form_of form.now) }
{
    may_be_set(&Some(*form))
}

fn other_kind(given: &Given, form: &Form, place: Place) -> Option<Fault>
    ensures { result ≡ first (kind_fault given.now (form_of form.now) place) }
{
    if is_empty_kind(&given.kind) {
        when(!tells_set(form), 5, given.place)
    } else {
        when(!is_kind(form, &given.kind), 5, place)
    }
}

// The fault of a term that is assigned to a result after others.
fn other_than_given(given: &Option<Given>, form: &Option<Form>, place: Place) -> Option<Fault>
    ensures { result ≡ first (given_fault given.now (maybe_form form.now) place) }
{
    match (given, form) {
        (Some(g), Some(f)) => other_kind(g, f, place),
        _ => None,
    }
}

fn next(given: &Given, form: &Form) -> Given
    ensures { result ≡ next_given given.now (form_of form.now) }
{
    if is_empty_kind(&given.kind) {
        Given {
            kind: kind(form),
            place: given.place,
        }
    } else {
        *given
    }
}

// Adds a term that is assigned to a result.
fn give(
    alloc: Global,
    results: &mut Table<Given>,
    name: &[u8],
    form: &Option<Form>,
    place: Place,
) -> Result<(), Memory>
    ensures { OnOk result (results.new ≡ given_next name.now results.old (found name.now results.old) (maybe_form form.now) place) }
{
    let given = results.find(name);
    match (given, form) {
        (_, None) => Ok(()),
        (None, Some(f)) => Ok(results.put(
            alloc,
            name,
            Given {
                kind: kind(f),
                place,
            },
        )?),
        (Some(g), Some(f)) => Ok(results.put(alloc, name, next(&g, f))?),
    }
}

// The fault of a target, or of a term at this place that is assigned to it.
fn target(
    view: &View,
    entry: &Option<Entry>,
    results: &Table<Given>,
    name: &RawName,
    form: &Option<Form>,
    place: Place,
) -> Option<Fault>
    ensures { result ≡ first (target_fault view.now entry.now results.now name.now (maybe_form form.now) place) }
{
    match entry {
        None => when(true, 2, name.place),
        Some(e) => match e.meaning {
            Meaning::Variable { owner, form: own } => {
                if owner == view.machine {
                    when(!meet(&Some(own), form), 5, place)
                } else {
                    when(true, 2, name.place)
                }
            }
            Meaning::Result => other_than_given(&results.find(name.text.as_slice()), form, place),
            _ => when(true, 2, name.place),
        },
    }
}

/// Whether the name is a result.
pub fn names_result(entry: &Option<Entry>) -> bool
    ensures { result ≡ is_result entry.now }
{
    match entry {
        None => false,
        Some(e) => matches!(e.meaning, Meaning::Result),
    }
}

// The fault of an assignment to a target, which then is assigned to.
fn assign(
    alloc: Global,
    view: &View,
    names: &Table<Entry>,
    results: &mut Table<Given>,
    name: &RawName,
    form: &Option<Form>,
    place: Place,
) -> Result<Option<Fault>, Memory>
    ensures results { OnOk result (results.new ≡ target_next (found name.now.text names.now) results.old name.now (maybe_form form.now) place) }
    ensures fault { IfOk result (λ f. f ≡ first (target_fault view.now (found name.now.text names.now) results.old name.now (maybe_form form.now) place)) }
{
    let entry = names.find(name.text.as_slice());
    let fault = target(view, &entry, results, name, form, place);
    if names_result(&entry) {
        give(alloc, results, name.text.as_slice(), form, place)?;
    }
    Ok(fault)
}

fn form_of_choice(choice: &Option<Choice>) -> Option<Form>
    ensures { maybe_form result ≡ chosen_form choice.now }
{
    match choice {
        None => None,
        Some(c) => Some(form(&c.domain)),
    }
}

// Adds an ANY's variable.
pub fn enter(
    alloc: Global,
    names: &mut Table<Entry>,
    name: &RawName,
    choice: &Option<Choice>,
) -> Result<(), Memory>
    ensures { OnOk result (names.new ≡ within name.now choice.now names.old) }
{
    let meaning = Meaning::Local(form_or_zero(choice));
    let place = name.place;
    names.enter_beside(alloc, name.text.as_slice(), Entry { meaning, place })
}

/// The first fault of a substitution, of which `results` tells what was assigned before and learns what it assigns. The table of
/// names ends as it began.
pub fn judge_subst(
    alloc: Global,
    view: &View,
    names: &mut Table<Entry>,
    results: &mut Table<Given>,
    subst: &RawSubst,
) -> Result<Option<Fault>, Memory>
    ensures results { OnOk result (results.new ≡ results_after view.now names.old results.old subst.now) }
    ensures fault { IfOk result (λ f. f ≡ first (subst_fault view.now names.old results.old subst.now)) }
    ensures kept { OnOk result (names.new ≡ names.old) }
{
    match &subst.node {
        RawSubstNode::Skip => Ok(None),
        RawSubstNode::Assign { target: name, term } => {
            let a = judge_term(alloc, view, names, false, term)?;
            let own = assign(alloc, view, names, results, name, &a.form, place(term))?;
            Ok(earlier(a.fault, own))
        }
        RawSubstNode::Among {
            target: name,
            domain: raw,
        } => {
            let choice = domain(names, view, raw);
            let form = form_of_choice(&choice);
            let unknown = earlier(
                unknown_in_domain(names, view, raw),
                choice_fault(&choice, name.place),
            );
            let own = assign(alloc, view, names, results, name, &form, name.place)?;
            Ok(earlier(unknown, earlier(own, size(&form, name.place))))
        }
        RawSubstNode::If { condition, then } => {
            let f = judge_formula(alloc, view, names, condition)?;
            let g = judge_subst(alloc, view, names, results, then)?;
            Ok(earlier(f, g))
        }
        RawSubstNode::IfElse {
            condition,
            then,
            otherwise,
        } => {
            let f = judge_formula(alloc, view, names, condition)?;
            let g = judge_subst(alloc, view, names, results, then)?;
            let h = judge_subst(alloc, view, names, results, otherwise)?;
            Ok(earlier(f, earlier(g, h)))
        }
        RawSubstNode::Choice(sides) => {
            let mut fault = None;
            for side in sides.as_slice() {
                let f = judge_subst(alloc, view, names, results, side)?;
                fault = earlier(fault, f);
            }
            Ok(fault)
        }
        RawSubstNode::Any {
            name,
            condition,
            body,
        } => {
            let choice = typing(names, view, name.text.as_slice(), condition);
            let own = chosen(alloc, names, name, &choice)?;
            let outside = names.len();
            enter(alloc, names, name, &choice)?;
            let f = judge_formula(alloc, view, names, condition)?;
            let g = judge_subst(alloc, view, names, results, body)?;
            names.leave(outside);
            Ok(earlier(own, earlier(f, g)))
        }
        RawSubstNode::Parallel(left, right) => {
            let f = judge_subst(alloc, view, names, results, left)?;
            let g = judge_subst(alloc, view, names, results, right)?;
            Ok(earlier(f, g))
        }
    }
}
