//! The forms of operations' results.

ghost use Rattle.std.specs.Prelude.{◌≡◌, [], IfOk, OnOk};
ghost use Rattle.cb_spec.specs.TypedSubsts.{either_form, result_form};
ghost use Rattle.cb_forms.specs.Kinds.{form_of, maybe_form};
ghost use Rattle.cb_judge.specs.Substs.{chosen_form};
ghost use Rattle.cb_text_laws.specs.Signatures.{assigned_after, assigned_next, form_after, known_of};
ghost use Rattle.cb_signatures.specs.Kept.{formed, results_of};

use cb_forms::form::{Form, join};
use cb_forms::span::Span;
use cb_forms::table::Table;
use cb_judge::domain::{Choice, domain as domain_in, form, typing};
use cb_judge::judge::judge_term;
use cb_judge::names::{Entry, View};
use cb_judge::subst::enter;
use cb_lex::Memory;
use cb_lex::raw::name::RawName;
use cb_lex::raw::subst::{RawSubst, RawSubstNode};
use sqlite_items::Items;
use std::alloc::Global;

/// The form of what may be one or the other.
pub fn either(a: &Form, b: &Form) -> Form
    ensures { form_of result ≡ either_form (form_of a.now) (form_of b.now) }
{
    match (a, b) {
        (Form::Number(s), Form::Number(t)) => Form::Number(Span {
            lo: s.lo.min(t.lo),
            hi: s.hi.max(t.hi),
        }),
        _ => match join(a, b) {
            Some(both) => both,
            None => *a,
        },
    }
}

fn either_after(before: &Option<Form>, form: &Form) -> Form
    ensures { form_of result ≡ form_after (maybe_form before.now) (form_of form.now) }
{
    match before {
        None => *form,
        Some(b) => either(b, form),
    }
}

// Adds what is assigned to the name.
fn assign(
    alloc: Global,
    given: &mut Table<Form>,
    name: &[u8],
    form: &Option<Form>,
) -> Result<(), Memory>
    ensures { OnOk result (formed given.new ≡ assigned_next name.now (maybe_form form.now) (formed given.old)) }
{
    match form {
        None => Ok(()),
        Some(f) => {
            let before = given.find(name);
            Ok(given.put(alloc, name, either_after(&before, f))?)
        }
    }
}

fn form_of_choice(choice: &Option<Choice>) -> Option<Form>
    ensures { maybe_form result ≡ chosen_form choice.now }
{
    match choice {
        None => None,
        Some(c) => Some(form(&c.domain)),
    }
}

// Adds what a substitution assigns. The table of names ends as it began.
fn assign_all(
    alloc: Global,
    view: &View,
    names: &mut Table<Entry>,
    given: &mut Table<Form>,
    subst: &RawSubst,
) -> Result<(), Memory>
    ensures given { OnOk result (formed given.new ≡ assigned_after view.now names.old (formed given.old) subst.now) }
    ensures kept { OnOk result (names.new ≡ names.old) }
{
    match &subst.node {
        RawSubstNode::Skip => Ok(()),
        RawSubstNode::Assign { target, term } => {
            let seen = judge_term(alloc, view, names, false, term)?;
            Ok(assign(alloc, given, target.text.as_slice(), &seen.form)?)
        }
        RawSubstNode::Among { target, domain } => {
            let form = form_of_choice(&domain_in(names, view, domain));
            Ok(assign(alloc, given, target.text.as_slice(), &form)?)
        }
        RawSubstNode::If { then, .. } => Ok(assign_all(alloc, view, names, given, then)?),
        RawSubstNode::IfElse {
            then: left,
            otherwise: right,
            ..
        }
        | RawSubstNode::Parallel(left, right) => {
            assign_all(alloc, view, names, given, left)?;
            Ok(assign_all(alloc, view, names, given, right)?)
        }
        RawSubstNode::Choice(sides) => {
            for side in sides.as_slice() {
                assign_all(alloc, view, names, given, side)?;
            }
            Ok(())
        }
        RawSubstNode::Any {
            name,
            condition,
            body,
        } => {
            let choice = typing(names, view, name.text.as_slice(), condition);
            let outside = names.len();
            enter(alloc, names, name, &choice)?;
            assign_all(alloc, view, names, given, body)?;
            names.leave(outside);
            Ok(())
        }
    }
}

/// What a body assigns to names. The table of names ends as it began.
pub fn assigned(
    alloc: Global,
    view: &View,
    names: &mut Table<Entry>,
    body: &RawSubst,
) -> Result<Table<Form>, Memory>
    ensures given { IfOk result (λ g. formed g ≡ assigned_after view.now names.old [] body.now) }
    ensures kept { OnOk result (names.new ≡ names.old) }
{
    let mut given = Table::new(alloc);
    assign_all(alloc, view, names, &mut given, body)?;
    Ok(given)
}

// A result to which only `{}` is assigned is a set of numbers, and one to which nothing is assigned is 0.
fn result_of(given: &Option<Form>) -> Form
    ensures { result ≡ known_of (result_form (maybe_form given.now)) }
{
    match given {
        None => Form::Number(Span { lo: 0, hi: 0 }),
        Some(Form::Empty) => Form::Numbers(Span { lo: 1, hi: 0 }),
        Some(f) => *f,
    }
}

/// The forms of results, to which this is assigned.
pub fn result_forms(
    alloc: Global,
    given: &Table<Form>,
    names: &[RawName],
) -> Result<Items<Form>, Memory>
    ensures { IfOk result (λ fs. fs ≡ results_of (formed given.now) names.now) }
{
    let mut forms = Items::new(alloc);
    for name in names {
        forms.push(result_of(&given.find(name.text.as_slice())))?;
    }
    Ok(forms)
}
