//! What is known of a term before anything runs.

ghost use Rattle.std.specs.Prelude.{◌≡◌};
ghost use Rattle.cb_spec.specs.Forms.{hull as hull_of, joined_form, single, left_set, with_both, is_some_form, may_relate};
ghost use Rattle.cb_term.specs.declared.sign.RelSign.TheVariants.{Equal as equal};
ghost use Rattle.cb_forms.specs.Kinds.{form_of, maybe_form, span_of, number, is_number, is_set, is_item, is_number_or_set, may_be, may_meet, or_form, set_form, minus_form, with_item, suits, may_hold};
ghost use Rattle.cb_forms.specs.Spans.{negated};

use crate::span::{Span, negate, subtract};

/// The kind of a term, with the interval of a number or of a set's numbers; a set whose interval is empty has none.
#[derive(Clone, Copy, Debug, PartialEq, Eq)]
pub enum Form {
    Number(Span),
    Truth,
    /// An element of the enumerated set with this number.
    Element(u32),
    /// A set of numbers.
    Numbers(Span),
    TruthSet,
    /// A set of elements of the enumerated set with this number.
    Elements(u32),
    /// The set `{}`, which is of each kind of sets.
    Empty,
}

// From the less to the greater; an empty interval adds nothing.
fn hull(s: &Span, t: &Span) -> Form
    ensures { form_of result ≡ hull_of s.now.lo s.now.hi t.now.lo t.now.hi }
{
    if s.hi < s.lo {
        Form::Numbers(*t)
    } else if t.hi < t.lo {
        Form::Numbers(*s)
    } else {
        Form::Numbers(Span {
            lo: s.lo.min(t.lo),
            hi: s.hi.max(t.hi),
        })
    }
}

/// What has the elements of both, where both are sets of one kind.
pub fn join(a: &Form, b: &Form) -> Option<Form>
    ensures { maybe_form result ≡ joined_form (form_of a.now) (form_of b.now) }
{
    match (a, b) {
        (Form::Numbers(s), Form::Numbers(t)) => Some(hull(s, t)),
        (Form::TruthSet, Form::TruthSet) => Some(Form::TruthSet),
        (Form::Elements(j), Form::Elements(k)) => { if *j == *k { Some(*a) } else { None } }
        (Form::Empty, Form::Empty) => Some(*a),
        (Form::Empty, Form::Numbers(_)) => Some(*b),
        (Form::Empty, Form::TruthSet) => Some(*b),
        (Form::Empty, Form::Elements(_)) => Some(*b),
        (Form::Numbers(_), Form::Empty) => Some(*a),
        (Form::TruthSet, Form::Empty) => Some(*a),
        (Form::Elements(_), Form::Empty) => Some(*a),
        _ => None,
    }
}

/// The set of one such value.
pub fn set_of(a: &Form) -> Option<Form>
    ensures { maybe_form result ≡ single (form_of a.now) }
{
    match a {
        Form::Number(s) => Some(Form::Numbers(*s)),
        Form::Truth => Some(Form::TruthSet),
        Form::Element(set) => Some(Form::Elements(*set)),
        _ => None,
    }
}

// The left operand's, where both are sets of one kind.
fn left(a: &Form, b: &Form) -> Option<Form>
    ensures { maybe_form result ≡ left_set (form_of a.now) (form_of b.now) }
{
    match (a, b) {
        (Form::Empty, Form::Numbers(_)) => Some(Form::Numbers(Span { lo: 1, hi: 0 })),
        (Form::Empty, Form::TruthSet) => Some(*b),
        (Form::Empty, Form::Elements(_)) => Some(*b),
        _ => { if join(a, b).is_some() { Some(*a) } else { None } }
    }
}

/// The interval of a number; where a term is none, 0 stands for it.
pub fn span(a: &Option<Form>) -> Span
    ensures { result ≡ span_of (maybe_form a.now) }
{
    match a {
        Some(Form::Number(s)) => *s,
        _ => Span { lo: 0, hi: 0 },
    }
}

fn tells_number(a: &Form) -> bool
    ensures { result ≡ is_number (form_of a.now) }
{
    matches!(a, Form::Number(_))
}

fn tells_set(a: &Form) -> bool
    ensures { result ≡ is_set (form_of a.now) }
{
    matches!(
        a,
        Form::Numbers(_) | Form::TruthSet | Form::Elements(_) | Form::Empty
    )
}

/// Whether a term may be a number.
pub fn may_be_number(a: &Option<Form>) -> bool
    ensures { result ≡ may_be is_number (maybe_form a.now) }
{
    match a {
        Some(f) => tells_number(f),
        None => true,
    }
}

/// Whether a term may be a set.
pub fn may_be_set(a: &Option<Form>) -> bool
    ensures { result ≡ may_be is_set (maybe_form a.now) }
{
    match a {
        Some(f) => tells_set(f),
        None => true,
    }
}

/// Whether a term may stand in a set.
pub fn may_be_item(a: &Option<Form>) -> bool
    ensures { result ≡ may_be is_item (maybe_form a.now) }
{
    match a {
        Some(f) => !tells_set(f),
        None => true,
    }
}

/// Whether a term may stand beside a `-`.
pub fn may_be_number_or_set(a: &Option<Form>) -> bool
    ensures { result ≡ may_be is_number_or_set (maybe_form a.now) }
{
    match a {
        Some(f) => tells_number(f) || tells_set(f),
        None => true,
    }
}

// Whether the kinds agree.
fn agree(a: &Form, b: &Form) -> bool
    ensures { result ≡ may_relate equal (form_of a.now) (form_of b.now) }
{
    match (a, b) {
        (Form::Number(_), Form::Number(_)) => true,
        (Form::Truth, Form::Truth) => true,
        (Form::Element(j), Form::Element(k)) => *j == *k,
        _ => join(a, b).is_some(),
    }
}

/// Whether two terms may be equal.
pub fn meet(a: &Option<Form>, b: &Option<Form>) -> bool
    ensures { result ≡ may_meet (maybe_form a.now) (maybe_form b.now) }
{
    match (a, b) {
        (Some(f), Some(g)) => agree(f, g),
        _ => true,
    }
}

// What two sets hold together, or the first of them.
fn union_or(a: &Form, b: &Form) -> Form
    ensures { form_of result ≡ or_form (joined_form (form_of a.now) (form_of b.now)) (form_of a.now) }
{
    match join(a, b) {
        Some(c) => c,
        None => *a,
    }
}

fn left_or(a: &Form, b: &Form) -> Form
    ensures { form_of result ≡ or_form (left_set (form_of a.now) (form_of b.now)) (form_of a.now) }
{
    match left(a, b) {
        Some(c) => c,
        None => *a,
    }
}

/// The form of `a \/ b`.
pub fn union(a: &Option<Form>, b: &Option<Form>) -> Option<Form>
    ensures { maybe_form result ≡ set_form joined_form (maybe_form a.now) (maybe_form b.now) }
{
    match (a, b) {
        (None, _) => None,
        (Some(f), None) => if tells_set(f) { Some(*f) } else { None },
        (Some(f), Some(g)) => if tells_set(f) {
            Some(union_or(f, g))
        } else {
            None
        },
    }
}

/// The form of `a /\ b`.
pub fn intersection(a: &Option<Form>, b: &Option<Form>) -> Option<Form>
    ensures { maybe_form result ≡ set_form left_set (maybe_form a.now) (maybe_form b.now) }
{
    match (a, b) {
        (None, _) => None,
        (Some(f), None) => if tells_set(f) { Some(*f) } else { None },
        (Some(f), Some(g)) => if tells_set(f) {
            Some(left_or(f, g))
        } else {
            None
        },
    }
}

/// The form of `a - b`.
pub fn difference(a: &Option<Form>, b: &Option<Form>) -> Option<Form>
    ensures { maybe_form result ≡ minus_form (maybe_form a.now) (maybe_form b.now) }
{
    match a {
        Some(Form::Number(s)) => Some(Form::Number(subtract(s, &span(b)))),
        _ => intersection(a, b),
    }
}

// The set of one such value and those of the set before.
fn join_item(done: &Form, a: &Form) -> Option<Form>
    ensures { maybe_form result ≡ with_both (Some (form_of done.now)) (single (form_of a.now)) joined_form }
{
    match set_of(a) {
        Some(one) => join(done, &one),
        None => None,
    }
}

/// A set with one more item; an item that does not suit it is left out.
pub fn add_item(done: &Form, a: &Option<Form>) -> Form
    ensures { form_of result ≡ with_item (form_of done.now) (maybe_form a.now) }
{
    match a {
        None => *done,
        Some(f) => match join_item(done, f) {
            Some(more) => more,
            None => *done,
        },
    }
}

/// Whether the item is no set, and of the kind of the items before it.
pub fn suits_set(done: &Form, a: &Option<Form>) -> bool
    ensures { result ≡ suits (form_of done.now) (maybe_form a.now) }
{
    match a {
        None => true,
        Some(f) => !tells_set(f) && join_item(done, f).is_some(),
    }
}

/// Whether the right side of a `:` is a set, and of the kind of such items as the left.
pub fn holds(a: &Option<Form>, b: &Option<Form>) -> bool
    ensures { result ≡ may_hold (maybe_form a.now) (maybe_form b.now) }
{
    match (a, b) {
        (_, None) => true,
        (None, Some(g)) => tells_set(g),
        (Some(f), Some(g)) => tells_set(g) && (tells_set(f) || join_item(g, f).is_some()),
    }
}

/// The form of `-a`.
pub fn negation(a: &Option<Form>) -> Form
    ensures { form_of result ≡ number (negated (span_of (maybe_form a.now))) }
{
    Form::Number(negate(&span(a)))
}
