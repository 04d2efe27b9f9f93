//! Signs of terms and formulas: the forms of their terms, and the faults at one sign.

ghost use Rattle.std.specs.Prelude.{◌≡◌, ℤ, Some, int_lt, pos};
ghost use Rattle.cb_forms.specs.Faults.{first};
ghost use Rattle.cb_forms.specs.Kinds.{maybe_form, span_of, is_number, is_set, is_number_or_set, is_positive, divided_by, rests_by, binary_form, wrong, fits, operand_fault, side_fault, divisor_fault, size_fault};

use crate::fault::{Fault, earlier, when};
use crate::form::{
    Form, difference, holds, intersection, may_be_item, may_be_number, may_be_number_or_set,
    may_be_set, meet, span, union,
};
use crate::span::{Span, add, divide, is_longer, is_wide, multiply, rests};
use cb_lex::raw::sign::{RawOperator, RawRelation};
use cb_lex::token::Place;

fn is_divisor(divisor: Option<i64>) -> bool
    ensures { result ≡ is_positive divisor }
{
    match divisor {
        Some(d) => d > 0,
        None => false,
    }
}

fn quotient(s: &Span, divisor: Option<i64>) -> Span
    ensures { result ≡ divided_by s.now divisor }
{
    match divisor {
        None => *s,
        Some(d) => if d > 0 { divide(s, d) } else { *s },
    }
}

fn rest(s: &Span, divisor: Option<i64>) -> Span
    ensures { result ≡ rests_by s.now divisor }
{
    match divisor {
        None => *s,
        Some(d) => if d > 0 { rests(d) } else { *s },
    }
}

/// The form of a sign's term. The divisor is the number that the right operand is, if it is a literal.
pub fn combine(
    operator: RawOperator,
    divisor: Option<i64>,
    a: &Option<Form>,
    b: &Option<Form>,
) -> Option<Form>
    ensures { maybe_form result ≡ binary_form operator divisor (maybe_form a.now) (maybe_form b.now) }
{
    match operator {
        RawOperator::Plus => Some(Form::Number(add(&span(a), &span(b)))),
        RawOperator::Minus => difference(a, b),
        RawOperator::Times => Some(Form::Number(multiply(&span(a), &span(b)))),
        RawOperator::Divide => Some(Form::Number(quotient(&span(a), divisor))),
        RawOperator::Mod => Some(Form::Number(rest(&span(a), divisor))),
        RawOperator::UpTo => Some(Form::Numbers(Span {
            lo: span(a).lo,
            hi: span(b).hi,
        })),
        RawOperator::Union => union(a, b),
        RawOperator::Intersection => intersection(a, b),
    }
}

/// The fault of what is to be a number.
pub fn not_number(a: &Option<Form>, place: Place) -> Option<Fault>
    ensures { result ≡ first (wrong is_number (maybe_form a.now) place) }
{
    when(!may_be_number(a), 5, place)
}

/// The fault of what is to be a set.
pub fn not_set(a: &Option<Form>, place: Place) -> Option<Fault>
    ensures { result ≡ first (wrong is_set (maybe_form a.now) place) }
{
    when(!may_be_set(a), 5, place)
}

fn fit_sets(a: &Option<Form>, b: &Option<Form>) -> bool
    ensures { result ≡ fits is_set (maybe_form a.now) (maybe_form b.now) }
{
    may_be_set(b) && (!may_be_set(a) || meet(a, b))
}

fn fit_minus(a: &Option<Form>, b: &Option<Form>) -> bool
    ensures { result ≡ fits is_number_or_set (maybe_form a.now) (maybe_form b.now) }
{
    may_be_number_or_set(b) && (!may_be_number_or_set(a) || meet(a, b))
}

/// The fault of an operand of the wrong kind, with the places of both.
pub fn operands(
    operator: RawOperator,
    a: &Option<Form>,
    p: Place,
    b: &Option<Form>,
    q: Place,
) -> Option<Fault>
    ensures { result ≡ first (operand_fault operator (maybe_form a.now) p (maybe_form b.now) q) }
{
    match operator {
        RawOperator::Minus => earlier(
            when(!may_be_number_or_set(a), 5, p),
            when(!fit_minus(a, b), 5, q),
        ),
        RawOperator::Union => earlier(not_set(a, p), when(!fit_sets(a, b), 5, q)),
        RawOperator::Intersection => earlier(not_set(a, p), when(!fit_sets(a, b), 5, q)),
        RawOperator::Plus => earlier(not_number(a, p), not_number(b, q)),
        RawOperator::Times => earlier(not_number(a, p), not_number(b, q)),
        RawOperator::Divide => earlier(not_number(a, p), not_number(b, q)),
        RawOperator::Mod => earlier(not_number(a, p), not_number(b, q)),
        RawOperator::UpTo => earlier(not_number(a, p), not_number(b, q)),
    }
}

/// The fault of a side of a relation of the wrong kind, with the places of both.
pub fn sides(
    relation: RawRelation,
    a: &Option<Form>,
    p: Place,
    b: &Option<Form>,
    q: Place,
) -> Option<Fault>
    ensures { result ≡ first (side_fault relation (maybe_form a.now) p (maybe_form b.now) q) }
{
    match relation {
        RawRelation::Equal => when(!meet(a, b), 5, q),
        RawRelation::Unequal => when(!meet(a, b), 5, q),
        RawRelation::Member => earlier(when(!may_be_item(a), 5, p), when(!holds(a, b), 5, q)),
        RawRelation::NotMember => earlier(when(!may_be_item(a), 5, p), when(!holds(a, b), 5, q)),
        RawRelation::Subset => earlier(not_set(a, p), when(!fit_sets(a, b), 5, q)),
        RawRelation::Less => earlier(not_number(a, p), not_number(b, q)),
        RawRelation::AtMost => earlier(not_number(a, p), not_number(b, q)),
        RawRelation::Greater => earlier(not_number(a, p), not_number(b, q)),
        RawRelation::AtLeast => earlier(not_number(a, p), not_number(b, q)),
    }
}

fn starts_below_zero(a: &Option<Form>) -> bool
    ensures { result ≡ int_lt (span_of (maybe_form a.now)).lo (pos 0) }
{
    span(a).lo < 0
}

/// The fault of a divisor that is no positive literal, or of a dividend that may be negative, at the sign.
pub fn division(
    operator: RawOperator,
    a: &Option<Form>,
    divisor: Option<i64>,
    place: Place,
) -> Option<Fault>
    ensures { result ≡ first (divisor_fault operator (maybe_form a.now) divisor place) }
{
    match operator {
        RawOperator::Divide => when(!is_divisor(divisor) || starts_below_zero(a), 7, place),
        RawOperator::Mod => when(!is_divisor(divisor) || starts_below_zero(a), 7, place),
        _ => None,
    }
}

/// The fault of a number that may be too far from 0, or of a set that may have too many numbers.
pub fn size(a: &Option<Form>, place: Place) -> Option<Fault>
    ensures { result ≡ first (size_fault (maybe_form a.now) place) }
{
    match a {
        Some(Form::Number(s)) => when(is_wide(s), 6, place),
        Some(Form::Numbers(s)) => when(is_longer(s, 256), 12, place),
        _ => None,
    }
}
