//! What the signs make of wide values.

ghost use Rattle.std.specs.Prelude.{◌≡◌, ◌+ℤ◌, ◌-ℤ◌, ◌*ℤ◌, true, Some, None, IfOk};
ghost use Rattle.cb_term.specs.Values as spec;
ghost use Rattle.cb_term.specs.Sets as sets_spec;
ghost use Rattle.cb_term.specs.Sets.{IsAscending};
ghost use Rattle.cb_term.specs.declared.value.Value.TheVariants as value;
ghost use Rattle.cb_term.specs.declared.sign.TermSign.TheVariants.{Range};
ghost use Rattle.cb_spec.specs.TypedTerms.{is_membership};
ghost use Rattle.cb_eval.specs.Evaluation as eval;

use crate::sets;
use crate::wide::{Wide, WideNode};
use cb_term::Memory;
use cb_term::sign::{RelSign, TermSign};
use std::alloc::Global;

/// The most items that a set may have.
pub const MOST_ITEMS: usize = 256;

/// 2^100.
const CAP: i128 = 1267650600228229401496703205376;

/// Whether a number is small enough: of 64 bits where names are known, else at most 2^100 in size.
pub fn fits(named: bool, n: i128) -> bool
    ensures { result ≡ eval.fits named n }
{
    if named {
        -9223372036854775808 <= n && n <= 9223372036854775807
    } else {
        -CAP <= n && n <= CAP
    }
}

/// The number, if it is small enough.
pub fn kept(named: bool, n: i128) -> Option<Wide>
    ensures { result ≡ eval.kept named (value.Int n) }
{
    if fits(named, n) {
        Some(Wide::int(n))
    } else {
        None
    }
}

/// The set, if it is small enough.
pub fn kept_set(named: bool, items: Vec<i128>) -> Option<Wide>
    requires { IsAscending items.items }
    ensures { result ≡ eval.kept named (value.Set items.items) }
{
    if items.len() <= MOST_ITEMS {
        Some(Wide::set(items))
    } else {
        None
    }
}

// The numbers from one to another, if there are few.
fn range(alloc: Global, named: bool, x: i128, y: i128) -> Result<Option<Wide>, Memory>
    ensures { IfOk result (λ o. o ≡ eval.kept named (value.Set (sets_spec.range x y))) }
{
    if y < x {
        return Ok(Some(Wide::set(Vec::new(alloc))));
    }
    match y.checked_sub(x) {
        Some(gap) => if gap < 256 {
            Ok(kept_set(named, sets::upwards(alloc, x, gap as usize + 1)?))
        } else {
            Ok(None)
        },
        None => Ok(None),
    }
}

fn sum(named: bool, x: i128, y: i128) -> Option<Wide>
    ensures { result ≡ eval.kept named (value.Int (x +ℤ y)) }
{
    match x.checked_add(y) {
        Some(n) => kept(named, n),
        None => None,
    }
}

fn difference(named: bool, x: i128, y: i128) -> Option<Wide>
    ensures { result ≡ eval.kept named (value.Int (x -ℤ y)) }
{
    match x.checked_sub(y) {
        Some(n) => kept(named, n),
        None => None,
    }
}

fn product(named: bool, x: i128, y: i128) -> Option<Wide>
    ensures { result ≡ eval.kept named (value.Int (x *ℤ y)) }
{
    match x.checked_mul(y) {
        Some(n) => kept(named, n),
        None => None,
    }
}

// The term of two numbers.
fn of_numbers(
    alloc: Global,
    named: bool,
    sign: TermSign,
    x: i128,
    y: i128,
) -> Result<Option<Wide>, Memory>
    ensures { IfOk result (λ o. o ≡ eval.kept named (spec.bin sign (value.Int x) (value.Int y))) }
{
    match sign {
        TermSign::Add => Ok(sum(named, x, y)),
        TermSign::Minus => Ok(difference(named, x, y)),
        TermSign::Mul => Ok(product(named, x, y)),
        TermSign::Div => if 0 < y {
            Ok(kept(named, x.div_euclid(y)))
        } else {
            Ok(Some(Wide::int(0)))
        },
        TermSign::Mod => if 0 < y {
            Ok(kept(named, x.rem_euclid(y)))
        } else {
            Ok(Some(Wide::int(0)))
        },
        TermSign::Range => range(alloc, named, x, y),
        TermSign::Union | TermSign::Inter => Ok(Some(Wide::int(0))),
    }
}

// The term of two sets.
fn of_sets(
    alloc: Global,
    named: bool,
    sign: TermSign,
    xs: &[i128],
    ys: &[i128],
) -> Result<Option<Wide>, Memory>
    requires first { IsAscending xs.now }
    requires second { IsAscending ys.now }
    ensures { IfOk result (λ o. o ≡ eval.kept named (spec.bin sign (value.Set xs.now) (value.Set ys.now))) }
{
    match sign {
        TermSign::Union => Ok(kept_set(named, sets::union(alloc, xs, ys)?)),
        TermSign::Inter => Ok(kept_set(named, sets::intersection(alloc, xs, ys)?)),
        TermSign::Minus => Ok(kept_set(named, sets::difference(alloc, xs, ys)?)),
        TermSign::Add | TermSign::Mul | TermSign::Div | TermSign::Mod | TermSign::Range => {
            Ok(Some(Wide::int(0)))
        }
    }
}

/// The value of a term with two operands, if it is small enough.
pub fn combined(
    alloc: Global,
    named: bool,
    sign: TermSign,
    left: &Wide,
    right: &Wide,
) -> Result<Option<Wide>, Memory>
    ensures { IfOk result (λ o. o ≡ eval.kept named (spec.bin sign left.now right.now)) }
{
    match &left.node {
        WideNode::Int(x) => match &right.node {
            WideNode::Int(y) => of_numbers(alloc, named, sign, *x, *y),
            WideNode::Truth(_) | WideNode::Elem(_) | WideNode::Set(_) => Ok(Some(Wide::int(0))),
        },
        WideNode::Set(xs) => match &right.node {
            WideNode::Set(ys) => of_sets(alloc, named, sign, xs.as_slice(), ys.as_slice()),
            WideNode::Int(_) | WideNode::Truth(_) | WideNode::Elem(_) => Ok(Some(Wide::int(0))),
        },
        WideNode::Truth(_) | WideNode::Elem(_) => Ok(Some(Wide::int(0))),
    }
}

/// The value of a minus, if it is small enough.
pub fn negated(named: bool, operand: &Wide) -> Option<Wide>
    ensures { result ≡ eval.kept named (spec.neg operand.now) }
{
    match &operand.node {
        WideNode::Int(x) => difference(named, 0, *x),
        WideNode::Truth(_) | WideNode::Elem(_) | WideNode::Set(_) => Some(Wide::int(0)),
    }
}

/// How many items a set has.
pub fn counted(named: bool, operand: &Wide) -> Option<Wide>
    ensures { result ≡ eval.kept named (spec.card operand.now) }
{
    match &operand.node {
        WideNode::Set(items) => kept(named, items.len() as i128),
        WideNode::Int(_) | WideNode::Truth(_) | WideNode::Elem(_) => Some(Wide::int(0)),
    }
}

/// The value as an item of a set.
pub fn item(value: &Wide) -> i128
    ensures { result ≡ spec.item value.now }
{
    match &value.node {
        WideNode::Int(x) => *x,
        WideNode::Truth(b) => i128::from(*b),
        WideNode::Elem(k) => i128::from(*k),
        WideNode::Set(_) => 0,
    }
}

// Whether two sets are related.
fn are_related(sign: RelSign, xs: &[i128], ys: &[i128]) -> bool
    requires { IsAscending ys.now }
    ensures { result ≡ spec.rel sign (value.Set xs.now) (value.Set ys.now) }
{
    match sign {
        RelSign::Equal => sets::are_same(xs, ys),
        RelSign::Subset => sets::is_subset(xs, ys),
        RelSign::Less | RelSign::AtMost | RelSign::Member => false,
    }
}

// Whether two numbers are related.
fn are_numbers_related(sign: RelSign, x: i128, y: i128) -> bool
    ensures { result ≡ spec.rel sign (value.Int x) (value.Int y) }
{
    match sign {
        RelSign::Equal => x == y,
        RelSign::Less => x < y,
        RelSign::AtMost => x <= y,
        RelSign::Member | RelSign::Subset => false,
    }
}

/// Whether the relation holds.
pub fn related(sign: RelSign, left: &Wide, right: &Wide) -> bool
    ensures { result ≡ spec.rel sign left.now right.now }
{
    match &left.node {
        WideNode::Int(x) => match &right.node {
            WideNode::Int(y) => are_numbers_related(sign, *x, *y),
            WideNode::Set(ys) => sign.is_same(RelSign::Member) && sets::contains(ys.as_slice(), *x),
            WideNode::Truth(_) | WideNode::Elem(_) => false,
        },
        WideNode::Truth(a) => match &right.node {
            WideNode::Truth(b) => sign.is_same(RelSign::Equal) && *a == *b,
            WideNode::Set(ys) => {
                sign.is_same(RelSign::Member) && sets::contains(ys.as_slice(), i128::from(*a))
            }
            WideNode::Int(_) | WideNode::Elem(_) => false,
        },
        WideNode::Elem(j) => match &right.node {
            WideNode::Elem(k) => sign.is_same(RelSign::Equal) && *j == *k,
            WideNode::Set(ys) => {
                sign.is_same(RelSign::Member) && sets::contains(ys.as_slice(), i128::from(*j))
            }
            WideNode::Int(_) | WideNode::Truth(_) => false,
        },
        WideNode::Set(xs) => match &right.node {
            WideNode::Set(ys) => are_related(sign, xs.as_slice(), ys.as_slice()),
            WideNode::Int(_) | WideNode::Truth(_) | WideNode::Elem(_) => false,
        },
    }
}

// Whether the number lies from x to y.
#[tactic(auto, using(crate::proofs::SetLemmas::range_test))]
fn is_between(n: i128, x: i128, y: i128) -> bool
    ensures { result ≡ sets_spec.has (sets_spec.range x y) n }
{
    x <= n && n <= y
}

// Whether each item lies from x to y.
fn are_between(items: &[i128], x: i128, y: i128) -> bool
    ensures { result ≡ sets_spec.is_subset items.now (sets_spec.range x y) }
{
    for item in items {
        if !is_between(*item, x, y) {
            return false;
        }
    }
    true
}

/// Whether the value is in a range, or within it, which isn't made.
pub fn is_in_range(sign: RelSign, left: &Wide, first: &Wide, last: &Wide) -> bool
    requires { is_membership sign ≡ true }
    ensures { result ≡ spec.rel sign left.now (spec.bin Range first.now last.now) }
{
    let (WideNode::Int(x), WideNode::Int(y)) = (&first.node, &last.node) else {
        return false;
    };
    match &left.node {
        WideNode::Set(items) => sign.is_same(RelSign::Subset)
            && are_between(items.as_slice(), *x, *y),
        WideNode::Int(_) | WideNode::Truth(_) | WideNode::Elem(_) => {
            sign.is_same(RelSign::Member) && is_between(item(left), *x, *y)
        }
    }
}
