//! The values of a domain, in order, and the domain that a formula gives a variable.

ghost use Rattle.std.specs.Prelude.{◌≡◌, pos, ◌+ℤ◌, ◌≤ℤ◌, ◌<◌, ◌^◌, true, None, IfOk, IfSome, IsTrue};
ghost use Rattle.cb_term.specs.Table.{sizes_of};
ghost use Rattle.cb_term.specs.Values.{size_of_set};
ghost use Rattle.cb_spec.specs.Domains as domains;
ghost use Rattle.cb_spec.specs.TypedTerms as typed;
ghost use Rattle.cb_eval.specs.ClosedTruth.{with_one};
ghost use Rattle.cb_eval.specs.Walks as spec;

use cb_term::Memory;
use cb_term::kind::{Base, Domain, Kind};
use cb_term::sign::{RelSign, TermSign};
use cb_term::table::SetTable;
use cb_term::tree::{Formula, FormulaNode, Term, TermNode};
use cb_term::value::Value;
use sqlite_items::Items;
use std::alloc::Global;

/// How many elements the enumerated set has.
pub fn set_size(sets: &SetTable, set: u32) -> usize
    ensures { result ≡ size_of_set (sizes_of sets.now) set }
{
    match sets.sets.get(set as usize) {
        Some(names) => names.elements.len(),
        None => 0,
    }
}

// How many numbers there are from `lo` to `hi`.
#[tactic(auto, using(crate::proofs::SetLemmas::gap_end))]
fn span(lo: i64, hi: i64) -> u128
    ensures { result ≡ spec.span lo hi }
{
    if lo <= hi {
        (i128::from(hi) - i128::from(lo)) as u128 + 1
    } else {
        0
    }
}

/// Whether the domain is small enough to be gone over: it has at most 65536 values.
pub fn is_walkable(sets: &SetTable, domain: Domain) -> bool
    ensures { result ≡ spec.is_walkable (sizes_of sets.now) domain }
{
    match domain {
        Domain::Range { lo, hi } => span(lo, hi) <= 65536,
        Domain::Truth => true,
        Domain::Elems(set) => set_size(sets, set) <= 65536,
        Domain::Subsets { lo, hi } => span(lo, hi) <= 16,
        Domain::ElemSubsets(set) => set_size(sets, set) <= 16,
    }
}

// How many subsets a set with so few items has.
fn subsets(items: u32) -> usize
    requires { items < 17 }
    ensures { result ≡ 2 ^ items }
{
    2usize.pow(items)
}

/// How many values the domain has.
pub fn value_count(sets: &SetTable, domain: Domain) -> usize
    requires { IsTrue (spec.is_walkable (sizes_of sets.now) domain) }
    ensures { result ≡ spec.count_of (sizes_of sets.now) domain }
{
    match domain {
        Domain::Range { lo, hi } => span(lo, hi) as usize,
        Domain::Truth => 2,
        Domain::Elems(set) => set_size(sets, set),
        Domain::Subsets { lo, hi } => subsets(span(lo, hi) as u32),
        Domain::ElemSubsets(set) => subsets(set_size(sets, set) as u32),
    }
}

// Of so many numbers from `first` on those whose bit is set.
fn picked(alloc: Global, first: i64, count: usize, number: usize) -> Result<Items<i64>, Memory>
    requires few { count < 17 }
    requires fits { (first +ℤ pos count) ≤ℤ pos (2 ^ 63) }
    ensures { IfOk result (λ items. items ≡ spec.picked first count number) }
{
    let mut items = Vec::new(alloc);
    let mut bits = number;
    for i in 0..count {
        if bits % 2 == 1 {
            items.push(first + i as i64)?;
        }
        bits /= 2;
    }
    Ok(Items::from_vec(items))
}

/// The value of the domain with this number, counted from 0.
pub fn value_at(
    alloc: Global,
    sets: &SetTable,
    domain: Domain,
    number: usize,
) -> Result<Value, Memory>
    requires walkable { IsTrue (spec.is_walkable (sizes_of sets.now) domain) }
    requires within { number < spec.count_of (sizes_of sets.now) domain }
    ensures { IfOk result (λ v. v ≡ spec.value_number (sizes_of sets.now) domain number) }
{
    match domain {
        Domain::Range { lo, .. } => Ok(Value::Int(lo + number as i64)),
        Domain::Truth => Ok(Value::Truth(number == 1)),
        Domain::Elems(_set) => Ok(Value::Elem(number as u32)),
        Domain::Subsets { lo, hi } => {
            Ok(Value::Set(picked(alloc, lo, span(lo, hi) as usize, number)?))
        }
        Domain::ElemSubsets(set) => {
            Ok(Value::Set(picked(alloc, 0, set_size(sets, set), number)?))
        }
    }
}

// The kind of the domain's values.
fn kind_of(domain: Domain) -> Kind
    ensures { result ≡ domains.kind_of_domain domain }
{
    match domain {
        Domain::Range { .. } => Kind::Integer,
        Domain::Truth => Kind::Truth,
        Domain::Elems(set) => Kind::Elem(set),
        Domain::Subsets { .. } => Kind::SetOf(Base::Integer),
        Domain::ElemSubsets(set) => Kind::SetOf(Base::Elem(set)),
    }
}

// What two domains of one kind have in common.
fn meet(left: Domain, right: Domain) -> Domain
    ensures { result ≡ spec.meet left right }
{
    match (left, right) {
        (Domain::Range { lo, hi }, Domain::Range { lo: lo2, hi: hi2 }) => Domain::Range {
            lo: lo.max(lo2),
            hi: hi.min(hi2),
        },
        (Domain::Subsets { lo, hi }, Domain::Subsets { lo: lo2, hi: hi2 }) => Domain::Subsets {
            lo: lo.max(lo2),
            hi: hi.min(hi2),
        },
        _ => left,
    }
}

// The number that the term is, if it is a literal.
fn literal(term: &Term) -> Option<i64>
    ensures { result ≡ typed.literal term.now }
{
    match &term.node {
        TermNode::Num(n) => Some(*n),
        _ => None,
    }
}

// The domain of which the relation to the term makes a value one.
fn typing_domain(sign: RelSign, right: &Term) -> Option<Domain>
    ensures { result ≡ spec.typing_domain sign right.now }
{
    match &right.node {
        TermNode::Bin {
            sign: TermSign::Range,
            left: first,
            right: last,
        } => {
            let Some(lo) = literal(first) else {
                return None;
            };
            let Some(hi) = literal(last) else {
                return None;
            };
            match sign {
                RelSign::Member => Some(Domain::Range { lo, hi }),
                RelSign::Subset => Some(Domain::Subsets { lo, hi }),
                RelSign::Equal | RelSign::Less | RelSign::AtMost => None,
            }
        }
        TermNode::Truths => match sign {
            RelSign::Member => Some(Domain::Truth),
            RelSign::Equal | RelSign::Less | RelSign::AtMost | RelSign::Subset => None,
        },
        TermNode::Elems(set) => match sign {
            RelSign::Member => Some(Domain::Elems(*set)),
            RelSign::Subset => Some(Domain::ElemSubsets(*set)),
            RelSign::Equal | RelSign::Less | RelSign::AtMost => None,
        },
        _ => None,
    }
}

// The same, if its values are of the kind.
fn typing_of_kind(kind: Kind, sign: RelSign, right: &Term) -> Option<Domain>
    ensures { result ≡ with_one (spec.typing_domain sign right.now) (spec.of_kind kind) }
{
    match typing_domain(sign, right) {
        Some(domain) => if kind_of(domain).is_same(kind) {
            Some(domain)
        } else {
            None
        },
        None => None,
    }
}

fn is_innermost(term: &Term) -> bool
    ensures { result ≡ spec.is_innermost term.now }
{
    match &term.node {
        TermNode::Bound(index) => *index == 0,
        _ => false,
    }
}

// What the typing conjuncts of the kind have in common that speak of the innermost variable.
fn domain_in(kind: Kind, formula: &Formula) -> Option<Domain>
    ensures { result ≡ spec.domain_in kind formula.now }
{
    match &formula.node {
        FormulaNode::And(left, right) => match (domain_in(kind, left), domain_in(kind, right)) {
            (Some(d), Some(e)) => Some(meet(d, e)),
            (Some(d), None) => Some(d),
            (None, found) => found,
        },
        FormulaNode::Rel { sign, left, right } => if is_innermost(left) {
            typing_of_kind(kind, *sign, right)
        } else {
            None
        },
        _ => None,
    }
}

/// The domain that the formula gives the innermost variable, if it is small enough to be gone over.
pub fn walked_domain(sets: &SetTable, kind: Kind, formula: &Formula) -> Option<Domain>
    ensures domain { result ≡ spec.walked_domain (sizes_of sets.now) kind formula.now }
    ensures walkable { IfSome result (λ d. IsTrue (spec.is_walkable (sizes_of sets.now) d)) }
{
    match domain_in(kind, formula) {
        Some(domain) => if is_walkable(sets, domain) {
            Some(domain)
        } else {
            None
        },
        None => None,
    }
}

/// The domain that the premise of an implication gives it.
pub fn premise_domain(sets: &SetTable, kind: Kind, body: &Formula) -> Option<Domain>
    ensures domain { result ≡ spec.walked_domain (sizes_of sets.now) kind (typed.premise_of body.now) }
    ensures walkable { IfSome result (λ d. IsTrue (spec.is_walkable (sizes_of sets.now) d)) }
{
    match &body.node {
        FormulaNode::Implies(premise, _conclusion) => walked_domain(sets, kind, premise),
        _ => None,
    }
}
