//! Domains of names.

ghost use Rattle.std.specs.Prelude.{◌≡◌};
ghost use Rattle.cb_forms.specs.Faults.{first};
ghost use Rattle.cb_forms.specs.Kinds.{form_of};
ghost use Rattle.cb_spec.specs.Forms.{form_of_domain};
ghost use Rattle.cb_judge.specs.Choices.{signed_of, plain_bound, bound, range_of, subset_of, elements_of, element_sets_of, whole_of, member_choice, subset_choice, given_by, is_name, typing_in, reaches, is_empty, lacks, has_many, has_big, known_of_domain, form_or_nought, choice_faults, end_of, bound_of, domain_in, unknown_end, unknown_in};

use crate::names::{Entry, View, constant, set_size};
use cb_forms::fault::{Fault, earlier, when};
use cb_forms::form::Form;
use cb_forms::span::{Span, is_longer};
use cb_forms::table::Table;
use cb_lex::raw::domain::{RawBound, RawDomain, RawEnd};
use cb_lex::raw::sign::{RawAtom, RawOperator, RawRelation};
use cb_lex::raw::term::{RawFormula, RawFormulaNode, RawTerm, RawTermNode};
use cb_lex::token::Place;
use cb_term::kind::Domain;

/// MAXINT; MININT has the other sign.
pub const MAXINT: i64 = 2147483647;

/// A domain, and the number of elements where it is of an enumerated set.
#[derive(Clone, Copy)]
pub struct Choice {
    pub domain: Domain,
    pub size: usize,
}

/// The number with the other sign, where 64 bits hold it, or the number itself.
pub fn signed(minus: bool, number: Option<i64>) -> Option<i64>
    ensures { result ≡ signed_of minus number }
{
    match number {
        None => None,
        Some(n) => if minus { n.checked_neg() } else { Some(n) },
    }
}

fn plain(names: &Table<Entry>, view: &View, term: &RawTerm) -> Option<i64>
    ensures { result ≡ plain_bound view.now names.now term.now }
{
    match &term.node {
        RawTermNode::Number { value, place: _ } => Some(*value),
        RawTermNode::Name(name) => constant(view, names.find(name.text.as_slice())),
        RawTermNode::Atom {
            atom: RawAtom::MaxInt,
            place: _,
        } => Some(MAXINT),
        RawTermNode::Atom {
            atom: RawAtom::MinInt,
            place: _,
        } => Some(-MAXINT),
        _ => None,
    }
}

// The number that a term is, if it has the form of an end of a range.
fn end(names: &Table<Entry>, view: &View, term: &RawTerm) -> Option<i64>
    ensures { result ≡ bound view.now names.now term.now }
{
    match &term.node {
        RawTermNode::Minus {
            place: _,
            term: operand,
        } => signed(true, plain(names, view, operand)),
        _ => plain(names, view, term),
    }
}

fn range(low: Option<i64>, high: Option<i64>) -> Option<Choice>
    ensures { result ≡ range_of low high }
{
    match (low, high) {
        (Some(lo), Some(hi)) => Some(Choice {
            domain: Domain::Range { lo, hi },
            size: 0,
        }),
        _ => None,
    }
}

fn subsets(low: Option<i64>, high: Option<i64>) -> Option<Choice>
    ensures { result ≡ subset_of low high }
{
    match (low, high) {
        (Some(lo), Some(hi)) => Some(Choice {
            domain: Domain::Subsets { lo, hi },
            size: 0,
        }),
        _ => None,
    }
}

fn elements(set: Option<(u32, usize)>) -> Option<Choice>
    ensures { result ≡ elements_of set }
{
    match set {
        None => None,
        Some((set, size)) => Some(Choice {
            domain: Domain::Elems(set),
            size,
        }),
    }
}

fn element_sets(set: Option<(u32, usize)>) -> Option<Choice>
    ensures { result ≡ element_sets_of set }
{
    match set {
        None => None,
        Some((set, size)) => Some(Choice {
            domain: Domain::ElemSubsets(set),
            size,
        }),
    }
}

// The domain of a word.
fn whole(atom: RawAtom) -> Option<Choice>
    ensures { result ≡ whole_of atom }
{
    match atom {
        RawAtom::Nat => range(Some(0), Some(MAXINT)),
        RawAtom::Nat1 => range(Some(1), Some(MAXINT)),
        RawAtom::Int => range(Some(-MAXINT), Some(MAXINT)),
        RawAtom::Truths => Some(Choice {
            domain: Domain::Truth,
            size: 0,
        }),
        _ => None,
    }
}

// The domain that stands to the right of `:`.
fn member(names: &Table<Entry>, view: &View, term: &RawTerm) -> Option<Choice>
    ensures { result ≡ member_choice view.now names.now term.now }
{
    match &term.node {
        RawTermNode::Binary {
            operator: RawOperator::UpTo,
            place: _,
            left,
            right,
        } => { range(end(names, view, left), end(names, view, right)) }
        RawTermNode::Atom { atom, place: _ } => whole(*atom),
        RawTermNode::Name(name) => elements(set_size(view, names.find(name.text.as_slice()))),
        _ => None,
    }
}

// The domain that stands to the right of `<:`.
fn subset(names: &Table<Entry>, view: &View, term: &RawTerm) -> Option<Choice>
    ensures { result ≡ subset_choice view.now names.now term.now }
{
    match &term.node {
        RawTermNode::Binary {
            operator: RawOperator::UpTo,
            place: _,
            left,
            right,
        } => { subsets(end(names, view, left), end(names, view, right)) }
        RawTermNode::Name(name) => element_sets(set_size(view, names.find(name.text.as_slice()))),
        _ => None,
    }
}

/// The domain that a conjunct gives its left side, if it is a typing conjunct.
pub fn given(
    names: &Table<Entry>,
    view: &View,
    relation: RawRelation,
    right: &RawTerm,
) -> Option<Choice>
    ensures { result ≡ given_by view.now names.now relation right.now }
{
    match relation {
        RawRelation::Member => member(names, view, right),
        RawRelation::Subset => subset(names, view, right),
        _ => None,
    }
}

fn is_named(term: &RawTerm, name: &[u8]) -> bool
    ensures { result ≡ is_name name.now term.now }
{
    match &term.node {
        RawTermNode::Name(other) => name == other.text.as_slice(),
        _ => false,
    }
}

/// The domain that the first typing conjunct of the formula's top conjunction gives the name.
pub fn typing(
    names: &Table<Entry>,
    view: &View,
    name: &[u8],
    formula: &RawFormula,
) -> Option<Choice>
    ensures { result ≡ typing_in view.now names.now name.now formula.now }
{
    match &formula.node {
        RawFormulaNode::And(left, right) => match typing(names, view, name, left) {
            Some(choice) => Some(choice),
            None => typing(names, view, name, right),
        },
        RawFormulaNode::Relation {
            relation,
            place: _,
            left,
            right,
        } => {
            if is_named(left, name) {
                given(names, view, *relation, right)
            } else {
                None
            }
        }
        _ => None,
    }
}

fn length_reaches(lo: i64, hi: i64, most: i128) -> bool
    ensures { result ≡ reaches most lo hi }
{
    let span = Span {
        lo: i128::from(lo),
        hi: i128::from(hi),
    };
    is_longer(&span, most)
}

// Whether the domain has no value.
fn has_none(domain: &Domain) -> bool
    ensures { result ≡ is_empty domain.now }
{
    match domain {
        Domain::Range { lo, hi } => *hi < *lo,
        Domain::Subsets { lo, hi } => *hi < *lo,
        _ => false,
    }
}

/// Whether there is no domain, or one without a value.
pub fn is_lacking(choice: &Option<Choice>) -> bool
    ensures { result ≡ lacks choice.now }
{
    match choice {
        None => true,
        Some(c) => has_none(&c.domain),
    }
}

/// Whether the domain has more than 65,536 values.
pub fn is_wide(choice: &Option<Choice>) -> bool
    ensures { result ≡ has_many choice.now }
{
    match choice {
        None => false,
        Some(c) => match c.domain {
            Domain::Range { lo, hi } => length_reaches(lo, hi, 65536),
            Domain::Subsets { lo, hi } => length_reaches(lo, hi, 16),
            Domain::Elems(_) => c.size > 65536,
            Domain::ElemSubsets(_) => c.size > 16,
            _ => false,
        },
    }
}

/// Whether the domain's sets may have more than 256 elements.
pub fn is_deep(choice: &Option<Choice>) -> bool
    ensures { result ≡ has_big choice.now }
{
    match choice {
        None => false,
        Some(c) => match c.domain {
            Domain::Subsets { lo, hi } => length_reaches(lo, hi, 256),
            Domain::ElemSubsets(_) => c.size > 256,
            _ => false,
        },
    }
}

/// The form of the domain's values.
pub fn form(domain: &Domain) -> Form
    ensures known { result ≡ known_of_domain domain.now }
    ensures form { form_of result ≡ form_of_domain domain.now }
{
    match domain {
        Domain::Range { lo, hi } => Form::Number(Span {
            lo: i128::from(*lo),
            hi: i128::from(*hi),
        }),
        Domain::Truth => Form::Truth,
        Domain::Elems(set) => Form::Element(*set),
        Domain::Subsets { lo, hi } => Form::Numbers(Span {
            lo: i128::from(*lo),
            hi: i128::from(*hi),
        }),
        Domain::ElemSubsets(set) => Form::Elements(*set),
    }
}

/// The form of a name with this domain; 0 stands for a name without.
pub fn form_or_zero(choice: &Option<Choice>) -> Form
    ensures { result ≡ form_or_nought choice.now }
{
    match choice {
        Some(c) => form(&c.domain),
        None => Form::Number(Span { lo: 0, hi: 0 }),
    }
}

/// The faults of a domain of which a value is chosen: none, more than 65,536 values, sets of more than 256 elements.
pub fn choice_fault(choice: &Option<Choice>, place: Place) -> Option<Fault>
    ensures { result ≡ first (choice_faults choice.now place) }
{
    earlier(
        when(is_lacking(choice), 3, place),
        earlier(
            when(is_wide(choice), 11, place),
            when(is_deep(choice), 12, place),
        ),
    )
}

fn end_number(names: &Table<Entry>, view: &View, end: &RawEnd) -> Option<i64>
    ensures { result ≡ end_of view.now names.now end.now }
{
    match end {
        RawEnd::Number { value, place: _ } => Some(*value),
        RawEnd::MaxInt(_) => Some(MAXINT),
        RawEnd::MinInt(_) => Some(-MAXINT),
        RawEnd::Name(name) => constant(view, names.find(name.text.as_slice())),
    }
}

fn bound_number(names: &Table<Entry>, view: &View, bound: &RawBound) -> Option<i64>
    ensures { result ≡ bound_of view.now names.now bound.now }
{
    signed(bound.minus, end_number(names, view, &bound.end))
}

/// The domain that is written after `::`, or of a parameter after `:`.
pub fn domain(names: &Table<Entry>, view: &View, raw: &RawDomain) -> Option<Choice>
    ensures { result ≡ domain_in view.now names.now raw.now }
{
    match raw {
        RawDomain::Range { low, high } => {
            range(
                bound_number(names, view, low),
                bound_number(names, view, high),
            )
        }
        RawDomain::Nat(_) => whole(RawAtom::Nat),
        RawDomain::Nat1(_) => whole(RawAtom::Nat1),
        RawDomain::Int(_) => whole(RawAtom::Int),
        RawDomain::Truths(_) => whole(RawAtom::Truths),
        RawDomain::Name(name) => elements(set_size(view, names.find(name.text.as_slice()))),
    }
}

// The fault of a name at an end of a range that is no constant.
fn end_fault(names: &Table<Entry>, view: &View, end: &RawEnd) -> Option<Fault>
    ensures { result ≡ first (unknown_end view.now names.now end.now) }
{
    match end {
        RawEnd::Name(name) => when(
            constant(view, names.find(name.text.as_slice())).is_none(),
            2,
            name.place,
        ),
        _ => None,
    }
}

/// The fault of a name in a domain that is no constant, or no set.
pub fn unknown_in_domain(names: &Table<Entry>, view: &View, raw: &RawDomain) -> Option<Fault>
    ensures { result ≡ first (unknown_in view.now names.now raw.now) }
{
    match raw {
        RawDomain::Range { low, high } => {
            earlier(
                end_fault(names, view, &low.end),
                end_fault(names, view, &high.end),
            )
        }
        RawDomain::Name(name) => when(
            set_size(view, names.find(name.text.as_slice())).is_none(),
            2,
            name.place,
        ),
        _ => None,
    }
}
