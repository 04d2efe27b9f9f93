//! What is asked of an argument beside its kinds: each quantifier has a typing conjunct, and each divisor is a positive literal.

ghost use Rattle.std.specs.Prelude.{◌≡◌, ◌&&◌};
ghost use Rattle.cb_seq.specs.Clear as spec;

use cb_term::kind::{Base, Kind};
use cb_term::sign::{RelSign, TermSign};
use cb_term::tree::{Formula, FormulaNode, Term, TermNode};

fn is_number(term: &Term) -> bool
    ensures { result ≡ spec.is_number term.now }
{
    matches!(&term.node, TermNode::Num(_))
}

fn is_innermost(term: &Term) -> bool
    ensures { result ≡ spec.is_innermost term.now }
{
    match &term.node {
        TermNode::Bound(index) => *index == 0,
        _ => false,
    }
}

fn is_positive(term: &Term) -> bool
    ensures { result ≡ spec.is_positive term.now }
{
    match &term.node {
        TermNode::Num(value) => *value > 0,
        _ => false,
    }
}

fn only_if(test: bool, kind: Kind) -> Option<Kind>
    ensures { result ≡ spec.only_if test kind }
{
    if test { Some(kind) } else { None }
}

// The kind of what is in the set, where `x : ..` with it is a typing conjunct.
fn member_kind(set: &Term) -> Option<Kind>
    ensures { result ≡ spec.member_kind set.now }
{
    match &set.node {
        TermNode::Bin {
            sign: TermSign::Range,
            left,
            right,
        } => only_if(is_number(left) && is_number(right), Kind::Integer),
        TermNode::Truths => Some(Kind::Truth),
        TermNode::Elems(set) => Some(Kind::Elem(*set)),
        _ => None,
    }
}

// The kind of the sets within the set, where `x <: ..` with it is a typing conjunct.
fn subset_kind(set: &Term) -> Option<Kind>
    ensures { result ≡ spec.subset_kind set.now }
{
    match &set.node {
        TermNode::Bin {
            sign: TermSign::Range,
            left,
            right,
        } => only_if(
            is_number(left) && is_number(right),
            Kind::SetOf(Base::Integer),
        ),
        TermNode::Elems(set) => Some(Kind::SetOf(Base::Elem(*set))),
        _ => None,
    }
}

fn given_kind(sign: RelSign, right: &Term) -> Option<Kind>
    ensures { result ≡ spec.given_kind sign right.now }
{
    match sign {
        RelSign::Member => member_kind(right),
        RelSign::Subset => subset_kind(right),
        _ => None,
    }
}

// The kind of the innermost bound variable by its first typing conjunct in the formula's top conjunction.
fn typing_kind(formula: &Formula) -> Option<Kind>
    ensures { result ≡ spec.typing_kind formula.now }
{
    match &formula.node {
        FormulaNode::And(left, right) => match typing_kind(left) {
            Some(kind) => Some(kind),
            None => typing_kind(right),
        },
        FormulaNode::Rel { sign, left, right } => {
            if is_innermost(left) {
                given_kind(*sign, right)
            } else {
                None
            }
        }
        _ => None,
    }
}

// The same, of what a for-all asks of its variable.
fn asked_kind(body: &Formula) -> Option<Kind>
    ensures { result ≡ spec.asked_kind body.now }
{
    match &body.node {
        FormulaNode::Implies(left, _) => typing_kind(left),
        _ => None,
    }
}

/// Whether the kind is the one that was found.
pub(crate) fn is_kind(kind: Kind, found: Option<Kind>) -> bool
    ensures { result ≡ spec.is_kind kind found }
{
    match found {
        Some(found) => found.is_same(kind),
        None => false,
    }
}

fn may_stand_right(sign: TermSign, right: &Term) -> bool
    ensures { result ≡ spec.may_stand_right sign right.now }
{
    match sign {
        TermSign::Div | TermSign::Mod => is_positive(right),
        _ => true,
    }
}

/// Whether each quantifier in the term has a typing conjunct of its kind, and each divisor is a positive literal.
#[cycle(clear)]
pub fn term_is_clear(term: &Term) -> bool
    ensures { result ≡ spec.term_is_clear term.now }
{
    match &term.node {
        TermNode::Bin { sign, left, right } => {
            may_stand_right(*sign, right) && term_is_clear(left) && term_is_clear(right)
        }
        TermNode::Neg(operand) | TermNode::Card(operand) => term_is_clear(operand),
        TermNode::Listed(terms) => {
            for item in terms.as_slice() {
                if !term_is_clear(item) {
                    return false;
                }
            }
            true
        }
        TermNode::Bool(formula) => is_clear(formula),
        _ => true,
    }
}

/// The same, of a formula.
#[cycle(clear)]
pub fn is_clear(formula: &Formula) -> bool
    ensures { result ≡ spec.is_clear formula.now }
{
    match &formula.node {
        FormulaNode::True | FormulaNode::False => true,
        FormulaNode::Rel { left, right, .. } => term_is_clear(left) && term_is_clear(right),
        FormulaNode::Not(operand) => is_clear(operand),
        FormulaNode::And(left, right)
        | FormulaNode::Or(left, right)
        | FormulaNode::Implies(left, right)
        | FormulaNode::Iff(left, right) => is_clear(left) && is_clear(right),
        FormulaNode::Every { kind, body, .. } => is_kind(*kind, asked_kind(body)) && is_clear(body),
        FormulaNode::Exist { kind, body, .. } => {
            is_kind(*kind, typing_kind(body)) && is_clear(body)
        }
    }
}
