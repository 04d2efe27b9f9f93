//! Kinds of terms, and whether formulas and the arguments of rules fit.

ghost use Rattle.std.specs.Prelude.{◌≡◌, IfOk, Some, [], ◌∷◌, ◌&&◌};
ghost use Rattle.cb_term.specs.Table.{sizes_of};
ghost use Rattle.cb_term.specs.Values as values;
ghost use Rattle.cb_term.specs.Tree.{trees_of};
ghost use Rattle.cb_seq.specs.Kinds as spec;
ghost use Rattle.cb_seq.specs.Arguments as arguments;

use crate::clear::{is_clear, is_kind, term_is_clear};
use crate::rule::{FormulaArgument, Rule, TermArgument};
use cb_term::Memory;
use cb_term::kind::{Base, Kind};
use cb_term::name::Name;
use cb_term::sign::{RelSign, TermSign};
use cb_term::table::SetTable;
use cb_term::tree::{Formula, FormulaNode, Term, TermNode};
use std::alloc::Global;

/// The kind of a name, where it is among the names.
pub fn kind_in(names: &[(Name, Kind)], name: &Name) -> Option<Kind>
    ensures { result ≡ spec.kind_in names.now name.now }
{
    for named in names {
        if name.is_same(&named.0) {
            return Some(named.1);
        }
    }
    None
}

/// How many elements an enumerated set has; 0 where there is no such set.
pub fn size_of_set(sets: &SetTable, set: u32) -> usize
    ensures { result ≡ values.size_of_set (sizes_of sets.now) set }
{
    match sets.sets.get(set as usize) {
        Some(names) => names.elements.len(),
        None => 0,
    }
}

/// What a set of values of this kind holds.
pub fn base_of(kind: Kind) -> Option<Base>
    ensures { result ≡ spec.base_of kind }
{
    match kind {
        Kind::Integer => Some(Base::Integer),
        Kind::Truth => Some(Base::Truth),
        Kind::Elem(set) => Some(Base::Elem(set)),
        Kind::SetOf(_) | Kind::EmptySet => None,
    }
}

/// The kind of two sets that may be compared and joined.
pub fn common_set(a: Kind, b: Kind) -> Option<Kind>
    ensures { result ≡ spec.common_set a b }
{
    match (a, b) {
        (Kind::SetOf(c), Kind::SetOf(d)) => {
            if c.is_same(d) {
                Some(Kind::SetOf(c))
            } else {
                None
            }
        }
        (Kind::SetOf(c), Kind::EmptySet) | (Kind::EmptySet, Kind::SetOf(c)) => Some(Kind::SetOf(c)),
        (Kind::EmptySet, Kind::EmptySet) => Some(Kind::EmptySet),
        _ => None,
    }
}

fn bin_kind(sign: TermSign, a: Kind, b: Kind) -> Option<Kind>
    ensures { result ≡ spec.bin_kind sign a b }
{
    match (sign, a, b) {
        (TermSign::Add, Kind::Integer, Kind::Integer)
        | (TermSign::Minus, Kind::Integer, Kind::Integer)
        | (TermSign::Mul, Kind::Integer, Kind::Integer)
        | (TermSign::Div, Kind::Integer, Kind::Integer)
        | (TermSign::Mod, Kind::Integer, Kind::Integer) => Some(Kind::Integer),
        (TermSign::Range, Kind::Integer, Kind::Integer) => Some(Kind::SetOf(Base::Integer)),
        (TermSign::Minus, _, _) | (TermSign::Union, _, _) | (TermSign::Inter, _, _) => common_set(
            a, b,
        ),
        _ => None,
    }
}

fn neg_kind(kind: Kind) -> Option<Kind>
    ensures { result ≡ spec.neg_kind kind }
{
    match kind {
        Kind::Integer => Some(Kind::Integer),
        _ => None,
    }
}

fn card_kind(kind: Kind) -> Option<Kind>
    ensures { result ≡ spec.card_kind kind }
{
    match kind {
        Kind::SetOf(_) | Kind::EmptySet => Some(Kind::Integer),
        _ => None,
    }
}

// The kind of a listed set, from those of its first term and of the set of the others.
fn more_kind(first: Kind, others: Kind) -> Option<Kind>
    ensures { result ≡ spec.more_kind first others }
{
    match base_of(first) {
        Some(base) => common_set(Kind::SetOf(base), others),
        None => None,
    }
}

fn listed_kind(first: Option<Kind>, others: Option<Kind>) -> Option<Kind>
    ensures { result ≡ spec.both_kinds spec.more_kind first others }
{
    match (first, others) {
        (Some(first), Some(others)) => more_kind(first, others),
        _ => None,
    }
}

/// Whether a relation takes sides of these kinds.
pub fn rel_kinds(sign: RelSign, a: Kind, b: Kind) -> bool
    ensures { result ≡ spec.rel_kinds sign a b }
{
    match (sign, a, b) {
        (RelSign::Equal, Kind::Integer, Kind::Integer)
        | (RelSign::Equal, Kind::Truth, Kind::Truth)
        | (RelSign::Less, Kind::Integer, Kind::Integer)
        | (RelSign::AtMost, Kind::Integer, Kind::Integer) => true,
        (RelSign::Equal, Kind::Elem(j), Kind::Elem(k)) => j == k,
        (RelSign::Equal, _, _) | (RelSign::Subset, _, _) => common_set(a, b).is_some(),
        (RelSign::Member, _, Kind::SetOf(b)) => match base_of(a) {
            Some(c) => b.is_same(c),
            None => false,
        },
        (RelSign::Member, _, Kind::EmptySet) => base_of(a).is_some(),
        _ => false,
    }
}

// The kinds inside a binder.
fn inside(alloc: Global, kind: Kind, bound: &[Kind]) -> Result<Vec<Kind>, Memory>
    ensures { IfOk result (λ ks. ks.items ≡ kind ∷ bound.now) }
{
    let mut kinds = Vec::new(alloc);
    kinds.push(kind)?;
    kinds.extend_from_slice(bound)?;
    Ok(kinds)
}

/// The kind of the term, where the bound variables have these kinds, the innermost first. None where it has a name that is not
/// among the names, a loose bound variable, a set or an element that is not in the table, or parts whose kinds do not agree.
#[cycle(kinds)]
pub fn kind_of(
    alloc: Global,
    sets: &SetTable,
    names: &[(Name, Kind)],
    bound: &[Kind],
    term: &Term,
) -> Result<Option<Kind>, Memory>
    ensures { IfOk result (λ o. o ≡ spec.kind_of (sizes_of sets.now) names.now bound.now term.now) }
{
    match &term.node {
        TermNode::Var(name) => Ok(kind_in(names, name)),
        TermNode::Bound(index) => match bound.get(*index as usize) {
            Some(kind) => Ok(Some(*kind)),
            None => Ok(None),
        },
        TermNode::Num(_) => Ok(Some(Kind::Integer)),
        TermNode::Truth(_) => Ok(Some(Kind::Truth)),
        TermNode::Elem { set, index } => {
            if (*index as usize) < size_of_set(sets, *set) {
                Ok(Some(Kind::Elem(*set)))
            } else {
                Ok(None)
            }
        }
        TermNode::Bin { sign, left, right } => {
            let Some(a) = kind_of(alloc, sets, names, bound, left)? else {
                return Ok(None);
            };
            let Some(b) = kind_of(alloc, sets, names, bound, right)? else {
                return Ok(None);
            };
            Ok(bin_kind(*sign, a, b))
        }
        TermNode::Neg(operand) => match kind_of(alloc, sets, names, bound, operand)? {
            Some(kind) => Ok(neg_kind(kind)),
            None => Ok(None),
        },
        TermNode::Card(operand) => match kind_of(alloc, sets, names, bound, operand)? {
            Some(kind) => Ok(card_kind(kind)),
            None => Ok(None),
        },
        TermNode::Listed(terms) => {
            let mut kind = Some(Kind::EmptySet);
            let terms = terms.as_slice();
            for i in (0..terms.len()).rev() {
                kind = listed_kind(kind_of(alloc, sets, names, bound, &terms[i])?, kind);
            }
            Ok(kind)
        }
        TermNode::Elems(set) => {
            if (*set as usize) < sets.sets.len() {
                Ok(Some(Kind::SetOf(Base::Elem(*set))))
            } else {
                Ok(None)
            }
        }
        TermNode::Truths => Ok(Some(Kind::SetOf(Base::Truth))),
        TermNode::Bool(formula) => {
            if fits(alloc, sets, names, bound, formula)? {
                Ok(Some(Kind::Truth))
            } else {
                Ok(None)
            }
        }
    }
}

/// Whether each term of the formula has a kind that its place takes.
#[cycle(kinds)]
pub fn fits(
    alloc: Global,
    sets: &SetTable,
    names: &[(Name, Kind)],
    bound: &[Kind],
    formula: &Formula,
) -> Result<bool, Memory>
    ensures { IfOk result (λ b. b ≡ spec.fits (sizes_of sets.now) names.now bound.now formula.now) }
{
    match &formula.node {
        FormulaNode::True | FormulaNode::False => Ok(true),
        FormulaNode::Rel { sign, left, right } => {
            let Some(a) = kind_of(alloc, sets, names, bound, left)? else {
                return Ok(false);
            };
            let Some(b) = kind_of(alloc, sets, names, bound, right)? else {
                return Ok(false);
            };
            Ok(rel_kinds(*sign, a, b))
        }
        FormulaNode::Not(operand) => fits(alloc, sets, names, bound, operand),
        FormulaNode::And(left, right)
        | FormulaNode::Or(left, right)
        | FormulaNode::Implies(left, right)
        | FormulaNode::Iff(left, right) => {
            Ok(fits(alloc, sets, names, bound, left)? && fits(alloc, sets, names, bound, right)?)
        }
        FormulaNode::Every { kind, body, .. } | FormulaNode::Exist { kind, body, .. } => {
            let bound = inside(alloc, *kind, bound)?;
            fits(alloc, sets, names, &bound, body)
        }
    }
}

fn formula_fits(
    alloc: Global,
    sets: &SetTable,
    names: &[(Name, Kind)],
    argument: &FormulaArgument,
) -> Result<bool, Memory>
    ensures { IfOk result (λ b. b ≡ arguments.formula_fits (sizes_of sets.now) names.now argument.now) }
{
    match argument {
        FormulaArgument::Formula(formula) => {
            Ok(is_clear(formula) && fits(alloc, sets, names, &[], formula)?)
        }
        FormulaArgument::Unclear => Ok(false),
    }
}

fn term_fits(
    alloc: Global,
    sets: &SetTable,
    names: &[(Name, Kind)],
    argument: &TermArgument,
) -> Result<bool, Memory>
    ensures { IfOk result (λ b. b ≡ arguments.term_fits (sizes_of sets.now) names.now argument.now) }
{
    match argument {
        TermArgument::Term { term, kind } => Ok(
            term_is_clear(term) && is_kind(*kind, kind_of(alloc, sets, names, &[], term)?),
        ),
        TermArgument::Read(_) | TermArgument::Unclear => Ok(false),
    }
}

fn terms_fit(
    alloc: Global,
    sets: &SetTable,
    names: &[(Name, Kind)],
    a: &TermArgument,
    b: &TermArgument,
) -> Result<bool, Memory>
    ensures { IfOk result (λ c. c ≡ (arguments.term_fits (sizes_of sets.now) names.now a.now && arguments.term_fits (sizes_of sets.now) names.now b.now)) }
{
    Ok(term_fits(alloc, sets, names, a)? && term_fits(alloc, sets, names, b)?)
}

/// Whether each argument of the rule fits among the names.
pub fn arguments_fit(
    alloc: Global,
    sets: &SetTable,
    names: &[(Name, Kind)],
    rule: &Rule,
) -> Result<bool, Memory>
    ensures { IfOk result (λ b. b ≡ arguments.arguments_fit (sizes_of sets.now) names.now rule.now) }
{
    match rule {
        Rule::Cut { formula } | Rule::Cases { formula } => formula_fits(
            alloc, sets, names, formula,
        ),
        Rule::ExR { term }
        | Rule::AllL { term, .. }
        | Rule::BoolCases { term }
        | Rule::Elems { term }
        | Rule::DivMod { term, .. }
        | Rule::SubsetL { term, .. }
        | Rule::CardPos { set: term } => term_fits(alloc, sets, names, term),
        Rule::Split { left, right } | Rule::MulSign { left, right } => {
            terms_fit(alloc, sets, names, left, right)
        }
        Rule::CardAdd { set, item } | Rule::CardDel { set, item } => {
            terms_fit(alloc, sets, names, set, item)
        }
        Rule::CardSub { inner, outer } => terms_fit(alloc, sets, names, inner, outer),
        _ => Ok(true),
    }
}
