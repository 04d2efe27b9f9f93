//! The value of a term and the truth of a formula, worked out.

ghost use Rattle.std.specs.Prelude.{◌≡◌, pos, [], ◌∷◌, false, Some, None, IfOk, OnOk, MatchOption, slice_get};
ghost use Rattle.cb_term.specs.Table.{sizes_of};
ghost use Rattle.cb_term.specs.Sets.{upwards};
ghost use Rattle.cb_term.specs.Values.{size_of_set};
ghost use Rattle.cb_term.specs.declared.value.Value.TheVariants as value;
ghost use Rattle.cb_spec.specs.Stores.{look_of};
ghost use Rattle.cb_spec.specs.TypedTerms.{is_membership};
ghost use Rattle.cb_eval.specs.ClosedTruth.{with_one};
ghost use Rattle.cb_eval.specs.Evaluation as eval;

use crate::sets;
use crate::signs::{MOST_ITEMS, combined, counted, is_in_range, item, negated, related};
use crate::walk::{premise_domain, set_size, value_at, value_count, walked_domain};
use crate::wide::Wide;
use crate::widen::widened;
use cb_spec::store::Store;
use cb_term::Memory;
use cb_term::name::Name;
use cb_term::sign::{RelSign, TermSign};
use cb_term::table::SetTable;
use cb_term::tree::{Formula, FormulaNode, Term, TermNode};
use cb_term::value::Value;
use std::alloc::Global;

// What the name stands for.
fn looked_up(alloc: Global, store: &Store, name: &Name) -> Result<Option<Wide>, Memory>
    ensures { IfOk result (λ o. o ≡ eval.given (look_of store.now name.now)) }
{
    match store.get(name) {
        Some(value) => widened(alloc, value),
        None => Ok(Some(Wide::int(0))),
    }
}

// All elements of an enumerated set, if they are few.
#[tactic(auto, using(crate::proofs::SetLemmas::length_upwards))]
fn elements(alloc: Global, sets: &SetTable, named: bool, set: u32) -> Result<Option<Wide>, Memory>
    ensures { IfOk result (λ o. o ≡ eval.kept named (value.Set (upwards (pos 0) (size_of_set (sizes_of sets.now) set)))) }
{
    let count = set_size(sets, set);
    if count > MOST_ITEMS {
        return Ok(None);
    }
    Ok(Some(Wide::set(sets::upwards(alloc, 0, count)?)))
}

fn truths(alloc: Global) -> Result<Wide, Memory>
    ensures { IfOk result (λ w. w ≡ value.Set (pos 0 ∷ pos 1 ∷ [])) }
{
    Ok(Wide::set(vec![in alloc; 0, 1]?))
}

// The value of a bound variable.
fn bound_value(alloc: Global, bound: &[Value], index: u32) -> Result<Option<Wide>, Memory>
    ensures { IfOk result (λ o. o ≡ with_one (slice_get bound.now index) eval.given) }
{
    match bound.get(index as usize) {
        Some(value) => widened(alloc, value),
        None => Ok(None),
    }
}

// The ends of a range directly to the right of `:` or `<:`, which isn't made.
fn range_ends(sign: RelSign, right: &Term) -> Option<(&Term, &Term)>
    ensures { MatchOption result (eval.range_ends (is_membership sign) right.now ≡ None)
        (λ ends. eval.range_ends (is_membership sign) right.now ≡ Some (ends.0.now, ends.1.now)) }
{
    match sign {
        RelSign::Member | RelSign::Subset => match &right.node {
            TermNode::Bin { sign, left, right } => match sign {
                TermSign::Range => Some((left, right)),
                _ => None,
            },
            _ => None,
        },
        RelSign::Equal | RelSign::Less | RelSign::AtMost => None,
    }
}

#[cycle(evaluate)]
pub fn value_in(
    alloc: Global,
    sets: &SetTable,
    named: bool,
    store: &Store,
    bound: &mut Vec<Value>,
    term: &Term,
) -> Result<Option<Wide>, Memory>
    ensures value { IfOk result (λ o. o ≡ eval.value_in (sizes_of sets.now) named (look_of store.now) false bound.old.items term.now) }
    ensures bound { OnOk result (bound.new.items ≡ bound.old.items) }
{
    match &term.node {
        TermNode::Var(name) => if named {
            looked_up(alloc, store, name)
        } else {
            Ok(None)
        },
        TermNode::Bound(index) => if named {
            bound_value(alloc, bound.as_slice(), *index)
        } else {
            Ok(None)
        },
        TermNode::Num(n) => Ok(Some(Wide::int(i128::from(*n)))),
        TermNode::Truth(b) => Ok(Some(Wide::truth(*b))),
        TermNode::Elem { index, .. } => Ok(Some(Wide::elem(*index))),
        TermNode::Bin { sign, left, right } => {
            let Some(u) = value_in(alloc, sets, named, store, bound, left)? else {
                return Ok(None);
            };
            let Some(v) = value_in(alloc, sets, named, store, bound, right)? else {
                return Ok(None);
            };
            combined(alloc, named, *sign, &u, &v)
        }
        TermNode::Neg(operand) => match value_in(alloc, sets, named, store, bound, operand)? {
            Some(u) => Ok(negated(named, &u)),
            None => Ok(None),
        },
        TermNode::Card(operand) => match value_in(alloc, sets, named, store, bound, operand)? {
            Some(u) => Ok(counted(named, &u)),
            None => Ok(None),
        },
        TermNode::Listed(terms) => {
            let terms = terms.as_slice();
            let mut items = Vec::new(alloc);
            let mut left = terms.len();
            while left > 0 {
                left -= 1;
                let Some(u) = value_in(alloc, sets, named, store, bound, &terms[left])? else {
                    return Ok(None);
                };
                sets::insert(&mut items, item(&u))?;
                if items.len() > MOST_ITEMS {
                    return Ok(None);
                }
            }
            Ok(Some(Wide::set(items)))
        }
        TermNode::Elems(set) => elements(alloc, sets, named, *set),
        TermNode::Truths => Ok(Some(truths(alloc)?)),
        TermNode::Bool(formula) => match truth_in(alloc, sets, named, store, bound, formula)? {
            Some(b) => Ok(Some(Wide::truth(b))),
            None => Ok(None),
        },
    }
}

#[cycle(evaluate)]
pub fn truth_in(
    alloc: Global,
    sets: &SetTable,
    named: bool,
    store: &Store,
    bound: &mut Vec<Value>,
    formula: &Formula,
) -> Result<Option<bool>, Memory>
    ensures value { IfOk result (λ o. o ≡ eval.truth_in (sizes_of sets.now) named (look_of store.now) bound.old.items formula.now) }
    ensures bound { OnOk result (bound.new.items ≡ bound.old.items) }
{
    match &formula.node {
        FormulaNode::True => Ok(Some(true)),
        FormulaNode::False => Ok(Some(false)),
        FormulaNode::Not(operand) => match truth_in(alloc, sets, named, store, bound, operand)? {
            Some(p) => Ok(Some(!p)),
            None => Ok(None),
        },
        FormulaNode::And(left, right) => {
            let Some(p) = truth_in(alloc, sets, named, store, bound, left)? else {
                return Ok(None);
            };
            match truth_in(alloc, sets, named, store, bound, right)? {
                Some(q) => Ok(Some(p && q)),
                None => Ok(None),
            }
        }
        FormulaNode::Or(left, right) => {
            let Some(p) = truth_in(alloc, sets, named, store, bound, left)? else {
                return Ok(None);
            };
            match truth_in(alloc, sets, named, store, bound, right)? {
                Some(q) => Ok(Some(p || q)),
                None => Ok(None),
            }
        }
        FormulaNode::Implies(left, right) => {
            let Some(p) = truth_in(alloc, sets, named, store, bound, left)? else {
                return Ok(None);
            };
            match truth_in(alloc, sets, named, store, bound, right)? {
                Some(q) => Ok(Some(!p || q)),
                None => Ok(None),
            }
        }
        FormulaNode::Iff(left, right) => {
            let Some(p) = truth_in(alloc, sets, named, store, bound, left)? else {
                return Ok(None);
            };
            match truth_in(alloc, sets, named, store, bound, right)? {
                Some(q) => Ok(Some(p == q)),
                None => Ok(None),
            }
        }
        FormulaNode::Rel { sign, left, right } => {
            let Some(u) = value_in(alloc, sets, named, store, bound, left)? else {
                return Ok(None);
            };
            if let Some((first, last)) = range_ends(*sign, right) {
                let Some(x) = value_in(alloc, sets, named, store, bound, first)? else {
                    return Ok(None);
                };
                let Some(y) = value_in(alloc, sets, named, store, bound, last)? else {
                    return Ok(None);
                };
                return Ok(Some(is_in_range(*sign, &u, &x, &y)));
            }
            match value_in(alloc, sets, named, store, bound, right)? {
                Some(v) => Ok(Some(related(*sign, &u, &v))),
                None => Ok(None),
            }
        }
        FormulaNode::Every { kind, body, .. } => {
            if !named {
                return Ok(None);
            }
            let Some(domain) = premise_domain(sets, *kind, body) else {
                return Ok(None);
            };
            for number in 0..value_count(sets, domain) {
                bound.insert(0, value_at(alloc, sets, domain, number)?)?;
                let answer = truth_in(alloc, sets, named, store, bound, body)?;
                let _value = bound.remove(0);
                match answer {
                    Some(true) => {}
                    Some(false) => return Ok(Some(false)),
                    None => return Ok(None),
                }
            }
            Ok(Some(true))
        }
        FormulaNode::Exist { kind, body, .. } => {
            if !named {
                return Ok(None);
            }
            let Some(domain) = walked_domain(sets, *kind, body) else {
                return Ok(None);
            };
            for number in 0..value_count(sets, domain) {
                bound.insert(0, value_at(alloc, sets, domain, number)?)?;
                let answer = truth_in(alloc, sets, named, store, bound, body)?;
                let _value = bound.remove(0);
                match answer {
                    Some(false) => {}
                    Some(true) => return Ok(Some(true)),
                    None => return Ok(None),
                }
            }
            Ok(Some(false))
        }
    }
}
