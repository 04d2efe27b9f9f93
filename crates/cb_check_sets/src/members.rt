//! What membership in a set says, by what the set is made of.

ghost use Rattle.std.specs.Prelude.{◌≡◌, IfOk, Some};
ghost use Rattle.cb_term.specs.Tree as tree;
ghost use Rattle.cb_check_sets.specs.Members as spec;

use cb_term::Memory;
use cb_term::sign::{RelSign, TermSign};
use cb_term::tree::{Formula, Term, TermNode};
use std::alloc::Global;

/// The relation between copies of the terms.
pub(crate) fn relation(
    alloc: Global,
    sign: RelSign,
    left: &Term,
    right: &Term,
) -> Result<Formula, Memory>
    ensures { IfOk result (λ f. f ≡ tree.Rel sign left.now right.now) }
{
    Ok(Formula::rel(sign, left.copy(alloc)?, right.copy(alloc)?))
}

/// The item is not in the set.
pub(crate) fn outside(alloc: Global, item: &Term, set: &Term) -> Result<Formula, Memory>
    ensures { IfOk result (λ f. f ≡ tree.Not (tree.Rel RelSign.Member item.now set.now)) }
{
    let inside = relation(alloc, RelSign::Member, item, set)?;
    Formula::not(alloc, inside)
}

// The formula, or the item is one of the terms.
fn or_one_of(
    alloc: Global,
    formula: Formula,
    item: &Term,
    terms: &[Term],
) -> Result<Formula, Memory>
    ensures { IfOk result (λ f. f ≡ spec.or_one_of formula item.now (tree.trees_of terms.now)) }
{
    let mut says = formula;
    for term in terms {
        let equal = relation(alloc, RelSign::Equal, item, term)?;
        says = Formula::or(alloc, says, equal)?;
    }
    Ok(says)
}

// The item is one of the terms.
fn one_of(alloc: Global, item: &Term, terms: &[Term]) -> Result<Formula, Memory>
    ensures { IfOk result (λ f. Some f ≡ spec.membership item.now (tree.Listed (tree.trees_of terms.now))) }
{
    match terms.split_first() {
        Some((first, rest)) => {
            let equal = relation(alloc, RelSign::Equal, item, first)?;
            or_one_of(alloc, equal, item, rest)
        }
        None => Ok(Formula::bfalse()),
    }
}

fn in_union(alloc: Global, item: &Term, left: &Term, right: &Term) -> Result<Formula, Memory>
    ensures { IfOk result (λ f. f ≡ tree.Or (tree.Rel RelSign.Member item.now left.now) (tree.Rel RelSign.Member item.now right.now)) }
{
    let first = relation(alloc, RelSign::Member, item, left)?;
    let second = relation(alloc, RelSign::Member, item, right)?;
    Formula::or(alloc, first, second)
}

fn in_both(alloc: Global, item: &Term, left: &Term, right: &Term) -> Result<Formula, Memory>
    ensures { IfOk result (λ f. f ≡ tree.And (tree.Rel RelSign.Member item.now left.now) (tree.Rel RelSign.Member item.now right.now)) }
{
    let first = relation(alloc, RelSign::Member, item, left)?;
    let second = relation(alloc, RelSign::Member, item, right)?;
    Formula::and(alloc, first, second)
}

fn in_difference(alloc: Global, item: &Term, left: &Term, right: &Term) -> Result<Formula, Memory>
    ensures { IfOk result (λ f. f ≡ tree.And (tree.Rel RelSign.Member item.now left.now) (tree.Not (tree.Rel RelSign.Member item.now right.now))) }
{
    let first = relation(alloc, RelSign::Member, item, left)?;
    let out = outside(alloc, item, right)?;
    Formula::and(alloc, first, out)
}

fn in_range(alloc: Global, item: &Term, left: &Term, right: &Term) -> Result<Formula, Memory>
    ensures { IfOk result (λ f. f ≡ tree.And (tree.Rel RelSign.AtMost left.now item.now) (tree.Rel RelSign.AtMost item.now right.now)) }
{
    let least = relation(alloc, RelSign::AtMost, left, item)?;
    let greatest = relation(alloc, RelSign::AtMost, item, right)?;
    Formula::and(alloc, least, greatest)
}

// Membership in what a sign makes of two terms, where that is a set.
fn in_compound(
    alloc: Global,
    item: &Term,
    sign: TermSign,
    left: &Term,
    right: &Term,
) -> Result<Option<Formula>, Memory>
    ensures { IfOk result (λ o. o ≡ spec.membership item.now (tree.Bin sign left.now right.now)) }
{
    match sign {
        TermSign::Union => Ok(Some(in_union(alloc, item, left, right)?)),
        TermSign::Inter => Ok(Some(in_both(alloc, item, left, right)?)),
        TermSign::Minus => Ok(Some(in_difference(alloc, item, left, right)?)),
        TermSign::Range => Ok(Some(in_range(alloc, item, left, right)?)),
        TermSign::Add | TermSign::Mul | TermSign::Div | TermSign::Mod => Ok(None),
    }
}

/// What it says that the item is a member of the set. None where the set is a name, or no term that is a set.
pub fn membership(alloc: Global, item: &Term, set: &Term) -> Result<Option<Formula>, Memory>
    ensures { IfOk result (λ o. o ≡ spec.membership item.now set.now) }
{
    match &set.node {
        TermNode::Bin { sign, left, right } => in_compound(alloc, item, *sign, left, right),
        TermNode::Listed(terms) => Ok(Some(one_of(alloc, item, terms.as_slice())?)),
        TermNode::Elems(_) | TermNode::Truths => Ok(Some(Formula::btrue())),
        _ => Ok(None),
    }
}
