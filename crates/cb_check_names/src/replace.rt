//! One term in the places of another.

ghost use Rattle.std.specs.Prelude.{◌≡◌, IfOk};
ghost use Rattle.cb_check_names.specs.Replace as spec;

use cb_term::Memory;
use cb_term::equal::equal_terms;
use cb_term::tree::{Formula, FormulaNode, Term, TermNode};
use sqlite_items::Items;
use std::alloc::Global;

/// The term with `by` in the place of each outermost `old`.
#[cycle(replace)]
pub fn replace_term(alloc: Global, term: &Term, old: &Term, by: &Term) -> Result<Term, Memory>
    ensures { IfOk result (λ r. r ≡ spec.replaced_term old.now by.now term.now) }
{
    if equal_terms(term, old) {
        return by.copy(alloc);
    }
    match &term.node {
        TermNode::Var(name) => Ok(Term::var(name.copy(alloc)?)),
        TermNode::Bound(index) => Ok(Term::bound(*index)),
        TermNode::Num(n) => Ok(Term::num(*n)),
        TermNode::Truth(b) => Ok(Term::truth(*b)),
        TermNode::Elem { set, index } => Ok(Term::elem(*set, *index)),
        TermNode::Bin { sign, left, right } => Term::bin(
            alloc,
            *sign,
            replace_term(alloc, left, old, by)?,
            replace_term(alloc, right, old, by)?,
        ),
        TermNode::Neg(operand) => Term::neg(alloc, replace_term(alloc, operand, old, by)?),
        TermNode::Card(operand) => Term::card(alloc, replace_term(alloc, operand, old, by)?),
        TermNode::Listed(terms) => {
            let mut changed = Items::new(alloc);
            for term in terms.as_slice() {
                changed.push(replace_term(alloc, term, old, by)?)?;
            }
            Ok(Term::listed(changed))
        }
        TermNode::Elems(set) => Ok(Term::elems(*set)),
        TermNode::Truths => Ok(Term::truths()),
        TermNode::Bool(formula) => Term::bool_of(alloc, replace_formula(alloc, formula, old, by)?),
    }
}

/// The formula with `by` in the place of each outermost `old`.
#[cycle(replace)]
pub fn replace_formula(
    alloc: Global,
    formula: &Formula,
    old: &Term,
    by: &Term,
) -> Result<Formula, Memory>
    ensures { IfOk result (λ f. f ≡ spec.replaced old.now by.now formula.now) }
{
    match &formula.node {
        FormulaNode::True => Ok(Formula::btrue()),
        FormulaNode::False => Ok(Formula::bfalse()),
        FormulaNode::Rel { sign, left, right } => Ok(Formula::rel(
            *sign,
            replace_term(alloc, left, old, by)?,
            replace_term(alloc, right, old, by)?,
        )),
        FormulaNode::Not(operand) => Formula::not(alloc, replace_formula(alloc, operand, old, by)?),
        FormulaNode::And(left, right) => Formula::and(
            alloc,
            replace_formula(alloc, left, old, by)?,
            replace_formula(alloc, right, old, by)?,
        ),
        FormulaNode::Or(left, right) => Formula::or(
            alloc,
            replace_formula(alloc, left, old, by)?,
            replace_formula(alloc, right, old, by)?,
        ),
        FormulaNode::Implies(left, right) => Formula::implies(
            alloc,
            replace_formula(alloc, left, old, by)?,
            replace_formula(alloc, right, old, by)?,
        ),
        FormulaNode::Iff(left, right) => Formula::iff(
            alloc,
            replace_formula(alloc, left, old, by)?,
            replace_formula(alloc, right, old, by)?,
        ),
        FormulaNode::Every { name, kind, body } => Formula::every(
            alloc,
            name.copy(alloc)?,
            *kind,
            replace_formula(alloc, body, old, by)?,
        ),
        FormulaNode::Exist { name, kind, body } => Formula::exist(
            alloc,
            name.copy(alloc)?,
            *kind,
            replace_formula(alloc, body, old, by)?,
        ),
    }
}
