//! Whether a name stands free in a tree.

ghost use Rattle.std.specs.Prelude.{◌≡◌};
ghost use Rattle.cb_term.specs.Free as spec;

use crate::name::Name;
use crate::tree::{Formula, FormulaNode, Term, TermNode};

/// Whether the name stands free in the term.
#[cycle(free)]
pub fn free_in_term(term: &Term, name: &Name) -> bool
    ensures { result ≡ spec.free_in_term name.now term.now }
{
    match &term.node {
        TermNode::Var(other) => other.is_same(name),
        TermNode::Bound(_)
        | TermNode::Num(_)
        | TermNode::Truth(_)
        | TermNode::Elem { .. }
        | TermNode::Elems(_)
        | TermNode::Truths => false,
        TermNode::Bin { left, right, .. } => free_in_term(left, name) || free_in_term(right, name),
        TermNode::Neg(operand) | TermNode::Card(operand) => free_in_term(operand, name),
        TermNode::Listed(terms) => {
            for term in terms.as_slice() {
                if free_in_term(term, name) {
                    return true;
                }
            }
            false
        }
        TermNode::Bool(formula) => free_in(formula, name),
    }
}

/// Whether the name stands free in the formula.
#[cycle(free)]
pub fn free_in(formula: &Formula, name: &Name) -> bool
    ensures { result ≡ spec.free_in name.now formula.now }
{
    match &formula.node {
        FormulaNode::True | FormulaNode::False => false,
        FormulaNode::Rel { left, right, .. } => free_in_term(left, name)
            || free_in_term(right, name),
        FormulaNode::Not(operand) => free_in(operand, name),
        FormulaNode::And(left, right)
        | FormulaNode::Or(left, right)
        | FormulaNode::Implies(left, right)
        | FormulaNode::Iff(left, right) => free_in(left, name) || free_in(right, name),
        FormulaNode::Every { body, .. } | FormulaNode::Exist { body, .. } => free_in(body, name),
    }
}
