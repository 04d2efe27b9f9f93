//! How many nodes a tree has.

ghost use Rattle.std.specs.Prelude.{◌≡◌, ◌-◌, ◌^◌, min};
ghost use Rattle.cb_term.specs.Size as size;

use crate::tree::{Formula, FormulaNode, Term, TermNode};

/// How many nodes the term has: one for each variant of `TermNode` and `FormulaNode` in it. 2^64 - 1 where there are more.
#[cycle(nodes)]
pub fn term_nodes(term: &Term) -> u64
    ensures { result ≡ min (size.term_nodes term.now) (2 ^ 64 - 1) }
{
    match &term.node {
        TermNode::Var(_)
        | TermNode::Bound(_)
        | TermNode::Num(_)
        | TermNode::Truth(_)
        | TermNode::Elem { .. }
        | TermNode::Elems(_)
        | TermNode::Truths => 1,
        TermNode::Bin { left, right, .. } => term_nodes(left)
            .saturating_add(term_nodes(right))
            .saturating_add(1),
        TermNode::Neg(operand) | TermNode::Card(operand) => term_nodes(operand).saturating_add(1),
        TermNode::Listed(terms) => {
            let mut sum = 0u64;
            for term in terms.as_slice() {
                sum = sum.saturating_add(term_nodes(term));
            }
            sum.saturating_add(1)
        }
        TermNode::Bool(formula) => nodes(formula).saturating_add(1),
    }
}

/// How many nodes the formula has: one for each variant of `TermNode` and `FormulaNode` in it. 2^64 - 1 where there are more.
#[cycle(nodes)]
pub fn nodes(formula: &Formula) -> u64
    ensures { result ≡ min (size.formula_nodes formula.now) (2 ^ 64 - 1) }
{
    match &formula.node {
        FormulaNode::True | FormulaNode::False => 1,
        FormulaNode::Rel { left, right, .. } => term_nodes(left)
            .saturating_add(term_nodes(right))
            .saturating_add(1),
        FormulaNode::Not(operand) => nodes(operand).saturating_add(1),
        FormulaNode::And(left, right)
        | FormulaNode::Or(left, right)
        | FormulaNode::Implies(left, right)
        | FormulaNode::Iff(left, right) => nodes(left)
            .saturating_add(nodes(right))
            .saturating_add(1),
        FormulaNode::Every { body, .. } | FormulaNode::Exist { body, .. } => {
            nodes(body).saturating_add(1)
        }
    }
}
