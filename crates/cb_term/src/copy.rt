//! Copies of trees.

ghost use Rattle.std.specs.Prelude.{◌≡◌, IfOk};

use crate::Memory;
use crate::tree::{Formula, FormulaNode, Term, TermNode};
use sqlite_items::Items;
use std::alloc::Global;

impl Term {
    #[cycle(copy)]
    /// The same term again.
    pub fn copy(&self, alloc: Global) -> Result<Term, Memory>
        ensures { IfOk result (λ t. t ≡ self.now) }
    {
        match &self.node {
            TermNode::Var(name) => Ok(Term::var(name.copy(alloc)?)),
            TermNode::Bound(index) => Ok(Term::bound(*index)),
            TermNode::Num(n) => Ok(Term::num(*n)),
            TermNode::Truth(b) => Ok(Term::truth(*b)),
            TermNode::Elem { set, index } => Ok(Term::elem(*set, *index)),
            TermNode::Bin { sign, left, right } => Term::bin(
                alloc,
                *sign,
                left.copy(alloc)?,
                right.copy(alloc)?,
            ),
            TermNode::Neg(operand) => Term::neg(alloc, operand.copy(alloc)?),
            TermNode::Card(operand) => Term::card(alloc, operand.copy(alloc)?),
            TermNode::Listed(terms) => {
                let mut copies = Items::new(alloc);
                for term in terms.as_slice() {
                    copies.push(term.copy(alloc)?)?;
                }
                Ok(Term::listed(copies))
            }
            TermNode::Elems(set) => Ok(Term::elems(*set)),
            TermNode::Truths => Ok(Term::truths()),
            TermNode::Bool(formula) => Term::bool_of(alloc, formula.copy(alloc)?),
        }
    }
}

impl Formula {
    #[cycle(copy)]
    /// The same formula again.
    pub fn copy(&self, alloc: Global) -> Result<Formula, Memory>
        ensures { IfOk result (λ f. f ≡ self.now) }
    {
        match &self.node {
            FormulaNode::True => Ok(Formula::btrue()),
            FormulaNode::False => Ok(Formula::bfalse()),
            FormulaNode::Rel { sign, left, right } => Ok(Formula::rel(
                *sign,
                left.copy(alloc)?,
                right.copy(alloc)?,
            )),
            FormulaNode::Not(operand) => Formula::not(alloc, operand.copy(alloc)?),
            FormulaNode::And(left, right) => Formula::and(
                alloc,
                left.copy(alloc)?,
                right.copy(alloc)?,
            ),
            FormulaNode::Or(left, right) => Formula::or(
                alloc,
                left.copy(alloc)?,
                right.copy(alloc)?,
            ),
            FormulaNode::Implies(left, right) => Formula::implies(
                alloc,
                left.copy(alloc)?,
                right.copy(alloc)?,
            ),
            FormulaNode::Iff(left, right) => Formula::iff(
                alloc,
                left.copy(alloc)?,
                right.copy(alloc)?,
            ),
            FormulaNode::Every { name, kind, body } => Formula::every(
                alloc,
                name.copy(alloc)?,
                *kind,
                body.copy(alloc)?,
            ),
            FormulaNode::Exist { name, kind, body } => Formula::exist(
                alloc,
                name.copy(alloc)?,
                *kind,
                body.copy(alloc)?,
            ),
        }
    }
}
