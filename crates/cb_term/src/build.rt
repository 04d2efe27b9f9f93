//! Terms and formulas from their parts.

ghost use Rattle.std.specs.Prelude.{◌≡◌, IfOk};
ghost use Rattle.cb_term.specs.Tree as tree;

use crate::Memory;
use crate::kind::Kind;
use crate::name::Name;
use crate::sign::{RelSign, TermSign};
use crate::tree::{Formula, FormulaNode, Term, TermNode, Terms};
use std::alloc::Global;

impl Term {
    /// The name `x`.
    pub fn var(x: Name) -> Term
        ensures { result ≡ tree.Var x }
    {
        Term {
            node: TermNode::Var(x),
        }
    }

    /// The bound variable with so many binders between it and its own.
    pub fn bound(index: u32) -> Term
        ensures { result ≡ tree.Bound index }
    {
        Term {
            node: TermNode::Bound(index),
        }
    }

    /// A number.
    pub fn num(n: i64) -> Term
        ensures { result ≡ tree.Num n }
    {
        Term {
            node: TermNode::Num(n),
        }
    }

    /// TRUE or FALSE.
    pub fn truth(b: bool) -> Term
        ensures { result ≡ tree.Truth b }
    {
        Term {
            node: TermNode::Truth(b),
        }
    }

    /// An element of an enumerated set.
    pub fn elem(set: u32, index: u32) -> Term
        ensures { result ≡ tree.Elem set index }
    {
        Term {
            node: TermNode::Elem { set, index },
        }
    }

    /// An enumerated set.
    pub fn elems(set: u32) -> Term
        ensures { result ≡ tree.Elems set }
    {
        Term {
            node: TermNode::Elems(set),
        }
    }

    /// BOOL.
    pub fn truths() -> Term
        ensures { result ≡ tree.Truths }
    {
        Term {
            node: TermNode::Truths,
        }
    }

    /// `{a, b}`.
    pub fn listed(terms: Terms) -> Term
        ensures { result ≡ tree.Listed (tree.trees_of terms) }
    {
        Term {
            node: TermNode::Listed(terms),
        }
    }

    /// A sign between two terms.
    pub fn bin(alloc: Global, sign: TermSign, left: Term, right: Term) -> Result<Term, Memory>
        ensures { IfOk result (λ t. t ≡ tree.Bin sign left right) }
    {
        Ok(Term {
            node: TermNode::Bin {
                sign,
                left: Box::new(alloc, left)?,
                right: Box::new(alloc, right)?,
            },
        })
    }

    /// `-t`.
    pub fn neg(alloc: Global, operand: Term) -> Result<Term, Memory>
        ensures { IfOk result (λ t. t ≡ tree.Neg operand) }
    {
        Ok(Term {
            node: TermNode::Neg(Box::new(alloc, operand)?),
        })
    }

    /// `card(t)`.
    pub fn card(alloc: Global, operand: Term) -> Result<Term, Memory>
        ensures { IfOk result (λ t. t ≡ tree.Card operand) }
    {
        Ok(Term {
            node: TermNode::Card(Box::new(alloc, operand)?),
        })
    }

    /// `bool(F)`.
    pub fn bool_of(alloc: Global, formula: Formula) -> Result<Term, Memory>
        ensures { IfOk result (λ t. t ≡ tree.Test formula) }
    {
        Ok(Term {
            node: TermNode::Bool(Box::new(alloc, formula)?),
        })
    }
}

impl Formula {
    /// `btrue`.
    pub fn btrue() -> Formula
        ensures { result ≡ tree.True }
    {
        Formula {
            node: FormulaNode::True,
        }
    }

    /// `bfalse`.
    pub fn bfalse() -> Formula
        ensures { result ≡ tree.False }
    {
        Formula {
            node: FormulaNode::False,
        }
    }

    /// A relation between two terms.
    pub fn rel(sign: RelSign, left: Term, right: Term) -> Formula
        ensures { result ≡ tree.Rel sign left right }
    {
        Formula {
            node: FormulaNode::Rel { sign, left, right },
        }
    }

    /// `not (F)`.
    pub fn not(alloc: Global, operand: Formula) -> Result<Formula, Memory>
        ensures { IfOk result (λ f. f ≡ tree.Not operand) }
    {
        Ok(Formula {
            node: FormulaNode::Not(Box::new(alloc, operand)?),
        })
    }

    /// `F & G`.
    pub fn and(alloc: Global, left: Formula, right: Formula) -> Result<Formula, Memory>
        ensures { IfOk result (λ f. f ≡ tree.And left right) }
    {
        Ok(Formula {
            node: FormulaNode::And(Box::new(alloc, left)?, Box::new(alloc, right)?),
        })
    }

    /// `F or G`.
    pub fn or(alloc: Global, left: Formula, right: Formula) -> Result<Formula, Memory>
        ensures { IfOk result (λ f. f ≡ tree.Or left right) }
    {
        Ok(Formula {
            node: FormulaNode::Or(Box::new(alloc, left)?, Box::new(alloc, right)?),
        })
    }

    /// `F => G`.
    pub fn implies(alloc: Global, left: Formula, right: Formula) -> Result<Formula, Memory>
        ensures { IfOk result (λ f. f ≡ tree.Implies left right) }
    {
        Ok(Formula {
            node: FormulaNode::Implies(Box::new(alloc, left)?, Box::new(alloc, right)?),
        })
    }

    /// `F <=> G`.
    pub fn iff(alloc: Global, left: Formula, right: Formula) -> Result<Formula, Memory>
        ensures { IfOk result (λ f. f ≡ tree.Iff left right) }
    {
        Ok(Formula {
            node: FormulaNode::Iff(Box::new(alloc, left)?, Box::new(alloc, right)?),
        })
    }

    /// `!x.(F)`, x being the variable bound just outside the body.
    pub fn every(alloc: Global, name: Name, kind: Kind, body: Formula) -> Result<Formula, Memory>
        ensures { IfOk result (λ f. f ≡ tree.Every name kind body) }
    {
        Ok(Formula {
            node: FormulaNode::Every {
                name,
                kind,
                body: Box::new(alloc, body)?,
            },
        })
    }

    /// `#x.(F)`, x being the variable bound just outside the body.
    pub fn exist(alloc: Global, name: Name, kind: Kind, body: Formula) -> Result<Formula, Memory>
        ensures { IfOk result (λ f. f ≡ tree.Exist name kind body) }
    {
        Ok(Formula {
            node: FormulaNode::Exist {
                name,
                kind,
                body: Box::new(alloc, body)?,
            },
        })
    }
}
