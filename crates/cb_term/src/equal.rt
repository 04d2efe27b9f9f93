//! When two trees are the same, the written names of bound variables aside.

ghost use Rattle.std.specs.Prelude.{◌≡◌};
ghost use Rattle.cb_term.specs.Same as spec;

use crate::tree::{Formula, FormulaNode, Term, TermNode};

/// Whether the terms are the same, the written names of bound variables aside.
#[cycle(equal)]
pub fn equal_terms(a: &Term, b: &Term) -> bool
    ensures { result ≡ spec.same_term a.now b.now }
{
    match &a.node {
        TermNode::Var(x) => match &b.node {
            TermNode::Var(y) => x.is_same(y),
            _ => false,
        },
        TermNode::Bound(j) => match &b.node {
            TermNode::Bound(k) => *j == *k,
            _ => false,
        },
        TermNode::Num(m) => match &b.node {
            TermNode::Num(n) => *m == *n,
            _ => false,
        },
        TermNode::Truth(p) => match &b.node {
            TermNode::Truth(q) => *p == *q,
            _ => false,
        },
        TermNode::Elem { set, index } => match &b.node {
            TermNode::Elem {
                set: set2,
                index: index2,
            } => *set == *set2 && *index == *index2,
            _ => false,
        },
        TermNode::Bin { sign, left, right } => match &b.node {
            TermNode::Bin {
                sign: sign2,
                left: left2,
                right: right2,
            } => sign.is_same(*sign2) && equal_terms(left, left2) && equal_terms(right, right2),
            _ => false,
        },
        TermNode::Neg(x) => match &b.node {
            TermNode::Neg(y) => equal_terms(x, y),
            _ => false,
        },
        TermNode::Card(x) => match &b.node {
            TermNode::Card(y) => equal_terms(x, y),
            _ => false,
        },
        TermNode::Listed(terms) => match &b.node {
            TermNode::Listed(others) => {
                if terms.len() != others.len() {
                    return false;
                }
                for (i, term) in terms.as_slice().iter().enumerate() {
                    if !equal_terms(term, &others.as_slice()[i]) {
                        return false;
                    }
                }
                true
            }
            _ => false,
        },
        TermNode::Elems(set) => match &b.node {
            TermNode::Elems(set2) => *set == *set2,
            _ => false,
        },
        TermNode::Truths => matches!(&b.node, TermNode::Truths),
        TermNode::Bool(f) => match &b.node {
            TermNode::Bool(g) => equal(f, g),
            _ => false,
        },
    }
}

/// Whether the formulas are the same, the written names of bound variables aside.
#[cycle(equal)]
pub fn equal(a: &Formula, b: &Formula) -> bool
    ensures { result ≡ spec.same a.now b.now }
{
    match &a.node {
        FormulaNode::True => matches!(&b.node, FormulaNode::True),
        FormulaNode::False => matches!(&b.node, FormulaNode::False),
        FormulaNode::Rel { sign, left, right } => match &b.node {
            FormulaNode::Rel {
                sign: sign2,
                left: left2,
                right: right2,
            } => sign.is_same(*sign2) && equal_terms(left, left2) && equal_terms(right, right2),
            _ => false,
        },
        FormulaNode::Not(f) => match &b.node {
            FormulaNode::Not(g) => equal(f, g),
            _ => false,
        },
        FormulaNode::And(f, g) => match &b.node {
            FormulaNode::And(f2, g2) => equal(f, f2) && equal(g, g2),
            _ => false,
        },
        FormulaNode::Or(f, g) => match &b.node {
            FormulaNode::Or(f2, g2) => equal(f, f2) && equal(g, g2),
            _ => false,
        },
        FormulaNode::Implies(f, g) => match &b.node {
            FormulaNode::Implies(f2, g2) => equal(f, f2) && equal(g, g2),
            _ => false,
        },
        FormulaNode::Iff(f, g) => match &b.node {
            FormulaNode::Iff(f2, g2) => equal(f, f2) && equal(g, g2),
            _ => false,
        },
        FormulaNode::Every { kind, body, .. } => match &b.node {
            FormulaNode::Every {
                kind: kind2,
                body: body2,
                ..
            } => kind.is_same(*kind2) && equal(body, body2),
            _ => false,
        },
        FormulaNode::Exist { kind, body, .. } => match &b.node {
            FormulaNode::Exist {
                kind: kind2,
                body: body2,
                ..
            } => kind.is_same(*kind2) && equal(body, body2),
            _ => false,
        },
    }
}
