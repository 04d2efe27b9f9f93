//! Printing terms and formulas.

ghost use Rattle.std.specs.Prelude.{◌≡◌, ◌++◌, IfOk, OnOk, true, false};
ghost use Rattle.cb_amn_print.specs.Formulas as text;

use crate::Memory;
use crate::tokens::{atom_text, operator_text, put, put_if, put_name, put_number, relation_text};
use cb_lex::raw::term::{RawFormula, RawFormulaNode, RawTerm, RawTermNode};
use std::alloc::Global;

/// The text of a formula, which is read again as this formula, places aside.
pub fn print_formula(alloc: Global, raw: &RawFormula) -> Result<Vec<u8>, Memory>
    ensures { IfOk result (λ out. out.items ≡ text.formula_text false raw.now) }
{
    let mut out = Vec::new(alloc);
    put_formula(alloc, &mut out, false, raw)?;
    Ok(out)
}

/// The text of a term, which is read again as this term, places aside.
pub fn print_term(alloc: Global, raw: &RawTerm) -> Result<Vec<u8>, Memory>
    ensures { IfOk result (λ out. out.items ≡ text.term_text false raw.now) }
{
    let mut out = Vec::new(alloc);
    put_term(alloc, &mut out, false, raw)?;
    Ok(out)
}

fn is_and(formula: &RawFormula) -> bool
    ensures { result ≡ text.is_and formula.now }
{
    matches!(&formula.node, RawFormulaNode::And(_, _))
}

fn is_or(formula: &RawFormula) -> bool
    ensures { result ≡ text.is_or formula.now }
{
    matches!(&formula.node, RawFormulaNode::Or(_, _))
}

fn is_arrow(formula: &RawFormula) -> bool
    ensures { result ≡ text.is_arrow formula.now }
{
    matches!(
        &formula.node,
        RawFormulaNode::Implies(_, _) | RawFormulaNode::Equivalent(_, _)
    )
}

/// Appends the text of a term, as an operand if it is `inner`.
#[cycle(text)]
pub fn put_term(alloc: Global, out: &mut Vec<u8>, inner: bool, term: &RawTerm) -> Result<(), Memory>
    ensures { OnOk result (out.new.items ≡ out.old.items ++ text.term_text inner term.now) }
{
    match &term.node {
        RawTermNode::Number { value, .. } => put_number(alloc, out, *value),
        RawTermNode::Name(name) => put_name(alloc, out, name),
        RawTermNode::Atom { atom, .. } => put(out, atom_text(*atom)),
        RawTermNode::Binary {
            operator,
            left,
            right,
            ..
        } => {
            put_if(out, inner, b"( ")?;
            put_term(alloc, out, true, left)?;
            put(out, operator_text(*operator))?;
            put_term(alloc, out, true, right)?;
            put_if(out, inner, b") ")
        }
        RawTermNode::Minus { term, .. } => {
            put(out, b"- ")?;
            put_term(alloc, out, true, term)
        }
        RawTermNode::Card { term, .. } => {
            put(out, b"card ( ")?;
            put_term(alloc, out, false, term)?;
            put(out, b") ")
        }
        RawTermNode::TruthOf { formula, .. } => {
            put(out, b"bool ( ")?;
            put_formula(alloc, out, false, formula)?;
            put(out, b") ")
        }
        RawTermNode::Listed { terms, .. } => {
            put(out, b"{ ")?;
            let mut first = true;
            for term in terms.as_slice() {
                put_if(out, !first, b", ")?;
                put_term(alloc, out, false, term)?;
                first = false;
            }
            put(out, b"} ")
        }
    }
}

/// Appends the text of a formula, as an operand of a connective if it is `inner`.
#[cycle(text)]
pub fn put_formula(
    alloc: Global,
    out: &mut Vec<u8>,
    inner: bool,
    formula: &RawFormula,
) -> Result<(), Memory>
    ensures { OnOk result (out.new.items ≡ out.old.items ++ text.formula_text inner formula.now) }
{
    match &formula.node {
        RawFormulaNode::True => put(out, b"btrue "),
        RawFormulaNode::False => put(out, b"bfalse "),
        RawFormulaNode::Not(operand) => {
            put(out, b"not ( ")?;
            put_formula(alloc, out, false, operand)?;
            put(out, b") ")
        }
        RawFormulaNode::And(left, right) => {
            put_if(out, inner, b"( ")?;
            put_formula(alloc, out, !is_and(left), left)?;
            put(out, b"& ")?;
            put_formula(alloc, out, true, right)?;
            put_if(out, inner, b") ")
        }
        RawFormulaNode::Or(left, right) => {
            put_if(out, inner, b"( ")?;
            put_formula(alloc, out, !is_or(left), left)?;
            put(out, b"or ")?;
            put_formula(alloc, out, true, right)?;
            put_if(out, inner, b") ")
        }
        RawFormulaNode::Implies(left, right) => {
            put_if(out, inner, b"( ")?;
            put_formula(alloc, out, true, left)?;
            put(out, b"=> ")?;
            put_formula(alloc, out, true, right)?;
            put_if(out, inner, b") ")
        }
        RawFormulaNode::Equivalent(left, right) => {
            put_if(out, inner, b"( ")?;
            put_formula(alloc, out, true, left)?;
            put(out, b"<=> ")?;
            put_formula(alloc, out, true, right)?;
            put_if(out, inner, b") ")
        }
        RawFormulaNode::Relation {
            relation,
            left,
            right,
            ..
        } => {
            put_term(alloc, out, false, left)?;
            put(out, relation_text(*relation))?;
            put_term(alloc, out, false, right)
        }
        RawFormulaNode::Every { name, domain, body } => {
            put(out, b"! ")?;
            put_name(alloc, out, name)?;
            put(out, b". ( ")?;
            put_formula(alloc, out, is_arrow(domain), domain)?;
            put(out, b"=> ")?;
            put_formula(alloc, out, is_arrow(body), body)?;
            put(out, b") ")
        }
        RawFormulaNode::Exists { name, body } => {
            put(out, b"# ")?;
            put_name(alloc, out, name)?;
            put(out, b". ( ")?;
            put_formula(alloc, out, is_arrow(body), body)?;
            put(out, b") ")
        }
    }
}
