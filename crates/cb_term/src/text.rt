//! Terms and formulas as printed text.

ghost use Rattle.std.specs.Prelude.{◌≡◌, ◌++◌, [], ◌∷◌, false, codes, IfOk, OnOk, if◌then◌else◌, slice_get};
ghost use Rattle.std.specs.Option.{option_copied};
ghost use Rattle.cb_term.specs.Text as text;
ghost use Rattle.cb_term.specs.Tree as tree;

use crate::Memory;
use crate::name::{Name, Names};
use crate::sign::{RelSign, TermSign};
use crate::table::{SetNames, SetTable};
use crate::tree::{Formula, FormulaNode, Term, TermNode};
use sqlite_items::{Items, at};
use std::alloc::Global;

/// The text of a formula, the names of sets and elements taken from the table. Exactly one line, without its end. A set or an
/// element that the table lacks, and a loose bound variable, print nothing.
pub fn formula_text(alloc: Global, sets: &SetTable, formula: &Formula) -> Result<Vec<u8>, Memory>
    ensures { IfOk result (λ out. out.items ≡ text.formula_text sets.now.sets.items [] false formula.now) }
{
    let mut out = Vec::new(alloc);
    put_formula(alloc, &mut out, sets, formula)?;
    Ok(out)
}

/// The text of a term, as `formula_text` prints it.
pub fn term_text(alloc: Global, sets: &SetTable, term: &Term) -> Result<Vec<u8>, Memory>
    ensures { IfOk result (λ out. out.items ≡ text.term_text sets.now.sets.items [] false term.now) }
{
    let mut out = Vec::new(alloc);
    let mut bound = Items::new(alloc);
    term_within(alloc, &mut out, sets, &mut bound, false, term)?;
    Ok(out)
}

/// Appends what `formula_text` makes.
pub fn put_formula(
    alloc: Global,
    out: &mut Vec<u8>,
    sets: &SetTable,
    formula: &Formula,
) -> Result<(), Memory>
    ensures { OnOk result (out.new.items ≡ out.old.items ++ text.formula_text sets.now.sets.items [] false formula.now) }
{
    let mut bound = Items::new(alloc);
    formula_within(alloc, out, sets, &mut bound, false, formula)
}

/// Appends a name: `x` as written, `x#k` opened.
pub fn put_name(alloc: Global, out: &mut Vec<u8>, name: &Name) -> Result<(), Memory>
    ensures { OnOk result (out.new.items ≡ out.old.items ++ text.name_text name.now) }
{
    put(out, name.text.as_slice())?;
    if name.number == 0 {
        Ok(())
    } else {
        put(out, b"#")?;
        let digits = name.number.to_string(alloc)?;
        put(out, digits.as_bytes())
    }
}

/// Appends the name of an element of an enumerated set, or nothing if the table lacks it.
pub fn put_element(
    alloc: Global,
    out: &mut Vec<u8>,
    sets: &SetTable,
    set: u32,
    index: u32,
) -> Result<(), Memory>
    ensures { OnOk result (out.new.items ≡ out.old.items ++ text.element_text (slice_get sets.now.sets.items set) index) }
{
    match at(sets.sets.as_slice(), set as usize) {
        Some(set) => put_found(alloc, out, set.elements.get(index as usize)),
        None => Ok(()),
    }
}

fn put_set(alloc: Global, out: &mut Vec<u8>, sets: &SetTable, set: u32) -> Result<(), Memory>
    ensures { OnOk result (out.new.items ≡ out.old.items ++ text.set_text (slice_get sets.now.sets.items set)) }
{
    match at(sets.sets.as_slice(), set as usize) {
        Some(set) => put_name(alloc, out, &set.name),
        None => Ok(()),
    }
}

fn put_bound(alloc: Global, out: &mut Vec<u8>, bound: &Names, k: u32) -> Result<(), Memory>
    ensures { OnOk result (out.new.items ≡ out.old.items ++ text.bound_text bound.now k) }
{
    let k = k as usize;
    if k < bound.len() {
        put_found(alloc, out, bound.get(bound.len() - 1 - k))
    } else {
        Ok(())
    }
}

fn put_found(alloc: Global, out: &mut Vec<u8>, found: Option<&Name>) -> Result<(), Memory>
    ensures { OnOk result (out.new.items ≡ out.old.items ++ text.found_text (option_copied found.entry)) }
{
    match found {
        Some(name) => put_name(alloc, out, name),
        None => Ok(()),
    }
}

fn put_number(alloc: Global, out: &mut Vec<u8>, n: i64) -> Result<(), Memory>
    ensures { OnOk result (out.new.items ≡ out.old.items ++ text.signed_decimal n) }
{
    let digits = n.to_string(alloc)?;
    put(out, digits.as_bytes())
}

fn put(out: &mut Vec<u8>, bytes: &[u8]) -> Result<(), Memory>
    ensures { OnOk result (out.new.items ≡ out.old.items ++ bytes.now) }
{
    out.extend_from_slice(bytes)?;
    Ok(())
}

fn put_if(out: &mut Vec<u8>, wanted: bool, bytes: &[u8]) -> Result<(), Memory>
    ensures { OnOk result (out.new.items ≡ out.old.items ++ text.only_if wanted bytes.now) }
{
    if wanted { put(out, bytes) } else { Ok(()) }
}

fn term_sign(sign: TermSign) -> &'static [u8]
    ensures { result.now ≡ text.term_sign_text sign }
{
    match sign {
        TermSign::Add => b" + ",
        TermSign::Minus => b" - ",
        TermSign::Mul => b" * ",
        TermSign::Div => b" / ",
        TermSign::Mod => b" mod ",
        TermSign::Range => b"..",
        TermSign::Union => b" \\/ ",
        TermSign::Inter => b" /\\ ",
    }
}

fn rel_sign(sign: RelSign) -> &'static [u8]
    ensures { result.now ≡ text.rel_sign_text sign }
{
    match sign {
        RelSign::Equal => b" = ",
        RelSign::Less => b" < ",
        RelSign::AtMost => b" <= ",
        RelSign::Member => b" : ",
        RelSign::Subset => b" <: ",
    }
}

fn is_and(formula: &Formula) -> bool
    ensures { result ≡ text.is_and formula.now }
{
    matches!(&formula.node, FormulaNode::And(_, _))
}

fn is_or(formula: &Formula) -> bool
    ensures { result ≡ text.is_or formula.now }
{
    matches!(&formula.node, FormulaNode::Or(_, _))
}

/// The term, within binders of these names, as an operand if it is `inner`.
#[cycle(text)]
fn term_within(
    alloc: Global,
    out: &mut Vec<u8>,
    sets: &SetTable,
    bound: &mut Names,
    inner: bool,
    term: &Term,
) -> Result<(), Memory>
    ensures text { OnOk result (out.new.items ≡ out.old.items ++ text.term_text sets.now.sets.items bound.old inner term.now) }
    ensures scope { OnOk result (bound.new ≡ bound.old) }
{
    match &term.node {
        TermNode::Var(name) => put_name(alloc, out, name),
        TermNode::Bound(k) => put_bound(alloc, out, bound, *k),
        TermNode::Num(n) => put_number(alloc, out, *n),
        TermNode::Truth(b) => put(out, if *b { b"TRUE" } else { b"FALSE" }),
        TermNode::Elem { set, index } => put_element(alloc, out, sets, *set, *index),
        TermNode::Bin { sign, left, right } => {
            put_if(out, inner, b"(")?;
            term_within(alloc, out, sets, bound, true, left)?;
            put(out, term_sign(*sign))?;
            term_within(alloc, out, sets, bound, true, right)?;
            put_if(out, inner, b")")
        }
        TermNode::Neg(operand) => {
            put(out, b"-")?;
            term_within(alloc, out, sets, bound, true, operand)
        }
        TermNode::Card(operand) => {
            put(out, b"card(")?;
            term_within(alloc, out, sets, bound, false, operand)?;
            put(out, b")")
        }
        TermNode::Listed(terms) => {
            put(out, b"{")?;
            let mut first = true;
            for term in terms.as_slice() {
                put_if(out, !first, b", ")?;
                term_within(alloc, out, sets, bound, false, term)?;
                first = false;
            }
            put(out, b"}")
        }
        TermNode::Elems(set) => put_set(alloc, out, sets, *set),
        TermNode::Truths => put(out, b"BOOL"),
        TermNode::Bool(formula) => {
            put(out, b"bool(")?;
            formula_within(alloc, out, sets, bound, false, formula)?;
            put(out, b")")
        }
    }
}

/// The formula, within binders of these names, as an operand of a connective if it is `inner`.
#[cycle(text)]
fn formula_within(
    alloc: Global,
    out: &mut Vec<u8>,
    sets: &SetTable,
    bound: &mut Names,
    inner: bool,
    formula: &Formula,
) -> Result<(), Memory>
    ensures text { OnOk result (out.new.items ≡ out.old.items ++ text.formula_text sets.now.sets.items bound.old inner formula.now) }
    ensures scope { OnOk result (bound.new ≡ bound.old) }
{
    match &formula.node {
        FormulaNode::True => put(out, b"btrue"),
        FormulaNode::False => put(out, b"bfalse"),
        FormulaNode::Rel { sign, left, right } => {
            term_within(alloc, out, sets, bound, false, left)?;
            put(out, rel_sign(*sign))?;
            term_within(alloc, out, sets, bound, false, right)
        }
        FormulaNode::Not(operand) => {
            if negated_within(alloc, out, sets, bound, inner, operand)? {
                Ok(())
            } else {
                put(out, b"not (")?;
                formula_within(alloc, out, sets, bound, false, operand)?;
                put(out, b")")
            }
        }
        FormulaNode::And(left, right) => {
            put_if(out, inner, b"(")?;
            formula_within(alloc, out, sets, bound, !is_and(left), left)?;
            put(out, b" & ")?;
            formula_within(alloc, out, sets, bound, true, right)?;
            put_if(out, inner, b")")
        }
        FormulaNode::Or(left, right) => {
            put_if(out, inner, b"(")?;
            formula_within(alloc, out, sets, bound, !is_or(left), left)?;
            put(out, b" or ")?;
            formula_within(alloc, out, sets, bound, true, right)?;
            put_if(out, inner, b")")
        }
        FormulaNode::Implies(left, right) => {
            put_if(out, inner, b"(")?;
            formula_within(alloc, out, sets, bound, true, left)?;
            put(out, b" => ")?;
            formula_within(alloc, out, sets, bound, true, right)?;
            put_if(out, inner, b")")
        }
        FormulaNode::Iff(left, right) => {
            put_if(out, inner, b"(")?;
            formula_within(alloc, out, sets, bound, true, left)?;
            put(out, b" <=> ")?;
            formula_within(alloc, out, sets, bound, true, right)?;
            put_if(out, inner, b")")
        }
        FormulaNode::Every { name, body, .. } => {
            put_binder(alloc, out, bound, b"!", name)?;
            formula_within(alloc, out, sets, bound, false, body)?;
            let _inner = bound.pop();
            put(out, b")")
        }
        FormulaNode::Exist { name, body, .. } => {
            put_binder(alloc, out, bound, b"#", name)?;
            formula_within(alloc, out, sets, bound, false, body)?;
            let _inner = bound.pop();
            put(out, b")")
        }
    }
}

/// The negation of the formula, if it is a relation whose sign has a negated form; answers whether it is.
#[cycle(text)]
fn negated_within(
    alloc: Global,
    out: &mut Vec<u8>,
    sets: &SetTable,
    bound: &mut Names,
    inner: bool,
    formula: &Formula,
) -> Result<bool, Memory>
    ensures answer { IfOk result (λ put. put ≡ text.has_negated_sign formula.now) }
    ensures text { IfOk result (λ put. out.new.items
        ≡ out.old.items ++ text.only_if put (text.formula_text sets.now.sets.items bound.old inner (tree.Not formula.now))) }
    ensures scope { OnOk result (bound.new ≡ bound.old) }
{
    match &formula.node {
        FormulaNode::Rel { sign, left, right } => match *sign {
            RelSign::Equal => {
                term_within(alloc, out, sets, bound, false, left)?;
                put(out, b" /= ")?;
                term_within(alloc, out, sets, bound, false, right)?;
                Ok(true)
            }
            RelSign::Member => {
                term_within(alloc, out, sets, bound, false, left)?;
                put(out, b" /: ")?;
                term_within(alloc, out, sets, bound, false, right)?;
                Ok(true)
            }
            _ => Ok(false),
        },
        _ => Ok(false),
    }
}

/// The head of a quantifier; the name is then the innermost one.
fn put_binder(
    alloc: Global,
    out: &mut Vec<u8>,
    bound: &mut Names,
    sign: &[u8],
    name: &Name,
) -> Result<(), Memory>
    ensures text { OnOk result (out.new.items ≡ out.old.items ++ sign.now ++ text.name_text name.now ++ codes ".(") }
    ensures scope { OnOk result (bound.new ≡ bound.old ++ name.now ∷ []) }
{
    put(out, sign)?;
    put_name(alloc, out, name)?;
    put(out, b".(")?;
    bound.push(name.copy(alloc)?)
}
