//! Printing domains and substitutions.

ghost use Rattle.std.specs.Prelude.{◌≡◌, ◌++◌, OnOk, true, false};
ghost use Rattle.cb_amn_print.specs.Machines as text;

use crate::Memory;
use crate::formulas::{put_formula, put_term};
use crate::tokens::{put, put_if, put_name, put_number};
use cb_lex::raw::domain::{RawBound, RawDomain, RawEnd};
use cb_lex::raw::name::RawName;
use cb_lex::raw::subst::{RawSubst, RawSubstNode};
use std::alloc::Global;

/// Appends names with commas between them.
pub(crate) fn put_names(alloc: Global, out: &mut Vec<u8>, names: &[RawName]) -> Result<(), Memory>
    ensures { OnOk result (out.new.items ≡ out.old.items ++ text.names_text true names.now) }
{
    let mut first = true;
    for name in names {
        put_if(out, !first, b", ")?;
        put_name(alloc, out, name)?;
        first = false;
    }
    Ok(())
}

fn put_end(alloc: Global, out: &mut Vec<u8>, end: &RawEnd) -> Result<(), Memory>
    ensures { OnOk result (out.new.items ≡ out.old.items ++ text.end_text end.now) }
{
    match end {
        RawEnd::Number { value, .. } => put_number(alloc, out, *value),
        RawEnd::MaxInt(_) => put(out, b"MAXINT "),
        RawEnd::MinInt(_) => put(out, b"MININT "),
        RawEnd::Name(name) => put_name(alloc, out, name),
    }
}

fn put_bound(alloc: Global, out: &mut Vec<u8>, bound: &RawBound) -> Result<(), Memory>
    ensures { OnOk result (out.new.items ≡ out.old.items ++ text.bound_text bound.now) }
{
    put_if(out, bound.minus, b"- ")?;
    put_end(alloc, out, &bound.end)
}

/// Appends the text of a domain.
pub fn put_domain(alloc: Global, out: &mut Vec<u8>, domain: &RawDomain) -> Result<(), Memory>
    ensures { OnOk result (out.new.items ≡ out.old.items ++ text.domain_text domain.now) }
{
    match domain {
        RawDomain::Range { low, high } => {
            put_bound(alloc, out, low)?;
            put(out, b".. ")?;
            put_bound(alloc, out, high)
        }
        RawDomain::Nat(_) => put(out, b"NAT "),
        RawDomain::Nat1(_) => put(out, b"NAT1 "),
        RawDomain::Int(_) => put(out, b"INT "),
        RawDomain::Truths(_) => put(out, b"BOOL "),
        RawDomain::Name(name) => put_name(alloc, out, name),
    }
}

/// Appends the text of a substitution, as the right side of a `||` if it is `inner`.
pub fn put_subst(
    alloc: Global,
    out: &mut Vec<u8>,
    inner: bool,
    subst: &RawSubst,
) -> Result<(), Memory>
    ensures { OnOk result (out.new.items ≡ out.old.items ++ text.subst_text inner subst.now) }
{
    match &subst.node {
        RawSubstNode::Skip => put(out, b"skip "),
        RawSubstNode::Assign { target, term } => {
            put_name(alloc, out, target)?;
            put(out, b":= ")?;
            put_term(alloc, out, false, term)
        }
        RawSubstNode::Among { target, domain } => {
            put_name(alloc, out, target)?;
            put(out, b":: ")?;
            put_domain(alloc, out, domain)
        }
        RawSubstNode::If { condition, then } => {
            put(out, b"IF ")?;
            put_formula(alloc, out, false, condition)?;
            put(out, b"THEN ")?;
            put_subst(alloc, out, false, then)?;
            put(out, b"END ")
        }
        RawSubstNode::IfElse {
            condition,
            then,
            otherwise,
        } => {
            put(out, b"IF ")?;
            put_formula(alloc, out, false, condition)?;
            put(out, b"THEN ")?;
            put_subst(alloc, out, false, then)?;
            put(out, b"ELSE ")?;
            put_subst(alloc, out, false, otherwise)?;
            put(out, b"END ")
        }
        RawSubstNode::Choice(sides) => {
            put(out, b"CHOICE ")?;
            let mut first = true;
            for side in sides.as_slice() {
                put_if(out, !first, b"OR ")?;
                put_subst(alloc, out, false, side)?;
                first = false;
            }
            put(out, b"END ")
        }
        RawSubstNode::Any {
            name,
            condition,
            body,
        } => {
            put(out, b"ANY ")?;
            put_name(alloc, out, name)?;
            put(out, b"WHERE ")?;
            put_formula(alloc, out, false, condition)?;
            put(out, b"THEN ")?;
            put_subst(alloc, out, false, body)?;
            put(out, b"END ")
        }
        RawSubstNode::Parallel(left, right) => {
            put_if(out, inner, b"BEGIN ")?;
            put_subst(alloc, out, false, left)?;
            put(out, b"|| ")?;
            put_subst(alloc, out, true, right)?;
            put_if(out, inner, b"END ")
        }
    }
}
