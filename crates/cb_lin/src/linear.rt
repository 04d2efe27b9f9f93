//! The linear form of a term, and sums of rows.

ghost use Rattle.std.specs.Prelude.{◌≡◌, IfOk, Some, None, IsTrue, ◌&&◌, length, map, if◌then◌else◌};
ghost use Rattle.cb_lin.specs.Form.{zero_form, form_of_term, summed};
ghost use Rattle.cb_lin.specs.Small.{small_form, small_all, small_sums, are_apart, none_zero};
ghost use Rattle.cb_lin.specs.Steps as steps;
ghost use Rattle.cb_lin.specs.Rows.{form_of, opt_form, sum_of, opt_sum};

use crate::row::Row;
use crate::sum::{Sum, add_sum, number_sum, scale, single_sum, zero};
use cb_term::Memory;
use cb_term::sign::TermSign;
use cb_term::tree::{Term, TermNode};
use std::alloc::Global;

// Whether the form of a term with this sign is made of those of its sides.
fn is_linear(sign: TermSign) -> bool
    ensures { result ≡ steps.is_linear sign }
{
    match sign {
        TermSign::Add | TermSign::Minus | TermSign::Mul => true,
        _ => false,
    }
}

fn sum_of_two(alloc: Global, mut f: Sum, g: &Sum) -> Result<Option<Sum>, Memory>
    ensures { IfOk result (λ o. opt_sum o ≡ steps.plus (sum_of f) (sum_of g.now)) }
{
    if add_sum(alloc, &mut f, g)? {
        Ok(Some(f))
    } else {
        Ok(None)
    }
}

// The product: a factor without parts scales the other, and else it is one part.
fn product(alloc: Global, term: &Term, f: &Sum, g: &Sum) -> Result<Option<Sum>, Memory>
    ensures { IfOk result (λ o. opt_sum o ≡ steps.product term.now (sum_of f.now) (sum_of g.now) (sum_of f.now).parts (sum_of g.now).parts) }
{
    if g.parts.is_empty() {
        scale(alloc, &f.parts, f.constant, g.constant)
    } else if f.parts.is_empty() {
        scale(alloc, &g.parts, g.constant, f.constant)
    } else {
        Ok(Some(single_sum(alloc, term)?))
    }
}

// The form of a term with this sign, from those of its sides.
fn joined(alloc: Global, sign: TermSign, term: &Term, f: Sum, g: Sum) -> Result<Option<Sum>, Memory>
    ensures { IfOk result (λ o. opt_sum o ≡ steps.join sign term.now (sum_of f) (sum_of g)) }
{
    match sign {
        TermSign::Add => sum_of_two(alloc, f, &g),
        TermSign::Minus => match scale(alloc, &g.parts, g.constant, -1)? {
            Some(g) => sum_of_two(alloc, f, &g),
            None => Ok(None),
        },
        TermSign::Mul => product(alloc, term, &f, &g),
        TermSign::Div | TermSign::Mod | TermSign::Range | TermSign::Union | TermSign::Inter => {
            Ok(Some(single_sum(alloc, term)?))
        }
    }
}

// The linear form, unless a number in that of a subterm passes 2^100.
fn linear_sum(alloc: Global, term: &Term) -> Result<Option<Sum>, Memory>
    ensures { IfOk result (λ o. opt_sum o ≡ steps.linear_of term.now) }
{
    match &term.node {
        TermNode::Num(n) => Ok(number_sum(alloc, *n)),
        TermNode::Neg(operand) => match linear_sum(alloc, operand)? {
            Some(f) => scale(alloc, &f.parts, f.constant, -1),
            None => Ok(None),
        },
        TermNode::Bin { sign, left, right } => {
            if !is_linear(*sign) {
                return Ok(Some(single_sum(alloc, term)?));
            }
            let Some(f) = linear_sum(alloc, left)? else {
                return Ok(None);
            };
            let Some(g) = linear_sum(alloc, right)? else {
                return Ok(None);
            };
            joined(alloc, *sign, term, f, g)
        }
        TermNode::Var(_)
        | TermNode::Bound(_)
        | TermNode::Truth(_)
        | TermNode::Elem { .. }
        | TermNode::Card(_)
        | TermNode::Listed(_)
        | TermNode::Elems(_)
        | TermNode::Truths
        | TermNode::Bool(_) => Ok(Some(single_sum(alloc, term)?)),
    }
}

// The rows times their multipliers, added from the left, unless a number passes 2^100.
fn combined(alloc: Global, rows: &[Row], multipliers: &[i64]) -> Result<Option<Sum>, Memory>
    requires { length rows.now ≡ length multipliers.now }
    ensures { IfOk result (λ o. opt_sum o ≡ steps.combine_from zero_form (map form_of rows.now) multipliers.now) }
{
    let mut sum = zero(alloc);
    for i in 0..rows.len() {
        let row = &rows[i];
        let by = i128::from(multipliers[i]);
        let Some(scaled) = scale(alloc, &row.parts, row.constant, by)? else {
            return Ok(None);
        };
        if !add_sum(alloc, &mut sum, &scaled)? {
            return Ok(None);
        }
    }
    Ok(Some(sum))
}

// The sum as a row.
fn row_of(sum: Sum) -> Row
    requires apart { IsTrue (are_apart sum.parts.items) }
    requires nonzero { IsTrue (none_zero sum.parts.items) }
    requires small { IsTrue (small_form (sum_of sum)) }
    ensures { form_of result ≡ sum_of sum }
{
    let Sum { parts, constant } = sum;
    Row { parts, constant }
}

/// The linear form of the term: a number is a constant; sums, differences and minus go part by part; a product one of whose factors
/// has a form without parts is scaled; every other term is one part with the coefficient 1. None exactly where a number in it,
/// or in the form of a term in it whose form is taken, passes 2^100 in size.
pub fn linear(alloc: Global, term: &Term) -> Result<Option<Row>, Memory>
    ensures { IfOk result (λ o. opt_form o ≡ (if small_all term.now then Some (form_of_term term.now) else None)) }
{
    match linear_sum(alloc, term)? {
        Some(sum) => Ok(Some(row_of(sum))),
        None => Ok(None),
    }
}

/// The rows times their multipliers, added from the left. None exactly where a number in a row times its multiplier, or in the
/// sum so far, passes 2^100 in size.
pub fn combine(alloc: Global, rows: &[Row], multipliers: &[i64]) -> Result<Option<Row>, Memory>
    requires { length rows.now ≡ length multipliers.now }
    ensures { let forms = map form_of rows.now in
        IfOk result (λ o. opt_form o ≡ (if small_sums zero_form forms multipliers.now then Some (summed zero_form forms multipliers.now) else None)) }
{
    match combined(alloc, rows, multipliers)? {
        Some(sum) => Ok(Some(row_of(sum))),
        None => Ok(None),
    }
}
