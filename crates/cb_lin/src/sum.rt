//! Sums of terms while they are made.

ghost use Rattle.std.specs.Prelude.{◌≡◌, ◌<◌, ◌≤◌, IfOk, Some, [], length, slice_set, slice_index_or, ◌+ℤ◌};
ghost use Rattle.std.specs.Option.{option_map};
ghost use Rattle.cb_lin.specs.Form.{zero_form, single};
ghost use Rattle.cb_lin.specs.Steps.{small, form, place, add_part, plus, scale_parts, scaled, when};
ghost use Rattle.cb_lin.specs.Rows.{sum_of, opt_sum};

use crate::small::{fits, small_product, small_sum};
use cb_term::Memory;
use cb_term::equal::equal_terms;
use cb_term::tree::Term;
use std::alloc::Global;

/// A sum of terms, each times a coefficient, and of a constant.
#[derive(Drop)]
pub struct Sum {
    pub parts: Vec<(Term, i128)>,
    pub constant: i128,
}

/// The sum of nothing.
pub fn zero(alloc: Global) -> Sum
    ensures { sum_of result ≡ zero_form }
{
    Sum {
        parts: Vec::new(alloc),
        constant: 0,
    }
}

/// A term with the coefficient 1.
pub fn single_sum(alloc: Global, term: &Term) -> Result<Sum, Memory>
    ensures { IfOk result (λ s. sum_of s ≡ single term.now) }
{
    let mut parts = Vec::new(alloc);
    parts.push((term.copy(alloc)?, 1))?;
    Ok(Sum { parts, constant: 0 })
}

/// A number alone, unless it passes 2^100.
pub fn number_sum(alloc: Global, n: i64) -> Option<Sum>
    ensures { opt_sum result ≡ form (Some []) (small n) }
{
    let constant = i128::from(n);
    if fits(constant) {
        Some(Sum {
            parts: Vec::new(alloc),
            constant,
        })
    } else {
        None
    }
}

// The place of the part with this term, or the number of parts.
fn place_of(parts: &[(Term, i128)], term: &Term) -> usize
    ensures is { result ≡ place term.now parts.now }
    ensures within { result ≤ length parts.now }
{
    for (i, part) in parts.iter().enumerate() {
        if equal_terms(term, &part.0) {
            return i;
        }
    }
    parts.len()
}

fn copy_part(alloc: Global, part: &(Term, i128)) -> Result<(Term, i128), Memory>
    ensures { IfOk result (λ p. p ≡ part.now) }
{
    Ok((part.0.copy(alloc)?, part.1))
}

// The sum of the coefficients, unless it passes 2^100.
fn merged(a: &(Term, i128), b: &(Term, i128)) -> Option<i128>
    ensures { result ≡ small (a.now.1 +ℤ b.now.1) }
{
    small_sum(a.1, b.1)
}

// The part at this place gets this coefficient.
fn set_coefficient(parts: &mut Vec<(Term, i128)>, at: usize, n: i128)
    requires { at < length parts.old.items }
    ensures { (d : _) → parts.new.items ≡ slice_set parts.old.items at ((slice_index_or parts.old.items at d).0, n) }
{
    let part = &mut parts[at];
    part.1 = n;
}

// One part more; false where a number passes 2^100.
fn add(alloc: Global, parts: &mut Vec<(Term, i128)>, part: &(Term, i128)) -> Result<bool, Memory>
    ensures { IfOk result (λ b. when b parts.new.items ≡ add_part part.now parts.old.items) }
{
    let at = place_of(parts, &part.0);
    if at == parts.len() {
        let part = copy_part(alloc, part)?;
        parts.push(part)?;
        return Ok(true);
    }
    let Some(n) = merged(&parts[at], part) else {
        return Ok(false);
    };
    if n == 0 {
        parts.remove(at);
    } else {
        set_coefficient(parts, at, n);
    }
    Ok(true)
}

/// Adds the other sum; false where a number passes 2^100.
pub fn add_sum(alloc: Global, sum: &mut Sum, other: &Sum) -> Result<bool, Memory>
    ensures { IfOk result (λ b. when b (sum_of sum.new) ≡ plus (sum_of sum.old) (sum_of other.now)) }
{
    for part in &other.parts {
        if !add(alloc, &mut sum.parts, part)? {
            return Ok(false);
        }
    }
    match small_sum(sum.constant, other.constant) {
        None => Ok(false),
        Some(n) => {
            sum.constant = n;
            Ok(true)
        }
    }
}

// Each part times the number, unless a coefficient passes 2^100.
fn scale_all(
    alloc: Global,
    parts: &[(Term, i128)],
    by: i128,
) -> Result<Option<Vec<(Term, i128)>>, Memory>
    ensures { IfOk result (λ o. option_map (λ v. v.items) o ≡ scale_parts by parts.now) }
{
    let mut scaled = Vec::new(alloc);
    for part in parts {
        match small_product(by, part.1) {
            None => return Ok(None),
            Some(n) => scaled.push((part.0.copy(alloc)?, n))?,
        }
    }
    Ok(Some(scaled))
}

/// The parts and the constant times the number, unless a number passes 2^100.
pub fn scale(
    alloc: Global,
    parts: &[(Term, i128)],
    constant: i128,
    by: i128,
) -> Result<Option<Sum>, Memory>
    ensures { IfOk result (λ o. opt_sum o ≡ scaled by (record { parts = parts.now; constant = constant })) }
{
    if by == 0 {
        return Ok(Some(zero(alloc)));
    }
    let Some(parts) = scale_all(alloc, parts, by)? else {
        return Ok(None);
    };
    match small_product(by, constant) {
        None => Ok(None),
        Some(constant) => Ok(Some(Sum { parts, constant })),
    }
}
