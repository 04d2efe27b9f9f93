//! Printing certificates.

ghost use Rattle.std.specs.Prelude.{◌≡◌, ◌++◌, OnOk, true, false};
ghost use Rattle.cb_cert_print.specs.Proofs as text;

use crate::Memory;
use cb_amn_print::{put, put_formula, put_if, put_name, put_number, put_term};
use cb_lex::raw::proof::{RawArguments, RawCert, RawRow, RawRule};
use cb_lex::raw::term::{RawFormula, RawTerm};
use std::alloc::Global;

fn put_row(alloc: Global, out: &mut Vec<u8>, row: &RawRow) -> Result<(), Memory>
    ensures { OnOk result (out.new.items ≡ out.old.items ++ text.row_text row.now) }
{
    put_number(alloc, out, row.hypothesis.value)?;
    put(out, b"* ")?;
    put_multiplier(alloc, out, row)
}

fn put_multiplier(alloc: Global, out: &mut Vec<u8>, row: &RawRow) -> Result<(), Memory>
    ensures { OnOk result (out.new.items ≡ out.old.items ++ text.multiplier_text row.now) }
{
    put_if(out, row.minus, b"- ")?;
    put_number(alloc, out, row.multiplier.value)
}

fn put_rows(alloc: Global, out: &mut Vec<u8>, rows: &[RawRow]) -> Result<(), Memory>
    ensures { OnOk result (out.new.items ≡ out.old.items ++ text.rows_text true rows.now) }
{
    let mut first = true;
    for row in rows {
        put_if(out, !first, b", ")?;
        put_row(alloc, out, row)?;
        first = false;
    }
    Ok(())
}

fn put_boxed_formula(alloc: Global, out: &mut Vec<u8>, formula: &RawFormula) -> Result<(), Memory>
    ensures { OnOk result (out.new.items ≡ out.old.items ++ text.boxed_formula formula.now) }
{
    put(out, b"[ ")?;
    put_formula(alloc, out, false, formula)?;
    put(out, b"] ")
}

fn put_boxed_term(alloc: Global, out: &mut Vec<u8>, term: &RawTerm) -> Result<(), Memory>
    ensures { OnOk result (out.new.items ≡ out.old.items ++ text.boxed_term term.now) }
{
    put(out, b"[ ")?;
    put_term(alloc, out, false, term)?;
    put(out, b"] ")
}

fn put_arguments(alloc: Global, out: &mut Vec<u8>, given: &RawArguments) -> Result<(), Memory>
    ensures { OnOk result (out.new.items ≡ out.old.items ++ text.arguments_text given.now) }
{
    match given {
        RawArguments::Nothing => Ok(()),
        RawArguments::Hypothesis(number) => put_number(alloc, out, number.value),
        RawArguments::TwoHypotheses(first, second) => {
            put_number(alloc, out, first.value)?;
            put_number(alloc, out, second.value)
        }
        RawArguments::Rows(rows) => {
            put(out, b"[ ")?;
            put_rows(alloc, out, rows.as_slice())?;
            put(out, b"] ")
        }
        RawArguments::Formula(formula) => put_boxed_formula(alloc, out, formula),
        RawArguments::Term(term) => put_boxed_term(alloc, out, term),
        RawArguments::TwoTerms(first, second) => {
            put_boxed_term(alloc, out, first)?;
            put_boxed_term(alloc, out, second)
        }
        RawArguments::HypothesisTerm(number, term) => {
            put_number(alloc, out, number.value)?;
            put_boxed_term(alloc, out, term)
        }
        RawArguments::TermNumber(term, number) => {
            put_boxed_term(alloc, out, term)?;
            put_number(alloc, out, number.value)
        }
    }
}

fn put_rule(alloc: Global, out: &mut Vec<u8>, rule: &RawRule) -> Result<(), Memory>
    ensures { OnOk result (out.new.items ≡ out.old.items ++ text.rule_text rule.now) }
{
    put_name(alloc, out, &rule.word)?;
    put_arguments(alloc, out, &rule.arguments)
}

fn has_premises(cert: &RawCert) -> bool
    ensures { result ≡ text.has_premises cert.now }
{
    !cert.children.is_empty()
}

fn put_front(alloc: Global, out: &mut Vec<u8>, cert: &RawCert) -> Result<(), Memory>
    ensures { OnOk result (out.new.items ≡ out.old.items ++ text.front_text cert.now) }
{
    put_rule(alloc, out, &cert.rule)?;
    put_if(out, has_premises(cert), b"( ")
}

/// Appends the text of a certificate.
pub fn put_cert(alloc: Global, out: &mut Vec<u8>, cert: &RawCert) -> Result<(), Memory>
    ensures { OnOk result (out.new.items ≡ out.old.items ++ text.cert_text cert.now) }
{
    put_front(alloc, out, cert)?;
    let children = cert.children.as_slice();
    let mut first = true;
    for child in children {
        put_if(out, !first, b", ")?;
        put_cert(alloc, out, child)?;
        first = false;
    }
    put_if(out, has_premises(cert), b") ")
}
