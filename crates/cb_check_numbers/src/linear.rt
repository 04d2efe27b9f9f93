//! LIN: rows that hypotheses and the negated goal name, whose sum times multipliers cannot be.

ghost use Rattle.std.specs.Prelude.{◌≡◌, pos, negsuc, IfOk, IfSome, [], ◌∷◌, length, map};
ghost use Rattle.std.specs.Option.{option_copied, option_map};
ghost use Rattle.cb_term.specs.Table.{sizes_of};
ghost use Rattle.cb_term.specs.Tree.{Num};
ghost use Rattle.cb_lin.specs.Form.{form_of_term};
ghost use Rattle.cb_lin.specs.Rows.{form_of, opt_form};
ghost use Rattle.cb_seq.specs.Premises.{claim_at};
ghost use Rattle.cb_check_numbers.specs.Counted.{checked, counted, multiple_counted};
ghost use Rattle.cb_check_numbers.specs.Linear as spec;

use cb_lin::linear::{combine, linear};
use cb_lin::row::Row;
use cb_seq::kinds::kind_of;
use cb_seq::premise::{Premises, SequentRef, hypothesis};
use cb_seq::rule::Multiple;
use cb_term::Memory;
use cb_term::kind::Kind;
use cb_term::name::Name;
use cb_term::sign::RelSign;
use cb_term::table::SetTable;
use cb_term::tree::{Formula, FormulaNode, Term};
use sqlite_items::Items;
use std::alloc::Global;

/// `greater - smaller`, or one less where it is strict, of which it is said that it is at least 0, or that it is 0.
#[derive(Drop)]
pub(crate) struct DifferenceRef<'a> {
    greater: &'a Term,
    smaller: &'a Term,
    strict: bool,
    is_zero: bool,
}

pub(crate) fn is_integer(kind: Option<Kind>) -> bool
    ensures { result ≡ spec.is_integer kind }
{
    match kind {
        Some(Kind::Integer) => true,
        _ => false,
    }
}

// ---- what formulas say

fn at_most<'a>(left: &'a Term, right: &'a Term) -> DifferenceRef<'a>
    ensures { spec.difference_at result ≡ spec.at_most left.now right.now }
{
    DifferenceRef {
        greater: right,
        smaller: left,
        strict: false,
        is_zero: false,
    }
}

fn below<'a>(left: &'a Term, right: &'a Term) -> DifferenceRef<'a>
    ensures { spec.difference_at result ≡ spec.below left.now right.now }
{
    DifferenceRef {
        greater: right,
        smaller: left,
        strict: true,
        is_zero: false,
    }
}

fn same<'a>(left: &'a Term, right: &'a Term) -> DifferenceRef<'a>
    ensures { spec.difference_at result ≡ spec.same left.now right.now }
{
    DifferenceRef {
        greater: right,
        smaller: left,
        strict: false,
        is_zero: true,
    }
}

// What a comparison says.
fn where_true(formula: &Formula) -> Option<DifferenceRef<'_>>
    ensures { spec.opt_difference result ≡ spec.where_true formula.now }
{
    match &formula.node {
        FormulaNode::Rel { sign, left, right } => match sign {
            RelSign::AtMost => Some(at_most(left, right)),
            RelSign::Less => Some(below(left, right)),
            _ => None,
        },
        _ => None,
    }
}

// What it says of its terms that a comparison is false.
fn where_false(formula: &Formula) -> Option<DifferenceRef<'_>>
    ensures { spec.opt_difference result ≡ spec.where_false formula.now }
{
    match &formula.node {
        FormulaNode::Rel { sign, left, right } => match sign {
            RelSign::AtMost => Some(below(right, left)),
            RelSign::Less => Some(at_most(right, left)),
            _ => None,
        },
        _ => None,
    }
}

// What a hypothesis says.
fn said<'a>(
    alloc: Global,
    sets: &SetTable,
    names: &[(Name, Kind)],
    formula: &'a Formula,
) -> Result<Option<DifferenceRef<'a>>, Memory>
    ensures { IfOk result (λ o. spec.opt_difference o ≡ spec.said (sizes_of sets.now) names.now formula.now) }
{
    match &formula.node {
        FormulaNode::Rel {
            sign: RelSign::Equal,
            left,
            right,
        } => {
            if is_integer(kind_of(alloc, sets, names, &[], left)?) {
                Ok(Some(same(left, right)))
            } else {
                Ok(None)
            }
        }
        FormulaNode::Not(inner) => Ok(where_false(inner)),
        _ => Ok(where_true(formula)),
    }
}

// What it says of its terms that the goal is false.
fn denied(goal: &Formula) -> Option<DifferenceRef<'_>>
    ensures { spec.opt_difference result ≡ spec.denied goal.now }
{
    match &goal.node {
        FormulaNode::Not(inner) => where_true(inner),
        _ => where_false(goal),
    }
}

// What the number names: 0 the negated goal, and any other a hypothesis.
fn named<'a>(
    alloc: Global,
    sets: &SetTable,
    sequent: &SequentRef<'a>,
    number: u64,
) -> Result<Option<DifferenceRef<'a>>, Memory>
    ensures { IfOk result (λ o. spec.opt_difference o ≡ spec.named (sizes_of sets.now) (claim_at sequent.now) number) }
{
    if number == 0 {
        return Ok(denied(sequent.goal));
    }
    match hypothesis(sequent.hypotheses, number) {
        Some(formula) => said(alloc, sets, sequent.names, formula),
        None => Ok(None),
    }
}

// ---- rows

// The row of the number 1.
fn one(alloc: Global) -> Result<Row, Memory>
    ensures { IfOk result (λ r. form_of r ≡ form_of_term (Num (pos 1))) }
{
    match linear(alloc, &Term::num(1))? {
        Some(row) => Ok(row),
        None => unreachable!(),
    }
}

// How often the number 1 and then the sides are taken.
fn times_one_first(strict: bool) -> [i64; 3]
    ensures { result ≡ spec.ones strict ∷ pos 1 ∷ negsuc 0 ∷ [] }
{
    if strict { [-1, 1, -1] } else { [0, 1, -1] }
}

// How often the sides and then the number 1 are taken.
fn times_one_last(strict: bool) -> [i64; 3]
    ensures { result ≡ pos 1 ∷ negsuc 0 ∷ spec.ones strict ∷ [] }
{
    if strict { [1, -1, -1] } else { [1, -1, 0] }
}

// The row from those of the sides, unless a number in it passes 2^100 in size. The 1 is taken off the greater side where that's
// above 0, and else off the difference, so that no sum on the way passes 2^100 where the row doesn't.
fn difference_row(
    alloc: Global,
    greater: Row,
    smaller: Row,
    strict: bool,
) -> Result<Option<Row>, Memory>
    ensures { IfOk result (λ o. opt_form o ≡ checked (spec.form_between (form_of greater) (form_of smaller) strict)) }
{
    let one = one(alloc)?;
    if 0 < greater.constant {
        let rows = [one, greater, smaller];
        let first = combine(alloc, &rows, &times_one_first(strict))?;
        Ok(first)
    } else {
        let rows = [greater, smaller, one];
        let last = combine(alloc, &rows, &times_one_last(strict))?;
        Ok(last)
    }
}

// What stands for the row that is taken so often: the number 0 at 0 times, however large the numbers of the row, and else the row,
// unless a number in it passes 2^100 in size.
fn small_row(alloc: Global, times: i64, difference: &DifferenceRef) -> Result<Option<Row>, Memory>
    ensures { IfOk result (λ o. opt_form o ≡ counted times (spec.small_row (spec.difference_at difference.now))) }
{
    let Some(greater) = linear(alloc, difference.greater)? else {
        return Ok(None);
    };
    let Some(smaller) = linear(alloc, difference.smaller)? else {
        return Ok(None);
    };
    if times == 0 {
        linear(alloc, &Term::num(0))
    } else {
        difference_row(alloc, greater, smaller, difference.strict)
    }
}

// The same, where it may be taken so often.
fn row_taken(
    alloc: Global,
    times: i64,
    difference: Option<DifferenceRef>,
) -> Result<Option<Row>, Memory>
    ensures { IfOk result (λ o. opt_form o ≡ counted times (spec.row_taken times (spec.opt_difference difference.entry))) }
{
    match difference {
        Some(difference) => {
            if difference.is_zero || 0 <= times {
                small_row(alloc, times, &difference)
            } else {
                Ok(None)
            }
        }
        None => Ok(None),
    }
}

// What stands for the row that the number names.
fn multiple_taken(
    alloc: Global,
    sets: &SetTable,
    sequent: &SequentRef,
    multiple: &Multiple,
) -> Result<Option<Row>, Memory>
    ensures { IfOk result (λ o. opt_form o ≡ multiple_counted (sizes_of sets.now) (claim_at sequent.now) multiple.now) }
{
    let difference = named(alloc, sets, sequent, multiple.row)?;
    row_taken(alloc, multiple.by, difference)
}

// What stands for the rows in order. It refutes exactly where they do.
fn rows_taken(
    alloc: Global,
    sets: &SetTable,
    sequent: &SequentRef,
    multiples: &[Multiple],
) -> Result<Option<Vec<Row>>, Memory>
    ensures same { let times = spec.multipliers multiples.now in
        IfOk result (λ o. spec.refuted_by (option_map (λ v. map form_of v.items) o) times ≡ spec.refuted_by (spec.rows_taken (sizes_of sets.now) (claim_at sequent.now) multiples.now) times) }
    ensures all { IfOk result (λ o. IfSome o (λ v. length v.items ≡ length multiples.now)) }
{
    let mut rows = Vec::new(alloc);
    for multiple in multiples {
        let Some(row) = multiple_taken(alloc, sets, sequent, multiple)? else {
            return Ok(None);
        };
        rows.push(row)?;
    }
    Ok(Some(rows))
}

fn multipliers(alloc: Global, multiples: &[Multiple]) -> Result<Vec<i64>, Memory>
    ensures { IfOk result (λ v. v.items ≡ spec.multipliers multiples.now) }
{
    multiples.iter().map(|multiple| multiple.by).collect(alloc)
}

// ---- the sum

// Without parts, and below 0.
fn cannot_be(row: &Row) -> bool
    ensures { result ≡ spec.cannot_be (form_of row.now) }
{
    row.parts.is_empty() && row.constant < 0
}

/// LIN. It takes one row at least.
pub(crate) fn linear_sum(
    alloc: Global,
    sets: &SetTable,
    sequent: &SequentRef,
    multiples: &[Multiple],
) -> Result<Option<Premises>, Memory>
    ensures { IfOk result (λ o. o ≡ spec.linear_sum (sizes_of sets.now) (claim_at sequent.now) multiples.now) }
{
    if multiples.is_empty() {
        return Ok(None);
    }
    let Some(rows) = rows_taken(alloc, sets, sequent, multiples)? else {
        return Ok(None);
    };
    let times = multipliers(alloc, multiples)?;
    match combine(alloc, &rows, &times)? {
        Some(sum) => {
            if cannot_be(&sum) {
                Ok(Some(Items::new(alloc)))
            } else {
                Ok(None)
            }
        }
        None => Ok(None),
    }
}
