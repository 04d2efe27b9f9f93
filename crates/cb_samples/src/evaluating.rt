//! The truth of a typed formula and the value of a typed term.

ghost use Rattle.std.specs.Prelude.{◌≡◌, [], pos, neg_ℤ, ◌≤ℤ◌, ◌^◌, IfOk};
ghost use Rattle.cb_samples.specs.Evaluated.{every_number_to};

use cb_eval::typed::{truth_of, value_of};
use cb_spec::store::Store;
use cb_term::Memory;
use cb_term::kind::Kind;
use cb_term::name::{Name, NameText};
use cb_term::sign::{RelSign, TermSign};
use cb_term::table::SetTable;
use cb_term::tree::{Formula, Term};
use cb_term::value::Value;
use std::alloc::Global;
use std::test::Fail;

// `!x.(x : 0..65535 => x <= last)`.
fn every_number(alloc: Global, last: i64) -> Result<Formula, Memory>
    ensures { IfOk result (λ f. f ≡ every_number_to last) }
{
    let range = Term::bin(alloc, TermSign::Range, Term::num(0), Term::num(65535))?;
    let typing = Formula::rel(RelSign::Member, Term::bound(0), range);
    let bounded = Formula::rel(RelSign::AtMost, Term::bound(0), Term::num(last));
    let body = Formula::implies(alloc, typing, bounded)?;
    let text = NameText::from_vec(Vec::new(alloc));
    Formula::every(alloc, Name { text, number: 0 }, Kind::Integer, body)
}

fn no_sets(alloc: Global) -> SetTable
    ensures { result.sets.items ≡ [] }
{
    SetTable {
        sets: Vec::new(alloc),
    }
}

fn every_number_holds(alloc: Global, last: i64) -> Result<bool, Memory>
    requires low { neg_ℤ (pos (2 ^ 62)) ≤ℤ last }
    requires high { last ≤ℤ pos (2 ^ 62) }
{
    let formula = every_number(alloc, last)?;
    let sets = no_sets(alloc);
    let store = Store::new(alloc);
    truth_of(alloc, &sets, &formula, &store)
}

fn two_and_three(alloc: Global) -> Result<Value, Memory> {
    let sum = Term::bin(alloc, TermSign::Add, Term::num(2), Term::num(3))?;
    let sets = no_sets(alloc);
    let store = Store::new(alloc);
    value_of(alloc, &sets, &sum, &store)
}

#[test]
fn typed_truth_and_value(rt: HostRuntime) -> Result<(), Fail> {
    let alloc = rt.alloc();
    assert!(rt; every_number_holds(alloc, 65535)?);
    assert!(rt; !every_number_holds(alloc, 65534)?);
    let value = two_and_three(alloc)?;
    assert!(rt; matches!(&value, Value::Int(5)));
    Ok(())
}
