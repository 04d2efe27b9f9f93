//! Terms and formulas are replaced, printed and searched for a name, and a rule's premises are told.

use cb_check::sequents::premises;
use cb_check::walk::{CheckFault, check};
use cb_seq::cert::Cert;
use cb_seq::rule::Rule;
use cb_seq::sequent::Sequent;
use cb_term::Memory;
use cb_term::change::substitute;
use cb_term::free::free_in;
use cb_term::kind::Kind;
use cb_term::name::{Name, NameText};
use cb_term::sign::{RelSign, TermSign};
use cb_term::table::SetTable;
use cb_term::text::{formula_text, term_text};
use cb_term::tree::{Formula, Term};
use std::alloc::Global;
use std::test::Fail;

fn name(alloc: Global, letter: u8) -> Result<Name, Memory> {
    let text = NameText::from_slice(alloc, &[letter])?;
    Ok(Name { text, number: 0 })
}

fn variable(alloc: Global, letter: u8) -> Result<Term, Memory> {
    Ok(Term::var(name(alloc, letter)?))
}

fn no_sets(alloc: Global) -> SetTable {
    SetTable {
        sets: Vec::new(alloc),
    }
}

// `n + k`.
fn sum(alloc: Global) -> Result<Term, Memory> {
    let left = variable(alloc, b'n')?;
    let right = variable(alloc, b'k')?;
    Term::bin(alloc, TermSign::Add, left, right)
}

// `n + k <= 9`.
fn bounded_sum(alloc: Global) -> Result<Formula, Memory> {
    Ok(Formula::rel(RelSign::AtMost, sum(alloc)?, Term::num(9)))
}

// The same with 3 in the place of k.
fn replaced(alloc: Global) -> Result<Formula, Memory> {
    let formula = bounded_sum(alloc)?;
    let key = name(alloc, b'k')?;
    substitute(alloc, &formula, &key, &Term::num(3))
}

fn text_of(alloc: Global, formula: &Formula) -> Result<Vec<u8>, Memory> {
    formula_text(alloc, &no_sets(alloc), formula)
}

fn text_of_sum(alloc: Global) -> Result<Vec<u8>, Memory> {
    term_text(alloc, &no_sets(alloc), &sum(alloc)?)
}

fn has_name(alloc: Global, formula: &Formula, letter: u8) -> Result<bool, Memory> {
    Ok(free_in(formula, &name(alloc, letter)?))
}

#[test]
fn names_are_replaced_and_found(rt: HostRuntime) -> Result<(), Fail> {
    let alloc = rt.alloc();
    let before = bounded_sum(alloc)?;
    let after = replaced(alloc)?;
    assert_eq!(rt;
        text_of(alloc, &after)?.as_slice(),
        b"n + 3 <= 9".as_slice()
    );
    assert!(rt; has_name(alloc, &before, b'k')? && !has_name(alloc, &after, b'k')?);
    assert!(rt; has_name(alloc, &after, b'n')?);
    assert_eq!(rt; text_of_sum(alloc)?.as_slice(), b"n + k".as_slice());
    Ok(())
}

// `n <= 9`.
fn upper(alloc: Global) -> Result<Formula, Memory> {
    Ok(Formula::rel(RelSign::AtMost, variable(alloc, b'n')?, Term::num(9)))
}

// `n <= 9 & 0 <= n`.
fn both_ends(alloc: Global) -> Result<Formula, Memory> {
    let lower = Formula::rel(RelSign::AtMost, Term::num(0), variable(alloc, b'n')?);
    Formula::and(alloc, upper(alloc)?, lower)
}

// From `n <= 9 & 0 <= n` to `n <= 9`.
fn from_both_ends(alloc: Global) -> Result<Sequent, Memory> {
    let mut names = Vec::new(alloc);
    names.push((name(alloc, b'n')?, Kind::Integer))?;
    let mut hypotheses = Vec::new(alloc);
    hypotheses.push(both_ends(alloc)?)?;
    let goal = upper(alloc)?;
    Ok(Sequent {
        names,
        hypotheses,
        goal,
    })
}

// `ANDL 1 (HYP h)`.
fn by_hypothesis(alloc: Global, hypothesis: u64) -> Result<Cert, Memory> {
    let mut children = Vec::new(alloc);
    children.push(Cert {
        rule: Rule::Hyp { hypothesis },
        children: Vec::new(alloc),
    })?;
    Ok(Cert {
        rule: Rule::AndL { hypothesis: 1 },
        children,
    })
}

// The first bad node of this proof, and 0 where there is none.
fn bad_node(alloc: Global, hypothesis: u64) -> Result<u64, Memory> {
    let sequent = from_both_ends(alloc)?;
    let cert = by_hypothesis(alloc, hypothesis)?;
    match check(alloc, &no_sets(alloc), &sequent, &cert) {
        Ok(()) => Ok(0),
        Err(CheckFault::Bad { node }) => Ok(node),
        Err(CheckFault::Memory) => Err(std::alloc::AllocError),
    }
}

// What is printed of the hypotheses of the rule's only premise, a comma behind each, and of its goal.
fn printed_premise(alloc: Global, rule: &Rule) -> Result<Vec<u8>, Memory> {
    let sequent = from_both_ends(alloc)?;
    let mut out = Vec::new(alloc);
    if let Some(sequents) = premises(alloc, &no_sets(alloc), &sequent, rule)? {
        for premise in &sequents {
            put_premise(alloc, premise, &mut out)?;
        }
    }
    Ok(out)
}

fn put_premise(alloc: Global, premise: &Sequent, out: &mut Vec<u8>) -> Result<(), Memory> {
    for hypothesis in &premise.hypotheses {
        let text = text_of(alloc, hypothesis)?;
        out.extend_from_slice(text.as_slice())?;
        out.extend_from_slice(b", ")?;
    }
    let text = text_of(alloc, &premise.goal)?;
    out.extend_from_slice(text.as_slice())?;
    Ok(())
}

#[test]
fn premises_and_bad_nodes(rt: HostRuntime) -> Result<(), Fail> {
    let alloc = rt.alloc();
    let printed = printed_premise(alloc, &Rule::AndL { hypothesis: 1 })?;
    assert_eq!(rt;
        printed.as_slice(),
        b"n <= 9 & 0 <= n, n <= 9, 0 <= n, n <= 9".as_slice()
    );
    assert!(rt; printed_premise(alloc, &Rule::AndL { hypothesis: 2 })?.is_empty());
    assert_eq!(rt; bad_node(alloc, 2)?, 0);
    assert_eq!(rt; bad_node(alloc, 3)?, 2);
    Ok(())
}
