//! A formula is read in the store that a way through a process carries.

use cb_symbolic::store::SymStore;
use cb_term::Memory;
use cb_term::name::{Name, NameText};
use cb_term::sign::{RelSign, TermSign};
use cb_term::table::SetTable;
use cb_term::text::formula_text;
use cb_term::tree::{Formula, Term};
use std::alloc::Global;
use std::test::Fail;

fn name(alloc: Global, letter: u8) -> Result<Name, Memory> {
    let text = NameText::from_slice(alloc, &[letter])?;
    Ok(Name { text, number: 0 })
}

fn variable(alloc: Global, letter: u8) -> Result<Term, Memory> {
    Ok(Term::var(name(alloc, letter)?))
}

// `n + k`.
fn sum(alloc: Global) -> Result<Term, Memory> {
    let left = variable(alloc, b'n')?;
    let right = variable(alloc, b'k')?;
    Term::bin(alloc, TermSign::Add, left, right)
}

// `n := n + k`.
fn add(alloc: Global, store: &mut SymStore) -> Result<(), Memory> {
    let name = name(alloc, b'n')?;
    let write = (name, sum(alloc)?);
    store.then(alloc, &[write])
}

// `n <= 9`, read where that stands twice before it.
fn read_after_two(alloc: Global) -> Result<Formula, Memory> {
    let mut store = SymStore::same(alloc);
    add(alloc, &mut store)?;
    add(alloc, &mut store)?;
    let bound = Formula::rel(RelSign::AtMost, variable(alloc, b'n')?, Term::num(9));
    store.read(alloc, &bound)
}

fn text_of(alloc: Global, formula: &Formula) -> Result<Vec<u8>, Memory> {
    let sets = SetTable {
        sets: Vec::new(alloc),
    };
    formula_text(alloc, &sets, formula)
}

#[test]
fn what_is_written_is_read(rt: HostRuntime) -> Result<(), Fail> {
    let alloc = rt.alloc();
    let read = read_after_two(alloc)?;
    assert_eq!(rt;
        text_of(alloc, &read)?.as_slice(),
        b"(n + k) + k <= 9".as_slice()
    );
    Ok(())
}
