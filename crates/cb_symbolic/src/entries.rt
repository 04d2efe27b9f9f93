//! Entries of a symbolic store, and trees read by them.

ghost use Rattle.std.specs.Prelude.{◌≡◌, ◌-◌, ◌^◌, min, IfOk, MatchOption};
ghost use Rattle.cb_term.specs.Tree as tree;
ghost use Rattle.cb_obligations.specs.Pieces.{freed};
ghost use Rattle.cb_conditions.specs.Reading as reading;
ghost use Rattle.cb_symbolic.specs.Stores.{meaning_of, nodes_of, opened_names, read_opened};

use cb_term::Memory;
use cb_term::change::{Change, change_formula, change_term};
use cb_term::count::term_nodes;
use cb_term::name::Name;
use cb_term::tree::{Formula, Term};
use cb_wp::changes::Freed;
use std::alloc::Global;
use std::marker::Model;

/// A name with the term that it stands for, and how many nodes that has: 2^64 - 1 where there are more.
#[derive(Drop)]
pub struct Entry {
    name: Name,
    term: Term,
    nodes: u64,
}

impl Model for Entry {
    ghost use Rattle.std.specs.Prelude.{◌≡◌, ◌-◌, ◌^◌, min};
    ghost use Rattle.std.specs.Coded.{codes};
    ghost use Rattle.cb_term.specs.declared.name.Name.{Name};
    ghost use Rattle.cb_term.specs.Codes.{coded_term};
    ghost use Rattle.cb_term.specs.Size.{term_nodes};
    ghost use Rattle.cb_term.specs.Tree.{TermTree};

    ghost Value = { Name × TermTree };

    ghost coded = { Prim.hlevel (codes, coded_term) };

    ghost view = { λ e. (e.name, e.term) };

    ghost invariant = { λ e. e.nodes ≡ min (term_nodes e.term) (2 ^ 64 - 1) };
}

/// The entry of the name with the term.
pub fn counted(name: Name, term: Term) -> Entry
    ensures { result ≡ (name, term) }
{
    let nodes = term_nodes(&term);
    Entry { name, term, nodes }
}

// The last entry of the name.
fn find<'a>(entries: &'a [Entry], name: &Name) -> Option<&'a Entry>
    ensures { MatchOption result (meaning_of entries.now name.now ≡ tree.Var name.now) (λ e. meaning_of entries.now name.now ≡ e.now.1) }
{
    let mut at = entries.len();
    while at > 0 {
        at -= 1;
        let entry = &entries[at];
        if name.is_same(&entry.name) {
            return Some(entry);
        }
    }
    None
}

/// How many nodes the name's term has. 2^64 - 1 where there are more.
pub fn name_nodes(entries: &[Entry], name: &Name) -> u64
    ensures { result ≡ min (nodes_of entries.now name.now) (2 ^ 64 - 1) }
{
    match find(entries, name) {
        Some(entry) => entry.nodes,
        None => 1,
    }
}

// The entries' terms for their names, with opened names in the places of the variables that are bound outside, the innermost
// first.
#[derive(Clone, Copy)]
struct Reading<'a> {
    entries: &'a [Entry],
    opened: &'a [Name],
}

// The name's term, with the opened names in it.
fn name_term(
    alloc: Global,
    entries: &[Entry],
    opened: &[Name],
    depth: u32,
    name: &Name,
) -> Result<Term, Memory>
    ensures { IfOk result (λ t. t ≡ opened_names (meaning_of entries.now) opened.now depth name.now) }
{
    match find(entries, name) {
        Some(entry) => change_term(alloc, &entry.term, &Freed { opened }, depth),
        None => Ok(Term::var(name.copy(alloc)?)),
    }
}

impl Change for Reading<'_> {
    ghost names = { λ c. opened_names (meaning_of c.entries.now) c.opened.now };

    ghost bounds = { λ c. freed c.opened.now };

    fn name(&self, alloc: Global, depth: u32, name: &Name) -> Result<Term, Memory> {
        name_term(alloc, self.entries, self.opened, depth, name)
    }

    fn bound(&self, alloc: Global, depth: u32, index: u32) -> Result<Term, Memory> {
        Freed {
            opened: self.opened,
        }
        .bound(alloc, depth, index)
    }
}

/// The formula as it is read, with opened names in the places of the variables that are bound outside, the innermost first.
pub fn read_formula(
    alloc: Global,
    entries: &[Entry],
    opened: &[Name],
    formula: &Formula,
) -> Result<Formula, Memory>
    ensures { IfOk result (λ f. f ≡ read_opened (meaning_of entries.now) opened.now formula.now) }
{
    change_formula(alloc, formula, &Reading { entries, opened }, 0)
}

/// The term as it is read.
#[tactic(auto, using(crate::proofs::ReadingLemmas::term_is))]
pub fn read_term(alloc: Global, entries: &[Entry], term: &Term) -> Result<Term, Memory>
    ensures { IfOk result (λ t. t ≡ reading.read_term (meaning_of entries.now) term.now) }
{
    let opened: &[Name] = &[];
    change_term(alloc, term, &Reading { entries, opened }, 0)
}
