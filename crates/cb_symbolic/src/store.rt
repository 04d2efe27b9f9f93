//! Written names with the terms that they stand for.

ghost use Rattle.std.specs.Prelude.{◌≡◌, ◌-◌, ◌^◌, ◌++◌, ◌∷◌, [], min, length, take, drop, reverse, IfOk, OnOk};
ghost use Rattle.cb_term.specs.Size as size;
ghost use Rattle.cb_conditions.specs.Reading as reading;
ghost use Rattle.cb_symbolic.specs.Stores.{meaning_of, read_opened};

use crate::entries::{Entry, counted, read_formula, read_term};
use crate::weighing::{nodes, term_nodes};
use cb_term::Memory;
use cb_term::name::Name;
use cb_term::tree::{Formula, Term};
use sqlite_items::Items;
use std::alloc::Global;
use std::marker::Model;

/// Names with terms. A name that has none stands for itself.
#[derive(Drop)]
pub struct SymStore {
    entries: Items<Entry>,
}

impl Model for SymStore {
    ghost use Rattle.cb_obligations.specs.Branches.{Assigned};

    ghost Value = { Assigned };

    ghost use Rattle.std.specs.Coded.{codes};
    ghost use Rattle.cb_term.specs.Codes.{coded_term};

    ghost coded = { Prim.hlevel (codes, coded_term) };

    ghost view = { λ s. s.entries };
}

impl SymStore {
    /// Each name stands for itself.
    pub fn same(alloc: Global) -> SymStore
        ensures { result ≡ [] }
    {
        SymStore {
            entries: Items::new(alloc),
        }
    }

    /// The number of entries.
    pub fn len(&self) -> usize
        ensures { result ≡ length self.now }
    {
        self.entries.len()
    }

    /// From here on the name stands for the term.
    pub fn put(&mut self, name: Name, term: Term) -> Result<(), Memory>
        ensures { OnOk result (self.new ≡ self.old ++ (name, term) ∷ []) }
    {
        self.entries.push(counted(name, term))
    }

    /// Leaves out the entries after the first ones.
    pub fn cut(&mut self, len: usize)
        ensures { self.new ≡ take len self.old }
    {
        truncate(&mut self.entries, len);
    }

    /// The entries after the first ones, which are left out here.
    pub fn split_off(&mut self, alloc: Global, at: usize) -> Result<SymStore, Memory>
        ensures rest { OnOk result (self.new ≡ take at self.old) }
        ensures part { IfOk result (λ s. s ≡ drop at self.old) }
    {
        let last_first = pop_after(alloc, &mut self.entries, at)?;
        let entries = reversed(alloc, last_first)?;
        Ok(SymStore { entries })
    }

    /// Moves the entries of the other to the end.
    pub fn append(&mut self, more: SymStore) -> Result<(), Memory>
        ensures { OnOk result (self.new ≡ self.old ++ more) }
    {
        let SymStore { entries } = more;
        self.entries.append(entries)
    }

    /// From here on each name of the list stands for its term, the first entry of a name for the others.
    pub fn put_all(&mut self, mut writes: Items<(Name, Term)>) -> Result<(), Memory>
        ensures meaning { OnOk result (meaning_of self.new ≡ reading.with_terms writes (meaning_of self.old)) }
        ensures before { OnOk result (take (length self.old) self.new ≡ self.old) }
    {
        while let Some((name, term)) = writes.pop() {
            self.put(name, term)?;
        }
        Ok(())
    }

    /// Each written name stands for its term with all names replaced at once, and the other names stay.
    pub fn then(&mut self, alloc: Global, writes: &[(Name, Term)]) -> Result<(), Memory>
        ensures meaning { OnOk result (meaning_of self.new ≡ reading.after (meaning_of self.old) writes.now) }
        ensures before { OnOk result (take (length self.old) self.new ≡ self.old) }
    {
        let read = self.read_each(alloc, writes)?;
        self.put_all(read)
    }

    /// The formula with all names replaced at once.
    #[tactic(auto, using(crate::proofs::ReadingLemmas::none_opened))]
    pub fn read(&self, alloc: Global, formula: &Formula) -> Result<Formula, Memory>
        ensures { IfOk result (λ f. f ≡ reading.read (meaning_of self.now) formula.now) }
    {
        self.read_opened(alloc, &[], formula)
    }

    /// The formula with all names replaced at once, and with opened names in the places of the variables that are bound outside it,
    /// the innermost first.
    pub fn read_opened(
        &self,
        alloc: Global,
        opened: &[Name],
        formula: &Formula,
    ) -> Result<Formula, Memory>
        ensures { IfOk result (λ f. f ≡ read_opened (meaning_of self.now) opened.now formula.now) }
    {
        read_formula(alloc, self.entries.as_slice(), opened, formula)
    }

    /// The term with all names replaced at once.
    pub fn read_term(&self, alloc: Global, term: &Term) -> Result<Term, Memory>
        ensures { IfOk result (λ t. t ≡ reading.read_term (meaning_of self.now) term.now) }
    {
        read_term(alloc, self.entries.as_slice(), term)
    }

    /// The writes with the terms as they are read.
    pub fn read_each(
        &self,
        alloc: Global,
        writes: &[(Name, Term)],
    ) -> Result<Items<(Name, Term)>, Memory>
        ensures { IfOk result (λ ws. ws ≡ reading.read_each (meaning_of self.now) writes.now) }
    {
        let mut made = Items::new(alloc);
        for write in writes {
            let name = write.0.copy(alloc)?;
            let term = self.read_term(alloc, &write.1)?;
            made.push((name, term))?;
        }
        Ok(made)
    }

    /// How many nodes the formula has as it is read, whatever names are opened in it. 2^64 - 1 where there are more.
    #[tactic(auto, using(cb_conditions::proofs::Meeting::sizes_are_known))]
    pub fn nodes(&self, formula: &Formula) -> u64
        ensures { result ≡ min (size.formula_nodes (reading.read (meaning_of self.now) formula.now)) (2 ^ 64 - 1) }
    {
        nodes(self.entries.as_slice(), formula)
    }

    /// How many nodes the term has as it is read. 2^64 - 1 where there are more.
    #[tactic(auto, using(cb_conditions::proofs::Meeting::term_sizes_are_known))]
    pub fn term_nodes(&self, term: &Term) -> u64
        ensures { result ≡ min (size.term_nodes (reading.read_term (meaning_of self.now) term.now)) (2 ^ 64 - 1) }
    {
        term_nodes(self.entries.as_slice(), term)
    }
}

// Takes the items after the first ones, the last first.
#[tactic(auto, using(crate::proofs::EntryLemmas::rest_step, crate::proofs::EntryLemmas::part_step))]
fn pop_after<T: Drop>(alloc: Global, items: &mut Items<T>, at: usize) -> Result<Items<T>, Memory>
    ensures rest { OnOk result (items.new ≡ take at items.old) }
    ensures part { IfOk result (λ v. reverse v ≡ drop at items.old) }
{
    let mut last_first = Items::new(alloc);
    while items.len() > at {
        if let Some(last) = items.pop() {
            last_first.push(last)?;
        }
    }
    Ok(last_first)
}

// The items in the other order.
#[tactic(auto, using(crate::proofs::EntryLemmas::turn_step))]
fn reversed<T: Drop>(alloc: Global, mut items: Items<T>) -> Result<Items<T>, Memory>
    ensures { IfOk result (λ v. v ≡ reverse items) }
{
    let mut made = Items::new(alloc);
    while let Some(last) = items.pop() {
        made.push(last)?;
    }
    Ok(made)
}

/// Leaves out the items after the first ones.
pub fn truncate<T: Drop>(items: &mut Items<T>, len: usize)
    ensures { items.new ≡ take len items.old }
{
    while items.len() > len {
        let _last = items.pop();
    }
}
