//! Where a walk stands: names that are opened, hypotheses, and the store.

ghost use Rattle.std.specs.Prelude.{◌≡◌, ◌++◌, ◌∷◌, [], length, ◌≤◌, take, drop, slice_get, unwrap_or, pos, IfOk, OnOk, IfErr};
ghost use Rattle.cb_term.specs.Tree as tree;
ghost use Rattle.cb_obligations.specs.Branches as branches;
ghost use Rattle.cb_obligations.specs.Steps.{Reach, Weigh};
ghost use Rattle.cb_spec.specs.Bound as bound;
ghost use Rattle.cb_conditions.specs.Conditions.{declared_as};
ghost use Rattle.cb_conditions.specs.Reading as reading;
ghost use Rattle.cb_conditions.specs.Ways.{at_first, written, supposing, opening, opening_each, leaving};
ghost use Rattle.cb_symbolic.specs.Stores.{meaning_of};
ghost use Rattle.cb_symbolic.specs.declared.walk.Reached.{Reached};
ghost use Rattle.cb_symbolic.specs.Walks.{way_of, IsReached, mark_of, cut_at, Extends, hypotheses_with, Passes, Stops};

use crate::conjuncts::add_conjuncts;
use crate::store::{SymStore, truncate};
use cb_spec::system::Declared;
use cb_term::Memory;
use cb_term::kind::Kind;
use cb_term::name::Name;
use cb_term::tree::{Formula, Term};
use cb_wp::branches::kind_of;
use cb_wp::changes::next;
use cb_wp::limits::{MakeFault, Which};
use sqlite_items::{Items, at};
use std::alloc::Global;

/// What is known where a walk stands.
#[derive(Drop)]
pub struct Walk {
    pub store: SymStore,
    /// The names of a sequent here, those opened on the way among them.
    pub names: Items<(Name, Kind)>,
    pub hypotheses: Items<Formula>,
}

/// How many names are opened, and how many nodes the hypotheses have: 2^64 - 1 where there are more.
#[derive(Clone, Copy)]
pub struct Reached {
    pub number: u32,
    pub nodes: u64,
}

/// How far a walk was.
#[derive(Clone, Copy)]
pub struct Mark {
    pub store: usize,
    pub names: usize,
    pub hypotheses: usize,
}

/// Where every walk begins.
pub fn beginning() -> Reached
    ensures { result ≡ record { number = 0; nodes = 0 } }
{
    Reached {
        number: 0,
        nodes: 0,
    }
}

impl Walk {
    /// A walk with these names, where nothing is opened or supposed and each name stands for itself.
    pub fn first(alloc: Global, names: Items<(Name, Kind)>) -> Walk
        ensures walk { result ≡ record { store = []; names = names; hypotheses = [] } }
        ensures way { way_of (record { number = 0; nodes = 0 }) result ≡ at_first names }
    {
        Walk {
            store: SymStore::same(alloc),
            names,
            hypotheses: Items::new(alloc),
        }
    }

    /// How far the walk is.
    pub fn mark(&self) -> Mark
        ensures { result ≡ mark_of self.now }
    {
        Mark {
            store: self.store.len(),
            names: self.names.len(),
            hypotheses: self.hypotheses.len(),
        }
    }

    /// Goes back to where it was.
    pub fn cut(&mut self, mark: Mark)
        ensures { self.new ≡ cut_at mark self.old }
    {
        self.store.cut(mark.store);
        truncate(&mut self.names, mark.names);
        truncate(&mut self.hypotheses, mark.hypotheses);
    }
}

/// The opened name with that number.
pub fn with_number(alloc: Global, name: &Name, number: u32) -> Result<Name, Memory>
    ensures { IfOk result (λ x. x ≡ branches.numbered name.now number) }
{
    let text = name.text.copy(alloc)?;
    Ok(Name { text, number })
}

/// Appends the opened name with that number.
pub fn add_opened(
    alloc: Global,
    names: &mut Items<(Name, Kind)>,
    name: &Name,
    kind: Kind,
    number: u32,
) -> Result<(), Memory>
    ensures { OnOk result (names.new ≡ names.old ++ (branches.numbered name.now number, kind) ∷ []) }
{
    let opened = with_number(alloc, name, number)?;
    names.push((opened, kind))
}

// From here on the name stands for the opened one with that number.
fn put_opened(alloc: Global, store: &mut SymStore, name: &Name, number: u32) -> Result<(), Memory>
    ensures { OnOk result (store.new ≡ store.old ++ (name.now, tree.Var (branches.numbered name.now number)) ∷ []) }
{
    let written = name.copy(alloc)?;
    let opened = with_number(alloc, name, number)?;
    store.put(written, Term::var(opened))
}

/// Opens the name under the next number.
pub fn open(
    alloc: Global,
    walk: &mut Walk,
    reached: Reached,
    name: &Name,
    kind: Kind,
) -> Result<Reached, Memory>
    requires reached { IsReached reached walk.old }
    ensures way { IfOk result (λ r. way_of r walk.new ≡ opening (way_of reached walk.old) name.now kind) }
    ensures extends { OnOk result (Extends walk.new walk.old) }
    ensures reached { IfOk result (λ r. IsReached r walk.new) }
{
    let number = next(reached.number)?;
    add_opened(alloc, &mut walk.names, name, kind, number)?;
    put_opened(alloc, &mut walk.store, name, number)?;
    Ok(Reached {
        number,
        nodes: reached.nodes,
    })
}

/// Opens names for values of these domains.
pub fn open_each(
    alloc: Global,
    walk: &mut Walk,
    mut reached: Reached,
    names: &[Name],
    values: &[Declared],
) -> Result<Reached, Memory>
    requires reached { IsReached reached walk.old }
    ensures way { IfOk result (λ r. way_of r walk.new ≡ opening_each (way_of reached walk.old) (declared_as names.now values.now)) }
    ensures extends { OnOk result (Extends walk.new walk.old) }
    ensures reached { IfOk result (λ r. IsReached r walk.new) }
{
    for (place, name) in names.iter().enumerate() {
        let Some(value) = at(values, place) else {
            return Ok(reached);
        };
        reached = open(alloc, walk, reached, name, kind_of(value.domain))?;
    }
    Ok(reached)
}

/// Opens the declared names.
pub fn open_declared(
    alloc: Global,
    walk: &mut Walk,
    mut reached: Reached,
    declared: &[Declared],
) -> Result<Reached, Memory>
    requires reached { IsReached reached walk.old }
    ensures way { IfOk result (λ r. way_of r walk.new ≡ opening_each (way_of reached walk.old) declared.now) }
    ensures extends { OnOk result (Extends walk.new walk.old) }
    ensures reached { IfOk result (λ r. IsReached r walk.new) }
{
    for one in declared {
        reached = open(alloc, walk, reached, &one.name, kind_of(one.domain))?;
    }
    Ok(reached)
}

/// Supposes the formula, as it is read here. `Limit(Sequent)` exactly where the hypotheses then have more than 20,000 nodes.
#[tactic(auto, using(crate::proofs::ReadingLemmas::none_opened))]
pub fn suppose(
    alloc: Global,
    walk: &mut Walk,
    reached: Reached,
    formula: &Formula,
) -> Result<Reached, MakeFault>
    requires reached { IsReached reached walk.old }
    ensures way { IfOk result (λ r. way_of r walk.new ≡ supposing (way_of reached walk.old) formula.now) }
    ensures extends { OnOk result (Extends walk.new walk.old) }
    ensures reached { IfOk result (λ r. IsReached r walk.new) }
    ensures passes { OnOk result (Passes (Reach (supposing (way_of reached walk.old) formula.now).hypotheses)) }
    ensures stops { IfErr result (λ e. Stops e (Reach (supposing (way_of reached walk.old) formula.now).hypotheses)) }
{
    suppose_opened(alloc, walk, reached, &[], formula)
}

/// Supposes the formula, as it is read here with opened names in the places of the variables that are bound outside it.
/// `Limit(Sequent)` exactly where the hypotheses then have more than 20,000 nodes.
pub fn suppose_opened(
    alloc: Global,
    walk: &mut Walk,
    reached: Reached,
    opened: &[Name],
    formula: &Formula,
) -> Result<Reached, MakeFault>
    requires reached { IsReached reached walk.old }
    ensures number { IfOk result (λ r. r.number ≡ reached.number) }
    ensures walk { OnOk result (walk.new ≡ record walk.old { hypotheses = hypotheses_with opened.now walk.old formula.now }) }
    ensures reached { IfOk result (λ r. IsReached r walk.new) }
    ensures passes { OnOk result (Passes (Reach (hypotheses_with opened.now walk.old formula.now))) }
    ensures stops { IfErr result (λ e. Stops e (Reach (hypotheses_with opened.now walk.old formula.now))) }
{
    let nodes = add_conjuncts(
        alloc,
        &walk.store,
        opened,
        reached.nodes,
        formula,
        &mut walk.hypotheses,
    )?;
    if nodes > 20_000 {
        return Err(MakeFault::Limit(Which::Sequent));
    }
    Ok(Reached {
        number: reached.number,
        nodes,
    })
}

/// Weighs the term, as it is read here. `Limit(Sequent)` exactly where it has more than 20,000 nodes.
#[tactic(auto, using(crate::proofs::LimitLemmas::passes_weigh, crate::proofs::LimitLemmas::stops_weigh))]
pub fn weigh(walk: &Walk, term: &Term) -> Result<(), MakeFault>
    ensures passes { OnOk result (Passes (Weigh (reading.read_term (meaning_of walk.now.store) term.now))) }
    ensures stops { IfErr result (λ e. Stops e (Weigh (reading.read_term (meaning_of walk.now.store) term.now))) }
{
    if walk.store.term_nodes(term) > 20_000 {
        return Err(MakeFault::Limit(Which::Sequent));
    }
    Ok(())
}

// The term at the place, and 0 where there is none.
fn term_or_zero(alloc: Global, terms: &[Term], place: usize) -> Result<Term, Memory>
    ensures { IfOk result (λ t. t ≡ unwrap_or (slice_get terms.now place) (tree.Num (pos 0))) }
{
    match at(terms, place) {
        Some(term) => term.copy(alloc),
        None => Ok(Term::num(0)),
    }
}

// The declared names with the terms, in order.
fn terms_at(
    alloc: Global,
    declared: &[Declared],
    terms: &[Term],
) -> Result<Items<(Name, Term)>, Memory>
    ensures { IfOk result (λ ws. ws ≡ reading.terms_at (bound.names declared.now) terms.now) }
{
    let mut written = Items::new(alloc);
    for (place, one) in declared.iter().enumerate() {
        let name = one.name.copy(alloc)?;
        let term = term_or_zero(alloc, terms, place)?;
        written.push((name, term))?;
    }
    Ok(written)
}

/// From here on the declared names stand for the terms, as these are read here.
pub fn write_terms(
    alloc: Global,
    walk: &mut Walk,
    declared: &[Declared],
    terms: &[Term],
) -> Result<(), Memory>
    ensures way { OnOk result ((r : Reached) → way_of r walk.new ≡ written (way_of r walk.old) (reading.terms_at (bound.names declared.now) terms.now)) }
    ensures hypotheses { OnOk result (walk.new.hypotheses ≡ walk.old.hypotheses) }
    ensures extends { OnOk result (Extends walk.new walk.old) }
{
    let writes = terms_at(alloc, declared, terms)?;
    walk.store.then(alloc, writes.as_slice())
}

// What `leave` does to the store.
fn leave_store(
    alloc: Global,
    store: &mut SymStore,
    outer: usize,
    writes: &[(Name, Term)],
) -> Result<SymStore, Memory>
    requires { outer ≤ length store.old }
    ensures meaning { OnOk result (meaning_of store.new ≡ reading.with_terms (reading.read_each (meaning_of store.old) writes.now) (meaning_of (take outer store.old))) }
    ensures outer { OnOk result (take outer store.new ≡ take outer store.old) }
    ensures part { IfOk result (λ s. s ≡ drop outer store.old) }
{
    let read = store.read_each(alloc, writes)?;
    let part = store.split_off(alloc, outer)?;
    store.put_all(read)?;
    Ok(part)
}

/// From here on the written names stand for their terms, as these are read here, and each other name for what it does by the first
/// entries of the store. The other entries are handed out.
pub fn leave(
    alloc: Global,
    walk: &mut Walk,
    outer: usize,
    writes: &[(Name, Term)],
) -> Result<SymStore, Memory>
    requires { outer ≤ length walk.old.store }
    ensures way { OnOk result ((r : Reached) → way_of r walk.new ≡ leaving (meaning_of (take outer walk.old.store)) writes.now (way_of r walk.old)) }
    ensures names { OnOk result (walk.new.names ≡ walk.old.names) }
    ensures hypotheses { OnOk result (walk.new.hypotheses ≡ walk.old.hypotheses) }
    ensures outer { OnOk result (take outer walk.new.store ≡ take outer walk.old.store) }
    ensures part { IfOk result (λ s. s ≡ drop outer walk.old.store) }
{
    leave_store(alloc, &mut walk.store, outer, writes)
}
