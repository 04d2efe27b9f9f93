//! What is asked and known where a process goes on, and what an operation leaves.

ghost use Rattle.std.specs.Prelude.{◌≡◌, ◌++◌, IfOk, OnOk, IfErr};
ghost use Rattle.cb_spec.specs.Bound as bound;
ghost use Rattle.cb_wp.specs.Limits.{Counted, Faulted};
ghost use Rattle.cb_conditions.specs.Conditions as conditions;
ghost use Rattle.cb_conditions.specs.Reading as reading;
ghost use Rattle.cb_conditions.specs.Steps.{weigh_each};
ghost use Rattle.cb_symbolic.specs.Stores.{meaning_of};

use cb_spec::system::{Channel, Declared, Definition, Machine, Operation};
use cb_symbolic::store::SymStore;
use cb_symbolic::walk::{Walk, weigh};
use cb_term::Memory;
use cb_term::kind::Kind;
use cb_term::name::Name;
use cb_term::tree::{Formula, Term};
use cb_wp::limits::{MakeFault, Used};
use cb_wp::transform::typing;
use sqlite_items::Items;
use std::alloc::Global;

// That the declared names are in their domains.
fn in_domains(alloc: Global, declared: &[Declared]) -> Result<Formula, Memory>
    ensures { IfOk result (λ f. f ≡ conditions.typings declared.now) }
{
    let Some((one, declared)) = declared.split_first() else {
        return Ok(Formula::btrue());
    };
    let first = typing(alloc, Term::var(one.name.copy(alloc)?), one.domain)?;
    let rest = in_domains(alloc, declared)?;
    Formula::and(alloc, first, rest)
}

/// What the definition asks of its arguments.
pub fn asked(alloc: Global, definition: &Definition) -> Result<Formula, Memory>
    ensures { IfOk result (λ f. f ≡ conditions.asked definition.now) }
{
    let domains = in_domains(alloc, definition.params.as_slice())?;
    Formula::and(alloc, domains, definition.invariant.copy(alloc)?)
}

/// What is owed of the values that are sent on the channel.
pub fn guarantee<'a>(channel: &'a Channel, written: &'a Option<Formula>) -> &'a Formula
    ensures { result.now ≡ conditions.guarantee channel.now written.now }
{
    match written {
        Some(formula) => formula,
        None => &channel.assertion,
    }
}

// That the inputs are in the domains of the values.
fn typings(alloc: Global, inputs: &[Name], values: &[Declared]) -> Result<Formula, Memory>
    ensures { IfOk result (λ f. f ≡ conditions.typings (conditions.declared_as inputs.now values.now)) }
{
    let Some((input, inputs)) = inputs.split_first() else {
        return Ok(Formula::btrue());
    };
    let Some((one, values)) = values.split_first() else {
        return Ok(Formula::btrue());
    };
    let first = typing(alloc, Term::var(input.copy(alloc)?), one.domain)?;
    let rest = typings(alloc, inputs, values)?;
    Formula::and(alloc, first, rest)
}

fn names(alloc: Global, declared: &[Declared]) -> Result<Items<Name>, Memory>
    ensures { IfOk result (λ xs. xs ≡ bound.names declared.now) }
{
    let mut names = Items::new(alloc);
    for one in declared {
        names.push(one.name.copy(alloc)?)?;
    }
    Ok(names)
}

fn vars(alloc: Global, inputs: &[Name]) -> Result<Items<Term>, Memory>
    ensures { IfOk result (λ ts. ts ≡ conditions.vars inputs.now) }
{
    let mut terms = Items::new(alloc);
    for input in inputs {
        terms.push(Term::var(input.copy(alloc)?))?;
    }
    Ok(terms)
}

// Appends the names with the terms, in order.
fn put_terms(
    alloc: Global,
    names: &[Name],
    terms: &[Term],
    into: &mut Items<(Name, Term)>,
) -> Result<(), Memory>
    ensures { OnOk result (into.new ≡ into.old ++ reading.terms_at names.now terms.now) }
{
    let Some((first, names)) = names.split_first() else {
        return Ok(());
    };
    let name = first.copy(alloc)?;
    match terms.split_first() {
        Some((term, terms)) => {
            into.push((name, term.copy(alloc)?))?;
            put_terms(alloc, names, terms, into)
        }
        None => {
            into.push((name, Term::num(0)))?;
            put_terms(alloc, names, &[], into)
        }
    }
}

// The names with the terms, in order.
fn terms_at(alloc: Global, names: &[Name], terms: &[Term]) -> Result<Items<(Name, Term)>, Memory>
    ensures { IfOk result (λ ws. ws ≡ reading.terms_at names.now terms.now) }
{
    let mut writes = Items::new(alloc);
    put_terms(alloc, names, terms, &mut writes)?;
    Ok(writes)
}

// The inputs for the channel's value names.
fn renamings(
    alloc: Global,
    channel: &Channel,
    inputs: &[Name],
) -> Result<Items<(Name, Term)>, Memory>
    ensures { IfOk result (λ ws. ws ≡ reading.terms_at (bound.names channel.now.values) (conditions.vars inputs.now)) }
{
    let values = names(alloc, channel.values.as_slice())?;
    let terms = vars(alloc, inputs)?;
    terms_at(alloc, values.as_slice(), terms.as_slice())
}

// The channel's assertion over the inputs.
fn asserted(alloc: Global, channel: &Channel, inputs: &[Name]) -> Result<Formula, Memory>
    ensures { IfOk result (λ f. f ≡ reading.replaced (reading.terms_at (bound.names channel.now.values) (conditions.vars inputs.now)) channel.now.assertion) }
{
    let mut store = SymStore::same(alloc);
    store.put_all(renamings(alloc, channel, inputs)?)?;
    store.read(alloc, &channel.assertion)
}

/// What is known of the values that come.
pub fn assumption(
    alloc: Global,
    channel: &Channel,
    inputs: &[Name],
    written: &Option<Formula>,
) -> Result<Formula, Memory>
    ensures { IfOk result (λ f. f ≡ conditions.assumption channel.now inputs.now written.now) }
{
    match written {
        Some(formula) => {
            let domains = typings(alloc, inputs, channel.values.as_slice())?;
            Formula::and(alloc, domains, formula.copy(alloc)?)
        }
        None => asserted(alloc, channel, inputs),
    }
}

// The term that is written to the name.
fn given(alloc: Global, writes: &[(Name, Term)], name: &Name) -> Result<Term, Memory>
    ensures { IfOk result (λ t. t ≡ reading.given writes.now name.now) }
{
    for write in writes {
        if name.is_same(&write.0) {
            return write.1.copy(alloc);
        }
    }
    Ok(Term::num(0))
}

// The terms that are written to the results.
fn given_each(
    alloc: Global,
    writes: &[(Name, Term)],
    results: &[(Name, Kind)],
) -> Result<Items<Term>, Memory>
    ensures { IfOk result (λ ts. ts ≡ reading.given_each writes.now (bound.result_names results.now)) }
{
    let mut terms = Items::new(alloc);
    for one in results {
        terms.push(given(alloc, writes, &one.0)?)?;
    }
    Ok(terms)
}

// The names that get results, with the terms that are written to these.
fn results(
    alloc: Global,
    operation: &Operation,
    names: &[Name],
    writes: &[(Name, Term)],
) -> Result<Items<(Name, Term)>, Memory>
    ensures { IfOk result (λ ws. ws ≡ reading.terms_at names.now (reading.given_each writes.now (bound.result_names operation.now.results))) }
{
    let terms = given_each(alloc, writes, operation.results.as_slice())?;
    terms_at(alloc, names, terms.as_slice())
}

// Whether the name is one of the declared ones.
fn is_among(name: &Name, declared: &[Declared]) -> bool
    ensures { result ≡ bound.is_among name.now (bound.names declared.now) }
{
    for one in declared {
        if name.is_same(&one.name) {
            return true;
        }
    }
    false
}

fn copy_write(alloc: Global, write: &(Name, Term)) -> Result<(Name, Term), Memory>
    ensures { IfOk result (λ w. w ≡ write.now) }
{
    let name = write.0.copy(alloc)?;
    let term = write.1.copy(alloc)?;
    Ok((name, term))
}

// Appends what is written to the declared names.
fn put_only(
    alloc: Global,
    declared: &[Declared],
    writes: &[(Name, Term)],
    into: &mut Items<(Name, Term)>,
) -> Result<(), Memory>
    ensures { OnOk result (into.new ≡ into.old ++ bound.only (bound.names declared.now) writes.now) }
{
    for write in writes {
        if is_among(&write.0, declared) {
            into.push(copy_write(alloc, write)?)?;
        }
    }
    Ok(())
}

// Weighs each term, as it is read here. Nothing is made, so the count stays.
fn weigh_all(walk: &Walk, writes: &[(Name, Term)], used: &Used) -> Result<(), MakeFault>
    ensures counted { OnOk result (Counted used.now used.now (weigh_each (meaning_of walk.now.store) writes.now)) }
    ensures fault { IfErr result (λ e. Faulted e used.now (weigh_each (meaning_of walk.now.store) writes.now)) }
{
    for write in writes {
        weigh(walk, &write.1)?;
    }
    Ok(())
}

/// What a branch of the operation leaves: the names get what it writes to the results, and the machine's variables what it writes to
/// them. What the names get is weighed before it is read.
pub fn outcome(
    alloc: Global,
    walk: &Walk,
    machine: &Machine,
    operation: &Operation,
    names: &[Name],
    writes: &[(Name, Term)],
    used: &Used,
) -> Result<Items<(Name, Term)>, MakeFault>
    ensures writes { IfOk result (λ ws. ws ≡ conditions.outcome machine.now operation.now names.now writes.now) }
    ensures counted { OnOk result (Counted used.now used.now (weigh_each (meaning_of walk.now.store) (reading.terms_at names.now (reading.given_each writes.now (bound.result_names operation.now.results))))) }
    ensures fault { IfErr result (λ e. Faulted e used.now (weigh_each (meaning_of walk.now.store) (reading.terms_at names.now (reading.given_each writes.now (bound.result_names operation.now.results))))) }
{
    let mut left = results(alloc, operation, names, writes)?;
    weigh_all(walk, left.as_slice(), used)?;
    put_only(alloc, machine.variables.as_slice(), writes, &mut left)?;
    Ok(left)
}
