//! MATCH: what the written annotations in a definition of a controller owe.

ghost use Rattle.std.specs.Prelude.{◌≡◌, ◌++◌, ◌∷◌, [], None, IfOk, OnOk, IfErr, map, option_copied};
ghost use Rattle.cb_seq.specs.Validity.{claim_of};
ghost use Rattle.cb_term.specs.Tree as tree;
ghost use Rattle.cb_obligations.specs.Owed.{for_all};
ghost use Rattle.cb_wp.specs.Limits.{Counted, Faulted};
ghost use Rattle.cb_conditions.specs.Conditions as conditions;
ghost use Rattle.cb_conditions.specs.Conditions.{for_found, match_formulas};
ghost use Rattle.cb_conditions.specs.Steps.{match_steps};
ghost use Rattle.cb_matches.specs.Matches.{declared_at, event_formulas, formulas_steps, formulas_claims};

use cb_seq::sequent::Sequent;
use cb_spec::event::Event;
use cb_spec::process::{Process, ProcessNode};
use cb_spec::system::{Channel, Declared, Definition, System};
use cb_symbolic::show::Made;
use cb_term::Memory;
use cb_term::name::Name;
use cb_term::tree::Formula;
use cb_ways::formulas::assumption;
use cb_wp::changes::put;
use cb_wp::limits::{MakeFault, Used};
use cb_wp::machine::for_all;
use cb_wp::pieces::add_pieces;
use sqlite_items::at;
use std::alloc::Global;

// Appends the name with the domain of the value that is there.
fn add_declared(
    alloc: Global,
    name: &Name,
    value: Option<&Declared>,
    into: &mut Vec<Declared>,
) -> Result<(), Memory>
    ensures { OnOk result (into.new.items ≡ into.old.items ++ declared_at name.now (option_copied value.entry)) }
{
    match value {
        Some(value) => {
            let name = name.copy(alloc)?;
            let domain = value.domain;
            put(into, Declared { name, domain })
        }
        None => Ok(()),
    }
}

// The names with the domains of the values, in order.
fn declared_as(alloc: Global, names: &[Name], values: &[Declared]) -> Result<Vec<Declared>, Memory>
    ensures { IfOk result (λ ds. ds.items ≡ conditions.declared_as names.now values.now) }
{
    let mut declared = Vec::new(alloc);
    for i in 0..names.len() {
        add_declared(alloc, &names[i], at(values, i), &mut declared)?;
    }
    Ok(declared)
}

// That the channel's assertion, over the names that get its values, says the formula for all values of the declared names.
fn asserted_match(
    alloc: Global,
    channel: &Channel,
    names: &[Name],
    declared: &[Declared],
    formula: &Formula,
) -> Result<Formula, Memory>
    ensures { IfOk result (λ f. f ≡ for_all [] declared.now (tree.Implies (conditions.assumption channel.now names.now None) formula.now)) }
{
    let asserted = assumption(alloc, channel, names, &None)?;
    for_all(alloc, &[], declared, &asserted, formula)
}

// That the assertion says what an input assumes of the values that come.
fn got_match(
    alloc: Global,
    channel: &Channel,
    names: &[Name],
    formula: &Formula,
) -> Result<Formula, Memory>
    ensures { IfOk result (λ f. f ≡ conditions.got_match channel.now names.now formula.now) }
{
    let declared = declared_as(alloc, names, channel.values.as_slice())?;
    asserted_match(alloc, channel, names, declared.as_slice(), formula)
}

// That what an output guarantees of the values that are sent says the assertion.
fn sent_match(alloc: Global, channel: &Channel, formula: &Formula) -> Result<Formula, Memory>
    ensures { IfOk result (λ f. f ≡ conditions.sent_match channel.now formula.now) }
{
    for_all(
        alloc,
        &[],
        channel.values.as_slice(),
        formula,
        &channel.assertion,
    )
}

fn of_output(alloc: Global, channel: Option<&Channel>, formula: &Formula) -> Result<Formula, Memory>
    ensures { IfOk result (λ f. f ≡ for_found (option_copied channel.entry) (λ ch. conditions.sent_match ch formula.now)) }
{
    match channel {
        Some(channel) => sent_match(alloc, channel, formula),
        None => Ok(Formula::bfalse()),
    }
}

fn of_input(
    alloc: Global,
    channel: Option<&Channel>,
    names: &[Name],
    formula: &Formula,
) -> Result<Formula, Memory>
    ensures { IfOk result (λ f. f ≡ for_found (option_copied channel.entry) (λ ch. conditions.got_match ch names.now formula.now)) }
{
    match channel {
        Some(channel) => got_match(alloc, channel, names, formula),
        None => Ok(Formula::bfalse()),
    }
}

// Appends the formula's pieces.
fn add_formula(alloc: Global, formula: &Formula, made: &mut Made) -> Result<(), MakeFault>
    ensures counted { OnOk result (Counted made.old.used made.new.used (formulas_steps (formula.now ∷ []))) }
    ensures list { OnOk result (map claim_of made.new.sequents.items ≡ map claim_of made.old.sequents.items ++ formulas_claims (formula.now ∷ [])) }
    ensures fault { IfErr result (λ e. Faulted e made.old.used (formulas_steps (formula.now ∷ []))) }
{
    let mut opened = Vec::new(alloc);
    let mut names = Vec::new(alloc);
    let mut hypotheses = Vec::new(alloc);
    add_pieces(
        alloc,
        formula,
        &mut opened,
        0,
        &mut names,
        &mut hypotheses,
        0,
        &mut made.used,
        &mut made.sequents,
    )
}

// Appends what is owed of an output's guarantee.
fn add_output(
    alloc: Global,
    channel: Option<&Channel>,
    formula: &Formula,
    made: &mut Made,
) -> Result<(), MakeFault>
    ensures counted { OnOk result (Counted made.old.used made.new.used (formulas_steps (for_found (option_copied channel.entry) (λ ch. conditions.sent_match ch formula.now) ∷ []))) }
    ensures list { OnOk result (map claim_of made.new.sequents.items ≡ map claim_of made.old.sequents.items ++ formulas_claims (for_found (option_copied channel.entry) (λ ch. conditions.sent_match ch formula.now) ∷ [])) }
    ensures fault { IfErr result (λ e. Faulted e made.old.used (formulas_steps (for_found (option_copied channel.entry) (λ ch. conditions.sent_match ch formula.now) ∷ []))) }
{
    let owed = of_output(alloc, channel, formula)?;
    add_formula(alloc, &owed, made)
}

// Appends what is owed of what an input assumes.
fn add_input(
    alloc: Global,
    channel: Option<&Channel>,
    names: &[Name],
    formula: &Formula,
    made: &mut Made,
) -> Result<(), MakeFault>
    ensures counted { OnOk result (Counted made.old.used made.new.used (formulas_steps (for_found (option_copied channel.entry) (λ ch. conditions.got_match ch names.now formula.now) ∷ []))) }
    ensures list { OnOk result (map claim_of made.new.sequents.items ≡ map claim_of made.old.sequents.items ++ formulas_claims (for_found (option_copied channel.entry) (λ ch. conditions.got_match ch names.now formula.now) ∷ [])) }
    ensures fault { IfErr result (λ e. Faulted e made.old.used (formulas_steps (for_found (option_copied channel.entry) (λ ch. conditions.got_match ch names.now formula.now) ∷ []))) }
{
    let owed = of_input(alloc, channel, names, formula)?;
    add_formula(alloc, &owed, made)
}

// Appends what the event's written annotation owes.
fn add_event(
    alloc: Global,
    system: &System,
    event: &Event,
    made: &mut Made,
) -> Result<(), MakeFault>
    ensures counted { OnOk result (Counted made.old.used made.new.used (formulas_steps (event_formulas system.now event.now))) }
    ensures list { OnOk result (map claim_of made.new.sequents.items ≡ map claim_of made.old.sequents.items ++ formulas_claims (event_formulas system.now event.now)) }
    ensures fault { IfErr result (λ e. Faulted e made.old.used (formulas_steps (event_formulas system.now event.now))) }
{
    match event {
        Event::Output {
            channel,
            guarantee: Some(formula),
            ..
        } => {
            let channel = system.channels.get(*channel as usize);
            add_output(alloc, channel, formula, made)
        }
        Event::Input {
            channel,
            names,
            assume: Some(formula),
        } => {
            let channel = system.channels.get(*channel as usize);
            add_input(alloc, channel, names.as_slice(), formula, made)
        }
        Event::Output {
            guarantee: None,
            ..
        }
        | Event::Input { assume: None, .. }
        | Event::Call { .. } => Ok(()),
    }
}

// Appends what the written annotations in the process owe, in text order.
fn add_annotations(
    alloc: Global,
    system: &System,
    process: &Process,
    made: &mut Made,
) -> Result<(), MakeFault>
    ensures counted { OnOk result (Counted made.old.used made.new.used (formulas_steps (match_formulas system.now process.now))) }
    ensures list { OnOk result (map claim_of made.new.sequents.items ≡ map claim_of made.old.sequents.items ++ formulas_claims (match_formulas system.now process.now)) }
    ensures fault { IfErr result (λ e. Faulted e made.old.used (formulas_steps (match_formulas system.now process.now))) }
{
    match &process.node {
        ProcessNode::Stop | ProcessNode::Skip | ProcessNode::Call { .. } => Ok(()),
        ProcessNode::Prefix { event, then } => {
            add_event(alloc, system, event, made)?;
            add_annotations(alloc, system, then, made)
        }
        ProcessNode::Choice(left, right) | ProcessNode::Internal(left, right) => {
            add_annotations(alloc, system, left, made)?;
            add_annotations(alloc, system, right, made)
        }
        ProcessNode::If { then, other, .. } => {
            add_annotations(alloc, system, then, made)?;
            add_annotations(alloc, system, other, made)
        }
    }
}

/// The sequents of what the written annotations in a definition of a controller owe, counted on from what is used, to which it adds.
///
/// # Errors
/// `Limit` with the first limit that is passed on the way; `Memory`.
pub fn match_sequents(
    alloc: Global,
    system: &System,
    definition: &Definition,
    used: &mut Used,
) -> Result<Vec<Sequent>, MakeFault>
    ensures counted { OnOk result (Counted used.old used.new (match_steps system.now definition.now)) }
    ensures list { IfOk result (λ v. map claim_of v.items ≡ formulas_claims (match_formulas system.now definition.now.body)) }
    ensures fault { IfErr result (λ e. Faulted e used.old (match_steps system.now definition.now)) }
{
    let mut made = Made {
        used: *used,
        sequents: Vec::new(alloc),
    };
    add_annotations(alloc, system, &definition.body, &mut made)?;
    *used = made.used;
    Ok(made.sequents)
}
