//! What is shown at one point of a walk.

ghost use Rattle.std.specs.Prelude.{◌≡◌, ◌++◌, OnOk, IfErr, map};
ghost use Rattle.cb_term.specs.Tree as tree;
ghost use Rattle.cb_seq.specs.Validity.{claim_of};
ghost use Rattle.cb_spec.specs.Bound.{names};
ghost use Rattle.cb_spec.specs.ProcessTree as shape;
ghost use Rattle.cb_wp.specs.Limits.{Counted, Faulted};
ghost use Rattle.cb_conditions.specs.Conditions as conditions;
ghost use Rattle.cb_conditions.specs.Reading.{terms_at};
ghost use Rattle.cb_conditions.specs.Ways.{shown, written, ways};
ghost use Rattle.cb_conditions.specs.Steps.{shown_steps, way_steps};
ghost use Rattle.cb_symbolic.specs.Walks.{way_of, IsReached};
ghost use Rattle.cb_ways.specs.Calls.{sent, sent_steps};

use crate::formulas::{asked, guarantee};
use cb_spec::system::{Channel, Controller, Declared, Definition, System};
use cb_symbolic::show::{Made, show};
use cb_symbolic::walk::{Reached, Walk, write_terms};
use cb_term::tree::{Formula, Term, Terms};
use cb_wp::limits::MakeFault;
use std::alloc::Global;

/// Appends the sequent of what cannot be shown.
pub fn show_never(
    alloc: Global,
    walk: &mut Walk,
    reached: Reached,
    made: &mut Made,
) -> Result<(), MakeFault>
    requires reached { IsReached reached walk.old }
    ensures walk { OnOk result (walk.new ≡ walk.old) }
    ensures counted { OnOk result (Counted made.old.used made.new.used (shown_steps (way_of reached walk.old) tree.False)) }
    ensures list { OnOk result (map claim_of made.new.sequents.items ≡ map claim_of made.old.sequents.items ++ shown (way_of reached walk.old) tree.False) }
    ensures fault { IfErr result (λ e. Faulted e made.old.used (shown_steps (way_of reached walk.old) tree.False)) }
{
    let never = Formula::bfalse();
    show(alloc, walk, reached, &never, made)
}

/// Appends the pieces of the formula, with the terms for the declared names.
pub fn show_at(
    alloc: Global,
    walk: &mut Walk,
    reached: Reached,
    declared: &[Declared],
    terms: &[Term],
    formula: &Formula,
    made: &mut Made,
) -> Result<(), MakeFault>
    requires reached { IsReached reached walk.old }
    ensures walk { OnOk result (walk.new ≡ walk.old) }
    ensures counted { OnOk result (Counted made.old.used made.new.used (shown_steps (written (way_of reached walk.old) (terms_at (names declared.now) terms.now)) formula.now)) }
    ensures list { OnOk result (map claim_of made.new.sequents.items ≡ map claim_of made.old.sequents.items ++ shown (written (way_of reached walk.old) (terms_at (names declared.now) terms.now)) formula.now) }
    ensures fault { IfErr result (λ e. Faulted e made.old.used (shown_steps (written (way_of reached walk.old) (terms_at (names declared.now) terms.now)) formula.now)) }
{
    let mark = walk.mark();
    write_terms(alloc, walk, declared, terms)?;
    show(alloc, walk, reached, formula, made)?;
    walk.cut(mark);
    Ok(())
}

// Appends the pieces of what the definition asks of its arguments.
fn show_asked(
    alloc: Global,
    walk: &mut Walk,
    reached: Reached,
    definition: &Definition,
    args: &Terms,
    made: &mut Made,
) -> Result<(), MakeFault>
    requires reached { IsReached reached walk.old }
    ensures walk { OnOk result (walk.new ≡ walk.old) }
    ensures counted { OnOk result (Counted made.old.used made.new.used (shown_steps (written (way_of reached walk.old) (terms_at (names definition.now.params) args.now)) (conditions.asked definition.now))) }
    ensures list { OnOk result (map claim_of made.new.sequents.items ≡ map claim_of made.old.sequents.items ++ shown (written (way_of reached walk.old) (terms_at (names definition.now.params) args.now)) (conditions.asked definition.now)) }
    ensures fault { IfErr result (λ e. Faulted e made.old.used (shown_steps (written (way_of reached walk.old) (terms_at (names definition.now.params) args.now)) (conditions.asked definition.now))) }
{
    let formula = asked(alloc, definition)?;
    let params = definition.params.as_slice();
    show_at(
        alloc,
        walk,
        reached,
        params,
        args.as_slice(),
        &formula,
        made,
    )
}

/// Appends what is owed at a call of a definition.
pub fn add_call(
    alloc: Global,
    _system: &System,
    controller: &Controller,
    walk: &mut Walk,
    reached: Reached,
    definition: u32,
    args: &Terms,
    made: &mut Made,
) -> Result<(), MakeFault>
    requires reached { IsReached reached walk.old }
    ensures walk { OnOk result (walk.new ≡ walk.old) }
    ensures counted { OnOk result (Counted made.old.used made.new.used (way_steps _system.now controller.now (shape.Call definition args.now) (way_of reached walk.old))) }
    ensures list { OnOk result (map claim_of made.new.sequents.items ≡ map claim_of made.old.sequents.items ++ ways _system.now controller.now (shape.Call definition args.now) (way_of reached walk.old)) }
    ensures fault { IfErr result (λ e. Faulted e made.old.used (way_steps _system.now controller.now (shape.Call definition args.now) (way_of reached walk.old))) }
{
    match controller.definitions.as_slice().get(definition as usize) {
        Some(definition) => show_asked(alloc, walk, reached, definition, args, made),
        None => show_never(alloc, walk, reached, made),
    }
}

// Appends the pieces of what is owed of the values that are sent on the channel.
fn show_guarantee(
    alloc: Global,
    walk: &mut Walk,
    reached: Reached,
    channel: &Channel,
    terms: &Terms,
    assured: &Option<Formula>,
    made: &mut Made,
) -> Result<(), MakeFault>
    requires reached { IsReached reached walk.old }
    ensures walk { OnOk result (walk.new ≡ walk.old) }
    ensures counted { OnOk result (Counted made.old.used made.new.used (shown_steps (written (way_of reached walk.old) (terms_at (names channel.now.values) terms.now)) (conditions.guarantee channel.now assured.now))) }
    ensures list { OnOk result (map claim_of made.new.sequents.items ≡ map claim_of made.old.sequents.items ++ shown (written (way_of reached walk.old) (terms_at (names channel.now.values) terms.now)) (conditions.guarantee channel.now assured.now)) }
    ensures fault { IfErr result (λ e. Faulted e made.old.used (shown_steps (written (way_of reached walk.old) (terms_at (names channel.now.values) terms.now)) (conditions.guarantee channel.now assured.now))) }
{
    let formula = guarantee(channel, assured);
    let values = channel.values.as_slice();
    show_at(
        alloc,
        walk,
        reached,
        values,
        terms.as_slice(),
        formula,
        made,
    )
}

/// Appends what is owed of the values that are sent.
pub fn add_sent(
    alloc: Global,
    system: &System,
    walk: &mut Walk,
    reached: Reached,
    channel: u32,
    terms: &Terms,
    assured: &Option<Formula>,
    made: &mut Made,
) -> Result<(), MakeFault>
    requires reached { IsReached reached walk.old }
    ensures walk { OnOk result (walk.new ≡ walk.old) }
    ensures counted { OnOk result (Counted made.old.used made.new.used (sent_steps system.now channel terms.now assured.now (way_of reached walk.old))) }
    ensures list { OnOk result (map claim_of made.new.sequents.items ≡ map claim_of made.old.sequents.items ++ sent system.now channel terms.now assured.now (way_of reached walk.old)) }
    ensures fault { IfErr result (λ e. Faulted e made.old.used (sent_steps system.now channel terms.now assured.now (way_of reached walk.old))) }
{
    match system.channels.as_slice().get(channel as usize) {
        Some(channel) => show_guarantee(alloc, walk, reached, channel, terms, assured, made),
        None => show_never(alloc, walk, reached, made),
    }
}
