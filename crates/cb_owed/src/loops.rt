//! LOOP: what a definition of a controller owes.

ghost use Rattle.std.specs.Prelude.{◌≡◌, ℕ, ◌++◌, [], IfOk, OnOk, IfErr, map};
ghost use Rattle.cb_term.specs.Tree as tree;
ghost use Rattle.cb_seq.specs.Validity.{claim_of};
ghost use Rattle.cb_spec.specs.Domains as domains;
ghost use Rattle.cb_spec.specs.States.{IsAt};
ghost use Rattle.cb_obligations.specs.Pieces.{pieces};
ghost use Rattle.cb_obligations.specs.Steps.{Reach};
ghost use Rattle.cb_wp.specs.Limits.{Counted, Faulted};
ghost use Rattle.cb_conditions.specs.Conditions as conditions;
ghost use Rattle.cb_conditions.specs.Conditions.{loop_formula};
ghost use Rattle.cb_conditions.specs.Fitting.{PlainController};
ghost use Rattle.cb_conditions.specs.Steps.{loop_steps};
ghost use Rattle.cb_conditions.specs.Ways.{supposing};
ghost use Rattle.cb_symbolic.specs.Walks.{way_of, IsReached, Passes, Stops};
ghost use Rattle.cb_owed.specs.Parts.{loop_ways};

use cb_conditions::laws::loop_by_ways;
use cb_seq::sequent::Sequent;
use cb_spec::system::{Controller, Declared, Definition, System};
use cb_starts::invariants::{suppose_invariants, suppose_nothing};
use cb_starts::machines::own_names;
use cb_symbolic::show::Made;
use cb_symbolic::walk::{Reached, Walk, beginning, open_declared, suppose};
use cb_term::Memory;
use cb_term::tree::{Formula, Term};
use cb_ways::walk::add_ways;
use cb_wp::limits::{MakeFault, Used};
use cb_wp::transform::typing;
use std::alloc::Global;

// That the declared name is in its domain.
fn in_domain(alloc: Global, declared: &Declared) -> Result<Formula, Memory>
    ensures { IfOk result (λ f. f ≡ domains.typing (tree.Var declared.now.name) declared.now.domain) }
{
    let name = declared.name.copy(alloc)?;
    typing(alloc, Term::var(name), declared.domain)
}

// Supposes that the declared name is in its domain.
fn suppose_domain(
    alloc: Global,
    walk: &mut Walk,
    reached: Reached,
    declared: &Declared,
) -> Result<Reached, MakeFault>
    requires { IsReached reached walk.old }
    ensures way { IfOk result (λ r. way_of r walk.new ≡ supposing (way_of reached walk.old) (domains.typing (tree.Var declared.now.name) declared.now.domain)) }
    ensures reached { IfOk result (λ r. IsReached r walk.new) }
    ensures stops { IfErr result (λ e. Stops e (Reach (supposing (way_of reached walk.old) (domains.typing (tree.Var declared.now.name) declared.now.domain)).hypotheses)) }
{
    let formula = in_domain(alloc, declared)?;
    suppose(alloc, walk, reached, &formula)
}

// Supposes that the declared names are in their domains.
fn suppose_domains(
    alloc: Global,
    walk: &mut Walk,
    reached: Reached,
    declared: &[Declared],
) -> Result<Reached, MakeFault>
    requires { IsReached reached walk.old }
    ensures way { IfOk result (λ r. way_of r walk.new ≡ supposing (way_of reached walk.old) (conditions.typings declared.now)) }
    ensures reached { IfOk result (λ r. IsReached r walk.new) }
    ensures stops { IfErr result (λ e. Stops e (Reach (supposing (way_of reached walk.old) (conditions.typings declared.now)).hypotheses)) }
{
    let mut reached = reached;
    for one in declared {
        reached = suppose_domain(alloc, walk, reached, one)?;
    }
    suppose_nothing(alloc, walk, reached)
}

// Supposes what is known at the beginning of the definition's body.
fn suppose_known(
    alloc: Global,
    system: &System,
    controller: &Controller,
    definition: &Definition,
    walk: &mut Walk,
    reached: Reached,
) -> Result<Reached, MakeFault>
    requires { IsReached reached walk.old }
    ensures way { IfOk result (λ r. way_of r walk.new ≡ supposing (way_of reached walk.old) (conditions.known system.now controller.now definition.now)) }
    ensures reached { IfOk result (λ r. IsReached r walk.new) }
    ensures passes { OnOk result (Passes (Reach (supposing (way_of reached walk.old) (conditions.known system.now controller.now definition.now)).hypotheses)) }
    ensures stops { IfErr result (λ e. Stops e (Reach (supposing (way_of reached walk.old) (conditions.known system.now controller.now definition.now)).hypotheses)) }
{
    let typed = suppose_domains(alloc, walk, reached, definition.params.as_slice())?;
    let kept = suppose_invariants(alloc, system, controller, walk, typed)?;
    suppose(alloc, walk, kept, &definition.invariant)
}

// Appends what is owed on the ways through the definition's body, on a walk that begins.
fn add_through(
    alloc: Global,
    system: &System,
    controller: &Controller,
    definition: &Definition,
    walk: &mut Walk,
    made: &mut Made,
) -> Result<(), MakeFault>
    requires { walk.old ≡ record { store = []; names = conditions.own_names system.now controller.now; hypotheses = [] } }
    ensures counted { OnOk result (Counted made.old.used made.new.used (loop_steps system.now controller.now definition.now)) }
    ensures list { OnOk result (map claim_of made.new.sequents.items ≡ map claim_of made.old.sequents.items ++ loop_ways system.now controller.now definition.now) }
    ensures fault { IfErr result (λ e. Faulted e made.old.used (loop_steps system.now controller.now definition.now)) }
{
    let opened = open_declared(alloc, walk, beginning(), definition.params.as_slice())?;
    let reached = suppose_known(alloc, system, controller, definition, walk, opened)?;
    add_ways(
        alloc,
        system,
        controller,
        walk,
        reached,
        &definition.body,
        made,
    )
}

// Appends what is owed on the ways through the definition's body.
fn add_body(
    alloc: Global,
    system: &System,
    controller: &Controller,
    definition: &Definition,
    made: &mut Made,
) -> Result<(), MakeFault>
    ensures counted { OnOk result (Counted made.old.used made.new.used (loop_steps system.now controller.now definition.now)) }
    ensures list { OnOk result (map claim_of made.new.sequents.items ≡ map claim_of made.old.sequents.items ++ loop_ways system.now controller.now definition.now) }
    ensures fault { IfErr result (λ e. Faulted e made.old.used (loop_steps system.now controller.now definition.now)) }
{
    let mut walk = Walk::first(alloc, own_names(alloc, system, controller)?);
    add_through(alloc, system, controller, definition, &mut walk, made)
}

/// The sequents of what a definition of a controller of the system owes, counted on from what is used, to which it adds.
///
/// # Errors
/// `Limit` with the first limit that is passed on the way, however many branches and visits there are; `Memory`.
pub fn loop_sequents(
    alloc: Global,
    system: &System,
    controller: &Controller,
    definition: &Definition,
    used: &mut Used,
) -> Result<Vec<Sequent>, MakeFault>
    requires plain { PlainController system.now controller.now }
    requires own { (k : ℕ) × IsAt controller.now.definitions k definition.now }
    ensures counted { OnOk result (Counted used.old used.new (loop_steps system.now controller.now definition.now)) }
    ensures list { IfOk result (λ v. map claim_of v.items ≡ pieces (conditions.own_names system.now controller.now) [] 0 (loop_formula system.now controller.now definition.now)) }
    ensures fault { IfErr result (λ e. Faulted e used.old (loop_steps system.now controller.now definition.now)) }
{
    loop_by_ways();
    let mut made = Made {
        used: *used,
        sequents: Vec::new(alloc),
    };
    add_body(alloc, system, controller, definition, &mut made)?;
    *used = made.used;
    Ok(made.sequents)
}
