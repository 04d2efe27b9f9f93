//! Resolving a process.

ghost use Rattle.std.specs.Prelude.{◌≡◌, ◌<◌, length, slice_get, IsSomeAnd, IfOk, OnOk};
ghost use Rattle.cb_term.specs.Table.{sizes_of};
ghost use Rattle.cb_spec.specs.Stores.{look_of};
ghost use Rattle.cb_spec.specs.Silent.{IsOperand};
ghost use Rattle.cb_code.specs.Nodes.{part};
ghost use Rattle.cb_settling.specs.Resolving.{CanTest, CanResolve, FewLeft, Adds, LedFrom, HasBodies, here_of, IsSettled, IsEntered};

use crate::bind::{bound_store, values_of};
use cb_code::code::{Code, Node};
use cb_code::sides::Sides;
use cb_eval::typed::truth_of;
use cb_relation::pick::Pick;
use cb_spec::state::Values;
use cb_spec::store::Store;
use cb_spec::system::{Controller, System};
use cb_term::Memory;
use sqlite_items::Items;
use std::alloc::Global;

/// Where the choices of a process have led.
#[derive(Drop)]
pub enum Led {
    /// To the offer of the prefixes at these places.
    Offers(Items<u32>),
    /// To the end.
    Ends,
    /// To a call of a definition, with its arguments' values.
    Calls { definition: u32, args: Values },
}

// Adds the places of the prefixes that the process offers, which needs no call and no choice.
fn offers(
    alloc: Global,
    system: &System,
    controller: &Controller,
    code: &Code,
    place: u32,
    env: &Store,
    prefixes: &mut Items<u32>,
) -> Result<(), Memory>
    requires place { place < length code.now }
    requires operand { IsOperand (part code.now place) }
    requires can { CanTest system.now controller.now (part code.now place) (look_of env.now) }
    ensures { OnOk result (Adds (sizes_of system.now.sets) code.now (part code.now place) (look_of env.now) prefixes.old prefixes.new) }
{
    match code.node(place) {
        Node::Stop => Ok(()),
        Node::Prefix { .. } => prefixes.push(place),
        Node::Choice(left, right) => {
            offers(alloc, system, controller, code, *left, env, prefixes)?;
            offers(alloc, system, controller, code, *right, env, prefixes)
        }
        Node::If { test, then, other } => {
            if truth_of(alloc, &system.sets, test, env)? {
                offers(alloc, system, controller, code, *then, env, prefixes)
            } else {
                offers(alloc, system, controller, code, *other, env, prefixes)
            }
        }
        Node::Skip | Node::Call { .. } | Node::Internal(_, _) => unreachable!(),
    }
}

// Takes internal choices and IFs, up to an offer, the end or a call.
fn choose<P: Pick>(
    alloc: Global,
    system: &System,
    controller: &Controller,
    code: &Code,
    place: u32,
    env: &Store,
    sides: &mut Sides,
    pick: &mut P,
) -> Result<Led, Memory>
    requires place { place < length code.now }
    requires can { CanResolve system.now controller.now (part code.now place) (look_of env.now) }
    requires few { FewLeft controller.now.definitions (part code.now place) (length sides.old) }
    ensures { IfOk result (λ led. LedFrom system.now controller.now code.now (part code.now place) (look_of env.now) sides.old sides.new led) }
{
    match code.node(place) {
        Node::Skip => Ok(Led::Ends),
        Node::Call { definition, args } => Ok(Led::Calls {
            definition: *definition,
            args: values_of(alloc, &system.sets, args, env)?,
        }),
        Node::Internal(left, right) => {
            let right_one = pick.below(2) == 1;
            sides.push(right_one);
            if right_one {
                choose(alloc, system, controller, code, *right, env, sides, pick)
            } else {
                choose(alloc, system, controller, code, *left, env, sides, pick)
            }
        }
        Node::If { test, then, other } => {
            if truth_of(alloc, &system.sets, test, env)? {
                choose(alloc, system, controller, code, *then, env, sides, pick)
            } else {
                choose(alloc, system, controller, code, *other, env, sides, pick)
            }
        }
        Node::Stop | Node::Prefix { .. } | Node::Choice(_, _) => {
            let mut prefixes = Items::new(alloc);
            offers(alloc, system, controller, code, place, env, &mut prefixes)?;
            Ok(Led::Offers(prefixes))
        }
    }
}

/// What a controller does whose process is resolved.
#[derive(Drop)]
pub enum Outcome {
    /// It offers the prefixes at these places. Where a call was met, names stand for what this store says.
    Shown {
        prefixes: Items<u32>,
        own: Option<Store>,
    },
    /// It has ended.
    Over,
}

// The place of the definition's body, and the store with which it begins.
fn enter(
    alloc: Global,
    controller: &Controller,
    _code: &Code,
    bodies: &[u32],
    definition: u32,
    args: Values,
) -> Result<(u32, Store), Memory>
    requires known { IsSomeAnd (slice_get controller.now.definitions definition) (λ d. length d.params ≡ length args) }
    requires bodies { HasBodies controller.now _code.now bodies.now }
    ensures { IfOk result (λ r. IsEntered controller.now _code.now definition args r.0 r.1) }
{
    let at = definition as usize;
    let own = bound_store(alloc, &controller.definitions.as_slice()[at].params, args)?;
    Ok((bodies[at], own))
}

// Takes choices where names stand for what the own store says, if there is one.
fn choose_here<P: Pick>(
    alloc: Global,
    system: &System,
    controller: &Controller,
    code: &Code,
    place: u32,
    env: &Store,
    own: &Option<Store>,
    sides: &mut Sides,
    pick: &mut P,
) -> Result<Led, Memory>
    requires place { place < length code.now }
    requires can { CanResolve system.now controller.now (part code.now place) (look_of (here_of env.now own.now)) }
    requires few { FewLeft controller.now.definitions (part code.now place) (length sides.old) }
    ensures { IfOk result (λ led. LedFrom system.now controller.now code.now (part code.now place) (look_of (here_of env.now own.now)) sides.old sides.new led) }
{
    match own {
        Some(store) => choose(alloc, system, controller, code, place, store, sides, pick),
        None => choose(alloc, system, controller, code, place, env, sides, pick),
    }
}

/// The process is resolved. The bits tell which sides its internal choices took.
pub fn settle<P: Pick>(
    alloc: Global,
    system: &System,
    controller: &Controller,
    code: &Code,
    bodies: &[u32],
    place: u32,
    env: &Store,
    pick: &mut P,
) -> Result<(Outcome, u64), Memory>
    requires place { place < length code.now }
    requires bodies { HasBodies controller.now code.now bodies.now }
    requires can { CanResolve system.now controller.now (part code.now place) (look_of env.now) }
    ensures { IfOk result (λ r. IsSettled system.now controller.now code.now (part code.now place) env.now r.0 r.1) }
{
    let mut sides = Sides::new();
    let mut at = place;
    let mut own = None;
    for _ in 0..=controller.definitions.len() {
        match choose_here(
            alloc, system, controller, code, at, env, &own, &mut sides, pick,
        )? {
            Led::Ends => return Ok((Outcome::Over, sides.bits())),
            Led::Offers(prefixes) => return Ok((Outcome::Shown { prefixes, own }, sides.bits())),
            Led::Calls { definition, args } => {
                let entered = enter(alloc, controller, code, bodies, definition, args)?;
                at = entered.0;
                own = Some(entered.1);
            }
        }
    }
    unreachable!()
}
