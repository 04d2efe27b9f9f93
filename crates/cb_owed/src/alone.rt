//! The groups of a controller, each alone.

ghost use Rattle.std.specs.Prelude.{◌≡◌, ℕ, ◌<◌, None, length, map, IfOk, OnOk, IfErr};
ghost use Rattle.cb_spec.specs.States.{IsAt};
ghost use Rattle.cb_spec.specs.Typed.{Typed};
ghost use Rattle.cb_obligations.specs.Owed.{owed_of};
ghost use Rattle.cb_wp.specs.Limits.{Tells};
ghost use Rattle.cb_conditions.specs.Conditions.{start_owes, loop_owes, match_owes};
ghost use Rattle.cb_conditions.specs.Fitting.{PlainController};
ghost use Rattle.cb_owed.specs.Limits.{start_limit, loop_limit, match_limit};

use crate::groups::{add_loop, add_match, add_start};
use crate::limits::check_body;
use cb_controlled_laws::laws::typed_controllers_are_plain;
use cb_seq::sequent::Obligation;
use cb_spec::system::{Controller, Definition, System};
use cb_starts::machines::start_within;
use cb_wp::limits::{MakeFault, Used, Which};
use std::alloc::Global;

fn start_of(
    alloc: Global,
    system: &System,
    controller: &Controller,
    used: Used,
) -> Result<Vec<Obligation>, MakeFault>
    requires { PlainController system.now controller.now }
    ensures list { IfOk result (λ v. map owed_of v.items ≡ start_owes system.now controller.now) }
    ensures within { OnOk result (start_limit used system.now controller.now ≡ None) }
    ensures fault { IfErr result (λ e. Tells e (start_limit used system.now controller.now)) }
{
    if !start_within(system, controller) {
        return Err(MakeFault::Limit(Which::Branches));
    }
    let mut used = used;
    let mut obligations = Vec::new(alloc);
    add_start(alloc, system, controller, &mut used, &mut obligations)?;
    Ok(obligations)
}

fn loop_of(
    alloc: Global,
    system: &System,
    controller: &Controller,
    definition: &Definition,
    used: Used,
) -> Result<Vec<Obligation>, MakeFault>
    requires plain { PlainController system.now controller.now }
    requires own { (k : ℕ) × IsAt controller.now.definitions k definition.now }
    ensures list { IfOk result (λ v. map owed_of v.items ≡ loop_owes system.now controller.now definition.now) }
    ensures within { OnOk result (loop_limit used system.now controller.now definition.now ≡ None) }
    ensures fault { IfErr result (λ e. Tells e (loop_limit used system.now controller.now definition.now)) }
{
    check_body(alloc, system, definition)?;
    let mut used = used;
    let mut obligations = Vec::new(alloc);
    add_loop(
        alloc,
        system,
        controller,
        definition,
        &mut used,
        &mut obligations,
    )?;
    Ok(obligations)
}

fn match_of(
    alloc: Global,
    system: &System,
    controller: &Controller,
    definition: &Definition,
    used: Used,
) -> Result<Vec<Obligation>, MakeFault>
    ensures list { IfOk result (λ v. map owed_of v.items ≡ match_owes system.now controller.now definition.now) }
    ensures within { OnOk result (match_limit used system.now definition.now ≡ None) }
    ensures fault { IfErr result (λ e. Tells e (match_limit used system.now definition.now)) }
{
    let mut used = used;
    let mut obligations = Vec::new(alloc);
    add_match(
        alloc,
        system,
        controller,
        definition,
        &mut used,
        &mut obligations,
    )?;
    Ok(obligations)
}

/// What the beginning of the controller at this place in the text owes. `used` is what the list had before.
///
/// # Errors
/// `Limit` with the first limit that is passed: `Branches` before the others, of which the first on the way is told; `Memory`.
pub fn start_obligations(
    alloc: Global,
    system: &System,
    controller: u32,
    used: Used,
) -> Result<Vec<Obligation>, MakeFault>
    requires typed { Typed system.now }
    requires there { controller < length system.now.controllers }
    ensures list { IfOk result (λ v. (c : Controller) → IsAt system.now.controllers controller c → map owed_of v.items ≡ start_owes system.now c) }
    ensures within { OnOk result ((c : Controller) → IsAt system.now.controllers controller c → start_limit used system.now c ≡ None) }
    ensures fault { IfErr result (λ e. (c : Controller) → IsAt system.now.controllers controller c → Tells e (start_limit used system.now c)) }
{
    typed_controllers_are_plain();
    let own = &system.controllers.as_slice()[controller as usize];
    start_of(alloc, system, own, used)
}

/// What the definition at this place in its controller owes, the controller being that at its place in the text. `used` is what the
/// list had before.
///
/// # Errors
/// `Limit` with the first limit that is passed: `Branches` before `Visits`, these before the others, of which the first on the way is
/// told; `Memory`.
pub fn loop_obligations(
    alloc: Global,
    system: &System,
    controller: u32,
    definition: u32,
    used: Used,
) -> Result<Vec<Obligation>, MakeFault>
    requires typed { Typed system.now }
    requires there { controller < length system.now.controllers }
    requires own { (c : Controller) → IsAt system.now.controllers controller c → definition < length c.definitions }
    ensures list { IfOk result (λ v. (c : Controller) (d : Definition) → IsAt system.now.controllers controller c → IsAt c.definitions definition d → map owed_of v.items ≡ loop_owes system.now c d) }
    ensures within { OnOk result ((c : Controller) (d : Definition) → IsAt system.now.controllers controller c → IsAt c.definitions definition d → loop_limit used system.now c d ≡ None) }
    ensures fault { IfErr result (λ e. (c : Controller) (d : Definition) → IsAt system.now.controllers controller c → IsAt c.definitions definition d → Tells e (loop_limit used system.now c d)) }
{
    typed_controllers_are_plain();
    let own = &system.controllers.as_slice()[controller as usize];
    let body = &own.definitions.as_slice()[definition as usize];
    loop_of(alloc, system, own, body, used)
}

/// What the written annotations owe in the definition at this place in its controller, the controller being that at its place in the
/// text. `used` is what the list had before.
///
/// # Errors
/// `Limit` with the first limit that is passed on the way; `Memory`.
pub fn match_obligations(
    alloc: Global,
    system: &System,
    controller: u32,
    definition: u32,
    used: Used,
) -> Result<Vec<Obligation>, MakeFault>
    requires there { controller < length system.now.controllers }
    requires own { (c : Controller) → IsAt system.now.controllers controller c → definition < length c.definitions }
    ensures list { IfOk result (λ v. (c : Controller) (d : Definition) → IsAt system.now.controllers controller c → IsAt c.definitions definition d → map owed_of v.items ≡ match_owes system.now c d) }
    ensures within { OnOk result ((c : Controller) (d : Definition) → IsAt system.now.controllers controller c → IsAt c.definitions definition d → match_limit used system.now d ≡ None) }
    ensures fault { IfErr result (λ e. (c : Controller) (d : Definition) → IsAt system.now.controllers controller c → IsAt c.definitions definition d → Tells e (match_limit used system.now d)) }
{
    let own = &system.controllers.as_slice()[controller as usize];
    let body = &own.definitions.as_slice()[definition as usize];
    match_of(alloc, system, own, body, used)
}
