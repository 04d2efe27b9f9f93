//! The groups of a text's controllers, each made alone.

ghost use Rattle.cb_spec.specs.Typed.{Typed};

use cb_accept::accept::accept_text;
use cb_owed::alone::{loop_obligations, match_obligations, start_obligations};
use cb_spec::sound::SoundSpec;
use cb_spec::system::System;
use cb_wp::limits::Used;
use std::alloc::Global;
use std::test::Fail;

// A till that keeps coins, and a payer who says which coins it sends; every obligation is proved.
const TILL: &[u8] = b"MACHINE Box \
VARIABLES n \
INVARIANT n : 0..9 \
INITIALISATION n := 0 \
OPERATIONS \
add(k) = PRE k : 1..9 & n + k <= 9 THEN n := n + k END; \
r <-- take = PRE n > 0 THEN r := n || n := 0 END \
END \
CHANNELS \
coin(v) WHERE v : 1..9; back(v) WHERE v : 1..9 \
END \
CONTROLLER Till MACHINES Box START Idle(0) PROCESSES \
Idle(m : 0..9) INV (m = n) = coin?(k) -> \
IF m + k <= 9 THEN Box.add!(k) -> Idle(m + k) \
ELSE Box.take?(q) -> back!(q) -> Idle(0) END \
END \
CONTROLLER Payer START Go PROCESSES \
Go = coin!(3){v = 3} -> Go [] back?(x) -> Go \
END \
SYSTEM Till, Payer END \
PROOF INIT:Box:1 EVAL END \
PROOF OP:Box:add:1 RNGL 1 (RNGL 2 (RNG (LIN [0 * 1, 4 * 1, 6 * 1], HYP 3))) END \
PROOF OP:Box:take:1 EVAL END \
PROOF START:Till:1 EVAL END \
PROOF START:Till:2 EVAL END \
PROOF LOOP:Till:Idle:1 HYP 4 END \
PROOF LOOP:Till:Idle:2 LIN [0 * 1, 5 * 1, 3 * -1] END \
PROOF LOOP:Till:Idle:3 EQ 3 (HYP 6) END \
PROOF LOOP:Till:Idle:4 EQ 3 (REFL) END \
PROOF LOOP:Till:Idle:5 RNGL 4 (LIN [0 * 1, 5 * 1, 7 * 1, 3 * 1]) END \
PROOF LOOP:Till:Idle:6 RNGL 2 (RNGL 4 (RNG (LIN [0 * 1, 5 * 1, 10 * 1, 3 * 1], HYP 8))) END \
PROOF LOOP:Till:Idle:7 EVAL END \
PROOF LOOP:Till:Idle:8 EVAL END \
PROOF LOOP:Payer:Go:1 EVAL END \
PROOF MATCH:Payer:Go:1 EQ 1 (EVAL) END";

const FRESH: Used = Used {
    obligations: 0,
    nodes: 0,
};

fn till(alloc: Global) -> Option<SoundSpec> {
    let judged = accept_text(alloc, TILL).ok()?;
    judged.sound().ok()
}

// How many obligations the controller's beginning has.
fn starts(alloc: Global, system: &System, controller: u32) -> Option<usize>
    requires { Typed system.now }
{
    if controller as usize >= system.controllers.as_slice().len() {
        return None;
    }
    let list = start_obligations(alloc, system, controller, FRESH).ok()?;
    Some(list.len())
}

// How many the controller's definition has.
fn loops(alloc: Global, system: &System, controller: u32, definition: u32) -> Option<usize>
    requires { Typed system.now }
{
    let own = system.controllers.as_slice().get(controller as usize)?;
    if definition as usize >= own.definitions.as_slice().len() {
        return None;
    }
    let list = loop_obligations(alloc, system, controller, definition, FRESH).ok()?;
    Some(list.len())
}

// How many the annotations in it have.
fn matches(alloc: Global, system: &System, controller: u32, definition: u32) -> Option<usize> {
    let own = system.controllers.as_slice().get(controller as usize)?;
    if definition as usize >= own.definitions.as_slice().len() {
        return None;
    }
    let list = match_obligations(alloc, system, controller, definition, FRESH).ok()?;
    Some(list.len())
}

#[test]
fn each_group_alone(rt: HostRuntime) -> Result<(), Fail> {
    let alloc = rt.alloc();
    let Some(sound) = till(alloc) else {
        return Err("the till is not accepted".into());
    };
    let system = sound.spec();
    assert_eq!(rt; starts(alloc, system, 0), Some(2));
    assert_eq!(rt; loops(alloc, system, 0, 0), Some(8));
    assert_eq!(rt; matches(alloc, system, 0, 0), Some(0));
    assert_eq!(rt; starts(alloc, system, 1), Some(0));
    assert_eq!(rt; loops(alloc, system, 1, 0), Some(1));
    assert_eq!(rt; matches(alloc, system, 1, 0), Some(1));
    Ok(())
}
