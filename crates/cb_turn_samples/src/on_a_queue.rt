//! The turn over a queue with room for one value.
ghost use Rattle.std.specs.Prelude.{◌≡◌, OnOk};
ghost use Rattle.cb_turn_queue.specs.Words.{facts, splits, IsFree, Belongs};
ghost use Rattle.cb_turn_samples.specs.Given.{HasGiven};

use crate::numbers::Numbers;
use cb_turn_queue::{QueuePass, QueueTurn};
use std::alloc::AllocError;
use std::sync::Wait;
use std::test::*;

/// Takes the numbers, adds one and gives them back.
fn add<R: Wait>(
    rt: &R,
    turn: &QueueTurn<Numbers>,
    pass: &mut QueuePass<Numbers>,
    number: u64,
) -> Result<(), AllocError>
    requires pass { Belongs turn.now pass.old }
    requires free { IsFree pass.old }
    ensures pass { Belongs turn.now pass.new × IsFree pass.new }
    ensures first { (facts pass.new).first ≡ (facts pass.old).first }
    ensures splits { splits pass.new ≡ splits pass.old }
    ensures given { OnOk result (HasGiven (facts pass.old) number (facts pass.new)) }
{
    let mut numbers = turn.take(rt, pass);
    let added = numbers.add(number);
    turn.give(rt, pass, numbers);
    added
}

#[test]
fn two_passes_take_turns(rt: HostRuntime) -> Result<(), Fail> {
    let (turn, mut first) = QueueTurn::start(rt.alloc(), Numbers::new(rt.alloc(), 7))?;
    add(&rt, &turn, &mut first, 10)?;
    let mut second = turn.split(&mut first);
    let numbers = turn.take(&rt, &mut first);
    assert!(rt; turn.try_take(&rt, &mut second).is_none());
    turn.give(&rt, &mut first, numbers);
    add(&rt, &turn, &mut second, 20)?;
    turn.join(&mut first, second);
    let numbers = turn.close(&rt, first);
    assert_eq!(rt; numbers.items.as_slice(), [10, 20].as_slice());
    Ok(())
}
