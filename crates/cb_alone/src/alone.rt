//! A run of a sound system on one thread.

ghost use Rattle.std.specs.Prelude.{◌≡◌, None, length, IfOk, OnOk};
ghost use Rattle.cb_spec.specs.States.{state_of};
ghost use Rattle.cb_spec.specs.Journals.{Run};
ghost use Rattle.cb_system.specs.Views.{last_end};
ghost use Rattle.cb_alone.specs.Complete.{IsCompleteRun};
ghost use Rattle.cb_alone.specs.Rounds.{IsRound};

use cb_relation::pick::Stream;
use cb_spec::sound::SoundSpec;
use cb_system::running::Running;
use cb_term::Memory;
use std::alloc::Global;

/// Runs a sound system to its end, with at most `limit` calls and passes: its controllers step in turn, and a stream of this seed
/// takes the choices that are left. `Err`: want of memory.
pub fn run_alone(alloc: Global, sound: SoundSpec, limit: u32, seed: u64) -> Result<Running, Memory>
    ensures { IfOk result (IsCompleteRun sound limit) }
{
    let mut pick = Stream::new(seed);
    let controllers = sound.spec().order.as_slice().len() as u32;
    let mut running = Running::start(alloc, sound, limit, &mut pick)?;
    'rounds: loop {
        if step_each(alloc, &mut running, controllers, &mut pick)? {
            return Ok(running);
        }
    }
}

// One step of each controller in turn, after which a cause that is due ends the journal. Tells whether it has ended.
fn step_each(
    alloc: Global,
    running: &mut Running,
    controllers: u32,
    pick: &mut Stream,
) -> Result<bool, Memory>
    requires open { last_end running.old.journal ≡ None }
    requires all { controllers ≡ length running.old.system.order }
    ensures system { running.new.system ≡ running.old.system }
    ensures limit { running.new.limit ≡ running.old.limit }
    ensures run { OnOk result (Run running.new.system running.new.limit running.new.initial running.new.journal (state_of running.new.state)) }
    ensures round { IfOk result (IsRound running.old.journal running.new.journal) }
{
    for controller in 0..controllers {
        running.step(alloc, controller, pick)?;
    }
    running.end_if_due();
    Ok(running.end_of().is_some())
}
