//! The beginning of a system.

ghost use Rattle.std.specs.Prelude.{IfOk};
ghost use Rattle.cb_beginning.specs.Begins.{Begins};

use crate::initial::initial_store;
use crate::layout::lay_system;
use crate::room::with_room;
use cb_code::code::Code;
use cb_code::place::Place;
use cb_relation::pick::Pick;
use cb_spec::sound::SoundSpec;
use cb_spec::store::Store;
use cb_term::Memory;
use sqlite_items::Items;
use std::alloc::Global;

/// What a run begins with.
#[derive(Drop)]
pub struct Beginning {
    /// The values of the machines' variables.
    pub initial: Store,
    /// The same, with a place for each parameter of an operation.
    pub store: Store,
    /// The processes.
    pub code: Code,
    /// For each controller, by their numbers, the places of its definitions' bodies.
    pub bodies: Vec<Items<u32>>,
    /// Where each controller is, by their numbers.
    pub places: Vec<Place>,
}

/// Lets a sound system begin: each machine's initialisation runs once, the picker taking the choices that it leaves, and each
/// controller is at its START call. It fails where memory is wanting.
pub fn begin<P: Pick>(alloc: Global, sound: &SoundSpec, pick: &mut P) -> Result<Beginning, Memory>
    ensures { IfOk result (λ b. Begins sound.now b) }
{
    let system = sound.spec();
    let initial = initial_store(alloc, system, pick)?;
    let store = with_room(alloc, system, &initial)?;
    let layout = lay_system(alloc, system)?;
    Ok(Beginning {
        initial,
        store,
        code: layout.code,
        bodies: layout.bodies,
        places: layout.places,
    })
}
