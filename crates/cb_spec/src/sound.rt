//! Sound systems.

ghost use Rattle.std.specs.Prelude.{◌≡◌};
ghost use Rattle.cb_spec.specs.Typed.{Typed};
ghost use Rattle.cb_spec.specs.Sound.{Sound};

use crate::system::System;
use std::marker::Model;

/// A system that is typed and sound, by its type. Contracts see it as the system.
#[derive(Drop)]
pub struct SoundSpec {
    system: System,
}

impl Model for SoundSpec {
    ghost use Rattle.cb_spec.specs.declared.system.System.{System};
    ghost use Rattle.cb_spec.specs.SystemCode.{coded_system};
    ghost use Rattle.cb_spec.specs.Sound.{Sure};

    ghost Value = { System };

    ghost coded = { coded_system };

    ghost view = { λ s. s.system };

    ghost invariant = { λ s. Sure s.system };
}

impl SoundSpec {
    /// The specification of a sound system.
    pub fn of(spec: System) -> SoundSpec
        requires typed { Typed spec }
        requires sound { Sound spec }
        ensures { result ≡ spec }
    {
        SoundSpec { system: spec }
    }

    /// The system.
    pub fn spec(&self) -> &System
        ensures system { result.now ≡ self.now }
        ensures typed { Typed self.now }
        ensures sound { Sound self.now }
    {
        &self.system
    }
}
