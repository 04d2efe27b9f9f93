//! Judged systems.

ghost use Rattle.std.specs.Prelude.{◌≡◌, ◌≢◌, IfOk, IfErr, OnOk, OnErr};
ghost use Rattle.cb_spec.specs.Typed.{Typed};
ghost use Rattle.cb_spec.specs.Journals.{set_sizes};
ghost use Rattle.cb_trace.specs.Texts.{open_count as unproved};
ghost use Rattle.cb_owed.specs.Lists.{system_owes};
ghost use Rattle.cb_judged.specs.Kept.{Tells};

use cb_controlled_laws::laws::typed_systems_are_sound;
use cb_seq::sequent::ObName;
use cb_spec::sound::SoundSpec;
use cb_spec::system::System;
use cb_trace::verdict::{Verdict, open_count};
use std::marker::Model;

/// A system with the verdicts on its obligations. By its type the system is typed, the lines have the names of what it owes, in
/// order, and what is owed under a line that says proved is valid.
#[derive(Drop)]
pub struct Judged {
    system: System,
    lines: Vec<(ObName, Verdict)>,
}

impl Model for Judged {
    ghost use Rattle.cb_judged.specs.Kept.{JudgedView, coded_judged, Keeps};

    ghost Value = { JudgedView };

    ghost coded = { coded_judged };

    ghost view = { λ j. record { system = j.system; lines = j.lines.items } };

    ghost invariant = { λ j. Keeps j.system j.lines.items };
}

impl Judged {
    // These are the verdicts on what the system owes.
    pub(crate) fn new(system: System, lines: Vec<(ObName, Verdict)>) -> Judged
        requires typed { Typed system }
        requires tells { Tells (set_sizes system) (system_owes system) lines.items }
        ensures system { result.system ≡ system }
        ensures lines { result.lines ≡ lines.items }
    {
        Judged { system, lines }
    }

    /// The system.
    pub fn system(&self) -> &System
        ensures { result.now ≡ self.now.system }
    {
        &self.system
    }

    /// The name of each obligation, in order, with its verdict.
    pub fn lines(&self) -> &[(ObName, Verdict)]
        ensures { result.now ≡ self.now.lines }
    {
        &self.lines
    }

    /// The system, which is sound where each obligation is proved.
    ///
    /// # Errors
    /// The value as it was, exactly where a verdict isn't proved.
    pub fn sound(self) -> Result<SoundSpec, Judged>
        ensures system { IfOk result (λ s. s ≡ self.system) }
        ensures proved { OnOk result (unproved self.lines ≡ 0) }
        ensures unproved { OnErr result (unproved self.lines ≢ 0) }
        ensures back { IfErr result (λ j. j ≡ self) }
    {
        if open_count(&self.lines) != 0 {
            return Err(self);
        }
        typed_systems_are_sound();
        Ok(SoundSpec::of(self.system))
    }
}
