//! What is promised of outcomes and of accepted texts.

ghost use Rattle.cb_top.specs.Accepted.{DoneIsAccepted};
ghost use Rattle.cb_top.specs.Outcome.{OutcomesHaveStatuses};

use cb_check::laws::{derived_is_valid, derives_without_bad};
use cb_controlled_laws::laws::{typed_systems_are_safe, typed_systems_owe_kinded};
use cb_obligations::laws::{obligations_suffice, sound_is_safe};
use cb_spelled::laws::tokens_are_bytes;
use cb_spelled_texts::laws::spelled_is_spelled_text;
use cb_text_laws::laws::{ends_are_more, text_is_typed};
use cb_typed::laws::{typed_machines_fit, typed_machines_keep_kinds, typed_machines_owe_kinded};

/// A request that takes accepted texts alone ends with status 0 on no other, and the system of an accepted text is safe, whatever its
/// controllers do and in whatever order; each of its machines keeps its invariant in every list of calls within the preconditions.
pub fn done_is_accepted()
    ensures { DoneIsAccepted }
{
    derived_is_valid();
    derives_without_bad();
    typed_machines_owe_kinded();
    typed_systems_owe_kinded();
    typed_machines_fit();
    typed_machines_keep_kinds();
    obligations_suffice();
    sound_is_safe();
    typed_systems_are_safe();
    spelled_is_spelled_text();
    tokens_are_bytes();
    ends_are_more();
    text_is_typed();
}

/// The status of each outcome is 0, 1, 2 or 7.
pub fn outcomes_have_statuses()
    ensures { OutcomesHaveStatuses }
{}
