//! What a certificate shows.

ghost use Rattle.cb_check.specs.Laws.{DerivedIsValid, DerivesWithoutBad};

use cb_check_logic::laws::logic_rules_are_sound;
use cb_check_names::laws::name_rules_are_sound;
use cb_check_numbers::laws::number_rules_are_sound;
use cb_check_sets::laws::set_rules_are_sound;

/// What a certificate derives of a kinded sequent is valid.
pub fn derived_is_valid()
    ensures { DerivedIsValid }
{
    logic_rules_are_sound();
    name_rules_are_sound();
    number_rules_are_sound();
    set_rules_are_sound();
}

/// A certificate derives a sequent exactly where none of its nodes is bad.
pub fn derives_without_bad()
    ensures { DerivesWithoutBad }
{}
