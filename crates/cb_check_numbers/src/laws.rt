//! What is true of these rules.

ghost use Rattle.cb_check_numbers.specs.Laws.{NumberRulesAreSound};

/// Each rule on numbers or on evaluation is sound, and its premises are kinded.
pub fn number_rules_are_sound()
    ensures { NumberRulesAreSound }
{}
