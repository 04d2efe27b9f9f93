//! What is true of these rules.

ghost use Rattle.cb_check_sets.specs.Laws.{SetRulesAreSound};

/// Each rule on sets and elements is sound, and its premises are kinded.
pub fn set_rules_are_sound()
    ensures { SetRulesAreSound }
{}
