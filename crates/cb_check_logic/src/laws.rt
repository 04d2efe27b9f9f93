//! What is true of these rules.

ghost use Rattle.cb_check_logic.specs.Laws.{LogicRulesAreSound};

/// Each rule on connectives and booleans is sound, and its premises are kinded.
pub fn logic_rules_are_sound()
    ensures { LogicRulesAreSound }
{}
