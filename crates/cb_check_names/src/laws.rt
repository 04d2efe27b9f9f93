//! What is true of these rules.

ghost use Rattle.cb_check_names.specs.Laws.{NameRulesAreSound};

/// Each rule on quantifiers or equations is sound, and its premises are kinded.
pub fn name_rules_are_sound()
    ensures { NameRulesAreSound }
{}
