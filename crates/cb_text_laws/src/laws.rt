//! Laws of whole texts. Each is the contract of a function with nothing to do: a caller calls it for its fact.

ghost use Rattle.cb_text_laws.specs.Laws.{TextIsTyped, EndsAreMore};

/// A whole text without a fault, ends of channels aside, is a typed system.
pub fn text_is_typed()
    ensures { TextIsTyped }
{}

/// A text without a fault has none where ends of channels are left aside.
pub fn ends_are_more()
    ensures { EndsAreMore }
{}
