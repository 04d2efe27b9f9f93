//! Each function does nothing: its contract is a law of what is spelled.

ghost use Rattle.cb_shapes.specs.Laws.{MachineIsFull, MachinesAreFull, TextIsFull, WordsAreTokens};

/// A machine among what any tokens spell is full: it has no set without elements, no VARIABLES without names, no
/// CONSTANTS or PROPERTIES alone, and no CHOICE of less than two sides.
pub fn machines_are_full()
    ensures { MachinesAreFull }
{}

/// So is a machine that tokens spell by itself.
pub fn machine_is_full()
    ensures { MachineIsFull }
{
    machines_are_full();
}

/// So is each machine of a text that tokens spell.
pub fn text_is_full()
    ensures { TextIsFull }
{
    machines_are_full();
}

/// What is written for tokens has no more words than there are tokens.
pub fn words_are_tokens()
    ensures { WordsAreTokens }
{}
