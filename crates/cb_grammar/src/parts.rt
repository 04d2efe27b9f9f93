//! The parts that can be read by themselves. Written by tools/table.py from tools/cspb.grammar.

ghost use Rattle.std.specs.Prelude.{◌≡◌};
ghost use Rattle.cb_grammar.specs.Parts.{number_of};

/// A part of the language that can be read by itself.
#[derive(Clone, Copy, Debug, PartialEq, Eq)]
pub enum Part {
    /// `whole` in the grammar; leaves text proofs.
    Whole,
    /// `before_proofs` in the grammar; leaves text.
    Text,
    /// `only_proofs` in the grammar; leaves proofs.
    Proofs,
    /// `machine` in the grammar; leaves machine.
    Machine,
    /// `channels` in the grammar; leaves channels.
    Channels,
    /// `controller` in the grammar; leaves controller.
    Controller,
    /// `formula` in the grammar; leaves formula.
    Formula,
    /// `term` in the grammar; leaves term.
    Term,
    /// `domain` in the grammar; leaves domain.
    Domain,
}

// its number in the table
pub(crate) fn number_of_part(part: Part) -> u8
    ensures { result ≡ number_of part }
{
    match part {
        Part::Whole => 1,
        Part::Text => 2,
        Part::Proofs => 3,
        Part::Machine => 9,
        Part::Channels => 31,
        Part::Controller => 34,
        Part::Formula => 47,
        Part::Term => 62,
        Part::Domain => 25,
    }
}
