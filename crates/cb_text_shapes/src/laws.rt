//! The function does nothing: its contract is a law of what is spelled.

ghost use Rattle.cb_text_shapes.specs.Laws.{TextIsWhole};

use cb_shapes::laws::text_is_full;

/// A text that tokens spell is whole: its machines are full, and it has one if it is machines alone; else it has a controller and an
/// order, each controller has a definition, and each chain of processes has two operands or more.
pub fn text_is_whole()
    ensures { TextIsWhole }
{
    text_is_full();
}
