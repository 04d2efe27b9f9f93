//! The function does nothing: its contract is a law of what is spelled.

ghost use Rattle.cb_spelled_texts.specs.Laws.{SpelledIsSpelledText};

use cb_shapes::laws::words_are_tokens;
use cb_spelled::laws::spelled_is_written;

/// A text that fewer than 2^32 tokens spell is a spelled text: no part is empty that may not be, each chain has two
/// operands or more, a system has a controller, and 32 bits can count what there is.
pub fn spelled_is_spelled_text()
    ensures { SpelledIsSpelledText }
{
    spelled_is_written();
    words_are_tokens();
}
