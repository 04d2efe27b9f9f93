//! Each function does nothing: its contract is a law of what is spelled.

ghost use Rattle.cb_spelled.specs.Laws.{SpelledIsWritten, TokensAreBytes};

use cb_shapes::laws::{text_is_full, words_are_tokens};

/// A text that fewer than 2^32 tokens spell is written: no part is empty that may not be, and 32 bits can count what there is.
pub fn spelled_is_written()
    ensures { SpelledIsWritten }
{
    text_is_full();
    words_are_tokens();
}

/// Bytes are cut into at most one token more than there are bytes: the last one, which has none.
pub fn tokens_are_bytes()
    ensures { TokensAreBytes }
{}
