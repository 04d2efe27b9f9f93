//! Why words are no request.
ghost use Rattle.std.specs.Prelude.{◌≡◌};
ghost use Rattle.cb_words.specs.declared.fault.WordsFault.TheVariants.{Memory};

use std::alloc::AllocError;
use thiserror::Error;

/// Why the words gave no request.
#[derive(Clone, Copy, Debug, PartialEq, Eq, Error)]
pub enum WordsFault {
    /// The words spell no request.
    #[error("the words spell no request")]
    Words,
    /// Want of memory.
    #[error("out of memory")]
    Memory,
}

impl From<AllocError> for WordsFault {
    ghost from_gives = { λ _ fault. fault ≡ Memory };

    fn from(_fault: AllocError) -> WordsFault {
        WordsFault::Memory
    }
}
