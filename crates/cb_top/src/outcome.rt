//! What a request answers, before anything is printed.
use std::alloc::AllocError;

/// How a request that is answered by a text ends.
#[derive(Clone, Copy, Debug, PartialEq, Eq)]
pub(crate) enum Ending {
    /// All that was asked for is done.
    Done,
    /// An obligation is not proved.
    Open,
}

/// Why a text was refused.
#[derive(Clone, Copy, Debug, PartialEq, Eq)]
pub(crate) enum Refusal {
    IllFormed,
    Limit,
}

/// A text for standard output, or a fault with its line.
#[derive(Drop)]
pub(crate) enum Outcome {
    Text { ending: Ending, text: Vec<u8> },
    Fault { refusal: Refusal, line: Vec<u8> },
}

/// Why there is no outcome: a file that wasn't read, with its line, or want of memory.
#[derive(Drop)]
pub(crate) enum Stop {
    Unread(Vec<u8>),
    Memory,
}

impl From<AllocError> for Stop {
    ghost use Rattle.std.specs.Prelude.{◌≡◌};
    ghost use Rattle.cb_top.specs.declared.outcome.Stop.TheVariants as stop;

    ghost from_gives = { λ _ s. s ≡ stop.Memory };

    fn from(_fault: AllocError) -> Stop {
        Stop::Memory
    }
}
