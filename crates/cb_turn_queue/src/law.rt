//! The rule of the queue under a turn, and what each step on it tells.
use cb_turn::{Kept, View};
use crossbeam_queue::protocol::{Join, Lesson, Outcome, Protocol, Split};

/// The value is in the queue and no pass holds it, or the queue is empty and one pass does.
pub struct Law;

impl<T: Kept> Protocol<T, View<T::Plan, T::Entry>> for Law {
    ghost use Rattle.cb_turn.specs.Views.{IsRuled};
    ghost use Rattle.cb_turn_queue.specs.Openings.{opening};

    ghost holds = { IsRuled T.plan T.list };

    ghost first = { opening };
}

/// The push that puts the first value in.
pub struct Start;

impl<T: Kept> Outcome<T, View<T::Plan, T::Entry>> for Start {
    ghost use Rattle.cb_turn_queue.specs.Openings.{Starts};

    ghost then = { Starts T.plan T.list };
}

/// The pop by which a pass takes the value, or learns that another holds it.
pub struct Take;

impl<T: Kept> Outcome<T, View<T::Plan, T::Entry>> for Take {
    ghost use Rattle.cb_turn.specs.Views.{Takes};

    ghost then = { Takes T.plan T.list };
}

impl<T: Kept> Lesson<T, View<T::Plan, T::Entry>> for Take {
    ghost use Rattle.std.specs.Prelude.{◌≡◌, length};
    ghost use Rattle.cb_turn.specs.Views.{AnotherHolds};

    ghost fact = { λ v items. length items ≡ 0 → AnotherHolds v };
}

/// The push by which a pass gives the value back.
pub struct Give;

impl<T: Kept> Outcome<T, View<T::Plan, T::Entry>> for Give {
    ghost use Rattle.cb_turn.specs.Views.{Gives};

    ghost then = { Gives T.plan T.list };
}

impl<T: Kept> Lesson<T, View<T::Plan, T::Entry>> for Give {
    ghost use Rattle.std.specs.Prelude.{◌≡◌, length};

    ghost fact = { λ v items. length items ≡ 0 };
}

/// A pass of the first one, and how it goes back into it.
pub struct Part;

impl<P, E> Split<View<P, E>> for Part {
    ghost use Rattle.cb_turn.specs.Views.{split_from, split_off};

    ghost left = { split_from };

    ghost right = { split_off };
}

impl<P, E> Join<View<P, E>> for Part {
    ghost use Rattle.cb_turn.specs.Views.{joined, spent};

    ghost both = { joined };

    ghost spent = { spent };
}
