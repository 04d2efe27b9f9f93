//! The rule of the table under a turn, and what each step on it tells.
use crate::kept::Kept;
use crate::view::View;
use atomic_table::{Join, Play, Split, TableRule};
use std::snapshot::Snapshot;

/// The value is in the slot and no pass holds it, or the slot is out with the one pass that does.
pub struct Law;

impl<T: Kept> TableRule<Option<T>, View<T::Plan, T::Entry>, Snapshot<T>> for Law {
    ghost use Rattle.cb_turn.specs.Slots.{IsKept};
    ghost use Rattle.cb_turn.specs.Views.{started};

    ghost holds = { λ _. IsKept T.plan T.list };

    ghost first = { λ k. started (T.plan k.value) (T.list k.value) };
}

/// The exchange of the word, by which a pass takes the value or learns that another holds it.
pub struct Claim;

impl<T: Kept> Play<Option<T>, View<T::Plan, T::Entry>> for Claim {
    ghost use Rattle.cb_turn.specs.Slots.{Claims};

    ghost then = { Claims T.plan T.list };
}

/// The store of the word, by which a pass gives the value back.
pub struct Release;

impl<T: Kept> Play<Option<T>, View<T::Plan, T::Entry>> for Release {
    ghost use Rattle.cb_turn.specs.Slots.{Releases};

    ghost then = { Releases T.plan T.list };
}

/// A pass of the first one, and how it goes back into it.
pub struct Part;

impl<P, E> Split<View<P, E>> for Part {
    ghost use Rattle.cb_turn.specs.Views.{split_from, split_off};

    ghost left = { split_from };

    ghost right = { split_off };
}

impl<P, E> Join<View<P, E>> for Part {
    ghost use Rattle.cb_turn.specs.Views.{joined, spent};

    ghost both = { joined };

    ghost spent = { spent };
}
