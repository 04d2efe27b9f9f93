//! What a kept value stands for.
ghost use Rattle.std.specs.Prelude.{List};

/// A value that a turn can keep. It stands for a plan and a list of entries.
///
/// The plan stays as it is while the value goes from hand to hand, and the list only grows at its end.
pub trait Kept {
    /// What the value works from.
    type Plan;

    /// What its list is made of.
    type Entry;

    ghost plan: { Self → Self.Plan };

    ghost list: { Self → List Self.Entry };
}
