//! Laws of obligations. Each is the contract of a function with nothing to do: a caller calls it for its fact.

ghost use Rattle.cb_obligations.specs.Laws.{TransformIsRight, LiveIsRight, PiecesSuffice, PiecesAreNeeded};
ghost use Rattle.cb_obligations.specs.Sufficing.{ObligationsSuffice, SoundIsCallSafe};

/// What the transformed formula says is what each run leaves.
pub fn transform_is_right()
    ensures { TransformIsRight }
{}

/// The formula of liveness says that the substitution is live.
pub fn live_is_right()
    ensures { LiveIsRight }
{}

/// Valid pieces make the formula hold.
pub fn pieces_suffice()
    ensures { PiecesSuffice }
{}

/// A formula that holds has valid pieces.
pub fn pieces_are_needed()
    ensures { PiecesAreNeeded }
{}

/// Valid obligations say what a sound machine needs.
pub fn obligations_suffice()
    ensures { ObligationsSuffice }
{}

/// A sound machine keeps its invariant, whatever is called within preconditions.
pub fn sound_is_safe()
    ensures { SoundIsCallSafe }
{}
