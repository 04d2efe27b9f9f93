//! The function does nothing: its contract is a law of what is spelled.

ghost use Rattle.cb_cert_shapes.specs.Laws.{ProofsAreFull};

/// Proofs among what any tokens spell are full: each rule has the arguments and the premises that its word takes, LIN has
/// a row, and the names of obligations have the parts that their groups have.
pub fn proofs_are_full()
    ensures { ProofsAreFull }
{}
