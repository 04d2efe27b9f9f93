//! Limits of a list of obligations, and what there is in place of a list where one is passed.

ghost use Rattle.std.specs.Prelude.{◌≡◌};

use std::alloc::AllocError;

/// What there is too much of.
#[derive(Clone, Copy, Debug, PartialEq, Eq)]
pub enum Which {
    /// More than 64 controllers.
    Controllers,
    /// More than 256 branches of a substitution.
    Branches,
    /// More than 65,536 visits of a walk through a definition's body.
    Visits,
    /// More than 4,096 obligations.
    Obligations,
    /// More than 20,000 nodes in the hypotheses of a way, or in hypotheses and goal.
    Sequent,
    /// More than 4,000,000 nodes in hypotheses and goals of the list so far.
    Nodes,
}

/// Why there is no list.
#[derive(Clone, Copy, Debug, PartialEq, Eq)]
pub enum MakeFault {
    /// The first limit that is passed.
    Limit(Which),
    /// Want of memory.
    Memory,
}

/// What a list has so far.
#[derive(Clone, Copy, Debug, PartialEq, Eq)]
pub struct Used {
    pub obligations: u64,
    /// Nodes in hypotheses and goals.
    pub nodes: u64,
}

impl From<AllocError> for MakeFault {
    ghost use Rattle.cb_wp.specs.declared.limits.MakeFault.{MakeFault};

    ghost from_gives = { λ _ e. e ≡ MakeFault.Memory };

    fn from(_: AllocError) -> MakeFault {
        MakeFault::Memory
    }
}
