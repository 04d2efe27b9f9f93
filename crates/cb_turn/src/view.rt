//! What a pass knows.
use std::collections::LinkedList;

/// What a pass knows of its turn. It is for clauses alone: a program makes no value of it.
pub struct View<P, E> {
    /// It was joined to another pass, and knows nothing.
    pub spent: bool,
    /// The plan of the value. It is `None` before the value is there, and once the pass is joined.
    pub plan: Option<P>,
    /// The entries that it has seen. While it holds the value, this is the list that it took.
    pub seen: LinkedList<E>,
    /// The places in `seen` of the entries that it gave in.
    pub mine: LinkedList<u64>,
    /// It has taken the value, and has not yet given it back.
    pub holds: bool,
    /// It came with the turn, and was not split off.
    pub first: bool,
    /// The number of passes that were split off from it and are not yet joined.
    pub splits: u64,
}
