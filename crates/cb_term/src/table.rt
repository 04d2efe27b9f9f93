//! The enumerated sets of a system.

use crate::name::{Name, Names};

/// A set's name, and the names of its elements in order.
#[derive(Debug, Drop)]
pub struct SetNames {
    pub name: Name,
    pub elements: Names,
}

/// The enumerated sets. A set's number is its place here, and an element's number its place in its set.
#[derive(Debug, Drop)]
pub struct SetTable {
    pub sets: Vec<SetNames>,
}
