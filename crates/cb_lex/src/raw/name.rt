//! Names as they are written.

use crate::bytes::Bytes;
use crate::token::Place;
use sqlite_items::Items;

/// A name and its place.
#[derive(Debug, Drop)]
pub struct RawName {
    pub text: Bytes,
    /// The number of an opened name; 0 for a name as it is written.
    pub number: u32,
    pub place: Place,
}

/// Names in order.
pub type RawNames = Items<RawName>;
