//! What a seat of the table knows. No value of these types is made: they stand in proofs alone.

use crate::entry::Entry;
use std::collections::LinkedList;

/// What one holder knows of the serial list.
pub struct Knowledge<C> {
    /// A beginning of it.
    pub seen: LinkedList<Entry<C>>,
    /// How many looks led there.
    pub looks: u64,
    /// The warehouse whose partition holds it, if one does.
    pub serves: Option<u64>,
}

/// A seat's view.
pub struct View<C> {
    /// What its holder knows.
    pub mine: Knowledge<C>,
    /// At the journal: what the holder knows that is with it.
    pub guest: Knowledge<C>,
    /// At the journal: the warehouses that have still to be told of a commit.
    pub behind: LinkedList<u64>,
    /// At the journal: how many partitions have a seat.
    pub dealt: u64,
}
