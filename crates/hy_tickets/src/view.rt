//! What a seat of a desk's table knows. No value of this type is made: it stands in proofs alone.

use std::collections::LinkedList;

/// A seat's view.
pub struct View {
    /// At the desk: the numbers of the tickets that are out.
    pub out: LinkedList<u64>,
    /// The number of the ticket that the seat is.
    pub mine: Option<u64>,
    /// At the desk: that of the ticket that lies on it.
    pub guest: Option<u64>,
}
