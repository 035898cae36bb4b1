//! What a seat of the table knows. No value of these types is made: they stand in proofs alone.

use std::collections::LinkedList;

/// What one share says: where a command was accepted, and its cents.
pub struct ShareState {
    /// The warehouse whose book gave the share.
    pub warehouse: u64,
    /// What was paid.
    pub cents: u64,
}

/// A seat's view.
pub struct View {
    /// The shares that its holder has.
    pub held: LinkedList<ShareState>,
    /// At a book: the shares of the purse that is with it.
    pub guest: LinkedList<ShareState>,
    /// At a book: the cents of each command that it entered.
    pub paid: LinkedList<u64>,
    /// At a book: its warehouse.
    pub warehouse: u64,
    /// Whether a book has it.
    pub is_book: bool,
    /// At the dealer: how many books there are.
    pub dealt: u64,
    /// Whether the dealer of books has it.
    pub is_dealer: bool,
}
