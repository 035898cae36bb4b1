//! The editions of the transactions.

/// An edition of the transactions: what a command does, as the log and the kept list know it. A commit replays by its own.
#[derive(Clone, Copy, Debug, PartialEq, Eq)]
pub enum Edition {
    /// The first: a payment leaves C_DATA as it was.
    First,
    /// The second: a payment of a customer whose C_CREDIT is `BC` notes itself in C_DATA (TPC-C clause 2.5.2.2). New
    /// commands are of this one.
    Second,
}
