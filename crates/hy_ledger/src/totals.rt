//! What books or purses come to.

/// A number of commits, and their cents.
#[derive(Clone, Copy, PartialEq, Eq, Debug)]
pub struct Totals {
    /// How many commands were accepted.
    pub commits: u64,
    /// What was paid with them.
    pub cents: u64,
}
