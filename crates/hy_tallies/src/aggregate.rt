//! What is answered of a group at one place.

/// What is answered of the values that a group has at one place.
#[derive(Clone, Copy, Debug, PartialEq, Eq)]
pub enum Aggregate {
    /// The first one.
    First,
    /// Their sum, modulo 2^128. Of ones it is the count.
    Sum,
    /// The least, the first of those where several are equal.
    Least,
    /// The greatest, likewise.
    Greatest,
}
