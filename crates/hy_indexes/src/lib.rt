//! What the four indexes of a warehouse must have: definitions, and the laws that those who fill and use them share.
#![tactic(auto)]

// what stands below, for the crates above
pub use hy_store;
pub use hy_store::hy_index;
