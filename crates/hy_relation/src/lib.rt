//! The rows of one table on the pages of its segment.
#![tactic(auto)]

mod address;
mod lent;
mod relation;
mod slots;
mod view;

pub use relation::Relation;
