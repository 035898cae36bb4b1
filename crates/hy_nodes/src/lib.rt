//! The pages of a tree of items, one segment of a space: how a page is read, the writes that change its items, and pages
//! that fell out of the tree and are used again.
#![tactic(auto)]

mod free;
mod key;
pub mod node;
mod order;
mod pages;

pub use key::{ItemBytes, KeyBytes, MAX_KEY_BYTES, push_bytes};
pub use pages::{Tree, copied, item_of};
