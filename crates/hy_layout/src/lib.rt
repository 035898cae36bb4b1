//! Where the rows of a warehouse stand that no transaction adds or takes away.
#![tactic(auto)]

mod items;
mod layout;
mod names;
mod numbers;

pub use items::has_items;
pub use layout::Layout;
