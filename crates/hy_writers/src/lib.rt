//! The slices of New-Order, Payment and Delivery on the pages of a warehouse. A call that is refused may have written a
//! part of its slice, so that the caller rolls back.
#![tactic(auto)]

mod delivery;
mod finds;
mod information;
mod payment;
mod purchase;

pub use delivery::deliver_in;
pub use finds::{own_district, own_next_order};
pub use payment::{pay_customer, pay_home};
pub use purchase::{add_line, add_order, purchase_total, sell_line};

// what stands below, for the crates above
pub use hy_indexes;
pub use hy_indexes::{hy_index, hy_store};
