//! The rows of a warehouse and the indexes over them, on the pages of one space.
#![tactic(auto)]

mod create;
mod indexes;
mod keys;
mod rows;

pub use create::empty_store;
pub use indexes::{
    Indexed, find_slot, first_entry, insert_entry, know_entries, read_entries, remove_entry,
};
pub use keys::{CustomerKey, LineKey, OrderKey, WaitingKey};
pub use rows::{
    erase_new_order, glance_at, know_store, part_at, push_new_order, push_row, put_part, put_row,
    row_at, row_bytes_at,
};

// what stands below, for the crates above
pub use hy_index;
pub use hy_relation;
