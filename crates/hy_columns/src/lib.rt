//! The columns of tables, read from the pages of all warehouses.
#![tactic(auto)]

mod block;
mod by_place;
mod column;
mod count;
mod decode;
mod fields;
mod items;
mod joined;
mod pages;
mod reading;
mod scan;
mod spanned;
mod texts;
#[cfg(test)]
mod thread_tests;
mod values;

pub use block::{Block, blocks_of};
pub use by_place::{ByPlace, Copied, Numbers, Signed, Texts};
pub use column::{column_of, read_block};
pub use count::{count_block, count_of};
pub use scan::{Scan, WarehousePages};
pub use texts::CopiedTexts;
pub use values::ColumnValues;
