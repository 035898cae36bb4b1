//! Rows of the nine tables as records of CSV texts.
#![tactic(auto)]

mod fields;
mod header;
mod reading;
mod record;
mod writing;

pub use reading::{Reading, read};
pub use writing::{reads_back, write};
