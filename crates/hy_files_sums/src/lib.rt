//! The digests of the nine files of a load, beside a log.
#![tactic(auto)]

mod beside;
mod sums;

pub use beside::{Found, SumsFault, find_sums, write_sums};
pub use sums::sums_of;
