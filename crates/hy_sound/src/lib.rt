//! Whether a database can be recovered from the batches of a log.
#![tactic(auto)]

mod customers;
mod known;
mod lengths;
mod looking;
mod merge;

pub use looking::check_log;
pub use merge::Merge;
