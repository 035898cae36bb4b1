//! A redo log that is handed what a database commits.
#![tactic(auto)]

mod drain_log;
mod laws;

pub use drain_log::DrainLog;
pub use laws::stops_leave_a_beginning;

// what stands below, for the crates above
pub use hy_forks;
pub use hy_forks::{hy_crossing, hy_partition};
