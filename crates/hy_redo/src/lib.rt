//! The redo log's writer: batches of commits that go out behind one another, and are acknowledged once they are synced.
#![tactic(auto)]

mod laws;
mod log;
mod out;
mod pending;

pub use laws::{answers_have_causes, stops_leave_batches};
pub use log::Log;
pub use out::{Failed, LogOut};

#[cfg(test)]
mod tests;
