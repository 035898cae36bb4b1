//! The bytes of the redo log.
#![tactic(auto)]

mod batch;
mod fault;
mod laws;
mod log;
mod reading;
mod seen;
mod sink;
mod values;
mod writing;

pub use batch::Batch;
pub use laws::{beginnings_are_logs, readings_are_one, written_is_read};
pub use log::{Batches, read_log};
pub use sink::{Sink, Text};
pub use writing::{write_batch, write_lists};

#[cfg(test)]
mod tests;
