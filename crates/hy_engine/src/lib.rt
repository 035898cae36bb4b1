//! The engine: a worker for each warehouse, queues of jobs and of answers, and calls on all warehouses at one moment.
//!
//! Each partition stands behind a lock of its own, and the journal behind another, which is taken last and for last
//! slices alone. Locks of partitions are taken in rising order of warehouse. Nobody holds one while waiting for a job or
//! an answer.
#![tactic(auto)]

mod answer;
mod draining;
mod engine;
mod gate;
mod holding;
mod locking;
mod new_job;
mod submitting;
mod working;

pub use engine::{Engine, MAX_CAPACITY};
pub use gate::{Gate, Open};
pub use holding::HeldPartitions;
pub use hy_redo_drains::DrainLog;

// what stands below, for the crates above
pub use hy_redo_drains;
