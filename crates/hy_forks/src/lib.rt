//! Snapshots of the whole database, and what was committed since the last drain. What whoever has one names of the crates
//! below is passed on.
#![tactic(auto)]

mod closing;
mod drains;
mod forks;
mod forks_from;
mod gathering;
mod history;
mod knowing;
mod logged;
mod partitions;
mod serving;
mod snapshot;

pub use gathering::Gathered;
pub use hy_batches::Batch;
pub use hy_crossing::Parts;
pub use hy_crossing::hy_partition::{Loaded, Partition, Snapshot};
pub use knowing::know_replayed;
pub use logged::logs_begin;
pub use partitions::{OwnPartitions, Partitions};
pub use snapshot::SnapshotAll;

// what stands below, for the crates above
pub use hy_crossing;
pub use hy_crossing::{hy_partition, hy_tpcc};
