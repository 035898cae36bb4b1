//! One warehouse: transactions in slices, snapshots of what was committed, and the list of commits.
#![tactic(auto)]

mod answer;
mod job;
mod part;
mod partition;
mod schedules;
mod snapshot;
mod unsettled;
mod world;

pub use job::{Done, Job, Progress};
pub use partition::Partition;
pub use schedules::{calls_are_events, every_schedule};
pub use snapshot::Snapshot;
pub use unsettled::UnsettledParts;
pub use world::Loaded;

// what stands below, for the crates above
pub use hy_tpcc;
