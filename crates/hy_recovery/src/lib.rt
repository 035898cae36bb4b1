//! The partitions of a load, recovered from the batches of a log.
#![tactic(auto)]

mod checking;
mod counting;
mod logged;
mod recovering;
mod replaying;
mod running;

pub use checking::check_batches;
pub use counting::kit_for;
pub use logged::recovered_say_the_same;
pub use recovering::recover;

// what stands below, for the crates above
pub use hy_forks;
pub use hy_forks::{hy_crossing, hy_partition};
