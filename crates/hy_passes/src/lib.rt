//! The one serial list of commits, and what each client has seen of it.
#![tactic(auto)]

mod cursor;
mod entry;
mod journal;
mod kept;
mod kit;
mod law;
mod laws;
mod pass;
mod passes;
mod seat;
mod view;

pub use cursor::Cursor;
pub use entry::{Commits, Entry};
pub use journal::{Journal, MAX_COMMITS, SerialList};
pub use kept::KeptList;
pub use kit::{Kit, MAX_CLIENTS, MAX_PARTITIONS, make};
pub use laws::{beginnings_of_kept_lists, projections_agree, telling_all_leaves_none_behind};
pub use pass::Pass;
pub use passes::Passes;
pub use seat::{PartitionSeat, SerialSeat};

#[cfg(test)]
mod tests;
