//! Sessions of analysts: what is asked of a snapshot of the whole database while payments run. What whoever asks names of the
//! crate below is passed on.
#![tactic(auto)]

mod rows;
mod scans;
mod session;

pub use hy_answers::{Answer, text_of};
pub use scans::{run, run_counted, run_in, run_par};
pub use session::{Session, WarehouseReport};

// what stands below, for the crates above
pub use hy_forks;
pub use hy_forks::{hy_crossing, hy_partition};
