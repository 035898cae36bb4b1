//! The steps of a command over several warehouses, in the partitions of all warehouses of a load.
//!
//! What runs in the warehouses that the command names is ended (`end_jobs`), and they are told the whole serial list
//! (`tell_named`). The command is looked at (`prepare`). Its parts are done in all of these warehouses or in none
//! (`do_parts`), and are kept once the command has entered the serial list (`keep_parts`).
#![tactic(auto)]

mod before;
mod crossing;
mod doing;
mod entering;
mod held;
mod keeping;
mod looking;
mod making;
mod named;
mod parts;
mod undoing;

pub use before::{end_jobs, prepare, tell_named};
pub use crossing::cross;
pub use doing::do_parts;
pub use entering::keep_all;
pub use held::Held;
pub use keeping::keep_parts;
pub use looking::are_partitions;
pub use making::partitions_of;
pub use named::{NamedCommand, NamedPlaces};
pub use parts::Parts;

// what stands below, for the crates above
pub use hy_partition;
pub use hy_partition::hy_tpcc;
