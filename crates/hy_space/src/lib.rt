//! Pages of memory in segments, with children that see them as they were when they were forked.
#![tactic(auto)]

mod space;
mod tables;
mod users;

pub use space::Space;
