//! The storm: terminals hand in commands, analysts take snapshots and test them, and in the end the sums are laid side by
//! side.
#![tactic(auto)]

mod commands;
mod ending;
mod kept;
mod logging;
mod run;
mod session;
mod shape;
mod terminal;
mod threads;

pub use commands::command_of;
pub use ending::Figures;
pub use hy_engine::{Gate, Open};
pub use run::{Size, storm};
pub use shape::Shape;

// what stands below, for the crates above
pub use hy_engine;
pub use hy_engine::hy_redo_drains;
pub use hy_session;

/// The size of a page in bytes.
const PAGE_BYTES: usize = 4096;
