//! Frames: numbered places for pages, each with a count of those who use it.
#![tactic(auto)]

mod errors;
mod frame_no;
mod frames;
mod hold;
mod slot;

pub use errors::{OutOfRange, Shortage};
pub use frame_no::FrameNo;
pub use frames::{Frames, MAX_FRAMES};
pub use hold::Hold;
