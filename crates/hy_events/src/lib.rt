//! The events of a script, and the lines that stand for replies.
#![tactic(auto)]

mod command;
mod event;
mod lines;
mod parts;
mod reply;

pub use event::{Event, EventFault, QueryText, SnapshotName, read_event};
pub use lines::{Lines, ScriptLine};
pub use parts::Parts;
pub use reply::write_reply;
