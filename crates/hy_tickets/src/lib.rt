//! Numbered tickets that a desk gives out and takes back.
#![tactic(auto)]

mod desk;
mod law;
mod ticket;
mod view;

pub use desk::{Blank, Desk};
pub use ticket::Ticket;
