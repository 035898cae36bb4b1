//! Loads: the rows that a database begins with, accepted only where all rules of the lists and the consistency
//! conditions hold.
#![tactic(auto)]

mod base;
mod keys;
mod list;
mod load;
mod orders;

pub use load::Load;
