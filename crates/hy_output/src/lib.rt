//! Outputs: writers that know whether a write to them has failed.
#![tactic(auto)]

mod output;
mod stream;
mod take;

pub use output::Output;
pub use stream::Stream;
pub use take::{Spare, Take};
