//! The lines of an input, as they come.
#![tactic(auto)]

mod input;
mod theorem;

pub use input::{Input, MAX_LINE, Next};
pub use theorem::{input_says_its_lines, input_says_more_and_more};
