//! What a service answers to the lines of an input, held until it may be printed.
#![tactic(auto)]

mod answers;
mod theorem;

pub use answers::{Answers, Style};
pub use theorem::answers_follow_one_another;
