//! Bounded queues between threads: whoever waits for an item sleeps, and a queue can be closed.
//!
//! By the rule of a queue what came out, then what it holds, is what went in.
#![tactic(auto)]

mod line;
mod rule;

pub use line::Line;
