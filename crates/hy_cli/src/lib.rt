//! The command line of the program: what it takes, and what its words say.
#![tactic(auto)]

mod given;
mod program;
mod words;

pub use words::{Line, LineFault, read_words};
