//! The files of a database: its rows from nine CSV texts and back, and the rows of a generated one.
#![tactic(auto)]

mod files;
mod generated_rows;
mod generated_texts;
mod generator;

pub use files::{load, save, saved_loads_again};
pub use generator::{generate, generated};
