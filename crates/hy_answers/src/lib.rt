//! Answers to queries over the rows of all warehouses. What whoever asks names of the crate below is passed on.
#![tactic(auto)]

mod alone;
mod answer;
mod checks;
mod combinations;
mod finding;
mod gathering;
mod joins;
mod kinds;
mod lines;
mod matches;
mod names;
mod own;
mod pieces;
mod plan;
mod reading;
mod results;
mod rows;
mod sorting;
mod sources;
mod text;
mod threads;
mod values;
mod writing;

pub use answer::{Answer, run, run_counted, run_in, run_par};
pub use hy_columns::{Scan, WarehousePages};
pub use text::text_of;
