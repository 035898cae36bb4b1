//! Scripts: the events of a file, one after the other, on a database of one partition for each warehouse.
#![tactic(auto)]

mod answer;
mod database;
mod event;
mod held;
mod kit;
mod named;
mod script;
mod terminal;

pub use database::Database;
pub use event::{Unanswered, answer_line};
pub use script::{ScriptFault, run_script};
