//! A database of several warehouses: what commands do to it, and what no list of commits breaks.
#![tactic(auto)]

mod theorem;

pub use theorem::{
    every_database_is_consistent, kept_commands_do_the_same, refusals_never_change,
    warehouses_are_replays,
};
