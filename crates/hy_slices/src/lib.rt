//! The five transactions in slices, and that the slices of a command together do what the command does.
#![tactic(auto)]

mod theorem;

pub use theorem::{
    deliveries_stay_the_same, lines_are_new, numbers_stay_small_between, rows_stay_whole,
    slices_are_the_command,
};
