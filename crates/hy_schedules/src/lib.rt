//! What the calls on the partitions of all warehouses come to, in whatever order they are made.
#![tactic(auto)]

mod theorem;

pub use theorem::{
    calls_of_all_are_events, calls_of_all_tell_clients, drains_come_to_the_end,
    every_schedule_of_all,
};
