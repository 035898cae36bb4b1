//! What a database gives to its log can be recovered from.
#![tactic(auto)]

mod theorem;

pub use theorem::{
    acknowledged_commits_are_recovered, drained_logs_are_sound, drains_give_batches,
    lives_are_recovered, lives_begin, stops_are_recovered,
};
