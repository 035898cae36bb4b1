//! What a service answers is what a script answers, and what one answers that is started again.
#![tactic(auto)]

mod theorem;

pub use theorem::{
    answers_are_alike, answers_are_of_scripts, restarts_answer_alike, restarts_keep_the_same,
    rounds_print_the_same,
};
