//! The program `hyper` over any file system and any two outputs: what its command lines do and print, and how a run
//! ends.
#![tactic(auto)]

mod check;
mod ending;
mod fault;
mod first;
mod generate;
mod query;
mod reading;
mod recover;
mod replay;
mod run;
mod script;
mod serve;
mod storm;

pub use ending::Ending;
pub use run::run_words;

/// The size of a page in bytes.
const PAGE_BYTES: usize = 4096;
