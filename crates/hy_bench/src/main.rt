//! Does one piece of work of the crates below many times over, so that a clock outside can time it. The words: the
//! work, how many rounds of it, and up to two sizes, or a log's file, or orders, deliveries and a query.
#![tactic(auto)]

mod drain_rounds;
mod fork_rounds;
mod index_rounds;
mod log_rounds;
mod payment_rounds;
mod query_rounds;
mod shop;
mod space_rounds;

use crate::query_rounds::Past;
use std::alloc::Global;
use std::process::ExitCode;
use std::thread::Threads;

fn main(rt: HostRuntime) -> ExitCode {
    match run(&rt, &rt) {
        Some(seen) => {
            let _ = println!(rt; "{seen}");
            ExitCode::from(0)
        }
        None => ExitCode::from(1),
    }
}

/// What the rounds left to see, or nothing where the words are no work, a text is no query or memory ran out.
fn run<R: Threads + Sync>(system: &HostRuntime, rt: &R) -> Option<u64> {
    let alloc = system.alloc();
    let words = std::env::args(system)
        .ok()?
        .skip(1)
        .collect::<Vec<String>>(alloc)
        .ok()?;
    let work = words.get(0)?.as_str();
    let rounds = number(&words, 1);
    let size = number(&words, 2);
    let more = number(&words, 3);
    match work {
        "pay" => payment_rounds::run(alloc, rounds, size),
        "drain" => drain_rounds::run(alloc, rounds, size),
        "taken" | "again" => fork_rounds::run(alloc, work, rounds, size),
        "query" | "par" | "report" | "conditions" => {
            let past = Past {
                orders: size,
                deliveries: more,
            };
            query_rounds::run(rt, alloc, work, rounds, past, text(&words, 4))
        }
        "log-read" | "log-text" | "log-unsynced" | "log-memory" | "log-synced" => {
            log_rounds::run(system, work, rounds, words.get(2)?.as_str())
        }
        "commit" | "rollback" | "fork" | "child" | "snapshot" => {
            space_rounds::run(alloc, work, rounds, size, more)
        }
        _ => index_rounds::run(alloc, work, rounds, size),
    }
}

/// The number that a word spells, and 0 where there is no such word.
fn number(words: &[String], at: usize) -> u64 {
    match words.get(at) {
        Some(word) => word.as_str().parse::<u64>().unwrap_or(0),
        None => 0,
    }
}

/// The word at a place, and an empty one where there is none.
fn text(words: &[String], at: usize) -> &str {
    match words.get(at) {
        Some(word) => word.as_str(),
        None => "",
    }
}
