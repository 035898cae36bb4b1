//! Random commands over an engine, and what each of its clients saw, for a checker outside: tools/try_histories. The words:
//! a seed, how many warehouses, how many terminals, and how many commands each of them hands in. Without words a small
//! storm is run, of which a line says what is the same each time.
#![tactic(auto)]

mod asker;
mod chance;
mod history;
mod storm;
mod telling;
mod terminal;
mod threads;

ghost use Rattle.std.specs.Prelude.{◌≤◌};

use crate::storm::{Size, run_storm};
use hy_output::Stream;
use std::alloc::Global;
use std::process::ExitCode;
use std::sync::Wait;
use std::thread::Threads;

fn main(rt: HostRuntime) -> ExitCode {
    match run(&rt, &rt) {
        Some(()) => ExitCode::from(0),
        None => ExitCode::from(1),
    }
}

/// Runs the storm of the words, and prints what came of it. Nothing is printed where memory is refused.
fn run<R: Threads + Wait + Sync>(system: &HostRuntime, rt: &R) -> Option<()> {
    let alloc = system.alloc();
    let words = std::env::args(system)
        .ok()?
        .skip(1)
        .collect::<Vec<String>>(alloc)
        .ok()?;
    let mut out = Stream::new(Vec::new(alloc));
    run_storm(rt, alloc, size_of(&words), &mut out).ok()?;
    system.stdout().write_all(&out.into_writer()).ok()
}

/// The size that words say.
fn size_of(words: &[String]) -> Size
    ensures { (1 ≤ result.terminals) × (result.terminals ≤ 8) }
{
    Size {
        seed: number(words, 0, 1),
        warehouses: within(number(words, 1, 2), 4),
        terminals: within(number(words, 2, 2), 8),
        commands: within(number(words, 3, 10), 200),
        is_short: words.is_empty(),
    }
}

/// A number from 1 to this one: the nearest.
fn within(number: u64, most: u64) -> u64
    requires { 1 ≤ most }
    ensures { (1 ≤ result) × (result ≤ most) }
{
    if number == 0 {
        1
    } else if number > most {
        most
    } else {
        number
    }
}

/// The number that a word says, or else this one.
fn number(words: &[String], place: usize, other: u64) -> u64 {
    match words.get(place) {
        Some(word) => word.as_str().parse::<u64>().unwrap_or(other),
        None => other,
    }
}
