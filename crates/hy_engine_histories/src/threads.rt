//! The threads: a worker for each warehouse, and the terminals.

use crate::history::History;
use crate::storm::TheEngine;
use crate::terminal::{Terminal, run_terminal};
use hy_commands::Commit;
use hy_engine::hy_redo_drains::hy_partition::Loaded;
use hy_passes::Passes;
use std::sync::Wait;
use std::sync::atomic::AtomicU64;
use std::thread;
use std::thread::{JoinHandle, Scope, Threads};

/// Runs a worker for each warehouse and the terminals beside them, and closes the engine once these have ended. Puts the
/// histories of the terminals into this room, in order: fewer where memory was refused.
pub fn run_threads<K: Loaded + Send + Sync, R: Threads + Wait + Sync>(
    rt: &R,
    engine: &TheEngine<K>,
    passes: &Passes<Commit, K>,
    terminals: Vec<Terminal<K>>,
    running: Vec<JoinHandle<Option<History>>>,
    histories: Vec<History>,
) -> Vec<History> {
    let clock = AtomicU64::new(0);
    let shared = &clock;
    thread::scope(thread::scope_env(), rt, move |scope| -> Vec<History> {
        let mut is_refused = false;
        for place in 0..engine.warehouses() {
            let warehouse = warehouse_at(place);
            if scope.spawn(move || engine.work(rt, warehouse)).is_err() {
                is_refused = true;
            }
        }
        let gathered = if is_refused {
            histories
        } else {
            run_terminals(rt, engine, passes, shared, terminals, running, histories)
        };
        engine.close(rt);
        gathered
    })
}

/// Runs a thread for each terminal.
fn run_terminals<K: Loaded + Send + Sync, R: Threads + Wait + Sync>(
    rt: &R,
    engine: &TheEngine<K>,
    passes: &Passes<Commit, K>,
    clock: &AtomicU64,
    terminals: Vec<Terminal<K>>,
    running: Vec<JoinHandle<Option<History>>>,
    histories: Vec<History>,
) -> Vec<History> {
    thread::scope(thread::scope_env(), rt, move |scope| -> Vec<History> {
        let mut running = running;
        let (runtime, hall, word, time) = (rt, engine, passes, clock);
        start_terminals(scope, runtime, hall, word, time, terminals, &mut running);
        let mut histories = histories;
        for thread in running {
            if let Some(history) = thread.join(rt) {
                let _ = histories.push(history);
            }
        }
        histories
    })
}

/// Starts a thread for each terminal; fewer where one can't be made.
fn start_terminals<'s, E, K: Loaded + Send + Sync + 's, R: Threads + Wait + Sync + 's>(
    scope: &Scope<'s, E>,
    rt: &'s R,
    engine: &'s TheEngine<K>,
    passes: &'s Passes<Commit, K>,
    clock: &'s AtomicU64,
    terminals: Vec<Terminal<K>>,
    running: &mut Vec<JoinHandle<Option<History>>>,
) {
    for terminal in terminals {
        if let Some(thread) = start_terminal(scope, rt, engine, passes, clock, terminal) {
            let _ = running.push(thread);
        }
    }
}

/// Starts a terminal's thread. None where no thread can be made.
fn start_terminal<'s, E, K: Loaded + Send + Sync + 's, R: Threads + Wait + Sync + 's>(
    scope: &Scope<'s, E>,
    rt: &'s R,
    engine: &'s TheEngine<K>,
    passes: &'s Passes<Commit, K>,
    clock: &'s AtomicU64,
    terminal: Terminal<K>,
) -> Option<JoinHandle<Option<History>>> {
    scope
        .spawn(move || run_terminal(rt, engine, passes, clock, terminal))
        .ok()
}

/// The number of the warehouse at a place; the greatest number of all where there is no such number.
fn warehouse_at(place: usize) -> u8 {
    match u8::try_from(place) {
        Ok(before) => before.saturating_add(1),
        Err(_) => u8::MAX,
    }
}
