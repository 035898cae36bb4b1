//! The threads of a storm: workers, terminals and sessions.

ghost use Rattle.std.specs.Prelude.{◌≡◌, ◌≤◌, ◌<◌, ◌++◌, None};

use crate::PAGE_BYTES;
use crate::kept::Kept;
use crate::logging::Logged;
use crate::run::Size;
use crate::session::{SessionEnd, run_session};
use crate::shape::Shape;
use crate::terminal::{Terminal, TerminalEnd, run_terminal};
use hy_commands::Commit;
use hy_engine::{Engine, Gate};
use hy_ledger::Purse;
use hy_passes::{Pass, Passes};
use hy_redo::LogOut;
use hy_schema::Refusal;
use hy_session::hy_partition::Loaded;
use std::alloc::Global;
use std::sync::Wait;
use std::thread;
use std::thread::{JoinHandle, Scope, Threads};

/// What came of all threads: the shares that terminals got, the rounds that held, a refusal where a thread ended early, and
/// one where the log wasn't written.
#[derive(Drop)]
pub struct Gathered<K: Loaded> {
    /// The shares.
    pub purse: Purse<K>,
    /// The rounds.
    pub held: u64,
    /// The refusal.
    pub refusal: Option<Refusal>,
    /// Why what was drained wasn't acknowledged.
    pub unlogged: Option<Refusal>,
}

impl<K: Loaded> Gathered<K> {
    /// Puts what a terminal ended with to the rest: all its shares, and its refusal.
    fn merge(&mut self, end: TerminalEnd<K>)
        ensures shares { self.new.purse.shares ≡ self.old.purse.shares ++ end.purse.shares }
        ensures refusal { self.new.refusal ≡ None → (self.old.refusal ≡ None) × (end.refusal ≡ None) }
        ensures rest { (self.new.held ≡ self.old.held) × (self.new.unlogged ≡ self.old.unlogged) }
    {
        let TerminalEnd { purse, refusal } = end;
        self.purse.merge(purse);
        self.refusal = self.refusal.or(refusal);
    }
}

/// Who takes part: a terminal for each purse, and sessions.
#[derive(Drop)]
pub struct Crew<'a, K: Loaded> {
    terminals: Vec<Terminal<'a, K>>,
    sessions: Vec<Pass<Commit, K>>,
    purse: Purse<K>,
}

impl<'a, K: Loaded> Crew<'a, K> {
    /// A crew of this size of these clients. E1.
    pub fn new(
        alloc: Global,
        shape: &'a Shape,
        passes: &Passes<Commit, K>,
        size: Size,
        clients: &mut Vec<Pass<Commit, K>>,
    ) -> Result<Crew<'a, K>, Refusal>
        requires terminals { size.terminals ≤ 64 }
        requires sessions { size.sessions ≤ 16 }
        requires commands { size.commands ≤ 100000 }
    {
        let mut terminals = Vec::with_capacity(alloc, size.terminals as usize)?;
        for before in 0..size.terminals {
            let Some(pass) = clients.pop() else {
                break;
            };
            let purse = passes.purse()?;
            terminals.push_reserved(Terminal {
                alloc,
                shape,
                number: before + 1,
                commands: size.commands,
                pass,
                purse,
            });
        }
        let mut sessions = Vec::with_capacity(alloc, size.sessions as usize)?;
        for _ in 0..size.sessions {
            let Some(pass) = clients.pop() else {
                break;
            };
            sessions.push_reserved(pass);
        }
        let purse = passes.purse()?;
        Ok(Crew {
            terminals,
            sessions,
            purse,
        })
    }
}

/// Runs a worker for each warehouse and the crew beside them, and closes the engine once all of the crew have ended. Where a
/// worker can't be made the crew does nothing.
pub fn run_threads<
    K: Loaded + Send + Sync,
    G: Gate + Drop + Send + Sync,
    W: LogOut + Send,
    R: Threads + Wait + Sync,
>(
    rt: &R,
    alloc: Global,
    engine: &Engine<PAGE_BYTES, K, Kept<G>>,
    log: Logged<'_, W, K>,
    crew: Crew<'_, K>,
) -> Gathered<K> {
    thread::scope(thread::scope_env(), rt, move |scope| -> Gathered<K> {
        let mut is_refused = false;
        for place in 0..engine.warehouses() {
            let warehouse = warehouse_at(place);
            if scope.spawn(move || engine.work(rt, warehouse)).is_err() {
                is_refused = true;
            }
        }
        let gathered = if is_refused {
            refused(crew)
        } else {
            run_crew(rt, alloc, engine, log, crew)
        };
        engine.close(rt);
        gathered
    })
}

/// What comes of a crew that does nothing.
fn refused<K: Loaded>(crew: Crew<'_, K>) -> Gathered<K> {
    let Crew {
        terminals: _,
        sessions: _,
        purse,
    } = crew;
    out_of_memory(purse)
}

/// What comes of it where memory is refused before a thread is made.
fn out_of_memory<K: Loaded>(purse: Purse<K>) -> Gathered<K> {
    Gathered {
        purse,
        held: 0,
        refusal: Some(Refusal::NoMemory),
        unlogged: None,
    }
}

/// Starts a terminal's thread. None where no thread can be made.
fn start_terminal<
    's,
    E,
    K: Loaded + Send + Sync + 's,
    G: Gate + Drop + Send + Sync + 's,
    R: Threads + Wait + Sync + 's,
>(
    scope: &Scope<'s, E>,
    rt: &'s R,
    engine: &'s Engine<PAGE_BYTES, K, Kept<G>>,
    terminal: Terminal<'s, K>,
) -> Option<JoinHandle<TerminalEnd<K>>> {
    scope.spawn(move || run_terminal(rt, engine, terminal)).ok()
}

/// Starts a thread for each terminal. A refusal where one can't be made.
fn start_terminals<
    's,
    E,
    K: Loaded + Send + Sync + 's,
    G: Gate + Drop + Send + Sync + 's,
    R: Threads + Wait + Sync + 's,
>(
    scope: &Scope<'s, E>,
    rt: &'s R,
    engine: &'s Engine<PAGE_BYTES, K, Kept<G>>,
    terminals: Vec<Terminal<'s, K>>,
    running: &mut Vec<JoinHandle<TerminalEnd<K>>>,
) -> Option<Refusal> {
    let mut refusal = None;
    for terminal in terminals {
        match start_terminal(scope, rt, engine, terminal) {
            Some(thread) => {
                let _ = running.push(thread);
            }
            None => refusal = Some(Refusal::NoMemory),
        }
    }
    refusal
}

/// Starts a session's thread. None where no thread can be made.
fn start_session<
    's,
    E,
    K: Loaded + Send + Sync + 's,
    G: Gate + Drop + Send + Sync + 's,
    W: LogOut + Send + 's,
    R: Threads + Wait + Sync + 's,
>(
    scope: &Scope<'s, E>,
    rt: &'s R,
    alloc: Global,
    engine: &'s Engine<PAGE_BYTES, K, Kept<G>>,
    log: Logged<'s, W, K>,
    pass: Pass<Commit, K>,
) -> Option<JoinHandle<SessionEnd>> {
    scope
        .spawn(move || run_session(rt, alloc, engine, log, pass))
        .ok()
}

/// Starts a thread for each session. A refusal where one can't be made.
fn start_sessions<
    's,
    E,
    K: Loaded + Send + Sync + 's,
    G: Gate + Drop + Send + Sync + 's,
    W: LogOut + Send + 's,
    R: Threads + Wait + Sync + 's,
>(
    scope: &Scope<'s, E>,
    rt: &'s R,
    alloc: Global,
    engine: &'s Engine<PAGE_BYTES, K, Kept<G>>,
    log: Logged<'s, W, K>,
    sessions: Vec<Pass<Commit, K>>,
    looking: &mut Vec<JoinHandle<SessionEnd>>,
) -> Option<Refusal> {
    let mut refusal = None;
    for pass in sessions {
        match start_session(scope, rt, alloc, engine, log, pass) {
            Some(thread) => {
                let _ = looking.push(thread);
            }
            None => refusal = Some(Refusal::NoMemory),
        }
    }
    refusal
}

/// Runs a thread for each terminal, and the sessions beside them.
fn run_crew<
    K: Loaded + Send + Sync,
    G: Gate + Drop + Send + Sync,
    W: LogOut + Send,
    R: Threads + Wait + Sync,
>(
    rt: &R,
    alloc: Global,
    engine: &Engine<PAGE_BYTES, K, Kept<G>>,
    log: Logged<'_, W, K>,
    crew: Crew<'_, K>,
) -> Gathered<K> {
    let Crew {
        terminals,
        sessions,
        purse,
    } = crew;
    let Ok(running) = Vec::with_capacity(alloc, terminals.len()) else {
        return out_of_memory(purse);
    };
    thread::scope(thread::scope_env(), rt, move |scope| -> Gathered<K> {
        let mut running = running;
        let (runtime, shared) = (rt, engine);
        let refusal = start_terminals(scope, runtime, shared, terminals, &mut running);
        let looked = run_sessions(rt, alloc, engine, log, sessions);
        let mut gathered = Gathered {
            purse,
            held: looked.held,
            refusal: refusal.or(looked.refusal),
            unlogged: looked.unlogged,
        };
        for thread in running {
            gathered.merge(thread.join(rt));
        }
        gathered
    })
}

/// Runs a thread for each session: how many rounds held in all, why one ended early, and why the log wasn't written.
fn run_sessions<
    K: Loaded + Send + Sync,
    G: Gate + Drop + Send + Sync,
    W: LogOut + Send,
    R: Threads + Wait + Sync,
>(
    rt: &R,
    alloc: Global,
    engine: &Engine<PAGE_BYTES, K, Kept<G>>,
    log: Logged<'_, W, K>,
    sessions: Vec<Pass<Commit, K>>,
) -> SessionEnd {
    let Ok(looking) = Vec::with_capacity(alloc, sessions.len()) else {
        return SessionEnd::without_rounds(Some(Refusal::NoMemory));
    };
    thread::scope(thread::scope_env(), rt, move |scope| -> SessionEnd {
        let mut looking = looking;
        let (runtime, shared) = (rt, engine);
        let refusal = start_sessions(scope, runtime, alloc, shared, log, sessions, &mut looking);
        let mut all = SessionEnd::without_rounds(refusal);
        for thread in looking {
            all.merge(thread.join(rt));
        }
        all
    })
}

/// The number of the warehouse at a place; the greatest number of all where there is no such number.
fn warehouse_at(place: usize) -> u8 {
    match u8::try_from(place) {
        Ok(before) => before.saturating_add(1),
        Err(_) => u8::MAX,
    }
}
