//! What a terminal does.

use crate::asker::Asker;
use crate::history::{Event, History, Moment, next_tick};
use crate::storm::TheEngine;
use hy_commands::{Command, Commit, Reply};
use hy_engine::hy_redo_drains::hy_partition::{Job, Loaded};
use hy_passes::{Pass, Passes};
use std::alloc::{AllocError, Global};
use std::sync::Wait;
use std::sync::atomic::AtomicU64;

/// What a terminal has: who makes its commands up, how many they are, and its pass.
#[derive(Drop)]
pub struct Terminal<K: Loaded> {
    /// Where memory comes from.
    pub alloc: Global,
    /// Who makes its commands up.
    pub asker: Asker,
    /// How many they are.
    pub commands: u64,
    /// Its pass.
    pub pass: Pass<Commit, K>,
}

/// Hands its commands in, each once the one before is answered, and looks in between. Nothing where memory is refused.
pub fn run_terminal<K: Loaded, R: Wait>(
    rt: &R,
    engine: &TheEngine<K>,
    passes: &Passes<Commit, K>,
    clock: &AtomicU64,
    terminal: Terminal<K>,
) -> Option<History> {
    let Terminal {
        alloc,
        mut asker,
        commands,
        mut pass,
    } = terminal;
    let mut history = History::new(alloc);
    for turn in 1..=commands {
        let command = asker.command(alloc, turn).ok()?;
        pass = run_command(rt, engine, clock, &mut history, command, pass).ok()?;
        look(passes, clock, &mut history, asker.looks(), &mut pass).ok()?;
    }
    Some(history)
}

/// Hands a command in, and waits for its answer. One that isn't taken is refused.
fn run_command<K: Loaded, R: Wait>(
    rt: &R,
    engine: &TheEngine<K>,
    clock: &AtomicU64,
    history: &mut History,
    command: Command,
    pass: Pass<Commit, K>,
) -> Result<Pass<Commit, K>, AllocError> {
    pass.sound();
    let client = pass.client();
    history.note(Event::Asks(Moment::of(clock, &pass), command.copy()?))?;
    let (reply, pass, share) = match engine.submit(rt, Job::new(command, pass)) {
        Ok(()) => engine.answer(rt, client).open(),
        Err((job, refusal)) => (Reply::Refused(refusal), job.open().1, None),
    };
    history.note(Event::Told(Moment::of(clock, &pass), share.is_some(), reply))?;
    Ok(pass)
}

/// Looks so many times.
fn look<K: Loaded>(
    passes: &Passes<Commit, K>,
    clock: &AtomicU64,
    history: &mut History,
    times: u64,
    pass: &mut Pass<Commit, K>,
) -> Result<(), AllocError> {
    for _ in 0..times {
        let begun = next_tick(clock);
        passes.kept_now(pass);
        history.note(Event::Looks(begun, Moment::of(clock, pass)))?;
    }
    Ok(())
}
