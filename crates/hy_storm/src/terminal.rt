//! What a terminal does.

ghost use Rattle.std.specs.Prelude.{◌≡◌, ◌≤◌, ◌<◌, ◌++◌};
ghost use Rattle.std.specs.Option.{option_to_list};

use crate::PAGE_BYTES;
use crate::commands::command_of;
use crate::kept::Kept;
use crate::shape::Shape;
use hy_commands::{Command, Commit, Reply};
use hy_engine::{Engine, Gate};
use hy_ledger::{Purse, Share};
use hy_passes::Pass;
use hy_schema::Refusal;
use hy_session::hy_partition::{Job, Loaded};
use std::alloc::Global;
use std::sync::Wait;

/// What a terminal has: how many commands it hands in, its pass, and a purse with the shares that it got.
#[derive(Drop)]
pub struct Terminal<'a, K: Loaded> {
    /// Where its commands take memory.
    pub alloc: Global,
    /// What it knows of the load.
    pub shape: &'a Shape,
    /// Its number, from 1.
    pub number: u64,
    /// How many commands it hands in.
    pub commands: u64,
    /// Its pass.
    pub pass: Pass<Commit, K>,
    /// Its purse.
    pub purse: Purse<K>,
    ghost in_range: { (1 ≤ number) × (number ≤ 64) × (commands ≤ 100000) },
}

/// How a terminal ended: with its purse, and with a refusal where it ended early.
#[derive(Drop)]
pub struct TerminalEnd<K: Loaded> {
    /// The purse.
    pub purse: Purse<K>,
    /// Why it ended early.
    pub refusal: Option<Refusal>,
}

/// Runs its commands, each once the one before is answered. A refusal ends it.
pub fn run_terminal<K: Loaded, G: Gate + Drop, R: Wait>(
    rt: &R,
    engine: &Engine<PAGE_BYTES, K, Kept<G>>,
    terminal: Terminal<'_, K>,
) -> TerminalEnd<K> {
    let Terminal {
        alloc,
        shape,
        number,
        commands,
        mut pass,
        mut purse,
    } = terminal;
    for turn in 1..=commands {
        let Ok(command) = command_of(alloc, shape, number, turn) else {
            return ended(purse, Some(Refusal::NoMemory));
        };
        match run_command(rt, engine, command, pass) {
            Ok((share, back)) => {
                pass = back;
                put_away(&mut purse, share);
            }
            Err(refusal) => return ended(purse, Some(refusal)),
        }
    }
    ended(purse, None)
}

/// Puts the share that an answer has, where it has one, into the purse.
fn put_away<K: Loaded>(purse: &mut Purse<K>, share: Option<Share<K>>)
    ensures { purse.new.shares ≡ purse.old.shares ++ option_to_list share }
{
    if let Some(share) = share {
        purse.add(share);
    }
}

/// The end of a terminal.
fn ended<K: Loaded>(purse: Purse<K>, refusal: Option<Refusal>) -> TerminalEnd<K> {
    TerminalEnd { purse, refusal }
}

/// Hands a command in, and waits for its answer: the share that it gave, and the pass.
fn run_command<K: Loaded, G: Gate + Drop, R: Wait>(
    rt: &R,
    engine: &Engine<PAGE_BYTES, K, Kept<G>>,
    command: Command,
    pass: Pass<Commit, K>,
) -> Result<(Option<Share<K>>, Pass<Commit, K>), Refusal> {
    pass.sound();
    let client = pass.client();
    if let Err((_job, refusal)) = engine.submit(rt, Job::new(command, pass)) {
        return Err(refusal);
    }
    let (reply, pass, share) = engine.answer(rt, client).open();
    match reply {
        Reply::Refused(refusal) => Err(refusal),
        _ => Ok((share, pass)),
    }
}
