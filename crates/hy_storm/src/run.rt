//! The storm.

ghost use Rattle.std.specs.Prelude.{◌≡◌, ◌+◌, ◌≤◌, [], IfOk, IfSome, IsSome, length};
ghost use Rattle.hy_redo.specs.Disk.{BeginsBehind};
ghost use Rattle.hy_session.specs.of_forks.Accounts.{warehouses_of_load};
ghost use Rattle.hy_storm.specs.Storms.{AreFigures, AreLogged};

use crate::PAGE_BYTES;
use crate::ending::{Figures, figures_of};
use crate::kept::Kept;
use crate::logging::{end_log, followed, taken_out, unlocked};
use crate::shape::Shape;
use crate::threads::{Crew, Gathered, run_threads};
use hy_commands::Commit;
use hy_engine::{DrainLog, Engine, Gate};
use hy_loads::Load;
use hy_passes::{Cursor, Journal, Kit, Pass, make};
use hy_redo::{Log, LogOut};
use hy_schema::Refusal;
use hy_session::hy_crossing::partitions_of;
use hy_session::hy_forks::Partitions;
use hy_session::hy_partition::{Loaded, Partition};
use std::alloc::Global;
use std::marker::Brand;
use std::sync::Wait;
use std::thread::Threads;

/// How many jobs can wait for a warehouse.
const CAPACITY: usize = 64;

/// How many frames each warehouse may have.
const MAX_FRAMES: u64 = 100_000;

/// How many commits each warehouse may keep.
const MAX_KEPT: u64 = 1_000_000;

/// The name of the kit. No other one is made.
const KIT: u64 = 1;

/// How large a storm is.
#[derive(Clone, Copy, Debug, PartialEq, Eq)]
pub struct Size {
    /// How many terminals there are, from 1 to 64.
    pub terminals: u64,
    /// How many sessions, to 16.
    pub sessions: u64,
    /// How many commands each terminal hands in, to 100,000.
    pub commands: u64,
}

/// A storm over a load. Where there is a log, what was committed is written to it each time a session has closed its snapshot,
/// and once all threads have ended, also where that is nothing: three batches for each session, and one. The log comes back:
/// where the figures have no refusal, it has all that the warehouses kept, and nothing else.
pub fn storm<G: Gate + Drop + Send + Sync, W: LogOut + Send, R: Threads + Wait + Sync>(
    rt: &R,
    alloc: Global,
    load: &Load,
    size: Size,
    gate: G,
    log: Option<Log<W>>,
) -> (Result<Figures, Refusal>, Option<Log<W>>)
    requires terminals { (1 ≤ size.terminals) × (size.terminals ≤ 64) }
    requires sessions { size.sessions ≤ 16 }
    requires commands { size.commands ≤ 100000 }
    requires begins { IfSome log (BeginsBehind []) }
    ensures figures { IfOk result.0 (AreFigures load.now) }
    ensures logged { IfOk result.0 (λ figures. AreLogged load.now figures result.1) }
    ensures back { IsSome log → IsSome result.1 }
{
    load.sound();
    let warehouses = load.tables().warehouses.len();
    match make::<Commit>(alloc, warehouses as u8, clients_of(size), KIT) {
        Ok(kit) => storm_in::<Brand, G, W, R>(rt, alloc, load, kit, size, gate, log),
        Err(_) => (Err(Refusal::NoMemory), log),
    }
}

/// How many clients a storm of this size has: terminals, sessions, one who looks at the end, and the log's place in the
/// serial list.
fn clients_of(size: Size) -> u32
    requires { (size.terminals ≤ 64) × (size.sessions ≤ 16) }
    ensures { result ≡ size.terminals + size.sessions + 2 }
{
    size.terminals as u32 + size.sessions as u32 + 2
}

/// The same in the world that names the load and a kit.
fn storm_in<
    K: Loaded + Send + Sync,
    G: Gate + Drop + Send + Sync,
    W: LogOut + Send,
    R: Threads + Wait + Sync,
>(
    rt: &R,
    alloc: Global,
    load: &Load,
    kit: Kit<Commit>,
    size: Size,
    gate: G,
    log: Option<Log<W>>,
) -> (Result<Figures, Refusal>, Option<Log<W>>)
    requires kit { kit ≡ K.passes }
    requires load { load.now ≡ K.load }
    requires partitions { kit.partitions ≡ length load.now.tables.warehouses }
    requires clients { kit.clients ≡ size.terminals + size.sessions + 2 }
    requires new { kit.replayed ≡ [] }
    requires terminals { (1 ≤ size.terminals) × (size.terminals ≤ 64) }
    requires sessions { size.sessions ≤ 16 }
    requires commands { size.commands ≤ 100000 }
    requires begins { IfSome log (BeginsBehind []) }
    ensures logged { IfOk result.0 (λ figures. AreLogged load.now figures result.1) }
    ensures back { IsSome log → IsSome result.1 }
{
    let shape = match Shape::of(alloc, load) {
        Ok(shape) => shape,
        Err(_) => return (Err(Refusal::NoMemory), log),
    };
    match Stage::<K, G>::new(alloc, load, kit, &shape, size, gate) {
        Ok(stage) => run_on(rt, alloc, stage, log),
        Err(refusal) => (Err(refusal), log),
    }
}

/// What a storm needs before its threads begin.
#[derive(Drop)]
struct Stage<'a, K: Loaded, G: Gate> {
    engine: Engine<PAGE_BYTES, K, Kept<G>>,
    crew: Crew<'a, K>,
    cursor: Cursor<Commit, K>,
    last: Pass<Commit, K>,
    ghost partitions: { K.passes.partitions ≡ warehouses_of_load K.load },
    ghost fresh: { cursor ≡ [] },
}

impl<'a, K: Loaded, G: Gate + Drop> Stage<'a, K, G> {
    /// That of a storm of this size. E2; E1.
    fn new(
        alloc: Global,
        load: &Load,
        kit: Kit<Commit>,
        shape: &'a Shape,
        size: Size,
        gate: G,
    ) -> Result<Stage<'a, K, G>, Refusal>
        requires kit { kit ≡ K.passes }
        requires load { load.now ≡ K.load }
        requires partitions { kit.partitions ≡ length load.now.tables.warehouses }
        requires clients { kit.clients ≡ size.terminals + size.sessions + 2 }
        requires new { kit.replayed ≡ [] }
        requires terminals { (1 ≤ size.terminals) × (size.terminals ≤ 64) }
        requires sessions { size.sessions ≤ 16 }
        requires commands { size.commands ≤ 100000 }
    {
        load.sound();
        let (passes, mut journal, seats, mut clients) = kit.open::<K>()?;
        let (Some(last), Some(place)) = (clients.pop(), clients.pop()) else {
            return Err(Refusal::NoMemory);
        };
        let cursor = Cursor::new(alloc, place, &mut journal)?;
        let crew = Crew::new(alloc, shape, &passes, size, &mut clients)?;
        let parts = partitions_of::<PAGE_BYTES, K>(alloc, load, seats, MAX_FRAMES, MAX_KEPT)?;
        let kept = Kept::new(alloc, gate)?;
        match Engine::new(alloc, parts, journal, clients_of(size), CAPACITY, kept) {
            Ok(engine) => Ok(Stage {
                engine,
                crew,
                cursor,
                last,
            }),
            Err((_parts, _journal, _gate, refusal)) => Err(refusal),
        }
    }
}

/// Runs the threads of a storm, and reckons what it came to.
fn run_on<
    K: Loaded + Send + Sync,
    G: Gate + Drop + Send + Sync,
    W: LogOut + Send,
    R: Threads + Wait + Sync,
>(
    rt: &R,
    alloc: Global,
    stage: Stage<'_, K, G>,
    log: Option<Log<W>>,
) -> (Result<Figures, Refusal>, Option<Log<W>>)
    requires begins { IfSome log (BeginsBehind []) }
    ensures logged { IfOk result.0 (λ figures. AreLogged K.load figures result.1) }
    ensures back { IsSome log → IsSome result.1 }
{
    let Stage {
        engine,
        crew,
        cursor,
        last,
    } = stage;
    let log = followed(log, cursor);
    let gathered = run_threads(rt, alloc, &engine, log.as_ref(), crew);
    let (parts, journal) = engine.finish();
    reckon(alloc, parts, journal, last, gathered, unlocked(log))
}

/// What a storm came to, once its threads have ended: what was committed since the last drain is drained into its log, where
/// there is one, and then the sums are laid side by side. E4 where the partitions aren't those of the load; E2; E1. The log
/// comes back.
fn reckon<K: Loaded, W: LogOut>(
    alloc: Global,
    parts: Vec<Partition<PAGE_BYTES, K>>,
    mut journal: Journal<Commit, K>,
    pass: Pass<Commit, K>,
    mut gathered: Gathered<K>,
    log: Option<DrainLog<W, K>>,
) -> (Result<Figures, Refusal>, Option<Log<W>>)
    requires partitions { K.passes.partitions ≡ warehouses_of_load K.load }
    ensures logged { IfOk result.0 (λ figures. AreLogged K.load figures result.1) }
    ensures back { IsSome log → IsSome result.1 }
{
    let Ok(mut partitions) = Partitions::found(parts) else {
        return (Err(Refusal::NoSuchWarehouse), taken_out(log));
    };
    let (log, unlogged) = end_log(alloc, log, &mut partitions, &mut journal);
    gathered.unlogged = gathered.unlogged.or(unlogged);
    (figures_of(alloc, partitions, journal, pass, gathered), log)
}
