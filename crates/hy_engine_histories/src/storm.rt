//! A storm of random commands over a small generated database.

ghost use Rattle.std.specs.Prelude.{◌≡◌, ◌≤◌, length};

use crate::asker::Asker;
use crate::history::History;
use crate::telling::{tell_in_short, tell_storm};
use crate::terminal::Terminal;
use crate::threads::run_threads;
use hy_commands::Commit;
use hy_engine::hy_redo_drains::hy_crossing::partitions_of;
use hy_engine::hy_redo_drains::hy_partition::{Loaded, Partition};
use hy_engine::{Engine, Open};
use hy_loads::Load;
use hy_output::Output;
use hy_passes::{Kit, Pass, Passes, make};
use hy_schema::Refusal;
use hy_tables::generate;
use std::alloc::{AllocError, Global};
use std::marker::Brand;
use std::sync::{Arc, Wait};
use std::thread::Threads;

/// How many bytes a page has.
const PAGE_BYTES: usize = 4096;

/// How many frames each warehouse may have.
const MAX_FRAMES: u64 = 20_000;

/// How many commits each warehouse may keep.
const MAX_KEPT: u64 = 10_000;

/// How many customers each district has.
pub const CUSTOMERS: u64 = 3;

/// How many items there are.
pub const ITEMS: u64 = 20;

/// The engine of a storm.
pub type TheEngine<K> = Engine<PAGE_BYTES, K, Open>;

/// How large a storm is, and with which numbers it begins.
#[derive(Clone, Copy, Debug, Drop)]
pub struct Size {
    /// With what the generators begin.
    pub seed: u64,
    /// How many warehouses there are, from 1 to 4.
    pub warehouses: u64,
    /// How many terminals, from 1 to 8.
    pub terminals: u64,
    /// How many commands each hands in, from 1 to 200.
    pub commands: u64,
    /// Whether only the figures are written that are the same each time.
    pub is_short: bool,
}

/// What a storm needs before its threads begin.
#[derive(Drop)]
struct Stage<K: Loaded> {
    engine: TheEngine<K>,
    passes: Arc<Passes<Commit, K>, Global>,
    terminals: Vec<Terminal<K>>,
}

/// Runs a storm, and writes what came of it. E2; E1, where a write fails too.
pub fn run_storm<O: Output, R: Threads + Wait + Sync>(
    rt: &R,
    alloc: Global,
    size: Size,
    out: &mut O,
) -> Result<(), Refusal>
    requires terminals { (1 ≤ size.terminals) × (size.terminals ≤ 8) }
{
    let load = generate(alloc, size.warehouses, CUSTOMERS, ITEMS)?;
    run_over(rt, alloc, &load, size, out)
}

/// The same over this load.
fn run_over<O: Output, R: Threads + Wait + Sync>(
    rt: &R,
    alloc: Global,
    load: &Load,
    size: Size,
    out: &mut O,
) -> Result<(), Refusal>
    requires terminals { (1 ≤ size.terminals) × (size.terminals ≤ 8) }
{
    load.sound();
    let warehouses = load.tables().warehouses.len();
    let kit = make::<Commit>(alloc, warehouses as u8, size.terminals as u32, 1)?;
    storm_in::<Brand, O, R>(rt, alloc, load, kit, size, out)
}

/// The same in the world that names the load and a kit.
fn storm_in<K: Loaded + Send + Sync, O: Output, R: Threads + Wait + Sync>(
    rt: &R,
    alloc: Global,
    load: &Load,
    kit: Kit<Commit>,
    size: Size,
    out: &mut O,
) -> Result<(), Refusal>
    requires kit { kit ≡ K.passes }
    requires load { load.now ≡ K.load }
    requires partitions { kit.partitions ≡ length load.now.tables.warehouses }
    requires clients { kit.clients ≡ size.terminals }
    requires terminals { (1 ≤ size.terminals) × (size.terminals ≤ 8) }
{
    let Stage {
        engine,
        passes,
        terminals,
    } = stage_of::<K>(alloc, load, kit, size)?;
    let running = Vec::with_capacity(alloc, terminals.len())?;
    let room = Vec::with_capacity(alloc, terminals.len())?;
    let histories = run_threads(rt, &engine, &passes, terminals, running, room);
    let (parts, _journal) = engine.finish();
    tell(size, &histories, &parts, out)
}

/// The engine of a load, and its terminals. E2; E1.
fn stage_of<K: Loaded>(
    alloc: Global,
    load: &Load,
    kit: Kit<Commit>,
    size: Size,
) -> Result<Stage<K>, Refusal>
    requires kit { kit ≡ K.passes }
    requires load { load.now ≡ K.load }
    requires partitions { kit.partitions ≡ length load.now.tables.warehouses }
    requires clients { kit.clients ≡ size.terminals }
    requires terminals { (1 ≤ size.terminals) × (size.terminals ≤ 8) }
{
    load.sound();
    let (passes, journal, seats, clients) = kit.open::<K>()?;
    let terminals = terminals_of(alloc, size, clients)?;
    let parts = partitions_of::<PAGE_BYTES, K>(alloc, load, seats, MAX_FRAMES, MAX_KEPT)?;
    match Engine::new(alloc, parts, journal, size.terminals as u32, 64, Open) {
        Ok(engine) => Ok(Stage {
            engine,
            passes,
            terminals,
        }),
        Err((_parts, _journal, _gate, refusal)) => Err(refusal),
    }
}

/// A terminal for each client. E1.
fn terminals_of<K: Loaded>(
    alloc: Global,
    size: Size,
    clients: Vec<Pass<Commit, K>>,
) -> Result<Vec<Terminal<K>>, AllocError> {
    let mut terminals = Vec::with_capacity(alloc, clients.len())?;
    for pass in clients {
        let number = u64::from(pass.client()).saturating_add(1);
        terminals.push(Terminal {
            alloc,
            asker: Asker::new(size, number),
            commands: size.commands,
            pass,
        })?;
    }
    Ok(terminals)
}

/// Writes what came of a storm. E1 where a write fails, or a terminal was refused memory.
fn tell<K: Loaded, O: Output>(
    size: Size,
    histories: &[History],
    parts: &[Partition<PAGE_BYTES, K>],
    out: &mut O,
) -> Result<(), Refusal> {
    if histories.len() as u64 != size.terminals {
        return Err(Refusal::NoMemory);
    }
    let told = if size.is_short {
        tell_in_short(out, size, histories)
    } else {
        tell_storm(out, size, histories, parts)
    };
    told.map_err(|_| Refusal::NoMemory)
}
