//! The log of a storm.

ghost use Rattle.std.specs.Prelude.{◌≡◌, [], false, IfSome, IsSome, None, OnOk};
ghost use Rattle.hy_redo.specs.Disk.{BeginsBehind};
ghost use Rattle.hy_session.specs.of_forks.Accounts.{warehouses_of_load};
ghost use Rattle.hy_storm.specs.Storms.{HasAll};

use crate::PAGE_BYTES;
use crate::kept::Kept;
use hy_commands::Commit;
use hy_engine::{DrainLog, Engine, Gate};
use hy_passes::{Cursor, Journal};
use hy_redo::{Log, LogOut};
use hy_schema::Refusal;
use hy_session::hy_forks::{OwnPartitions, logs_begin};
use hy_session::hy_partition::Loaded;
use std::alloc::Global;
use std::sync::{Mutex, Wait};

/// Where a storm writes what is committed, where it does.
pub type Logged<'a, W, K> = Option<&'a Mutex<DrainLog<W, K>>>;

/// Writes what was committed since the last drain to the log, where there is one, and says why it wasn't acknowledged, where
/// it wasn't.
pub fn drain_to<K: Loaded, G: Gate + Drop, W: LogOut, R: Wait>(
    rt: &R,
    alloc: Global,
    engine: &Engine<PAGE_BYTES, K, Kept<G>>,
    log: Logged<'_, W, K>,
) -> Option<Refusal> {
    match log {
        Some(log) => engine.drain_log(rt, alloc, log).err(),
        None => None,
    }
}

/// A log that follows a storm from its begin, where there is one.
pub fn followed<W: LogOut, K: Loaded>(
    log: Option<Log<W>>,
    cursor: Cursor<Commit, K>,
) -> Option<Mutex<DrainLog<W, K>>>
    requires partitions { K.passes.partitions ≡ warehouses_of_load K.load }
    requires fresh { cursor ≡ [] }
    requires begins { IfSome log (BeginsBehind []) }
    ensures { IsSome log → IsSome result }
{
    logs_begin();
    match log {
        Some(log) => Some(Mutex::new(DrainLog::new(log, cursor))),
        None => None,
    }
}

/// The log once no thread has it.
pub fn unlocked<W: LogOut, K: Loaded>(log: Option<Mutex<DrainLog<W, K>>>) -> Option<DrainLog<W, K>>
    ensures { IsSome log → IsSome result }
{
    match log {
        Some(log) => Some(log.into_inner()),
        None => None,
    }
}

/// The log as it is.
pub fn taken_out<W: LogOut, K: Loaded>(log: Option<DrainLog<W, K>>) -> Option<Log<W>>
    ensures { IsSome log → IsSome result }
{
    match log {
        Some(log) => Some(log.into_log()),
        None => None,
    }
}

/// The log of a storm whose threads have ended, where there is one: what was committed since the last drain is written to it,
/// behind what was due. With a reason where that wasn't acknowledged; without one the log has all that the partitions kept.
pub fn end_log<W: LogOut, K: Loaded>(
    alloc: Global,
    log: Option<DrainLog<W, K>>,
    partitions: &mut OwnPartitions<PAGE_BYTES, K>,
    journal: &mut Journal<Commit, K>,
) -> (Option<Log<W>>, Option<Refusal>)
    ensures back { IsSome log → IsSome result.0 }
    ensures all { result.1 ≡ None → IfSome result.0 (HasAll K.load journal.old.list.log) }
    ensures same_log { journal.new.list.log ≡ journal.old.list.log }
{
    match log {
        Some(log) => end_followed(alloc, log, partitions, journal),
        None => (None, None),
    }
}

/// The same of one that is there.
fn end_followed<W: LogOut, K: Loaded>(
    alloc: Global,
    log: DrainLog<W, K>,
    partitions: &mut OwnPartitions<PAGE_BYTES, K>,
    journal: &mut Journal<Commit, K>,
) -> (Option<Log<W>>, Option<Refusal>)
    ensures back { IsSome result.0 }
    ensures all { result.1 ≡ None → IfSome result.0 (HasAll K.load journal.old.list.log) }
    ensures same_log { journal.new.list.log ≡ journal.old.list.log }
{
    let mut log = log;
    let unlogged = drain_last(alloc, &mut log, partitions, journal).err();
    log.follows();
    (Some(log.into_log()), unlogged)
}

/// Drains into a log that nobody else has, and writes what was due before and what is due then.
fn drain_last<W: LogOut, K: Loaded>(
    alloc: Global,
    log: &mut DrainLog<W, K>,
    partitions: &mut OwnPartitions<PAGE_BYTES, K>,
    journal: &mut Journal<Commit, K>,
) -> Result<(), Refusal>
    ensures well { OnOk result (log.new.log.has_failed ≡ false) }
    ensures due { OnOk result (log.new.due ≡ None) }
    ensures seen { OnOk result (log.new.seen ≡ journal.old.list.log) }
    ensures same_log { journal.new.list.log ≡ journal.old.list.log }
{
    log.write()?;
    log.drain(alloc, partitions, journal)?;
    log.write()
}
