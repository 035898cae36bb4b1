//! For tests: a life of a log. It is held and read, a database is recovered from it and goes on, and a stop leaves some of it.

ghost use Rattle.std.specs.Prelude.{◌≡◌, None, length};
ghost use Rattle.hy_redo.specs.Disk.{BeginsBehind};
ghost use Rattle.hy_recovery.specs.Recovering.{Counts};

use crate::halls::Hall;
use hy_batches::{Batches, read_log};
use hy_commands::Commit;
use hy_files::{FileSystem, HeldLog, MemoryFiles};
use hy_loads::Load;
use hy_partition::Loaded;
use hy_passes::Kit;
use hy_recovery::kit_for;
use hy_redo::{Log, LogOut};
use hy_storm::hy_redo_drains::DrainLog;
use hy_storm::{Shape, command_of};
use std::marker::Brand;
use std::process::Abort;

/// The path of the log.
pub const LOG: &str = "log";

/// Numbers one behind another, with no order that a test speaks of (a linear congruence, with Knuth's multiplier).
#[derive(Debug, Drop)]
pub struct Numbers {
    pub state: u64,
}

impl Numbers {
    /// One of the numbers from 0 to the last.
    pub fn up_to(&mut self, last: u64) -> u64 {
        self.state = self
            .state
            .wrapping_mul(6_364_136_223_846_793_005)
            .wrapping_add(1_442_695_040_888_963_407);
        (self.state >> 33) % last.saturating_add(1).max(1)
    }
}

/// What a life was told and leaves: how many batches stood there before it, and how long the log was before the first call
/// and behind each of those that acknowledged a batch.
#[derive(Debug, Drop)]
pub struct Life {
    pub before: u64,
    pub sizes: Vec<u64>,
}

/// How many bytes the batch has that begins at a place, by the length that it says.
fn size_at(bytes: &[u8], place: usize) -> Option<usize> {
    let mut length = 0u64;
    for before in 0..8usize {
        let byte = bytes.get(place.wrapping_add(11).wrapping_sub(before))?;
        length = length.wrapping_mul(256).wrapping_add(u64::from(*byte));
    }
    Some((length as usize).saturating_add(13))
}

/// How many batches are whole, by the lengths that they say.
pub fn whole_in(bytes: &[u8]) -> u64 {
    let mut place = 0usize;
    for count in 0..bytes.len() {
        let end = match size_at(bytes, place) {
            Some(size) => place.saturating_add(size),
            None => return count as u64,
        };
        if bytes.len() < end {
            return count as u64;
        }
        place = end;
    }
    bytes.len() as u64
}

/// Where the whole batches of a log end that stand behind its first so many bytes, by the lengths that they say; those bytes
/// first.
fn ends_behind<R: Abort + AllocGlobal>(rt: &R, bytes: &[u8], first: u64) -> Vec<u64> {
    let mut ends = Vec::new(rt.alloc());
    let mut end = first;
    for _ in 0..=bytes.len() {
        ends.push(end).expect(rt, "an end");
        let Some(size) = size_at(bytes, end as usize) else {
            return ends;
        };
        end = end.saturating_add(size as u64);
    }
    ends
}

/// How many commits the lists of a warehouse have in all batches.
fn commits_in(rt: &impl Abort, batches: &Batches, warehouse: u64) -> u64 {
    let place = (warehouse as usize).wrapping_sub(1);
    let mut count = 0u64;
    for number in 0..batches.count() as usize {
        let batch = batches.batch(number);
        assert!(rt; place < batch.len());
        count = count.wrapping_add(batch.list(place).len() as u64);
    }
    count
}

/// A database of two warehouses has kept what the batches have, and meets the conditions.
pub fn is_recovered<K: Loaded, R: Abort + AllocGlobal>(
    rt: &R,
    hall: &mut Hall<K>,
    batches: &Batches,
) {
    for warehouse in 1..=2u64 {
        let kept = hall.kept(rt, warehouse).len() as u64;
        assert!(rt; kept == commits_in(rt, batches, warehouse));
    }
    let opened = hall.open_session(rt, rt.alloc());
    assert!(rt; opened.session.check_conditions(rt.alloc()) == Ok(None));
    hall.close_session(rt, opened);
}

/// Some of a storm's commands, of any of its terminals, each of which may be refused.
fn storm_on<K: Loaded, R: Abort + AllocGlobal>(
    rt: &R,
    hall: &mut Hall<K>,
    shape: &Shape,
    numbers: &mut Numbers,
) {
    for _ in 0..numbers.up_to(9) {
        let terminal = numbers.up_to(3).saturating_add(1);
        let turn = numbers.up_to(99).saturating_add(1);
        assert!(rt; (1..=64).contains(&terminal) && (1..=100_000).contains(&turn));
        let command = command_of(rt.alloc(), shape, terminal, turn).expect(rt, "a command");
        let _reply = hall.run(rt, command);
    }
}

/// Some rounds: commands, and a drain that is acknowledged. How many they were.
fn rounds<K: Loaded, W: LogOut, R: Abort + AllocGlobal>(
    rt: &R,
    hall: &mut Hall<K>,
    shape: &Shape,
    drains: &mut DrainLog<W, K>,
    numbers: &mut Numbers,
) -> u64
    requires due { drains.old.due ≡ None }
{
    let count = numbers.up_to(3).saturating_add(1);
    for _ in 0..count {
        storm_on(rt, hall, shape, numbers);
        assert!(rt; hall.drain_to(rt, drains).is_ok());
    }
    count
}

/// What a life does with the log behind these batches, in the world of the load and the kit: how many drains the log was
/// handed, and the log.
fn live_in<K: Loaded, W: LogOut, R: Abort + AllocGlobal>(
    rt: &R,
    load: &Load,
    kit: Kit<Commit>,
    batches: &Batches,
    log: Log<W>,
    numbers: &mut Numbers,
) -> (u64, Log<W>)
    requires load { load.now ≡ K.load }
    requires kit { kit ≡ K.passes }
    requires partitions { kit.partitions ≡ length load.now.tables.warehouses }
    requires counts { Counts kit load.now batches.now }
    requires begins { BeginsBehind batches.now log }
{
    let (mut hall, cursor) = Hall::<K>::recovered(rt, load, kit, batches);
    let mut drains = DrainLog::new(log, cursor);
    is_recovered(rt, &mut hall, batches);
    let shape = Shape::of(rt.alloc(), load).expect(rt, "a shape");
    let count = rounds(rt, &mut hall, &shape, &mut drains, numbers);
    (count, drains.into_log())
}

/// A life of the log behind what stands in it, of which so many batches at least were acknowledged.
pub fn live<R: Abort + AllocGlobal>(
    rt: &R,
    load: &Load,
    files: &mut MemoryFiles,
    numbers: &mut Numbers,
    least: u64,
) -> Life {
    let alloc = rt.alloc();
    let mut held = files.hold_log(alloc, LOG).expect(rt, "a file");
    files.read_held(alloc, &mut held).expect(rt, "bytes");
    let batches = read_log(alloc, held.bytes()).expect(rt, "batches");
    assert!(rt; batches.count() == whole_in(held.bytes()) && least <= batches.count());
    let size = batches.bytes();
    assert!(rt; size <= held.bytes().len() as u64);
    let out = files.go_on_log(held, size).expect(rt, "a log");
    let kit = kit_for(alloc, load, &batches, 2, 1).expect(rt, "a kit");
    let log = Log::new(alloc, out);
    let (count, log) = live_in::<Brand, _, R>(rt, load, kit, &batches, log, numbers);
    assert!(rt; files.end_log(LOG, log.into_out()).is_ok());
    let bytes = files.read(alloc, LOG).expect(rt, "bytes");
    assert!(rt; whole_in(&bytes) == batches.count().wrapping_add(count));
    let sizes = ends_behind(rt, &bytes, size);
    assert!(rt; sizes.len() as u64 == count.wrapping_add(1));
    assert!(rt; sizes.get(count as usize) == Some(&(bytes.len() as u64)));
    Life {
        before: batches.count(),
        sizes,
    }
}

/// Stops a life behind some of its calls or within the next one: the log keeps a beginning of its bytes. How many of all
/// batches had been acknowledged.
pub fn stop<R: Abort + AllocGlobal>(
    rt: &R,
    files: &mut MemoryFiles,
    life: &Life,
    numbers: &mut Numbers,
) -> u64 {
    let calls = numbers.up_to((life.sizes.len() as u64).wrapping_sub(1));
    let done = calls as usize;
    assert!(rt; done < life.sizes.len());
    let least = life.sizes[done];
    let most = *life.sizes.get(done + 1).unwrap_or(&least);
    let left = least.wrapping_add(numbers.up_to(most.wrapping_sub(least)));
    let bytes = files.read(rt.alloc(), LOG).expect(rt, "bytes");
    assert!(rt; left <= bytes.len() as u64);
    assert!(rt; files.write(LOG, &bytes[..left as usize]).is_ok());
    life.before.wrapping_add(calls)
}
