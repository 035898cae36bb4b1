//! A log whose writer fails: no later batch is acknowledged, nothing more is written, and what went out is recovered with all
//! that was acknowledged.

ghost use Rattle.std.specs.Prelude.{◌≡◌, length};
ghost use Rattle.hy_redo.specs.Disk.{BeginsBehind};
ghost use Rattle.hy_recovery.specs.Recovering.{Counts};

use crate::commands::payment_by;
use crate::halls::Hall;
use crate::lives::is_recovered;
use hy_batches::{Batches, read_log};
use hy_commands::{Commit, Reply};
use hy_loads::Load;
use hy_partition::Loaded;
use hy_passes::Kit;
use hy_recovery::kit_for;
use hy_redo::{Failed, Log, LogOut};
use hy_schema::Refusal;
use hy_storm::hy_redo_drains::DrainLog;
use hy_tables::generate;
use std::marker::{Brand, Model};
use std::process::Abort;

/// A writer in memory that takes up to sixteen bytes at a time. One of its calls fails, the one behind so many.
#[derive(Drop)]
struct Failing<'rt, R: Abort> {
    rt: &'rt R,
    bytes: Vec<u8>,
    synced: usize,
    failures: u64,
    calls: u64,
    fails_behind: u64,
}

impl<'rt, R: Abort> Model for Failing<'rt, R> {
    ghost use Rattle.hy_redo.specs.Writers.{Told};

    ghost Value = { Told };

    ghost view = { λ failing. record {
      written = failing.bytes.items;
      synced = failing.synced;
      failures = failing.failures;
    } };
}

impl<'rt, R: Abort + AllocGlobal> Failing<'rt, R> {
    ghost use Rattle.std.specs.Prelude.{◌≡◌, []};

    fn new(rt: &'rt R, fails_behind: u64) -> Failing<'rt, R>
        ensures { result ≡ record { written = []; synced = 0; failures = 0 } }
    {
        Failing {
            rt,
            bytes: Vec::new(rt.alloc()),
            synced: 0,
            failures: 0,
            calls: 0,
            fails_behind,
        }
    }
}

impl<'rt, R: Abort> Failing<'rt, R> {
    ghost use Rattle.std.specs.Prelude.{◌≡◌, ◌+◌};

    /// Whether the next call fails.
    fn next_fails(&mut self) -> bool
        ensures { self.new ≡ self.old }
    {
        let fails = self.calls == self.fails_behind;
        self.calls = self.calls.wrapping_add(1);
        fails
    }

    /// Counts a failure.
    fn fail(&mut self) -> Failed
        ensures { self.new ≡ record self.old { failures = self.old.failures + 1 } }
    {
        if self.failures == u64::MAX {
            panic!(self.rt; "too many failures");
        }
        self.failures += 1;
        Failed
    }
}

impl<'rt, R: Abort> LogOut for Failing<'rt, R> {
    ghost told = { λ failing. failing };

    fn write(&mut self, bytes: &[u8]) -> Result<usize, Failed> {
        if self.next_fails() {
            return Err(self.fail());
        }
        let count = bytes.len().min(16);
        if self.bytes.extend_from_slice(&bytes[..count]).is_err() {
            panic!(self.rt; "memory lasts");
        }
        Ok(count)
    }

    fn sync(&mut self) -> Result<(), Failed> {
        if self.next_fails() {
            return Err(self.fail());
        }
        self.synced = self.bytes.len();
        Ok(())
    }
}

/// Three payments, a drain behind each, on a database behind these batches: how many drains were acknowledged, the first ones
/// alone, and the log.
fn hand_three<K: Loaded, W: LogOut, R: Abort + AllocGlobal>(
    rt: &R,
    load: &Load,
    kit: Kit<Commit>,
    batches: &Batches,
    log: Log<W>,
) -> (u64, Log<W>)
    requires load { load.now ≡ K.load }
    requires kit { kit ≡ K.passes }
    requires partitions { kit.partitions ≡ length load.now.tables.warehouses }
    requires counts { Counts kit load.now batches.now }
    requires begins { BeginsBehind batches.now log }
{
    let (mut hall, cursor) = Hall::<K>::recovered(rt, load, kit, batches);
    let mut drains = DrainLog::new(log, cursor);
    let mut acknowledged = 0u64;
    for turn in 0..3u64 {
        assert!(rt; matches!(hall.run(rt, payment_by(1)), Reply::Payment { .. }));
        match hall.drain_to(rt, &mut drains) {
            Ok(()) => {
                assert!(rt; acknowledged == turn);
                acknowledged = acknowledged.wrapping_add(1);
            }
            Err(why) => assert!(rt; why == Refusal::LogFailed),
        }
    }
    (acknowledged, drains.into_log())
}

/// What went out is recovered: each batch has a payment.
fn recovers<K: Loaded, R: Abort + AllocGlobal>(
    rt: &R,
    load: &Load,
    kit: Kit<Commit>,
    batches: &Batches,
)
    requires load { load.now ≡ K.load }
    requires kit { kit ≡ K.passes }
    requires partitions { kit.partitions ≡ length load.now.tables.warehouses }
    requires counts { Counts kit load.now batches.now }
{
    let (mut hall, _cursor) = Hall::<K>::recovered(rt, load, kit, batches);
    is_recovered(rt, &mut hall, batches);
    assert!(rt; hall.kept(rt, 1).len() as u64 == batches.count() && hall.kept(rt, 2).is_empty());
}

/// The drains on the load, by a writer that fails behind so many calls: how many were acknowledged, and the log.
fn handed<'rt, R: Abort + AllocGlobal>(
    rt: &'rt R,
    load: &Load,
    calls: u64,
) -> (u64, Log<Failing<'rt, R>>) {
    let none = read_log(rt.alloc(), &[]).expect(rt, "no batch");
    let kit = kit_for(rt.alloc(), load, &none, 2, 1).expect(rt, "a kit");
    let log = Log::new(rt.alloc(), Failing::new(rt, calls));
    hand_three::<Brand, Failing<'rt, R>, R>(rt, load, kit, &none, log)
}

/// The batches of what went out are recovered on the load.
fn recovers_all<R: Abort + AllocGlobal>(rt: &R, load: &Load, batches: &Batches) {
    let kit = kit_for(rt.alloc(), load, batches, 2, 1).expect(rt, "a kit");
    recovers::<Brand, R>(rt, load, kit, batches);
}

/// A writer that fails behind so many calls; whether it came to that.
fn is_failed_behind<R: Abort + AllocGlobal>(rt: &R, calls: u64) -> bool {
    let load = generate(rt.alloc(), 2, 3, 20).expect(rt, "a load");
    let (acknowledged, log) = handed(rt, &load, calls);
    let out = log.into_out();
    let batches = read_log(rt.alloc(), &out.bytes).expect(rt, "batches");
    assert!(rt; acknowledged <= batches.count() && batches.count() <= 3);
    recovers_all(rt, &load, &batches);
    if out.failures == 0 {
        assert!(rt; acknowledged == 3 && batches.bytes() == out.synced as u64);
        return false;
    }
    assert!(rt; acknowledged < 3 && out.failures == 1 && out.calls == calls.wrapping_add(1));
    true
}

#[test]
fn a_writer_fails_at_each_call(rt: HostRuntime) {
    for calls in 0..=100 {
        if !is_failed_behind(&rt, calls) {
            assert!(&rt; calls == 12);
            return;
        }
    }
    panic!(&rt; "three drains are few calls");
}
