//! Storms with a log.

ghost use Rattle.std.specs.Prelude.{◌≡◌, ◌+◌, []};

use hy_batches::read_log;
use hy_files::{FileSystem, MemoryFiles, new_log};
use hy_redo::{Failed, Log, LogOut};
use hy_schema::Refusal;
use hy_storm::hy_engine::Open;
use hy_storm::{Figures, Size, storm};
use hy_tables::generate;
use std::marker::Model;
use std::process::Abort;
use std::sync::Wait;
use std::thread::Threads;

/// How large the storms are.
const SIZE: Size = Size {
    terminals: 4,
    sessions: 2,
    commands: 10,
};

/// A writer that fails at once.
#[derive(Drop)]
struct Broken<'rt, R: Abort> {
    rt: &'rt R,
    failures: u64,
}

impl<'rt, R: Abort> Model for Broken<'rt, R> {
    ghost use Rattle.std.specs.Prelude.{[]};
    ghost use Rattle.hy_redo.specs.Writers.{Told};

    ghost Value = { Told };

    ghost view = { λ broken. record { written = []; synced = 0; failures = broken.failures } };
}

impl<'rt, R: Abort> Broken<'rt, R> {
    /// Counts a failure.
    fn fail(&mut self) -> Failed
        ensures { self.new ≡ record self.old { failures = self.old.failures + 1 } }
    {
        if self.failures == u64::MAX {
            panic!(self.rt; "too many failures");
        }
        self.failures += 1;
        Failed
    }
}

impl<'rt, R: Abort> LogOut for Broken<'rt, R> {
    ghost told = { λ broken. broken };

    fn write(&mut self, _bytes: &[u8]) -> Result<usize, Failed> {
        Err(self.fail())
    }

    fn sync(&mut self) -> Result<(), Failed> {
        Err(self.fail())
    }
}

/// A storm over two warehouses that writes to a log: what it comes to, and the log's writer.
fn logged<W: LogOut + Drop + Send, R: Threads + Wait + Abort + AllocGlobal + Sync>(
    rt: &R,
    out: W,
) -> (Figures, W)
    requires nothing { (W.told out).written ≡ [] }
{
    let load = generate(rt.alloc(), 2, 3, 20).expect(rt, "a load");
    let log = Log::new(rt.alloc(), out);
    let (figures, log) = storm(rt, rt.alloc(), &load, SIZE, Open, Some(log));
    let Some(log) = log else {
        panic!(rt; "the log comes back")
    };
    (figures.expect(rt, "a storm"), log.into_out())
}

#[test]
fn each_round_of_a_session_leaves_a_batch(rt: HostRuntime) {
    let mut files = MemoryFiles::new(rt.alloc());
    let out = new_log(rt.alloc(), &mut files, "log").expect(&rt, "a log");
    let (figures, out) = logged(&rt, out);
    assert!(&rt; figures.refusal == None);
    assert!(&rt; files.end_log("log", out).is_ok());
    let bytes = files.read(rt.alloc(), "log").expect(&rt, "bytes");
    let batches = read_log(rt.alloc(), &bytes).expect(&rt, "batches");
    assert!(&rt; batches.count() == 7);
    assert!(&rt; batches.bytes() == bytes.len() as u64);
}

#[test]
fn a_storm_goes_on_without_its_log(rt: HostRuntime) {
    let (figures, out) = logged(
        &rt,
        Broken {
            rt: &rt,
            failures: 0,
        },
    );
    assert!(&rt; figures.refusal == Some(Refusal::LogFailed));
    assert!(&rt; figures.commits == 24 && figures.kept == 24 && figures.cents == 836);
    assert!(&rt; figures.rounds == 6);
    assert!(&rt; out.failures == 1);
}
