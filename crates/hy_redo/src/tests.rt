use super::*;
use hy_batches::{Batches, read_log};
use hy_schema::Refusal;
use std::alloc::{AllocError, Global};
use std::marker::Model;
use std::process::Abort;
use std::test::*;

/// A payment of 1.00 in warehouse 1 of two.
const SAMPLE: [u8; 43] = [
    0x48, 0x59, 0x42, 0x31, 0x1e, 0, 0, 0, 0, 0, 0, 0, 2, 1, 0, 0, 0, 0, 2, 1, 1, 1, 1, 0, 1, 0,
    0x64, 0, 0, 0, 1, 0, 0, 0, 0, 0, 0, 0, 0, 0, 0, 0, 0x45,
];

/// The place of the byte of the mark that tells the edition.
const EDITION: usize = 3;

/// The sample, and behind it the same of the second edition, twice.
fn three(alloc: Global) -> Result<Vec<u8>, AllocError> {
    let mut second = SAMPLE;
    second[EDITION] = 0x32;
    let mut bytes = Vec::from_slice(alloc, &SAMPLE)?;
    bytes.extend_from_slice(&second)?;
    bytes.extend_from_slice(&second)?;
    Ok(bytes)
}

/// A writer in memory that takes one byte at a time. One of its calls fails, the one behind so many, and none after it.
#[derive(Drop)]
struct Memory<'rt, R: Abort> {
    rt: &'rt R,
    bytes: Vec<u8>,
    synced: usize,
    failures: u64,
    calls: u64,
    fails_behind: u64,
}

impl<'rt, R: Abort> Model for Memory<'rt, R> {
    ghost use Rattle.hy_redo.specs.Writers.{Told};

    ghost Value = { Told };

    ghost view = { λ memory. record {
      written = memory.bytes.items;
      synced = memory.synced;
      failures = memory.failures;
    } };
}

impl<'rt, R: Abort + AllocGlobal> Memory<'rt, R> {
    fn new(rt: &'rt R, fails_behind: u64) -> Memory<'rt, R> {
        Memory {
            rt,
            bytes: Vec::new(rt.alloc()),
            synced: 0,
            failures: 0,
            calls: 0,
            fails_behind,
        }
    }
}

impl<'rt, R: Abort> Memory<'rt, R> {
    ghost use Rattle.std.specs.Prelude.{◌≡◌, ◌+◌};

    /// Whether the next call fails.
    fn next_fails(&mut self) -> bool
        ensures { self.new ≡ self.old }
    {
        let fails = self.calls == self.fails_behind;
        self.calls = self.calls.wrapping_add(1);
        fails
    }

    /// Counts a failure.
    fn fail(&mut self) -> Failed
        ensures { self.new ≡ record self.old { failures = self.old.failures + 1 } }
    {
        if self.failures == u64::MAX {
            panic!(self.rt; "too many failures");
        }
        self.failures += 1;
        Failed
    }
}

impl<'rt, R: Abort> LogOut for Memory<'rt, R> {
    ghost told = { λ memory. memory };

    fn write(&mut self, bytes: &[u8]) -> Result<usize, Failed> {
        if self.next_fails() {
            return Err(self.fail());
        }
        if bytes.is_empty() {
            return Ok(0);
        }
        if self.bytes.extend_from_slice(&bytes[..1]).is_err() {
            panic!(self.rt; "memory lasts");
        }
        Ok(1)
    }

    fn sync(&mut self) -> Result<(), Failed> {
        if self.next_fails() {
            return Err(self.fail());
        }
        self.synced = self.bytes.len();
        Ok(())
    }
}

/// Writes three batches over a writer that fails behind so many calls. A batch takes 44: 43 writes and a sync.
fn stops_behind(rt: &(impl Abort + AllocGlobal), given: &Batches, calls: u64) {
    assert_eq!(rt; given.count(), 3);
    let whole = calls / 44;
    let mut log = Log::new(rt.alloc(), Memory::new(rt, calls));
    for place in 0..3 {
        let answer = log.write_batch(given.batch(place));
        if (place as u64) < whole {
            assert_eq!(rt; answer, Ok(()));
        } else {
            assert_eq!(rt; answer, Err(Refusal::LogFailed));
        }
    }
    let out = log.out();
    assert_eq!(rt; out.failures, 1);
    assert_eq!(rt; out.calls, calls.wrapping_add(1));
    assert_eq!(rt; out.synced as u64, 43 * whole);
    assert_eq!(rt; out.bytes.len() as u64, calls - whole);
    let Ok(batches) = read_log(rt.alloc(), &out.bytes) else {
        panic!(rt; "no log");
    };
    assert_eq!(rt; batches.count(), (calls - whole) / 43);
    for place in 0..batches.count().min(3) as usize {
        assert_eq!(rt;
            batches.batch(place).edition(),
            given.batch(place).edition()
        );
    }
}

#[test]
fn failure_refuses_from_then_on(rt: HostRuntime) -> Result<(), Fail> {
    let bytes = three(rt.alloc())?;
    let batches = read_log(rt.alloc(), &bytes)?;
    for calls in 0..132 {
        stops_behind(&rt, &batches, calls);
    }
    Ok(())
}

#[test]
fn batches_are_acknowledged(rt: HostRuntime) -> Result<(), Fail> {
    let bytes = three(rt.alloc())?;
    let batches = read_log(rt.alloc(), &bytes)?;
    assert_eq!(rt; batches.count(), 3);
    let mut log = Log::new(rt.alloc(), Memory::new(&rt, 132));
    log.write_batch(batches.batch(0))?;
    log.write_batch(batches.batch(1))?;
    log.write_batch(batches.batch(2))?;
    assert_eq!(rt; log.out().synced, 129);
    assert_eq!(rt; log.out().bytes, bytes);
    Ok(())
}
