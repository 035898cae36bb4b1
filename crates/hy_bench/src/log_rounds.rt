//! Rounds over the batches of a log in a file.

use hy_batches::{Batches, Sink, Text, read_log, write_batch};
use hy_files::{FileSystem, MemoryFiles, SystemFiles, new_log};
use hy_redo::{Log, LogOut};
use std::alloc::Global;

/// The file that batches are written to.
const WRITTEN: &str = "written.log";

/// So many rounds of a piece of work: the bytes of the log are read as batches; or its batches are written to a text, to a
/// file without a sync, to a log in memory, or to a log in a file, which is synced behind each batch.
pub fn run(rt: &HostRuntime, work: &str, rounds: u64, path: &str) -> Option<u64> {
    let alloc = rt.alloc();
    let mut files = SystemFiles::new(rt);
    let bytes = files.read(alloc, path).ok()?;
    let batches = read_log(alloc, &bytes).ok()?;
    match work {
        "log-read" => read_rounds(alloc, rounds, &bytes),
        "log-text" => text_rounds(alloc, rounds, &batches),
        "log-unsynced" => unsynced_rounds(alloc, rounds, &batches, &mut files),
        "log-memory" => log_rounds(alloc, rounds, &batches, &mut MemoryFiles::new(alloc)),
        _ => log_rounds(alloc, rounds, &batches, &mut files),
    }
}

/// Reads bytes as batches. Answers how many there were.
fn read_rounds(alloc: Global, rounds: u64, bytes: &[u8]) -> Option<u64> {
    let mut seen = 0_u64;
    for _ in 0..rounds {
        let batches = read_log(alloc, bytes).ok()?;
        seen = seen.wrapping_add(batches.count());
    }
    Some(seen)
}

/// Writes batches one behind another.
fn write_all<S: Sink>(sink: &mut S, batches: &Batches) {
    for place in 0..batches.count() {
        write_batch(sink, batches.batch(place as usize));
    }
}

/// Writes batches to a text. Answers how many bytes they have.
fn text_rounds(alloc: Global, rounds: u64, batches: &Batches) -> Option<u64> {
    let mut seen = 0_u64;
    let mut text = Text::new(alloc);
    for _ in 0..rounds {
        text.clear();
        write_all(&mut text, batches);
        seen = seen.wrapping_add(text.bytes()?.len() as u64);
    }
    Some(seen)
}

/// Writes batches to a file, all at once.
fn unsynced_rounds<F: FileSystem>(
    alloc: Global,
    rounds: u64,
    batches: &Batches,
    files: &mut F,
) -> Option<u64> {
    let mut text = Text::new(alloc);
    for _ in 0..rounds {
        text.clear();
        write_all(&mut text, batches);
        files.write(WRITTEN, text.bytes()?).ok()?;
    }
    Some(batches.count())
}

/// Writes batches to a new log, and acknowledges each.
fn log_rounds<F: FileSystem>(
    alloc: Global,
    rounds: u64,
    batches: &Batches,
    files: &mut F,
) -> Option<u64> {
    for _ in 0..rounds {
        let mut log = Log::new(alloc, new_log(alloc, files, WRITTEN).ok()?);
        write_each(&mut log, batches)?;
        files.end_log(WRITTEN, log.into_out()).ok()?;
    }
    Some(batches.count())
}

/// Writes batches to a log.
fn write_each<W: LogOut>(log: &mut Log<W>, batches: &Batches) -> Option<()> {
    for place in 0..batches.count() {
        log.write_batch(batches.batch(place as usize)).ok()?;
    }
    Some(())
}
