//! A log in a file of the system.

ghost use Rattle.std.specs.Prelude.{◌≡◌, ◌<◌, ◌≤◌, IfOk, IfSome, length, take};
ghost use Rattle.hy_files.specs.LogFiles.{all_synced};

use crate::held_file::HeldFile;
use crate::noted::Noted;
use hy_redo::{Failed, LogOut};
use std::fs::OpenFile;
use std::io::{Seek, SeekFrom, Write};
use std::path::Path;
use std::{fs, io, rt};

/// A file of the system, which stays open and locked as long as a log is written to it. What it notes for clauses are the
/// answers of its own calls. That each of them is made, that a file is synced and then its folder before a log begins, and
/// that a batch is synced before the next is written, no clause can see: a test notes every call over files of its own, and
/// `tools/try_sync` those of the program.
#[derive(Drop)]
pub struct LogFile<F> {
    file: F,
    noted: Noted,
}

impl<F> LogFile<F> {
    /// This file, which has these bytes, all of them synced.
    fn behind(file: F, bytes: &[u8]) -> LogFile<F>
        ensures { result.noted.told ≡ all_synced bytes.now }
    {
        LogFile {
            file,
            noted: Noted::behind(bytes),
        }
    }
}

/// Cuts a file that is held behind so many bytes, goes on at its end, and syncs it and the folder that it stands in.
pub(crate) fn go_on<R: rt::Files>(
    rt: &R,
    held: HeldFile<R::File>,
    size: u64,
) -> io::Result<LogFile<R::File>>
    requires { size ≤ length held.seen }
    ensures { IfOk result (λ log. log.noted.told ≡ all_synced (take size held.seen)) }
{
    let (mut file, path, bytes) = held.into_parts();
    file.set_len(size)?;
    file.seek(SeekFrom::Start(size))?;
    file.sync_all()?;
    fs::open(rt, folder_of(path.as_str()))?.sync_all()?;
    Ok(LogFile::behind(file, &bytes[..size as usize]))
}

/// The folder that a path's file stands in.
fn folder_of(path: &str) -> &str {
    match Path::new(path).parent() {
        Some(folder) if !folder.as_str().is_empty() => folder.as_str(),
        _ => ".",
    }
}

/// Writes at least one byte of a slice that isn't empty, and tells how many. What interrupts a call is passed over.
fn write_some<F: Write>(file: &mut F, bytes: &[u8]) -> Option<usize>
    ensures { IfSome result (λ count. (count ≤ length bytes.now) × (0 < length bytes.now → 0 < count)) }
{
    for _ in 0..u64::MAX {
        match file.write(bytes) {
            Ok(0) if !bytes.is_empty() => return None,
            Ok(count) => return Some(count),
            Err(error) if error.kind() == io::ErrorKind::Interrupted => {}
            Err(_) => return None,
        }
    }
    None
}

impl<F: Write + OpenFile> LogOut for LogFile<F> {
    ghost told = { λ log. log.noted.told };

    fn write(&mut self, bytes: &[u8]) -> Result<usize, Failed> {
        match write_some(&mut self.file, bytes) {
            Some(count) => {
                self.noted.take(&bytes[..count]);
                Ok(count)
            }
            None => {
                self.noted.fail();
                Err(Failed)
            }
        }
    }

    fn sync(&mut self) -> Result<(), Failed> {
        match self.file.sync_all() {
            Ok(()) => {
                self.noted.sync();
                Ok(())
            }
            Err(_) => {
                self.noted.fail();
                Err(Failed)
            }
        }
    }
}
