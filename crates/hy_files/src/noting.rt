//! A runtime for tests: it has one file in a folder, notes each call, and refuses or cuts short those that a test names.

use crate::held_file::Lockable;
use std::alloc::{Allocator, Global};
use std::fs::{Metadata, OpenFile, OpenOptions};
use std::io::{self, Read, Seek, SeekFrom, Write};
use std::rt;
use std::sync::Mutex;

/// The folder, and the path of the file in it.
pub(crate) const FOLDER: &str = "folder";

pub(crate) const PATH: &str = "folder/log";

/// A call.
#[derive(Clone, Copy, Debug, PartialEq, Eq)]
pub(crate) enum Call {
    /// The file is opened for reading and writing, uncut, and made where there is none.
    Open,
    /// The lock on it is taken.
    Lock,
    /// The next byte that is read or written is the one behind so many.
    Seek(u64),
    /// It is cut behind so many bytes.
    Cut(u64),
    /// So many bytes are handed to it.
    Write(usize),
    /// It is synced.
    Sync,
    /// The folder is opened for reading.
    OpenFolder,
    /// The folder is synced.
    SyncFolder,
    /// Anything else.
    Other,
}

/// How a call is answered that a test names.
#[derive(Clone, Copy, PartialEq, Eq)]
pub(crate) enum Answer {
    /// By an error of this kind.
    Error(io::ErrorKind),
    /// Of the bytes that it is handed it takes so many at most.
    Takes(usize),
}

/// The calls so far, and what the file has.
#[derive(Drop)]
pub(crate) struct Noted {
    calls: Mutex<Vec<Call>>,
    bytes: Mutex<Vec<u8>>,
}

impl Noted {
    /// No call, and a file of these bytes.
    pub(crate) fn new(alloc: Global, bytes: Vec<u8>) -> Noted {
        Noted {
            calls: Mutex::new(Vec::new(alloc)),
            bytes: Mutex::new(bytes),
        }
    }

    /// The calls, and what the file has now.
    pub(crate) fn into_parts(self) -> (Vec<Call>, Vec<u8>) {
        let Noted { calls, bytes } = self;
        (calls.into_inner(), bytes.into_inner())
    }

    /// Notes a call, and tells which one it is. Nothing is noted where memory is refused.
    fn note(&self, call: Call) -> io::Result<usize> {
        let Some(mut calls) = self.calls.try_lock() else {
            return Err(io::Error::from(io::ErrorKind::Other));
        };
        let place = calls.len();
        calls.push(call)?;
        Ok(place)
    }
}

/// The runtime.
#[derive(Clone, Copy)]
pub(crate) struct Noting<'t> {
    pub(crate) alloc: Global,
    pub(crate) noted: &'t Noted,
    pub(crate) answers: &'t [(usize, Answer)],
}

impl<'t> Noting<'t> {
    /// Notes a call. Answers how many bytes it may take: all, where the test doesn't name it.
    fn note(&self, call: Call) -> io::Result<usize> {
        let place = self.noted.note(call)?;
        for &(named, answer) in self.answers {
            if named == place {
                return match answer {
                    Answer::Error(kind) => Err(io::Error::from(kind)),
                    Answer::Takes(count) => Ok(count),
                };
            }
        }
        Ok(usize::MAX)
    }
}

/// The file or its folder, opened.
#[derive(Drop)]
pub(crate) struct Opened<'t> {
    runtime: Noting<'t>,
    is_folder: bool,
    at: usize,
}

impl<'t> Opened<'t> {
    /// Notes a call on the file or the folder.
    fn note(&self, of_file: Call, of_folder: Call) -> io::Result<usize> {
        self.runtime
            .note(if self.is_folder { of_folder } else { of_file })
    }
}

/// What isn't there.
fn unsupported() -> io::Error {
    io::Error::from(io::ErrorKind::Unsupported)
}

impl Read for Opened<'_> {
    fn read(&mut self, buf: &mut [u8]) -> io::Result<usize> {
        let Some(kept) = self.runtime.noted.bytes.try_lock() else {
            return Err(unsupported());
        };
        let bytes: &[u8] = &kept;
        let at = self.at.min(bytes.len());
        let count = buf.len().min(bytes.len() - at);
        buf[..count].copy_from_slice(&bytes[at..at + count]);
        self.at = at + count;
        Ok(count)
    }
}

impl Write for Opened<'_> {
    fn write(&mut self, bytes: &[u8]) -> io::Result<usize> {
        let most = self.note(Call::Write(bytes.len()), Call::Other)?;
        let count = bytes.len().min(most);
        let Some(mut kept) = self.runtime.noted.bytes.try_lock() else {
            return Err(unsupported());
        };
        kept.extend_from_slice(&bytes[..count])?;
        Ok(count)
    }

    fn flush(&mut self) -> io::Result<()> {
        self.note(Call::Other, Call::Other)?;
        Ok(())
    }
}

impl Seek for Opened<'_> {
    fn seek(&mut self, to: SeekFrom) -> io::Result<u64> {
        let SeekFrom::Start(at) = to else {
            return Err(unsupported());
        };
        self.note(Call::Seek(at), Call::Other)?;
        self.at = at as usize;
        Ok(at)
    }
}

impl OpenFile for Opened<'_> {
    fn metadata(&self) -> io::Result<Metadata> {
        self.note(Call::Other, Call::Other)?;
        Err(unsupported())
    }

    fn set_len(&self, size: u64) -> io::Result<()> {
        self.note(Call::Cut(size), Call::Other)?;
        let Some(mut kept) = self.runtime.noted.bytes.try_lock() else {
            return Err(unsupported());
        };
        kept.truncate(size as usize);
        Ok(())
    }

    fn sync_all(&self) -> io::Result<()> {
        self.note(Call::Sync, Call::SyncFolder)?;
        Ok(())
    }

    fn sync_data(&self) -> io::Result<()> {
        self.note(Call::Other, Call::Other)?;
        Ok(())
    }
}

impl Lockable for Opened<'_> {
    fn take_lock(&self) -> io::Result<()> {
        self.note(Call::Lock, Call::Other)?;
        Ok(())
    }
}

impl Alloc for Noting<'_> {
    type A = Global;

    fn alloc(&self) -> Global {
        self.alloc
    }
}

/// Whether a file is opened as a log is.
fn is_for_a_log(how: &OpenOptions) -> bool {
    let is_uncut = !how.asks_truncate() && !how.asks_append() && !how.asks_create_new();
    how.asks_read() && how.asks_write() && how.asks_create() && is_uncut
}

/// Whether a folder is opened as one is that is to be synced.
fn is_for_a_folder(how: &OpenOptions) -> bool {
    how.asks_read() && !how.asks_write() && !how.asks_append()
}

impl<'t> rt::Files for Noting<'t> {
    type File = Opened<'t>;

    type Dir = Opened<'t>;

    fn open_file(&self, how: &OpenOptions, path: &str) -> io::Result<Opened<'t>> {
        let call = match path {
            PATH if is_for_a_log(how) => Call::Open,
            FOLDER if is_for_a_folder(how) => Call::OpenFolder,
            _ => Call::Other,
        };
        self.note(call)?;
        Ok(Opened {
            runtime: *self,
            is_folder: call == Call::OpenFolder,
            at: 0,
        })
    }

    fn open_dir(&self, _path: &str) -> io::Result<Opened<'t>> {
        self.note(Call::Other)?;
        Err(unsupported())
    }

    fn metadata(&self, _path: &str) -> io::Result<Metadata> {
        self.note(Call::Other)?;
        Err(unsupported())
    }

    fn symlink_metadata(&self, _path: &str) -> io::Result<Metadata> {
        self.note(Call::Other)?;
        Err(unsupported())
    }

    fn copy(&self, _from: &str, _to: &str) -> io::Result<u64> {
        self.note(Call::Other)?;
        Err(unsupported())
    }

    fn rename(&self, _from: &str, _to: &str) -> io::Result<()> {
        self.note(Call::Other)?;
        Err(unsupported())
    }

    fn remove_file(&self, _path: &str) -> io::Result<()> {
        self.note(Call::Other)?;
        Err(unsupported())
    }

    fn create_dir(&self, _path: &str) -> io::Result<()> {
        self.note(Call::Other)?;
        Err(unsupported())
    }

    fn remove_dir(&self, _path: &str) -> io::Result<()> {
        self.note(Call::Other)?;
        Err(unsupported())
    }

    fn remove_dir_all<B: Allocator>(&self, _alloc: B, _path: &str) -> io::Result<()> {
        self.note(Call::Other)?;
        Err(unsupported())
    }
}
