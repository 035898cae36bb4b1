//! A file that is held for a log.

ghost use Rattle.std.specs.Prelude.{◌≡◌, [], IfOk, OnErr, string_bytes};

use std::alloc::Global;
use std::fs::{File, OpenOptions};
use std::io::{Read, Seek};
use std::marker::Model;
use std::{io, rt};

/// A file that one of many who have it open can lock.
pub trait Lockable {
    /// Takes the lock, which ends once the file is closed, also where its process is killed. An `Err` of the kind
    /// `WouldBlock` where somebody else has it.
    fn take_lock(&self) -> io::Result<()>;
}

impl Lockable for File {
    fn take_lock(&self) -> io::Result<()> {
        self.try_lock()?;
        Ok(())
    }
}

/// A file that is held for a log.
pub trait HeldLog {
    ghost use Rattle.std.specs.Prelude.{◌≡◌, ℕ, List};

    // Its path.
    ghost path: { Self → List ℕ };

    // The bytes that were read of it.
    ghost seen: { Self → List ℕ };

    /// The bytes that were read of it: none before `read_held`.
    fn bytes(&self) -> &[u8]
        ensures { result.now ≡ seen self.now };
}

/// A file that is held for a log: it stays open and locked, and has what was read of it.
#[derive(Drop)]
pub struct HeldFile<F> {
    file: F,
    path: String,
    bytes: Vec<u8>,
}

// Clauses see its path, and the bytes that were read of it.
impl<F> Model for HeldFile<F> {
    ghost use Rattle.std.specs.Prelude.{string_bytes};
    ghost use Rattle.hy_files.specs.LogFiles.{Holding};

    ghost Value = { Holding };

    ghost view = { λ held. record { path = string_bytes held.path; seen = held.bytes.items } };
}

impl<F> HeldFile<F> {
    /// The file at a path, of which nothing was read yet.
    pub(crate) fn new(alloc: Global, file: F, path: String) -> HeldFile<F>
        ensures { result ≡ record { path = string_bytes path; seen = [] } }
    {
        HeldFile {
            file,
            path,
            bytes: Vec::new(alloc),
        }
    }

    /// Its path.
    pub(crate) fn path(&self) -> &str
        ensures { result.now ≡ self.now.path }
    {
        self.path.as_str()
    }

    /// These bytes were read of it.
    pub(crate) fn see(&mut self, bytes: Vec<u8>)
        ensures { self.new ≡ record self.old { seen = bytes.items } }
    {
        self.bytes = bytes;
    }

    /// What it is held by, its path, and what was read of it.
    pub(crate) fn into_parts(self) -> (F, String, Vec<u8>)
        ensures path { string_bytes result.1 ≡ self.path }
        ensures bytes { result.2.items ≡ self.seen }
    {
        let HeldFile { file, path, bytes } = self;
        (file, path, bytes)
    }
}

impl<F> HeldLog for HeldFile<F> {
    ghost path = { λ held. held.path };

    ghost seen = { λ held. held.seen };

    fn bytes(&self) -> &[u8] {
        &self.bytes
    }
}

impl<F: Read + Seek> HeldFile<F> {
    /// Reads the file from its first byte to its end.
    pub(crate) fn read_file(&mut self, alloc: Global) -> io::Result<()>
        ensures path { self.new.path ≡ self.old.path }
        ensures unread { OnErr result (self.new.seen ≡ self.old.seen) }
    {
        let mut bytes = Vec::new(alloc);
        self.file.rewind()?;
        self.file.read_to_end(&mut bytes)?;
        self.see(bytes);
        Ok(())
    }
}

/// Opens a file for reading and writing, which is made where there is none, and takes the lock on it.
pub(crate) fn hold<R: rt::Files<File: Lockable>>(
    rt: &R,
    alloc: Global,
    path: &str,
) -> io::Result<HeldFile<R::File>>
    ensures { IfOk result (λ held. held ≡ record { path = path.now; seen = [] }) }
{
    let kept_path = path.to_string(alloc)?;
    let file = OpenOptions::new()
        .read(true)
        .write(true)
        .create(true)
        .open(rt, path)?;
    file.take_lock()?;
    Ok(HeldFile::new(alloc, file, kept_path))
}
