//! A file system.

ghost use Rattle.std.specs.Prelude.{◌≡◌, ◌≤◌, ◌⊎◌, [], Option, None, IfErr, IfOk, OnErr, OnOk, length, take};
ghost use Rattle.hy_files.specs.Files.{AddsPath, FilesByPath, HasFile, IsMissing, IsOutOfMemory, IsThere, KeepsFile, KeepsOthers, KnownPaths};
ghost use Rattle.hy_files.specs.LogFiles.{all_synced, nothing_told};

use crate::held_file::{HeldFile, HeldLog, Lockable, hold};
use crate::log_file::{LogFile, go_on};
use hy_redo::LogOut;
use std::alloc::Global;
use std::{fs, io, rt};

/// Files that are named by their paths.
pub trait FileSystem {
    /// A file that is held for a log.
    type Held: HeldLog + Drop;

    /// What a log is written to.
    type Log: LogOut + Drop + Send;

    // The files, where they are known.
    ghost files: { Self → Option FilesByPath };

    // The folders that it was asked to make, where they are known.
    ghost folders: { Self → KnownPaths } = { λ _. None };

    // The files that it couldn't write, but for want of memory, where they are known.
    ghost unwritten: { Self → KnownPaths } = { λ _. None };

    /// The bytes of a file. An `Err` of the kind `OutOfMemory` for want of memory, and of another kind where it can't
    /// be read: where the files are known, there is none at the path.
    fn read(&mut self, alloc: Global, path: &str) -> io::Result<Vec<u8>>
        ensures bytes { IfOk result (λ bytes. HasFile (files self.old) path.now bytes.items) }
        ensures missing { IfErr result (λ error. IsOutOfMemory error ⊎ IsMissing (files self.old) path.now) }
        ensures files { files self.new ≡ files self.old }
        ensures folders { folders self.new ≡ folders self.old }
        ensures unwritten { unwritten self.new ≡ unwritten self.old };

    /// Makes these the bytes of a file, which is a new one where there is none at the path. An `Err` where it can't be
    /// written: the file may then have other bytes, or be gone.
    fn write(&mut self, path: &str, bytes: &[u8]) -> io::Result<()>
        ensures bytes { OnOk result (HasFile (files self.new) path.now bytes.now) }
        ensures others { KeepsOthers (files self.old) (files self.new) path.now }
        ensures folders { folders self.new ≡ folders self.old }
        ensures written { OnOk result (unwritten self.new ≡ unwritten self.old) }
        ensures unwritten { IfErr result
            (λ error. (¬ IsOutOfMemory error) → AddsPath (unwritten self.old) (unwritten self.new) path.now) };

    /// Makes a folder, where there is none at the path; the folder that it is to stand in must be there. An `Err` where
    /// it can't be made, or is there already.
    fn make_folder(&mut self, path: &str) -> io::Result<()>
        ensures files { files self.new ≡ files self.old }
        ensures folders { AddsPath (folders self.old) (folders self.new) path.now }
        ensures unwritten { unwritten self.new ≡ unwritten self.old };

    /// Takes the lock on a file for a log, and reads and changes no byte of it; a new empty one is made where there is none at
    /// the path. An `Err` of the kind `WouldBlock` where another one has the lock, and of another kind where the file can't be
    /// opened for reading and writing, or locked: then it is as it was, but for a new empty one.
    fn hold_log(&mut self, alloc: Global, path: &str) -> io::Result<Self::Held>
        ensures held { IfOk result (λ held. (Self.Held.path held ≡ path.now) × (Self.Held.seen held ≡ [])) }
        ensures there { OnOk result (IsThere (files self.old) (files self.new) path.now) }
        ensures unheld { OnErr result
            (KeepsFile (files self.old) (files self.new) path.now ⊎ IsThere (files self.old) (files self.new) path.now) }
        ensures others { KeepsOthers (files self.old) (files self.new) path.now }
        ensures folders { folders self.new ≡ folders self.old }
        ensures written { OnOk result (unwritten self.new ≡ unwritten self.old) }
        ensures unwritten { IfErr result
            (λ error. (¬ IsOutOfMemory error) → AddsPath (unwritten self.old) (unwritten self.new) path.now) };

    /// Reads all bytes of a file that is held, which then has them. An `Err` as that of `read`.
    fn read_held(&mut self, alloc: Global, held: &mut Self::Held) -> io::Result<()>
        ensures path { Self.Held.path held.new ≡ Self.Held.path held.old }
        ensures bytes { OnOk result
            (HasFile (files self.old) (Self.Held.path held.old) (Self.Held.seen held.new)) }
        ensures unread { OnErr result (Self.Held.seen held.new ≡ Self.Held.seen held.old) }
        ensures missing { IfErr result
            (λ error. IsOutOfMemory error ⊎ IsMissing (files self.old) (Self.Held.path held.old)) }
        ensures files { files self.new ≡ files self.old }
        ensures folders { folders self.new ≡ folders self.old }
        ensures unwritten { unwritten self.new ≡ unwritten self.old };

    /// Cuts a file that is held behind so many of the bytes that were read of it, and syncs it and the folder that it stands
    /// in, also where nothing is cut: it may be that nobody synced what is there. What is given is a log that goes on behind
    /// those bytes, and ends with `end_log`; the lock is held until then. An `Err` where the file can't be cut or synced, or
    /// its folder can't be opened or synced.
    fn go_on_log(&mut self, held: Self::Held, size: u64) -> io::Result<Self::Log>
        requires { size ≤ length (Self.Held.seen held) }
        ensures log { IfOk result (λ log. Self.Log.told log ≡ all_synced (take size (Self.Held.seen held))) }
        ensures bytes { OnOk result
            (HasFile (files self.new) (Self.Held.path held) (take size (Self.Held.seen held))) }
        ensures uncut { OnErr result
            (KeepsFile (files self.old) (files self.new) (Self.Held.path held)
            ⊎ HasFile (files self.new) (Self.Held.path held) (take size (Self.Held.seen held))) }
        ensures others { KeepsOthers (files self.old) (files self.new) (Self.Held.path held) }
        ensures folders { folders self.new ≡ folders self.old }
        ensures written { OnOk result (unwritten self.new ≡ unwritten self.old) }
        ensures unwritten { IfErr result
            (λ error. (¬ IsOutOfMemory error)
            → AddsPath (unwritten self.old) (unwritten self.new) (Self.Held.path held)) };

    /// Ends a log, of which the file at the path has the bytes that were written. An `Err` as that of `write`.
    fn end_log(&mut self, path: &str, log: Self::Log) -> io::Result<()>
        ensures bytes { OnOk result (HasFile (files self.new) path.now (Self.Log.told log).written) }
        ensures others { KeepsOthers (files self.old) (files self.new) path.now }
        ensures folders { folders self.new ≡ folders self.old }
        ensures written { OnOk result (unwritten self.new ≡ unwritten self.old) }
        ensures unwritten { IfErr result
            (λ error. (¬ IsOutOfMemory error) → AddsPath (unwritten self.old) (unwritten self.new) path.now) };
}

/// A log in a file of its own, which is made empty once the lock on it is taken: where somebody else has that, the file stays
/// as it is. An `Err` as those of `hold_log` and `go_on_log`; then the file is as it was, or empty.
pub fn new_log<F: FileSystem>(alloc: Global, system: &mut F, path: &str) -> io::Result<F::Log>
    ensures log { IfOk result (λ log. F.Log.told log ≡ nothing_told) }
    ensures bytes { OnOk result (HasFile (F.files system.new) path.now []) }
    ensures unmade { OnErr result
        (KeepsFile (F.files system.old) (F.files system.new) path.now ⊎ HasFile (F.files system.new) path.now []) }
    ensures others { KeepsOthers (F.files system.old) (F.files system.new) path.now }
    ensures folders { F.folders system.new ≡ F.folders system.old }
    ensures written { OnOk result (F.unwritten system.new ≡ F.unwritten system.old) }
    ensures unwritten { IfErr result
        (λ error. (¬ IsOutOfMemory error) → AddsPath (F.unwritten system.old) (F.unwritten system.new) path.now) }
{
    let held = system.hold_log(alloc, path)?;
    system.go_on_log(held, 0)
}

/// The files of the system. No clause knows what they have.
#[derive(Drop)]
pub struct SystemFiles<'a, R> {
    runtime: &'a R,
}

impl<'a, R: rt::Files + AllocGlobal> SystemFiles<'a, R> {
    /// The files that a runtime reaches.
    pub fn new(runtime: &'a R) -> SystemFiles<'a, R> {
        SystemFiles { runtime }
    }
}

impl<R: rt::Files<File: Lockable + Send> + AllocGlobal> FileSystem for SystemFiles<'_, R> {
    type Held = HeldFile<R::File>;

    type Log = LogFile<R::File>;

    ghost files = { λ _. None };

    fn read(&mut self, _alloc: Global, path: &str) -> io::Result<Vec<u8>> {
        fs::read(self.runtime, path)
    }

    fn write(&mut self, path: &str, bytes: &[u8]) -> io::Result<()> {
        fs::write(self.runtime, path, bytes)
    }

    fn make_folder(&mut self, path: &str) -> io::Result<()> {
        fs::create_dir(self.runtime, path)
    }

    fn hold_log(&mut self, alloc: Global, path: &str) -> io::Result<HeldFile<R::File>> {
        hold(self.runtime, alloc, path)
    }

    fn read_held(&mut self, alloc: Global, held: &mut HeldFile<R::File>) -> io::Result<()> {
        held.read_file(alloc)
    }

    fn go_on_log(&mut self, held: HeldFile<R::File>, size: u64) -> io::Result<LogFile<R::File>> {
        go_on(self.runtime, held, size)
    }

    fn end_log(&mut self, _path: &str, _log: LogFile<R::File>) -> io::Result<()> {
        Ok(())
    }
}
