//! The file beside a log that says whose it is.

ghost use Rattle.std.specs.Prelude.{◌≡◌, ◌≢◌, IfErr, IfOk, OnOk};
ghost use Rattle.std.specs.IoError.{error_kind};
ghost use Rattle.hy_files.specs.Files.{HasFile, KeepsOthers};
ghost use Rattle.hy_files_sums.specs.Beside.{IsFound, IsWhyUnwritten, NotFound};
ghost use Rattle.hy_redo.specs.Writers.{with_more, with_sync};

use hy_files::{FileSystem, new_log};
use hy_redo::{Failed, LogOut};
use std::alloc::Global;
use std::io;

/// Writes bytes to a writer and syncs them.
fn write_synced<W: LogOut>(out: &mut W, bytes: &[u8]) -> Result<(), Failed>
    ensures { OnOk result (W.told out.new ≡ with_sync (with_more (W.told out.old) bytes.now)) }
{
    let mut rest = bytes;
    while !rest.is_empty() {
        let count = out.write(rest)?;
        rest = &rest[count..];
    }
    out.sync()
}

/// What the file beside a log says of a load.
#[derive(Clone, Copy, Debug, PartialEq, Eq)]
pub enum Found {
    /// It has the digests of this load.
    Same,
    /// It has something else.
    Other,
    /// There is no file, or one that was cut while it was written, so that what it has begins these digests.
    Nothing,
}

/// What the file beside a log says of a load with these digests. Nothing changes. An error where it can't be read, for want of
/// memory or for another reason than that there is none.
pub fn find_sums<F: FileSystem>(
    alloc: Global,
    system: &mut F,
    path: &str,
    sums: &[u8],
) -> io::Result<Found>
    ensures found { IfOk result (IsFound (F.files system.old) path.now sums.now) }
    ensures unread { IfErr result (λ error. error_kind error ≢ NotFound) }
    ensures files { F.files system.new ≡ F.files system.old }
    ensures folders { F.folders system.new ≡ F.folders system.old }
    ensures unwritten { F.unwritten system.new ≡ F.unwritten system.old }
{
    match system.read(alloc, path) {
        Ok(found) if found.as_slice() == sums => Ok(Found::Same),
        Ok(found) if sums.starts_with(&found) => Ok(Found::Nothing),
        Ok(_) => Ok(Found::Other),
        Err(error) if error.kind() == io::ErrorKind::NotFound => Ok(Found::Nothing),
        Err(error) => Err(error),
    }
}

/// Why a file beside a log wasn't written.
#[derive(Debug, Drop)]
pub enum SumsFault {
    /// It can't be written, or memory was refused.
    File(io::Error),
    /// A write or a sync has failed.
    Writer,
}

/// Makes these the digests in the file beside a log, which is synced, and so is its folder. Whatever it had is gone, also where it
/// isn't written whole.
pub fn write_sums<F: FileSystem>(
    alloc: Global,
    system: &mut F,
    path: &str,
    sums: &[u8],
) -> Result<(), SumsFault>
    ensures bytes { OnOk result (HasFile (F.files system.new) path.now sums.now) }
    ensures others { KeepsOthers (F.files system.old) (F.files system.new) path.now }
    ensures folders { F.folders system.new ≡ F.folders system.old }
    ensures written { OnOk result (F.unwritten system.new ≡ F.unwritten system.old) }
    ensures fault { IfErr result (IsWhyUnwritten (F.unwritten system.old, F.unwritten system.new) path.now) }
{
    let mut out = match new_log(alloc, system, path) {
        Ok(out) => out,
        Err(error) => return Err(SumsFault::File(error)),
    };
    let written = write_synced(&mut out, sums);
    if let Err(error) = system.end_log(path, out) {
        return Err(SumsFault::File(error));
    }
    match written {
        Ok(()) => Ok(()),
        Err(_) => Err(SumsFault::Writer),
    }
}
