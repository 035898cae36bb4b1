//! The files that a command reads: the nine of a load, and one behind them.

ghost use Rattle.std.specs.Prelude.{◌≡◌, Bool, IfErr, IfOk};
ghost use Rattle.hy_files.specs.Files.{HasFile};
ghost use Rattle.hy_program.specs.Faults.{IsBlamedRightly};
ghost use Rattle.hy_program.specs.Reading.{HasBoth, IsFileFault, IsReadAllFault, IsWhyUnread};

use crate::fault::RunFault;
use hy_files::{FileFault, FileSystem, read_load};
use hy_loads::Load;
use hy_schema::Refusal;
use std::alloc::Global;
use std::io;

/// The load in the files of a folder, and the bytes of a file behind them. What can't be read is named before what is
/// wrong with the load. Where memory is refused for the load, the file isn't read.
pub(crate) fn read_all<'a, F: FileSystem>(
    alloc: Global,
    directory: &'a str,
    file: &'a str,
    system: &mut F,
) -> Result<(Load, Vec<u8>), RunFault<'a>>
    ensures files { F.files system.new ≡ F.files system.old }
    ensures folders { F.folders system.new ≡ F.folders system.old }
    ensures unwritten { F.unwritten system.new ≡ F.unwritten system.old }
    ensures read { IfOk result
        (λ read. HasBoth directory.entry.now file.entry.now (F.files system.old) read.0 read.1.items) }
    ensures fault { IfErr result (IsReadAllFault directory.entry.now file.entry.now (F.files system.old)) }
    ensures unblamed { IfErr result (λ why. (has_failed : Bool) → IsBlamedRightly has_failed why) }
{
    match read_load(alloc, system, directory) {
        Ok(load) => {
            let bytes = read_file(alloc, file, system)?;
            Ok((load, bytes))
        }
        Err(FileFault::Refused(Refusal::BadLoad(fault))) => {
            let _bytes = read_file(alloc, file, system)?;
            Err(RunFault::Refused(Refusal::BadLoad(fault)))
        }
        Err(found) => Err(RunFault::of_files(directory, found)),
    }
}

/// The bytes of a file.
fn read_file<'a, F: FileSystem>(
    alloc: Global,
    file: &'a str,
    system: &mut F,
) -> Result<Vec<u8>, RunFault<'a>>
    ensures files { F.files system.new ≡ F.files system.old }
    ensures folders { F.folders system.new ≡ F.folders system.old }
    ensures unwritten { F.unwritten system.new ≡ F.unwritten system.old }
    ensures read { IfOk result (λ bytes. HasFile (F.files system.old) file.entry.now bytes.items) }
    ensures fault { IfErr result (IsFileFault file.entry.now (F.files system.old)) }
    ensures unblamed { IfErr result (λ why. (has_failed : Bool) → IsBlamedRightly has_failed why) }
{
    match system.read(alloc, file) {
        Ok(bytes) => Ok(bytes),
        Err(error) => Err(why_unread(file, error)),
    }
}

/// Why a file wasn't read: memory was refused, or it can't be.
fn why_unread<'a>(file: &'a str, error: io::Error) -> RunFault<'a>
    ensures why { IsWhyUnread file.entry.now error result }
    ensures unblamed { (has_failed : Bool) → IsBlamedRightly has_failed result }
{
    match error.kind() {
        io::ErrorKind::OutOfMemory => RunFault::Refused(Refusal::NoMemory),
        _ => RunFault::CannotReadFile(file),
    }
}
