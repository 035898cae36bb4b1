//! What a service reads before it begins: the files of a load, its log, and the digests beside that.

ghost use Rattle.std.specs.Prelude.{◌≡◌, ◌⊎◌, [], IfErr, IfOk, OnErr, OnOk, map, string_bytes, true};
ghost use Rattle.hy_files.specs.Directory.{AreFiles, tables};
ghost use Rattle.hy_files.specs.Files.{HasFile, IsThere, KeepsFile, KeepsOthers};
ghost use Rattle.hy_hyper_life.specs.declared.fault.LifeFault.TheVariants as faults;
ghost use Rattle.hy_hyper_life.specs.Faults.{IsHoldFault, IsLogUnread, IsReadFault, IsSumsFault, IsTextsFault};
ghost use Rattle.hy_hyper_life.specs.Reading.{HasLoad, IsHeld, IsOwn, sums_path};

use crate::fault::{LifeFault, why};
use hy_files::{FileFault, FileSystem, load_of, read_files};
use hy_files_sums::{Found, find_sums, sums_of};
use hy_loads::Load;
use std::alloc::{AllocError, Global};

/// The path of the digests beside the log at a path.
pub(crate) fn sums_path(alloc: Global, path: &str) -> Result<String, AllocError>
    ensures { IfOk result (λ beside. string_bytes beside ≡ sums_path path.now) }
{
    let beside = format!(in alloc; "{path}.load")?;
    Ok(beside)
}

/// Takes the lock on the file of a log.
pub(crate) fn hold<F: FileSystem>(
    alloc: Global,
    path: &str,
    system: &mut F,
) -> Result<F::Held, LifeFault>
    ensures held { IfOk result (λ held. (F.Held.path held ≡ path.now) × (F.Held.seen held ≡ [])) }
    ensures there { OnOk result (IsHeld (F.files system.old) (F.files system.new) path.now) }
    ensures unheld { OnErr result (KeepsFile (F.files system.old) (F.files system.new) path.now
        ⊎ IsThere (F.files system.old) (F.files system.new) path.now) }
    ensures others { KeepsOthers (F.files system.old) (F.files system.new) path.now }
    ensures folders { F.folders system.new ≡ F.folders system.old }
    ensures written { OnOk result (F.unwritten system.new ≡ F.unwritten system.old) }
    ensures fault { IfErr result (IsHoldFault (F.unwritten system.old, F.unwritten system.new) path.now) }
{
    match system.hold_log(alloc, path) {
        Ok(held) => Ok(held),
        Err(error) => Err(why(error, LifeFault::CannotWriteLog)),
    }
}

/// The texts of the nine files of a folder.
fn read_texts<F: FileSystem>(
    alloc: Global,
    directory: &str,
    system: &mut F,
) -> Result<Vec<Vec<u8>>, LifeFault>
    ensures files { F.files system.new ≡ F.files system.old }
    ensures folders { F.folders system.new ≡ F.folders system.old }
    ensures unwritten { F.unwritten system.new ≡ F.unwritten system.old }
    ensures texts { IfOk result
        (λ texts. AreFiles (F.files system.old) directory.now tables (map (λ text. text.items) texts.items)) }
    ensures fault { IfErr result (IsTextsFault (F.files system.old) directory.now) }
{
    match read_files(alloc, system, directory) {
        Ok(texts) => Ok(texts),
        Err(FileFault::Refused(refusal)) => Err(LifeFault::Refused(refusal)),
        Err(FileFault::CannotRead(table)) => Err(LifeFault::CannotRead(table)),
        Err(FileFault::CannotWrite(_)) => unreachable!(),
    }
}

/// Reads the file of a log that is held.
fn read_log_file<F: FileSystem>(
    alloc: Global,
    system: &mut F,
    held: &mut F::Held,
) -> Result<(), LifeFault>
    ensures files { F.files system.new ≡ F.files system.old }
    ensures folders { F.folders system.new ≡ F.folders system.old }
    ensures unwritten { F.unwritten system.new ≡ F.unwritten system.old }
    ensures path { F.Held.path held.new ≡ F.Held.path held.old }
    ensures bytes { OnOk result (HasFile (F.files system.old) (F.Held.path held.old) (F.Held.seen held.new)) }
    ensures fault { IfErr result (IsLogUnread (F.files system.old) (F.Held.path held.old)) }
{
    match system.read_held(alloc, held) {
        Ok(()) => Ok(()),
        Err(error) => Err(why(error, LifeFault::CannotReadLog)),
    }
}

/// The load in the files of a folder and the digests of their texts; the log that is held is read too. What can't be read is named
/// before what is wrong with the load.
pub(crate) fn read_start<F: FileSystem>(
    alloc: Global,
    directory: &str,
    system: &mut F,
    held: &mut F::Held,
) -> Result<(Load, String), LifeFault>
    ensures files { F.files system.new ≡ F.files system.old }
    ensures folders { F.folders system.new ≡ F.folders system.old }
    ensures unwritten { F.unwritten system.new ≡ F.unwritten system.old }
    ensures path { F.Held.path held.new ≡ F.Held.path held.old }
    ensures load { IfOk result (λ read. HasLoad (F.files system.old) directory.now read.0 (string_bytes read.1)) }
    ensures bytes { OnOk result (HasFile (F.files system.old) (F.Held.path held.old) (F.Held.seen held.new)) }
    ensures fault { IfErr result (IsReadFault (F.files system.old) directory.now (F.Held.path held.old)) }
{
    let texts = read_texts(alloc, directory, system)?;
    let sums = sums_of(alloc, &texts)?;
    let load = load_of(alloc, &texts);
    if let Err(unread) = read_log_file(alloc, system, held) {
        return Err(unread);
    }
    match load {
        Ok(load) => Ok((load, sums)),
        Err(refusal) => Err(LifeFault::Refused(refusal)),
    }
}

/// Whether the digests of a load stand beside a log. Where there are none, or the file of them was cut while it was written, they
/// don't; those of another load are a fault.
pub(crate) fn has_sums<F: FileSystem>(
    alloc: Global,
    beside: &str,
    sums: &[u8],
    system: &mut F,
) -> Result<bool, LifeFault>
    ensures files { F.files system.new ≡ F.files system.old }
    ensures folders { F.folders system.new ≡ F.folders system.old }
    ensures unwritten { F.unwritten system.new ≡ F.unwritten system.old }
    ensures there { IfOk result (λ there. there ≡ true → HasFile (F.files system.old) beside.now sums.now) }
    ensures own { OnOk result (IsOwn (F.files system.old) beside.now sums.now) }
    ensures fault { IfErr result (IsSumsFault (F.files system.old) beside.now sums.now) }
{
    match find_sums(alloc, system, beside, sums) {
        Ok(Found::Same) => Ok(true),
        Ok(Found::Nothing) => Ok(false),
        Ok(Found::Other) => Err(LifeFault::OtherLoad),
        Err(error) => Err(why(error, LifeFault::CannotReadSums)),
    }
}
