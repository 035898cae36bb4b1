//! The log of a service goes on: the digests stand beside it, and it is cut behind its whole batches.

ghost use Rattle.std.specs.Prelude.{◌≡◌, ◌≢◌, ◌≤◌, ◌⊎◌, IfErr, IfOk, OnErr, OnOk, length, take, true};
ghost use Rattle.hy_files.specs.Files.{HasFile, KeepsFile, KeepsOthers};
ghost use Rattle.hy_files.specs.LogFiles.{all_synced};
ghost use Rattle.hy_hyper_life.specs.Faults.{IsWriteFault, IsSumsUnwritten};
ghost use Rattle.hy_hyper_life.specs.Reading.{KeepsAllBut};

use crate::fault::{LifeFault, why};
use hy_files::FileSystem;
use hy_files_sums::{SumsFault, write_sums};
use std::alloc::Global;

/// Sees to it that digests stand beside a log, where they don't.
fn put_sums<F: FileSystem>(
    alloc: Global,
    beside: &str,
    sums: &[u8],
    are_there: bool,
    system: &mut F,
) -> Result<(), LifeFault>
    requires there { are_there ≡ true → HasFile (F.files system.old) beside.now sums.now }
    ensures sums { OnOk result (HasFile (F.files system.new) beside.now sums.now) }
    ensures others { KeepsOthers (F.files system.old) (F.files system.new) beside.now }
    ensures folders { F.folders system.new ≡ F.folders system.old }
    ensures written { OnOk result (F.unwritten system.new ≡ F.unwritten system.old) }
    ensures fault { IfErr result IsSumsUnwritten }
{
    if are_there {
        return Ok(());
    }
    match write_sums(alloc, system, beside, sums) {
        Ok(()) => Ok(()),
        Err(SumsFault::File(error)) => Err(why(error, LifeFault::CannotWriteSums)),
        Err(SumsFault::Writer) => Err(LifeFault::CannotWriteSums),
    }
}

/// Cuts the file of a log that is held behind so many of its bytes: a log that goes on there.
fn go_on<F: FileSystem>(held: F::Held, size: u64, system: &mut F) -> Result<F::Log, LifeFault>
    requires size { size ≤ length (F.Held.seen held) }
    ensures log { IfOk result (λ log. F.Log.told log ≡ all_synced (take size (F.Held.seen held))) }
    ensures bytes { OnOk result
        (HasFile (F.files system.new) (F.Held.path held) (take size (F.Held.seen held))) }
    ensures uncut { OnErr result
        (KeepsFile (F.files system.old) (F.files system.new) (F.Held.path held)
        ⊎ HasFile (F.files system.new) (F.Held.path held) (take size (F.Held.seen held))) }
    ensures others { KeepsOthers (F.files system.old) (F.files system.new) (F.Held.path held) }
    ensures folders { F.folders system.new ≡ F.folders system.old }
    ensures written { OnOk result (F.unwritten system.new ≡ F.unwritten system.old) }
    ensures fault { IfErr result
        (IsWriteFault (F.unwritten system.old, F.unwritten system.new) (F.Held.path held)) }
{
    match system.go_on_log(held, size) {
        Ok(log) => Ok(log),
        Err(error) => Err(why(error, LifeFault::CannotWriteLog)),
    }
}

/// Sees to it that the digests of a load stand beside a log, and cuts the log's file behind so many of its bytes: a log that goes
/// on there.
pub(crate) fn begin_log<F: FileSystem>(
    alloc: Global,
    beside: &str,
    sums: &[u8],
    are_there: bool,
    held: F::Held,
    size: u64,
    system: &mut F,
) -> Result<F::Log, LifeFault>
    requires there { are_there ≡ true → HasFile (F.files system.old) beside.now sums.now }
    requires size { size ≤ length (F.Held.seen held) }
    requires apart { beside.now ≢ F.Held.path held }
    ensures log { IfOk result (λ log. F.Log.told log ≡ all_synced (take size (F.Held.seen held))) }
    ensures sums { OnOk result (HasFile (F.files system.new) beside.now sums.now) }
    ensures uncut { OnErr result
        (KeepsFile (F.files system.old) (F.files system.new) (F.Held.path held)
        ⊎ HasFile (F.files system.new) (F.Held.path held) (take size (F.Held.seen held))) }
    ensures others { KeepsAllBut (F.files system.old) (F.files system.new) (F.Held.path held) beside.now }
    ensures folders { F.folders system.new ≡ F.folders system.old }
    ensures written { OnOk result (F.unwritten system.new ≡ F.unwritten system.old) }
    ensures fault { IfErr result
        (IsWriteFault (F.unwritten system.old, F.unwritten system.new) (F.Held.path held)) }
{
    put_sums(alloc, beside, sums, are_there, system)?;
    go_on(held, size, system)
}
