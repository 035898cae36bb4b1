//! The command `recover`: what a log has, run again on the database in the files of a folder.

ghost use Rattle.std.specs.Prelude.{◌≡◌, ◌⊎◌, Bool, IfErr, IfOk, MatchResult, OnOk, string_bytes};
ghost use Rattle.std.specs.Option.{option_copied};
ghost use Rattle.hy_schema.specs.Loads.{IsLoad, all_whole};
ghost use Rattle.hy_loads.specs.Checks.{IsRefusalOf};
ghost use Rattle.hy_tables.specs.Files.{texts_of};
ghost use Rattle.hy_files.specs.Directory.{AreFiles, KeepsOtherFiles, tables as tables_in_order};
ghost use Rattle.hy_files.specs.Files.{AddsPath};
ghost use Rattle.hy_program.specs.Faults.{IsBlamedRightly};
ghost use Rattle.hy_program.specs.Recover.{IsRecoverDone, IsRecoverFault, IsSaveFault, IsSaved, IsUnsaved, KeepsFolder, Makes, batches_text, recovered_text, with_rows};

use crate::check::report;
use crate::fault::RunFault;
use crate::reading::read_all;
use crate::replay::{Recovered, recovered_from};
use crate::script::Limits;
use hy_files::{FileSystem, write_load};
use hy_loads::Load;
use hy_output::Output;
use hy_rows::{Lists, Tables};
use hy_schema::Refusal;
use std::alloc::{AllocError, Global};

/// How many frames each warehouse may have.
const MAX_FRAMES: u64 = 100_000;

/// How many commits each warehouse may keep.
const MAX_KEPT: u64 = 1_000_000;

/// Runs what a log has again on the load in the files of a folder, and writes how many batches it has and what `check` finds
/// in what comes of it. Then this is written as the files of another folder, where one is named.
pub fn run_recover<'a, F: FileSystem, O: Output>(
    alloc: Global,
    directory: &'a str,
    log: &'a str,
    into: Option<&'a str>,
    system: &mut F,
    out: &mut O,
) -> Result<(), RunFault<'a>>
    ensures files { KeepsFolder (option_copied into.entry) (F.files system.old, F.files system.new) }
    ensures folders { (F.folders system.new ≡ F.folders system.old)
        ⊎ Makes (option_copied into.entry) (F.folders system.old, F.folders system.new) }
    ensures made { OnOk result (Makes (option_copied into.entry) (F.folders system.old, F.folders system.new)) }
    ensures done { OnOk result
        (IsRecoverDone directory.entry.now log.entry.now (option_copied into.entry)
        (F.files system.old, F.files system.new) (O.contents out.old, O.contents out.new)) }
    ensures fault { IfErr result
        (IsRecoverFault directory.entry.now log.entry.now (option_copied into.entry)
        (F.files system.old, F.files system.new) (F.unwritten system.old, F.unwritten system.new)
        (O.contents out.old, O.contents out.new) (out.new ≡ out.old)) }
    ensures failed { IfErr result (IsBlamedRightly (O.has_failed out.new)) }
{
    let (load, bytes) = read_all(alloc, directory, log, system)?;
    let limits = Limits {
        frames: MAX_FRAMES,
        kept: MAX_KEPT,
    };
    let recovered = recovered_from(alloc, &load, &bytes, limits)?;
    let text = recovered_text(alloc, &recovered)?;
    out.write_all(text.as_bytes())?;
    save(alloc, into, &load, recovered.tables, system)
}

/// How many batches there are, and what `check` prints of the rows behind them.
fn recovered_text(alloc: Global, recovered: &Recovered) -> Result<String, AllocError>
    ensures { IfOk result
        (λ text. string_bytes text ≡ recovered_text recovered.now.batches recovered.now.tables) }
{
    let mut text = batches_text(alloc, recovered.batches)?;
    let lines = report(alloc, &recovered.tables)?;
    text.push_str(lines.as_str())?;
    Ok(text)
}

/// The line with the number of batches.
fn batches_text(alloc: Global, count: u64) -> Result<String, AllocError>
    ensures { IfOk result (λ text. string_bytes text ≡ batches_text count) }
{
    let line = format!(in alloc; "batches {count}\n")?;
    Ok(line)
}

/// Writes rows and the items of a load as the nine files of a folder, where one is named. E12 where they are no load.
fn save<'a, F: FileSystem>(
    alloc: Global,
    into: Option<&'a str>,
    load: &Load,
    tables: Tables,
    system: &mut F,
) -> Result<(), RunFault<'a>>
    ensures files { KeepsFolder (option_copied into.entry) (F.files system.old, F.files system.new) }
    ensures folders { (F.folders system.new ≡ F.folders system.old)
        ⊎ Makes (option_copied into.entry) (F.folders system.old, F.folders system.new) }
    ensures made { OnOk result (Makes (option_copied into.entry) (F.folders system.old, F.folders system.new)) }
    ensures saved { OnOk result
        (IsSaved (option_copied into.entry) (with_rows load.now tables) (F.files system.old, F.files system.new)) }
    ensures fault { IfErr result
        (IsSaveFault (option_copied into.entry) (with_rows load.now tables) (F.files system.old, F.files system.new)
        (F.unwritten system.old, F.unwritten system.new)) }
    ensures unblamed { IfErr result (λ why. (has_failed : Bool) → IsBlamedRightly has_failed why) }
{
    match into {
        Some(directory) => save_in(alloc, directory, load, tables, system),
        None => Ok(()),
    }
}

/// The same in a folder.
fn save_in<'a, F: FileSystem>(
    alloc: Global,
    directory: &'a str,
    load: &Load,
    tables: Tables,
    system: &mut F,
) -> Result<(), RunFault<'a>>
    ensures files { KeepsOtherFiles (F.files system.old) (F.files system.new) directory.entry.now tables_in_order }
    ensures folders { (F.folders system.new ≡ F.folders system.old)
        ⊎ AddsPath (F.folders system.old) (F.folders system.new) directory.entry.now }
    ensures made { OnOk result (AddsPath (F.folders system.old) (F.folders system.new) directory.entry.now) }
    ensures load { OnOk result (IsLoad (with_rows load.now tables)) }
    ensures saved { OnOk result
        (AreFiles (F.files system.new) directory.entry.now tables_in_order (texts_of (with_rows load.now tables))) }
    ensures fault { IfErr result
        (IsUnsaved directory.entry.now (with_rows load.now tables) (F.files system.old, F.files system.new)
        (F.unwritten system.old, F.unwritten system.new)) }
    ensures unblamed { IfErr result (λ why. (has_failed : Bool) → IsBlamedRightly has_failed why) }
{
    let behind = load_behind(alloc, load, tables)?;
    match write_load(alloc, system, directory, &behind) {
        Ok(()) => Ok(()),
        Err(found) => Err(RunFault::of_files(directory, found)),
    }
}

/// The load of rows and the items of another. E12 where they are none; E1.
fn load_behind(alloc: Global, load: &Load, tables: Tables) -> Result<Load, Refusal>
    ensures { MatchResult result (λ behind. (behind ≡ with_rows load.now tables) × IsLoad (with_rows load.now tables))
        (IsRefusalOf all_whole (with_rows load.now tables)) }
{
    let items = Vec::from_slice(alloc, &load.lists().items)?;
    Load::of(alloc, Lists { items, tables })
}
