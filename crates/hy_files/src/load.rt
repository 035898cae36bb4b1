//! A load in the nine files of a directory.

ghost use Rattle.std.specs.Prelude.{◌≡◌, ◌⊎◌, IfErr, MatchResult, OnOk, length, map};
ghost use Rattle.hy_tables.specs.Files.{texts_of};
ghost use Rattle.hy_files.specs.Directory.{AreFiles, KeepsOtherFiles, tables};
ghost use Rattle.hy_files.specs.Faults.{IsOfSystem, IsUnwritten};
ghost use Rattle.hy_files.specs.Files.{AddsPath};
ghost use Rattle.hy_files.specs.Loads.{AreRefused, HaveTexts, IsReadFault, SayLoad};

use crate::directory::{FileFault, read_files, write_files};
use crate::file_system::FileSystem;
use hy_loads::Load;
use hy_schema::Refusal;
use hy_tables::{load, save};
use std::alloc::Global;

/// The load in the nine files of a directory. All of them are read before it is tested, in the order WAREHOUSE,
/// DISTRICT, CUSTOMER, ITEM, STOCK, ORDER, NEW-ORDER, ORDER-LINE, HISTORY. `CannotRead` names the first that can't be
/// read; E12 names what is wrong with their texts, and E1 comes where memory is refused.
pub fn read_load<F: FileSystem>(
    alloc: Global,
    system: &mut F,
    directory: &str,
) -> Result<Load, FileFault>
    ensures files { F.files system.new ≡ F.files system.old }
    ensures folders { F.folders system.new ≡ F.folders system.old }
    ensures unwritten { F.unwritten system.new ≡ F.unwritten system.old }
    ensures load { MatchResult result (λ load. HaveTexts (F.files system.old) directory.now (SayLoad load))
        (IsReadFault (F.files system.old) directory.now) }
{
    let texts = read_files(alloc, system, directory)?;
    let load = load_of(alloc, &texts)?;
    Ok(load)
}

/// The load that nine texts say.
pub fn load_of(alloc: Global, texts: &[Vec<u8>]) -> Result<Load, Refusal>
    requires { length texts.now ≡ 9 }
    ensures { let read = map (λ text. text.items) texts.now in
        MatchResult result (λ load. SayLoad load read) (λ refusal. AreRefused refusal read) }
{
    load(
        alloc,
        &[
            &texts[0], &texts[1], &texts[2], &texts[3], &texts[4], &texts[5], &texts[6], &texts[7],
            &texts[8],
        ],
    )
}

/// Writes a load into the nine files of a directory, which is made where it isn't there. The texts are all made before
/// the first file is written, in the order of `read_load`. `CannotWrite` names the first file that can't be written:
/// those before it have their texts then, and those behind it are as they were. E1 where memory is refused.
pub fn write_load<F: FileSystem>(
    alloc: Global,
    system: &mut F,
    directory: &str,
    load: &Load,
) -> Result<(), FileFault>
    ensures files { OnOk result (AreFiles (F.files system.new) directory.now tables (texts_of load.now)) }
    ensures others { KeepsOtherFiles (F.files system.old) (F.files system.new) directory.now tables }
    ensures fault { IfErr result
        (IsUnwritten (F.files system.old) (F.files system.new) directory.now (texts_of load.now)) }
    ensures folder { OnOk result (AddsPath (F.folders system.old) (F.folders system.new) directory.now) }
    ensures folders { (F.folders system.new ≡ F.folders system.old)
        ⊎ AddsPath (F.folders system.old) (F.folders system.new) directory.now }
    ensures unwritten { IfErr result (IsOfSystem (F.unwritten system.old) (F.unwritten system.new) directory.now) }
{
    let texts = save(alloc, load)?;
    let _made = system.make_folder(directory);
    write_files(alloc, system, directory, &texts)
}
