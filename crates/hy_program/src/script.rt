//! The command `script`: the events of a file, run on the database in the files of a folder.

ghost use Rattle.std.specs.Prelude.{◌≡◌, ◌≤◌, IfErr, OnOk};
ghost use Rattle.hy_recovery.specs.of_partition.Limits.{most_kept};
ghost use Rattle.hy_frames.specs.FrameTable.{max_frames as most_frames};
ghost use Rattle.hy_program.specs.Faults.{IsBlamedRightly};
ghost use Rattle.hy_program.specs.Script.{IsScriptDone, IsScriptFaultOf};

use crate::PAGE_BYTES;
use crate::fault::RunFault;
use crate::reading::read_all;
use hy_files::FileSystem;
use hy_output::{Output, Take};
use hy_script::run_script;
use std::alloc::Global;

/// Runs the events of a file on the database in the files of a folder, with at most so many frames and kept commits for
/// each warehouse, and writes their answers.
pub fn run_script_file<'a, F: FileSystem, O: Output + Take + Drop>(
    alloc: Global,
    directory: &'a str,
    file: &'a str,
    limits: Limits,
    system: &mut F,
    out: &mut O,
) -> Result<(), RunFault<'a>>
    requires some_frames { 1 ≤ limits.frames }
    requires frames { limits.frames ≤ most_frames }
    requires some_kept { 1 ≤ limits.kept }
    requires kept { limits.kept ≤ most_kept }
    ensures files { F.files system.new ≡ F.files system.old }
    ensures folders { F.folders system.new ≡ F.folders system.old }
    ensures done { OnOk result (IsScriptDone directory.entry.now file.entry.now limits (F.files system.old)
        (O.contents out.old) (O.contents out.new)) }
    ensures fault { IfErr result (IsScriptFaultOf directory.entry.now file.entry.now limits (F.files system.old)
        (O.contents out.old) (O.contents out.new) (out.new ≡ out.old)) }
    ensures failed { IfErr result (IsBlamedRightly (O.has_failed out.new)) }
{
    let (load, script) = read_all(alloc, directory, file, system)?;
    run_script::<PAGE_BYTES, O>(
        alloc,
        &load,
        script.as_slice(),
        limits.frames,
        limits.kept,
        out,
    )?;
    Ok(())
}

/// How many frames and kept commits each warehouse may have.
#[derive(Clone, Copy, Debug)]
pub struct Limits {
    /// How many frames.
    pub frames: u64,
    /// How many commits.
    pub kept: u64,
}
