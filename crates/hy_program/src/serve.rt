//! The command `serve`: what comes on an input, done on the database in the files of a folder and written to its log.

ghost use Rattle.std.specs.Prelude.{◌≡◌, IfErr, OnOk};
ghost use Rattle.hy_hyper_life.specs.Reading.{KeepsAllBut, sums_path};
ghost use Rattle.hy_hyper_life.specs.Served.{AreLimits, ServesFiles};
ghost use Rattle.hy_program.specs.Faults.{IsBlamedRightly};
ghost use Rattle.hy_program.specs.Serve.{IsServeFaultOf, terms_of};

use crate::fault::RunFault;
use hy_files::FileSystem;
use hy_hyper_answers::Style;
use hy_hyper_life::{Terms, serve_files};
use hy_output::{Output, Take};
use std::alloc::Global;
use std::io::Read;

/// Serves what an input says on the database in the files of a folder and its log, and writes the answers.
pub fn run_serve<'a, F: FileSystem, I: Read + Drop, O: Output + Take + Drop>(
    alloc: Global,
    directory: &'a str,
    log: &'a str,
    terms: Terms,
    system: &mut F,
    input: I,
    out: &mut O,
) -> Result<(), RunFault<'a>>
    requires { AreLimits terms }
    ensures files { KeepsAllBut (F.files system.old) (F.files system.new) log.entry.now (sums_path log.entry.now) }
    ensures folders { F.folders system.new ≡ F.folders system.old }
    ensures done { OnOk result (ServesFiles directory.entry.now log.entry.now terms (F.files system.old, F.files system.new)
        (I.remaining input) (O.contents out.old, O.contents out.new)) }
    ensures fault { IfErr result (IsServeFaultOf directory.entry.now log.entry.now terms
        (F.files system.old, F.files system.new) (F.unwritten system.old, F.unwritten system.new) (I.remaining input)
        (O.contents out.old, O.contents out.new) (out.new ≡ out.old)) }
    ensures failed { IfErr result (IsBlamedRightly (O.has_failed out.new)) }
{
    match serve_files(alloc, directory, log, terms, system, input, out) {
        Ok(()) => Ok(()),
        Err(found) => Err(RunFault::of_life(directory, log, found)),
    }
}

/// What `serve` is given.
pub(crate) fn terms_of(frames: u64, kept: u64, is_numbered: bool) -> Terms
    ensures { result ≡ terms_of frames kept is_numbered }
{
    let style = if is_numbered {
        Style::Numbered
    } else {
        Style::Plain
    };
    Terms {
        frames,
        kept,
        style,
    }
}
