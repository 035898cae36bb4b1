//! The command `storm`: terminals and sessions on the database in the files of a folder.

ghost use Rattle.std.specs.Prelude.{◌≡◌, ◌≤◌, [], Bool, IfErr, IfOk, None, OnOk, Some, string_bytes};
ghost use Rattle.std.specs.Option.{option_copied};
ghost use Rattle.hy_files.specs.Files.{KeepsOthers, KnownPaths};
ghost use Rattle.hy_program.specs.Faults.{IsBlamedRightly};
ghost use Rattle.hy_program.specs.Storm.{IsNoStorm, IsStormDone, IsStormFault, IsStormKept, IsWhyUnwritten, KeepsAllBut, rounds_text, storm_text, sums_text};

use crate::fault::RunFault;
use hy_files::{FileSystem, MemoryLog, new_log, read_load};
use hy_loads::Load;
use hy_output::Output;
use hy_redo::Log;
use hy_schema::Refusal;
use hy_storm::{Figures, Open, Size, storm};
use std::alloc::{AllocError, Global};
use std::io;
use std::sync::Wait;
use std::thread::Threads;

/// Runs a storm on the load in the files of a folder, and writes what it came to; with a log in a new file, where one is
/// named. Where a thread ended early or the log's writer failed, this is written too, and then the refusal ends the command.
/// Else the file has whole batches, which joined are what each warehouse has kept of the serial list whose figures were
/// written.
pub fn run_storm<'a, F: FileSystem, O: Output, R: Threads + Wait + Sync>(
    rt: &R,
    alloc: Global,
    directory: &'a str,
    size: Size,
    log: Option<&'a str>,
    system: &mut F,
    out: &mut O,
) -> Result<(), RunFault<'a>>
    requires terminals { (1 ≤ size.terminals) × (size.terminals ≤ 64) }
    requires sessions { size.sessions ≤ 16 }
    requires commands { size.commands ≤ 100000 }
    ensures files { KeepsAllBut (option_copied log.entry) (F.files system.old) (F.files system.new) }
    ensures folders { F.folders system.new ≡ F.folders system.old }
    ensures done { OnOk result (IsStormDone directory.entry.now (option_copied log.entry) (F.files system.old)
        (F.files system.new) (O.contents out.old) (O.contents out.new)) }
    ensures fault { IfErr result (IsStormFault directory.entry.now (option_copied log.entry) (F.files system.old)
        (F.unwritten system.old, F.unwritten system.new) (O.contents out.old) (O.contents out.new)
        (out.new ≡ out.old)) }
    ensures failed { IfErr result (IsBlamedRightly (O.has_failed out.new)) }
{
    let load = match read_load(alloc, system, directory) {
        Ok(load) => load,
        Err(found) => return Err(RunFault::of_files(directory, found)),
    };
    let figures = run_on(rt, alloc, &load, size, log, system)?;
    let text = storm_text(alloc, &figures)?;
    out.write_all(text.as_bytes())?;
    match figures.refusal {
        Some(refusal) => Err(RunFault::Refused(refusal)),
        None => Ok(()),
    }
}

/// Runs a storm on a load, with a log in a new file, where one is named.
fn run_on<'a, F: FileSystem, R: Threads + Wait + Sync>(
    rt: &R,
    alloc: Global,
    load: &Load,
    size: Size,
    log: Option<&'a str>,
    system: &mut F,
) -> Result<Figures, RunFault<'a>>
    requires terminals { (1 ≤ size.terminals) × (size.terminals ≤ 64) }
    requires sessions { size.sessions ≤ 16 }
    requires commands { size.commands ≤ 100000 }
    ensures kept { IfOk result (IsStormKept load.now (option_copied log.entry) (F.files system.new)) }
    ensures files { KeepsAllBut (option_copied log.entry) (F.files system.old) (F.files system.new) }
    ensures folders { F.folders system.new ≡ F.folders system.old }
    ensures fault { IfErr result
        (IsNoStorm (option_copied log.entry) (F.unwritten system.old, F.unwritten system.new)) }
    ensures unblamed { IfErr result (λ why. (has_failed : Bool) → IsBlamedRightly has_failed why) }
{
    match log {
        Some(path) => run_logged(rt, alloc, load, size, path, system),
        None => run_unlogged(rt, alloc, load, size),
    }
}

/// The same without a log, whose writer could be any.
fn run_unlogged<'a, R: Threads + Wait + Sync>(
    rt: &R,
    alloc: Global,
    load: &Load,
    size: Size,
) -> Result<Figures, RunFault<'a>>
    requires terminals { (1 ≤ size.terminals) × (size.terminals ≤ 64) }
    requires sessions { size.sessions ≤ 16 }
    requires commands { size.commands ≤ 100000 }
    ensures kept { IfOk result (IsStormKept load.now None None) }
    ensures fault { IfErr result (λ why. (unwritten : KnownPaths × KnownPaths) → IsNoStorm None unwritten why) }
    ensures unblamed { IfErr result (λ why. (has_failed : Bool) → IsBlamedRightly has_failed why) }
{
    let (figures, _log) = storm(rt, alloc, load, size, Open, Option::<Log<MemoryLog>>::None);
    Ok(figures?)
}

/// The same with a log.
fn run_logged<'a, F: FileSystem, R: Threads + Wait + Sync>(
    rt: &R,
    alloc: Global,
    load: &Load,
    size: Size,
    path: &'a str,
    system: &mut F,
) -> Result<Figures, RunFault<'a>>
    requires terminals { (1 ≤ size.terminals) × (size.terminals ≤ 64) }
    requires sessions { size.sessions ≤ 16 }
    requires commands { size.commands ≤ 100000 }
    ensures kept { IfOk result (IsStormKept load.now (Some path.entry.now) (F.files system.new)) }
    ensures files { KeepsOthers (F.files system.old) (F.files system.new) path.entry.now }
    ensures folders { F.folders system.new ≡ F.folders system.old }
    ensures fault { IfErr result
        (IsNoStorm (Some path.entry.now) (F.unwritten system.old, F.unwritten system.new)) }
    ensures unblamed { IfErr result (λ why. (has_failed : Bool) → IsBlamedRightly has_failed why) }
{
    let out = match new_log(alloc, system, path) {
        Ok(out) => out,
        Err(error) => return Err(why_unwritten(path, error)),
    };
    let (figures, Some(log)) = storm(rt, alloc, load, size, Open, Some(Log::new(alloc, out))) else {
        unreachable!();
    };
    if let Err(error) = system.end_log(path, log.into_out()) {
        return Err(why_unwritten(path, error));
    }
    Ok(figures?)
}

/// Why a log's file wasn't written: memory was refused, or it can't be.
fn why_unwritten<'a>(path: &'a str, error: io::Error) -> RunFault<'a>
    ensures why { IsWhyUnwritten path.entry.now error result }
    ensures unblamed { (has_failed : Bool) → IsBlamedRightly has_failed result }
{
    match error.kind() {
        io::ErrorKind::OutOfMemory => RunFault::Refused(Refusal::NoMemory),
        _ => RunFault::CannotWriteFile(path),
    }
}

/// The lines that say what a storm came to. No condition is broken.
fn storm_text(alloc: Global, figures: &Figures) -> Result<String, AllocError>
    requires { figures.now.broken ≡ None }
    ensures { IfOk result (λ text. string_bytes text ≡ storm_text figures.now) }
{
    if figures.broken.is_some() {
        unreachable!()
    }
    let mut text = sums_text(
        alloc,
        figures.commits,
        figures.cents,
        figures.kept,
        figures.growth,
    )?;
    let rounds = rounds_text(alloc, figures.rounds, figures.shared)?;
    text.push_str(rounds.as_str())?;
    text.push_str("conditions 1 2 3 4 5 6 7 8 9 10 12 hold\n")?;
    Ok(text)
}

/// The lines with what was accepted and paid, and with what was kept and grew.
fn sums_text(
    alloc: Global,
    commits: u64,
    cents: u64,
    kept: u64,
    growth: i128,
) -> Result<String, AllocError>
    ensures { IfOk result (λ text. string_bytes text ≡ sums_text commits cents kept growth) }
{
    let text = format!(in alloc; "commits {commits} cents {cents}\ngrowth {kept} {growth}\n")?;
    Ok(text)
}

/// The lines with the rounds of sessions, and with the frames that are shared.
fn rounds_text(alloc: Global, rounds: u64, shared: u64) -> Result<String, AllocError>
    ensures { IfOk result (λ text. string_bytes text ≡ rounds_text rounds shared) }
{
    let text = format!(in alloc; "sessions {rounds} hold\nshared {shared}\n")?;
    Ok(text)
}
