//! A service on the files of a folder and a log.

ghost use Rattle.std.specs.Prelude.{◌≡◌, ◌+◌, ◌++◌, ℕ, List, IfErr, None, OnOk, false, length, true};
ghost use Rattle.hy_batches.specs.Batches.{Batch};
ghost use Rattle.hy_batches.specs.Encoding.{log_bytes};
ghost use Rattle.hy_files.specs.Files.{HasFile, KeepsOthers};
ghost use Rattle.hy_redo.specs.Disk.{BeginsBehind};
ghost use Rattle.hy_redo_drains.specs.of_forks.Logged.{SaySame};
ghost use Rattle.hy_recovery.specs.Recovering.{Counts};
ghost use Rattle.hy_hyper_life.specs.Faults.{IsBlamed, IsEndFault};
ghost use Rattle.hy_hyper_life.specs.Reading.{KeepsAllBut, sums_path};
ghost use Rattle.hy_hyper_life.specs.Served.{AreLimits, EndsBadly, EndsWell, IsServeFault, IsServed, IsServedFrom, IsUnserved, IsUnservedFrom, ServesFiles, start_of};

use crate::beginning::begin_log;
use crate::fault::{LifeFault, why};
use crate::life::{Life, live};
use crate::opening::{kit_behind, open_in};
use crate::reading::{has_sums, hold, read_start, sums_path};
use hy_batches::{Batches, read_log};
use hy_commands::Commit;
use hy_files::{FileSystem, HeldLog};
use hy_hyper_answers::Style;
use hy_hyper_input::Input;
use hy_hyper_service::{PAGE_BYTES, Service, ServiceFault, ServiceLog};
use hy_loads::Load;
use hy_output::{Output, Take};
use hy_passes::{Cursor, Kit};
use hy_recovery::hy_partition::Loaded;
use hy_redo::Log;
use hy_script::Database;
use std::alloc::Global;
use std::io::Read;
use std::marker::Brand;
use std::mem;

/// How many frames each warehouse may have, how many commits it may keep, and how answers are printed.
#[derive(Clone, Copy, Debug)]
pub struct Terms {
    /// How many frames.
    pub frames: u64,
    /// How many commits.
    pub kept: u64,
    /// How answers are printed.
    pub style: Style,
}

/// Where the log of a load is, and what stands beside it.
#[derive(Clone, Copy)]
struct Place<'a> {
    path: &'a str,
    // the path of the digests, and what they have to be
    beside: &'a str,
    sums: &'a [u8],
    are_there: bool,
}

/// Ends the log of a life, of which the file then has all that was written.
fn end_log<F: FileSystem>(
    path: &str,
    log: Log<F::Log>,
    ended: Option<ServiceFault>,
    system: &mut F,
) -> Result<(), LifeFault>
    ensures others { KeepsOthers (F.files system.old) (F.files system.new) path.now }
    ensures folders { F.folders system.new ≡ F.folders system.old }
    ensures done { OnOk result ((ended ≡ None) × HasFile (F.files system.new) path.now log.told.written) }
    ensures fault { IfErr result (IsEndFault ended (HasFile (F.files system.new) path.now log.told.written)
        (F.unwritten system.old, F.unwritten system.new) path.now) }
{
    if let Err(error) = system.end_log(path, log.into_out()) {
        return Err(why(error, LifeFault::CannotWriteLog));
    }
    match ended {
        None => Ok(()),
        Some(ended) => Err(LifeFault::of_service(ended)),
    }
}

/// The life of a service over a database and a log that says the same.
fn serve_log<K: Loaded, F: FileSystem, I: Read + Drop, O: Output + Take + Drop>(
    alloc: Global,
    path: &str,
    style: Style,
    database: Database<PAGE_BYTES, K>,
    cursor: Cursor<Commit, K>,
    log: F::Log,
    system: &mut F,
    input: &mut Input<I>,
    out: &mut O,
) -> Result<(), LifeFault>
    requires partitions { K.passes.partitions ≡ length K.load.tables.warehouses }
    requires end { cursor ≡ database.log }
    requires begins { (front : List Batch)
        × BeginsBehind front (record { told = F.Log.told log; has_failed = false }) × SaySame K.load front cursor }
    ensures others { KeepsOthers (F.files system.old) (F.files system.new) path.now }
    ensures folders { F.folders system.new ≡ F.folders system.old }
    ensures done { OnOk result (EndsWell K.load (start_of database (F.Log.told log) style (O.contents out.old)) path.now
        (F.files system.new) (input.old, input.new) (O.contents out.new)) }
    ensures fault { IfErr result (EndsBadly K.load (start_of database (F.Log.told log) style (O.contents out.old)) path.now
        (F.files system.new) (F.unwritten system.old, F.unwritten system.new) (input.old, input.new) (O.contents out.new)
        (O.has_failed out.new)) }
{
    let log = ServiceLog::new(Log::new(alloc, log), cursor, &database);
    let service = Service::new(alloc, database, log, style, out.take());
    let Life {
        log,
        out: back,
        why,
    } = live(alloc, service, input);
    let _spare = mem::replace(out, back);
    end_log(path, log, why, system)
}

/// A service from the batches of a log, in the world that names the load and a kit for it.
fn serve_in<K: Loaded, F: FileSystem, I: Read + Drop, O: Output + Take + Drop>(
    alloc: Global,
    place: &Place<'_>,
    terms: Terms,
    load: &Load,
    kit: Kit<Commit>,
    batches: &Batches,
    held: F::Held,
    system: &mut F,
    input: &mut Input<I>,
    out: &mut O,
) -> Result<(), LifeFault>
    requires limits { AreLimits terms }
    requires kit { kit ≡ K.passes }
    requires load { load.now ≡ K.load }
    requires partitions { kit.partitions ≡ length load.now.tables.warehouses }
    requires clients { kit.clients ≡ length load.now.tables.warehouses + 2 }
    requires counts { Counts kit load.now batches.now }
    requires path { F.Held.path held ≡ place.now.path.now }
    requires beside { place.now.beside.now ≡ sums_path place.now.path.now }
    requires there { place.now.are_there ≡ true → HasFile (F.files system.old) place.now.beside.now place.now.sums.now }
    requires front { (rest : List ℕ) × (F.Held.seen held ≡ log_bytes batches.now ++ rest) }
    ensures files { KeepsAllBut (F.files system.old) (F.files system.new) place.now.path.now place.now.beside.now }
    ensures folders { F.folders system.new ≡ F.folders system.old }
    ensures done { OnOk result (IsServedFrom place.now.path.now place.now.beside.now place.now.sums.now terms load.now batches.now
        (F.files system.new) (input.old, input.new) (O.contents out.old, O.contents out.new)) }
    ensures fault { IfErr result (IsUnservedFrom place.now.path.now place.now.beside.now place.now.sums.now terms load.now
        batches.now (F.files system.old, F.files system.new) (F.unwritten system.old, F.unwritten system.new)
        (input.old, input.new) (O.contents out.old, O.contents out.new) (O.has_failed out.new) (out.new ≡ out.old)) }
{
    let (database, cursor) = open_in::<K>(alloc, load, kit, batches, terms.frames, terms.kept)?;
    match begin_log(
        alloc,
        place.beside,
        place.sums,
        place.are_there,
        held,
        batches.bytes(),
        system,
    ) {
        Ok(log) => serve_log(
            alloc,
            place.path,
            terms.style,
            database,
            cursor,
            log,
            system,
            input,
            out,
        ),
        Err(fault) => {
            database.end();
            Err(fault)
        }
    }
}

/// A service from the batches of a log.
fn serve_batches<F: FileSystem, I: Read + Drop, O: Output + Take + Drop>(
    alloc: Global,
    place: &Place<'_>,
    terms: Terms,
    load: &Load,
    batches: &Batches,
    held: F::Held,
    system: &mut F,
    input: &mut Input<I>,
    out: &mut O,
) -> Result<(), LifeFault>
    requires limits { AreLimits terms }
    requires path { F.Held.path held ≡ place.now.path.now }
    requires beside { place.now.beside.now ≡ sums_path place.now.path.now }
    requires there { place.now.are_there ≡ true → HasFile (F.files system.old) place.now.beside.now place.now.sums.now }
    requires front { (rest : List ℕ) × (F.Held.seen held ≡ log_bytes batches.now ++ rest) }
    ensures files { KeepsAllBut (F.files system.old) (F.files system.new) place.now.path.now place.now.beside.now }
    ensures folders { F.folders system.new ≡ F.folders system.old }
    ensures done { OnOk result (IsServedFrom place.now.path.now place.now.beside.now place.now.sums.now terms load.now batches.now
        (F.files system.new) (input.old, input.new) (O.contents out.old, O.contents out.new)) }
    ensures fault { IfErr result (IsUnservedFrom place.now.path.now place.now.beside.now place.now.sums.now terms load.now
        batches.now (F.files system.old, F.files system.new) (F.unwritten system.old, F.unwritten system.new)
        (input.old, input.new) (O.contents out.old, O.contents out.new) (O.has_failed out.new) (out.new ≡ out.old)) }
{
    let kit = kit_behind(alloc, load, batches, terms.kept)?;
    serve_in::<Brand, F, I, O>(
        alloc, place, terms, load, kit, batches, held, system, input, out,
    )
}

/// A service on the files of a folder and a log that is held.
fn serve_held<F: FileSystem, I: Read + Drop, O: Output + Take + Drop>(
    alloc: Global,
    directory: &str,
    path: &str,
    terms: Terms,
    mut held: F::Held,
    system: &mut F,
    input: &mut Input<I>,
    out: &mut O,
) -> Result<(), LifeFault>
    requires limits { AreLimits terms }
    requires path { F.Held.path held ≡ path.now }
    ensures files { KeepsAllBut (F.files system.old) (F.files system.new) path.now (sums_path path.now) }
    ensures folders { F.folders system.new ≡ F.folders system.old }
    ensures done { OnOk result (IsServed directory.now path.now terms (F.files system.old, F.files system.new)
        (input.old, input.new) (O.contents out.old, O.contents out.new)) }
    ensures fault { IfErr result (IsUnserved directory.now path.now terms (F.files system.old, F.files system.new)
        (F.unwritten system.old, F.unwritten system.new) (input.old, input.new) (O.contents out.old, O.contents out.new)
        (O.has_failed out.new) (out.new ≡ out.old)) }
{
    let beside = sums_path(alloc, path)?;
    let (load, sums) = read_start(alloc, directory, system, &mut held)?;
    let are_there = has_sums(alloc, beside.as_str(), sums.as_bytes(), system)?;
    let batches = read_log(alloc, held.bytes())?;
    let place = Place {
        path,
        beside: beside.as_str(),
        sums: sums.as_bytes(),
        are_there,
    };
    serve_batches(
        alloc, &place, terms, &load, &batches, held, system, input, out,
    )
}

/// Serves what an input says on the load in the files of a folder and what a log has, to which goes what is committed. The lock on
/// the log is taken before anything is read; the digests of the load's files stand beside the log, in a file of its name and
/// `.load`, before it is told how many commits each warehouse has kept.
///
/// # Errors
///
/// The first of these, with nothing printed and no batch of the log lost: E1 where memory is refused; the log can't be written, or
/// somebody has its lock; a file of the folder can't be read; the log can't be read; E12; the digests are those of another load, or
/// can't be read; E15, E3, E2; the digests, or the log, can't be written. Then, behind what was printed: E1, E14, and that the
/// output or the input has failed.
pub fn serve_files<F: FileSystem, I: Read + Drop, O: Output + Take + Drop>(
    alloc: Global,
    directory: &str,
    path: &str,
    terms: Terms,
    system: &mut F,
    input: I,
    out: &mut O,
) -> Result<(), LifeFault>
    requires limits { AreLimits terms }
    ensures files { KeepsAllBut (F.files system.old) (F.files system.new) path.now (sums_path path.now) }
    ensures folders { F.folders system.new ≡ F.folders system.old }
    ensures done { OnOk result (ServesFiles directory.now path.now terms (F.files system.old, F.files system.new)
        (I.remaining input) (O.contents out.old, O.contents out.new)) }
    ensures fault { IfErr result (IsServeFault directory.now path.now terms (F.files system.old, F.files system.new)
        (F.unwritten system.old, F.unwritten system.new) (I.remaining input) (O.contents out.old, O.contents out.new)
        (O.has_failed out.new) (out.new ≡ out.old)) }
    ensures blamed { IfErr result (IsBlamed (O.has_failed out.new)) }
{
    let mut input = Input::new(alloc, input)?;
    let held = hold(alloc, path, system)?;
    serve_held(alloc, directory, path, terms, held, system, &mut input, out)
}
