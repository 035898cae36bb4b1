//! The command `query`: the answer to a query over the database in the files of a folder, or over that behind a log of it.

ghost use Rattle.std.specs.Prelude.{◌≡◌, ◌+◌, IfErr, IfOk, IsOkAnd, None, OnOk, Some, length};
ghost use Rattle.std.specs.Option.{option_copied};
ghost use Rattle.hy_schema.specs.declared.refusal.Refusal.{Refusal};
ghost use Rattle.hy_schema.specs.declared.refusal.Refusal.TheVariants.{NoMemory};
ghost use Rattle.hy_storm.specs.of_session.Snapshots.{lists_of_all};
ghost use Rattle.hy_storm.specs.of_session.Texts.{answer_text};
ghost use Rattle.hy_query.specs.Language.{query_of};
ghost use Rattle.hy_query.specs.Meaning.{answer_of};
ghost use Rattle.hy_recovery.specs.Recovering.{Counts};
ghost use Rattle.hy_program.specs.Faults.{IsBlamedRightly};
ghost use Rattle.hy_program.specs.Query.{IsAnswerBehind, IsAnswerOn, IsQueryDone, IsQueryFault, IsWhyUnanswered, IsWhyUnasked, IsWhyUnaskedBehind, by_warehouse};
ghost use Rattle.hy_program.specs.Replay.{IsWhyUnreplayed, greatest_limits};

use crate::PAGE_BYTES;
use crate::fault::RunFault;
use crate::reading::read_all;
use crate::replay::{GREATEST, batches_on, close, session_behind};
use hy_batches::Batches;
use hy_commands::Commit;
use hy_files::{FileSystem, read_load};
use hy_loads::Load;
use hy_output::Output;
use hy_passes::{Kit, make};
use hy_query::{Query, parse_query};
use hy_recovery::hy_forks::OwnPartitions;
use hy_recovery::hy_partition::Loaded;
use hy_schema::Refusal;
use hy_storm::hy_session::{Session, text_of};
use std::alloc::Global;
use std::marker::Brand;
use std::thread::Threads;

/// How many frames each warehouse may have.
const MAX_FRAMES: u64 = 100_000;

/// How many commits each warehouse may keep. There are none.
const MAX_KEPT: u64 = 1_000_000;

/// The name of the kit. No other one is made.
const KIT: u64 = 1;

/// Answers a query over the load in the files of a folder or, where a log is named, over the database behind it, and writes
/// the answer.
pub fn run_query<'a, F: FileSystem, O: Output, R: Threads + Sync>(
    rt: &R,
    alloc: Global,
    directory: &'a str,
    text: &'a str,
    log: Option<&'a str>,
    system: &mut F,
    out: &mut O,
) -> Result<(), RunFault<'a>>
    ensures files { F.files system.new ≡ F.files system.old }
    ensures folders { F.folders system.new ≡ F.folders system.old }
    ensures done { OnOk result (IsQueryDone directory.entry.now text.entry.now (option_copied log.entry)
        (F.files system.old) (O.contents out.old) (O.contents out.new)) }
    ensures fault { IfErr result
        (IsQueryFault directory.entry.now text.entry.now (option_copied log.entry) (F.files system.old)
        (out.new ≡ out.old)) }
    ensures failed { IfErr result (IsBlamedRightly (O.has_failed out.new)) }
{
    match log {
        Some(path) => query_behind(rt, alloc, directory, text, path, system, out),
        None => query_load(rt, alloc, directory, text, system, out),
    }
}

/// The same without a log.
fn query_load<'a, F: FileSystem, O: Output, R: Threads + Sync>(
    rt: &R,
    alloc: Global,
    directory: &'a str,
    text: &'a str,
    system: &mut F,
    out: &mut O,
) -> Result<(), RunFault<'a>>
    ensures files { F.files system.new ≡ F.files system.old }
    ensures folders { F.folders system.new ≡ F.folders system.old }
    ensures done { OnOk result (IsQueryDone directory.entry.now text.entry.now None (F.files system.old)
        (O.contents out.old) (O.contents out.new)) }
    ensures fault { IfErr result
        (IsQueryFault directory.entry.now text.entry.now None (F.files system.old) (out.new ≡ out.old)) }
    ensures failed { IfErr result (IsBlamedRightly (O.has_failed out.new)) }
{
    let load = match read_load(alloc, system, directory) {
        Ok(load) => load,
        Err(found) => return Err(RunFault::of_files(directory, found)),
    };
    let answer = answer(rt, alloc, &load, text.as_bytes())?;
    out.write_all(&answer)?;
    Ok(())
}

/// The same behind a log.
fn query_behind<'a, F: FileSystem, O: Output, R: Threads + Sync>(
    rt: &R,
    alloc: Global,
    directory: &'a str,
    text: &'a str,
    log: &'a str,
    system: &mut F,
    out: &mut O,
) -> Result<(), RunFault<'a>>
    ensures files { F.files system.new ≡ F.files system.old }
    ensures folders { F.folders system.new ≡ F.folders system.old }
    ensures done { OnOk result (IsQueryDone directory.entry.now text.entry.now (Some log.entry.now)
        (F.files system.old) (O.contents out.old) (O.contents out.new)) }
    ensures fault { IfErr result
        (IsQueryFault directory.entry.now text.entry.now (Some log.entry.now) (F.files system.old)
        (out.new ≡ out.old)) }
    ensures failed { IfErr result (IsBlamedRightly (O.has_failed out.new)) }
{
    let (load, bytes) = read_all(alloc, directory, log, system)?;
    let printed = answer_behind(rt, alloc, &load, &bytes, text.as_bytes())?;
    out.write_all(&printed)?;
    Ok(())
}

/// The answer to a query over a load. E13 where the text says none, before all else; E2 or E1 where the load finds no
/// place on pages, or the answer none in memory.
fn answer<R: Threads + Sync>(
    rt: &R,
    alloc: Global,
    load: &Load,
    text: &[u8],
) -> Result<Vec<u8>, Refusal>
    ensures answer { IfOk result (λ printed. IsOkAnd (query_of text.now)
        (λ query. printed.items ≡ answer_text (answer_of query (by_warehouse load.now)))) }
    ensures refused { IfErr result (IsWhyUnasked load.now text.now) }
{
    let query = parse_query(alloc, text)?;
    load.sound();
    let count = load.tables().warehouses.len();
    let kit = make::<Commit>(alloc, count as u8, 1, KIT)?;
    answer_in::<Brand, R>(rt, alloc, load, kit, &query)
}

/// The same for a query, in the world that names the load and a kit for its warehouses and one client.
fn answer_in<K: Loaded, R: Threads + Sync>(
    rt: &R,
    alloc: Global,
    load: &Load,
    kit: Kit<Commit>,
    query: &Query<'_>,
) -> Result<Vec<u8>, Refusal>
    requires kit { kit ≡ K.passes }
    requires load { load.now ≡ K.load }
    requires partitions { kit.partitions ≡ length load.now.tables.warehouses }
    requires clients { kit.clients ≡ 1 }
    ensures answer { IfOk result
        (λ printed. printed.items ≡ answer_text (answer_of query.now (by_warehouse load.now))) }
    ensures refused { IfErr result (IsWhyUnanswered load.now) }
{
    load.sound();
    let (_passes, mut journal, seats, mut clients) = kit.open::<K>()?;
    let mut pass = clients.take_last();
    let mut partitions = OwnPartitions::<PAGE_BYTES, K>::of_load(
        alloc, load, seats, MAX_FRAMES, MAX_KEPT,
    )?;
    let session = Session::new(partitions.fork_all(alloc, &mut journal, &mut pass)?);
    session.shows();
    let answer = answered(rt, alloc, &session, query);
    match session.close_all(&mut partitions) {
        Ok(()) => answer,
        Err(_) => unreachable!(),
    }
}

/// The answer to a query over the database behind a log of a load. E13 where the text says none, before all else; then E15
/// where the bytes are no log, or none of this load; else E3, E2 or E1.
fn answer_behind<R: Threads + Sync>(
    rt: &R,
    alloc: Global,
    load: &Load,
    bytes: &[u8],
    text: &[u8],
) -> Result<Vec<u8>, Refusal>
    ensures answer { IfOk result (λ printed. IsOkAnd (query_of text.now)
        (λ query. IsAnswerBehind load.now bytes.now query printed.items)) }
    ensures refused { IfErr result (IsWhyUnaskedBehind load.now bytes.now text.now) }
{
    let asked = parse_query(alloc, text)?;
    let (batches, kit) = batches_on(alloc, load, bytes, GREATEST)?;
    answer_on::<Brand, R>(rt, alloc, load, kit, &batches, &asked)
}

/// The same over batches for a query, in the world that names the load and a kit for its warehouses and one client.
fn answer_on<K: Loaded, R: Threads + Sync>(
    rt: &R,
    alloc: Global,
    load: &Load,
    kit: Kit<Commit>,
    batches: &Batches,
    query: &Query<'_>,
) -> Result<Vec<u8>, Refusal>
    requires kit { kit ≡ K.passes }
    requires load { load.now ≡ K.load }
    requires partitions { kit.partitions ≡ length load.now.tables.warehouses }
    requires clients { kit.clients ≡ 1 }
    requires counts { Counts kit load.now batches.now }
    ensures answer { IfOk result (λ printed. IsAnswerOn load.now batches.now query.now printed.items) }
    ensures refused { IfErr result (IsWhyUnreplayed greatest_limits load.now batches.now) }
{
    let (mut partitions, session) = session_behind::<K>(alloc, load, kit, batches, GREATEST)?;
    let answer = answered(rt, alloc, &session, query);
    close(session, &mut partitions);
    answer
}

/// The text of a session's answer. E1.
fn answered<R: Threads + Sync>(
    rt: &R,
    alloc: Global,
    session: &Session<PAGE_BYTES>,
    query: &Query<'_>,
) -> Result<Vec<u8>, Refusal>
    ensures answer { IfOk result
        (λ printed. printed.items ≡ answer_text (answer_of query.now (lists_of_all PAGE_BYTES session.now))) }
    ensures refused { IfErr result (λ why. why ≡ NoMemory) }
{
    let answer = session.query(rt, alloc, query)?;
    Ok(text_of(alloc, &answer)?)
}
