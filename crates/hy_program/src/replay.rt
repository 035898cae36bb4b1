//! What a log has, run again on a load, for the commands that name one.

ghost use Rattle.std.specs.Prelude.{◌≡◌, ◌≤◌, ℕ, List, IfErr, IfOk, IsTrue, OnOk, length};
ghost use Rattle.hy_batches.specs.Logs.{IsLog};
ghost use Rattle.hy_frames.specs.FrameTable.{max_frames as most_frames};
ghost use Rattle.hy_recovery.specs.Recovering.{Counts};
ghost use Rattle.hy_recovery.specs.of_forks.Forks.{AreOfKit, are_from};
ghost use Rattle.hy_recovery.specs.of_partition.Limits.{most_kept};
ghost use Rattle.hy_storm.specs.of_session.Snapshots.{lists_of_all};
ghost use Rattle.hy_program.specs.Replay.{AreFit, AreListsBehind, IsBehind, IsReplayed, IsWhyLost, IsWhyUnreplayed};

use crate::PAGE_BYTES;
use crate::script::Limits;
use hy_batches::{Batches, read_log};
use hy_commands::Commit;
use hy_loads::Load;
use hy_passes::Kit;
use hy_recovery::hy_forks::OwnPartitions;
use hy_recovery::hy_partition::Loaded;
use hy_recovery::{check_batches, kit_for, recover};
use hy_rows::Tables;
use hy_schema::Refusal;
use hy_storm::hy_session::Session;
use std::alloc::Global;
use std::marker::Brand;

/// The greatest limits that there are.
pub(crate) const GREATEST: Limits = Limits {
    frames: 10_000_000,
    kept: 100_000_000,
};

/// The name of the kit. No other one is made.
const KIT: u64 = 1;

/// What came of a log: how many batches it has, and the rows behind them.
#[derive(Drop)]
pub(crate) struct Recovered {
    pub(crate) batches: u64,
    pub(crate) tables: Tables,
}

/// Why nothing comes of batches where memory lacks: E15 and E3 come before E1.
fn shortage_on(alloc: Global, load: &Load, batches: &Batches, limits: Limits) -> Refusal
    ensures { IsWhyUnreplayed limits load.now batches.now result }
{
    match check_batches(alloc, load, batches, limits.kept) {
        Ok(()) => Refusal::NoMemory,
        Err(refusal) => refusal,
    }
}

/// The batches of a log, and a kit for the warehouses of a load and one client, which knows how many commits these have. E15
/// where the bytes are no log; else E1, before which come E15 where the batches are none of this load, and E3.
pub(crate) fn batches_on(
    alloc: Global,
    load: &Load,
    bytes: &[u8],
    limits: Limits,
) -> Result<(Batches, Kit<Commit>), Refusal>
    ensures log { IfOk result (λ made. (rest : List ℕ) × IsLog bytes.now made.0 rest) }
    ensures kit { IfOk result (λ made. (made.1.partitions ≡ length load.now.tables.warehouses) × (made.1.clients ≡ 1)) }
    ensures counts { IfOk result (λ made. Counts made.1 load.now made.0) }
    ensures refused { IfErr result (IsWhyLost limits load.now bytes.now) }
{
    let batches = read_log(alloc, bytes)?;
    let Ok(kit) = kit_for(alloc, load, &batches, 1, KIT) else {
        return Err(shortage_on(alloc, load, &batches, limits));
    };
    Ok((batches, kit))
}

/// What comes of a log on a load. E15 where its bytes are none, or none of this load; else E3, E2 or E1.
pub(crate) fn recovered_from(
    alloc: Global,
    load: &Load,
    bytes: &[u8],
    limits: Limits,
) -> Result<Recovered, Refusal>
    requires some_frames { 1 ≤ limits.frames }
    requires frames { limits.frames ≤ most_frames }
    requires some_kept { 1 ≤ limits.kept }
    requires kept { limits.kept ≤ most_kept }
    ensures behind { IfOk result
        (λ recovered. IsBehind load.now bytes.now recovered.batches recovered.tables) }
    ensures refused { IfErr result (IsWhyLost limits load.now bytes.now) }
{
    let (batches, kit) = batches_on(alloc, load, bytes, limits)?;
    let tables = tables_behind::<Brand>(alloc, load, kit, &batches, limits)?;
    Ok(Recovered {
        batches: batches.count(),
        tables,
    })
}

/// The rows behind batches, in the world that names the load and a kit for its warehouses and one client.
fn tables_behind<K: Loaded>(
    alloc: Global,
    load: &Load,
    kit: Kit<Commit>,
    batches: &Batches,
    limits: Limits,
) -> Result<Tables, Refusal>
    requires some_frames { 1 ≤ limits.frames }
    requires frames { limits.frames ≤ most_frames }
    requires some_kept { 1 ≤ limits.kept }
    requires kept { limits.kept ≤ most_kept }
    requires kit { kit ≡ K.passes }
    requires load { load.now ≡ K.load }
    requires partitions { kit.partitions ≡ length load.now.tables.warehouses }
    requires clients { kit.clients ≡ 1 }
    requires counts { Counts kit load.now batches.now }
    ensures rows { IfOk result (IsReplayed load.now batches.now) }
    ensures refused { IfErr result (IsWhyUnreplayed limits load.now batches.now) }
{
    let (mut partitions, session) = session_behind::<K>(alloc, load, kit, batches, limits)?;
    let tables = session.tables(alloc);
    close(session, &mut partitions);
    tables
}

/// A session on the database behind batches, and the partitions that it is of, in that world.
pub(crate) fn session_behind<K: Loaded>(
    alloc: Global,
    load: &Load,
    kit: Kit<Commit>,
    batches: &Batches,
    limits: Limits,
) -> Result<(OwnPartitions<PAGE_BYTES, K>, Session<PAGE_BYTES>), Refusal>
    requires some_frames { 1 ≤ limits.frames }
    requires frames { limits.frames ≤ most_frames }
    requires some_kept { 1 ≤ limits.kept }
    requires kept { limits.kept ≤ most_kept }
    requires kit { kit ≡ K.passes }
    requires load { load.now ≡ K.load }
    requires partitions { kit.partitions ≡ length load.now.tables.warehouses }
    requires clients { kit.clients ≡ 1 }
    requires counts { Counts kit load.now batches.now }
    ensures rows { IfOk result (λ made. AreListsBehind load.now batches.now (lists_of_all PAGE_BYTES made.1)) }
    ensures fit { OnOk result (AreFit limits load.now batches.now) }
    ensures own { IfOk result (λ made. AreOfKit K.passes made.1) }
    ensures mine { IfOk result (λ made. IsTrue (are_from K.passes made.1 made.0)) }
    ensures refused { IfErr result (IsWhyUnreplayed limits load.now batches.now) }
{
    load.sound();
    let Ok((_passes, journal, seats, mut clients)) = kit.open::<K>() else {
        return Err(shortage_on(alloc, load, batches, limits));
    };
    let pass = clients.take_last();
    let (mut partitions, mut journal, mut pass) = recover::<PAGE_BYTES, K>(
        alloc,
        load,
        batches,
        journal,
        seats,
        pass,
        limits.frames,
        limits.kept,
    )?;
    let session = Session::new(partitions.fork_all(alloc, &mut journal, &mut pass)?);
    session.shows();
    Ok((partitions, session))
}

/// Gives a session back to the partitions that it is of.
pub(crate) fn close<K: Loaded>(
    session: Session<PAGE_BYTES>,
    partitions: &mut OwnPartitions<PAGE_BYTES, K>,
)
    requires kit { AreOfKit K.passes session }
    requires mine { IsTrue (are_from K.passes session partitions.old) }
{
    match session.close_all(partitions) {
        Ok(()) => {}
        Err(_) => unreachable!(),
    }
}
