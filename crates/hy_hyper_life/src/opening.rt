//! The database that a service begins with, from the load and the batches of its log.

ghost use Rattle.std.specs.Prelude.{◌≡◌, ◌+◌, ◌≤◌, ℕ, IfErr, IfOk, length};
ghost use Rattle.hy_frames.specs.FrameTable.{max_frames as most_frames};
ghost use Rattle.hy_recovery.specs.of_partition.Limits.{most_kept};
ghost use Rattle.hy_recovery.specs.Recovering.{Counts, IsWhyUnrecovered};
ghost use Rattle.hy_hyper_service.specs.Opening.{IsOpened};

use hy_batches::Batches;
use hy_commands::Commit;
use hy_hyper_service::{PAGE_BYTES, open_database};
use hy_loads::Load;
use hy_passes::{Cursor, Kit};
use hy_recovery::hy_partition::Loaded;
use hy_recovery::{check_batches, kit_for};
use hy_schema::Refusal;
use hy_script::Database;
use std::alloc::Global;

/// The name of the kit. No other one is made.
const KIT: u64 = 1;

/// Why no database comes of batches where memory lacks: E15 and E3 come before E1.
fn shortage_on(alloc: Global, load: &Load, batches: &Batches, max_kept: u64) -> Refusal
    ensures { (frames : ℕ) → IsWhyUnrecovered PAGE_BYTES load.now frames batches.now max_kept result }
{
    match check_batches(alloc, load, batches, max_kept) {
        Ok(()) => Refusal::NoMemory,
        Err(refusal) => refusal,
    }
}

/// A kit for the warehouses of a load behind the batches of a log, with a client for each, one for snapshots and one more.
pub(crate) fn kit_behind(
    alloc: Global,
    load: &Load,
    batches: &Batches,
    max_kept: u64,
) -> Result<Kit<Commit>, Refusal>
    ensures partitions { IfOk result (λ kit. kit.partitions ≡ length load.now.tables.warehouses) }
    ensures clients { IfOk result (λ kit. kit.clients ≡ length load.now.tables.warehouses + 2) }
    ensures counts { IfOk result (λ kit. Counts kit load.now batches.now) }
    ensures refused { IfErr result
        (λ why. (frames : ℕ) → IsWhyUnrecovered PAGE_BYTES load.now frames batches.now max_kept why) }
{
    load.sound();
    let clients = load.tables().warehouses.len() as u32 + 2;
    match kit_for(alloc, load, batches, clients, KIT) {
        Ok(kit) => Ok(kit),
        Err(_) => Err(shortage_on(alloc, load, batches, max_kept)),
    }
}

/// The database of a load behind the batches of a log, in the world that names the load and a kit for it, and the end of its serial
/// list. Refused by the first of these: E15, E3, E2, E1.
pub(crate) fn open_in<K: Loaded>(
    alloc: Global,
    load: &Load,
    kit: Kit<Commit>,
    batches: &Batches,
    max_frames: u64,
    max_kept: u64,
) -> Result<(Database<PAGE_BYTES, K>, Cursor<Commit, K>), Refusal>
    requires some_frames { 1 ≤ max_frames }
    requires frames { max_frames ≤ most_frames }
    requires some_kept { 1 ≤ max_kept }
    requires kept { max_kept ≤ most_kept }
    requires kit { kit ≡ K.passes }
    requires load { load.now ≡ K.load }
    requires partitions { kit.partitions ≡ length load.now.tables.warehouses }
    requires clients { kit.clients ≡ length load.now.tables.warehouses + 2 }
    requires counts { Counts kit load.now batches.now }
    ensures opened { IfOk result
        (λ opened. IsOpened load.now max_frames max_kept batches.now opened.0 opened.1) }
    ensures refused { IfErr result (IsWhyUnrecovered PAGE_BYTES load.now max_frames batches.now max_kept) }
{
    let Ok((_passes, journal, seats, clients)) = kit.open::<K>() else {
        return Err(shortage_on(alloc, load, batches, max_kept));
    };
    open_database::<K>(
        alloc, load, batches, journal, seats, clients, max_frames, max_kept,
    )
}
