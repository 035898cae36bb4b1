//! The database that a service begins with.

ghost use Rattle.std.specs.Prelude.{◌≡◌, ◌+◌, ◌≤◌, [], IfErr, IfOk, length, map};
ghost use Rattle.std.specs.List.{range_with_len};
ghost use Rattle.hy_frames.specs.FrameTable.{max_frames as most_frames};
ghost use Rattle.hy_passes.specs.Worlds.{new_partition};
ghost use Rattle.hy_recovery.specs.Recovering.{Counts, IsWhyUnrecovered};
ghost use Rattle.hy_redo_drains.specs.of_partition.Limits.{most_kept};
ghost use Rattle.hy_hyper_service.specs.Opening.{IsOpened};

use crate::PAGE_BYTES;
use hy_batches::Batches;
use hy_commands::Commit;
use hy_loads::Load;
use hy_passes::{Cursor, Journal, PartitionSeat, Pass};
use hy_recovery::{recover, recovered_say_the_same};
use hy_schema::Refusal;
use hy_script::Database;
use hy_session::hy_partition::Loaded;
use std::alloc::Global;

/// The database of a load behind the batches of a log, and the place in its serial list behind which commits are new. Refused by the
/// first of these, as a recovery is: E15, E3, E2, E1.
pub fn open_database<K: Loaded>(
    alloc: Global,
    load: &Load,
    batches: &Batches,
    journal: Journal<Commit, K>,
    seats: Vec<PartitionSeat<Commit, K>>,
    mut passes: Vec<Pass<Commit, K>>,
    max_frames: u64,
    max_kept: u64,
) -> Result<(Database<PAGE_BYTES, K>, Cursor<Commit, K>), Refusal>
    requires some_frames { 1 ≤ max_frames }
    requires frames { max_frames ≤ most_frames }
    requires some_kept { 1 ≤ max_kept }
    requires kept { max_kept ≤ most_kept }
    requires load { load.now ≡ K.load }
    requires partitions { K.passes.partitions ≡ length K.load.tables.warehouses }
    requires seats { seats.items ≡ map new_partition (range_with_len 1 (length load.now.tables.warehouses)) }
    requires log { journal.list.log ≡ [] }
    requires replayed { Counts K.passes load.now batches.now }
    requires passes { length passes.items ≡ length load.now.tables.warehouses + 2 }
    ensures opened { IfOk result
        (λ opened. IsOpened load.now max_frames max_kept batches.now opened.0 opened.1) }
    ensures refused { IfErr result (IsWhyUnrecovered PAGE_BYTES load.now max_frames batches.now max_kept) }
{
    let (mut partitions, mut journal, pass) = recover::<PAGE_BYTES, K>(
        alloc,
        load,
        batches,
        journal,
        seats,
        passes.take_last(),
        max_frames,
        max_kept,
    )?;
    batches.sound();
    recovered_say_the_same();
    let cursor = partitions.end_of(alloc, &mut journal, pass)?;
    let database = Database::over(alloc, partitions, journal, passes, max_frames)?;
    Ok((database, cursor))
}
