//! A database is recovered from a log.

ghost use Rattle.std.specs.Prelude.{◌≡◌, ◌<◌, ◌≤◌, ℕ, [], None, IfErr, IfOk, IfSome, length, map, slice_get};
ghost use Rattle.std.specs.List.{range_with_len};
ghost use Rattle.hy_frames.specs.FrameTable.{IsPageSize, max_frames as most_frames};
ghost use Rattle.hy_passes.specs.Worlds.{new_partition};
ghost use Rattle.hy_schema.specs.Conditions.{first_broken};
ghost use Rattle.hy_database.specs.Database.{all_rows};
ghost use Rattle.hy_forks.specs.of_partition.Limits.{most_kept};
ghost use Rattle.hy_forks.specs.of_crossing.Crossings.{database_behind};
ghost use Rattle.hy_forks.specs.Histories.{IsOneHistory};
ghost use Rattle.hy_recovery.specs.Recovering.{AreRecovered, Counts, GoesOn, IsWhyUnrecovered, NoneAreTooMany};

use crate::checking::check_batches;
use crate::replaying::run_batch;
use hy_batches::Batches;
use hy_commands::Commit;
use hy_database::every_database_is_consistent;
use hy_forks::hy_crossing::partitions_of;
use hy_forks::hy_partition::Loaded;
use hy_forks::{OwnPartitions, Partitions, know_replayed};
use hy_loads::Load;
use hy_passes::{Journal, PartitionSeat, Pass};
use hy_schema::Refusal;
use std::alloc::Global;

/// The partitions of all warehouses of a load once the batches of a log were run again, each by its edition, with the
/// journal and the pass of the client who runs them. Each partition has kept its lists of all batches, one behind another.
/// The kit has to know how many these are (`kit_for`). Refused by the first of these: E15 (`LogMalformed`) and then E3,
/// as `check_batches` says; E2 where `max_frames` are too few for the rows of a warehouse or for one of its commits;
/// E1, where memory lacks before a frame does. Takes time in proportion to the commits, beside what `check_batches` and
/// `partitions_of` take.
pub fn recover<const N: usize, K: Loaded>(
    alloc: Global,
    load: &Load,
    batches: &Batches,
    mut journal: Journal<Commit, K>,
    seats: Vec<PartitionSeat<Commit, K>>,
    mut pass: Pass<Commit, K>,
    max_frames: u64,
    max_kept: u64,
) -> Result<(OwnPartitions<N, K>, Journal<Commit, K>, Pass<Commit, K>), Refusal>
    requires size { IsPageSize N }
    requires some_frames { 1 ≤ max_frames }
    requires frames { max_frames ≤ most_frames }
    requires some_kept { 1 ≤ max_kept }
    requires kept { max_kept ≤ most_kept }
    requires load { load.now ≡ K.load }
    requires seats { seats.items ≡ map new_partition (range_with_len 1 (length load.now.tables.warehouses)) }
    requires log { journal.list.log ≡ [] }
    requires replayed { Counts K.passes load.now batches.now }
    ensures recovered { IfOk result
        (λ made. AreRecovered load.now max_frames max_kept batches.now made.0) }
    ensures replayed { IfOk result (λ made. (place : ℕ)
        → IfSome (slice_get made.0 place) (λ p. p.replayed ≤ length p.kept)) }
    ensures history { IfOk result
        (λ made. IsOneHistory K.passes.partitions made.1.list.log made.0) }
    ensures goes_on { IfOk result (λ made. GoesOn load.now batches.now made.1.list.log) }
    ensures few { IfOk result (λ made. NoneAreTooMany load.now batches.now max_kept) }
    ensures consistent { IfOk result
        (λ made. first_broken (all_rows (database_behind load.now made.1.list.log)) ≡ None) }
    ensures client { IfOk result (λ made. made.2.client ≡ pass.client) }
    ensures refused { IfErr result (IsWhyUnrecovered N load.now max_frames batches.now max_kept) }
{
    batches.sound();
    check_batches(alloc, load, batches, max_kept)?;
    let mut parts = partitions_of::<N, K>(alloc, load, seats, max_frames, max_kept)?;
    know_replayed(&mut parts);
    for place in 0..batches.count() as usize {
        pass = run_batch(&mut parts, &mut journal, batches.batch(place), pass)?;
    }
    load.sound();
    every_database_is_consistent();
    let mut partitions = Partitions::new(parts);
    partitions.find_history(&mut journal);
    Ok((partitions, journal, pass))
}
