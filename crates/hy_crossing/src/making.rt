//! The partitions of all warehouses are made.

ghost use Rattle.std.specs.Prelude.{◌≡◌, ◌≤◌, IfErr, IfOk, length, map};
ghost use Rattle.std.specs.List.{range_with_len};
ghost use Rattle.hy_frames.specs.FrameTable.{IsPageSize, max_frames as most_frames};
ghost use Rattle.hy_passes.specs.Worlds.{new_partition};
ghost use Rattle.hy_partition.specs.Limits.{most_kept};
ghost use Rattle.hy_crossing.specs.Crossings.{ArePartitions, HaveNoPart};
ghost use Rattle.hy_crossing.specs.Making.{AllBegin, IsWhyNoneMade};

use hy_commands::Commit;
use hy_loads::Load;
use hy_partition::{Loaded, Partition};
use hy_passes::PartitionSeat;
use hy_schema::Refusal;
use std::alloc::Global;

/// A partition for each warehouse of a load, in order and each on its seat, with nothing kept and no snapshot. E2 only
/// where `max_frames` is no more than the frames that the rows of one and their entries take at most; E1.
pub fn partitions_of<const N: usize, K: Loaded>(
    alloc: Global,
    load: &Load,
    seats: Vec<PartitionSeat<Commit, K>>,
    max_frames: u64,
    max_kept: u64,
) -> Result<Vec<Partition<N, K>>, Refusal>
    requires size { IsPageSize N }
    requires some_frames { 1 ≤ max_frames }
    requires frames { max_frames ≤ most_frames }
    requires some_kept { 1 ≤ max_kept }
    requires kept { max_kept ≤ most_kept }
    requires load { load.now ≡ K.load }
    requires seats { seats.items ≡ map new_partition (range_with_len 1 (length load.now.tables.warehouses)) }
    ensures begin { IfOk result (λ made. AllBegin load.now max_frames max_kept made.items) }
    ensures parts { IfOk result (λ made. ArePartitions load.now made.items) }
    ensures whole { IfOk result (λ made. HaveNoPart made.items) }
    ensures refused { IfErr result (IsWhyNoneMade N load.now max_frames) }
{
    let mut made = Vec::with_capacity(alloc, seats.len())?;
    for seat in seats {
        let number = seat.warehouse();
        match Partition::new(alloc, load, number, seat, max_frames, max_kept) {
            Ok(part) => made.push_reserved(part),
            Err((_seat, refusal)) => return Err(refusal),
        }
    }
    Ok(made)
}
