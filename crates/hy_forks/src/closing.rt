//! Snapshots of the partitions are closed, one by one.

ghost use Rattle.std.specs.Prelude.{◌≡◌, ◌+◌, ◌<◌, IsSomeAnd, length, slice_get};
ghost use Rattle.hy_crossing.specs.Lists.{ChangesAt, Pairwise};
ghost use Rattle.hy_crossing.specs.Pairs.{Before};
ghost use Rattle.hy_forks.specs.Forks.{are_from};
ghost use Rattle.hy_forks.specs.inside.Places.{AreOf, ClosesExactly, ClosesExactlyHere, IsOf};

use crate::snapshot::SnapshotAll;
use hy_crossing::Parts;
use hy_crossing::hy_partition::{Loaded, Partition, Snapshot};

/// Closes a snapshot of the partition at a place.
fn close_here<const N: usize, K: Loaded, P: Parts<Part = Partition<N, K>>>(
    parts: &mut P,
    place: usize,
    snapshot: Snapshot<N>,
)
    requires there { place < length (P.states parts.old) }
    requires mine { IsSomeAnd (slice_get (P.states parts.old) place) (IsOf K.passes snapshot) }
    ensures { ChangesAt (ClosesExactly snapshot.entry) place (P.states parts.old) (P.states parts.new) }
{
    let part = parts.part(place);
    match part.close(snapshot) {
        Ok(()) => part.headline(),
        Err(_) => unreachable!(),
    }
}

/// Closes snapshots of the first partitions, the last one first. Takes no memory.
pub(crate) fn close_each<const N: usize, K: Loaded, P: Parts<Part = Partition<N, K>>>(
    parts: &mut P,
    mut snapshots: Vec<Snapshot<N>>,
)
    requires { AreOf K.passes snapshots.items (P.states parts.old) }
    ensures { Pairwise (Before (length snapshots.entry.items + 1) (ClosesExactlyHere snapshots.entry.items)) 1
        (P.states parts.old) (P.states parts.new) }
{
    for _ in 0..snapshots.len() {
        let snapshot = snapshots.take_last();
        close_here(parts, snapshots.len(), snapshot);
    }
    snapshots.destroy_empty();
}

/// Whether snapshots say that they are those of the partitions, one of each in order. Changes nothing.
pub(crate) fn are_mine<const N: usize, K: Loaded, P: Parts<Part = Partition<N, K>>>(
    parts: &mut P,
    all: &SnapshotAll<N>,
) -> bool
    ensures mine { result ≡ are_from K.passes all.now (P.states parts.old) }
    ensures same { P.states parts.new ≡ P.states parts.old }
{
    if all.len() != parts.len() {
        return false;
    }
    for place in 0..parts.len() {
        if !parts.part(place).is_mine(all.part(place)) {
            return false;
        }
    }
    true
}
