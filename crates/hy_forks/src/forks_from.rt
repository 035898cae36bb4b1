//! Forks of a snapshot of all warehouses.

ghost use Rattle.std.specs.Prelude.{◌≡◌, ◌⊎◌, ◌↔◌, ◌<◌, Err, IfErr, IfOk, IsSomeAnd, IsTrue, OnErr, OnOk, false, length, map, slice_get, true};
ghost use Rattle.hy_crossing.specs.of_partition.Steps.{StaysUnforked, is_from};
ghost use Rattle.hy_crossing.specs.Crossings.{ArePartitions, HaveNoPart};
ghost use Rattle.hy_crossing.specs.Lists.{ChangesAt, Pairwise};
ghost use Rattle.hy_forks.specs.Forks.{AreOfKit, ForksAllFrom, IsUnforkedUntold, are_from, shown};
ghost use Rattle.hy_forks.specs.inside.Places.{ForksFromExactly};

use crate::closing::{are_mine, close_each};
use crate::partitions::Partitions;
use crate::snapshot::SnapshotAll;
use hy_crossing::Parts;
use hy_crossing::hy_partition::{Loaded, Partition, Snapshot};
use hy_schema::Refusal;
use std::alloc::{AllocError, Global};

/// A snapshot of what the one at a place sees, which is one of the partition there. An error where memory is refused.
fn fork_here<const N: usize, K: Loaded, P: Parts<Part = Partition<N, K>>>(
    parts: &mut P,
    all: &SnapshotAll<N>,
    place: usize,
) -> Result<Snapshot<N>, AllocError>
    requires there { place < length (P.states parts.old) }
    requires one { place < length all.now }
    requires mine { IsSomeAnd (slice_get (P.states parts.old) place) (λ p. IsSomeAnd (slice_get all.now place) (λ from.
        is_from from p.warehouse K.passes ≡ true)) }
    ensures forks { IfOk result (λ snapshot. IsSomeAnd (slice_get all.now place) (λ from.
        ChangesAt (ForksFromExactly K.passes from snapshot) place (P.states parts.old) (P.states parts.new))) }
    ensures refused { OnErr result (ChangesAt StaysUnforked place (P.states parts.old) (P.states parts.new)) }
{
    let part = parts.part(place);
    part.headline();
    match part.fork_from(all.part(place)) {
        Ok(snapshot) => Ok(snapshot),
        Err(Refusal::NotMine) => unreachable!(),
        Err(_) => Err(AllocError),
    }
}

impl<const N: usize, K: Loaded, P: Parts<Part = Partition<N, K>>> Partitions<N, K, P> {
    /// A snapshot of what a snapshot of these partitions sees, warehouse by warehouse: it lives on when that one is closed. No
    /// frame is taken, and nobody is told of the serial list. E11 exactly where one of its snapshots is another warehouse's or
    /// one of a kit with another name; else E1, and then what was forked is closed again.
    pub fn fork_all_from(
        &mut self,
        alloc: Global,
        all: &SnapshotAll<N>,
    ) -> Result<SnapshotAll<N>, Refusal>
        ensures forks { IfOk result (ForksAllFrom K.passes all.now self.old self.new) }
        ensures shown { IfOk result (λ again. map shown again ≡ map shown all.now) }
        ensures kit { IfOk result (AreOfKit K.passes) }
        ensures own { IfOk result (λ again. IsTrue (are_from K.passes again self.new)) }
        ensures mine { result ≡ Err Refusal.NotMine ↔ (are_from K.passes all.now self.old ≡ false) }
        ensures refused { IfErr result (λ why. (why ≡ Refusal.NotMine) ⊎ (why ≡ Refusal.NoMemory)) }
        ensures err { OnErr result (Pairwise (λ number. IsUnforkedUntold) 1 self.old self.new) }
    {
        let parts = &mut self.parts;
        if !are_mine(parts, all) {
            return Err(Refusal::NotMine);
        }
        let mut snapshots = Vec::with_capacity(alloc, parts.len())?;
        for place in 0..parts.len() {
            match fork_here(parts, all, place) {
                Ok(snapshot) => snapshots.push_reserved(snapshot),
                Err(_) => {
                    close_each(parts, snapshots);
                    return Err(Refusal::NoMemory);
                }
            }
        }
        all.few();
        Ok(SnapshotAll::new(snapshots))
    }
}
