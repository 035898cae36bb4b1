//! What is known of the partitions of a load, and of the serial list.

ghost use Rattle.std.specs.Prelude.{◌≡◌, ◌≤◌, ℕ, IfSome, length, slice_get};
ghost use Rattle.hy_worlds.specs.Origins.{replayed_of};
ghost use Rattle.hy_schema.specs.Loads.{IsLoad};
ghost use Rattle.hy_passes.specs.Agreement.{Agree};
ghost use Rattle.hy_passes.specs.SerialList.{IsSerial};
ghost use Rattle.hy_commands.specs.Commands.{number_of, warehouses_of_commit};
ghost use Rattle.hy_crossing.specs.of_partition.Partition.{projection_of};
ghost use Rattle.hy_crossing.specs.Crossings.{ArePartitions};

use hy_commands::{Command, Commit, Edition, StockLevel};
use hy_crossing::Parts;
use hy_crossing::hy_partition::{Loaded, Partition};
use hy_passes::{Journal, projections_agree};

/// That the load is a load, where a warehouse is there, and that the kit has a place for each, of which a byte counts all.
/// Changes nothing.
pub(crate) fn know_load<const N: usize, K: Loaded, P: Parts<Part = Partition<N, K>>>(parts: &mut P)
    requires parts { ArePartitions K.load (P.states parts.old) }
    ensures load { 1 ≤ length (P.states parts.old) → IsLoad K.load }
    ensures range { length (P.states parts.old) ≤ K.passes.partitions }
    ensures few { length (P.states parts.old) ≤ 255 }
    ensures same { P.states parts.new ≡ P.states parts.old }
{
    let count = parts.len();
    if count > 0 {
        let last = parts.part(count - 1);
        last.ties();
        let _number = last.warehouse();
    }
}

/// Of how many commits each partition knows that they come from a log. Changes nothing.
pub fn know_replayed<const N: usize, K: Loaded, P: Parts<Part = Partition<N, K>>>(parts: &mut P)
    ensures known { (place : ℕ) → IfSome (slice_get (P.states parts.old) place)
        (λ p. p.replayed ≡ replayed_of K.passes p.warehouse) }
    ensures same { P.states parts.new ≡ P.states parts.old }
{
    for place in 0..parts.len() {
        parts.part(place).ties();
    }
}

/// That the serial list numbers its commits and respects its stamps, and that what each warehouse has of it agrees.
pub(crate) fn know_list<K: Loaded>(journal: &Journal<Commit, K>)
    ensures serial { IsSerial warehouses_of_commit number_of K.passes.partitions journal.now.list.log }
    ensures agree { Agree warehouses_of_commit number_of K.passes.partitions
        (λ warehouse. projection_of warehouse journal.now.list.log) }
{
    journal.list.sound();
    // It names the type of commits, and no more.
    let commit = Commit::Local(
        Edition::Second,
        Command::StockLevel(StockLevel {
            warehouse: 1,
            district: 1,
            threshold: 10,
        }),
    );
    projections_agree(&commit);
}
