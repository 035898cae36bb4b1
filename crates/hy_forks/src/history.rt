//! The one history of all warehouses.

ghost use Rattle.std.specs.Prelude.{◌≡◌};
ghost use Rattle.hy_crossing.specs.Crossings.{ArePartitions, HaveNoPart};
ghost use Rattle.hy_crossing.specs.Lists.{Pairwise};
ghost use Rattle.hy_forks.specs.Drains.{TellsHere};
ghost use Rattle.hy_forks.specs.Histories.{IsOneHistory};

use crate::knowing::{know_list, know_load};
use crate::partitions::Partitions;
use hy_commands::Commit;
use hy_crossing::Parts;
use hy_crossing::hy_partition::{Loaded, Partition};
use hy_passes::Journal;

impl<const N: usize, K: Loaded, P: Parts<Part = Partition<N, K>>> Partitions<N, K, P> {
    /// Tells each partition of the whole serial list: what they have kept are its projections, the commits of several
    /// warehouses among them are numbered 1, 2, 3 and so on and stand in the lists of all warehouses that they name and in
    /// no others, and the list respects its stamps. Takes no memory.
    pub fn find_history(&mut self, journal: &mut Journal<Commit, K>)
        ensures told { Pairwise (TellsHere journal.old.list.log) 1 self.old self.new }
        ensures history { IsOneHistory K.passes.partitions journal.old.list.log self.new }
        ensures log { journal.new.list.log ≡ journal.old.list.log }
    {
        tell_all(&mut self.parts, journal);
    }
}

/// The same for partitions that are all those of the load, with no part of a command done.
pub(crate) fn tell_all<const N: usize, K: Loaded, P: Parts<Part = Partition<N, K>>>(
    parts: &mut P,
    journal: &mut Journal<Commit, K>,
)
    requires parts { ArePartitions K.load (P.states parts.old) }
    requires whole { HaveNoPart (P.states parts.old) }
    ensures told { Pairwise (TellsHere journal.old.list.log) 1 (P.states parts.old) (P.states parts.new) }
    ensures history { IsOneHistory K.passes.partitions journal.old.list.log (P.states parts.new) }
    ensures log { journal.new.list.log ≡ journal.old.list.log }
    ensures parts { ArePartitions K.load (P.states parts.new) }
    ensures whole { HaveNoPart (P.states parts.new) }
{
    know_load(parts);
    know_list(journal);
    for place in 0..parts.len() {
        parts.part(place).tell(journal);
    }
}
