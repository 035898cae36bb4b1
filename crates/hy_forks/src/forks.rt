//! Forks of all warehouses at one moment.

ghost use Rattle.std.specs.Prelude.{◌≡◌, ◌↔◌, ◌<◌, [], Err, IsTrue, None, IfErr, IfOk, IsOk, OnErr, OnOk, length};
ghost use mathlib.Core.List.{IsPrefix};
ghost use Rattle.hy_schema.specs.Conditions.{first_broken};
ghost use Rattle.hy_schema.specs.declared.refusal.Refusal.{Refusal};
ghost use Rattle.hy_database.specs.Database.{all_rows};
ghost use Rattle.hy_crossing.specs.of_partition.Jobs.{told};
ghost use Rattle.hy_crossing.specs.Crossings.{ArePartitions, HaveNoPart, database_behind};
ghost use Rattle.hy_crossing.specs.Lists.{ChangesAt, Pairwise};
ghost use Rattle.hy_forks.specs.Forks.{AreOfKit, ClosesHere, ForksAll, IsUnforked, IsWhyUnforked, SomeLacks, SpellsDatabase, are_from};
ghost use Rattle.hy_forks.specs.Histories.{IsOneHistory};
ghost use Rattle.hy_forks.specs.inside.Places.{ForksExactly, RefusesFork};

use crate::closing::{are_mine, close_each};
use crate::knowing::{know_list, know_load};
use crate::partitions::Partitions;
use crate::snapshot::SnapshotAll;
use hy_commands::Commit;
use hy_crossing::Parts;
use hy_crossing::hy_partition::{Loaded, Partition, Snapshot};
use hy_passes::{Journal, Pass};
use hy_schema::Refusal;
use std::alloc::Global;

/// Whether one of the partitions has fewer frames free than its job has touched pages. Changes nothing.
fn is_some_lacking<const N: usize, K: Loaded, P: Parts<Part = Partition<N, K>>>(
    parts: &mut P,
) -> bool
    ensures lacks { IsTrue result ↔ SomeLacks (P.states parts.old) }
    ensures same { P.states parts.new ≡ P.states parts.old }
{
    for place in 0..parts.len() {
        let part = parts.part(place);
        if part.free() < part.touched() {
            return true;
        }
    }
    false
}

/// A snapshot of the partition at a place, of which no client is told so far.
fn fork_here<const N: usize, K: Loaded, P: Parts<Part = Partition<N, K>>>(
    parts: &mut P,
    journal: &mut Journal<Commit, K>,
    place: usize,
) -> Result<Snapshot<N>, Refusal>
    requires there { place < length (P.states parts.old) }
    ensures forks { IfOk result (λ snapshot. ChangesAt
        (ForksExactly N K.passes journal.old.list.log [] snapshot) place (P.states parts.old) (P.states parts.new)) }
    ensures log { journal.new.list.log ≡ journal.old.list.log }
    ensures refused { IfErr result
        (λ why. ChangesAt (RefusesFork why) place (P.states parts.old) (P.states parts.new)) }
{
    let part = parts.part(place);
    part.headline();
    part.fork_untold(journal)
}

impl<const N: usize, K: Loaded, P: Parts<Part = Partition<N, K>>> Partitions<N, K, P> {
    /// A snapshot of the whole database behind the serial list: each warehouse is forked, in rising order, with what runs
    /// undone in the snapshot. Partitions and client are told the whole list. Refused with E2 exactly where one of them has
    /// fewer frames free than its job has touched pages, else with E1; then what was forked is closed again, nothing is forked,
    /// and the client isn't told.
    pub fn fork_all(
        &mut self,
        alloc: Global,
        journal: &mut Journal<Commit, K>,
        pass: &mut Pass<Commit, K>,
    ) -> Result<SnapshotAll<N>, Refusal>
        ensures forks { IfOk result (ForksAll N K.passes journal.old.list.log pass.old.seen self.old self.new) }
        ensures database { IfOk result (SpellsDatabase N (database_behind K.load journal.old.list.log)) }
        ensures consistent { OnOk result
            (first_broken (all_rows (database_behind K.load journal.old.list.log)) ≡ None) }
        ensures history { OnOk result (IsOneHistory K.passes.partitions journal.old.list.log self.new) }
        ensures kit { IfOk result (AreOfKit K.passes) }
        ensures mine { IfOk result (λ all. IsTrue (are_from K.passes all self.new)) }
        ensures told { OnOk result (pass.new ≡ told pass.old journal.old.list.log) }
        ensures begins { OnOk result (IsPrefix pass.old.seen journal.old.list.log) }
        ensures log { journal.new.list.log ≡ journal.old.list.log }
        ensures lacking { SomeLacks self.old → result ≡ Err Refusal.NoFrame }
        ensures refused { IfErr result (IsWhyUnforked self.old) }
        ensures err { OnErr result (Pairwise (λ number. IsUnforked journal.old.list.log) 1 self.old self.new) }
        ensures untold { OnErr result (pass.new ≡ pass.old) }
    {
        let parts = &mut self.parts;
        if is_some_lacking(parts) {
            return Err(Refusal::NoFrame);
        }
        let mut snapshots = Vec::with_capacity(alloc, parts.len())?;
        know_load(parts);
        know_list(journal);
        for place in 0..parts.len() {
            match fork_here(parts, journal, place) {
                Ok(snapshot) => snapshots.push_reserved(snapshot),
                Err(refusal) => {
                    close_each(parts, snapshots);
                    return Err(refusal);
                }
            }
        }
        journal.tell_client(pass);
        Ok(SnapshotAll::new(snapshots))
    }

    /// Closes a snapshot of these partitions, warehouse by warehouse: the frames that only it had are free again. E11 where
    /// one of its snapshots is another warehouse's or one of a kit with another name; it comes back, and nothing is closed.
    /// A snapshot with the kit's name has to be one of that kit. Takes no memory.
    pub fn close_all(&mut self, all: SnapshotAll<N>) -> Result<(), (SnapshotAll<N>, Refusal)>
        requires kit { AreOfKit K.passes all }
        ensures mine { IsOk result ↔ IsTrue (are_from K.passes all.entry self.old) }
        ensures closes { OnOk result (Pairwise (ClosesHere all.entry) 1 self.old self.new) }
        ensures refused { IfErr result
            (λ refused. (refused.0 ≡ all.entry) × (refused.1 ≡ Refusal.NotMine)) }
        ensures err { OnErr result (self.new ≡ self.old) }
    {
        let parts = &mut self.parts;
        if !are_mine(parts, &all) {
            return Err((all, Refusal::NotMine));
        }
        close_each(parts, all.take_apart());
        Ok(())
    }
}
