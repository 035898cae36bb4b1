//! What was committed since the last drain.

ghost use Rattle.std.specs.Prelude.{◌≡◌, ◌≤◌, ◌++◌, ◌∷◌, [], ℕ, List, suc, true, drop, length, slice_get, IfErr, IfOk, IfSome, OnErr, OnOk};
ghost use Rattle.std.specs.List.{list_all};
ghost use mathlib.Core.List.{IsPrefix};
ghost use Rattle.hy_worlds.specs.Origins.{replayed_of};
ghost use Rattle.hy_schema.specs.declared.refusal.Refusal.{Refusal};
ghost use Rattle.hy_batches.specs.Batches.{Batch};
ghost use Rattle.hy_crossing.specs.of_partition.Jobs.{Log};
ghost use Rattle.hy_crossing.specs.of_partition.Partition.{projection_of};
ghost use Rattle.hy_crossing.specs.Crossings.{ArePartitions, HaveNoPart};
ghost use Rattle.hy_crossing.specs.Lists.{Pairwise};
ghost use Rattle.hy_forks.specs.Drains.{TellsHere, are_new, drained_of};
ghost use Rattle.hy_forks.specs.Histories.{IsOneHistory};
ghost use Rattle.hy_forks.specs.Logged.{SaySame};
ghost use Rattle.hy_forks.specs.inside.Copies.{are_drained, counts_from_one, has_number, is_drained};

use crate::history::tell_all;
use crate::knowing::{know_load, know_replayed};
use crate::partitions::Partitions;
use hy_batches::Batch;
use hy_commands::{Commit, Edition};
use hy_crossing::Parts;
use hy_crossing::hy_partition::{Loaded, Partition};
use hy_passes::{Cursor, Journal, Pass};
use hy_schema::Refusal;
use std::alloc::{AllocError, Global};

/// That the number of a commit, where it has one, is one of 64 bits. Does nothing.
fn know_number(commit: &Commit)
    ensures { has_number commit.now ≡ true }
{
    if let Commit::Cross(_, number, _) = commit {
        let _number = *number;
    }
}

/// These commits once more, of which each number is one of 64 bits. An error where it finds no memory.
fn copy_commits(alloc: Global, commits: &[Commit]) -> Result<Vec<Commit>, AllocError>
    ensures copies { IfOk result (λ copies. copies.items ≡ commits.now) }
    ensures numbers { IfOk result (λ copies. list_all has_number copies.items ≡ true) }
{
    let mut copies = Vec::with_capacity(alloc, commits.len())?;
    for place in 0..commits.len() {
        know_number(&commits[place]);
        copies.push_reserved(commits[place].copy()?);
    }
    Ok(copies)
}

/// Copies of what a partition has kept behind so many commits. An error where it finds no memory.
fn copy_part<const N: usize, K: Loaded>(
    alloc: Global,
    part: &Partition<N, K>,
    passed: u64,
) -> Result<Vec<Commit>, AllocError>
    requires within { passed ≤ length part.now.kept }
    requires own { replayed_of K.passes part.now.warehouse ≤ passed }
    requires numbered { list_all counts_from_one part.now.kept ≡ true }
    ensures copies { IfOk result (λ copies. copies.items ≡ drop passed part.now.kept) }
    ensures drained { IfOk result (λ copies. is_drained part.now.load part.now.warehouse copies.items ≡ true) }
{
    part.ties();
    copy_commits(alloc, &part.kept()[passed as usize..])
}

/// Copies of what each partition has kept behind the place of a cursor. An error where it finds no memory.
fn copy_behind<const N: usize, K: Loaded, P: Parts<Part = Partition<N, K>>>(
    alloc: Global,
    parts: &mut P,
    cursor: &Cursor<Commit, K>,
) -> Result<Batch, AllocError>
    requires some { 1 ≤ length (P.states parts.old) }
    requires parts { ArePartitions K.load (P.states parts.old) }
    requires begins { (place : ℕ) → IfSome (slice_get (P.states parts.old) place)
        (λ p. IsPrefix (projection_of (suc place) cursor.now) p.kept) }
    requires numbered { (place : ℕ) → IfSome (slice_get (P.states parts.old) place)
        (λ p. list_all counts_from_one p.kept ≡ true) }
    ensures copies { IfOk result (λ batch. batch ≡ drained_of cursor.now (P.states parts.old)) }
    ensures drained { IfOk result (λ batch. are_drained K.load 1 batch.lists ≡ true) }
    ensures same { P.states parts.new ≡ P.states parts.old }
{
    know_load(parts);
    let mut copies = Vec::with_capacity(alloc, parts.len())?;
    for place in 0..parts.len() {
        let passed = cursor.passed(place as u8 + 1);
        copies.push_reserved(copy_part(alloc, parts.part(place), passed)?);
    }
    Ok(Batch::new(Edition::Second, copies))
}

impl<const N: usize, K: Loaded, P: Parts<Part = Partition<N, K>>> Partitions<N, K, P> {
    /// The end of the serial list, as a place from which commits are drained, for the partitions of a load that have kept all that
    /// comes from a log. E1.
    pub fn end_of(
        &mut self,
        alloc: Global,
        journal: &mut Journal<Commit, K>,
        pass: Pass<Commit, K>,
    ) -> Result<Cursor<Commit, K>, AllocError>
        requires partitions { K.passes.partitions ≡ length K.load.tables.warehouses }
        requires replayed { (place : ℕ) → IfSome (slice_get self.old place) (λ p. p.replayed ≤ length p.kept) }
        ensures end { IfOk result (λ cursor. cursor ≡ journal.old.list.log) }
        ensures told { Pairwise (TellsHere journal.old.list.log) 1 self.old self.new }
        ensures log { journal.new.list.log ≡ journal.old.list.log }
    {
        let parts = &mut self.parts;
        tell_all(parts, journal);
        know_replayed(parts);
        Cursor::new(alloc, pass, journal)
    }

    /// The commits of each warehouse behind the place of a cursor, as a batch of the second edition, of which they all are; the
    /// cursor then stands at the end of the serial list. Refused with E1, and then it stays where it was. Each partition is told
    /// of the whole list. Where batches and the serial list up to the cursor said the same, they do so with this batch behind
    /// them up to the end.
    pub fn drain(
        &mut self,
        alloc: Global,
        journal: &mut Journal<Commit, K>,
        cursor: &mut Cursor<Commit, K>,
    ) -> Result<Batch, Refusal>
        ensures drained { IfOk result (λ batch. batch ≡ drained_of cursor.old self.new) }
        ensures new { IfOk result (λ batch. are_new batch ≡ true) }
        ensures follows { IfOk result (λ batch. K.passes.partitions ≡ length K.load.tables.warehouses
            → (batches : List Batch) → SaySame K.load batches cursor.old
            → SaySame K.load (batches ++ batch ∷ []) journal.old.list.log) }
        ensures moved { OnOk result (cursor.new ≡ journal.old.list.log) }
        ensures begins { IsPrefix cursor.old journal.old.list.log }
        ensures refused { IfErr result (λ refusal. refusal ≡ Refusal.NoMemory) }
        ensures err { OnErr result (cursor.new ≡ cursor.old) }
        ensures told { Pairwise (TellsHere journal.old.list.log) 1 self.old self.new }
        ensures history { IsOneHistory K.passes.partitions journal.old.list.log self.new }
        ensures log { journal.new.list.log ≡ journal.old.list.log }
    {
        let parts = &mut self.parts;
        tell_all(parts, journal);
        cursor.find(journal);
        let batch = copy_behind(alloc, parts, cursor)?;
        batch.sound();
        cursor.advance(journal);
        Ok(batch)
    }
}
