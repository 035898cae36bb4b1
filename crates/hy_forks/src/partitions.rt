//! The partitions of all warehouses of a load as one value.

ghost use Rattle.std.specs.Prelude.{◌≡◌, ◌↔◌, ◌<◌, ◌≤◌, Err, IfErr, IfOk, IfSome, IsOk, IsSome, MatchOption, None, OnErr, OnOk, length, map, nat_lt, slice_get, slice_index_or, true};
ghost use Rattle.std.specs.List.{range_with_len};
ghost use Rattle.hy_frames.specs.FrameTable.{IsLimitFor, IsPageSize, max_frames as most_frames};
ghost use Rattle.hy_passes.specs.Worlds.{new_partition};
ghost use Rattle.hy_commands.specs.Commands.{warehouses_of};
ghost use Rattle.hy_crossing.specs.of_partition.Limits.{most_kept};
ghost use Rattle.hy_crossing.specs.of_partition.Partition.{PartitionState, may_run, replays};
ghost use Rattle.hy_crossing.specs.Crossings.{AllMayRun};
ghost use Rattle.hy_crossing.specs.Lists.{ChangesAt};
ghost use Rattle.hy_crossing.specs.Making.{AllBegin, IsWhyNoneMade};
ghost use Rattle.hy_forks.specs.Histories.{IsOneHistory};
ghost use Rattle.hy_forks.specs.Partitions.{AreWhole, CrossesAndTells};

use hy_commands::Commit;
use hy_crossing::hy_partition::{Done, Job, Loaded, Partition};
use hy_crossing::{Parts, are_partitions, cross, partitions_of};
use hy_loads::Load;
use hy_passes::{Journal, PartitionSeat};
use hy_schema::Refusal;
use std::alloc::Global;
use std::marker::{Model, PhantomData};

/// The partitions of all warehouses of the load, in order, and no part of a command over several warehouses is done in any
/// of them. They are owned or behind locks that are held.
#[derive(Drop)]
pub struct Partitions<const N: usize, K: Loaded, P: Parts<Part = Partition<N, K>>> {
    pub(crate) parts: P,
    of: PhantomData<K>,
}

/// Those that are owned.
pub type OwnPartitions<const N: usize, K> = Partitions<N, K, Vec<Partition<N, K>>>;

// Clauses see the partitions.
impl<const N: usize, K: Loaded, P: Parts<Part = Partition<N, K>>> Model for Partitions<N, K, P> {
    ghost use Rattle.std.specs.Prelude.{List};
    ghost use Rattle.hy_crossing.specs.of_partition.Partition.{PartitionState};
    ghost use Rattle.hy_forks.specs.Partitions.{AreWhole};

    ghost Value = { List PartitionState };

    ghost view = { λ partitions. P.states partitions.parts };

    ghost invariant = { λ partitions. AreWhole K.load (P.states partitions.parts) };
}

impl<const N: usize, K: Loaded> Partitions<N, K, Vec<Partition<N, K>>> {
    /// A partition for each warehouse of a load, in order and each on its seat, with nothing kept and no snapshot. E2 only
    /// where `max_frames` is no more than the frames that the rows of one and their entries take at most; E1.
    pub fn of_load(
        alloc: Global,
        load: &Load,
        seats: Vec<PartitionSeat<Commit, K>>,
        max_frames: u64,
        max_kept: u64,
    ) -> Result<Partitions<N, K, Vec<Partition<N, K>>>, Refusal>
        requires size { IsPageSize N }
        requires some_frames { 1 ≤ max_frames }
        requires frames { max_frames ≤ most_frames }
        requires some_kept { 1 ≤ max_kept }
        requires kept { max_kept ≤ most_kept }
        requires load { load.now ≡ K.load }
        requires seats { seats.items ≡ map new_partition (range_with_len 1 (length load.now.tables.warehouses)) }
        ensures begin { IfOk result (AllBegin load.now max_frames max_kept) }
        ensures refused { IfErr result (IsWhyNoneMade N load.now max_frames) }
    {
        load.sound();
        let parts = partitions_of(alloc, load, seats, max_frames, max_kept)?;
        Ok(Partitions::new(parts))
    }

    /// The partition of the warehouse at a place, from 0.
    pub fn part(&self, place: usize) -> &Partition<N, K>
        requires { place < length self.now }
        ensures { result.now ≡ slice_index_or self.now place result.now }
    {
        &self.parts[place]
    }
}

impl<const N: usize, K: Loaded, P: Parts<Part = Partition<N, K>>> Partitions<N, K, P> {
    /// These partitions, which are all those of the load in order.
    pub fn new(parts: P) -> Partitions<N, K, P>
        requires { AreWhole K.load (P.states parts) }
        ensures { result ≡ P.states parts }
    {
        Partitions {
            parts,
            of: PhantomData,
        }
    }

    /// These partitions, where they are all those of the load in order and no part of a command is done in any; else they
    /// come back. Who takes partitions out of locks, where a value shows no more than its invariant, asks this.
    pub fn found(mut parts: P) -> Result<Partitions<N, K, P>, P>
        ensures found { IfOk result (λ partitions. partitions ≡ P.states parts) }
        ensures are { IsOk result ↔ AreWhole K.load (P.states parts) }
        ensures back { IfErr result (λ others. P.states others ≡ P.states parts) }
    {
        if are_partitions(&mut parts) {
            Ok(Partitions::new(parts))
        } else {
            Err(parts)
        }
    }

    /// What holds of them. Changes nothing.
    pub fn sound(&self)
        ensures { AreWhole K.load self.now }
    {
        let _parts = &self.parts;
    }

    /// How many warehouses there are.
    pub fn len(&self) -> usize
        ensures { result ≡ length self.now }
    {
        self.parts.len()
    }

    /// The partitions.
    pub fn into_parts(self) -> P
        ensures { P.states result ≡ self }
    {
        let Partitions { parts, of: _ } = self;
        parts
    }

    /// Runs a command over several warehouses. What runs in those that it names is ended first; what runs elsewhere stays
    /// as it is. Then the whole of it is done, or none of it, and the refusal is the reply: the first of E8, E4, E5, E6, E3,
    /// E7, E2, E1. All partitions are told the whole serial list. A job of the first edition is run only where nothing runs in
    /// the warehouses that it names and each of them replays a log.
    pub fn cross(&mut self, journal: &mut Journal<Commit, K>, job: Job<K>) -> Done<K>
        requires several { nat_lt 1 (length (warehouses_of job.command)) ≡ true }
        requires edition { AllMayRun job.edition job.command self.old }
        ensures crosses { CrossesAndTells K.load job journal.old.list.log journal.new.list.log self.old self.new result }
        ensures history { IsOneHistory K.passes.partitions journal.new.list.log self.new }
    {
        let done = cross(&mut self.parts, journal, job);
        self.find_history(journal);
        done
    }
}
