//! Calls on all partitions, with all locks.

ghost use Rattle.std.specs.Prelude.{◌≡◌, IfErr, IfOk, OnErr, map};
ghost use Rattle.hy_schema.specs.declared.refusal.Refusal.{Refusal};
ghost use Rattle.hy_redo_drains.specs.of_forks.Forks.{AreOfKit, shown};
ghost use Rattle.hy_engine.specs.Engines.{AreMine, AreOthers, IsWhyNotAgain, IsWhyOpen, IsWhyUnseen, SeesAll};

use crate::engine::Engine;
use crate::gate::Gate;
use crate::locking::lock_soon;
use hy_commands::Commit;
use hy_passes::Pass;
use hy_redo_drains::hy_crossing::Held;
use hy_redo_drains::hy_forks::{Partitions, SnapshotAll};
use hy_redo_drains::hy_partition::{Loaded, Partition};
use hy_schema::Refusal;
use std::alloc::Global;
use std::sync::{MutexGuard, Wait};

/// The partitions of all warehouses of the load, with all of their locks.
pub type HeldPartitions<'a, const N: usize, K> = Partitions<
    N,
    K,
    Held<MutexGuard<'a, Partition<N, K>>>,
>;

impl<const N: usize, K: Loaded, G: Gate + Drop> Engine<N, K, G> {
    /// The partitions of all warehouses, with all of their locks, which are taken in rising order of warehouse. E4 where they
    /// aren't those of the load, in order, or a part of a command is done in one. Takes no memory.
    pub fn hold<'a, R: Wait>(&'a self, rt: &R) -> Result<HeldPartitions<'a, N, K>, Refusal>
        ensures refused { IfErr result (λ why. (why ≡ Refusal.NoSuchWarehouse) × AreOthers K.load self.now) }
    {
        let mut held = Held::new();
        for place in 0..self.parts.len() {
            held.push(lock_soon(rt, &self.parts[place]));
        }
        match Partitions::found(held) {
            Ok(partitions) => Ok(partitions),
            Err(_others) => Err(Refusal::NoSuchWarehouse),
        }
    }

    /// A snapshot of all warehouses, for a client: it spells the database behind a serial list that begins with all
    /// that the client had seen and that the client then knows, and its rows meet the consistency conditions. It says
    /// that it is one of this kit and of any partitions of the load, so that whoever has these can close it. Refused
    /// with E4; with E2 only where one of the partitions of the load has fewer frames free than its job has touched pages;
    /// or with E1; then the client isn't told.
    pub fn fork_all<R: Wait>(
        &self,
        rt: &R,
        alloc: Global,
        pass: &mut Pass<Commit, K>,
    ) -> Result<SnapshotAll<N>, Refusal>
        ensures sees { IfOk result (SeesAll N K.load pass.old pass.new) }
        ensures kit { IfOk result (AreOfKit K.passes) }
        ensures mine { IfOk result (AreMine K.passes K.load) }
        ensures refused { IfErr result (IsWhyUnseen K.load self.now) }
        ensures untold { OnErr result (pass.new ≡ pass.old) }
    {
        let mut partitions = self.hold(rt)?;
        partitions.sound();
        let mut journal = lock_soon(rt, &self.journal);
        let forked = partitions.fork_all(alloc, &mut journal, pass);
        partitions.sound();
        forked
    }

    /// A snapshot of what another one of all warehouses sees, whose new tickets are of this kit: it lives on when that one is
    /// closed. It shows what that one shows, and says that it is one of this kit and of any partitions of the load. No pass
    /// is asked for, and nobody is told of the serial list. Refused with E11 only where the other one isn't one of the
    /// partitions of the load; else with E4, only where the locked partitions aren't those of the load; or with E1.
    pub fn fork_all_from<R: Wait>(
        &self,
        rt: &R,
        alloc: Global,
        all: &SnapshotAll<N>,
    ) -> Result<SnapshotAll<N>, Refusal>
        ensures shows { IfOk result (λ again. map shown again ≡ map shown all.now) }
        ensures kit { IfOk result (AreOfKit K.passes) }
        ensures mine { IfOk result (AreMine K.passes K.load) }
        ensures refused { IfErr result (IsWhyNotAgain K.passes K.load self.now all.now) }
    {
        let mut partitions = self.hold(rt)?;
        partitions.sound();
        let forked = partitions.fork_all_from(alloc, all);
        partitions.sound();
        forked
    }

    /// Closes a snapshot of all warehouses. Refused with E11, only where it isn't one of the
    /// partitions of the load, or with E4, it comes back as it was. A snapshot with the kit's name has to be one of that kit.
    /// Takes no memory. What becomes of the partitions behind their locks is said by `close_all` of `Partitions`, which is
    /// called there, and by no clause here.
    pub fn close_all<R: Wait>(
        &self,
        rt: &R,
        all: SnapshotAll<N>,
    ) -> Result<(), (SnapshotAll<N>, Refusal)>
        requires kit { AreOfKit K.passes all }
        ensures back { IfErr result (λ refused. refused.0 ≡ all.entry) }
        ensures refused { IfErr result (λ refused. IsWhyOpen K.passes K.load self.now all.entry refused.1) }
    {
        match self.hold(rt) {
            Ok(mut partitions) => {
                partitions.sound();
                partitions.close_all(all)
            }
            Err(refusal) => Err((all, refusal)),
        }
    }
}
