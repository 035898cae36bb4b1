//! A log that is handed what a database commits.

ghost use Rattle.std.specs.Prelude.{◌≡◌, true, List, length, IfErr, None, OnErr, OnOk, Some};
ghost use mathlib.Core.List.{IsPrefix};
ghost use Rattle.hy_schema.specs.declared.refusal.Refusal.{Refusal};
ghost use Rattle.hy_batches.specs.Batches.{Batch};
ghost use Rattle.hy_redo.specs.Disk.{BeginsBehind};
ghost use Rattle.hy_forks.specs.Lists.{Pairwise};
ghost use Rattle.hy_forks.specs.Drains.{TellsHere, are_new, drained_of};
ghost use Rattle.hy_forks.specs.Histories.{IsOneHistory};
ghost use Rattle.hy_forks.specs.Logged.{SaySame};
ghost use Rattle.hy_redo_drains.specs.Following.{Follows, WritesDue};

use hy_batches::Batch;
use hy_commands::Commit;
use hy_forks::hy_partition::{Loaded, Partition};
use hy_forks::{Partitions, Parts};
use hy_passes::{Cursor, Journal};
use hy_redo::{Log, LogOut};
use hy_schema::Refusal;
use std::alloc::Global;
use std::marker::Model;

/// A redo log, the place in the serial list up to which commits were drained for it, and the last batch of these, where that
/// isn't written so far. It follows the database of a load: all batches that it was handed, behind those that were there
/// before, and behind them the one that is due, say the same as the serial list up to the place. So no batch stands before an
/// earlier one, and none is left out.
#[derive(Drop)]
pub struct DrainLog<W: LogOut, K: Loaded> {
    log: Log<W>,
    cursor: Cursor<Commit, K>,
    due: Option<Batch>,
}

// Clauses see the log, the serial list up to the place, and the batch that is due.
impl<W: LogOut, K: Loaded> Model for DrainLog<W, K> {
    ghost use Rattle.std.specs.Prelude.{◌≡◌, length};
    ghost use Rattle.hy_redo_drains.specs.Following.{DrainState, Follows};

    ghost Value = { DrainState };

    ghost view = { λ drains. record { log = drains.log; seen = drains.cursor; due = drains.due } };

    ghost invariant = { λ drains.
        Follows K.load (record { log = drains.log; seen = drains.cursor; due = drains.due })
        × (K.passes.partitions ≡ length K.load.tables.warehouses) };
}

impl<W: LogOut, K: Loaded> DrainLog<W, K> {
    /// A log to which goes what is committed behind the place of a cursor. It has to begin behind whole batches that say the
    /// same as the serial list up to there, or behind none where the database is the load's own.
    pub fn new(log: Log<W>, cursor: Cursor<Commit, K>) -> DrainLog<W, K>
        requires partitions { K.passes.partitions ≡ length K.load.tables.warehouses }
        requires begins { (front : List Batch) × BeginsBehind front log × SaySame K.load front cursor }
        ensures { result ≡ record { log = log; seen = cursor; due = None } }
    {
        DrainLog {
            log,
            cursor,
            due: None,
        }
    }

    /// The log. A batch that is due is lost.
    pub fn into_log(self) -> Log<W>
        ensures { result ≡ self.log }
    {
        let DrainLog {
            log,
            cursor: _,
            due: _,
        } = self;
        log
    }

    /// That the log follows the database of the load.
    pub fn follows(&self)
        ensures follows { Follows K.load self.now }
        ensures partitions { K.passes.partitions ≡ length K.load.tables.warehouses }
    {
        let _due = &self.due;
    }

    /// Drains what was committed since the last drain: it is due then, and stands in the log behind `write`. Refused with E1,
    /// and then nothing is drained. Each partition is told of the whole serial list.
    pub fn drain<const N: usize, P: Parts<Part = Partition<N, K>>>(
        &mut self,
        alloc: Global,
        partitions: &mut Partitions<N, K, P>,
        journal: &mut Journal<Commit, K>,
    ) -> Result<(), Refusal>
        requires due { self.old.due ≡ None }
        ensures log { self.new.log ≡ self.old.log }
        ensures drained { OnOk result (self.new.due ≡ Some (drained_of self.old.seen partitions.new)) }
        ensures new { OnOk result (are_new (drained_of self.old.seen partitions.new) ≡ true) }
        ensures moved { OnOk result (self.new.seen ≡ journal.old.list.log) }
        ensures begins { IsPrefix self.old.seen journal.old.list.log }
        ensures refused { IfErr result (λ refusal. refusal ≡ Refusal.NoMemory) }
        ensures err { OnErr result (self.new ≡ self.old) }
        ensures told { Pairwise (TellsHere journal.old.list.log) 1 partitions.old partitions.new }
        ensures history { IsOneHistory K.passes.partitions journal.old.list.log partitions.new }
        ensures same_log { journal.new.list.log ≡ journal.old.list.log }
    {
        let batch = partitions.drain(alloc, journal, &mut self.cursor)?;
        self.due = Some(batch);
        Ok(())
    }

    /// Writes the batch that is due, where one is, and syncs it. Refused with E14 where the writer fails, and from then on
    /// always; the batch is lost then.
    pub fn write(&mut self) -> Result<(), Refusal>
        ensures { WritesDue self.old self.new result }
    {
        match self.due.take() {
            Some(batch) => self.log.write_batch(&batch),
            None => Ok(()),
        }
    }
}
