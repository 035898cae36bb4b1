//! The log of a service.

ghost use Rattle.std.specs.Prelude.{◌≡◌, false, length, List, IfErr, None, OnOk};
ghost use Rattle.hy_batches.specs.Batches.{Batch};
ghost use Rattle.hy_redo.specs.Disk.{BeginsBehind};
ghost use Rattle.hy_redo_drains.specs.of_forks.Logged.{SaySame};
ghost use Rattle.hy_redo_drains.specs.Following.{Follows};
ghost use Rattle.hy_hyper_service.specs.Keeping.{IsWhyUnkept, KeepsCommits, nothing_due};

use crate::PAGE_BYTES;
use hy_commands::Commit;
use hy_passes::Cursor;
use hy_redo::{Log, LogOut};
use hy_schema::Refusal;
use hy_script::Database;
use hy_session::hy_partition::Loaded;
use std::alloc::Global;
use std::marker::Model;

/// A redo log, and the place in the serial list up to which commits were written to it. All batches that it was handed, behind
/// those that were there before, say the same as the serial list up to the place.
#[derive(Drop)]
pub struct ServiceLog<W: LogOut, K: Loaded> {
    log: Log<W>,
    cursor: Cursor<Commit, K>,
    // how many commits stand before the place
    passed: u64,
}

// Clauses see the log, and the serial list up to the place.
impl<W: LogOut, K: Loaded> Model for ServiceLog<W, K> {
    ghost use Rattle.std.specs.Prelude.{◌≡◌, length};
    ghost use Rattle.hy_redo_drains.specs.Following.{Follows};
    ghost use Rattle.hy_hyper_service.specs.Keeping.{LoggedState, nothing_due};

    ghost Value = { LoggedState };

    ghost view = { λ kept. record { log = kept.log; seen = kept.cursor } };

    ghost invariant = { λ kept. Follows K.load (nothing_due kept.log kept.cursor)
        × (K.passes.partitions ≡ length K.load.tables.warehouses) × (kept.passed ≡ length kept.cursor) };
}

impl<W: LogOut, K: Loaded> ServiceLog<W, K> {
    /// A log to which goes what is committed behind the place of a cursor, at the end of the serial list of a database. It has to
    /// begin behind whole batches that say the same as that list.
    pub fn new(
        log: Log<W>,
        cursor: Cursor<Commit, K>,
        database: &Database<PAGE_BYTES, K>,
    ) -> ServiceLog<W, K>
        requires partitions { K.passes.partitions ≡ length K.load.tables.warehouses }
        requires end { cursor ≡ database.now.log }
        requires begins { (front : List Batch) × BeginsBehind front log × SaySame K.load front cursor }
        ensures { result ≡ record { log = log; seen = cursor } }
    {
        ServiceLog {
            log,
            cursor,
            passed: database.commits(),
        }
    }

    /// That the log follows the database of the load.
    pub fn follows(&self)
        ensures { Follows K.load (nothing_due self.now.log self.now.seen) }
    {
        let _passed = self.passed;
    }

    /// The log.
    pub fn into_log(self) -> Log<W>
        ensures { result ≡ self.log }
    {
        let ServiceLog {
            log,
            cursor: _,
            passed: _,
        } = self;
        log
    }

    /// Writes what was committed since the last time as one batch and syncs it, which acknowledges it; where nothing was, nothing
    /// is written and nothing synced. Refused with E1, and then nothing was written, or with E14, and from then on always.
    pub fn keep_commits(
        &mut self,
        alloc: Global,
        database: &mut Database<PAGE_BYTES, K>,
    ) -> Result<(), Refusal>
        ensures kept { OnOk result (KeepsCommits K.load self.old self.new database.old database.new) }
        ensures refused { IfErr result (IsWhyUnkept K.load self.old self.new database.old database.new) }
        ensures log { database.new.log ≡ database.old.log }
    {
        if database.is_drained(&mut self.cursor, self.passed) {
            return Ok(());
        }
        let batch = database.drain(alloc, &mut self.cursor)?;
        self.passed = database.commits();
        self.log.write_batch(&batch)
    }
}
