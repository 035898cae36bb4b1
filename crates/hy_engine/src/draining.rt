//! What was committed is written to a log.

ghost use Rattle.std.specs.Prelude.{◌≡◌, IfErr, None, OnErr, OnOk};
ghost use Rattle.hy_engine.specs.Engines.{DrainsAll, DrainsInto, IsWhyUndrained, IsWhyUnlogged};

use crate::engine::Engine;
use crate::gate::Gate;
use crate::locking::lock_soon;
use hy_redo::LogOut;
use hy_redo_drains::DrainLog;
use hy_redo_drains::hy_partition::Loaded;
use hy_schema::Refusal;
use std::alloc::Global;
use std::sync::{Mutex, Wait};

impl<const N: usize, K: Loaded, G: Gate + Drop> Engine<N, K, G> {
    /// Writes what was committed since the last drain to a log, as one batch. The log's lock is taken first, and held until
    /// the batch is synced; all other locks are held while the partitions are drained. E4 where they aren't those of the
    /// load, or E1; then nothing counts as drained. E14 where the log's writer fails; what was drained counts as drained all
    /// the same.
    pub fn drain_log<R: Wait, W: LogOut>(
        &self,
        rt: &R,
        alloc: Global,
        log: &Mutex<DrainLog<W, K>>,
    ) -> Result<(), Refusal>
        ensures { IfErr result (IsWhyUnlogged K.load self.now) }
    {
        let mut log = log.lock(rt);
        self.drain_into(rt, alloc, &mut log)
    }

    /// The same for a log that nobody else has.
    fn drain_into<R: Wait, W: LogOut>(
        &self,
        rt: &R,
        alloc: Global,
        log: &mut DrainLog<W, K>,
    ) -> Result<(), Refusal>
        ensures drains { DrainsInto K.passes.partitions K.load self.now log.old log.new result }
        ensures refused { IfErr result (IsWhyUnlogged K.load self.now) }
    {
        log.write()?;
        self.drain_all(rt, alloc, log)?;
        log.write()
    }

    /// Drains what was committed since the last drain, which is due to be written then. Takes all locks. E4 where the
    /// partitions aren't those of the load, or E1; then nothing is drained.
    fn drain_all<R: Wait, W: LogOut>(
        &self,
        rt: &R,
        alloc: Global,
        log: &mut DrainLog<W, K>,
    ) -> Result<(), Refusal>
        requires { log.old.due ≡ None }
        ensures drained { OnOk result (DrainsAll K.passes.partitions K.load log.old log.new) }
        ensures err { OnErr result (log.new ≡ log.old) }
        ensures refused { IfErr result (IsWhyUndrained K.load self.now) }
    {
        let mut partitions = self.hold(rt)?;
        let mut journal = lock_soon(rt, &self.journal);
        partitions.sound();
        log.drain(alloc, &mut partitions, &mut journal)
    }
}
