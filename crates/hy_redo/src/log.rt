//! The log.

use crate::out::LogOut;
use crate::pending::Pending;
use hy_batches::{Batch, Sink};
use hy_schema::Refusal;
use std::alloc::Global;
use std::marker::Model;

/// A redo log on its way to a writer.
#[derive(Drop)]
pub struct Log<W: LogOut> {
    pending: Pending<W>,
}

// Clauses see what the writer tells, and whether it has failed the log.
impl<W: LogOut> Model for Log<W> {
    ghost use Rattle.hy_redo.specs.Calls.{LogState};

    ghost Value = { LogState };

    ghost view = { λ log. record { told = log.pending.told; has_failed = log.pending.has_failed } };
}

impl<W: LogOut> Log<W> {
    ghost use Rattle.std.specs.Prelude.{◌≡◌, false};
    ghost use Rattle.hy_redo.specs.Calls.{Answers};

    /// A log that begins behind the bytes that a writer took already: behind none, or behind whole batches.
    pub fn new(alloc: Global, out: W) -> Log<W>
        ensures { result ≡ record { told = W.told out; has_failed = false } }
    {
        Log {
            pending: Pending::new(alloc, out),
        }
    }

    /// The writer.
    pub fn out(&self) -> &W
        ensures { W.told result.now ≡ self.now.told }
    {
        self.pending.out()
    }

    /// The writer, with which the log ends.
    pub fn into_out(self) -> W
        ensures { W.told result ≡ self.told }
    {
        self.pending.into_out()
    }

    /// Writes a batch and syncs it, which acknowledges it. Refused with E14 where the writer fails, and from then on always;
    /// nothing is written any more then.
    pub fn write_batch(&mut self, batch: &Batch) -> Result<(), Refusal>
        ensures { Answers self.old self.new batch.now result }
    {
        if self.pending.has_failed() {
            return Err(Refusal::LogFailed);
        }
        self.pending.clear();
        hy_batches::write_batch(&mut self.pending, batch);
        self.pending.flush();
        self.pending.sync();
        if self.pending.has_failed() {
            return Err(Refusal::LogFailed);
        }
        Ok(())
    }
}
