//! Bytes on their way to a writer.

ghost use Rattle.hy_redo.specs.inside.Sending.{WritesAll};

use crate::out::{Failed, LogOut};
use hy_batches::Sink;
use std::alloc::Global;
use std::marker::Model;

/// Writes all of these bytes.
fn write_all<W: LogOut>(out: &mut W, bytes: &[u8]) -> Result<(), Failed>
    ensures { WritesAll (W.told out.old) (W.told out.new) bytes.now result }
{
    let mut rest = bytes;
    'rest: while !rest.is_empty() {
        let count = out.write(rest)?;
        rest = &rest[count..];
    }
    Ok(())
}

/// A writer, bytes that are held back for it, and whether it has failed.
#[derive(Drop)]
pub(crate) struct Pending<W: LogOut> {
    out: W,
    bytes: Vec<u8>,
    has_failed: bool,
}

impl<W: LogOut> Model for Pending<W> {
    ghost use Rattle.hy_redo.specs.inside.Sending.{Held};

    ghost Value = { Held };

    ghost view = { λ pending. record {
      told = W.told pending.out;
      bytes = pending.bytes.items;
      has_failed = pending.has_failed;
    } };
}

impl<W: LogOut> Pending<W> {
    ghost use Rattle.std.specs.Prelude.{◌≡◌, false, []};
    ghost use Rattle.hy_redo.specs.inside.Sending.{EndsSynced, Hands};

    /// A writer that has not failed, with nothing held back.
    pub(crate) fn new(alloc: Global, out: W) -> Pending<W>
        ensures { result ≡ record { told = W.told out; bytes = []; has_failed = false } }
    {
        Pending {
            out,
            bytes: Vec::new(alloc),
            has_failed: false,
        }
    }

    /// The writer.
    pub(crate) fn out(&self) -> &W
        ensures { W.told result.now ≡ self.now.told }
    {
        &self.out
    }

    /// The writer. What is held back is lost.
    pub(crate) fn into_out(self) -> W
        ensures { W.told result ≡ self.told }
    {
        let Pending {
            out,
            bytes: _,
            has_failed: _,
        } = self;
        out
    }

    /// Whether the writer has failed.
    pub(crate) fn has_failed(&self) -> bool
        ensures { result ≡ self.now.has_failed }
    {
        self.has_failed
    }

    /// Lets go of what is held back, and keeps its memory.
    pub(crate) fn clear(&mut self)
        ensures { self.new ≡ record self.old { bytes = [] } }
    {
        self.bytes.clear();
    }

    /// Writes bytes behind nothing that is held back, unless the writer has failed.
    fn send(&mut self, bytes: &[u8])
        requires { self.old.bytes ≡ [] }
        ensures sent { Hands self.old self.new bytes.now }
        ensures none { self.new.bytes ≡ [] }
    {
        if self.has_failed {
            return;
        }
        if write_all(&mut self.out, bytes).is_err() {
            self.has_failed = true;
        }
    }

    /// Writes what is held back.
    pub(crate) fn flush(&mut self)
        ensures sent { Hands self.old self.new [] }
        ensures none { self.new.bytes ≡ [] }
    {
        if !self.has_failed && write_all(&mut self.out, &self.bytes).is_err() {
            self.has_failed = true;
        }
        self.bytes.clear();
    }

    /// Syncs, unless the writer has failed.
    pub(crate) fn sync(&mut self)
        ensures { EndsSynced self.old self.new }
    {
        if !self.has_failed && self.out.sync().is_err() {
            self.has_failed = true;
        }
    }
}

// Bytes are held back as far as memory lasts, and written where it doesn't.
impl<W: LogOut> Sink for Pending<W> {
    ghost use Rattle.hy_redo.specs.inside.Sending.{Hands, hands_both, hands_none};

    ghost takes = { Hands };

    ghost takes_none = { hands_none };

    ghost takes_both = { hands_both };

    fn put(&mut self, bytes: &[u8]) {
        if self.bytes.extend_from_slice(bytes).is_err() {
            self.flush();
            self.send(bytes);
        }
    }
}
