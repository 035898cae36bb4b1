//! What the log is written to.

use std::error::Error;
use std::fmt;

/// A writer has failed.
#[derive(Clone, Copy, Debug, PartialEq, Eq)]
pub struct Failed;

impl fmt::Display for Failed {
    fn fmt<W: fmt::Write>(&self, f: &mut fmt::Formatter<W>) -> fmt::Result {
        f.write_str("the writer has failed")
    }
}

impl Error for Failed {}

/// A writer that takes bytes behind those that it has, and syncs them: then they stay when the power goes.
pub trait LogOut {
    ghost use Rattle.hy_redo.specs.Writers.{Syncs, Takes, Told};

    // the bytes that it took, how many of them are synced, and how many of its calls have failed
    ghost told: { Self → Told };

    /// Takes at least one byte of a slice that isn't empty, and tells how many. Where it fails, it may have taken some.
    fn write(&mut self, bytes: &[u8]) -> Result<usize, Failed>
        ensures { Takes (told self.old) (told self.new) bytes.now result };

    /// Syncs all bytes that it took.
    fn sync(&mut self) -> Result<(), Failed>
        ensures { Syncs (told self.old) (told self.new) result };
}
