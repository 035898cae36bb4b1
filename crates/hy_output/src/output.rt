//! An output.

ghost use Rattle.std.specs.Prelude.{◌≡◌, Bool, IfSome, IsTrue, List, ℕ, OnErr, OnOk, Option};
ghost use Rattle.std.specs.Fmt.{with_newline};
ghost use Rattle.std.specs.Io.KnownBytes.{Appends};

use std::{fmt, io};

/// Where text goes that is to be read. It knows whether a write to it has failed.
pub trait Output {
    // The bytes that it has, where they are known.
    ghost contents: { Self → Option (List ℕ) };

    // Whether a write to it has failed.
    ghost has_failed: { Self → Bool };

    /// Writes all of these bytes behind those that it has.
    fn write_all(&mut self, bytes: &[u8]) -> io::Result<()>
        ensures bytes { OnOk result (Appends (contents self.old) (contents self.new) bytes.now) }
        ensures steady { OnOk result (has_failed self.new ≡ has_failed self.old) }
        ensures failed { OnErr result (IsTrue (has_failed self.new)) };

    /// Writes a text behind those bytes, as `write!` calls it.
    fn write_fmt<D: fmt::Display + Drop>(&mut self, text: D) -> io::Result<()>
        ensures bytes { OnOk result
            (IfSome (D.output text) (Appends (contents self.old) (contents self.new))) }
        ensures steady { OnOk result (has_failed self.new ≡ has_failed self.old) }
        ensures failed { OnErr result (IsTrue (has_failed self.new)) };

    /// Writes a text and a line feed, as `writeln!` calls it.
    fn writeln<D: fmt::Display + Drop>(&mut self, text: D) -> io::Result<()>
        ensures bytes { OnOk result
            (IfSome (with_newline (D.output text)) (Appends (contents self.old) (contents self.new))) }
        ensures steady { OnOk result (has_failed self.new ≡ has_failed self.old) }
        ensures failed { OnErr result (IsTrue (has_failed self.new)) };
}

impl<O: Output> Output for &mut O {
    ghost contents = { λ output. O.contents output.now };

    ghost has_failed = { λ output. O.has_failed output.now };

    fn write_all(&mut self, bytes: &[u8]) -> io::Result<()> {
        Output::write_all(&mut **self, bytes)
    }

    fn write_fmt<D: fmt::Display + Drop>(&mut self, text: D) -> io::Result<()> {
        Output::write_fmt(&mut **self, text)
    }

    fn writeln<D: fmt::Display + Drop>(&mut self, text: D) -> io::Result<()> {
        Output::writeln(&mut **self, text)
    }
}
