//! Writers as outputs.

ghost use Rattle.std.specs.Prelude.{◌≡◌, false};
ghost use Rattle.hy_output.specs.Streams.{has_failed, writer_of};

use crate::output::Output;
use std::fmt;
use std::io::{self, Write};

/// A writer, with a note of whether a write to it has failed.
#[derive(Drop)]
pub struct Stream<W> {
    writer: W,
    has_failed: bool,
}

impl<W: io::Write> Stream<W> {
    /// A writer to which no write has failed.
    pub fn new(writer: W) -> Stream<W>
        ensures writer { writer_of result ≡ writer }
        ensures fresh { has_failed result ≡ false }
    {
        Stream {
            writer,
            has_failed: false,
        }
    }

    /// The writer, to be looked at.
    pub(crate) fn writer(&self) -> &W
        ensures { result.now ≡ writer_of self.now }
    {
        &self.writer
    }

    /// The writer.
    pub fn into_writer(self) -> W
        ensures { result ≡ writer_of self }
    {
        let Stream {
            writer,
            has_failed: _,
        } = self;
        writer
    }
}

impl<W: io::Write> Output for Stream<W> {
    ghost contents = { λ stream. W.contents (writer_of stream) };

    ghost has_failed = { λ stream. has_failed stream };

    fn write_all(&mut self, bytes: &[u8]) -> io::Result<()> {
        let written = self.writer.write_all(bytes);
        if written.is_err() {
            self.has_failed = true;
        }
        written
    }

    fn write_fmt<D: fmt::Display + Drop>(&mut self, text: D) -> io::Result<()> {
        let written = self.writer.write_fmt(text);
        if written.is_err() {
            self.has_failed = true;
        }
        written
    }

    fn writeln<D: fmt::Display + Drop>(&mut self, text: D) -> io::Result<()> {
        let written = self.writer.writeln(text);
        if written.is_err() {
            self.has_failed = true;
        }
        written
    }
}
