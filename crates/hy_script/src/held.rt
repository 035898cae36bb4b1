//! Answers that are held back in front of an output.

ghost use Rattle.std.specs.Prelude.{◌≡◌, [], IsTrue, OnErr, OnOk};
ghost use Rattle.std.specs.Io.KnownBytes.{Appends, Keeps, append_known};
ghost use Rattle.hy_script.specs.inside.Held.{contents_behind, failed_behind, output_behind};

use hy_output::Output;
use std::alloc::Global;
use std::fmt;
use std::io::{self, Write};

/// How many bytes are held before they are handed on.
pub const HELD_BYTES: usize = 65_536;

/// An output in front of another one, to which it hands on many texts at a time.
#[derive(Drop)]
pub struct Held<O> {
    output: O,
    bytes: Vec<u8>,
    text: Vec<u8>,
}

impl<O: Output> Held<O> {
    /// An output in front of this one, which holds back as many bytes as there is room for. It has none yet.
    pub fn new(alloc: Global, output: O, room: Vec<u8>) -> Held<O>
        requires { room.items ≡ [] }
        ensures contents { contents_behind O.contents result ≡ O.contents output }
    {
        Held {
            output,
            bytes: room,
            text: Vec::new(alloc),
        }
    }

    /// Hands on what is held, where it is much.
    pub fn hand_on_many(&mut self) -> io::Result<()>
        ensures kept { OnOk result (Keeps (contents_behind O.contents self.old) (contents_behind O.contents self.new)) }
        ensures failed { OnErr result (IsTrue (failed_behind O.has_failed self.new)) }
    {
        if self.bytes.len() < HELD_BYTES {
            return Ok(());
        }
        hand_on(&mut self.bytes, &mut self.output)
    }

    /// Hands on what is held.
    pub fn hand_on(&mut self) -> io::Result<()>
        ensures kept { OnOk result (Keeps (contents_behind O.contents self.old) (O.contents (output_behind self.new))) }
        ensures steady { OnOk result (failed_behind O.has_failed self.new ≡ failed_behind O.has_failed self.old) }
        ensures failed { OnErr result (IsTrue (failed_behind O.has_failed self.new)) }
    {
        hand_on(&mut self.bytes, &mut self.output)
    }

    /// The other output. What is still held is dropped.
    pub fn into_output(self) -> O
        ensures { result ≡ output_behind self }
    {
        let Held {
            output,
            bytes: _,
            text: _,
        } = self;
        output
    }
}

impl<O: Output> Output for Held<O> {
    ghost contents = { contents_behind O.contents };

    ghost has_failed = { failed_behind O.has_failed };

    fn write_all(&mut self, bytes: &[u8]) -> io::Result<()> {
        hold(&mut self.bytes, &mut self.output, bytes)
    }

    fn write_fmt<D: fmt::Display + Drop>(&mut self, text: D) -> io::Result<()> {
        self.text.clear();
        if self.text.write_fmt(&text).is_ok() {
            return hold(&mut self.bytes, &mut self.output, self.text.as_slice());
        }
        hand_on(&mut self.bytes, &mut self.output)?;
        self.output.write_fmt(text)
    }

    fn writeln<D: fmt::Display + Drop>(&mut self, text: D) -> io::Result<()> {
        self.text.clear();
        if self.text.writeln(&text).is_ok() {
            return hold(&mut self.bytes, &mut self.output, self.text.as_slice());
        }
        hand_on(&mut self.bytes, &mut self.output)?;
        self.output.writeln(text)
    }
}

/// Holds bytes back behind others. Where memory is refused for that, all are handed on.
fn hold<O: Output>(held: &mut Vec<u8>, output: &mut O, bytes: &[u8]) -> io::Result<()>
    ensures written { OnOk result (Appends (append_known (O.contents output.old) held.old.items)
        (append_known (O.contents output.new) held.new.items) bytes.now) }
    ensures steady { OnOk result (O.has_failed output.new ≡ O.has_failed output.old) }
    ensures failed { OnErr result (IsTrue (O.has_failed output.new)) }
{
    if held.extend_from_slice(bytes).is_ok() {
        return Ok(());
    }
    hand_on(held, output)?;
    output.write_all(bytes)
}

/// Hands on the bytes that are held.
fn hand_on<O: Output>(held: &mut Vec<u8>, output: &mut O) -> io::Result<()>
    ensures kept { OnOk result
        (Keeps (append_known (O.contents output.old) held.old.items) (O.contents output.new)) }
    ensures none { OnOk result (held.new.items ≡ []) }
    ensures steady { OnOk result (O.has_failed output.new ≡ O.has_failed output.old) }
    ensures failed { OnErr result (IsTrue (O.has_failed output.new)) }
{
    output.write_all(held.as_slice())?;
    held.clear();
    Ok(())
}
