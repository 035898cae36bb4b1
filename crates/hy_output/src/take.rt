//! Outputs that are taken out of their place for a while.

ghost use Rattle.std.specs.Prelude.{◌≡◌};

use crate::stream::Stream;
use std::io::{self, Stderr, Stdout};
use std::mem;

/// What can be taken out of its place, where something of its kind stays until it is back.
pub trait Take {
    /// Takes it out.
    fn take(&mut self) -> Self
    where
        Self: Sized,
        ensures { result ≡ self.old };
}

/// A writer for which another one can stand in.
pub trait Spare {
    /// The other one.
    fn spare(&self) -> Self
    where
        Self: Sized;
}

impl Spare for Stdout {
    fn spare(&self) -> Stdout {
        *self
    }
}

impl Spare for Stderr {
    fn spare(&self) -> Stderr {
        *self
    }
}

impl Spare for Vec<u8> {
    fn spare(&self) -> Vec<u8> {
        Vec::new(*self.allocator())
    }
}

impl<W: io::Write + Spare> Take for Stream<W> {
    fn take(&mut self) -> Stream<W> {
        let spare = Stream::new(self.writer().spare());
        mem::replace(self, spare)
    }
}
