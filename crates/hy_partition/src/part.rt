//! The part of a command over several warehouses that is done in one of them.

ghost use Rattle.std.specs.Prelude.{◌≡◌};

use hy_commands::{Command, Edition};
use std::marker::Model;

/// A command over several warehouses whose part is done in a partition, with the edition of the transactions that did it.
#[derive(Drop)]
pub struct Part {
    edition: Edition,
    command: Command,
}

// Clauses see both.
impl Model for Part {
    ghost use Rattle.hy_partition.specs.Partition.{PartState};

    ghost Value = { PartState };

    ghost view = { λ part. record { edition = part.edition; command = part.command } };
}

impl Part {
    /// A command and its edition.
    pub(crate) fn new(edition: Edition, command: Command) -> Part
        ensures { result ≡ record { edition = edition; command = command } }
    {
        Part { edition, command }
    }

    /// The edition.
    pub(crate) fn edition(&self) -> Edition
        ensures { result ≡ self.now.edition }
    {
        self.edition
    }

    /// The command.
    pub(crate) fn command(&self) -> &Command
        ensures { result.now ≡ self.now.command }
    {
        &self.command
    }

    /// The edition and the command, to be kept.
    pub(crate) fn open(self) -> (Edition, Command)
        ensures { (result.0 ≡ self.edition) × (result.1 ≡ self.command) }
    {
        let Part { edition, command } = self;
        (edition, command)
    }
}
