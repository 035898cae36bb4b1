//! The parts of a command over several warehouses that are done, and neither kept nor undone so far.

ghost use Rattle.std.specs.Prelude.{◌≡◌, ◌+◌, ◌^◌, ◌<◌, ◌≤◌, IfSome, IsSome, None};
ghost use Rattle.std.specs.Option.{option_or};
ghost use Rattle.hy_partition.specs.Unsettled.{nothing_done, with_part_done, with_part_kept, with_part_undone};

use crate::job::Done;
use hy_commands::{Command, Commit, Edition, Reply};
use hy_ledger::Share;
use hy_passes::Pass;
use hy_worlds::World;
use std::marker::Model;
use std::snapshot::Snapshot as Noted;

/// How many parts of a command are done in partitions, by an edition, and neither kept nor undone so far; the reply of those
/// that are done or kept, and the share of those that are kept. It can't be let go: whoever has it keeps each part and makes
/// the answer of it, or undoes each part and closes it. So no part is left done, and no answer is made of anything but parts
/// that are kept.
pub struct UnsettledParts<K: World> {
    edition: Edition,
    command: Noted<Command>,
    count: u64,
    reply: Option<Reply>,
    share: Option<Share<K>>,
}

// Clauses see all of it, and the command too, of which nothing is copied.
impl<K: World> Model for UnsettledParts<K> {
    ghost use Rattle.hy_partition.specs.Unsettled.{UnsettledState};

    ghost Value = { UnsettledState };

    ghost view = { λ unsettled. record {
      edition = unsettled.edition;
      command = unsettled.command.value;
      count = unsettled.count;
      reply = unsettled.reply;
      share = unsettled.share;
    } };
}

impl<K: World> UnsettledParts<K> {
    /// No part of a command is done.
    pub fn none(edition: Edition, command: &Command) -> UnsettledParts<K>
        ensures { result ≡ nothing_done edition command.now }
    {
        UnsettledParts {
            edition,
            command: Noted::of(command),
            count: 0,
            reply: None,
            share: None,
        }
    }

    /// Ends it where each part that was done was undone.
    pub fn close(self)
        requires settled { self.count ≡ 0 }
        requires unanswered { self.reply ≡ None }
        requires unshared { self.share ≡ None }
    {
        let UnsettledParts {
            edition: _,
            command: _,
            count: _,
            reply: _,
            share: _,
        } = self;
    }

    /// The answer to the command, each part of which is kept: its reply, the pass of its client, and its share.
    pub fn answer(self, pass: Pass<Commit, K>) -> Done<K>
        requires settled { self.count ≡ 0 }
        requires replied { IsSome self.reply }
        ensures { IfSome self.reply (λ reply. result ≡ record { reply = reply; pass = pass; share = self.share }) }
    {
        let UnsettledParts {
            edition: _,
            command: _,
            count: _,
            reply,
            share,
        } = self;
        let Some(reply) = reply else {
            unreachable!();
        };
        Done::new(reply, pass, share)
    }

    /// One part more is done, with its reply if it has one.
    pub(crate) fn note_done(&mut self, reply: Option<Reply>)
        requires { self.old.count + 1 < 2 ^ 64 }
        ensures { self.new ≡ with_part_done self.old reply }
    {
        self.count += 1;
        note(&mut self.reply, reply);
    }

    /// One of the parts is undone, so that there is no reply.
    pub(crate) fn note_undone(&mut self)
        requires { 1 ≤ self.old.count }
        ensures { self.new ≡ with_part_undone self.old }
    {
        self.count -= 1;
        self.reply = None;
    }

    /// One of the parts is kept, with its share if it gives one.
    pub(crate) fn note_kept(&mut self, share: Option<Share<K>>)
        requires { 1 ≤ self.old.count }
        ensures { self.new ≡ with_part_kept self.old share }
    {
        self.count -= 1;
        note(&mut self.share, share);
    }
}

/// Notes a value, where there is one.
fn note<T: Drop>(place: &mut Option<T>, given: Option<T>)
    ensures { place.new ≡ option_or given place.old }
{
    if given.is_some() {
        *place = given;
    }
}
