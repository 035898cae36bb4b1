//! Jobs: commands that are handed to a partition, and their answers.

ghost use Rattle.std.specs.Prelude.{◌≡◌, ◌+◌, ◌<◌};
ghost use Rattle.hy_commands.specs.declared.edition.Edition.TheVariants as editions;
ghost use Rattle.hy_commands.specs.Commands.{slice_count};
ghost use Rattle.hy_partition.specs.Jobs.{begun, is_last, refused_answer, with_slice_done};

use hy_commands::{Command, Commit, Edition, Reply};
use hy_ledger::Share;
use hy_passes::Pass;
use hy_schema::Refusal;
use hy_worlds::World;
use std::marker::Model;

/// A command on its way to a partition, with the edition of the transactions that does it and the pass of the client who
/// wants it. It can't be cloned, so that it is done once at most.
#[derive(Drop)]
pub struct Job<K: World> {
    edition: Edition,
    command: Command,
    pass: Pass<Commit, K>,
}

// Clauses see all of it.
impl<K: World> Model for Job<K> {
    ghost use Rattle.hy_partition.specs.Jobs.{JobState};

    ghost Value = { JobState };

    ghost view = { λ job. record { edition = job.edition; command = job.command; pass = job.pass } };
}

impl<K: World> Job<K> {
    /// A job that runs a command for a client, by the second edition.
    pub fn new(command: Command, pass: Pass<Commit, K>) -> Job<K>
        ensures { result ≡ record { edition = editions.Second; command = command; pass = pass } }
    {
        Job::of_edition(Edition::Second, command, pass)
    }

    /// A job that runs a command by an edition: a recovery runs each command by that of its batch.
    pub fn of_edition(edition: Edition, command: Command, pass: Pass<Commit, K>) -> Job<K>
        ensures { result ≡ record { edition = edition; command = command; pass = pass } }
    {
        Job {
            edition,
            command,
            pass,
        }
    }

    /// The edition.
    pub fn edition(&self) -> Edition
        ensures { result ≡ self.now.edition }
    {
        self.edition
    }

    /// The command.
    pub fn command(&self) -> &Command
        ensures { result.now ≡ self.now.command }
    {
        &self.command
    }

    /// The number of the client who wants it; one of the kit's.
    pub fn client(&self) -> u32
        ensures client { result ≡ self.now.pass.client }
        ensures range { result < K.passes.clients }
    {
        self.pass.sound();
        self.pass.client()
    }

    /// The command and the pass.
    pub fn open(self) -> (Command, Pass<Commit, K>)
        ensures { (result.0 ≡ self.command) × (result.1 ≡ self.pass) }
    {
        let Job {
            edition: _,
            command,
            pass,
        } = self;
        (command, pass)
    }

    /// The answer to a job that nobody begins: the pass comes back as it was.
    pub fn refuse(self, refusal: Refusal) -> Done<K>
        ensures { result ≡ refused_answer self.pass refusal }
    {
        let Job {
            edition: _,
            command: _,
            pass,
        } = self;
        Done {
            reply: Reply::Refused(refusal),
            pass,
            share: None,
        }
    }

    /// The job, begun.
    pub(crate) fn begin(self) -> Running<K>
        ensures { result ≡ begun self }
    {
        let Job {
            edition,
            command,
            pass,
        } = self;
        Running {
            edition,
            command,
            slices: 0,
            pass,
        }
    }
}

/// The answer to a job, on its way back: its reply, the client's pass, and a share where the command was accepted and
/// doesn't only read. It can't be cloned, so that it is read once at most.
#[derive(Drop)]
pub struct Done<K: World> {
    reply: Reply,
    pass: Pass<Commit, K>,
    share: Option<Share<K>>,
}

// Clauses see all of it.
impl<K: World> Model for Done<K> {
    ghost use Rattle.hy_partition.specs.Jobs.{DoneState};

    ghost Value = { DoneState };

    ghost view = { λ done. record { reply = done.reply; pass = done.pass; share = done.share } };
}

impl<K: World> Done<K> {
    /// The answer to a job that ended.
    pub(crate) fn new(reply: Reply, pass: Pass<Commit, K>, share: Option<Share<K>>) -> Done<K>
        ensures { result ≡ record { reply = reply; pass = pass; share = share } }
    {
        Done { reply, pass, share }
    }

    /// The number of the client whose job it was; one of the kit's.
    pub fn client(&self) -> u32
        ensures client { result ≡ self.now.pass.client }
        ensures range { result < K.passes.clients }
    {
        self.pass.sound();
        self.pass.client()
    }

    /// The reply, the client's pass, and the share.
    pub fn open(self) -> (Reply, Pass<Commit, K>, Option<Share<K>>)
        ensures { (result.0 ≡ self.reply) × (result.1 ≡ self.pass) × (result.2 ≡ self.share) }
    {
        let Done { reply, pass, share } = self;
        (reply, pass, share)
    }
}

/// What a step left of a job.
#[derive(Clone, Copy, Debug, PartialEq, Eq)]
pub enum Progress {
    /// More slices are to come.
    More,
    /// The job ended: its answer can be taken.
    Finished,
}

/// A command that runs, its edition, how many of its slices are done, and its client's pass.
#[derive(Drop)]
pub struct Running<K: World> {
    edition: Edition,
    command: Command,
    slices: u64,
    pass: Pass<Commit, K>,
}

// Clauses see all of it.
impl<K: World> Model for Running<K> {
    ghost use Rattle.hy_partition.specs.Jobs.{RunningJob};

    ghost Value = { RunningJob };

    ghost view = { λ running. record {
      edition = running.edition;
      command = running.command;
      slices = running.slices;
      pass = running.pass;
    } };
}

impl<K: World> Running<K> {
    /// The edition.
    pub(crate) fn edition(&self) -> Edition
        ensures { result ≡ self.now.edition }
    {
        self.edition
    }

    /// The command.
    pub(crate) fn command(&self) -> &Command
        ensures { result.now ≡ self.now.command }
    {
        &self.command
    }

    /// How many slices are done.
    pub(crate) fn slices(&self) -> u64
        ensures { result ≡ self.now.slices }
    {
        self.slices
    }

    /// One slice more is done.
    pub(crate) fn advance(&mut self)
        requires { self.old.slices < slice_count self.old.command }
        ensures { self.new ≡ with_slice_done self.old }
    {
        let _count = self.command.slices();
        self.slices += 1;
    }

    /// The edition and the command, to be kept, and the pass.
    pub(crate) fn part(self) -> (Edition, Command, Pass<Commit, K>)
        ensures { (result.0 ≡ self.edition) × (result.1 ≡ self.command) × (result.2 ≡ self.pass) }
    {
        let Running {
            edition,
            command,
            slices: _,
            pass,
        } = self;
        (edition, command, pass)
    }

    /// The answer to a job of which a slice was refused.
    pub(crate) fn refuse(self, refusal: Refusal) -> Done<K>
        ensures { result ≡ refused_answer self.pass refusal }
    {
        let Running {
            edition: _,
            command: _,
            slices: _,
            pass,
        } = self;
        Done {
            reply: Reply::Refused(refusal),
            pass,
            share: None,
        }
    }

    /// Whether the next slice is the last one.
    pub(crate) fn is_last(&self) -> bool
        requires { self.now.slices < slice_count self.now.command }
        ensures { result ≡ is_last self.now }
    {
        self.command.slices() - self.slices == 1
    }
}
