//! The terminal of a warehouse: where its client's commands come in.

ghost use Rattle.std.specs.Prelude.{◌≡◌, ◌+◌, ◌<◌, All, IfOk, None, OnOk, length};
ghost use Rattle.hy_session.specs.of_crossing.Lists.{ChangesAt};
ghost use Rattle.hy_script.specs.Steps.{IsBegunUnless, IsLimitedUnless, Runs, reply_waiting};
ghost use Rattle.hy_script.specs.inside.Invariants.{IsReady, IsServed, IsServedAt};

use hy_commands::{Command, Commit, Reply};
use hy_passes::{Journal, Pass};
use hy_schema::Refusal;
use hy_session::hy_forks::OwnPartitions;
use hy_session::hy_partition::{Job, Loaded};
use std::alloc::{AllocError, Global};

/// What the script knows of a warehouse beside its partition.
#[derive(Drop)]
pub struct Terminal<K: Loaded> {
    /// The pass of the client whose commands the warehouse runs: it is here where no job runs and no answer waits.
    pub pass: Option<Pass<Commit, K>>,
    /// How many frames there may be.
    pub max_frames: u64,
}

/// A terminal for each of so many warehouses, with a pass each, the last one first.
pub(crate) fn terminals_of<K: Loaded>(
    alloc: Global,
    passes: &mut Vec<Pass<Commit, K>>,
    count: usize,
    max_frames: u64,
) -> Result<Vec<Terminal<K>>, AllocError>
    requires passes { length passes.old.items ≡ count + 1 }
    ensures count { IfOk result (λ made. length made.items ≡ count) }
    ensures ready { IfOk result (λ made. All (IsReady max_frames) made.items) }
    ensures passes { OnOk result (length passes.new.items ≡ 1) }
{
    let mut terminals = Vec::with_capacity(alloc, count)?;
    for _ in 0..count {
        let pass = Some(passes.take_last());
        terminals.push_reserved(Terminal { pass, max_frames });
    }
    Ok(terminals)
}

impl<K: Loaded> Terminal<K> {
    /// Begins a command in the partition at a place. What refuses it changes nothing.
    pub fn begin<const N: usize>(
        &mut self,
        partitions: &mut OwnPartitions<N, K>,
        place: usize,
        command: Command,
    ) -> Result<(), Refusal>
        requires there { place < length partitions.old }
        requires served { IsServedAt partitions.old place self.old }
        ensures begun { ChangesAt (λ p q. IsBegunUnless command result p q × IsServed q self.new) place
            partitions.old partitions.new }
    {
        let Some(pass) = self.pass.take() else {
            return Err(Refusal::Busy);
        };
        match partitions.begin(place, Job::new(command, pass)) {
            Ok(()) => Ok(()),
            Err((job, refusal)) => {
                let (_reply, pass, _share) = job.refuse(refusal).open();
                self.pass = Some(pass);
                Err(refusal)
            }
        }
    }

    /// Runs a command of one warehouse as a whole in the partition at a place. Its reply is the refusal where it isn't
    /// begun.
    pub fn run<const N: usize>(
        &mut self,
        partitions: &mut OwnPartitions<N, K>,
        place: usize,
        journal: &mut Journal<Commit, K>,
        command: Command,
    ) -> Reply
        requires there { place < length partitions.old }
        requires served { IsServedAt partitions.old place self.old }
        ensures runs { ChangesAt (λ p q. Runs command journal.old.list.log journal.new.list.log p q result
            × IsServed q self.new) place partitions.old partitions.new }
    {
        if let Err(refusal) = self.begin(partitions, place, command) {
            return Reply::Refused(refusal);
        }
        partitions.finish_running(place, journal);
        match self.take_reply(partitions, place) {
            Some(reply) => reply,
            None => unreachable!(),
        }
    }

    /// The reply to the job that ended in the partition at a place, once.
    pub fn take_reply<const N: usize>(
        &mut self,
        partitions: &mut OwnPartitions<N, K>,
        place: usize,
    ) -> Option<Reply>
        requires there { place < length partitions.old }
        requires served { IsServedAt partitions.old place self.old }
        ensures taken { ChangesAt (λ p q. (result ≡ reply_waiting p.finished) × (q ≡ record p { finished = None })
            × IsServed q self.new) place partitions.old partitions.new }
    {
        match partitions.take_done(place) {
            Some(done) => {
                let (reply, pass, _share) = done.open();
                self.pass = Some(pass);
                Some(reply)
            }
            None => None,
        }
    }

    /// Lets the partition at a place have so many frames more than it uses. E8 where that is no limit for it.
    pub fn limit<const N: usize>(
        &mut self,
        partitions: &mut OwnPartitions<N, K>,
        place: usize,
        more: u64,
    ) -> Result<(), Refusal>
        requires there { place < length partitions.old }
        requires served { IsServedAt partitions.old place self.old }
        ensures limited { ChangesAt (λ p q. IsLimitedUnless more result p q × IsServed q self.new) place
            partitions.old partitions.new }
    {
        let used = self.max_frames - partitions.part(place).free();
        let Some(max) = used.checked_add(more) else {
            return Err(Refusal::OutOfRange);
        };
        partitions.set_max(place, max)?;
        self.max_frames = max;
        Ok(())
    }
}
