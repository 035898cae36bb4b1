//! What is asked of the partition of one warehouse among all of them.

ghost use Rattle.std.specs.Prelude.{◌≡◌, ◌<◌, IfSome, IsSome, IsSomeAnd, IsTrue, None, length, slice_get, true};
ghost use Rattle.hy_rows.specs.Ranges.{is_between};
ghost use Rattle.hy_commands.specs.declared.edition.Edition.TheVariants as editions;
ghost use Rattle.hy_crossing.specs.of_partition.Partition.{may_run, replays};
ghost use Rattle.hy_crossing.specs.Crossings.{EndsJob};
ghost use Rattle.hy_crossing.specs.Lists.{ChangesAt};
ghost use Rattle.hy_forks.specs.Partitions.{EndsWith, RunsHere, RunsWhole, StepsOnce, TriesToBegin, TriesToLimit};

use crate::partitions::Partitions;
use hy_commands::Commit;
use hy_crossing::hy_partition::{Done, Job, Loaded, Partition, Progress};
use hy_passes::Journal;
use hy_schema::Refusal;

impl<const N: usize, K: Loaded> Partitions<N, K, Vec<Partition<N, K>>> {
    /// Begins a job in the partition at a place, from 0. A refusal gives it back and changes nothing: the first of E9, E8,
    /// E4, E5, E6, E3, E1, as `begin` of a partition says.
    pub fn begin(&mut self, place: usize, job: Job<K>) -> Result<(), (Job<K>, Refusal)>
        requires there { place < length self.old }
        requires edition { IfSome (slice_get self.old place) (λ p. may_run (replays p) job.edition ≡ true) }
        ensures { ChangesAt (TriesToBegin job result) place self.old self.new }
    {
        begin(&mut self.parts[place], job)
    }

    /// Does one slice of what runs in the partition at a place. E10 where nothing runs.
    pub fn step(
        &mut self,
        place: usize,
        journal: &mut Journal<Commit, K>,
    ) -> Result<Progress, Refusal>
        requires there { place < length self.old }
        ensures { ChangesAt (StepsOnce result journal.old.list.log journal.new.list.log) place self.old self.new }
    {
        self.parts[place].step(journal)
    }

    /// Steps until nothing runs in the partition at a place.
    pub fn finish_running(&mut self, place: usize, journal: &mut Journal<Commit, K>)
        requires there { place < length self.old }
        ensures { ChangesAt (EndsJob journal.old.list.log journal.new.list.log) place self.old self.new }
    {
        self.parts[place].finish_running(journal);
    }

    /// The answer to the job that ended in the partition at a place, once.
    pub fn take_done(&mut self, place: usize) -> Option<Done<K>>
        requires there { place < length self.old }
        ensures { ChangesAt (λ p q. (result ≡ p.finished) × (q ≡ record p { finished = None })) place self.old self.new }
    {
        self.parts[place].take_done()
    }

    /// Sets how many frames may be in use in the partition at a place. E8 exactly where `max` isn't 1 to 10,000,000 or is less
    /// than the frames in use.
    pub fn set_max(&mut self, place: usize, max: u64) -> Result<(), Refusal>
        requires there { place < length self.old }
        ensures { ChangesAt (TriesToLimit max result) place self.old self.new }
    {
        set_max(&mut self.parts[place], max)
    }

    /// Runs a job as a whole in the partition at a place, and gives its answer: why it isn't begun, or what it came to.
    pub fn run_at(&mut self, place: usize, journal: &mut Journal<Commit, K>, job: Job<K>) -> Done<K>
        requires there { place < length self.old }
        requires new { job.edition ≡ editions.Second }
        ensures { ChangesAt (λ p q. RunsHere job journal.old.list.log journal.new.list.log p q result) place self.old self.new }
    {
        run(&mut self.parts[place], journal, job)
    }

    /// Runs a job as a whole, and gives its answer: in its home where it names no other warehouse, else over all that it
    /// names, as `cross` says. E4 where its home isn't there; then nothing is run, and nothing that runs is ended.
    pub fn run(&mut self, journal: &mut Journal<Commit, K>, job: Job<K>) -> Done<K>
        requires { job.edition ≡ editions.Second }
        ensures { RunsWhole K.passes.partitions K.load job journal.old.list.log journal.new.list.log self.old self.new result }
    {
        let home = job.command().home();
        if !is_there(home, self.parts.len()) {
            return job.refuse(Refusal::NoSuchWarehouse);
        }
        if job.command().is_crossing() {
            return self.cross(journal, job);
        }
        self.run_at(home as usize - 1, journal, job)
    }
}

/// Whether there is a warehouse with a number, of so many.
fn is_there(number: u64, count: usize) -> bool
    ensures { result ≡ is_between 1 count number }
{
    1 <= number && number <= count as u64
}

/// Runs a job as a whole in a partition.
fn run<const N: usize, K: Loaded>(
    part: &mut Partition<N, K>,
    journal: &mut Journal<Commit, K>,
    job: Job<K>,
) -> Done<K>
    requires { job.edition ≡ editions.Second }
    ensures { RunsHere job journal.old.list.log journal.new.list.log part.old part.new result }
{
    match part.begin(job) {
        Ok(()) => end(part, journal),
        Err((job, refusal)) => job.refuse(refusal),
    }
}

/// Lets what runs in a partition come to its end, and takes its answer.
fn end<const N: usize, K: Loaded>(
    part: &mut Partition<N, K>,
    journal: &mut Journal<Commit, K>,
) -> Done<K>
    requires { IsSome part.old.running }
    ensures { IsSomeAnd part.old.running
        (λ job. EndsWith job journal.old.list.log journal.new.list.log part.old part.new result) }
{
    part.finish_running(journal);
    match part.take_done() {
        Some(done) => done,
        None => unreachable!(),
    }
}

/// Begins a job in a partition.
fn begin<const N: usize, K: Loaded>(
    part: &mut Partition<N, K>,
    job: Job<K>,
) -> Result<(), (Job<K>, Refusal)>
    requires edition { may_run (replays part.old) job.edition ≡ true }
    ensures { TriesToBegin job result part.old part.new }
{
    part.begin(job)
}

/// Sets how many frames may be in use in a partition.
fn set_max<const N: usize, K: Loaded>(part: &mut Partition<N, K>, max: u64) -> Result<(), Refusal>
    ensures { TriesToLimit max result part.old part.new }
{
    part.set_max(max)
}
