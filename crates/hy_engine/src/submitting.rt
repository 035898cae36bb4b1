//! How a client hands in a job, and gets its answer.

ghost use Rattle.std.specs.Prelude.{◌≡◌, ◌⊎◌, ◌↔◌, ◌<◌, ◌≤◌, IfErr, IsTrue, OnOk, length, nat_lt, true, false};
ghost use Rattle.hy_schema.specs.declared.refusal.Refusal.{Refusal};
ghost use Rattle.hy_commands.specs.declared.edition.Edition.TheVariants as editions;
ghost use Rattle.hy_commands.specs.Commands.{home_of, warehouses_of};
ghost use Rattle.hy_redo_drains.specs.of_partition.Jobs.{JobState};
ghost use Rattle.hy_redo_drains.specs.of_forks.Histories.{IsOneHistory};
ghost use Rattle.hy_redo_drains.specs.of_forks.Partitions.{CrossesAndTells};
ghost use Rattle.hy_queues.specs.Queues.{FrontState, IsWhyUnput};
ghost use Rattle.hy_engine.specs.Engines.{AreOthers, IsAnswer, IsHome, IsWhyBack, names_several};

use crate::answer::Answer;
use crate::engine::Engine;
use crate::gate::Gate;
use crate::holding::HeldPartitions;
use crate::locking::lock_soon;
use crate::new_job::NewJob;
use hy_commands::Commit;
use hy_passes::Journal;
use hy_queues::Line;
use hy_redo_drains::hy_partition::{Done, Job, Loaded};
use hy_schema::Refusal;
use std::sync::Wait;

impl<const N: usize, K: Loaded, G: Gate + Drop> Engine<N, K, G> {
    /// Hands a job in, of the second edition. That of one warehouse waits in its queue for the worker; that of several is
    /// done at once, on the caller's thread. Either answer comes by `answer`. Another one comes back as it was: with E16, only
    /// where a queue of the engine was closed; with E4, only where its home isn't there, or where it names several warehouses
    /// and the partitions aren't those of the load; or with E17, only where all places of its home's queue were taken at one
    /// moment.
    pub fn submit<R: Wait>(&self, rt: &R, job: Job<K>) -> Result<(), (Job<K>, Refusal)>
        requires { job.edition ≡ editions.Second }
        ensures home { OnOk result (IsHome self.now (home_of job.command)) }
        ensures back { IfErr result (λ refused. refused.0 ≡ job) }
        ensures refused { IfErr result (λ refused. IsWhyBack K.load self.now job.command refused.1) }
    {
        let home = job.command().home();
        if !self.has_warehouse(home) {
            return Err((job, self.why_homeless(rt)));
        }
        let line = &self.jobs[home as usize - 1];
        if !job.command().is_crossing() {
            return wait_in(rt, line, job);
        }
        if line.is_closed(rt) {
            return Err((job, Refusal::Closed));
        }
        let answer = self.cross(rt, job)?;
        self.hand_over(rt, answer);
        Ok(())
    }

    /// Whether there is a warehouse with a number.
    fn has_warehouse(&self, number: u64) -> bool
        ensures { IsTrue result ↔ IsHome self.now number }
    {
        1 <= number && number <= self.jobs.len() as u64
    }

    /// Why a job comes back whose home isn't there: E16 where the engine is closed, else E4.
    fn why_homeless<R: Wait>(&self, rt: &R) -> Refusal
        ensures { (result ≡ Refusal.NoSuchWarehouse)
            ⊎ ((result ≡ Refusal.Closed) × ((jobs : FrontState JobState) × (jobs.is_closed ≡ true))) }
    {
        match self.jobs.first() {
            Some(line) if line.is_closed(rt) => Refusal::Closed,
            _ => Refusal::NoSuchWarehouse,
        }
    }

    /// Does a job of several warehouses, with the locks of all. It comes back with E4 where the partitions aren't those of
    /// the load. Such jobs take turns, so that no two of them wait for locks at a time, and workers go on between.
    fn cross<R: Wait>(&self, rt: &R, job: Job<K>) -> Result<Answer<K>, (Job<K>, Refusal)>
        requires several { nat_lt 1 (length (warehouses_of job.command)) ≡ true }
        requires new { job.edition ≡ editions.Second }
        ensures back { IfErr result (λ refused. refused.0 ≡ job) }
        ensures refused { IfErr result (λ refused. (refused.1 ≡ Refusal.NoSuchWarehouse) × AreOthers K.load self.now) }
    {
        let _turn = self.turn.lock(rt);
        match self.hold(rt) {
            Ok(mut partitions) => {
                let mut journal = lock_soon(rt, &self.journal);
                Ok(cross_held(&mut partitions, &mut journal, job))
            }
            Err(refusal) => Err((job, refusal)),
        }
    }

    /// Waits for an answer that a job of this client got: from the partition of its home, or from all partitions where it
    /// named several. What is another client's is handed on.
    pub fn answer<R: Wait>(&self, rt: &R, client: u32) -> Done<K>
        requires { client < K.passes.clients }
        ensures client { result.pass.client ≡ client }
        ensures is { ∥ IsAnswer K.load result ∥₁ }
    {
        let line = &self.answers[client as usize];
        for _ in rt.forever() {
            let Some(answer) = line.take(rt) else {
                continue;
            };
            if answer.client() == client {
                return answer.open();
            }
            self.hand_over(rt, answer);
        }
        unreachable!()
    }
}

/// Does a job of several warehouses in partitions whose locks are held.
fn cross_held<const N: usize, K: Loaded>(
    partitions: &mut HeldPartitions<'_, N, K>,
    journal: &mut Journal<Commit, K>,
    job: Job<K>,
) -> Answer<K>
    requires several { nat_lt 1 (length (warehouses_of job.command)) ≡ true }
    requires new { job.edition ≡ editions.Second }
    ensures crosses { CrossesAndTells K.load job journal.old.list.log journal.new.list.log partitions.old partitions.new
        result }
    ensures history { IsOneHistory K.passes.partitions journal.new.list.log partitions.new }
{
    partitions.sound();
    Answer::new(partitions.cross(journal, job))
}

/// Puts a job into a warehouse's queue. It comes back with E16 or E17.
fn wait_in<R: Wait, K: Loaded>(
    rt: &R,
    line: &Line<NewJob<K>>,
    job: Job<K>,
) -> Result<(), (Job<K>, Refusal)>
    requires new { job.edition ≡ editions.Second }
    requires local { names_several job.command ≡ false }
    ensures back { IfErr result (λ refused. refused.0 ≡ job) }
    ensures refused { IfErr result (λ refused. (jobs : FrontState JobState) × IsWhyUnput jobs refused.1) }
{
    match line.put(rt, NewJob::new(job)) {
        Ok(()) => Ok(()),
        Err((waiting, refusal)) => Err((waiting.open(), refusal)),
    }
}
