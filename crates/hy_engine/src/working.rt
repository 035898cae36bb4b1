//! What a worker does.

ghost use Rattle.std.specs.Prelude.{◌≡◌, ◌↔◌, IfSome, IsSome, IsSomeAnd, IsTrue, MatchBool, None, Ok, true};
ghost use Rattle.hy_redo_drains.specs.of_partition.declared.job.Progress.{Progress};
ghost use Rattle.hy_redo_drains.specs.of_partition.Partition.{PartitionState};
ghost use Rattle.hy_redo_drains.specs.of_partition.Jobs.{is_last};
ghost use Rattle.hy_engine.specs.Engines.{AnswersJob, AnswersRunning, IsAnswer};
ghost use Rattle.hy_engine.specs.inside.Early.{AreEarly, EndsRun};

use crate::answer::Answer;
use crate::engine::Engine;
use crate::gate::Gate;
use crate::locking::lock_soon;
use crate::new_job::NewJob;
use hy_redo_drains::hy_partition::{Done, Loaded, Partition, Progress};
use hy_schema::Refusal;
use std::sync::Wait;

impl<const N: usize, K: Loaded, G: Gate + Drop> Engine<N, K, G> {
    /// A worker's loop: takes the jobs of a warehouse in their order, does each, and hands its answer to its client.
    /// It returns once the engine is closed and no job waits, and at once where there is no such warehouse.
    pub fn work<R: Wait>(&self, rt: &R, warehouse: u8) {
        let place = usize::from(warehouse).wrapping_sub(1);
        if place >= self.jobs.len() {
            return;
        }
        for _ in rt.forever() {
            let Some(job) = self.jobs[place].take(rt) else {
                return;
            };
            let answer = self.answer_job(
                rt,
                warehouse,
                &mut lock_soon(rt, &self.parts[place]),
                job,
            );
            self.hand_over(rt, answer);
            self.gate.answered(rt, warehouse);
        }
        unreachable!()
    }

    /// Does a job in a partition, whose lock is held. What `begin` refuses is the answer.
    fn answer_job<R: Wait>(
        &self,
        rt: &R,
        warehouse: u8,
        part: &mut Partition<N, K>,
        job: NewJob<K>,
    ) -> Answer<K>
        ensures { AnswersJob job part.old part.new result }
    {
        Answer::new(self.do_job(rt, warehouse, part, job))
    }

    /// The same, with an answer that may be any value.
    fn do_job<R: Wait>(
        &self,
        rt: &R,
        warehouse: u8,
        part: &mut Partition<N, K>,
        job: NewJob<K>,
    ) -> Done<K>
        ensures answers { AnswersJob job part.old part.new result }
        ensures is { ∥ IsAnswer K.load result ∥₁ }
    {
        match part.begin(job.open()) {
            Ok(()) => self.run_slices(rt, warehouse, part),
            Err((job, refusal)) => job.refuse(refusal),
        }
    }

    /// Does the slices of the job that runs, and takes its answer. The journal is locked for the last slice alone.
    fn run_slices<R: Wait>(&self, rt: &R, warehouse: u8, part: &mut Partition<N, K>) -> Done<K>
        requires { IsSome part.old.running }
        ensures { IsSomeAnd part.old.running (λ job. AnswersRunning job part.old part.new result) }
    {
        self.run_early(rt, warehouse, part);
        self.run_last(rt, part);
        let Some(done) = part.take_done() else {
            unreachable!();
        };
        done
    }

    /// Does the slices before the last one, or those up to one that is refused.
    fn run_early<R: Wait>(&self, rt: &R, warehouse: u8, part: &mut Partition<N, K>)
        requires { IsSome part.old.running }
        ensures early { AreEarly part.old part.new }
        ensures last { IfSome part.new.running (λ job. is_last job ≡ true) }
    {
        let mut slice = 1u64;
        for _ in rt.forever() {
            self.gate.before_step(rt, warehouse, slice);
            if part.at_last() || !goes_on(part) {
                return;
            }
            slice = slice.saturating_add(1);
        }
        unreachable!()
    }

    /// Does the last slice of the job that runs, where it hasn't ended, with the journal.
    fn run_last<R: Wait>(&self, rt: &R, part: &mut Partition<N, K>)
        requires { IfSome part.old.running (λ job. is_last job ≡ true) }
        ensures { (first : PartitionState) → AreEarly first part.old
            → IfSome first.running (λ job. EndsRun job first part.new) }
    {
        if !part.at_last() {
            return;
        }
        let mut journal = lock_soon(rt, &self.journal);
        let _progress = part.step(&mut journal);
    }

    /// Puts an answer into its client's queue.
    pub(crate) fn hand_over<R: Wait>(&self, rt: &R, answer: Answer<K>) {
        self.answers[answer.client() as usize].put_soon(rt, answer);
    }
}

/// Does a slice that isn't the last one of the job that runs, and says whether the job goes on. Where the slice is refused
/// the job has ended.
fn goes_on<const N: usize, K: Loaded>(part: &mut Partition<N, K>) -> bool
    requires running { IsSome part.old.running }
    requires early { IsSomeAnd part.old.running (λ job. is_last job ≡ true) → ⊥ }
    ensures early { (first : PartitionState) → AreEarly first part.old → AreEarly first part.new }
    ensures on { MatchBool result (IsSome part.new.running) (part.new.running ≡ None) }
{
    let outcome = part.step_early();
    is_more(&outcome)
}

/// Whether a slice was done and more are to come.
fn is_more(outcome: &Result<Progress, Refusal>) -> bool
    ensures { IsTrue result ↔ (outcome.now ≡ Ok Progress.More) }
{
    matches!(outcome, Ok(Progress::More))
}
