//! Jobs that wait for a worker.

ghost use Rattle.std.specs.Prelude.{◌≡◌, false};
ghost use Rattle.hy_commands.specs.declared.edition.Edition.TheVariants as editions;
ghost use Rattle.hy_engine.specs.Engines.{names_several};

use hy_redo_drains::hy_partition::{Job, Loaded};
use std::marker::Model;

/// A job of the second edition, as all are that an engine takes, whose command names one warehouse.
#[derive(Drop)]
pub(crate) struct NewJob<K: Loaded> {
    job: Job<K>,
    ghost new: { job.edition ≡ editions.Second },
    ghost local: { names_several job.command ≡ false },
}

// Clauses see the job.
impl<K: Loaded> Model for NewJob<K> {
    ghost use Rattle.hy_redo_drains.specs.of_partition.Jobs.{JobState};

    ghost Value = { JobState };

    ghost view = { λ new. new.job };
}

impl<K: Loaded> NewJob<K> {
    /// A job as one that waits.
    pub(crate) fn new(job: Job<K>) -> NewJob<K>
        requires new { job.edition ≡ editions.Second }
        requires local { names_several job.command ≡ false }
        ensures { result ≡ job }
    {
        NewJob { job }
    }

    /// The job.
    pub(crate) fn open(self) -> Job<K>
        ensures job { result ≡ self }
        ensures new { result.edition ≡ editions.Second }
    {
        let NewJob { job } = self;
        job
    }
}
