//! Answers on their way to their clients.

ghost use Rattle.std.specs.Prelude.{◌≡◌, ◌<◌};
ghost use Rattle.hy_engine.specs.Engines.{IsAnswer};

use hy_redo_drains::hy_partition::{Done, Loaded};
use std::marker::Model;

/// The answer to a job that a partition did, or that was done in all of them. Nobody makes one of anything else, so that an
/// answer that comes out of a queue is one that a job got.
#[derive(Drop)]
pub(crate) struct Answer<K: Loaded> {
    done: Done<K>,
    ghost is: { ∥ IsAnswer K.load done ∥₁ },
}

// Clauses see the answer.
impl<K: Loaded> Model for Answer<K> {
    ghost use Rattle.hy_redo_drains.specs.of_partition.Jobs.{DoneState};

    ghost Value = { DoneState };

    ghost view = { λ answer. answer.done };
}

impl<K: Loaded> Answer<K> {
    /// The answer that a job got.
    pub(crate) fn new(done: Done<K>) -> Answer<K>
        requires { ∥ IsAnswer K.load done ∥₁ }
        ensures { result ≡ done }
    {
        Answer { done }
    }

    /// The number of the client whose job it was; one of the kit's.
    pub(crate) fn client(&self) -> u32
        ensures client { result ≡ self.now.pass.client }
        ensures range { result < K.passes.clients }
    {
        self.done.client()
    }

    /// The answer, for its client.
    pub(crate) fn open(self) -> Done<K>
        ensures done { result ≡ self }
        ensures is { ∥ IsAnswer K.load result ∥₁ }
    {
        let Answer { done } = self;
        done
    }
}
