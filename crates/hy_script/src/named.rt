//! Open snapshots, each under the name that it was given.

ghost use Rattle.std.specs.Prelude.{◌≡◌, IfOk, MatchOption};
ghost use Rattle.hy_script.specs.Databases.{HasName, IsNameAt};

use hy_events::SnapshotName;
use hy_session::Session;
use std::alloc::{AllocError, Global};
use std::marker::Model;

/// A session over a snapshot of all warehouses, and its name.
pub struct Named<const N: usize> {
    name: Vec<u8>,
    session: Session<N>,
}

// Clauses see both.
impl<const N: usize> Model for Named<N> {
    ghost use Rattle.hy_script.specs.Databases.{OpenSnapshot};

    ghost Value = { OpenSnapshot };

    ghost view = { λ named. record { name = named.name.items; parts = named.session } };
}

impl<const N: usize> Named<N> {
    /// A session under a name.
    pub fn new(name: Vec<u8>, session: Session<N>) -> Named<N>
        ensures { result ≡ record { name = name.items; parts = session.entry } }
    {
        Named { name, session }
    }

    /// The bytes of the name.
    pub fn name(&self) -> &[u8]
        ensures { result.now ≡ self.now.name }
    {
        &self.name
    }

    /// The session.
    pub fn session(&self) -> &Session<N>
        ensures { result.now ≡ self.now.parts }
    {
        &self.session
    }

    /// The session, to be closed.
    pub fn into_session(self) -> Session<N>
        ensures { result ≡ self.entry.parts }
    {
        let Named { name: _, session } = self;
        session
    }
}

/// The place of the snapshot with a name, if it is one of these.
pub fn place_of_name<const N: usize>(
    snapshots: &[Named<N>],
    name: &SnapshotName<'_>,
) -> Option<usize>
    ensures { MatchOption result (¬ HasName snapshots.now name.now) (IsNameAt snapshots.now name.now) }
{
    for (place, other) in snapshots.iter().enumerate() {
        if other.name() == name.as_bytes() {
            return Some(place);
        }
    }
    None
}

/// The bytes of a name once more.
pub fn copy_of(alloc: Global, name: &SnapshotName<'_>) -> Result<Vec<u8>, AllocError>
    ensures { IfOk result (λ copy. copy.items ≡ name.now) }
{
    Vec::from_slice(alloc, name.as_bytes())
}
