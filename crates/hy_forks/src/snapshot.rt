//! A snapshot of the whole database.

ghost use Rattle.std.specs.Prelude.{◌≡◌, ◌<◌, ◌≤◌, length, slice_index_or};

use hy_crossing::hy_partition::Snapshot;
use std::marker::Model;

/// A snapshot of each warehouse in order, all of one moment. It must be given back by `close_all`.
pub struct SnapshotAll<const N: usize> {
    parts: Vec<Snapshot<N>>,
}

// Clauses see the snapshots.
impl<const N: usize> Model for SnapshotAll<N> {
    ghost use Rattle.std.specs.Prelude.{◌≤◌, List, length};
    ghost use Rattle.hy_crossing.specs.of_partition.Snapshots.{SnapshotState};

    ghost Value = { List SnapshotState };

    ghost view = { λ all. all.parts.items };

    ghost invariant = { λ all. length all.parts.items ≤ 255 };
}

impl<const N: usize> SnapshotAll<N> {
    /// These snapshots.
    pub(crate) fn new(parts: Vec<Snapshot<N>>) -> SnapshotAll<N>
        requires { length parts.items ≤ 255 }
        ensures { result ≡ parts.entry.items }
    {
        SnapshotAll { parts }
    }

    /// The snapshots, which are to be closed.
    pub(crate) fn take_apart(self) -> Vec<Snapshot<N>>
        ensures { result.items ≡ self.entry }
    {
        let SnapshotAll { parts } = self;
        parts
    }

    /// The snapshots of the warehouses, in order.
    pub fn parts(&self) -> &[Snapshot<N>]
        ensures { result.now ≡ self.now }
    {
        self.parts.as_slice()
    }

    /// How many warehouses there are.
    pub fn len(&self) -> usize
        ensures { result ≡ length self.now }
    {
        self.parts.len()
    }

    /// That there are few: a warehouse has a number of one byte.
    pub fn few(&self)
        ensures { length self.now ≤ 255 }
    {
        let _parts = &self.parts;
    }

    /// The snapshot of the warehouse at a place, from 0.
    pub fn part(&self, place: usize) -> &Snapshot<N>
        requires { place < length self.now }
        ensures { result.now ≡ slice_index_or self.now place result.now }
    {
        &self.parts[place]
    }
}
