//! All partitions of a load, of which one at a time is lent.

use crate::held::Held;
use hy_partition::{Loaded, Partition};
use std::sync::MutexGuard;

/// The partitions of a load's warehouses, in order. One is lent at a time, and the others stay.
pub trait Parts {
    ghost use Rattle.std.specs.Prelude.{◌≡◌, ◌<◌, ℕ, List, length, slice_index_or, slice_set};
    ghost use Rattle.std.specs.Borrow.{Lends, sem};

    /// The type of a partition.
    type Part;

    ghost states: { Self → List Self.Part };

    // the same partitions with another one at a place
    ghost put: { Self → ℕ → Self.Part → Self };

    ghost states_put: { (parts : Self) (place : ℕ) (p : Self.Part) → place < length (states parts)
        → states (put parts place p) ≡ slice_set (states parts) place p };

    /// How many there are.
    fn len(&self) -> usize
        ensures { result ≡ length (Self.states self.now) };

    /// The one at a place, from 0.
    fn part(&mut self, place: usize) -> &mut Self::Part
        requires { place < length (Self.states self.old) }
        ensures* writes_back { sem 𝓛 (Lends Self.row Self.Part.row self.entry result (Self.put self.entry.now place)) }
        ensures value { result.now ≡ slice_index_or (Self.states self.old) place result.now };
}

impl<const N: usize, K: Loaded> Parts for Vec<Partition<N, K>> {
    ghost use Rattle.std.specs.Vec.{with_item};
    ghost use Rattle.std.proofs.Common.{refl};

    type Part = Partition<N, K>;

    ghost states = { λ parts. parts.items };

    ghost put = { λ parts place p. with_item parts place p };

    ghost states_put = { λ parts place p within. refl };

    fn len(&self) -> usize {
        Vec::len(self)
    }

    fn part(&mut self, place: usize) -> &mut Partition<N, K> {
        &mut self[place]
    }
}

// Partitions behind locks, all of which are held.
impl<'a, const N: usize, K: Loaded> Parts for Held<MutexGuard<'a, Partition<N, K>>> {
    ghost use Rattle.hy_crossing.specs.inside.Guards.{values-put, values_of, with_value_at};

    type Part = Partition<N, K>;

    ghost states = { λ parts. values_of parts };

    ghost put = { λ parts place p. with_value_at parts place p };

    ghost states_put = { λ parts place p within. values-put parts place p within };

    fn len(&self) -> usize {
        Held::len(self)
    }

    fn part(&mut self, place: usize) -> &mut Partition<N, K> {
        &mut **self.value_mut(place)
    }
}
