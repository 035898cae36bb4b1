//! Locks that are held, in places of their own.

ghost use Rattle.std.specs.Prelude.{◌≡◌, ◌<◌, ◌++◌, [], ◌∷◌, length, slice_index_or};
ghost use Rattle.std.specs.Borrow.{sem};

use arrayvec::ArrayVec;
use std::marker::Model;
use std::sync::MutexGuard;

/// Up to 16 values, in order, as a database has at most 16 warehouses. They lie in the value itself and take no memory; so
/// whoever holds the locks of all partitions asks for none.
#[derive(Drop)]
pub struct Held<G> {
    places: ArrayVec<Option<G>, 16>,
}

// Clauses see the values.
impl<G> Model for Held<G> {
    ghost use Rattle.std.specs.Prelude.{List};
    ghost use Rattle.hy_crossing.specs.inside.HeldPlaces.{AllTaken, values_in};

    ghost Value = { List G };

    ghost view = { λ held. values_in held.places.items };

    ghost invariant = { λ held. AllTaken held.places.items };
}

impl<G> Held<G> {
    ghost use Rattle.hy_crossing.specs.inside.Held.{LendsValue};

    /// None.
    pub fn new() -> Held<G>
        ensures { result ≡ [] }
    {
        Held {
            places: ArrayVec::new(),
        }
    }

    /// How many there are.
    pub fn len(&self) -> usize
        ensures { result ≡ length self.now }
    {
        self.places.len()
    }

    /// The value at a place, from 0.
    pub fn value_mut(&mut self, place: usize) -> &mut G
        requires { place < length self.old }
        ensures* writes_back { sem 𝓛 (LendsValue G.row self.entry place result) }
        ensures value { result.now ≡ slice_index_or self.old place result.now }
    {
        self.places.get_mut(place).unwrap().as_mut().unwrap()
    }
}

impl<'a, T> Held<MutexGuard<'a, T>> {
    /// Holds one more lock.
    pub fn push(&mut self, guard: MutexGuard<'a, T>)
        requires { length self.old < 16 }
        ensures { self.new ≡ self.old ++ guard.entry ∷ [] }
    {
        self.places.push(Some(guard));
    }
}
