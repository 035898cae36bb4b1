//! What a client has seen.

ghost use Rattle.std.specs.Prelude.{◌≡◌, ◌+◌, ◌<◌, ◌≤◌, length};
ghost use mathlib.Core.List.{IsPrefix};

use crate::entry::{Commits, Entry};
use crate::passes::Passes;
use crate::view::View;
use atomic_table::Seat;
use hy_worlds::World;
use std::marker::{Model, PhantomData};

/// A client's pass: a beginning of the serial list that the client has seen.
#[derive(Drop)]
pub struct Pass<C, K: World> {
    pub(crate) seat: Seat<Entry<C>, View<C>>,
    pub(crate) client: u32,
    pub(crate) known: u64,
    pub(crate) of: PhantomData<K>,
}

impl<C, K: World> Model for Pass<C, K> {
    ghost use Rattle.std.specs.Prelude.{◌≡◌, ◌<◌, [], length, None};
    ghost use Rattle.hy_passes.specs.Worlds.{PassState};

    ghost Value = { PassState C };

    ghost view = { λ p. record { client = p.client; seen = p.seat.me.0.mine.seen; looks = p.seat.me.0.mine.looks } };

    ghost invariant = { λ p. (p.seat.table_id ≡ K.passes.word) × (p.seat.me.1 ≡ []) × (p.seat.me.0.mine.serves ≡ None) × (p.known ≡ length p.seat.me.0.mine.seen) × (p.client < K.passes.clients) };
}

impl<C: Commits, K: World> Pass<C, K> {
    /// The client's number, from 0.
    pub fn client(&self) -> u32
        ensures { result ≡ self.now.client }
    {
        self.client
    }

    /// That the client is one of the kit's.
    pub fn sound(&self)
        ensures { self.now.client < K.passes.clients }
    {
        let _client = self.client;
    }

    /// How many commits the client has seen.
    pub fn known(&self) -> u64
        ensures { result ≡ length self.now.seen }
    {
        self.known
    }

    pub(crate) fn look(&mut self, passes: &Passes<C, K>) -> u64
        ensures looks { self.new.looks ≡ self.old.looks + 1 }
        ensures known { result ≡ length self.new.seen }
        ensures begins { IsPrefix self.old.seen self.new.seen }
        ensures at_least { length self.old.seen ≤ result }
        ensures client { self.new.client ≡ self.old.client }
    {
        self.known = passes.look(&mut self.seat);
        self.known
    }
}
