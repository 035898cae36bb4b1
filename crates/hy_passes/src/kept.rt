//! A partition's kept list, beside the seat that ties it to the serial list.

ghost use Rattle.std.specs.Prelude.{◌≡◌, ℕ, suc, ◌+◌, ◌-◌, ◌≤◌, ◌<◌, ◌==◌, [], ◌∷◌, ◌++◌, filter, length, not, None, OnOk};
ghost use mathlib.Core.List.{IsPrefix};
ghost use Rattle.hy_worlds.specs.Origins.{replayed_of};
ghost use Rattle.hy_passes.specs.SerialList.{kept_of, max_commits};

use crate::entry::{Commits, Entry};
use crate::journal::{Journal, SerialList};
use crate::pass::Pass;
use crate::seat::SerialSeat;
use hy_worlds::World;
use std::alloc::{AllocError, Global};
use std::marker::Model;
use std::snapshot::Snapshot as Noted;

/// The commits that a partition keeps: those of the serial list that name its warehouse, as far as it has been told.
#[derive(Drop)]
pub struct KeptList<C: Commits, K: World> {
    seat: SerialSeat<C, K>,
    kept: Vec<C>,
}

impl<C: Commits, K: World> Model for KeptList<C, K> {
    ghost use Rattle.std.specs.Prelude.{◌≡◌, ◌-◌, length, vec_capacity};
    ghost use Rattle.hy_passes.specs.SerialList.{kept_of};
    ghost use Rattle.hy_passes.specs.Worlds.{KeptState};

    ghost Value = { KeptState C };

    ghost view = { λ l. record { warehouse = l.seat.warehouse; seen = l.seat.seen; room = vec_capacity l.kept - length l.kept.items } };

    ghost invariant = { λ l. l.kept.items ≡ kept_of C.warehouses l.seat.warehouse l.seat.seen };
}

impl<C: Commits, K: World> KeptList<C, K> {
    /// Nothing is kept yet.
    pub fn new(alloc: Global, seat: SerialSeat<C, K>) -> KeptList<C, K>
        requires { seat.seen ≡ [] }
        ensures { (result.warehouse ≡ seat.warehouse) × (result.seen ≡ []) }
    {
        KeptList {
            seat,
            kept: Vec::new(alloc),
        }
    }

    /// The partition's warehouse.
    pub fn warehouse(&self) -> u8
        ensures warehouse { result ≡ self.now.warehouse }
        ensures range { (1 ≤ result) × (result ≤ K.passes.partitions) }
    {
        self.seat.warehouse()
    }

    /// How many commits of the warehouse come from a log.
    pub fn replayed(&self) -> u64
        ensures { result ≡ replayed_of K.passes self.now.warehouse }
    {
        self.seat.replayed()
    }

    /// The commits, in their order.
    pub fn list(&self) -> &[C]
        ensures { result.now ≡ kept_of C.warehouses self.now.warehouse self.now.seen }
    {
        self.kept.as_slice()
    }

    /// What is kept now, for proofs alone.
    pub fn noted(&self) -> Noted<Vec<C>>
        ensures { result.value.items ≡ kept_of C.warehouses self.now.warehouse self.now.seen }
    {
        Noted::of(&self.kept)
    }

    /// Makes room for one more commit. E1.
    pub fn reserve(&mut self) -> Result<(), AllocError>
        ensures same { self.new ≡ record self.old { room = self.new.room } }
        ensures room { OnOk result (1 ≤ self.new.room) }
    {
        self.kept.reserve(1)
    }

    /// A commit of this warehouse alone enters the serial list and this one, and the client is told. It takes no memory.
    pub fn commit(&mut self, journal: &mut Journal<C, K>, pass: &mut Pass<C, K>, entry: Entry<C>)
        requires alone { C.warehouses entry.commit ≡ self.old.warehouse ∷ [] }
        requires unnumbered { C.number entry.commit ≡ None }
        requires stamped { entry.stamp ≤ length pass.old.seen }
        requires few { length (kept_of C.warehouses self.old.warehouse self.old.seen) < max_commits }
        requires room { 1 ≤ self.old.room }
        ensures log { journal.new.list.log ≡ journal.old.list.log ++ entry ∷ [] }
        ensures warehouse { self.new.warehouse ≡ self.old.warehouse }
        ensures seen { (self.new.seen ≡ journal.new.list.log) × IsPrefix self.old.seen journal.old.list.log }
        ensures kept { kept_of C.warehouses self.old.warehouse self.new.seen ≡ kept_of C.warehouses self.old.warehouse self.old.seen ++ entry.commit ∷ [] }
        ensures client { (pass.new.client ≡ pass.old.client) × (pass.new.looks ≡ pass.old.looks) }
        ensures pass { (pass.new.seen ≡ journal.new.list.log) × IsPrefix pass.old.seen journal.old.list.log }
    {
        journal.commit(&mut self.seat, pass, &entry);
        self.kept.push_reserved(entry.commit);
    }

    /// Tells the list of all commits. It lacked none.
    pub fn tell(&mut self, journal: &mut Journal<C, K>)
        ensures log { journal.new.list.log ≡ journal.old.list.log }
        ensures same { (self.new.warehouse ≡ self.old.warehouse) × (self.new.room ≡ self.old.room) }
        ensures seen { (self.new.seen ≡ journal.old.list.log) × IsPrefix self.old.seen journal.old.list.log }
        ensures kept { kept_of C.warehouses self.old.warehouse self.new.seen ≡ kept_of C.warehouses self.old.warehouse self.old.seen }
    {
        journal.tell(&mut self.seat);
    }

    /// A commit that has just entered the serial list, and names several warehouses, enters this one.
    pub fn enter(&mut self, list: &mut SerialList<C, K>, commit: C)
        requires last { kept_of C.warehouses self.old.warehouse list.old.log ≡ kept_of C.warehouses self.old.warehouse self.old.seen ++ commit ∷ [] }
        requires room { 1 ≤ self.old.room }
        ensures log { list.new.log ≡ list.old.log }
        ensures behind { list.new.behind ≡ filter (λ w. not (w == self.old.warehouse)) list.old.behind }
        ensures warehouse { self.new.warehouse ≡ self.old.warehouse }
        ensures seen { (self.new.seen ≡ list.old.log) × IsPrefix self.old.seen list.old.log }
    {
        list.tell(&mut self.seat);
        self.kept.push_reserved(commit);
    }
}
