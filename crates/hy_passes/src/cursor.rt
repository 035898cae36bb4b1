//! A place in the serial list.

ghost use Rattle.std.specs.Prelude.{◌≡◌, ℕ, ◌≤◌, IfOk, length, take};
ghost use mathlib.Core.List.{IsPrefix};
ghost use Rattle.hy_worlds.specs.Origins.{replayed_of};
ghost use Rattle.hy_passes.specs.SerialList.{kept_of};

use crate::entry::Commits;
use crate::journal::Journal;
use crate::pass::Pass;
use hy_worlds::World;
use std::alloc::{AllocError, Global};
use std::marker::Model;

/// A place in the serial list, up to which its commits were handed on: how many these are, and how many of each warehouse.
/// It stands behind all that come from a log. Only its owner moves it.
#[derive(Drop)]
pub struct Cursor<C: Commits, K: World> {
    pass: Pass<C, K>,
    size: u64,
    counts: Vec<u64>,
}

// Clauses see the beginning of the list that ends there.
impl<C: Commits, K: World> Model for Cursor<C, K> {
    ghost use Rattle.std.specs.Prelude.{List, length, take, ◌≤◌};
    ghost use Rattle.hy_passes.specs.declared.entry.Entry.{Entry};
    ghost use Rattle.hy_passes.specs.Inside.{IsPassed};

    ghost Value = { List (Entry C) };

    ghost view = { λ c. take c.size c.pass.seen };

    ghost invariant = { λ c. (c.size ≤ length c.pass.seen) × IsPassed C.warehouses K.passes (take c.size c.pass.seen) c.counts.items };
}

impl<C: Commits, K: World> Cursor<C, K> {
    /// The end of the serial list, behind all that comes from a log. E1.
    pub fn new(
        alloc: Global,
        mut pass: Pass<C, K>,
        journal: &mut Journal<C, K>,
    ) -> Result<Cursor<C, K>, AllocError>
        requires replayed { (warehouse : ℕ) → 1 ≤ warehouse → warehouse ≤ K.passes.partitions
            → replayed_of K.passes warehouse ≤ length (kept_of C.warehouses warehouse journal.old.list.log) }
        ensures made { IfOk result (λ cursor. cursor ≡ journal.old.list.log) }
        ensures log { journal.new.list.log ≡ journal.old.list.log }
    {
        journal.tell_client(&mut pass);
        let counts = Vec::from_slice(alloc, journal.list.counts())?;
        Ok(Cursor {
            size: pass.known(),
            pass,
            counts,
        })
    }

    /// How many commits of a warehouse stand before the place.
    pub fn passed(&self, warehouse: u8) -> u64
        requires { (1 ≤ warehouse) × (warehouse ≤ K.passes.partitions) }
        ensures passed { result ≡ length (kept_of C.warehouses warehouse self.now) }
        ensures replayed { replayed_of K.passes warehouse ≤ result }
    {
        self.counts[warehouse as usize - 1]
    }

    /// That what stands before the place begins the serial list. Moves nothing, and takes no memory.
    pub fn find(&mut self, journal: &mut Journal<C, K>)
        ensures same { self.new ≡ self.old }
        ensures begins { IsPrefix self.old journal.old.list.log }
        ensures log { journal.new.list.log ≡ journal.old.list.log }
    {
        journal.tell_client(&mut self.pass);
    }

    /// Moves to the end of the serial list, which begins with what stood before the place. Takes no memory.
    pub fn advance(&mut self, journal: &mut Journal<C, K>)
        ensures moved { self.new ≡ journal.old.list.log }
        ensures begins { IsPrefix self.old journal.old.list.log }
        ensures log { journal.new.list.log ≡ journal.old.list.log }
    {
        journal.tell_client(&mut self.pass);
        self.size = self.pass.known();
        self.counts.copy_from_slice(journal.list.counts());
    }
}
