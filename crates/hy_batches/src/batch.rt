//! Batches.

ghost use Rattle.std.specs.Prelude.{◌≡◌, ◌<◌, [], true, length, map, slice_index_or};
ghost use Rattle.hy_batches.specs.Grammar.{is_batch};

use hy_commands::{Commit, Edition};
use std::marker::Model;

/// The commits of each warehouse, in rising order of warehouse, and the edition of the transactions by which they were
/// done. They are a batch: a list for each of 1 to 16 warehouses, of commits that may stand there in a batch of this edition.
#[derive(Debug, Drop)]
pub struct Batch {
    edition: Edition,
    lists: Vec<Vec<Commit>>,
}

// Clauses see the edition and the commits of each warehouse.
impl Model for Batch {
    ghost use Rattle.std.specs.Prelude.{◌≡◌, true, map};
    ghost use Rattle.hy_batches.specs.Batches.{Batch};
    ghost use Rattle.hy_batches.specs.Grammar.{is_batch};

    ghost Value = { Batch };

    ghost view = { λ batch. record {
      edition = batch.edition;
      lists = map (λ commits. commits.items) batch.lists.items;
    } };

    ghost invariant = { λ batch. is_batch (record {
      edition = batch.edition;
      lists = map (λ commits. commits.items) batch.lists.items;
    }) ≡ true };
}

impl Batch {
    /// These commits of each warehouse, of this edition. They have to be a batch.
    pub fn new(edition: Edition, lists: Vec<Vec<Commit>>) -> Batch
        requires { is_batch (record { edition = edition; lists = map (λ commits. commits.items) lists.items }) ≡ true }
        ensures { result ≡ record { edition = edition; lists = map (λ commits. commits.items) lists.items } }
    {
        Batch { edition, lists }
    }

    /// That it is a batch, whoever made it. Does nothing.
    pub fn sound(&self)
        ensures { is_batch self.now ≡ true }
    {
        let _edition = self.edition;
    }

    /// The edition of its commits.
    pub fn edition(&self) -> Edition
        ensures { result ≡ self.now.edition }
    {
        self.edition
    }

    /// How many warehouses there are.
    pub fn len(&self) -> usize
        ensures { result ≡ length self.now.lists }
    {
        self.lists.len()
    }

    /// The commits of the warehouse at a place, from 0, in order.
    pub fn list(&self, place: usize) -> &[Commit]
        requires { place < length self.now.lists }
        ensures { result.now ≡ slice_index_or self.now.lists place [] }
    {
        self.lists[place].as_slice()
    }

    /// The commits of all warehouses.
    pub(crate) fn lists(&self) -> &[Vec<Commit>]
        ensures { map (λ commits. commits.items) result.now ≡ self.now.lists }
    {
        self.lists.as_slice()
    }
}
