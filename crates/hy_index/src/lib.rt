//! Finite maps from keys to slots on the pages of a space, with their keys in order.
#![tactic(auto)]

ghost use Rattle.std.specs.Prelude.{◌≡◌, ℕ, ◌+◌, ◌^◌, ◌<◌, ◌≤◌, ◌↔◌, ◌⊎◌, [], length, None, IsSome, OnOk, OnErr, IfOk, IsOk, IsErrOf};
ghost use Rattle.hy_frames.specs.FrameTable.{free_of};
ghost use Rattle.hy_space.specs.Space.{page_count};
ghost use Rattle.hy_undo.specs.PrivatePages.{IsUndoLog};
ghost use Rattle.hy_undo.specs.Writes.{HasChild, IsOutOfFrames};
ghost use Rattle.hy_index.specs.Index.{IsInOrder, between, first_from, found, with_entry, without};
ghost use Rattle.hy_index.specs.Writes.{FillsPages, IsIndex, KeepsPagesFor, entries, entries as entries_of, pages_above};
ghost use Rattle.hy_joins.specs.of_nodes.Writes.{WritesSegment, pages_of};

use hy_frames::Shortage;
use hy_joins::hy_nodes::Tree;
use hy_space::Space;
use hy_undo::Undo;
use std::alloc::{AllocError, Global};
use std::marker::{Model, PhantomData};

pub mod codec;
mod edit;
mod key;
mod range;
mod search;

pub use hy_joins::hy_nodes::{KeyBytes, MAX_KEY_BYTES};
pub use key::{Entry, Key};
pub use search::Reads;

// what stands below, for the crates above
pub use hy_joins::hy_nodes;

/// A map from keys to slots, in one segment of a space.
#[derive(Clone, Copy)]
pub struct Index<K> {
    segment: u32,
    keys: PhantomData<K>,
}

// Clauses see the segment.
impl<K> Model for Index<K> {
    ghost Value = { ℕ };

    ghost view = { λ index. index.segment };

    ghost inverse = { λ segment. record { segment = segment; keys = record {} } };
}

impl<K: Key> Index<K> {
    /// The map in a segment.
    pub fn new(segment: u32) -> Index<K>
        ensures { result ≡ segment }
    {
        Index {
            segment,
            keys: PhantomData,
        }
    }

    /// Makes the empty map in a segment that has no page.
    pub fn create<const N: usize>(
        &self,
        space: &mut Space<N>,
        undo: &mut Undo<N>,
    ) -> Result<(), Shortage>
        requires there { self.now < length space.old.owner }
        requires none { page_count space.old self.now ≡ 0 }
        requires undo_log { IsUndoLog N space.old undo.old }
        ensures index { OnOk result
            (IsIndex N K.BYTES K.bytes_of_key K.key_of_bytes K.IsKey (pages_of space.new self.now)) }
        ensures empty { OnOk result (entries N K.BYTES K.key_of_bytes (pages_of space.new self.now) ≡ []) }
        ensures pages { OnOk result (length (pages_of space.new self.now) ≡ 1) }
        ensures writes { WritesSegment N self.now space.old space.new undo.old undo.new }
        ensures full { IsErrOf result Shortage.NoFrame ↔ (free_of space.old.frames ≡ 0) }
        ensures err { OnErr result ((undo.new ≡ undo.old) × (space.new ≡ space.old)) }
    {
        space.sound();
        undo.grow(space, self.segment)?;
        Ok(())
    }

    /// What holds of each map: each key is less than all later ones.
    pub fn know_order<const N: usize>(&self, space: &Space<N>)
        requires there { self.now < length space.now.owner }
        requires index { IsIndex N K.BYTES K.bytes_of_key K.key_of_bytes K.IsKey
            (pages_of space.now self.now) }
        ensures { IsInOrder K.is_less
            (entries N K.BYTES K.key_of_bytes (pages_of space.now self.now)) }
    {}

    /// The slot of a key, if the key is there.
    pub fn find<const N: usize>(&self, space: &Space<N>, key: &K) -> Option<u64>
        requires there { self.now < length space.now.owner }
        requires index { IsIndex N K.BYTES K.bytes_of_key K.key_of_bytes K.IsKey
            (pages_of space.now self.now) }
        ensures { result ≡ found K.is_less key.now
            (entries N K.BYTES K.key_of_bytes (pages_of space.now self.now)) }
    {
        self.find_counted(space, key, &mut Reads::new())
    }

    /// The slot of a key, if the key is there. The pages that are read are counted: they are as many as stand above each
    /// leaf, and 2. Where so many binary digits spell the number of entries, they are no more than 2 and these.
    pub fn find_counted<const N: usize>(
        &self,
        space: &Space<N>,
        key: &K,
        reads: &mut Reads,
    ) -> Option<u64>
        requires there { self.now < length space.now.owner }
        requires index { IsIndex N K.BYTES K.bytes_of_key K.key_of_bytes K.IsKey
            (pages_of space.now self.now) }
        ensures value { result ≡ found K.is_less key.now
            (entries N K.BYTES K.key_of_bytes (pages_of space.now self.now)) }
        ensures counted { reads.old + (pages_above K.BYTES (pages_of space.now self.now) + 2) < 2 ^ 64
            → reads.new ≡ reads.old + (pages_above K.BYTES (pages_of space.now self.now) + 2) }
        ensures reads { (digits : ℕ) → length (entries N K.BYTES K.key_of_bytes (pages_of space.now self.now))
            < 2 ^ digits → reads.new ≤ reads.old + 2 + digits }
    {
        let bytes = bytes_of(key);
        search::slot_of(self.tree(), space, bytes.as_slice(), reads)
    }

    /// The first entry whose key isn't below this one.
    pub fn first_from<const N: usize>(&self, space: &Space<N>, key: &K) -> Option<Entry<K>>
        requires there { self.now < length space.now.owner }
        requires index { IsIndex N K.BYTES K.bytes_of_key K.key_of_bytes K.IsKey
            (pages_of space.now self.now) }
        ensures { result ≡ first_from K.is_less key.now
            (entries N K.BYTES K.key_of_bytes (pages_of space.now self.now)) }
    {
        let bytes = bytes_of(key);
        let tree = self.tree();
        range::first_under(tree, space, 0, tree.height(space), bytes.as_slice())
    }

    /// The entries from one key on that are below another.
    pub fn range<const N: usize>(
        &self,
        alloc: Global,
        space: &Space<N>,
        low: &K,
        high: &K,
    ) -> Result<Vec<Entry<K>>, AllocError>
        requires there { self.now < length space.now.owner }
        requires index { IsIndex N K.BYTES K.bytes_of_key K.key_of_bytes K.IsKey
            (pages_of space.now self.now) }
        ensures { IfOk result (λ all. all.items
            ≡ between K.is_less low.now high.now
            (entries N K.BYTES K.key_of_bytes (pages_of space.now self.now))) }
    {
        let mut entries = Vec::new(alloc);
        self.range_into(space, low, high, &mut entries)?;
        Ok(entries)
    }

    /// The entries from one key on that are below another, in place of what the list had. Takes memory only where the
    /// list has too little room.
    pub fn range_into<const N: usize>(
        &self,
        space: &Space<N>,
        low: &K,
        high: &K,
        entries: &mut Vec<Entry<K>>,
    ) -> Result<(), AllocError>
        requires there { self.now < length space.now.owner }
        requires index { IsIndex N K.BYTES K.bytes_of_key K.key_of_bytes K.IsKey
            (pages_of space.now self.now) }
        ensures { OnOk result (entries.new.items
            ≡ between K.is_less low.now high.now
            (entries_of N K.BYTES K.key_of_bytes (pages_of space.now self.now))) }
    {
        let low_bytes = bytes_of(low);
        let high_bytes = bytes_of(high);
        entries.clear();
        let tree = self.tree();
        range::push_between(
            tree,
            space,
            0,
            tree.height(space),
            low_bytes.as_slice(),
            high_bytes.as_slice(),
            entries,
        )
    }

    /// Gives a key a slot, in the place of the one that it had.
    pub fn insert<const N: usize>(
        &self,
        space: &mut Space<N>,
        undo: &mut Undo<N>,
        key: &K,
        slot: u64,
    ) -> Result<(), Shortage>
        requires there { self.now < length space.old.owner }
        requires index { IsIndex N K.BYTES K.bytes_of_key K.key_of_bytes K.IsKey
            (pages_of space.old self.now) }
        requires undo_log { IsUndoLog N space.old undo.old }
        ensures index { OnOk result
            (IsIndex N K.BYTES K.bytes_of_key K.key_of_bytes K.IsKey (pages_of space.new self.now)) }
        ensures entries { OnOk result (entries N K.BYTES K.key_of_bytes (pages_of space.new self.now)
            ≡ with_entry K.is_less key.now slot
            (entries N K.BYTES K.key_of_bytes (pages_of space.old self.now))) }
        ensures pages { KeepsPagesFor N K.BYTES
            (length (entries N K.BYTES K.key_of_bytes (pages_of space.old self.now)))
            (pages_of space.old self.now) (pages_of space.new self.now) }
        ensures replaces { IsSome (found K.is_less key.now
            (entries N K.BYTES K.key_of_bytes (pages_of space.old self.now)))
            → length (pages_of space.new self.now) ≤ length (pages_of space.old self.now) }
        ensures writes { WritesSegment N self.now space.old space.new undo.old undo.new }
        ensures no_frame { IsErrOf result Shortage.NoFrame → free_of space.new.frames ≡ 0 }
        ensures wanted { IsErrOf result Shortage.NoFrame → HasChild space.new
            ⊎ (found K.is_less key.now
            (entries N K.BYTES K.key_of_bytes (pages_of space.old self.now)) ≡ None)
            × FillsPages N K.BYTES (length (entries N K.BYTES K.key_of_bytes
            (pages_of space.old self.now))) (pages_of space.old self.now) }
    {
        let bytes = bytes_of(key);
        edit::insert(self.tree(), space, undo, bytes.as_slice(), slot)
    }

    /// Takes a key's entry away, if it has one.
    pub fn remove<const N: usize>(
        &self,
        space: &mut Space<N>,
        undo: &mut Undo<N>,
        key: &K,
    ) -> Result<(), Shortage>
        requires there { self.now < length space.old.owner }
        requires index { IsIndex N K.BYTES K.bytes_of_key K.key_of_bytes K.IsKey
            (pages_of space.old self.now) }
        requires undo_log { IsUndoLog N space.old undo.old }
        ensures index { OnOk result
            (IsIndex N K.BYTES K.bytes_of_key K.key_of_bytes K.IsKey (pages_of space.new self.now)) }
        ensures entries { OnOk result (entries N K.BYTES K.key_of_bytes (pages_of space.new self.now)
            ≡ without K.is_less key.now
            (entries N K.BYTES K.key_of_bytes (pages_of space.old self.now))) }
        ensures absent { found K.is_less key.now
            (entries N K.BYTES K.key_of_bytes (pages_of space.old self.now)) ≡ None
            → IsOk result × (space.new ≡ space.old) × (undo.new ≡ undo.old) }
        ensures pages { length (pages_of space.new self.now) ≤ length (pages_of space.old self.now) }
        ensures writes { WritesSegment N self.now space.old space.new undo.old undo.new }
        ensures no_frame { IsErrOf result Shortage.NoFrame → IsOutOfFrames space.new }
    {
        let bytes = bytes_of(key);
        edit::remove(self.tree(), space, undo, bytes.as_slice())
    }

    /// The pages.
    fn tree(&self) -> Tree
        ensures { result ≡ record { segment = self.now; key_bytes = K.BYTES } }
    {
        Tree {
            segment: self.segment,
            key_bytes: K::BYTES,
        }
    }
}

/// The bytes of a key.
fn bytes_of<K: Key>(key: &K) -> KeyBytes
    ensures bytes { result.items ≡ K.bytes_of_key key.now }
    ensures is_key { K.IsKey key.now }
{
    let mut bytes = KeyBytes::new();
    key.encode(&mut bytes);
    bytes
}
