//! The indexes of a store.

ghost use Rattle.std.specs.Prelude.{◌≡◌, ℕ, ◌+◌, ◌<◌, ◌≤◌, List, OnOk, IsErrOf, length, slice_set};
ghost use Rattle.hy_frames.specs.FrameTable.{free_of};
ghost use Rattle.hy_index.specs.declared.key.Entry.{Entry};
ghost use Rattle.hy_index.specs.Index.{IsInOrder, between, first_from, found, with_entry, without};
ghost use Rattle.hy_index.specs.Writes.{IsIndex, entries as entries_of};
ghost use Rattle.hy_index.specs.of_nodes.Writes.{pages_of};
ghost use Rattle.hy_rows.specs.Spelling.{list_at};
ghost use Rattle.hy_rows.specs.Catalogue.{segments};
ghost use Rattle.hy_space.specs.Space.{owner_bytes};
ghost use Rattle.hy_undo.specs.Writes.{IsOutOfFrames};
ghost use Rattle.hy_store.specs.Pages.{IsIndexAt, KeepsPagesUpTo};
ghost use Rattle.hy_store.specs.Stored.{HasIndexSegments, HasStore, Stored, all_segments, stored};
ghost use Rattle.hy_store.specs.Writes.{ChangesStore, IsWritableStore, WritesStore, stored_in};

use hy_frames::Shortage;
use hy_index::{Entry, Index, Key};
use hy_space::Space;
use hy_undo::Undo;
use std::alloc::AllocError;

/// A key of one of the store's indexes.
pub trait Indexed: Key {
    /// The segment of the index.
    const SEGMENT: u32;

    ghost SEGMENT: { ℕ };

    /// The entries of the index.
    ghost entries_in: { Stored → List (Entry Self) };

    /// The same store with other entries in it.
    ghost with_entries: { Stored → List (Entry Self) → Stored };

    /// The segment is one of those behind the tables', and has keys of this width.
    ghost is_index_at: { IsIndexAt SEGMENT Self.Key.BYTES };

    ghost behind: { segments ≤ SEGMENT };

    ghost within: { SEGMENT < all_segments };

    /// The pages of the segment are an index, and say these entries.
    ghost is_index: { (n : ℕ) (bytes : List (List (List ℕ))) → HasIndexSegments n bytes
        → IsIndex n Self.Key.BYTES Self.Key.bytes_of_key Self.Key.key_of_bytes Self.Key.IsKey (list_at bytes SEGMENT) };

    ghost said: { (n : ℕ) (bytes : List (List (List ℕ))) → entries_in (stored n bytes)
        ≡ entries_of n Self.Key.BYTES Self.Key.key_of_bytes (list_at bytes SEGMENT) };

    /// Where the segment has other pages, which are an index, this index has their entries, and nothing else changes.
    ghost indexed_again: { (n : ℕ) (bytes : List (List (List ℕ))) (pages : List (List ℕ))
        → all_segments ≤ length bytes → HasIndexSegments n bytes
        → IsIndex n Self.Key.BYTES Self.Key.bytes_of_key Self.Key.key_of_bytes Self.Key.IsKey pages
        → HasIndexSegments n (slice_set bytes SEGMENT pages) };

    ghost said_again: { (n : ℕ) (bytes : List (List (List ℕ))) (pages : List (List ℕ))
        → all_segments ≤ length bytes → stored n (slice_set bytes SEGMENT pages)
        ≡ with_entries (stored n bytes) (entries_of n Self.Key.BYTES Self.Key.key_of_bytes pages) };
}

/// The index of a key.
fn index_in<K: Indexed, const N: usize>(_space: &Space<N>) -> Index<K>
    requires { HasStore N (owner_bytes _space.now) }
    ensures segment { result ≡ K.SEGMENT }
    ensures there { result < length _space.now.owner }
    ensures index { IsIndex N K.BYTES K.bytes_of_key K.key_of_bytes K.IsKey (pages_of _space.now result) }
    ensures entries { entries_of N K.BYTES K.key_of_bytes (pages_of _space.now result)
        ≡ K.entries_in (stored_in N _space.now) }
{
    Index::new(K::SEGMENT)
}

/// Each key of an index is less than all later ones.
pub fn know_entries<K: Indexed, const N: usize>(space: &Space<N>)
    requires { HasStore N (owner_bytes space.now) }
    ensures { IsInOrder K.is_less (K.entries_in (stored_in N space.now)) }
{
    index_in::<K, N>(space).know_order(space);
}

/// The slot of a key, if the key is there.
pub fn find_slot<K: Indexed, const N: usize>(space: &Space<N>, key: &K) -> Option<u64>
    requires { HasStore N (owner_bytes space.now) }
    ensures { result ≡ found K.is_less key.now (K.entries_in (stored_in N space.now)) }
{
    index_in::<K, N>(space).find(space, key)
}

/// The first entry whose key isn't below this one.
pub fn first_entry<K: Indexed, const N: usize>(space: &Space<N>, key: &K) -> Option<Entry<K>>
    requires { HasStore N (owner_bytes space.now) }
    ensures { result ≡ first_from K.is_less key.now (K.entries_in (stored_in N space.now)) }
{
    index_in::<K, N>(space).first_from(space, key)
}

/// Reads the entries from one key on that are below another, in place of what the list had. Takes memory only where the
/// list has too little room.
pub fn read_entries<K: Indexed, const N: usize>(
    space: &Space<N>,
    low: &K,
    high: &K,
    entries: &mut Vec<Entry<K>>,
) -> Result<(), AllocError>
    requires { HasStore N (owner_bytes space.now) }
    ensures { OnOk result (entries.new.items
        ≡ between K.is_less low.now high.now (K.entries_in (stored_in N space.now))) }
{
    index_in::<K, N>(space).range_into(space, low, high, entries)
}

/// Gives a key a slot, in the place of the one that it had.
pub fn insert_entry<K: Indexed, const N: usize>(
    space: &mut Space<N>,
    undo: &mut Undo<N>,
    key: &K,
    slot: u64,
) -> Result<(), Shortage>
    requires { IsWritableStore N space.old undo.old }
    ensures inserted { OnOk result (ChangesStore N space.old space.new
        (λ old. K.with_entries old (with_entry K.is_less key.now slot (K.entries_in old)))) }
    ensures writes { WritesStore N space.old space.new undo.old undo.new }
    ensures pages { KeepsPagesUpTo N K.SEGMENT (length (K.entries_in (stored_in N space.old)) + 1)
        space.old space.new }
    ensures no_frame { IsErrOf result Shortage.NoFrame → free_of space.new.frames ≡ 0 }
{
    index_in::<K, N>(space).insert(space, undo, key, slot)
}

/// Takes a key's entry away, if it has one.
pub fn remove_entry<K: Indexed, const N: usize>(
    space: &mut Space<N>,
    undo: &mut Undo<N>,
    key: &K,
) -> Result<(), Shortage>
    requires { IsWritableStore N space.old undo.old }
    ensures removed { OnOk result (ChangesStore N space.old space.new
        (λ old. K.with_entries old (without K.is_less key.now (K.entries_in old)))) }
    ensures writes { WritesStore N space.old space.new undo.old undo.new }
    ensures no_frame { IsErrOf result Shortage.NoFrame → IsOutOfFrames space.new }
{
    index_in::<K, N>(space).remove(space, undo, key)
}
