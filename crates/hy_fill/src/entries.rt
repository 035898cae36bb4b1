//! The entries of an index, from the rows of a load.

ghost use Rattle.std.specs.Prelude.{◌≡◌, ◌+◌, [], IfOk, OnOk, IsErrOf, filter, length, slice_get};
ghost use Rattle.hy_frames.specs.FrameTable.{free_of};
ghost use Rattle.hy_undo.specs.PrivatePages.{IsUndoLog};
ghost use Rattle.hy_indexes.specs.of_index.Index.{with_entry};
ghost use Rattle.hy_indexes.specs.of_store.Pages.{KeepsPagesUpTo};
ghost use Rattle.hy_indexes.specs.of_store.Writes.{ChangesStore, IsWritableStore, stored_in};
ghost use Rattle.hy_layout.specs.Layout.{own_rows};
ghost use Rattle.hy_indexes.specs.Finds.{IsIndexOf};
ghost use Rattle.hy_fill.specs.Frames.{most_of};
ghost use Rattle.hy_fill.specs.inside.Filling.{HasOneSlotEach, HasSameEntries, StaysOpen, StaysWithin, TellsApart, with_row};

use crate::keys::{Filled, Keyed};
use hy_frames::Shortage;
use hy_indexes::hy_index::Entry;
use hy_indexes::hy_store::insert_entry;
use hy_layout::Layout;
use hy_space::Space;
use hy_undo::Undo;
use std::alloc::{AllocError, Global};

/// Gives an index without entries those of a warehouse's rows.
pub(crate) fn fill_index<K: Filled, R: Keyed<K>, const N: usize>(
    alloc: Global,
    space: &mut Space<N>,
    undo: &mut Undo<N>,
    layout: &Layout,
) -> Result<(), Shortage>
    requires writable { IsWritableStore N space.old undo.old }
    requires empty { K.entries_in (stored_in N space.old) ≡ [] }
    requires apart { TellsApart R.key_of (slice_get (R.rows_in (own_rows layout.now))) }
    requires counted { most_of (own_rows layout.now) K.SEGMENT ≡ length (R.rows_in (own_rows layout.now)) }
    ensures index { OnOk result (IsIndexOf R.key_of (slice_get (R.rows_in (own_rows layout.now)))
        (K.entries_in (stored_in N space.new))) }
    ensures only { OnOk result (stored_in N space.new
        ≡ K.with_entries (stored_in N space.old) (K.entries_in (stored_in N space.new))) }
    ensures writable { OnOk result (IsWritableStore N space.new undo.new) }
    ensures stays { StaysOpen space.old space.new }
    ensures pages { StaysWithin N (own_rows layout.now) space.old space.new }
    ensures no_frame { IsErrOf result Shortage.NoFrame → free_of space.new.frames ≡ 0 }
{
    let entries = entries_of::<K, R>(alloc, layout)?;
    insert_entries(space, undo, entries.as_slice())
}

/// The entries of a warehouse's rows, sorted by their keys.
pub(crate) fn entries_of<K: Filled, R: Keyed<K>>(
    alloc: Global,
    layout: &Layout,
) -> Result<Vec<Entry<K>>, AllocError>
    ensures index { IfOk result (λ entries. IsIndexOf R.key_of
        (slice_get (R.rows_in (own_rows layout.now))) entries.items) }
    ensures count { IfOk result (λ entries. length entries.items ≡ length (R.rows_in (own_rows layout.now))) }
{
    let rows = layout.load().tables().list::<R>();
    let mut entries = unsorted_entries(alloc, rows, layout.warehouse())?;
    entries.sort_unstable_by(|one, other| one.key.compare(&other.key));
    Ok(entries)
}

/// The entries of a warehouse's rows, in the order of the rows.
fn unsorted_entries<K: Filled, R: Keyed<K>>(
    alloc: Global,
    rows: &[R],
    warehouse: u8,
) -> Result<Vec<Entry<K>>, AllocError>
    ensures index { IfOk result (λ entries. IsIndexOf R.key_of
        (slice_get (filter (R.is_of warehouse) rows.now)) entries.items) }
    ensures count { IfOk result (λ entries. length entries.items
        ≡ length (filter (R.is_of warehouse) rows.now)) }
{
    let mut entries = Vec::new(alloc);
    for row in rows {
        add_entry(&mut entries, row, warehouse)?;
    }
    Ok(entries)
}

/// Adds the entry of a row, if it belongs to a warehouse.
fn add_entry<K: Filled, R: Keyed<K>>(
    entries: &mut Vec<Entry<K>>,
    row: &R,
    warehouse: u8,
) -> Result<(), AllocError>
    ensures { OnOk result (entries.new.items
        ≡ with_row R.key_of (R.is_of warehouse) row.now entries.old.items) }
{
    if !row.belongs_to(warehouse) {
        return Ok(());
    }
    let slot = entries.len() as u64;
    entries.push(Entry {
        key: row.key(),
        slot,
    })?;
    Ok(())
}

/// Gives an index without entries these.
fn insert_entries<K: Filled, const N: usize>(
    space: &mut Space<N>,
    undo: &mut Undo<N>,
    entries: &[Entry<K>],
) -> Result<(), Shortage>
    requires writable { IsWritableStore N space.old undo.old }
    requires empty { K.entries_in (stored_in N space.old) ≡ [] }
    requires apart { HasOneSlotEach entries.now }
    ensures same { OnOk result (HasSameEntries entries.now (K.entries_in (stored_in N space.new))) }
    ensures only { OnOk result (ChangesStore N space.old space.new
        (λ old. K.with_entries old (K.entries_in (stored_in N space.new)))) }
    ensures undo_log { OnOk result (IsUndoLog N space.new undo.new) }
    ensures stays { StaysOpen space.old space.new }
    ensures pages { KeepsPagesUpTo N K.SEGMENT (length entries.now)
        space.old space.new }
    ensures no_frame { IsErrOf result Shortage.NoFrame → free_of space.new.frames ≡ 0 }
{
    for entry in entries {
        insert_lasting(space, undo, entry)?;
    }
    Ok(())
}

/// Gives a key a slot, in the place of the one that it had, and lets it stand.
pub(crate) fn insert_lasting<K: Filled, const N: usize>(
    space: &mut Space<N>,
    undo: &mut Undo<N>,
    entry: &Entry<K>,
) -> Result<(), Shortage>
    requires { IsWritableStore N space.old undo.old }
    ensures inserted { OnOk result (ChangesStore N space.old space.new
        (λ old. K.with_entries old (with_entry K.is_less entry.now.key entry.now.slot (K.entries_in old)))) }
    ensures undo_log { OnOk result (IsUndoLog N space.new undo.new) }
    ensures stays { StaysOpen space.old space.new }
    ensures pages { KeepsPagesUpTo N K.SEGMENT (length (K.entries_in (stored_in N space.old)) + 1)
        space.old space.new }
    ensures no_frame { IsErrOf result Shortage.NoFrame → free_of space.new.frames ≡ 0 }
{
    insert_entry(space, undo, &entry.key, entry.slot)?;
    undo.commit(space);
    Ok(())
}
