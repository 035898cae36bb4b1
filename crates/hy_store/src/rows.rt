//! The rows of the tables, each at a place of its list, and the slots of NEW-ORDER.

ghost use Rattle.std.specs.Prelude.{◌≡◌, ◌+◌, ◌<◌, ◌++◌, ◌∷◌, [], false, Some, IfOk, OnOk, IsErrOf, length, map, slice_get, slice_set};
ghost use Rattle.std.specs.Option.{option_map};
ghost use Rattle.hy_frames.specs.FrameTable.{free_of};
ghost use Rattle.hy_rows.specs.Spelling.{HasTables, is_spanned, live_rows, tables_of};
ghost use Rattle.hy_store.specs.Stored.{new_order_segment};
ghost use Rattle.hy_space.specs.Space.{owner_bytes};
ghost use Rattle.hy_undo.specs.Writes.{IsOutOfFrames};
ghost use Rattle.hy_relation.specs.Relation.{HasRelation, IsLive, relation_slots};
ghost use Rattle.hy_store.specs.Changes.{with_new_order, without_new_order};
ghost use Rattle.hy_store.specs.Pages.{KeepsPagesUpTo};
ghost use Rattle.hy_store.specs.Stored.{HasStore};
ghost use Rattle.hy_store.specs.Writes.{ChangesStore, IsWritableStore, WritesStore, stored_in};

use hy_frames::Shortage;
use hy_relation::Relation;
use hy_rows::{FixedRow, Lasting, NewOrder, Part, Row, WrittenPart};
use hy_space::Space;
use hy_undo::Undo;

/// What the pages of a store are: that all tables are there, as what they say has them.
pub fn know_store<const N: usize>(space: &Space<N>)
    requires { HasStore N (owner_bytes space.now) }
    ensures tables { HasTables N (owner_bytes space.now) }
    ensures rows { (stored_in N space.now).tables ≡ tables_of N (owner_bytes space.now) }
    ensures new_orders { (stored_in N space.now).tables.new_orders
        ≡ live_rows (stored_in N space.now).new_order_slots }
{}

/// The segment of each table is a relation.
fn know_relation<R: Row, const N: usize>(_space: &Space<N>)
    requires { HasStore N (owner_bytes _space.now) }
    ensures { HasRelation N R.SEGMENT R.BYTES _space.now }
{}

/// Where a table never loses a row, each of its slots has one.
fn know_rows<R: Lasting, const N: usize>(_space: &Space<N>)
    requires { HasStore N (owner_bytes _space.now) }
    ensures relation { HasRelation N R.SEGMENT R.BYTES _space.now }
    ensures slots { relation_slots N R.SEGMENT R.BYTES R.row_of_bytes _space.now
        ≡ map Some (R.rows_in (stored_in N _space.now).tables) }
{}

/// The row at a place of its table.
pub fn row_at<R: Lasting + FixedRow, const N: usize>(space: &Space<N>, place: u64) -> R
    requires store { HasStore N (owner_bytes space.now) }
    requires there { place < length (R.rows_in (stored_in N space.now).tables) }
    ensures { slice_get (R.rows_in (stored_in N space.now).tables) place ≡ Some result }
{
    know_rows::<R, N>(space);
    match Relation::<R>::new().get(space, place) {
        Some(row) => row,
        None => unreachable!(),
    }
}

/// Some columns of the row at a place of its table.
pub fn part_at<R: Lasting, P: Part<R>, const N: usize>(space: &Space<N>, place: u64) -> P
    requires store { HasStore N (owner_bytes space.now) }
    requires there { place < length (R.rows_in (stored_in N space.now).tables) }
    ensures { option_map P.part_of (slice_get (R.rows_in (stored_in N space.now).tables) place) ≡ Some result }
{
    know_rows::<R, N>(space);
    match Relation::<R>::new().part::<P, N>(space, place) {
        Some(part) => part,
        None => unreachable!(),
    }
}

/// The bytes of the row at a place of its table, whose slots aren't spanned.
pub fn row_bytes_at<R: Lasting, const N: usize>(space: &Space<N>, place: u64) -> &[u8]
    requires unspanned { is_spanned R.BYTES ≡ false }
    requires store { HasStore N (owner_bytes space.now) }
    requires there { place < length (R.rows_in (stored_in N space.now).tables) }
    ensures row { slice_get (R.rows_in (stored_in N space.now).tables) place ≡ Some (R.row_of_bytes result.now) }
    ensures width { length result.now ≡ R.BYTES }
{
    know_rows::<R, N>(space);
    match Relation::<R>::new().bytes(space, place) {
        Some(bytes) => bytes,
        None => unreachable!(),
    }
}

/// Looks at the row at a place, if there is one, and so has the processor fetch it. The number says nothing.
pub fn glance_at<R: Lasting, const N: usize>(space: &Space<N>, place: u64) -> u64
    requires { HasStore N (owner_bytes space.now) }
{
    know_relation::<R, N>(space);
    Relation::<R>::new().glance(space, place)
}

/// Puts a row in the place of another.
pub fn put_row<R: Lasting, const N: usize>(
    space: &mut Space<N>,
    undo: &mut Undo<N>,
    place: u64,
    row: &R,
) -> Result<(), Shortage>
    requires writable { IsWritableStore N space.old undo.old }
    requires there { place < length (R.rows_in (stored_in N space.old).tables) }
    ensures put { OnOk result (ChangesStore N space.old space.new (λ old. record old {
      tables = R.with_rows old.tables (slice_set (R.rows_in old.tables) place row.now);
    })) }
    ensures writes { WritesStore N space.old space.new undo.old undo.new }
    ensures no_frame { IsErrOf result Shortage.NoFrame → IsOutOfFrames space.new }
{
    know_rows::<R, N>(space);
    Relation::<R>::new().put(space, undo, place, row)
}

/// Puts other values of some columns into the row at a place.
pub fn put_part<R: Lasting, P: WrittenPart<R>, const N: usize>(
    space: &mut Space<N>,
    undo: &mut Undo<N>,
    place: u64,
    part: &P,
) -> Result<(), Shortage>
    requires writable { IsWritableStore N space.old undo.old }
    requires there { place < length (R.rows_in (stored_in N space.old).tables) }
    ensures put { OnOk result ((row : R) → slice_get (R.rows_in (stored_in N space.old).tables) place ≡ Some row
        → ChangesStore N space.old space.new (λ old. record old {
          tables = R.with_rows old.tables (slice_set (R.rows_in old.tables) place (P.with_part row part.now));
        })) }
    ensures writes { WritesStore N space.old space.new undo.old undo.new }
    ensures no_frame { IsErrOf result Shortage.NoFrame → IsOutOfFrames space.new }
{
    know_rows::<R, N>(space);
    Relation::<R>::new().put_part::<P, N>(space, undo, place, part)
}

/// Adds a row behind those of its table, and answers its place.
pub fn push_row<R: Lasting, const N: usize>(
    space: &mut Space<N>,
    undo: &mut Undo<N>,
    row: &R,
) -> Result<u64, Shortage>
    requires { IsWritableStore N space.old undo.old }
    ensures pushed { OnOk result (ChangesStore N space.old space.new (λ old. record old {
      tables = R.with_rows old.tables (R.rows_in old.tables ++ row.now ∷ []);
    })) }
    ensures place { IfOk result (λ place. place ≡ length (R.rows_in (stored_in N space.old).tables)) }
    ensures writes { WritesStore N space.old space.new undo.old undo.new }
    ensures pages { KeepsPagesUpTo N R.SEGMENT (length (R.rows_in (stored_in N space.old).tables) + 1)
        space.old space.new }
    ensures no_frame { IsErrOf result Shortage.NoFrame → free_of space.new.frames ≡ 0 }
{
    know_rows::<R, N>(space);
    Relation::<R>::new().push(space, undo, row)
}

/// Adds a row to NEW-ORDER, and answers its slot.
pub fn push_new_order<const N: usize>(
    space: &mut Space<N>,
    undo: &mut Undo<N>,
    row: &NewOrder,
) -> Result<u64, Shortage>
    requires { IsWritableStore N space.old undo.old }
    ensures pushed { OnOk result (ChangesStore N space.old space.new (with_new_order row.now)) }
    ensures slot { IfOk result (λ slot. slot ≡ length (stored_in N space.old).new_order_slots) }
    ensures writes { WritesStore N space.old space.new undo.old undo.new }
    ensures pages { KeepsPagesUpTo N new_order_segment (length (stored_in N space.old).new_order_slots + 1)
        space.old space.new }
    ensures no_frame { IsErrOf result Shortage.NoFrame → free_of space.new.frames ≡ 0 }
{
    know_relation::<NewOrder, N>(space);
    Relation::<NewOrder>::new().push(space, undo, row)
}

/// Erases the row of a slot of NEW-ORDER that has one.
pub fn erase_new_order<const N: usize>(
    space: &mut Space<N>,
    undo: &mut Undo<N>,
    slot: u64,
) -> Result<(), Shortage>
    requires writable { IsWritableStore N space.old undo.old }
    requires live { IsLive (stored_in N space.old).new_order_slots slot }
    ensures erased { OnOk result (ChangesStore N space.old space.new (without_new_order slot)) }
    ensures writes { WritesStore N space.old space.new undo.old undo.new }
    ensures no_frame { IsErrOf result Shortage.NoFrame → IsOutOfFrames space.new }
{
    know_relation::<NewOrder, N>(space);
    Relation::<NewOrder>::new().erase(space, undo, slot)
}
