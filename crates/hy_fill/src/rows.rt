//! The rows of a warehouse, of those of a load.

ghost use Rattle.std.specs.Prelude.{◌≡◌, ◌==◌, ◌+◌, ◌∷◌, [], OnOk, IsErrOf, filter, length};
ghost use Rattle.hy_frames.specs.FrameTable.{free_of};
ghost use Rattle.hy_indexes.specs.of_store.Stored.{new_order_segment};
ghost use Rattle.hy_undo.specs.PrivatePages.{IsUndoLog};
ghost use Rattle.hy_indexes.specs.of_store.Pages.{KeepsPagesUpTo};
ghost use Rattle.hy_indexes.specs.of_store.Writes.{ChangesStore, IsWritableStore, stored_in};
ghost use Rattle.hy_layout.specs.Layout.{own_rows};
ghost use Rattle.hy_fill.specs.inside.Filling.{StaysOpen, StaysWithin, with_more, with_new_orders, with_table};

use hy_frames::Shortage;
use hy_indexes::hy_store::{push_new_order, push_row};
use hy_layout::Layout;
use hy_rows::{Lasting, NewOrder, Row};
use hy_space::Space;
use hy_undo::Undo;

/// Gives a table without rows those of a warehouse.
pub(crate) fn fill_table<R: Lasting, const N: usize>(
    space: &mut Space<N>,
    undo: &mut Undo<N>,
    layout: &Layout,
) -> Result<(), Shortage>
    requires writable { IsWritableStore N space.old undo.old }
    requires empty { R.rows_in (stored_in N space.old).tables ≡ [] }
    ensures writable { OnOk result (IsWritableStore N space.new undo.new) }
    ensures rows { OnOk result (stored_in N space.new
        ≡ with_table R.with_rows (R.rows_in (own_rows layout.now)) (stored_in N space.old)) }
    ensures stays { StaysOpen space.old space.new }
    ensures pages { StaysWithin N (own_rows layout.now) space.old space.new }
    ensures no_frame { IsErrOf result Shortage.NoFrame → free_of space.new.frames ≡ 0 }
{
    let rows = layout.load().tables().list::<R>();
    push_rows(space, undo, rows, layout.warehouse())
}

/// Gives NEW-ORDER without a slot the rows of a warehouse.
pub(crate) fn fill_new_orders<const N: usize>(
    space: &mut Space<N>,
    undo: &mut Undo<N>,
    layout: &Layout,
) -> Result<(), Shortage>
    requires writable { IsWritableStore N space.old undo.old }
    requires empty { (stored_in N space.old).new_order_slots ≡ [] }
    ensures writable { OnOk result (IsWritableStore N space.new undo.new) }
    ensures rows { OnOk result (stored_in N space.new
        ≡ with_new_orders (own_rows layout.now).new_orders (stored_in N space.old)) }
    ensures stays { StaysOpen space.old space.new }
    ensures pages { StaysWithin N (own_rows layout.now) space.old space.new }
    ensures no_frame { IsErrOf result Shortage.NoFrame → free_of space.new.frames ≡ 0 }
{
    let rows = layout.load().tables().list::<NewOrder>();
    push_new_orders(space, undo, rows, layout.warehouse())
}

/// Adds those rows that belong to a warehouse behind those of their table.
fn push_rows<R: Lasting, const N: usize>(
    space: &mut Space<N>,
    undo: &mut Undo<N>,
    rows: &[R],
    warehouse: u8,
) -> Result<(), Shortage>
    requires { IsWritableStore N space.old undo.old }
    ensures pushed { OnOk result (ChangesStore N space.old space.new
        (with_more R.rows_in R.with_rows (filter (R.is_of warehouse) rows.now))) }
    ensures undo_log { OnOk result (IsUndoLog N space.new undo.new) }
    ensures stays { StaysOpen space.old space.new }
    ensures pages { KeepsPagesUpTo N R.SEGMENT (length (R.rows_in (stored_in N space.old).tables)
        + length (filter (R.is_of warehouse) rows.now)) space.old space.new }
    ensures no_frame { IsErrOf result Shortage.NoFrame → free_of space.new.frames ≡ 0 }
{
    for row in rows {
        push_own_row(space, undo, row, warehouse)?;
    }
    Ok(())
}

/// Adds a row behind those of its table, if it belongs to a warehouse, and lets it stand.
fn push_own_row<R: Lasting, const N: usize>(
    space: &mut Space<N>,
    undo: &mut Undo<N>,
    row: &R,
    warehouse: u8,
) -> Result<(), Shortage>
    requires { IsWritableStore N space.old undo.old }
    ensures pushed { OnOk result (ChangesStore N space.old space.new
        (with_more R.rows_in R.with_rows (filter (R.is_of warehouse) (row.now ∷ [])))) }
    ensures undo_log { OnOk result (IsUndoLog N space.new undo.new) }
    ensures stays { StaysOpen space.old space.new }
    ensures pages { KeepsPagesUpTo N R.SEGMENT (length (R.rows_in (stored_in N space.old).tables)
        + length (filter (R.is_of warehouse) (row.now ∷ []))) space.old space.new }
    ensures no_frame { IsErrOf result Shortage.NoFrame → free_of space.new.frames ≡ 0 }
{
    if !row.belongs_to(warehouse) {
        return Ok(());
    }
    push_row(space, undo, row)?;
    undo.commit(space);
    Ok(())
}

/// Adds those rows that belong to a warehouse behind those of NEW-ORDER.
fn push_new_orders<const N: usize>(
    space: &mut Space<N>,
    undo: &mut Undo<N>,
    rows: &[NewOrder],
    warehouse: u8,
) -> Result<(), Shortage>
    requires { IsWritableStore N space.old undo.old }
    ensures pushed { OnOk result (ChangesStore N space.old space.new
        (with_new_orders (filter (λ row. row.warehouse == warehouse) rows.now))) }
    ensures undo_log { OnOk result (IsUndoLog N space.new undo.new) }
    ensures stays { StaysOpen space.old space.new }
    ensures pages { KeepsPagesUpTo N new_order_segment (length (stored_in N space.old).new_order_slots
        + length (filter (λ row. row.warehouse == warehouse) rows.now)) space.old space.new }
    ensures no_frame { IsErrOf result Shortage.NoFrame → free_of space.new.frames ≡ 0 }
{
    for row in rows {
        push_own_new_order(space, undo, row, warehouse)?;
    }
    Ok(())
}

/// Adds a row behind those of NEW-ORDER, if it belongs to a warehouse, and lets it stand.
fn push_own_new_order<const N: usize>(
    space: &mut Space<N>,
    undo: &mut Undo<N>,
    row: &NewOrder,
    warehouse: u8,
) -> Result<(), Shortage>
    requires { IsWritableStore N space.old undo.old }
    ensures pushed { OnOk result (ChangesStore N space.old space.new
        (with_new_orders (filter (λ row. row.warehouse == warehouse) (row.now ∷ [])))) }
    ensures undo_log { OnOk result (IsUndoLog N space.new undo.new) }
    ensures stays { StaysOpen space.old space.new }
    ensures pages { KeepsPagesUpTo N new_order_segment (length (stored_in N space.old).new_order_slots
        + length (filter (λ row. row.warehouse == warehouse) (row.now ∷ []))) space.old space.new }
    ensures no_frame { IsErrOf result Shortage.NoFrame → free_of space.new.frames ≡ 0 }
{
    if !row.belongs_to(warehouse) {
        return Ok(());
    }
    push_new_order(space, undo, row)?;
    undo.commit(space);
    Ok(())
}
