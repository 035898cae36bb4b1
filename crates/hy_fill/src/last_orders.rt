//! The last order of each customer.

ghost use Rattle.std.specs.Prelude.{◌≡◌, ℕ, ◌+◌, ◌<◌, [], Some, OnOk, IsErrOf, length, slice_get};
ghost use Rattle.hy_frames.specs.FrameTable.{free_of};
ghost use Rattle.hy_indexes.specs.of_index.Index.{found};
ghost use Rattle.hy_space.specs.Space.{owner_bytes};
ghost use Rattle.hy_indexes.specs.of_store.Keys.{is_lesser_customer};
ghost use Rattle.hy_undo.specs.PrivatePages.{IsUndoLog};
ghost use Rattle.hy_indexes.specs.of_store.Pages.{KeepsPagesUpTo};
ghost use Rattle.hy_indexes.specs.of_store.Stored.{HasStore, last_order_index};
ghost use Rattle.hy_indexes.specs.of_store.Writes.{ChangesStore, IsWritableStore, stored_in};
ghost use Rattle.hy_indexes.specs.Finds.{IsIndexOf};
ghost use Rattle.hy_indexes.specs.Indexes.{AreLastOrders, buyer_key_at};
ghost use Rattle.hy_layout.specs.Layout.{own_rows};
ghost use Rattle.hy_fill.specs.inside.Filling.{StaysOpen, StaysWithin};
ghost use Rattle.hy_fill.specs.inside.LastOrders.{is_later, with_last_order};

use crate::entries::{entries_of, insert_lasting};
use hy_frames::Shortage;
use hy_indexes::hy_index::Entry;
use hy_indexes::hy_store::{CustomerKey, find_slot, row_at};
use hy_layout::Layout;
use hy_rows::Order;
use hy_space::Space;
use hy_undo::Undo;
use std::alloc::Global;

/// Gives an index without entries the last order of each customer of a warehouse. The orders of the warehouse are in
/// the store.
pub(crate) fn fill_last_orders<const N: usize>(
    alloc: Global,
    space: &mut Space<N>,
    undo: &mut Undo<N>,
    layout: &Layout,
) -> Result<(), Shortage>
    requires writable { IsWritableStore N space.old undo.old }
    requires orders { (stored_in N space.old).tables.orders ≡ (own_rows layout.now).orders }
    requires empty { (stored_in N space.old).last_orders ≡ [] }
    ensures last_orders { OnOk result (AreLastOrders (stored_in N space.new).tables.orders
        (stored_in N space.new).last_orders) }
    ensures only { OnOk result (stored_in N space.new
        ≡ record (stored_in N space.old) { last_orders = (stored_in N space.new).last_orders }) }
    ensures writable { OnOk result (IsWritableStore N space.new undo.new) }
    ensures stays { StaysOpen space.old space.new }
    ensures pages { StaysWithin N (own_rows layout.now) space.old space.new }
    ensures no_frame { IsErrOf result Shortage.NoFrame → free_of space.new.frames ≡ 0 }
{
    let entries = entries_of::<CustomerKey, Order>(alloc, layout)?;
    give_orders(space, undo, entries.as_slice())
}

/// Gives customers their last order of those in the store.
fn give_orders<const N: usize>(
    space: &mut Space<N>,
    undo: &mut Undo<N>,
    entries: &[Entry<CustomerKey>],
) -> Result<(), Shortage>
    requires writable { IsWritableStore N space.old undo.old }
    requires orders { IsIndexOf buyer_key_at (slice_get (stored_in N space.old).tables.orders) entries.now }
    requires empty { (stored_in N space.old).last_orders ≡ [] }
    ensures last_orders { OnOk result (AreLastOrders (stored_in N space.new).tables.orders
        (stored_in N space.new).last_orders) }
    ensures only { OnOk result (ChangesStore N space.old space.new
        (λ old. record old { last_orders = (stored_in N space.new).last_orders })) }
    ensures undo_log { OnOk result (IsUndoLog N space.new undo.new) }
    ensures stays { StaysOpen space.old space.new }
    ensures pages { KeepsPagesUpTo N last_order_index (length entries.now)
        space.old space.new }
    ensures no_frame { IsErrOf result Shortage.NoFrame → free_of space.new.frames ≡ 0 }
{
    for entry in entries {
        give_order(space, undo, entry)?;
    }
    Ok(())
}

/// Gives a customer an order, unless the one that the customer has comes later.
fn give_order<const N: usize>(
    space: &mut Space<N>,
    undo: &mut Undo<N>,
    entry: &Entry<CustomerKey>,
) -> Result<(), Shortage>
    requires writable { IsWritableStore N space.old undo.old }
    requires there { entry.now.slot < length (stored_in N space.old).tables.orders }
    requires had { (slot : ℕ)
        → found is_lesser_customer entry.now.key (stored_in N space.old).last_orders ≡ Some slot
        → slot < length (stored_in N space.old).tables.orders }
    ensures given { OnOk result (ChangesStore N space.old space.new (with_last_order entry.now)) }
    ensures undo_log { OnOk result (IsUndoLog N space.new undo.new) }
    ensures stays { StaysOpen space.old space.new }
    ensures pages { KeepsPagesUpTo N last_order_index (length (stored_in N space.old).last_orders + 1)
        space.old space.new }
    ensures no_frame { IsErrOf result Shortage.NoFrame → free_of space.new.frames ≡ 0 }
{
    if has_later(space, entry) {
        return Ok(());
    }
    insert_lasting(space, undo, entry)
}

/// Whether the order that a customer has comes later than this one.
fn has_later<const N: usize>(space: &Space<N>, entry: &Entry<CustomerKey>) -> bool
    requires store { HasStore N (owner_bytes space.now) }
    requires there { entry.now.slot < length (stored_in N space.now).tables.orders }
    requires had { (slot : ℕ)
        → found is_lesser_customer entry.now.key (stored_in N space.now).last_orders ≡ Some slot
        → slot < length (stored_in N space.now).tables.orders }
    ensures { result ≡ is_later (stored_in N space.now).tables.orders entry.now
        (found is_lesser_customer entry.now.key (stored_in N space.now).last_orders) }
{
    let Some(slot) = find_slot(space, &entry.key) else {
        return false;
    };
    let row: Order = row_at(space, entry.slot);
    let last: Order = row_at(space, slot);
    row.id < last.id
}
