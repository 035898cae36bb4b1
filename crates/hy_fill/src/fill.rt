//! The pages that a warehouse begins with.

ghost use Rattle.std.specs.Prelude.{◌≡◌, ◌≤◌, [], IfOk, OnOk, IsErrOf, slice_get};
ghost use Rattle.hy_frames.specs.FrameTable.{IsPageSize, free_of, max_frames as most_frames};
ghost use Rattle.hy_space.specs.Space.{owner_bytes};
ghost use Rattle.hy_layout.specs.Layout.{own_rows};
ghost use Rattle.hy_indexes.specs.of_store.Stored.{HasStore, nothing_stored};
ghost use Rattle.hy_indexes.specs.of_store.Writes.{IsWritableStore, stored_in};
ghost use Rattle.hy_indexes.specs.Indexes.{HasIndexes, line_key_at, order_key_at, waiting_key_at};
ghost use Rattle.hy_fill.specs.Frames.{frames_for};
ghost use Rattle.hy_fill.specs.inside.Filling.{StaysOpen, StaysWithin, TellsApart, without_indexes};

use crate::entries::fill_index;
use crate::last_orders::fill_last_orders;
use crate::rows::{fill_new_orders, fill_table};
use hy_commands::conditions_are_kept;
use hy_frames::Shortage;
use hy_indexes::hy_store::{LineKey, OrderKey, WaitingKey, empty_store};
use hy_layout::Layout;
use hy_rows::{Customer, District, History, NewOrder, Order, OrderLine, Stock, Warehouse};
use hy_space::Space;
use hy_undo::Undo;
use std::alloc::Global;

/// Pages with the loaded rows of a warehouse and their entries in the indexes. Takes n log n time for n rows, however
/// the load orders them. `NoFrame` only where `max_frames` is no more than the frames that the rows and their entries
/// take at most.
pub fn filled_store<const N: usize>(
    alloc: Global,
    layout: &Layout,
    max_frames: u64,
) -> Result<Space<N>, Shortage>
    requires size { IsPageSize N }
    requires some { 1 ≤ max_frames }
    requires limit { max_frames ≤ most_frames }
    ensures store { IfOk result (λ space. HasStore N (owner_bytes space)) }
    ensures rows { IfOk result (λ space. (stored_in N space).tables ≡ own_rows layout.now) }
    ensures indexes { IfOk result (λ space. HasIndexes (stored_in N space)) }
    ensures children { IfOk result (λ space. space.children ≡ []) }
    ensures limit { IfOk result (λ space. space.frames.max ≡ max_frames) }
    ensures no_frame { IsErrOf result Shortage.NoFrame → max_frames ≤ frames_for N (own_rows layout.now) }
{
    let mut space = empty_store(alloc, max_frames)?;
    let mut undo = Undo::new(alloc, &space)?;
    let filled = fill(alloc, &mut space, &mut undo, layout);
    space.sound();
    filled?;
    Ok(space)
}

/// Gives an empty store the rows of a warehouse and its indexes.
fn fill<const N: usize>(
    alloc: Global,
    space: &mut Space<N>,
    undo: &mut Undo<N>,
    layout: &Layout,
) -> Result<(), Shortage>
    requires writable { IsWritableStore N space.old undo.old }
    requires empty { stored_in N space.old ≡ nothing_stored }
    ensures store { OnOk result (HasStore N (owner_bytes space.new)) }
    ensures rows { OnOk result ((stored_in N space.new).tables ≡ own_rows layout.now) }
    ensures indexes { OnOk result (HasIndexes (stored_in N space.new)) }
    ensures stays { StaysOpen space.old space.new }
    ensures pages { StaysWithin N (own_rows layout.now) space.old space.new }
    ensures no_frame { IsErrOf result Shortage.NoFrame → free_of space.new.frames ≡ 0 }
{
    fill_rows(space, undo, layout)?;
    fill_indexes(alloc, space, undo, layout)
}

/// Gives an empty store the rows of a warehouse.
fn fill_rows<const N: usize>(
    space: &mut Space<N>,
    undo: &mut Undo<N>,
    layout: &Layout,
) -> Result<(), Shortage>
    requires writable { IsWritableStore N space.old undo.old }
    requires empty { stored_in N space.old ≡ nothing_stored }
    ensures writable { OnOk result (IsWritableStore N space.new undo.new) }
    ensures rows { OnOk result (stored_in N space.new ≡ without_indexes (own_rows layout.now)) }
    ensures stays { StaysOpen space.old space.new }
    ensures pages { StaysWithin N (own_rows layout.now) space.old space.new }
    ensures no_frame { IsErrOf result Shortage.NoFrame → free_of space.new.frames ≡ 0 }
{
    fill_table::<Warehouse, N>(space, undo, layout)?;
    fill_table::<District, N>(space, undo, layout)?;
    fill_table::<Customer, N>(space, undo, layout)?;
    fill_table::<History, N>(space, undo, layout)?;
    fill_new_orders(space, undo, layout)?;
    fill_table::<Order, N>(space, undo, layout)?;
    fill_table::<OrderLine, N>(space, undo, layout)?;
    fill_table::<Stock, N>(space, undo, layout)
}

/// Gives a store with the rows of a warehouse its indexes.
fn fill_indexes<const N: usize>(
    alloc: Global,
    space: &mut Space<N>,
    undo: &mut Undo<N>,
    layout: &Layout,
) -> Result<(), Shortage>
    requires writable { IsWritableStore N space.old undo.old }
    requires rows { stored_in N space.old ≡ without_indexes (own_rows layout.now) }
    ensures store { OnOk result (HasStore N (owner_bytes space.new)) }
    ensures rows { OnOk result ((stored_in N space.new).tables ≡ own_rows layout.now) }
    ensures indexes { OnOk result (HasIndexes (stored_in N space.new)) }
    ensures stays { StaysOpen space.old space.new }
    ensures pages { StaysWithin N (own_rows layout.now) space.old space.new }
    ensures no_frame { IsErrOf result Shortage.NoFrame → free_of space.new.frames ≡ 0 }
{
    know_keys(layout);
    fill_index::<OrderKey, Order, N>(alloc, space, undo, layout)?;
    fill_last_orders(alloc, space, undo, layout)?;
    fill_index::<WaitingKey, NewOrder, N>(alloc, space, undo, layout)?;
    fill_index::<LineKey, OrderLine, N>(alloc, space, undo, layout)?;
    Ok(())
}

/// Does nothing: its contract says that no two orders of a warehouse, undelivered orders or lines have the same key.
fn know_keys(layout: &Layout)
    ensures orders { TellsApart order_key_at (slice_get (own_rows layout.now).orders) }
    ensures waiting { TellsApart waiting_key_at (slice_get (own_rows layout.now).new_orders) }
    ensures lines { TellsApart line_key_at (slice_get (own_rows layout.now).order_lines) }
{
    layout.know_places();
    layout.load().sound();
    conditions_are_kept();
}
