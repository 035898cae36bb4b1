//! Stock-Level (TPC-C clause 2.8): how many items of a district's last 20 orders are low in stock.

ghost use Rattle.std.specs.Prelude.{◌≡◌, ◌-◌, ◌<◌, nat_lt, [], true, All, IfOk, OnOk, length};
ghost use Rattle.std.specs.List.{list_any};
ghost use Rattle.hy_rows.specs.Finding.{first_or, is_district};
ghost use Rattle.hy_rows.specs.Rows.{district_of};
ghost use Rattle.hy_schema.specs.Keys.{IsOneWarehouse};
ghost use Rattle.hy_schema.specs.Related.{is_item};
ghost use Rattle.hy_space.specs.Space.{owner_bytes};
ghost use Rattle.hy_writers.specs.of_index.declared.key.Entry.{Entry};
ghost use Rattle.hy_commands.specs.StockLevels.{low_items};
ghost use Rattle.hy_writers.specs.of_store.Stored.{HasStore};
ghost use Rattle.hy_writers.specs.of_store.Writes.{stored_in};
ghost use Rattle.hy_writers.specs.of_store.declared.keys.LineKey.{LineKey};
ghost use Rattle.hy_writers.specs.Begun.{IsDistrict};
ghost use Rattle.hy_writers.specs.Deliveries.{is_listed};
ghost use Rattle.hy_writers.specs.Waiting.{IsSoundStore};
ghost use Rattle.hy_tpcc.specs.Levels.{counts_item, entries_of, with_item, with_low_items};

use hy_commands::StockLevel;
use hy_layout::Layout;
use hy_rows::{District, OrderLine, Stock};
use hy_space::Space;
use hy_writers::hy_index::Entry;
use hy_writers::hy_store::{LineKey, read_entries, row_at};
use std::alloc::AllocError;

/// Stock-Level (TPC-C clause 2.8): how many different items of a district's last 20 orders have less in stock than the
/// threshold. The entries of each order's lines are read into one list, and the items into another, in place of what
/// they had. Fails only for want of memory.
pub(crate) fn stock_level<const N: usize>(
    layout: &Layout,
    space: &Space<N>,
    level: &StockLevel,
    entries: &mut Vec<Entry<LineKey>>,
    low: &mut Vec<u32>,
) -> Result<u64, AllocError>
    requires store { HasStore N (owner_bytes space.now) }
    requires sound { IsSoundStore layout.now (stored_in N space.now) }
    requires home { level.now.warehouse ≡ layout.now.warehouse }
    requires district { IsDistrict level.now.district }
    ensures { IfOk result (λ low. low ≡ low_items level.now (stored_in N space.now).tables) }
{
    let next = next_order(layout, space, level);
    low.clear();
    for order in first_recent(next)..next {
        add_order(layout, space, level, order, entries, low)?;
    }
    Ok(count(low))
}

/// How many items a list has.
fn count(items: &[u32]) -> u64
    ensures { result ≡ length items.now }
{
    items.len() as u64
}

/// The number of the first of the 20 orders before the next one.
fn first_recent(next: u32) -> u32
    ensures { result ≡ next - 20 }
{
    next.saturating_sub(20)
}

/// The number of a district's next order.
fn next_order<const N: usize>(layout: &Layout, space: &Space<N>, level: &StockLevel) -> u32
    requires store { HasStore N (owner_bytes space.now) }
    requires rows { IsOneWarehouse layout.now.warehouse (stored_in N space.now).tables }
    requires home { level.now.warehouse ≡ layout.now.warehouse }
    requires district { IsDistrict level.now.district }
    ensures { result ≡ (first_or (district_of []) (is_district level.now.warehouse level.now.district)
        (stored_in N space.now).tables.districts).next_order }
{
    row_at::<District, N>(space, level.district - 1).next_order
}

/// Adds the items of an order's lines that are low in stock, each that isn't there yet.
fn add_order<const N: usize>(
    layout: &Layout,
    space: &Space<N>,
    level: &StockLevel,
    order: u32,
    entries: &mut Vec<Entry<LineKey>>,
    low: &mut Vec<u32>,
) -> Result<(), AllocError>
    requires store { HasStore N (owner_bytes space.now) }
    requires sound { IsSoundStore layout.now (stored_in N space.now) }
    requires home { level.now.warehouse ≡ layout.now.warehouse }
    requires district { IsDistrict level.now.district }
    ensures { OnOk result (low.new.items ≡ with_low_items level.now (stored_in N space.now)
        (entries_of order level.now.district (stored_in N space.now).lines) low.old.items) }
{
    let first = LineKey {
        order,
        district: level.district as u8,
        number: 0,
    };
    let behind = LineKey {
        district: first.district + 1,
        ..first
    };
    read_entries(space, &first, &behind, entries)?;
    add_lines(layout, space, level, entries, low)
}

/// Adds the items of the lines that entries name.
fn add_lines<const N: usize>(
    layout: &Layout,
    space: &Space<N>,
    level: &StockLevel,
    entries: &[Entry<LineKey>],
    low: &mut Vec<u32>,
) -> Result<(), AllocError>
    requires store { HasStore N (owner_bytes space.now) }
    requires sound { IsSoundStore layout.now (stored_in N space.now) }
    requires home { level.now.warehouse ≡ layout.now.warehouse }
    requires there { All (λ (entry : Entry LineKey). entry.slot < length (stored_in N space.now).tables.order_lines)
        entries.now }
    ensures { OnOk result (low.new.items
        ≡ with_low_items level.now (stored_in N space.now) entries.now low.old.items) }
{
    for entry in entries {
        let line = row_at::<OrderLine, N>(space, entry.slot);
        add_item(layout, space, level, line.item, low)?;
    }
    Ok(())
}

/// Adds an item, where it is low in stock and isn't there yet.
fn add_item<const N: usize>(
    layout: &Layout,
    space: &Space<N>,
    level: &StockLevel,
    item: u32,
    low: &mut Vec<u32>,
) -> Result<(), AllocError>
    requires store { HasStore N (owner_bytes space.now) }
    requires sound { IsSoundStore layout.now (stored_in N space.now) }
    requires home { level.now.warehouse ≡ layout.now.warehouse }
    requires known { list_any (is_item item) layout.now.load.items ≡ true }
    ensures { OnOk result (low.new.items
        ≡ with_item (counts_item level.now (stored_in N space.now)) low.old.items item) }
{
    if is_low(layout, space, level, item) && !is_listed(low, item) {
        low.push(item)?;
        return Ok(());
    }
    Ok(())
}

/// Whether an item is in a list.
fn is_listed(items: &[u32], item: u32) -> bool
    ensures { result ≡ is_listed item items.now }
{
    items.iter().any(|other| *other == item)
}

/// Whether the warehouse has less of an item than the threshold.
fn is_low<const N: usize>(layout: &Layout, space: &Space<N>, level: &StockLevel, item: u32) -> bool
    requires store { HasStore N (owner_bytes space.now) }
    requires sound { IsSoundStore layout.now (stored_in N space.now) }
    requires home { level.now.warehouse ≡ layout.now.warehouse }
    requires known { list_any (is_item item) layout.now.load.items ≡ true }
    ensures { result ≡ counts_item level.now (stored_in N space.now) item }
{
    layout.know_places();
    match layout.item(item.into()) {
        Some(_) => {
            let stock = row_at::<Stock, N>(space, u64::from(item) - 1);
            is_below(stock.quantity, level.threshold)
        }
        None => unreachable!(),
    }
}

/// Whether a quantity is below a threshold.
fn is_below(quantity: u16, threshold: u64) -> bool
    ensures { result ≡ nat_lt quantity threshold }
{
    u64::from(quantity) < threshold
}
