//! Rows that stand at a place that never changes.

ghost use Rattle.std.specs.Prelude.{◌≡◌, ◌-◌, length, map};
ghost use Rattle.hy_rows.specs.declared.district.District.{District};
ghost use Rattle.hy_rows.specs.declared.warehouse.Warehouse.{Warehouse};
ghost use Rattle.hy_rows.specs.Finding.{is_district, is_warehouse};
ghost use Rattle.hy_rows.specs.Ranges.{IsBetween};
ghost use Rattle.hy_schema.specs.Keys.{AreUnique, IsOneWarehouse};
ghost use Rattle.hy_space.specs.Space.{owner_bytes};
ghost use Rattle.hy_commands.specs.Invariant.{stock_key};
ghost use Rattle.hy_commands.specs.NewOrders.{is_stock};
ghost use Rattle.hy_layout.specs.Layout.{KeepsPlaces, own_rows};
ghost use Rattle.hy_indexes.specs.of_store.Stored.{HasStore};
ghost use Rattle.hy_indexes.specs.of_store.Writes.{stored_in};
ghost use Rattle.hy_writers.specs.Changes.{IsFoundAt};

use hy_indexes::hy_store::{row_at, row_bytes_at};
use hy_layout::Layout;
use hy_rows::{District, Stock, Warehouse};
use hy_space::Space;

/// The row of WAREHOUSE.
pub(crate) fn own_warehouse<const N: usize>(layout: &Layout, space: &Space<N>) -> Warehouse
    requires store { HasStore N (owner_bytes space.now) }
    requires rows { IsOneWarehouse layout.now.warehouse (stored_in N space.now).tables }
    ensures { IsFoundAt (is_warehouse layout.now.warehouse) (stored_in N space.now).tables.warehouses 0 result }
{
    row_at::<Warehouse, N>(space, 0)
}

/// The row of a district of the warehouse.
pub fn own_district<const N: usize>(layout: &Layout, space: &Space<N>, district: u64) -> District
    requires store { HasStore N (owner_bytes space.now) }
    requires rows { IsOneWarehouse layout.now.warehouse (stored_in N space.now).tables }
    requires district { IsBetween 1 10 district }
    ensures { IsFoundAt (is_district layout.now.warehouse district)
        (stored_in N space.now).tables.districts (district - 1) result }
{
    row_at::<District, N>(space, district - 1)
}

/// The number of the next order of a district of the warehouse.
pub fn own_next_order<const N: usize>(layout: &Layout, space: &Space<N>, district: u64) -> u32
    requires store { HasStore N (owner_bytes space.now) }
    requires rows { IsOneWarehouse layout.now.warehouse (stored_in N space.now).tables }
    requires district { IsBetween 1 10 district }
    ensures { (row : District) × IsFoundAt (is_district layout.now.warehouse district)
        (stored_in N space.now).tables.districts (district - 1) row × (result ≡ row.next_order) }
{
    District::next_order_in(row_bytes_at::<District, N>(space, district - 1))
}

/// The tax of a district of the warehouse.
pub(crate) fn own_district_tax<const N: usize>(
    layout: &Layout,
    space: &Space<N>,
    district: u64,
) -> u16
    requires store { HasStore N (owner_bytes space.now) }
    requires rows { IsOneWarehouse layout.now.warehouse (stored_in N space.now).tables }
    requires district { IsBetween 1 10 district }
    ensures { (row : District) × IsFoundAt (is_district layout.now.warehouse district)
        (stored_in N space.now).tables.districts (district - 1) row × (result ≡ row.tax) }
{
    District::tax_in(row_bytes_at::<District, N>(space, district - 1))
}

/// The tax of the warehouse.
pub(crate) fn own_tax<const N: usize>(layout: &Layout, space: &Space<N>) -> u16
    requires store { HasStore N (owner_bytes space.now) }
    requires rows { IsOneWarehouse layout.now.warehouse (stored_in N space.now).tables }
    ensures { (row : Warehouse) × IsFoundAt (is_warehouse layout.now.warehouse)
        (stored_in N space.now).tables.warehouses 0 row × (result ≡ row.tax) }
{
    Warehouse::tax_in(row_bytes_at::<Warehouse, N>(space, 0))
}

/// The stock of an item.
pub(crate) fn own_stock<const N: usize>(layout: &Layout, space: &Space<N>, item: u64) -> Stock
    requires store { HasStore N (owner_bytes space.now) }
    requires unique { AreUnique (map stock_key (stored_in N space.now).tables.stock) }
    requires places { KeepsPlaces (own_rows layout.now) (stored_in N space.now).tables }
    requires item { IsBetween 1 (length layout.now.load.items) item }
    ensures { IsFoundAt (is_stock layout.now.warehouse item)
        (stored_in N space.now).tables.stock (item - 1) result }
{
    layout.know_places();
    row_at::<Stock, N>(space, item - 1)
}
