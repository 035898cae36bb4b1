//! The rules of the lists that never gain a row: WAREHOUSE, DISTRICT, CUSTOMER, ITEM and STOCK.

ghost use Rattle.std.specs.Prelude.{◌≡◌, ◌↔◌, ℕ, ◌<◌, ◌≤◌, ◌-◌, IsTrue, IsSomeAnd, length, slice_get, if◌then◌else◌, ◌==◌, None};
ghost use Rattle.std.specs.Option.{option_copied};
ghost use Rattle.hy_rows.specs.Limits.{districts_per_warehouse, max_warehouses};
ghost use Rattle.hy_schema.specs.Loads.{HasAllCustomers, HasAllDistricts, HasAllStock, HasSome, IsCustomerAfter, IsCustomerAt, IsDistrictAt, IsItemAt, IsNextDistrict, IsStockAt, IsWarehouseAt, max_rows, row_before};
ghost use Rattle.hy_conditions.specs.Keys.{same_customer};
ghost use Rattle.hy_loads.specs.There.{HasKeys, is_customer_by};

use crate::list::Rule;
use hy_conditions::CustomerId;
use hy_rows::{Customer, DISTRICTS_PER_WAREHOUSE, District, Item, Record, Stock, Warehouse};
use indexmap::IndexSet;
use std::alloc::AllocError;

/// WAREHOUSE: the numbers run from 1.
#[derive(Clone, Copy)]
pub(crate) struct WarehouseRule<'a> {
    pub rows: &'a [Warehouse],
}

impl Rule<Warehouse, ()> for WarehouseRule<'_> {
    ghost use Rattle.std.specs.Prelude.{⊤};

    ghost rows = { λ rule. rule.rows.now };

    ghost right = { λ rule. IsWarehouseAt };

    ghost Whole = { λ rule. HasSome rule.rows.now };

    ghost holds = { λ rule. ⊤ };

    ghost has_seen = { λ seen rows. ⊤ };

    fn rows(&self) -> &[Warehouse] {
        self.rows
    }

    fn is_right(&self, _seen: &mut (), place: usize, row: &Warehouse) -> Result<bool, AllocError> {
        Ok(row.is_in_range() && usize::from(row.id) == place + 1)
    }

    fn is_whole(&self) -> bool {
        !self.rows.is_empty()
    }
}

/// DISTRICT: ten for each warehouse, in rising order of (D_W_ID, D_ID).
#[derive(Clone, Copy)]
pub(crate) struct DistrictRule<'a> {
    pub warehouses: usize,
    pub rows: &'a [District],
}

impl Rule<District, ()> for DistrictRule<'_> {
    ghost use Rattle.std.specs.Prelude.{⊤};

    ghost rows = { λ rule. rule.rows.now };

    ghost right = { λ rule. IsDistrictAt rule.warehouses };

    ghost Whole = { λ rule. HasAllDistricts rule.warehouses rule.rows.now };

    ghost holds = { λ rule. rule.warehouses ≤ max_warehouses };

    ghost has_seen = { λ seen rows. ⊤ };

    fn rows(&self) -> &[District] {
        self.rows
    }

    fn is_right(&self, _seen: &mut (), place: usize, row: &District) -> Result<bool, AllocError> {
        let count = usize::from(DISTRICTS_PER_WAREHOUSE);
        Ok(
            row.is_in_range()
                && usize::from(row.warehouse) == place / count + 1
                && usize::from(row.id) == place % count + 1
                && usize::from(row.warehouse) <= self.warehouses,
        )
    }

    fn is_whole(&self) -> bool {
        usize::from(DISTRICTS_PER_WAREHOUSE) * self.warehouses <= self.rows.len()
    }
}

/// CUSTOMER: in rising order of (C_W_ID, C_D_ID, C_ID), in each district the numbers from 1. The keys of the rows are
/// kept.
#[derive(Clone, Copy)]
pub(crate) struct CustomerRule<'a> {
    pub warehouses: usize,
    pub rows: &'a [Customer],
}

impl Rule<Customer, IndexSet<CustomerId>> for CustomerRule<'_> {
    ghost use Rattle.std.specs.Prelude.{⊤};

    ghost rows = { λ rule. rule.rows.now };

    ghost right = { λ rule. IsCustomerAt rule.warehouses rule.rows.now };

    ghost Whole = { λ rule. HasAllCustomers rule.warehouses rule.rows.now };

    ghost holds = { λ rule. ⊤ };

    ghost has_seen = { λ seen rows. HasKeys same_customer is_customer_by seen rows };

    fn rows(&self) -> &[Customer] {
        self.rows
    }

    fn is_right(
        &self,
        seen: &mut IndexSet<CustomerId>,
        place: usize,
        row: &Customer,
    ) -> Result<bool, AllocError> {
        if !is_customer_at(self.warehouses, self.rows, place, row) {
            return Ok(false);
        }
        seen.insert(CustomerId::new(row.warehouse, row.district, row.id))?;
        Ok(true)
    }

    fn is_whole(&self) -> bool {
        match self.rows.last() {
            None => false,
            Some(row) => usize::from(row.warehouse) == self.warehouses
                && row.district == DISTRICTS_PER_WAREHOUSE,
        }
    }
}

/// Whether a row of CUSTOMER is right at its place.
fn is_customer_at(warehouses: usize, rows: &[Customer], place: usize, row: &Customer) -> bool
    requires { place < length rows.now }
    ensures { IsTrue result ↔ IsCustomerAt warehouses rows.now place row.now }
{
    row.is_in_range()
        && usize::from(row.warehouse) <= warehouses
        && follows(before(rows, place), row)
}

/// The row before a place.
fn before(rows: &[Customer], place: usize) -> Option<&Customer>
    requires { place < length rows.now }
    ensures { option_copied result ≡ row_before rows.now place }
{
    if place == 0 {
        None
    } else {
        Some(&rows[place - 1])
    }
}

/// Whether a customer is the next one of the same district, or customer 1 of the next district.
fn follows(before: Option<&Customer>, row: &Customer) -> bool
    ensures { IsTrue result ↔ IsCustomerAfter (option_copied before.entry) row.now }
{
    match before {
        None => row.warehouse == 1 && row.district == 1 && row.id == 1,
        Some(before) => {
            let same_district = row.warehouse == before.warehouse
                && row.district == before.district;
            (same_district && u32::from(row.id) == u32::from(before.id) + 1)
                || (is_next_district(before, row) && row.id == 1)
        }
    }
}

/// Whether a customer is of the next district.
fn is_next_district(before: &Customer, row: &Customer) -> bool
    ensures { IsTrue result ↔ IsNextDistrict before.now row.now }
{
    (row.warehouse == before.warehouse && u32::from(row.district) == u32::from(before.district) + 1)
        || (before.district == DISTRICTS_PER_WAREHOUSE
            && u32::from(row.warehouse) == u32::from(before.warehouse) + 1
            && row.district == 1)
}

/// ITEM: the numbers run from 1.
#[derive(Clone, Copy)]
pub(crate) struct ItemRule<'a> {
    pub rows: &'a [Item],
}

impl Rule<Item, ()> for ItemRule<'_> {
    ghost use Rattle.std.specs.Prelude.{⊤};

    ghost rows = { λ rule. rule.rows.now };

    ghost right = { λ rule. IsItemAt };

    ghost Whole = { λ rule. HasSome rule.rows.now };

    ghost holds = { λ rule. ⊤ };

    ghost has_seen = { λ seen rows. ⊤ };

    fn rows(&self) -> &[Item] {
        self.rows
    }

    fn is_right(&self, _seen: &mut (), place: usize, row: &Item) -> Result<bool, AllocError> {
        Ok(row.is_in_range() && row.id as usize == place + 1)
    }

    fn is_whole(&self) -> bool {
        !self.rows.is_empty()
    }
}

/// STOCK: one for each warehouse and item, in rising order of (S_W_ID, S_I_ID).
#[derive(Clone, Copy)]
pub(crate) struct StockRule<'a> {
    pub warehouses: usize,
    pub items: usize,
    pub rows: &'a [Stock],
}

impl Rule<Stock, ()> for StockRule<'_> {
    ghost use Rattle.std.specs.Prelude.{⊤};

    ghost rows = { λ rule. rule.rows.now };

    ghost right = { λ rule. IsStockAt rule.warehouses rule.items };

    ghost Whole = { λ rule. HasAllStock rule.warehouses rule.items rule.rows.now };

    ghost holds = { λ rule.
        (rule.warehouses ≤ max_warehouses) × (0 < rule.items) × (rule.items ≤ max_rows) };

    ghost has_seen = { λ seen rows. ⊤ };

    fn rows(&self) -> &[Stock] {
        self.rows
    }

    fn is_right(&self, _seen: &mut (), place: usize, row: &Stock) -> Result<bool, AllocError> {
        Ok(
            row.is_in_range()
                && usize::from(row.warehouse) == place / self.items + 1
                && row.item as usize == place % self.items + 1
                && usize::from(row.warehouse) <= self.warehouses,
        )
    }

    fn is_whole(&self) -> bool {
        self.items * self.warehouses <= self.rows.len()
    }
}
