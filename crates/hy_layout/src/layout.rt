//! The layout of a warehouse.

ghost use Rattle.std.specs.Prelude.{◌≡◌, ℕ, ⊤, ◌-◌, ◌≤◌, IfOk, MatchOption, Some, None, false, find, length};
ghost use Rattle.std.specs.List.{list_any};
ghost use Rattle.hy_rows.specs.Ranges.{IsBetween};
ghost use Rattle.hy_rows.specs.Tables.{Tables};
ghost use Rattle.hy_schema.specs.Related.{is_item};
ghost use Rattle.hy_commands.specs.declared.command.Who.{Who};
ghost use Rattle.hy_commands.specs.inside.Named.{who_of};
ghost use Rattle.hy_layout.specs.Layout.{IsPlaceOf, IsStockAt, KeepsPlaces, own_rows};

use crate::names::{NamedCustomer, middle_named, names_of};
use crate::numbers::{own_customers, place_of, starts_of};
use hy_commands::{CustomerRef, WhoRef};
use hy_loads::Load;
use hy_rows::Item;
use std::alloc::{AllocError, Global};
use std::marker::Model;

/// A warehouse of a load, and where its customers stand, by number and by last name.
#[derive(Drop)]
pub struct Layout {
    load: Load,
    warehouse: u8,
    // how many customers stand before each of the ten districts, and how many there are
    starts: Vec<usize>,
    // by district, last name, first name and number
    names: Vec<NamedCustomer>,
}

impl Model for Layout {
    ghost use Rattle.hy_layout.specs.Layout.{LayoutState};
    ghost use Rattle.hy_layout.specs.inside.Places.{IsLaidOut};

    ghost Value = { LayoutState };

    ghost view = { λ layout. record { load = layout.load; warehouse = layout.warehouse } };

    ghost invariant = { λ layout. IsLaidOut layout.load layout.warehouse layout.starts.items layout.names.items };
}

impl Layout {
    /// The layout of a warehouse of a load. Takes time n log n for the n customers of the warehouse, and the logarithm
    /// of the customers of all warehouses to find them.
    pub fn new(alloc: Global, load: &Load, warehouse: u8) -> Result<Layout, AllocError>
        requires first { 1 ≤ warehouse }
        requires last { warehouse ≤ length load.now.tables.warehouses }
        ensures { IfOk result (λ layout. layout ≡ record { load = load.now; warehouse = warehouse }) }
    {
        load.sound();
        let rows = own_customers(load.list(), warehouse);
        let starts = starts_of(alloc, rows)?;
        let names = names_of(alloc, rows)?;
        let load = load.share()?;
        Ok(Layout {
            load,
            warehouse,
            starts,
            names,
        })
    }

    /// The load.
    pub fn load(&self) -> &Load
        ensures { result.now ≡ self.now.load }
    {
        &self.load
    }

    /// The number of the warehouse.
    pub fn warehouse(&self) -> u8
        ensures { result ≡ self.now.warehouse }
    {
        self.warehouse
    }

    /// The place of the customer of this warehouse whom a command names, by number or by last name (TPC-C clause
    /// 2.5.2.2), among all customers of the warehouse; none where there is no such customer. It stays that place as long
    /// as each customer stands where it stood. Takes no memory; a number is found at once, a name by a binary search.
    pub fn place_of_customer(&self, customer: CustomerRef<'_>) -> Option<u64>
        ensures { IsPlaceOf self.now customer.entry.district (who_of customer.entry.who) result }
    {
        match customer.who {
            WhoRef::Number(number) => place_of(&self.starts, customer.district, number),
            WhoRef::Last(name) => {
                let named = middle_named(&self.names, customer.district, name.as_bytes())?;
                place_of(&self.starts, customer.district, u64::from(named.id))
            }
        }
    }

    /// The place of the customer of a district with a number, as of one who is meant by it. Takes no memory.
    pub fn place_of_number(&self, district: u64, number: u64) -> Option<u64>
        ensures { IsPlaceOf self.now district (Who.Number number) result }
    {
        place_of(&self.starts, district, number)
    }

    /// The item with a number, if there is one.
    pub fn item(&self, number: u64) -> Option<&Item>
        ensures item { MatchOption result (list_any (is_item number) self.now.load.items ≡ false)
            (λ item. find (is_item number) self.now.load.items ≡ Some item.now) }
        ensures number { MatchOption result ⊤
            (λ item. IsBetween 1 (length self.now.load.items) number) }
    {
        self.load.sound();
        let items: &[Item] = self.load.list();
        if number == 0 {
            return None;
        }
        items.get((number - 1) as usize)
    }

    /// Does nothing: its contract says that the stock of item k stands at place k - 1, and that the warehouse is one
    /// of the load's.
    pub fn know_places(&self)
        ensures warehouse { IsBetween 1 (length self.now.load.tables.warehouses) self.now.warehouse }
        ensures loaded { KeepsPlaces (own_rows self.now) (own_rows self.now) }
        ensures stock { (tables : Tables) (item : ℕ) → KeepsPlaces (own_rows self.now) tables
            → IsBetween 1 (length self.now.load.items) item
            → IsStockAt self.now.warehouse item tables.stock (item - 1) }
    {
        self.load.sound();
        let _names = &self.names;
    }
}
