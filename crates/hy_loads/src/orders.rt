//! The rules of the lists that gain rows: ORDER, NEW-ORDER, ORDER-LINE and HISTORY.

ghost use Rattle.std.specs.Prelude.{◌≡◌, ◌↔◌, ◌≤◌, ⊤, IsTrue};
ghost use Rattle.std.specs.List.{list_any};
ghost use Rattle.hy_rows.specs.Finding.{is_customer, is_district, is_warehouse};
ghost use Rattle.hy_rows.specs.Limits.{districts_per_warehouse};
ghost use Rattle.hy_rows.specs.Ranges.{IsBetween};
ghost use Rattle.hy_rows.specs.Rows.{IsNewOrderInRange, IsOrderInRange, IsOrderLineInRange};
ghost use Rattle.hy_schema.specs.Related.{is_item, is_order};
ghost use Rattle.hy_schema.specs.Loads.{IsHistoryAt, IsNewOrderAt, IsOrderAt, IsOrderLineAt};
ghost use Rattle.hy_conditions.specs.Keys.{same_customer, same_order};
ghost use Rattle.hy_loads.specs.Keys.{same_line};
ghost use Rattle.hy_loads.specs.There.{HasCustomers, HasKeys, HasOrders, IsLineOf, IsOrderOf, KnowsLines, is_customer_by, is_line_with, is_new_order_with, is_order_with};

use crate::keys::LineId;
use crate::list::Rule;
use hy_conditions::{CustomerId, OrderId};
use hy_rows::{Customer, District, History, Item, NewOrder, Order, OrderLine, Record, Warehouse};
use indexmap::IndexSet;
use std::alloc::AllocError;

/// The districts and the customers of a load, and what is known of them.
#[derive(Clone, Copy)]
pub(crate) struct Customers<'a> {
    /// How many warehouses there are, each with its districts.
    pub warehouses: usize,
    pub districts: &'a [District],
    pub rows: &'a [Customer],
    /// The keys of the customers.
    pub keys: &'a IndexSet<CustomerId>,
}

impl Customers<'_> {
    /// Whether a district is there.
    fn has_district(&self, warehouse: u8, district: u8) -> bool
        requires known { HasCustomers self.now }
        requires warehouse { 1 ≤ warehouse }
        requires district { IsBetween 1 districts_per_warehouse district }
        ensures { IsTrue result ↔ IsTrue (list_any (is_district warehouse district) self.now.districts.now) }
    {
        let _district = district;
        usize::from(warehouse) <= self.warehouses
    }

    /// Whether a customer is there.
    fn has(&self, warehouse: u8, district: u8, customer: u16) -> bool
        requires { HasCustomers self.now }
        ensures { result ≡ list_any (is_customer warehouse district customer) self.now.rows.now }
    {
        self.keys
            .contains(&CustomerId::new(warehouse, district, customer))
    }
}

/// The orders of a load and their keys.
#[derive(Clone, Copy)]
pub(crate) struct Orders<'a> {
    pub rows: &'a [Order],
    /// The keys of the orders.
    pub keys: &'a IndexSet<OrderId>,
}

impl Orders<'_> {
    /// Whether an order is there.
    fn has(&self, warehouse: u8, district: u8, order: u32) -> bool
        requires { HasOrders self.now }
        ensures { result ≡ list_any (is_order warehouse district order) self.now.rows.now }
    {
        self.keys
            .contains(&OrderId::new(warehouse, district, order))
    }
}

/// ORDER: the key is new; the district and the customer are there.
#[derive(Clone, Copy)]
pub(crate) struct OrderRule<'a> {
    pub customers: Customers<'a>,
    pub rows: &'a [Order],
}

impl Rule<Order, IndexSet<OrderId>> for OrderRule<'_> {
    ghost rows = { λ rule. rule.rows.now };

    ghost right = { λ rule.
        IsOrderAt rule.customers.districts.now rule.customers.rows.now rule.rows.now };

    ghost Whole = { λ rule. ⊤ };

    ghost holds = { λ rule. HasCustomers rule.customers };

    ghost has_seen = { λ seen rows. HasKeys same_order is_order_with seen rows };

    fn rows(&self) -> &[Order] {
        self.rows
    }

    fn is_right(
        &self,
        seen: &mut IndexSet<OrderId>,
        _place: usize,
        row: &Order,
    ) -> Result<bool, AllocError> {
        if !is_order_of(&self.customers, row) {
            return Ok(false);
        }
        let is_new = seen.insert(OrderId::new(row.warehouse, row.district, row.id))?;
        Ok(is_new)
    }

    fn is_whole(&self) -> bool {
        true
    }
}

/// Whether a row of ORDER is in range, and its district and customer are there.
fn is_order_of(customers: &Customers<'_>, row: &Order) -> bool
    requires { HasCustomers customers.now }
    ensures { IsTrue result ↔ IsOrderOf customers.now row.now }
{
    row.is_in_range()
        && customers.has_district(row.warehouse, row.district)
        && customers.has(row.warehouse, row.district, row.customer)
}

/// NEW-ORDER: the key is new; the order is there.
#[derive(Clone, Copy)]
pub(crate) struct NewOrderRule<'a> {
    pub orders: Orders<'a>,
    pub rows: &'a [NewOrder],
}

impl Rule<NewOrder, IndexSet<OrderId>> for NewOrderRule<'_> {
    ghost rows = { λ rule. rule.rows.now };

    ghost right = { λ rule. IsNewOrderAt rule.orders.rows.now rule.rows.now };

    ghost Whole = { λ rule. ⊤ };

    ghost holds = { λ rule. HasOrders rule.orders };

    ghost has_seen = { λ seen rows. HasKeys same_order is_new_order_with seen rows };

    fn rows(&self) -> &[NewOrder] {
        self.rows
    }

    fn is_right(
        &self,
        seen: &mut IndexSet<OrderId>,
        _place: usize,
        row: &NewOrder,
    ) -> Result<bool, AllocError> {
        if !is_new_order_of(&self.orders, row) {
            return Ok(false);
        }
        let is_new = seen.insert(OrderId::new(row.warehouse, row.district, row.order))?;
        Ok(is_new)
    }

    fn is_whole(&self) -> bool {
        true
    }
}

/// Whether a row of NEW-ORDER is in range, and its order is there.
fn is_new_order_of(orders: &Orders<'_>, row: &NewOrder) -> bool
    requires { HasOrders orders.now }
    ensures { IsTrue result ↔ (IsNewOrderInRange row.now
        × IsTrue (list_any (is_order row.now.warehouse row.now.district row.now.order) orders.now.rows.now)) }
{
    row.is_in_range() && orders.has(row.warehouse, row.district, row.order)
}

/// ORDER-LINE: the key is new; the order, the item and the supplying warehouse are there.
#[derive(Clone, Copy)]
pub(crate) struct OrderLineRule<'a> {
    pub warehouses: &'a [Warehouse],
    pub items: &'a [Item],
    pub orders: Orders<'a>,
    pub rows: &'a [OrderLine],
}

impl Rule<OrderLine, IndexSet<LineId>> for OrderLineRule<'_> {
    ghost rows = { λ rule. rule.rows.now };

    ghost right = { λ rule.
        IsOrderLineAt rule.warehouses.now rule.items.now rule.orders.rows.now rule.rows.now };

    ghost Whole = { λ rule. ⊤ };

    ghost holds = { λ rule. KnowsLines rule };

    ghost has_seen = { λ seen rows. HasKeys same_line is_line_with seen rows };

    fn rows(&self) -> &[OrderLine] {
        self.rows
    }

    fn is_right(
        &self,
        seen: &mut IndexSet<LineId>,
        _place: usize,
        row: &OrderLine,
    ) -> Result<bool, AllocError> {
        if !self.is_line(row) {
            return Ok(false);
        }
        let order = OrderId::new(row.warehouse, row.district, row.order);
        let number = row.number;
        let is_new = seen.insert(LineId { order, number })?;
        Ok(is_new)
    }

    fn is_whole(&self) -> bool {
        true
    }
}

impl OrderLineRule<'_> {
    /// Whether a row of ORDER-LINE is in range, and its order, item and supplying warehouse are there.
    fn is_line(&self, row: &OrderLine) -> bool
        requires { KnowsLines self.now }
        ensures { IsTrue result ↔ IsLineOf self.now row.now }
    {
        row.is_in_range()
            && self.orders.has(row.warehouse, row.district, row.order)
            && row.item as usize <= self.items.len()
            && usize::from(row.supply_warehouse) <= self.warehouses.len()
    }
}

/// HISTORY: the district and the customer are there.
#[derive(Clone, Copy)]
pub(crate) struct HistoryRule<'a> {
    pub customers: Customers<'a>,
    pub rows: &'a [History],
}

impl Rule<History, ()> for HistoryRule<'_> {
    ghost rows = { λ rule. rule.rows.now };

    ghost right = { λ rule. IsHistoryAt rule.customers.districts.now rule.customers.rows.now };

    ghost Whole = { λ rule. ⊤ };

    ghost holds = { λ rule. HasCustomers rule.customers };

    ghost has_seen = { λ seen rows. ⊤ };

    fn rows(&self) -> &[History] {
        self.rows
    }

    fn is_right(&self, _seen: &mut (), _place: usize, row: &History) -> Result<bool, AllocError> {
        Ok(
            row.is_in_range()
                && self.customers.has_district(row.warehouse, row.district)
                && self.customers.has(row.customer_warehouse, row.customer_district, row.customer),
        )
    }

    fn is_whole(&self) -> bool {
        true
    }
}
