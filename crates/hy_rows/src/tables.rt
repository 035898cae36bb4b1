//! The rows of all tables, as lists.

ghost use Rattle.std.specs.Prelude.{◌≡◌, [], ◌∷◌, ◌++◌, filter, IfOk, OnOk};

use crate::customer::Customer;
use crate::district::District;
use crate::history::History;
use crate::new_order::NewOrder;
use crate::order::Order;
use crate::order_line::OrderLine;
use crate::row::{Row, RowSource};
use crate::stock::Stock;
use crate::warehouse::Warehouse;
use std::alloc::{AllocError, Global};
use std::marker::Model;

/// The rows of each table that lies on pages, in their order (TPC-C clause 1.2): those of a load, or of one warehouse
/// of it.
#[derive(Drop)]
pub struct Tables {
    pub warehouses: Vec<Warehouse>,
    pub districts: Vec<District>,
    pub customers: Vec<Customer>,
    pub history: Vec<History>,
    pub new_orders: Vec<NewOrder>,
    pub orders: Vec<Order>,
    pub order_lines: Vec<OrderLine>,
    pub stock: Vec<Stock>,
}

/// A value for each table.
#[derive(Clone, Copy, Debug, PartialEq, Eq)]
pub struct PerTable<T> {
    pub warehouses: T,
    pub districts: T,
    pub customers: T,
    pub history: T,
    pub new_orders: T,
    pub orders: T,
    pub order_lines: T,
    pub stock: T,
    pub items: T,
}

impl<T: Copy> PerTable<T> {
    ghost use Rattle.hy_rows.specs.Tables.{same_for_all};

    /// The same value for each table.
    pub fn of(value: T) -> PerTable<T>
        ensures { result ≡ same_for_all value }
    {
        PerTable {
            warehouses: value,
            districts: value,
            customers: value,
            history: value,
            new_orders: value,
            orders: value,
            order_lines: value,
            stock: value,
            items: value,
        }
    }
}

// Clauses see the lists.
impl Model for Tables {
    ghost use Rattle.hy_rows.specs.Tables.{Tables};

    ghost Value = { Tables };

    ghost view = { λ tables. record {
      warehouses = tables.warehouses.items;
      districts = tables.districts.items;
      customers = tables.customers.items;
      history = tables.history.items;
      new_orders = tables.new_orders.items;
      orders = tables.orders.items;
      order_lines = tables.order_lines.items;
      stock = tables.stock.items;
    } };
}

impl Tables {
    ghost use Rattle.hy_rows.specs.Tables.{no_rows, of_warehouse};

    /// No rows.
    pub fn new(alloc: Global) -> Tables
        ensures { result ≡ no_rows }
    {
        Tables {
            warehouses: Vec::new(alloc),
            districts: Vec::new(alloc),
            customers: Vec::new(alloc),
            history: Vec::new(alloc),
            new_orders: Vec::new(alloc),
            orders: Vec::new(alloc),
            order_lines: Vec::new(alloc),
            stock: Vec::new(alloc),
        }
    }

    /// The rows of one table.
    pub fn list<R: Row>(&self) -> &[R]
        ensures { result.now ≡ R.rows_in self.now }
    {
        R::rows_of(self)
    }

    /// A copy of the rows that a source has. Only memory can lack.
    pub fn copied_from<S: RowSource>(source: &S) -> Result<Tables, AllocError>
        ensures { IfOk result (λ tables. tables ≡ S.tables_of source.now) }
    {
        Ok(Tables {
            warehouses: source.copy_rows()?,
            districts: source.copy_rows()?,
            customers: source.copy_rows()?,
            history: source.copy_rows()?,
            new_orders: source.copy_rows()?,
            orders: source.copy_rows()?,
            order_lines: source.copy_rows()?,
            stock: source.copy_rows()?,
        })
    }

    /// A copy of the rows of one warehouse.
    pub fn of_warehouse(&self, alloc: Global, warehouse: u8) -> Result<Tables, AllocError>
        ensures { IfOk result (λ tables. tables ≡ of_warehouse warehouse self.now) }
    {
        Ok(Tables {
            warehouses: rows_of_one(alloc, self.list(), warehouse)?,
            districts: rows_of_one(alloc, self.list(), warehouse)?,
            customers: rows_of_one(alloc, self.list(), warehouse)?,
            history: rows_of_one(alloc, self.list(), warehouse)?,
            new_orders: rows_of_one(alloc, self.list(), warehouse)?,
            orders: rows_of_one(alloc, self.list(), warehouse)?,
            order_lines: rows_of_one(alloc, self.list(), warehouse)?,
            stock: rows_of_one(alloc, self.list(), warehouse)?,
        })
    }
}

/// Those rows that belong to a warehouse.
fn rows_of_one<R: Row>(alloc: Global, rows: &[R], warehouse: u8) -> Result<Vec<R>, AllocError>
    ensures { IfOk result (λ found. found.items ≡ filter (R.is_of warehouse) rows.now) }
{
    let mut found = Vec::new(alloc);
    for row in rows {
        push_own(alloc, &mut found, row, warehouse)?;
    }
    Ok(found)
}

/// Appends a copy of a row that belongs to a warehouse.
fn push_own<R: Row>(
    alloc: Global,
    found: &mut Vec<R>,
    row: &R,
    warehouse: u8,
) -> Result<(), AllocError>
    ensures { OnOk result (found.new.items ≡ found.old.items ++ filter (R.is_of warehouse) (row.now ∷ [])) }
{
    if row.belongs_to(warehouse) {
        found.push(row.copy(alloc)?)?;
    }
    Ok(())
}
