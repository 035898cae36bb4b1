//! Loads: the rows that a database begins with.

ghost use Rattle.std.specs.Prelude.{◌≡◌, IfErr, OnOk};
ghost use Rattle.indexmap.specs.IndexSet.{IsEmpty};
ghost use Rattle.hy_schema.specs.Loads.{AreHistory, IsLoad, all_whole};
ghost use Rattle.hy_conditions.specs.Keys.{same_customer};
ghost use Rattle.hy_loads.specs.Checks.{AreBaseRight, AreOrdersRight, IsRefusalOf};
ghost use Rattle.hy_loads.specs.There.{HasCustomers, HasKeys, is_customer_by};

use crate::base::{CustomerRule, DistrictRule, ItemRule, StockRule, WarehouseRule};
use crate::list::check_list;
use crate::orders::{Customers, HistoryRule, NewOrderRule, OrderLineRule, OrderRule, Orders};
use hy_conditions::{CustomerId, first_broken};
use hy_rows::{Listed, Lists, PerTable, Table, Tables, Warehouse};
use hy_schema::{FileEnd, LoadFault, Refusal};
use indexmap::IndexSet;
use std::alloc::{AllocError, Global};
use std::marker::Model;
use std::sync::Arc;

/// The rows that a database begins with. Each load meets the rules of its lists and the consistency conditions (TPC-C
/// clause 3.3.2), since `of` and `of_files` alone make one. Its lists are held once, however often it is shared.
#[derive(Drop)]
pub struct Load {
    lists: Arc<Lists>,
}

impl Model for Load {
    ghost use Rattle.std.specs.Arc.{arc_value};
    ghost use Rattle.hy_rows.specs.Tables.{Lists};
    ghost use Rattle.hy_schema.specs.Loads.{IsLoad};

    ghost Value = { Lists };

    ghost view = { λ load. arc_value load.lists };

    ghost invariant = { λ load. IsLoad (arc_value load.lists) };
}

impl Load {
    ghost use Rattle.std.specs.Prelude.{◌≡◌, IfOk, MatchResult};
    ghost use Rattle.hy_schema.specs.Loads.{IsLoad};

    /// The load with these lists. E12 names the first wrong row of the first wrong list, in the order WAREHOUSE,
    /// DISTRICT, CUSTOMER, ITEM, STOCK, ORDER, NEW-ORDER, ORDER-LINE, HISTORY, or else the first broken consistency
    /// condition; E1 where memory is refused. Takes time and memory in proportion to the rows.
    pub fn of(alloc: Global, lists: Lists) -> Result<Load, Refusal>
        ensures { MatchResult result (λ load. (load ≡ lists) × IsLoad lists)
            (IsRefusalOf all_whole lists) }
    {
        let ends = PerTable::of(FileEnd::Whole);
        Load::of_files(alloc, lists, ends)
    }

    /// The load with the lists of nine files that were read so far, where all were read to their end. Else E12 names
    /// the first wrong row, as `of` does: that behind the rows of a list, where its file has a record that is no
    /// row of its table, and row 0, where it has no header.
    pub fn of_files(alloc: Global, lists: Lists, ends: PerTable<FileEnd>) -> Result<Load, Refusal>
        ensures { MatchResult result (λ load. (load ≡ lists) × (ends ≡ all_whole) × IsLoad lists)
            (IsRefusalOf ends lists) }
    {
        check(alloc, &lists, ends)?;
        match Arc::new(alloc, lists) {
            Ok(lists) => Ok(Load { lists }),
            Err(_) => Err(Refusal::NoMemory),
        }
    }

    /// The same load once more, with the same lists and no copy of them.
    pub fn share(&self) -> Result<Load, AllocError>
        ensures { IfOk result (λ load. load ≡ self.now) }
    {
        let lists = Arc::try_clone(&self.lists)?;
        Ok(Load { lists })
    }

    /// The rows of one table.
    pub fn list<R: Listed>(&self) -> &[R]
        ensures { result.now ≡ R.list_in self.now }
    {
        self.lists.list()
    }

    /// The rows of all tables.
    pub fn lists(&self) -> &Lists
        ensures { result.now ≡ self.now }
    {
        &self.lists
    }

    /// The rows of the tables that lie on pages.
    pub fn tables(&self) -> &Tables
        ensures { result.now ≡ self.now.tables }
    {
        &self.lists.tables
    }

    /// What holds of every load.
    pub fn sound(&self)
        ensures { IsLoad self.now }
    {
        let _lists = &self.lists;
    }
}

/// Tests lists whose files were read so far. A refusal names the first fault.
fn check(alloc: Global, lists: &Lists, ends: PerTable<FileEnd>) -> Result<(), Refusal>
    ensures ok { OnOk result ((ends ≡ all_whole) × IsLoad lists.now) }
    ensures fault { IfErr result (IsRefusalOf ends lists.now) }
{
    let mut keys = IndexSet::new(alloc);
    check_base(lists, ends, &mut keys)?;
    let customers = Customers {
        warehouses: lists.list::<Warehouse>().len(),
        districts: lists.list(),
        rows: lists.list(),
        keys: &keys,
    };
    check_orders(alloc, lists, ends, customers)?;
    let rows = lists.list();
    let rule = HistoryRule { customers, rows };
    check_list(Table::History, ends.history, &rule, &mut ())?;
    match first_broken(alloc, &lists.tables)? {
        None => Ok(()),
        Some(number) => Err(Refusal::BadLoad(LoadFault::Condition(number))),
    }
}

/// Tests the lists that never gain a row, and keeps the keys of the customers.
fn check_base(
    lists: &Lists,
    ends: PerTable<FileEnd>,
    customers: &mut IndexSet<CustomerId>,
) -> Result<(), Refusal>
    requires { IsEmpty customers.old }
    ensures right { OnOk result (AreBaseRight ends lists.now) }
    ensures keys { OnOk result
        (HasKeys same_customer is_customer_by customers.new lists.now.tables.customers) }
    ensures fault { IfErr result (IsRefusalOf ends lists.now) }
{
    let rows = lists.list();
    let warehouses = rows.len();
    let rule = WarehouseRule { rows };
    check_list(Table::Warehouse, ends.warehouses, &rule, &mut ())?;
    let rows = lists.list();
    let rule = DistrictRule { warehouses, rows };
    check_list(Table::District, ends.districts, &rule, &mut ())?;
    let rows = lists.list();
    let rule = CustomerRule { warehouses, rows };
    check_list(Table::Customer, ends.customers, &rule, customers)?;
    let rows = lists.list();
    let items = rows.len();
    let rule = ItemRule { rows };
    check_list(Table::Item, ends.items, &rule, &mut ())?;
    let rows = lists.list();
    let rule = StockRule {
        warehouses,
        items,
        rows,
    };
    check_list(Table::Stock, ends.stock, &rule, &mut ())
}

/// Tests the lists of orders, undelivered orders and order lines.
fn check_orders(
    alloc: Global,
    lists: &Lists,
    ends: PerTable<FileEnd>,
    customers: Customers<'_>,
) -> Result<(), Refusal>
    requires base { AreBaseRight ends lists.now }
    requires customers { HasCustomers customers }
    requires districts { customers.districts.now ≡ lists.now.tables.districts }
    requires rows { customers.rows.now ≡ lists.now.tables.customers }
    ensures right { OnOk result (AreOrdersRight ends lists.now) }
    ensures fault { IfErr result (IsRefusalOf ends lists.now) }
{
    let mut keys = IndexSet::new(alloc);
    let order_rows = lists.list();
    let rule = OrderRule {
        customers,
        rows: order_rows,
    };
    check_list(Table::Order, ends.orders, &rule, &mut keys)?;
    let orders = Orders {
        rows: order_rows,
        keys: &keys,
    };
    let mut new_order_keys = IndexSet::new(alloc);
    let rows = lists.list();
    let rule = NewOrderRule { orders, rows };
    check_list(Table::NewOrder, ends.new_orders, &rule, &mut new_order_keys)?;
    let mut line_keys = IndexSet::new(alloc);
    let rule = OrderLineRule {
        warehouses: lists.list(),
        items: lists.list(),
        orders,
        rows: lists.list(),
    };
    check_list(Table::OrderLine, ends.order_lines, &rule, &mut line_keys)
}
