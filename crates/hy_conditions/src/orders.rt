//! Consistency conditions of orders: 5, 6 and 7 (TPC-C clauses 3.3.2.5 to 3.3.2.7).

ghost use Rattle.std.specs.Prelude.{
  ◌≡◌,
  ◌==◌,
  if◌then◌else◌,
  true,
  false,
  not,
  Bool,
  pos,
  length,
  map,
  IfOk,
};
ghost use Rattle.std.specs.List.{list_all};
ghost use Rattle.std.proofs.Common.{int_eq};
ghost use Rattle.hy_schema.specs.Conditions.{agree, condition_5, condition_6, condition_7};
ghost use Rattle.hy_conditions.specs.declared.keys.OrderId.{OrderId};
ghost use Rattle.hy_conditions.specs.Groups.{sum_at};
ghost use Rattle.hy_conditions.specs.Keys.{
  key_of_line,
  key_of_new_order,
  key_of_order,
  lines_with,
  new_orders_with,
  same_order,
};
ghost use Rattle.hy_conditions.specs.Lines.{disagreeing, is_other};

use crate::keys::OrderId;
use crate::sums::{sum_at, sums_by_key};
use hy_schema::{NewOrder, Order, OrderLine, Tables};
use indexmap::IndexMap;
use std::alloc::{AllocError, Global};

/// Whether the rows meet condition 5.
pub fn meets_condition_5(alloc: Global, tables: &Tables) -> Result<bool, AllocError>
    ensures { IfOk result (λ meets. meets ≡ condition_5 tables.now) }
{
    let orders: &[Order] = tables.list();
    let news = new_orders_by_order(alloc, tables.list())?;
    Ok(are_carried_or_new(orders, &news))
}

/// Whether each order has no carrier exactly where it is undelivered.
fn are_carried_or_new(orders: &[Order], news: &IndexMap<OrderId, i128>) -> bool
    ensures { result ≡ list_all (λ row. agree (row.carrier == 0)
        (not (int_eq (sum_at same_order news.now (key_of_order row)) (pos 0)))) orders.now }
{
    orders.iter().all(|row| is_carried_or_new(row, news))
}

/// Whether an order has no carrier exactly where it is undelivered.
fn is_carried_or_new(row: &Order, news: &IndexMap<OrderId, i128>) -> bool
    ensures { result ≡ agree (row.now.carrier == 0)
        (not (int_eq (sum_at same_order news.now (key_of_order row.now)) (pos 0))) }
{
    let is_new = sum_at(news, key_of(row)) != 0;
    if row.carrier == 0 { is_new } else { !is_new }
}

/// For each order how many rows of NEW-ORDER it has.
fn new_orders_by_order(
    alloc: Global,
    news: &[NewOrder],
) -> Result<IndexMap<OrderId, i128>, AllocError>
    ensures { IfOk result (λ sums. (key : OrderId)
        → sum_at same_order sums key ≡ pos (length (new_orders_with key news.now))) }
{
    let entries = new_order_entries(alloc, news)?;
    sums_by_key(alloc, &entries)
}

/// 1 for each row of NEW-ORDER, with the key of its order.
fn new_order_entries(alloc: Global, news: &[NewOrder]) -> Result<Vec<(OrderId, i64)>, AllocError>
    ensures { IfOk result (λ entries. entries.items ≡ map (λ row. (key_of_new_order row, pos 1)) news.now) }
{
    news.iter()
        .map(|row| (OrderId::new(row.warehouse, row.district, row.order), 1))
        .collect(alloc)
}

/// Whether the rows meet condition 6.
pub fn meets_condition_6(alloc: Global, tables: &Tables) -> Result<bool, AllocError>
    ensures { IfOk result (λ meets. meets ≡ condition_6 tables.now) }
{
    let orders: &[Order] = tables.list();
    let lines = lines_by_order(alloc, tables.list())?;
    Ok(count_their_lines(orders, &lines))
}

/// Whether O_OL_CNT of each order is the count that stands with it.
fn count_their_lines(orders: &[Order], lines: &IndexMap<OrderId, i128>) -> bool
    ensures { result ≡ list_all (λ row. int_eq (pos row.line_count)
        (sum_at same_order lines.now (key_of_order row))) orders.now }
{
    orders.iter().all(|row| counts_its_lines(row, lines))
}

/// Whether O_OL_CNT of an order is the count that stands with it.
fn counts_its_lines(row: &Order, lines: &IndexMap<OrderId, i128>) -> bool
    ensures { result ≡ int_eq (pos row.now.line_count) (sum_at same_order lines.now (key_of_order row.now)) }
{
    i128::from(row.line_count) == sum_at(lines, key_of(row))
}

/// For each order how many lines it has.
fn lines_by_order(alloc: Global, lines: &[OrderLine]) -> Result<IndexMap<OrderId, i128>, AllocError>
    ensures { IfOk result (λ sums. (key : OrderId)
        → sum_at same_order sums key ≡ pos (length (lines_with key lines.now))) }
{
    let entries = line_entries(alloc, lines)?;
    sums_by_key(alloc, &entries)
}

/// 1 for each order line, with the key of its order.
fn line_entries(alloc: Global, lines: &[OrderLine]) -> Result<Vec<(OrderId, i64)>, AllocError>
    ensures { IfOk result (λ entries. entries.items ≡ map (λ row. (key_of_line row, pos 1)) lines.now) }
{
    lines
        .iter()
        .map(|row| (OrderId::new(row.warehouse, row.district, row.order), 1))
        .collect(alloc)
}

/// Whether the rows meet condition 7.
pub fn meets_condition_7(alloc: Global, tables: &Tables) -> Result<bool, AllocError>
    ensures { IfOk result (λ meets. meets ≡ condition_7 tables.now) }
{
    let orders: &[Order] = tables.list();
    let delivered = others_by_order(alloc, tables.list(), true)?;
    let undelivered = others_by_order(alloc, tables.list(), false)?;
    Ok(are_delivered_with_lines(orders, &delivered, &undelivered))
}

/// Whether no order without a carrier has a delivered line, and no other one an undelivered line.
fn are_delivered_with_lines(
    orders: &[Order],
    delivered: &IndexMap<OrderId, i128>,
    undelivered: &IndexMap<OrderId, i128>,
) -> bool
    ensures { result ≡ list_all (λ row. int_eq (if row.carrier == 0
        then sum_at same_order delivered.now (key_of_order row)
        else sum_at same_order undelivered.now (key_of_order row)) (pos 0)) orders.now }
{
    orders
        .iter()
        .all(|row| is_delivered_with_lines(row, delivered, undelivered))
}

/// Whether an order without a carrier has no delivered line, and another one no undelivered line.
fn is_delivered_with_lines(
    row: &Order,
    delivered: &IndexMap<OrderId, i128>,
    undelivered: &IndexMap<OrderId, i128>,
) -> bool
    ensures { result ≡ int_eq (if row.now.carrier == 0
        then sum_at same_order delivered.now (key_of_order row.now)
        else sum_at same_order undelivered.now (key_of_order row.now)) (pos 0) }
{
    if row.carrier == 0 {
        sum_at(delivered, key_of(row)) == 0
    } else {
        sum_at(undelivered, key_of(row)) == 0
    }
}

/// For each order how many of its lines are delivered where all are to be undelivered, or undelivered where
/// none is to be.
fn others_by_order(
    alloc: Global,
    lines: &[OrderLine],
    undelivered: bool,
) -> Result<IndexMap<OrderId, i128>, AllocError>
    ensures { IfOk result (λ sums. (key : OrderId)
        → sum_at same_order sums key ≡ disagreeing undelivered (lines_with key lines.now)) }
{
    let entries = other_entries(alloc, lines, undelivered)?;
    sums_by_key(alloc, &entries)
}

/// With the key of its order 0 for each line that is as it is to be, and 1 for each other one.
fn other_entries(
    alloc: Global,
    lines: &[OrderLine],
    undelivered: bool,
) -> Result<Vec<(OrderId, i64)>, AllocError>
    ensures { IfOk result (λ entries. entries.items ≡ map
        (λ row. (key_of_line row, is_other undelivered row)) lines.now) }
{
    lines
        .iter()
        .map(|row| {
            (
                OrderId::new(row.warehouse, row.district, row.order),
                other(row, undelivered),
            )
        })
        .collect(alloc)
}

/// 0 for a line that is undelivered exactly where it is to be, else 1.
fn other(row: &OrderLine, undelivered: bool) -> i64
    ensures { result ≡ is_other undelivered row.now }
{
    let agrees = if row.delivery_date == 0 {
        undelivered
    } else {
        !undelivered
    };
    if agrees { 0 } else { 1 }
}

/// The key of an order.
pub fn key_of(row: &Order) -> OrderId
    ensures { result ≡ key_of_order row.now }
{
    OrderId::new(row.warehouse, row.district, row.id)
}
