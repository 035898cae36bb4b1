//! Consistency conditions of customers: 10 and 12 (TPC-C clauses 3.3.2.10 and 3.3.2.12).

ghost use Rattle.std.specs.Prelude.{◌≡◌, ◌^◌, ◌-◌, pos, ◌+ℤ◌, ◌≤ℤ◌, neg_ℤ, map, IfOk};
ghost use Rattle.std.specs.List.{list_all};
ghost use Rattle.std.proofs.Common.{int_eq};
ghost use Rattle.hy_schema.specs.Conditions.{column_sum, condition_10, condition_12, paid_amount};
ghost use Rattle.hy_conditions.specs.declared.keys.CustomerId.{CustomerId};
ghost use Rattle.hy_conditions.specs.declared.keys.OrderId.{OrderId};
ghost use Rattle.hy_conditions.specs.Delivered.{
  delivered_at,
  delivered_of,
  delivered_with,
  high_part,
  line_amount,
  low_part,
  of_parts,
};
ghost use Rattle.hy_conditions.specs.Groups.{IsSmall, sum_at};
ghost use Rattle.hy_conditions.specs.Keys.{
  customer_of_order,
  customer_of_payment,
  key_of_customer,
  key_of_line,
  key_of_order,
  lines_with,
  orders_with,
  payments_with,
  same_customer,
  same_order,
};

use crate::keys::{CustomerId, OrderId};
use crate::orders;
use crate::sums::{sum_at, sums_by_key};
use hy_schema::{Customer, History, Order, OrderLine, Tables};
use indexmap::IndexMap;
use std::alloc::{AllocError, Global};

/// For each customer what was delivered, in cents: 2^63 times the sum in `high`, and the sum in `low`. An
/// order key that many orders share counts for each of them, so that one sum of 128 bits could be too small.
#[derive(Drop)]
pub struct Delivered {
    high: IndexMap<CustomerId, i128>,
    low: IndexMap<CustomerId, i128>,
}

/// The parts of a sum are the quotient and the remainder by this.
const PART: i128 = 9_223_372_036_854_775_808;

/// For each customer what was delivered, by the rows of all tables.
pub fn delivered_in(alloc: Global, tables: &Tables) -> Result<Delivered, AllocError>
    ensures { IfOk result (λ delivered. (key : CustomerId)
        → delivered_at delivered key ≡ delivered_with key tables.now.orders tables.now.order_lines) }
{
    delivered_by_customer(alloc, tables.list(), tables.list())
}

/// Whether the rows meet condition 10. What was delivered was found before.
pub fn meets_condition_10(
    alloc: Global,
    tables: &Tables,
    delivered: &Delivered,
) -> Result<bool, AllocError>
    requires { (key : CustomerId)
        → delivered_at delivered.now key ≡ delivered_with key tables.now.orders tables.now.order_lines }
    ensures { IfOk result (λ meets. meets ≡ condition_10 tables.now) }
{
    let customers: &[Customer] = tables.list();
    let paid = paid_by_customer(alloc, tables.list())?;
    Ok(are_delivered_less_paid(customers, delivered, &paid))
}

/// Whether C_BALANCE of each customer and what was paid for the customer come to what was delivered.
fn are_delivered_less_paid(
    customers: &[Customer],
    delivered: &Delivered,
    paid: &IndexMap<CustomerId, i128>,
) -> bool
    requires { (key : CustomerId) → IsSmall (sum_at same_customer paid.now key) }
    ensures { result ≡ list_all (λ row. int_eq
        (row.balance +ℤ sum_at same_customer paid.now (key_of_customer row))
        (delivered_at delivered.now (key_of_customer row))) customers.now }
{
    customers
        .iter()
        .all(|row| is_delivered_less_paid(row, delivered, paid))
}

/// Whether C_BALANCE of a customer and what was paid for the customer come to what was delivered.
fn is_delivered_less_paid(
    row: &Customer,
    delivered: &Delivered,
    paid: &IndexMap<CustomerId, i128>,
) -> bool
    requires { IsSmall (sum_at same_customer paid.now (key_of_customer row.now)) }
    ensures { result ≡ int_eq (row.now.balance +ℤ sum_at same_customer paid.now (key_of_customer row.now))
        (delivered_at delivered.now (key_of_customer row.now)) }
{
    is_delivered(delivered, key_of(row), balance_and_paid(row, paid))
}

/// C_BALANCE of a customer and what was paid for the customer.
fn balance_and_paid(row: &Customer, paid: &IndexMap<CustomerId, i128>) -> i128
    requires { IsSmall (sum_at same_customer paid.now (key_of_customer row.now)) }
    ensures { result ≡ row.now.balance +ℤ sum_at same_customer paid.now (key_of_customer row.now) }
{
    let balance = row.balance;
    let sum = sum_at(paid, key_of(row));
    i128::from(balance) + sum
}

/// Whether the rows meet condition 12. What was delivered was found before.
pub fn meets_condition_12(tables: &Tables, delivered: &Delivered) -> bool
    requires { (key : CustomerId)
        → delivered_at delivered.now key ≡ delivered_with key tables.now.orders tables.now.order_lines }
    ensures { result ≡ condition_12 tables.now }
{
    let customers: &[Customer] = tables.list();
    are_balanced(customers, delivered)
}

/// Whether C_BALANCE + C_YTD_PAYMENT of each customer is what was delivered.
fn are_balanced(customers: &[Customer], delivered: &Delivered) -> bool
    ensures { result ≡ list_all (λ row. int_eq (row.balance +ℤ row.ytd_payment)
        (delivered_at delivered.now (key_of_customer row))) customers.now }
{
    customers.iter().all(|row| is_balanced(row, delivered))
}

/// Whether C_BALANCE + C_YTD_PAYMENT of a customer is what was delivered.
fn is_balanced(row: &Customer, delivered: &Delivered) -> bool
    ensures { result ≡ int_eq (row.now.balance +ℤ row.now.ytd_payment)
        (delivered_at delivered.now (key_of_customer row.now)) }
{
    let amount = i128::from(row.balance) + i128::from(row.ytd_payment);
    is_delivered(delivered, key_of(row), amount)
}

/// Whether this amount was delivered to a customer.
fn is_delivered(delivered: &Delivered, key: CustomerId, amount: i128) -> bool
    ensures { result ≡ int_eq amount (delivered_at delivered.now key) }
{
    is_of_parts(
        amount,
        sum_at(&delivered.high, key),
        sum_at(&delivered.low, key),
    )
}

/// Whether an amount is 2^63 times one sum and another one.
fn is_of_parts(amount: i128, high: i128, low: i128) -> bool
    ensures { result ≡ int_eq amount (of_parts high low) }
{
    let (amount_high, amount_low) = parts(amount);
    let (low_high, low_low) = parts(low);
    let (rest_high, rest_low) = parts(amount_low - low_low);
    if rest_low != 0 {
        return false;
    }
    are_same(amount_high - low_high + rest_high, high)
}

/// Whether two amounts are the same.
fn are_same(amount: i128, other: i128) -> bool
    ensures { result ≡ int_eq amount other }
{
    amount == other
}

/// The quotient and the remainder of an amount by `PART`.
fn parts(amount: i128) -> (i128, i128)
    ensures whole { amount ≡ of_parts result.0 result.1 }
    ensures above { neg_ℤ (pos (2 ^ 63 - 1)) ≤ℤ result.1 }
    ensures below { result.1 ≤ℤ pos (2 ^ 63 - 1) }
    ensures least { neg_ℤ (pos (2 ^ 64)) ≤ℤ result.0 }
    ensures greatest { result.0 ≤ℤ pos (2 ^ 64) }
{
    (amount / PART, amount % PART)
}

/// For each customer what was delivered.
fn delivered_by_customer(
    alloc: Global,
    orders: &[Order],
    lines: &[OrderLine],
) -> Result<Delivered, AllocError>
    ensures { IfOk result (λ delivered. (key : CustomerId)
        → delivered_at delivered key ≡ delivered_with key orders.now lines.now) }
{
    let by_order = delivered_by_order(alloc, lines)?;
    let high = high_by_customer(alloc, orders, &by_order)?;
    let low = low_by_customer(alloc, orders, &by_order)?;
    Ok(Delivered { high, low })
}

/// For each customer the sum of the high parts of what was delivered of the customer's orders.
fn high_by_customer(
    alloc: Global,
    orders: &[Order],
    delivered: &IndexMap<OrderId, i128>,
) -> Result<IndexMap<CustomerId, i128>, AllocError>
    requires { (key : OrderId) → IsSmall (sum_at same_order delivered.now key) }
    ensures { IfOk result (λ sums. (key : CustomerId) → sum_at same_customer sums key ≡ column_sum
        (λ row. high_part (sum_at same_order delivered.now (key_of_order row)))
        (orders_with key orders.now)) }
{
    let entries = high_entries(alloc, orders, delivered)?;
    sums_by_key(alloc, &entries)
}

/// The high part of what was delivered of each order, with its customer.
fn high_entries(
    alloc: Global,
    orders: &[Order],
    delivered: &IndexMap<OrderId, i128>,
) -> Result<Vec<(CustomerId, i64)>, AllocError>
    requires { (key : OrderId) → IsSmall (sum_at same_order delivered.now key) }
    ensures { IfOk result (λ entries. entries.items ≡ map (λ row. (
      customer_of_order row,
      high_part (sum_at same_order delivered.now (key_of_order row)),
    )) orders.now) }
{
    let mut entries = Vec::new(alloc);
    for row in orders {
        entries.push(high_entry(row, delivered))?;
    }
    Ok(entries)
}

/// The high part of what was delivered of an order, with its customer.
fn high_entry(row: &Order, delivered: &IndexMap<OrderId, i128>) -> (CustomerId, i64)
    requires { IsSmall (sum_at same_order delivered.now (key_of_order row.now)) }
    ensures { result
        ≡ (customer_of_order row.now, high_part (sum_at same_order delivered.now (key_of_order row.now))) }
{
    let sum = sum_at(delivered, orders::key_of(row));
    (customer_of(row), high_part(sum))
}

/// For each customer the sum of the low parts of what was delivered of the customer's orders.
fn low_by_customer(
    alloc: Global,
    orders: &[Order],
    delivered: &IndexMap<OrderId, i128>,
) -> Result<IndexMap<CustomerId, i128>, AllocError>
    ensures { IfOk result (λ sums. (key : CustomerId) → sum_at same_customer sums key ≡ column_sum
        (λ row. low_part (sum_at same_order delivered.now (key_of_order row))) (orders_with key orders.now)) }
{
    let entries = low_entries(alloc, orders, delivered)?;
    sums_by_key(alloc, &entries)
}

/// The low part of what was delivered of each order, with its customer.
fn low_entries(
    alloc: Global,
    orders: &[Order],
    delivered: &IndexMap<OrderId, i128>,
) -> Result<Vec<(CustomerId, i64)>, AllocError>
    ensures { IfOk result (λ entries. entries.items ≡ map (λ row. (
      customer_of_order row,
      low_part (sum_at same_order delivered.now (key_of_order row)),
    )) orders.now) }
{
    orders
        .iter()
        .map(|row| low_entry(row, delivered))
        .collect(alloc)
}

/// The low part of what was delivered of an order, with its customer.
fn low_entry(row: &Order, delivered: &IndexMap<OrderId, i128>) -> (CustomerId, i64)
    ensures { result
        ≡ (customer_of_order row.now, low_part (sum_at same_order delivered.now (key_of_order row.now))) }
{
    let sum = sum_at(delivered, orders::key_of(row));
    (customer_of(row), low_part(sum))
}

/// A sum's quotient by `PART`.
fn high_part(sum: i128) -> i64
    requires { IsSmall sum }
    ensures { result ≡ high_part sum }
{
    (sum / PART) as i64
}

/// A sum's remainder by `PART`.
fn low_part(sum: i128) -> i64
    ensures { result ≡ low_part sum }
{
    (sum % PART) as i64
}

/// For each order what was delivered of it, in cents.
fn delivered_by_order(
    alloc: Global,
    lines: &[OrderLine],
) -> Result<IndexMap<OrderId, i128>, AllocError>
    ensures sums { IfOk result (λ sums. (key : OrderId)
        → sum_at same_order sums key ≡ delivered_of (lines_with key lines.now)) }
    ensures small { IfOk result (λ sums. (key : OrderId) → IsSmall (sum_at same_order sums key)) }
{
    let entries = line_entries(alloc, lines)?;
    sums_by_key(alloc, &entries)
}

/// What was delivered of each order line, with the key of its order.
fn line_entries(alloc: Global, lines: &[OrderLine]) -> Result<Vec<(OrderId, i64)>, AllocError>
    ensures { IfOk result (λ entries. entries.items
        ≡ map (λ row. (key_of_line row, line_amount row)) lines.now) }
{
    lines
        .iter()
        .map(|row| {
            (
                OrderId::new(row.warehouse, row.district, row.order),
                line_amount(row),
            )
        })
        .collect(alloc)
}

/// OL_AMOUNT of a line that was delivered, else 0.
fn line_amount(row: &OrderLine) -> i64
    ensures { result ≡ line_amount row.now }
{
    if row.delivery_date == 0 {
        0
    } else {
        row.amount
    }
}

/// For each customer the sum of H_AMOUNT of the payments by the customer, in cents.
fn paid_by_customer(
    alloc: Global,
    history: &[History],
) -> Result<IndexMap<CustomerId, i128>, AllocError>
    ensures sums { IfOk result (λ sums. (key : CustomerId)
        → sum_at same_customer sums key ≡ paid_amount (payments_with key history.now)) }
    ensures small { IfOk result (λ sums. (key : CustomerId) → IsSmall (sum_at same_customer sums key)) }
{
    let entries = paid_entries(alloc, history)?;
    sums_by_key(alloc, &entries)
}

/// H_AMOUNT of each payment, with the key of the customer who paid.
fn paid_entries(alloc: Global, history: &[History]) -> Result<Vec<(CustomerId, i64)>, AllocError>
    ensures { IfOk result
        (λ entries. entries.items ≡ map (λ row. (customer_of_payment row, row.amount)) history.now) }
{
    history
        .iter()
        .map(|row| {
            (
                CustomerId::new(row.customer_warehouse, row.customer_district, row.customer),
                row.amount,
            )
        })
        .collect(alloc)
}

/// The key of a customer.
fn key_of(row: &Customer) -> CustomerId
    ensures { result ≡ key_of_customer row.now }
{
    CustomerId::new(row.warehouse, row.district, row.id)
}

/// The key of an order's customer.
fn customer_of(row: &Order) -> CustomerId
    ensures { result ≡ customer_of_order row.now }
{
    CustomerId::new(row.warehouse, row.district, row.customer)
}
