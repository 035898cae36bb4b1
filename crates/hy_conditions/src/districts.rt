//! Consistency conditions of districts: 2, 3, 4 and 9 (TPC-C clauses 3.3.2.2 to 3.3.2.4 and 3.3.2.9).

ghost use Rattle.std.specs.Prelude.{
  ◌≡◌,
  ◌==◌,
  ◌&&◌,
  ◌+◌,
  ◌-◌,
  if◌then◌else◌,
  true,
  pos,
  length,
  map,
  IfOk,
};
ghost use Rattle.std.specs.List.{list_all, sum};
ghost use Rattle.std.proofs.Common.{int_eq};
ghost use Rattle.hy_schema.specs.Conditions.{
  condition_2,
  condition_3,
  condition_4,
  condition_9,
  paid_amount,
};
ghost use Rattle.hy_schema.specs.Related.{
  lines_of_district,
  new_orders_of,
  orders_of,
  payments_in_district,
};
ghost use Rattle.hy_conditions.specs.declared.keys.DistrictId.{DistrictId};
ghost use Rattle.hy_conditions.specs.Groups.{sum_at};
ghost use Rattle.hy_conditions.specs.Keys.{key_of_district, same_district};
ghost use Rattle.hy_conditions.specs.Numbers.{
  are_behind,
  are_in_row,
  numbers_at,
  numbers_of,
};

use crate::keys::DistrictId;
use crate::numbers::{Numbers, numbers_at, numbers_by_key};
use crate::sums::{sum_at, sums_by_key};
use hy_schema::{District, History, NewOrder, Order, OrderLine, Tables};
use indexmap::IndexMap;
use std::alloc::{AllocError, Global};

/// Whether the rows meet condition 2.
pub fn meets_condition_2(alloc: Global, tables: &Tables) -> Result<bool, AllocError>
    ensures { IfOk result (λ meets. meets ≡ condition_2 tables.now) }
{
    let districts: &[District] = tables.list();
    let orders = orders_by_district(alloc, tables.list())?;
    let news = new_orders_by_district(alloc, tables.list())?;
    Ok(are_behind_orders(districts, &orders, &news))
}

/// Whether D_NEXT_O_ID - 1 of each district is the greatest number of its orders, and of its new orders if it
/// has one.
fn are_behind_orders(
    districts: &[District],
    orders: &IndexMap<DistrictId, Numbers>,
    news: &IndexMap<DistrictId, Numbers>,
) -> bool
    ensures { result ≡ list_all (λ row. are_behind row.next_order
        (numbers_at same_district orders.now (key_of_district row))
        (numbers_at same_district news.now (key_of_district row))) districts.now }
{
    districts
        .iter()
        .all(|row| is_behind_orders(row, orders, news))
}

/// Whether D_NEXT_O_ID of a district comes next behind its orders, and behind its new orders if there is one.
fn is_behind_orders(
    row: &District,
    orders: &IndexMap<DistrictId, Numbers>,
    news: &IndexMap<DistrictId, Numbers>,
) -> bool
    ensures { result ≡ are_behind row.now.next_order
        (numbers_at same_district orders.now (key_of_district row.now))
        (numbers_at same_district news.now (key_of_district row.now)) }
{
    let key = key_of(row);
    is_behind(
        row.next_order,
        numbers_at(orders, key),
        numbers_at(news, key),
    )
}

/// Whether a number comes next behind the orders, and behind the new orders if there is one.
fn is_behind(next: u32, orders: Numbers, news: Numbers) -> bool
    ensures { result ≡ are_behind next orders news }
{
    let last = next.saturating_sub(1);
    last == orders.greatest
        && if news.count == 0 {
            true
        } else {
            last == news.greatest
        }
}

/// Whether the rows meet condition 3.
pub fn meets_condition_3(alloc: Global, tables: &Tables) -> Result<bool, AllocError>
    ensures { IfOk result (λ meets. meets ≡ condition_3 tables.now) }
{
    let districts: &[District] = tables.list();
    let news = new_orders_by_district(alloc, tables.list())?;
    Ok(have_new_orders_in_row(districts, &news))
}

/// Whether the new orders of each district are as many as numbers from the least to the greatest.
fn have_new_orders_in_row(districts: &[District], news: &IndexMap<DistrictId, Numbers>) -> bool
    ensures { result
        ≡ list_all (λ row. are_in_row (numbers_at same_district news.now
        (key_of_district row))) districts.now }
{
    districts
        .iter()
        .all(|row| is_in_row(numbers_at(news, key_of(row))))
}

/// Whether there are as many numbers as from the least to the greatest.
fn is_in_row(numbers: Numbers) -> bool
    ensures { result ≡ are_in_row numbers }
{
    if numbers.count == 0 {
        true
    } else {
        u64::from(numbers.greatest.saturating_sub(numbers.least)) + 1 == numbers.count
    }
}

/// Whether the rows meet condition 4.
pub fn meets_condition_4(alloc: Global, tables: &Tables) -> Result<bool, AllocError>
    ensures { IfOk result (λ meets. meets ≡ condition_4 tables.now) }
{
    let districts: &[District] = tables.list();
    let counted = line_counts_by_district(alloc, tables.list())?;
    let lines = lines_by_district(alloc, tables.list())?;
    Ok(have_all_lines(districts, &counted, &lines))
}

/// Whether two sums are the same at each district.
fn have_all_lines(
    districts: &[District],
    counted: &IndexMap<DistrictId, i128>,
    lines: &IndexMap<DistrictId, i128>,
) -> bool
    ensures { result ≡ list_all (λ row. int_eq (sum_at same_district counted.now (key_of_district row))
        (sum_at same_district lines.now (key_of_district row))) districts.now }
{
    districts
        .iter()
        .all(|row| has_all_lines(row, counted, lines))
}

/// Whether two sums are the same at a district.
fn has_all_lines(
    row: &District,
    counted: &IndexMap<DistrictId, i128>,
    lines: &IndexMap<DistrictId, i128>,
) -> bool
    ensures { result ≡ int_eq (sum_at same_district counted.now (key_of_district row.now))
        (sum_at same_district lines.now (key_of_district row.now)) }
{
    let key = key_of(row);
    sum_at(counted, key) == sum_at(lines, key)
}

/// Whether the rows meet condition 9.
pub fn meets_condition_9(alloc: Global, tables: &Tables) -> Result<bool, AllocError>
    ensures { IfOk result (λ meets. meets ≡ condition_9 tables.now) }
{
    let districts: &[District] = tables.list();
    let sums = paid_by_district(alloc, tables.list())?;
    Ok(have_sums(districts, &sums))
}

/// Whether D_YTD of each district is the sum that stands with it.
fn have_sums(districts: &[District], sums: &IndexMap<DistrictId, i128>) -> bool
    ensures { result
        ≡ list_all (λ row. int_eq row.ytd
        (sum_at same_district sums.now (key_of_district row))) districts.now }
{
    districts.iter().all(|row| has_sum(row, sums))
}

/// Whether D_YTD of a district is the sum that stands with it.
fn has_sum(row: &District, sums: &IndexMap<DistrictId, i128>) -> bool
    ensures { result ≡ int_eq row.now.ytd (sum_at same_district sums.now (key_of_district row.now)) }
{
    i128::from(row.ytd) == sum_at(sums, key_of(row))
}

/// The key of a district.
fn key_of(row: &District) -> DistrictId
    ensures { result ≡ key_of_district row.now }
{
    DistrictId {
        warehouse: row.warehouse,
        district: row.id,
    }
}

/// For each district the numbers of its orders.
fn orders_by_district(
    alloc: Global,
    orders: &[Order],
) -> Result<IndexMap<DistrictId, Numbers>, AllocError>
    ensures { IfOk result (λ groups. (key : DistrictId) → numbers_at same_district groups key
        ≡ numbers_of (map (λ row. row.id) (orders_of key.warehouse key.district orders.now))) }
{
    let entries = order_entries(alloc, orders)?;
    numbers_by_key(alloc, &entries)
}

/// O_ID of each order, with the key of its district.
fn order_entries(alloc: Global, orders: &[Order]) -> Result<Vec<(DistrictId, u32)>, AllocError>
    ensures { IfOk result (λ entries. entries.items ≡ map (λ row.
        (record { warehouse = row.warehouse; district = row.district }, row.id)) orders.now) }
{
    orders
        .iter()
        .map(|row| (DistrictId::new(row.warehouse, row.district), row.id))
        .collect(alloc)
}

/// For each district the numbers of its undelivered orders.
fn new_orders_by_district(
    alloc: Global,
    news: &[NewOrder],
) -> Result<IndexMap<DistrictId, Numbers>, AllocError>
    ensures { IfOk result (λ groups. (key : DistrictId) → numbers_at same_district groups key
        ≡ numbers_of (map (λ row. row.order) (new_orders_of key.warehouse key.district news.now))) }
{
    let entries = new_order_entries(alloc, news)?;
    numbers_by_key(alloc, &entries)
}

/// NO_O_ID of each undelivered order, with the key of its district.
fn new_order_entries(alloc: Global, news: &[NewOrder]) -> Result<Vec<(DistrictId, u32)>, AllocError>
    ensures { IfOk result (λ entries. entries.items ≡ map (λ row.
        (record { warehouse = row.warehouse; district = row.district }, row.order)) news.now) }
{
    news.iter()
        .map(|row| (DistrictId::new(row.warehouse, row.district), row.order))
        .collect(alloc)
}

/// For each district the sum of O_OL_CNT of its orders.
fn line_counts_by_district(
    alloc: Global,
    orders: &[Order],
) -> Result<IndexMap<DistrictId, i128>, AllocError>
    ensures { IfOk result (λ sums. (key : DistrictId) → sum_at same_district sums key
        ≡ pos (sum (map (λ row. row.line_count) (orders_of key.warehouse key.district orders.now)))) }
{
    let entries = line_count_entries(alloc, orders)?;
    sums_by_key(alloc, &entries)
}

/// O_OL_CNT of each order, with the key of its district.
fn line_count_entries(alloc: Global, orders: &[Order]) -> Result<Vec<(DistrictId, i64)>, AllocError>
    ensures { IfOk result (λ entries. entries.items ≡ map (λ row.
        (record { warehouse = row.warehouse; district = row.district }, pos row.line_count)) orders.now) }
{
    orders
        .iter()
        .map(|row| (
            DistrictId::new(row.warehouse, row.district),
            i64::from(row.line_count),
        ))
        .collect(alloc)
}

/// For each district how many order lines it has.
fn lines_by_district(
    alloc: Global,
    lines: &[OrderLine],
) -> Result<IndexMap<DistrictId, i128>, AllocError>
    ensures { IfOk result (λ sums. (key : DistrictId) → sum_at same_district sums key
        ≡ pos (length (lines_of_district key.warehouse key.district lines.now))) }
{
    let entries = line_entries(alloc, lines)?;
    sums_by_key(alloc, &entries)
}

/// 1 for each order line, with the key of its district.
fn line_entries(alloc: Global, lines: &[OrderLine]) -> Result<Vec<(DistrictId, i64)>, AllocError>
    ensures { IfOk result (λ entries. entries.items ≡ map (λ row.
        (record { warehouse = row.warehouse; district = row.district }, pos 1)) lines.now) }
{
    lines
        .iter()
        .map(|row| (DistrictId::new(row.warehouse, row.district), 1))
        .collect(alloc)
}

/// For each district the sum of H_AMOUNT of the payments in it, in cents.
fn paid_by_district(
    alloc: Global,
    history: &[History],
) -> Result<IndexMap<DistrictId, i128>, AllocError>
    ensures { IfOk result (λ sums. (key : DistrictId) → sum_at same_district sums key
        ≡ paid_amount (payments_in_district key.warehouse key.district history.now)) }
{
    let entries = paid_entries(alloc, history)?;
    sums_by_key(alloc, &entries)
}

/// H_AMOUNT of each payment, with the key of the district that was paid.
fn paid_entries(alloc: Global, history: &[History]) -> Result<Vec<(DistrictId, i64)>, AllocError>
    ensures { IfOk result (λ entries. entries.items ≡ map (λ row.
        (record { warehouse = row.warehouse; district = row.district }, row.amount)) history.now) }
{
    history
        .iter()
        .map(|row| (DistrictId::new(row.warehouse, row.district), row.amount))
        .collect(alloc)
}
