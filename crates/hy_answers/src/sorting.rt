//! The order of the rows of an answer.

ghost use Rattle.std.specs.Prelude.{◌≡◌, IfOk};
ghost use Rattle.hy_query.specs.Meaning.{comes_before};
ghost use Rattle.hy_rows.specs.Rows.{value_at};
ghost use Rattle.hy_query.specs.Sorting.{sorted};
ghost use Rattle.hy_tallies.specs.Lines.{row_at};
ghost use Rattle.hy_tallies.specs.Numbers.{upto};
ghost use Rattle.hy_answers.specs.inside.Orders.{key_order, rows_order};

use crate::values::order_of;
use hy_query::{SortKey, Value};
use hy_tallies::OwnedValues;
use std::alloc::{AllocError, Global};
use std::cmp::Ordering;

/// The value at a place of a row, by the values of all rows. Past the end, 0.
fn value_in_row(columns: &[OwnedValues], row: usize, place: usize) -> Value<'_>
    ensures { result ≡ value_at (row_at columns.now row) place }
{
    match columns.get(place) {
        Some(column) => column.value(row),
        None => Value::Whole(0),
    }
}

/// How one row stands to another by a key.
fn order_by_key(columns: &[OwnedValues], key: &SortKey, one: usize, other: usize) -> Ordering
    ensures { result ≡ key_order key.now (row_at columns.now one) (row_at columns.now other) }
{
    let place = key.place.saturating_sub(1);
    let mine = value_in_row(columns, one, place);
    let its = value_in_row(columns, other, place);
    if key.descending {
        order_of(&its, &mine)
    } else {
        order_of(&mine, &its)
    }
}

/// How one row stands to another by some keys, the first one first.
fn order_by_keys(columns: &[OwnedValues], keys: &[SortKey], one: usize, other: usize) -> Ordering
    ensures { result ≡ rows_order keys.now (row_at columns.now one) (row_at columns.now other) }
{
    for key in keys {
        let order = order_by_key(columns, key, one, other);
        if order.is_ne() {
            return order;
        }
    }
    Ordering::Equal
}

/// The numbers below one, in order.
pub(crate) fn upto(alloc: Global, count: usize) -> Result<Vec<usize>, AllocError>
    ensures { IfOk result (λ numbers. numbers.items ≡ upto count) }
{
    let mut numbers = Vec::with_capacity(alloc, count)?;
    for number in 0..count {
        numbers.push(number)?;
    }
    Ok(numbers)
}

/// The places of so many rows, sorted by some keys. Rows that tie keep their order.
pub(crate) fn order_rows(
    alloc: Global,
    columns: &[OwnedValues],
    keys: &[SortKey],
    count: usize,
) -> Result<Vec<usize>, AllocError>
    ensures { IfOk result (λ order. order.items
        ≡ sorted (λ one other. comes_before keys.now (row_at columns.now one) (row_at columns.now other))
        (upto count)) }
{
    let mut order = upto(alloc, count)?;
    if keys.is_empty() {
        return Ok(order);
    }
    order.sort_by(|one, other| order_by_keys(columns, keys, *one, *other))?;
    Ok(order)
}
