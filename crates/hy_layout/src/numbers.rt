//! The customers of a warehouse, by number.

ghost use Rattle.std.specs.Prelude.{◌≡◌, ◌+◌, ◌-◌, ◌<◌, ◌≤◌, ◌==◌, ℕ, IfOk, MatchOption, true, false, nat_lt, nat_le, filter, length, map, slice_index};
ghost use Rattle.std.specs.List.Sorted.{IsNonDecreasingBy, IsPartitionPoint};
ghost use Rattle.hy_rows.specs.Limits.{districts_per_warehouse};
ghost use Rattle.hy_layout.specs.inside.Places.{AreInOrder, AreStarts, IsEndOf, IsNoPlace, IsPlaceOf, named};

use hy_rows::{Customer, DISTRICTS_PER_WAREHOUSE};
use std::alloc::{AllocError, Global};

/// The rows of a warehouse, which stand one behind another.
pub fn own_customers(rows: &[Customer], warehouse: u8) -> &[Customer]
    requires { IsNonDecreasingBy (λ row. row.warehouse) rows.now }
    ensures { result.now ≡ filter (λ row. row.warehouse == warehouse) rows.now }
{
    let first = before_warehouse(rows, warehouse);
    let behind = up_to_warehouse(rows, warehouse);
    &rows[first..behind]
}

/// How many rows stand before those of a warehouse.
fn before_warehouse(rows: &[Customer], warehouse: u8) -> usize
    requires { IsNonDecreasingBy (λ row. row.warehouse) rows.now }
    ensures bound { result ≤ length rows.now }
    ensures point { IsPartitionPoint (λ row. nat_lt row.warehouse warehouse ≡ true)
        (λ row. nat_lt row.warehouse warehouse ≡ false) rows.now result }
{
    rows.partition_point(|row| row.warehouse < warehouse)
}

/// How many rows stand before those of a warehouse, and how many of these there are.
fn up_to_warehouse(rows: &[Customer], warehouse: u8) -> usize
    requires { IsNonDecreasingBy (λ row. row.warehouse) rows.now }
    ensures bound { result ≤ length rows.now }
    ensures point { IsPartitionPoint (λ row. nat_le row.warehouse warehouse ≡ true)
        (λ row. nat_le row.warehouse warehouse ≡ false) rows.now result }
{
    rows.partition_point(|row| row.warehouse <= warehouse)
}

/// How many customers of a warehouse stand before district 1, and how many up to district 1, 2 and so on.
pub fn starts_of(alloc: Global, rows: &[Customer]) -> Result<Vec<usize>, AllocError>
    requires { AreInOrder rows.now }
    ensures { IfOk result (λ starts. AreStarts (map named rows.now) starts.items) }
{
    let mut starts = Vec::new(alloc);
    for district in 0..DISTRICTS_PER_WAREHOUSE + 1 {
        starts.push(up_to_district(rows, district))?;
    }
    Ok(starts)
}

/// How many customers of a warehouse stand up to a district.
fn up_to_district(rows: &[Customer], district: u8) -> usize
    requires { IsNonDecreasingBy (λ row. row.district) rows.now }
    ensures { IsEndOf rows.now district result }
{
    rows.partition_point(|row| row.district <= district)
}

/// The place of a customer by number, if the district has so many customers.
pub fn place_of(starts: &[usize], district: u64, number: u64) -> Option<u64>
    requires count { length starts.now ≡ districts_per_warehouse + 1 }
    requires rising { (k : ℕ) → k < districts_per_warehouse → slice_index starts.now k ≤ slice_index starts.now (k + 1) }
    ensures { MatchOption result (IsNoPlace starts.now district number) (IsPlaceOf starts.now district number) }
{
    if district == 0 || district > u64::from(DISTRICTS_PER_WAREHOUSE) || number == 0 {
        return None;
    }
    let district = district as usize;
    let start = starts[district - 1];
    let count = starts[district] - start;
    if number > count as u64 {
        return None;
    }
    Some(start as u64 + (number - 1))
}
