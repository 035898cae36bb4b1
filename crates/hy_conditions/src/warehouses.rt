//! Consistency conditions of warehouses: 1 and 8 (TPC-C clauses 3.3.2.1 and 3.3.2.8).

ghost use Rattle.std.specs.Prelude.{◌≡◌, ℕ, nat_eq, map, IfOk};
ghost use Rattle.std.specs.List.{list_all};
ghost use Rattle.std.proofs.Common.{int_eq};
ghost use Rattle.hy_schema.specs.Conditions.{condition_1, condition_8, paid_amount, ytd_of_districts};
ghost use Rattle.hy_schema.specs.Related.{payments_in};
ghost use Rattle.hy_conditions.specs.Groups.{sum_at};

use crate::sums::{sum_at, sums_by_key};
use hy_schema::{District, History, Tables, Warehouse};
use indexmap::IndexMap;
use std::alloc::{AllocError, Global};

/// Whether the rows meet condition 1.
pub fn meets_condition_1(alloc: Global, tables: &Tables) -> Result<bool, AllocError>
    ensures { IfOk result (λ meets. meets ≡ condition_1 tables.now) }
{
    let warehouses: &[Warehouse] = tables.list();
    let districts: &[District] = tables.list();
    let sums = ytd_by_warehouse(alloc, districts)?;
    Ok(have_sums(warehouses, &sums))
}

/// Whether the rows meet condition 8.
pub fn meets_condition_8(alloc: Global, tables: &Tables) -> Result<bool, AllocError>
    ensures { IfOk result (λ meets. meets ≡ condition_8 tables.now) }
{
    let warehouses: &[Warehouse] = tables.list();
    let history: &[History] = tables.list();
    let sums = paid_by_warehouse(alloc, history)?;
    Ok(have_sums(warehouses, &sums))
}

/// Whether W_YTD of each warehouse is the sum that stands with it.
fn have_sums(warehouses: &[Warehouse], sums: &IndexMap<u8, i128>) -> bool
    ensures { result ≡ list_all (λ row. int_eq row.ytd (sum_at nat_eq sums.now row.id)) warehouses.now }
{
    warehouses
        .iter()
        .all(|row| i128::from(row.ytd) == sum_at(sums, row.id))
}

/// For each warehouse the sum of D_YTD of its districts, in cents.
fn ytd_by_warehouse(alloc: Global, districts: &[District]) -> Result<IndexMap<u8, i128>, AllocError>
    ensures { IfOk result
        (λ sums. (warehouse : ℕ) → sum_at nat_eq sums warehouse ≡ ytd_of_districts warehouse districts.now) }
{
    let entries = ytd_entries(alloc, districts)?;
    sums_by_key(alloc, &entries)
}

/// D_YTD of each district, with its warehouse.
fn ytd_entries(alloc: Global, districts: &[District]) -> Result<Vec<(u8, i64)>, AllocError>
    ensures { IfOk result (λ entries. entries.items ≡ map (λ row. (row.warehouse, row.ytd)) districts.now) }
{
    districts
        .iter()
        .map(|row| (row.warehouse, row.ytd))
        .collect(alloc)
}

/// For each warehouse the sum of H_AMOUNT of the payments in it, in cents.
fn paid_by_warehouse(alloc: Global, history: &[History]) -> Result<IndexMap<u8, i128>, AllocError>
    ensures { IfOk result (λ sums. (warehouse : ℕ)
        → sum_at nat_eq sums warehouse ≡ paid_amount (payments_in warehouse history.now)) }
{
    let entries = paid_entries(alloc, history)?;
    sums_by_key(alloc, &entries)
}

/// H_AMOUNT of each payment, with the warehouse that was paid.
fn paid_entries(alloc: Global, history: &[History]) -> Result<Vec<(u8, i64)>, AllocError>
    ensures { IfOk result (λ entries. entries.items ≡ map (λ row. (row.warehouse, row.amount)) history.now) }
{
    history
        .iter()
        .map(|row| (row.warehouse, row.amount))
        .collect(alloc)
}
