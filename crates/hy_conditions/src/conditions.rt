//! All consistency conditions in their order (TPC-C clause 3.3.2).

ghost use Rattle.std.specs.Prelude.{◌≡◌, IfOk};
ghost use Rattle.hy_schema.specs.Conditions.{first_broken};

use crate::customers::{delivered_in, meets_condition_10, meets_condition_12};
use crate::districts::{
    meets_condition_2, meets_condition_3, meets_condition_4, meets_condition_9,
};
use crate::orders::{meets_condition_5, meets_condition_6, meets_condition_7};
use crate::warehouses::{meets_condition_1, meets_condition_8};
use hy_schema::Tables;
use std::alloc::{AllocError, Global};

/// The number of the first consistency condition (TPC-C clause 3.3.2) that the rows break, 1 to 10 or 12.
/// Takes time and memory in proportion to the rows.
pub fn first_broken(alloc: Global, tables: &Tables) -> Result<Option<u8>, AllocError>
    ensures { IfOk result (λ number. number ≡ first_broken tables.now) }
{
    if !meets_condition_1(alloc, tables)? {
        return Ok(Some(1));
    }
    if !meets_condition_2(alloc, tables)? {
        return Ok(Some(2));
    }
    if !meets_condition_3(alloc, tables)? {
        return Ok(Some(3));
    }
    if !meets_condition_4(alloc, tables)? {
        return Ok(Some(4));
    }
    if !meets_condition_5(alloc, tables)? {
        return Ok(Some(5));
    }
    if !meets_condition_6(alloc, tables)? {
        return Ok(Some(6));
    }
    if !meets_condition_7(alloc, tables)? {
        return Ok(Some(7));
    }
    if !meets_condition_8(alloc, tables)? {
        return Ok(Some(8));
    }
    if !meets_condition_9(alloc, tables)? {
        return Ok(Some(9));
    }
    let delivered = delivered_in(alloc, tables)?;
    if !meets_condition_10(alloc, tables, &delivered)? {
        return Ok(Some(10));
    }
    if !meets_condition_12(tables, &delivered) {
        return Ok(Some(12));
    }
    Ok(None)
}
