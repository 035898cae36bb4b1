//! The generated lists.

ghost use Rattle.std.specs.Prelude.{◌≡◌, ◌≢◌, ◌⊎◌, ◌↔◌, ◌≤◌, ◌++◌, IfErr, IfOk, IsErrOf, IsFalse, OnOk};
ghost use Rattle.hy_rows.specs.Limits.{districts_per_warehouse, max_customers, max_items, max_warehouses};
ghost use Rattle.hy_tables.specs.Generated.{by_customer, generated_customer, generated_district, generated_item, generated_lists, generated_payment, generated_stock, generated_warehouse, is_size, joined_up_to, rows_up_to};

use crate::generated_rows::{customer, district, item, payment, stock, warehouse};
use hy_loads::Load;
use hy_rows::{
    Customer, DISTRICTS_PER_WAREHOUSE, District, History, Item, Lists, MAX_CUSTOMERS, MAX_ITEMS,
    MAX_WAREHOUSES, Stock, Tables, Warehouse,
};
use hy_schema::Refusal;
use std::alloc::{AllocError, Global};

/// The lists of a generated database: so many warehouses, customers in each district, and items. E8 exactly where a
/// number isn't 1 to 16, 1 to 3,000, 1 to 100,000; else E1.
pub fn generated(
    alloc: Global,
    warehouses: u64,
    customers: u64,
    items: u64,
) -> Result<Lists, Refusal>
    ensures lists { IfOk result (λ lists. lists ≡ generated_lists warehouses customers items) }
    ensures out_of_range { IsErrOf result Refusal.OutOfRange ↔ IsFalse (is_size warehouses customers items) }
    ensures refused { IfErr result (λ refusal. (refusal ≡ Refusal.OutOfRange) ⊎ (refusal ≡ Refusal.NoMemory)) }
{
    if !(1..=u64::from(MAX_WAREHOUSES)).contains(&warehouses)
        || !(1..=u64::from(MAX_CUSTOMERS)).contains(&customers)
        || !(1..=u64::from(MAX_ITEMS)).contains(&items)
    {
        return Err(Refusal::OutOfRange);
    }
    let lists = lists(alloc, warehouses as u8, customers as u16, items as u32)?;
    Ok(lists)
}

/// The load of a generated database: so many warehouses, customers in each district, and items. E8 exactly where a number
/// isn't 1 to 16, 1 to 3,000, 1 to 100,000; else E1.
pub fn generate(alloc: Global, warehouses: u64, customers: u64, items: u64) -> Result<Load, Refusal>
    ensures load { IfOk result (λ load. load ≡ generated_lists warehouses customers items) }
    ensures out_of_range { IsErrOf result Refusal.OutOfRange ↔ IsFalse (is_size warehouses customers items) }
    ensures refused { IfErr result (λ refusal. (refusal ≡ Refusal.OutOfRange) ⊎ (refusal ≡ Refusal.NoMemory)) }
{
    let lists = generated(alloc, warehouses, customers, items)?;
    Load::of(alloc, lists)
}

/// The generated lists.
fn lists(alloc: Global, warehouses: u8, customers: u16, items: u32) -> Result<Lists, AllocError>
    requires warehouses { warehouses ≤ max_warehouses }
    requires customers { customers ≤ max_customers }
    requires items { items ≤ max_items }
    ensures { IfOk result (λ lists. lists ≡ generated_lists warehouses customers items) }
{
    let tables = Tables {
        warehouses: warehouse_rows(alloc, warehouses, customers)?,
        districts: district_rows(alloc, warehouses, customers)?,
        customers: customer_rows(alloc, warehouses, customers)?,
        history: history_rows(alloc, warehouses, customers)?,
        stock: stock_rows(alloc, warehouses, items)?,
        ..Tables::new(alloc)
    };
    Ok(Lists {
        items: item_rows(alloc, items)?,
        tables,
    })
}

/// The rows of WAREHOUSE.
fn warehouse_rows(
    alloc: Global,
    warehouses: u8,
    customers: u16,
) -> Result<Vec<Warehouse>, AllocError>
    ensures { IfOk result (λ rows. rows.items ≡ rows_up_to (generated_warehouse customers) warehouses) }
{
    let mut rows = Vec::new(alloc);
    for before in 0..warehouses {
        rows.push(warehouse(alloc, customers, before + 1)?)?;
    }
    Ok(rows)
}

/// The rows of DISTRICT.
fn district_rows(alloc: Global, warehouses: u8, customers: u16) -> Result<Vec<District>, AllocError>
    ensures { IfOk result (λ rows. rows.items ≡ joined_up_to
        (λ warehouse. rows_up_to (generated_district customers warehouse) districts_per_warehouse) warehouses) }
{
    let mut rows = Vec::new(alloc);
    for before in 0..warehouses {
        push_districts(&mut rows, alloc, before + 1, customers)?;
    }
    Ok(rows)
}

/// Adds the districts of a warehouse.
fn push_districts(
    rows: &mut Vec<District>,
    alloc: Global,
    warehouse: u8,
    customers: u16,
) -> Result<(), AllocError>
    ensures { OnOk result (rows.new.items ≡ rows.old.items
        ++ rows_up_to (generated_district customers warehouse) districts_per_warehouse) }
{
    for before in 0..DISTRICTS_PER_WAREHOUSE {
        rows.push(district(alloc, customers, warehouse, before + 1)?)?;
    }
    Ok(())
}

/// The rows of CUSTOMER.
fn customer_rows(alloc: Global, warehouses: u8, customers: u16) -> Result<Vec<Customer>, AllocError>
    ensures { IfOk result (λ rows. rows.items ≡ joined_up_to (by_customer generated_customer customers) warehouses) }
{
    let mut rows = Vec::new(alloc);
    for before in 0..warehouses {
        push_customers(&mut rows, alloc, before + 1, customers)?;
    }
    Ok(rows)
}

/// Adds the customers of a warehouse.
fn push_customers(
    rows: &mut Vec<Customer>,
    alloc: Global,
    warehouse: u8,
    customers: u16,
) -> Result<(), AllocError>
    ensures { OnOk result (rows.new.items ≡ rows.old.items ++ by_customer generated_customer customers warehouse) }
{
    for before in 0..DISTRICTS_PER_WAREHOUSE {
        push_customers_of(rows, alloc, warehouse, before + 1, customers)?;
    }
    Ok(())
}

/// Adds the customers of a district.
fn push_customers_of(
    rows: &mut Vec<Customer>,
    alloc: Global,
    warehouse: u8,
    district: u8,
    customers: u16,
) -> Result<(), AllocError>
    ensures { OnOk result (rows.new.items ≡ rows.old.items
        ++ rows_up_to (generated_customer warehouse district) customers) }
{
    for before in 0..customers {
        rows.push(customer(alloc, warehouse, district, before + 1)?)?;
    }
    Ok(())
}

/// The rows of HISTORY.
fn history_rows(alloc: Global, warehouses: u8, customers: u16) -> Result<Vec<History>, AllocError>
    ensures { IfOk result (λ rows. rows.items ≡ joined_up_to (by_customer generated_payment customers) warehouses) }
{
    let mut rows = Vec::new(alloc);
    for before in 0..warehouses {
        push_payments(&mut rows, alloc, before + 1, customers)?;
    }
    Ok(rows)
}

/// Adds the payments in a warehouse.
fn push_payments(
    rows: &mut Vec<History>,
    alloc: Global,
    warehouse: u8,
    customers: u16,
) -> Result<(), AllocError>
    ensures { OnOk result (rows.new.items ≡ rows.old.items ++ by_customer generated_payment customers warehouse) }
{
    for before in 0..DISTRICTS_PER_WAREHOUSE {
        push_payments_in(rows, alloc, warehouse, before + 1, customers)?;
    }
    Ok(())
}

/// Adds the payments in a district.
fn push_payments_in(
    rows: &mut Vec<History>,
    alloc: Global,
    warehouse: u8,
    district: u8,
    customers: u16,
) -> Result<(), AllocError>
    ensures { OnOk result (rows.new.items ≡ rows.old.items
        ++ rows_up_to (generated_payment warehouse district) customers) }
{
    for before in 0..customers {
        rows.push(payment(alloc, warehouse, district, before + 1)?)?;
    }
    Ok(())
}

/// The rows of ITEM.
fn item_rows(alloc: Global, items: u32) -> Result<Vec<Item>, AllocError>
    requires { items ≤ max_items }
    ensures { IfOk result (λ rows. rows.items ≡ rows_up_to generated_item items) }
{
    let mut rows = Vec::new(alloc);
    for before in 0..items {
        rows.push(item(alloc, before + 1)?)?;
    }
    Ok(rows)
}

/// The rows of STOCK.
fn stock_rows(alloc: Global, warehouses: u8, items: u32) -> Result<Vec<Stock>, AllocError>
    requires { items ≤ max_items }
    ensures { IfOk result (λ rows. rows.items ≡ joined_up_to
        (λ warehouse. rows_up_to (generated_stock warehouse) items) warehouses) }
{
    let mut rows = Vec::new(alloc);
    for before in 0..warehouses {
        push_stock(&mut rows, before + 1, items)?;
    }
    Ok(rows)
}

/// Adds the stock of a warehouse.
fn push_stock(rows: &mut Vec<Stock>, warehouse: u8, items: u32) -> Result<(), AllocError>
    requires { items ≤ max_items }
    ensures { OnOk result (rows.new.items ≡ rows.old.items ++ rows_up_to (generated_stock warehouse) items) }
{
    for before in 0..items {
        rows.push(stock(warehouse, before + 1))?;
    }
    Ok(())
}
