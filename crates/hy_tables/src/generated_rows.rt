//! One generated row of each table.

ghost use Rattle.std.specs.Prelude.{◌≡◌, ◌≤◌, IfOk};
ghost use Rattle.hy_tables.specs.Generated.{generated_customer, generated_district, generated_item, generated_payment, generated_stock, generated_warehouse};

use crate::generated_texts::{credit, first_name, information, last_name, name};
use hy_rows::{Customer, District, History, Item, LongText, Stock, Text, Warehouse};
use std::alloc::{AllocError, Global};

/// A generated row of WAREHOUSE, with so many customers in each district.
pub(crate) fn warehouse(alloc: Global, customers: u16, id: u8) -> Result<Warehouse, AllocError>
    ensures { IfOk result (λ row. row ≡ generated_warehouse customers id) }
{
    Ok(Warehouse {
        id,
        name: name(alloc, "W", id.into())?,
        tax: (500 * u32::from(id) % 2001) as u16,
        ytd: i64::from(10_000 * u32::from(customers)),
    })
}

/// A generated row of DISTRICT, with so many customers.
pub(crate) fn district(
    alloc: Global,
    customers: u16,
    warehouse: u8,
    id: u8,
) -> Result<District, AllocError>
    ensures { IfOk result (λ row. row ≡ generated_district customers warehouse id) }
{
    Ok(District {
        id,
        warehouse,
        name: name(alloc, "D", id.into())?,
        tax: 100 * u16::from(id),
        ytd: i64::from(1000 * u32::from(customers)),
        next_order: 1,
    })
}

/// A generated row of CUSTOMER.
pub(crate) fn customer(
    alloc: Global,
    warehouse: u8,
    district: u8,
    id: u16,
) -> Result<Customer, AllocError>
    ensures { IfOk result (λ row. row ≡ generated_customer warehouse district id) }
{
    Ok(Customer {
        id,
        district,
        warehouse,
        first: first_name(id),
        middle: Text::of_bytes(b"OE"),
        last: last_name(alloc, id.saturating_sub(1))?,
        credit: credit(id),
        discount: (100 * u32::from(id) % 5001) as u16,
        balance: -1000,
        ytd_payment: 1000,
        payment_count: 1,
        delivery_count: 0,
        information: LongText::of_bytes(alloc, b"")?,
    })
}

/// A generated row of HISTORY: the one payment of a customer.
pub(crate) fn payment(
    alloc: Global,
    warehouse: u8,
    district: u8,
    customer: u16,
) -> Result<History, AllocError>
    ensures { IfOk result (λ row. row ≡ generated_payment warehouse district customer) }
{
    Ok(History {
        customer,
        customer_district: district,
        customer_warehouse: warehouse,
        district,
        warehouse,
        date: 1,
        amount: 1000,
        information: information(alloc, warehouse, district)?,
    })
}

/// A generated row of ITEM.
pub(crate) fn item(alloc: Global, id: u32) -> Result<Item, AllocError>
    requires { id ≤ 100_000 }
    ensures { IfOk result (λ row. row ≡ generated_item id) }
{
    Ok(Item {
        id,
        image: 1 + id % 10,
        name: name(alloc, "ITEM", id)?,
        price: 100 + 37 * id % 9901,
    })
}

/// A generated row of STOCK.
pub(crate) fn stock(warehouse: u8, item: u32) -> Stock
    requires { item ≤ 100_000 }
    ensures { result ≡ generated_stock warehouse item }
{
    Stock {
        item,
        warehouse,
        quantity: (10 + (7 * item + u32::from(warehouse)) % 91) as u16,
        ytd: 0,
        order_count: 0,
        remote_count: 0,
    }
}
