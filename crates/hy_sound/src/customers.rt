//! The customers of a load, looked at one after the other.

ghost use Rattle.std.specs.Prelude.{◌≡◌, ◌≤◌, ◌==◌, ◌&&◌, None, true, false, nat_lt, nat_le, filter, is_some, length};
ghost use Rattle.std.specs.List.{list_any};
ghost use Rattle.std.specs.List.Sorted.{IsNonDecreasingBy, IsPartitionPoint};
ghost use Rattle.hy_rows.specs.Finding.{is_customer};
ghost use Rattle.hy_rows.specs.Ranges.{is_between};
ghost use Rattle.hy_rows.specs.Tables.{of_warehouse};
ghost use Rattle.hy_commands.specs.Commands.{refusal_of_numbers};
ghost use Rattle.hy_commands.specs.inside.Named.{who_of};
ghost use Rattle.hy_commands.specs.Customers.{customer_meant, is_named};
ghost use Rattle.hy_sound.specs.inside.Places.{district_place, knows_customer, stands_at};

use hy_commands::{Command, CustomerRef, WhoRef};
use hy_loads::Load;
use hy_rows::Customer;

/// Whether the customer whom a command names is one of a load; a command whose warehouses and districts are there.
#[cold]
#[inline(never)]
pub(crate) fn is_customer_among(load: &Load, command: &Command) -> bool
    requires { refusal_of_numbers (is_between 1 (length load.now.tables.warehouses)) command.now ≡ None }
    ensures { result ≡ knows_customer load.now command.now }
{
    load.sound();
    match command.customer() {
        Some(customer) => is_meant_among(load, customer),
        None => true,
    }
}

/// Whether some customer of a district is meant.
fn is_meant_among(load: &Load, customer: CustomerRef<'_>) -> bool
    requires warehouse { customer.warehouse ≤ 255 }
    requires district { customer.district ≤ 255 }
    ensures { result ≡ is_some (customer_meant customer.entry.warehouse customer.entry.district
        (who_of customer.entry.who) (of_warehouse customer.entry.warehouse load.now.tables).customers) }
{
    match customer.who {
        WhoRef::Number(number) => {
            is_number_among(load, customer.warehouse, customer.district, number)
        }
        WhoRef::Last(name) => {
            is_name_among(load, customer.warehouse, customer.district, name.as_bytes())
        }
    }
}

/// Whether a customer of a district has a number.
fn is_number_among(load: &Load, warehouse: u64, district: u64, number: u64) -> bool
    requires warehouse { warehouse ≤ 255 }
    requires district { district ≤ 255 }
    ensures { result ≡ list_any (is_customer warehouse district number) load.now.tables.customers }
{
    let rows = customers_of(load, warehouse, district);
    some_has_number(rows, warehouse, district, number)
}

/// Whether a customer of a district has a last name.
fn is_name_among(load: &Load, warehouse: u64, district: u64, name: &[u8]) -> bool
    requires warehouse { warehouse ≤ 255 }
    requires district { district ≤ 255 }
    ensures { result ≡ list_any (is_named warehouse district name.now) load.now.tables.customers }
{
    let rows = customers_of(load, warehouse, district);
    some_has_name(rows, warehouse, district, name)
}

/// Whether some row is that of a district's customer with a number.
fn some_has_number(rows: &[Customer], warehouse: u64, district: u64, number: u64) -> bool
    ensures { result ≡ list_any (is_customer warehouse district number) rows.now }
{
    rows.iter()
        .any(|row| has_number(row, warehouse, district, number))
}

/// Whether some row is that of one of a district's customers with a last name.
fn some_has_name(rows: &[Customer], warehouse: u64, district: u64, name: &[u8]) -> bool
    ensures { result ≡ list_any (is_named warehouse district name.now) rows.now }
{
    rows.iter()
        .any(|row| has_name(row, warehouse, district, name))
}

/// Whether a row is one of a district.
fn is_in(row: &Customer, warehouse: u64, district: u64) -> bool
    ensures { result ≡ ((row.now.warehouse == warehouse) && (row.now.district == district)) }
{
    u64::from(row.warehouse) == warehouse && u64::from(row.district) == district
}

/// Whether a row is that of a district's customer with a number.
fn has_number(row: &Customer, warehouse: u64, district: u64, number: u64) -> bool
    ensures { result ≡ is_customer warehouse district number row.now }
{
    is_in(row, warehouse, district) && u64::from(row.id) == number
}

/// Whether a row is that of one of a district's customers with a last name.
fn has_name(row: &Customer, warehouse: u64, district: u64, name: &[u8]) -> bool
    ensures { result ≡ is_named warehouse district name.now row.now }
{
    is_in(row, warehouse, district) && row.last.as_bytes() == name
}

/// The customers of a district, which stand one behind another.
fn customers_of(load: &Load, warehouse: u64, district: u64) -> &[Customer]
    requires warehouse { warehouse ≤ 255 }
    requires district { district ≤ 255 }
    ensures { result.now
        ≡ filter (λ row. stands_at row == district_place warehouse district) load.now.tables.customers }
{
    load.sound();
    let rows = load.list();
    let place = warehouse * 256 + district;
    let first = before_place(rows, place);
    let behind = up_to_place(rows, place);
    &rows[first..behind]
}

/// How many rows stand before those of a district.
fn before_place(rows: &[Customer], place: u64) -> usize
    requires { IsNonDecreasingBy stands_at rows.now }
    ensures bound { result ≤ length rows.now }
    ensures point { IsPartitionPoint (λ row. nat_lt (stands_at row) place ≡ true)
        (λ row. nat_lt (stands_at row) place ≡ false) rows.now result }
{
    rows.partition_point(|row| place_of(row) < place)
}

/// How many rows stand before those of a district, and how many of these there are.
fn up_to_place(rows: &[Customer], place: u64) -> usize
    requires { IsNonDecreasingBy stands_at rows.now }
    ensures bound { result ≤ length rows.now }
    ensures point { IsPartitionPoint (λ row. nat_le (stands_at row) place ≡ true)
        (λ row. nat_le (stands_at row) place ≡ false) rows.now result }
{
    rows.partition_point(|row| place_of(row) <= place)
}

/// Where the district of a customer stands among all.
fn place_of(row: &Customer) -> u64
    ensures { result ≡ stands_at row.now }
{
    let warehouse = row.warehouse;
    let district = row.district;
    u64::from(warehouse) * 256 + u64::from(district)
}
