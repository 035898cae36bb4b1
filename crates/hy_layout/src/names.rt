//! The customers of a warehouse, by last name.

ghost use Rattle.std.specs.Prelude.{◌≡◌, ◌≤◌, true, false, IfOk, MatchOption, Some, None, filter, length, map};
ghost use Rattle.std.specs.List.Sorted.{IsPartitionPoint, IsSortedBy};
ghost use Rattle.std.specs.Ordering.{is_le, is_lt};
ghost use Rattle.hy_layout.specs.inside.Places.{AreNames, compare_name, compare_named, is_called, is_lesser, middle_of, named};

use hy_rows::{Customer, Text};
use std::alloc::{AllocError, Global};
use std::cmp::Ordering;

/// The columns by which a customer is found.
#[derive(Clone, Copy)]
pub struct NamedCustomer {
    /// C_D_ID.
    pub district: u8,
    /// C_LAST.
    pub last: Text<16>,
    /// C_FIRST.
    pub first: Text<16>,
    /// C_ID.
    pub id: u16,
}

impl NamedCustomer {
    /// Those of a row.
    fn of(row: &Customer) -> NamedCustomer
        ensures { result ≡ named row.now }
    {
        NamedCustomer {
            district: row.district,
            last: row.last,
            first: row.first,
            id: row.id,
        }
    }

    /// The order by district, last name, first name and number.
    fn compare(&self, other: &NamedCustomer) -> Ordering
        ensures { result ≡ compare_named self.now other.now }
    {
        self.district
            .cmp(&other.district)
            .then_with(|| self.last.as_bytes().cmp(other.last.as_bytes()))
            .then_with(|| self.first.as_bytes().cmp(other.first.as_bytes()))
            .then_with(|| self.id.cmp(&other.id))
    }

    /// Where the customer stands beside those of a district with a last name.
    fn compare_name(&self, district: u64, name: &[u8]) -> Ordering
        ensures { result ≡ compare_name district name.now self.now }
    {
        u64::from(self.district)
            .cmp(&district)
            .then_with(|| self.last.as_bytes().cmp(name))
    }
}

/// The customers in the order of their districts, last names, first names and numbers.
pub fn names_of(alloc: Global, rows: &[Customer]) -> Result<Vec<NamedCustomer>, AllocError>
    ensures { IfOk result (λ names. AreNames (map named rows.now) names.items) }
{
    let mut names = all_named(alloc, rows)?;
    names.sort_unstable_by(|one, other| one.compare(other));
    Ok(names)
}

/// The customers in the order of their rows.
fn all_named(alloc: Global, rows: &[Customer]) -> Result<Vec<NamedCustomer>, AllocError>
    ensures { IfOk result (λ names. names.items ≡ map named rows.now) }
{
    rows.iter().map(|row| NamedCustomer::of(row)).collect(alloc)
}

/// The one in the middle of the customers of a district with a last name: of n that at place (n + 1) / 2, counted from
/// 1 (TPC-C clause 2.5.2.2).
pub fn middle_named<'a>(
    names: &'a [NamedCustomer],
    district: u64,
    name: &[u8],
) -> Option<&'a NamedCustomer>
    requires { IsSortedBy is_lesser names.now }
    ensures { MatchOption result (middle_of (filter (is_called district name.now) names.now) ≡ None)
        (λ customer. middle_of (filter (is_called district name.now) names.now) ≡ Some customer.now) }
{
    let first = first_named(names, district, name);
    let behind = behind_named(names, district, name);
    let found = &names[first..behind];
    found.get(found.len().saturating_sub(1) / 2)
}

/// How many customers stand before those of a district with a last name.
fn first_named(names: &[NamedCustomer], district: u64, name: &[u8]) -> usize
    requires { IsSortedBy is_lesser names.now }
    ensures bound { result ≤ length names.now }
    ensures point { IsPartitionPoint (λ customer. is_lt (compare_name district name.now customer) ≡ true)
        (λ customer. is_lt (compare_name district name.now customer) ≡ false) names.now result }
{
    names.partition_point(|customer| customer.compare_name(district, name).is_lt())
}

/// How many customers stand before those of a district with a last name, and how many of these there are.
fn behind_named(names: &[NamedCustomer], district: u64, name: &[u8]) -> usize
    requires { IsSortedBy is_lesser names.now }
    ensures bound { result ≤ length names.now }
    ensures point { IsPartitionPoint (λ customer. is_le (compare_name district name.now customer) ≡ true)
        (λ customer. is_le (compare_name district name.now customer) ≡ false) names.now result }
{
    names.partition_point(|customer| customer.compare_name(district, name).is_le())
}
