//! The consistency conditions of the order-entry database (TPC-C clause 3.3.2), tested in time proportional
//! to the rows.
#![tactic(auto)]

mod conditions;
mod customers;
mod districts;
mod keys;
mod numbers;
mod orders;
mod sums;
mod warehouses;

pub use conditions::first_broken;
pub use keys::{CustomerId, DistrictId, OrderId};
