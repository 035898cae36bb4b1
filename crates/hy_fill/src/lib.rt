//! The pages of a warehouse as it was loaded, with the indexes over its rows.
#![tactic(auto)]

mod entries;
mod fill;
mod keys;
mod last_orders;
mod rows;

pub use fill::filled_store;
