//! The five transactions of TPC-C on the pages of a warehouse, in slices.
#![tactic(auto)]

mod ahead;
mod begin;
mod delivery;
mod executor;
mod level;
mod parts;
mod payment;
mod purchase;
mod reading;
mod refused;
mod status;

pub use executor::Executor;
pub use refused::refusal_of_shortage;
