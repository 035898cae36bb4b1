//! Tests of what is done with the partitions of all warehouses.
#![tactic(auto)]

#[cfg(test)]
mod commands;
#[cfg(test)]
mod crossing_tests;
#[cfg(test)]
mod frame_tests;
#[cfg(test)]
mod halls;
#[cfg(test)]
mod life_tests;
#[cfg(test)]
mod lives;
#[cfg(test)]
mod lock_tests;
#[cfg(test)]
mod model;
#[cfg(test)]
mod query_tests;
#[cfg(test)]
mod refusal_tests;
#[cfg(test)]
mod writer_tests;
