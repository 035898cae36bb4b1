//! Tests of databases that are recovered from a log.
#![tactic(auto)]

#[cfg(test)]
mod life_tests;
#[cfg(test)]
mod logs;
#[cfg(test)]
mod recovery_tests;
