//! The program `hyper`, which runs the order-entry database from a command line.
#![tactic(auto)]

mod system;

use std::process::ExitCode;

#[cfg(test)]
mod chain_tests;
#[cfg(test)]
mod example;
#[cfg(test)]
mod failing_tests;
#[cfg(test)]
mod forked;
#[cfg(test)]
mod lists;
#[cfg(test)]
mod load_tests;
#[cfg(test)]
mod note_tests;
#[cfg(test)]
mod order_tests;
#[cfg(test)]
mod partition_tests;
#[cfg(test)]
mod pass_tests;
#[cfg(test)]
mod row_tests;
#[cfg(test)]
mod snapshot_tests;
#[cfg(test)]
mod store_tests;
#[cfg(test)]
mod stores;
#[cfg(test)]
mod tree_tests;

fn main(rt: HostRuntime) -> ExitCode {
    system::run_on_system(&rt, &rt).exit_code()
}
