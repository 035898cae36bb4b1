//! Runs scenarios, the files that its words name: what a user does with the program, on files in memory, and what it
//! has to print.
#![tactic(auto)]

mod changes;
mod commands;
mod marks;
mod report;
mod scenario;

use report::Scenario;
use std::alloc::AllocError;
use std::io::{self, Write};
use std::process::ExitCode;
use std::sync::Wait;
use std::thread::Threads;
use std::{env, fs};

fn main(rt: HostRuntime) -> ExitCode {
    match run_named(&rt, &rt) {
        Ok(true) => ExitCode::SUCCESS,
        Ok(false) => ExitCode::FAILURE,
        Err(error) => {
            let _ = writeln!(rt.stderr(), "{error}");
            ExitCode::FAILURE
        }
    }
}

/// Runs the scenarios in the files that the words name, and prints what is said of them: whether all hold.
fn run_named<R: Threads + Wait + Sync>(rt: &HostRuntime, threads: &R) -> io::Result<bool> {
    let alloc = rt.alloc();
    let names: Vec<String> = env::args(rt)?.skip(1).collect(alloc)?;
    let mut scenarios = Vec::new(alloc);
    for name in names {
        let text = fs::read(rt, name.as_str())?;
        scenarios
            .push(Scenario { name, text })
            .map_err(|_| AllocError)?;
    }
    let report = report::report_of(threads, alloc, &scenarios)?;
    rt.stdout().write_all(&report.text)?;
    Ok(report.all_hold)
}
