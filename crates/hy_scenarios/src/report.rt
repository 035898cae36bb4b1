//! What is printed of scenarios.

ghost use Rattle.std.specs.Prelude.{◌≡◌, ◌++◌, ℕ, List, IfOk, OnOk, codes, is_none, option_map};
ghost use Rattle.hy_events.specs.Words.{parts};
ghost use Rattle.hy_scenarios.specs.Reports.{IsLine, IsReport, closing_line, failed_in, first_other, is_line};

use crate::commands::Output;
use crate::scenario::{Failure, Fault, run_scenario};
use hy_events::Parts;
use std::alloc::{AllocError, Global};
use std::io::{self, Write};
use std::sync::Wait;
use std::thread::Threads;

/// A scenario: the name of its file, and what stands there.
#[derive(Drop)]
pub struct Scenario {
    /// The file's name.
    pub name: String,
    /// Its bytes.
    pub text: Vec<u8>,
}

/// What is printed of scenarios, and whether all of them hold.
#[derive(Drop)]
pub struct Report {
    /// A line for each scenario, and one for all of them.
    pub text: Vec<u8>,
    /// Whether all of them hold.
    pub all_hold: bool,
}

/// The first line in which two texts differ, where it is there in each.
#[derive(Clone, Copy)]
struct Difference<'a> {
    printed: Option<&'a [u8]>,
    wanted: Option<&'a [u8]>,
}

/// Runs scenarios, and says of each whether it holds.
pub fn report_of<R: Threads + Wait + Sync>(
    rt: &R,
    alloc: Global,
    scenarios: &[Scenario],
) -> Result<Report, AllocError>
    ensures { IfOk result (λ report. IsReport scenarios.now report.text.items report.all_hold) }
{
    let mut text = Vec::new(alloc);
    let mut verdicts = Vec::new(alloc);
    for scenario in scenarios {
        let fault = run_scenario(rt, alloc, &scenario.text)?;
        push_verdict(alloc, &mut text, scenario.name.as_str(), &fault)?;
        verdicts.push(fault.is_none())?;
    }
    let failed = failed_in(&verdicts);
    push_closing(&mut text, scenarios.len(), failed)?;
    Ok(Report {
        text,
        all_hold: failed == 0,
    })
}

/// How many of some scenarios don't hold.
fn failed_in(verdicts: &[bool]) -> usize
    ensures { result ≡ failed_in verdicts.now }
{
    let mut failed = 0;
    for holds in verdicts {
        if !*holds {
            failed += 1;
        }
    }
    failed
}

/// Puts the line of a scenario behind others.
fn push_verdict(
    alloc: Global,
    text: &mut Vec<u8>,
    name: &str,
    fault: &Option<Fault<'_>>,
) -> Result<(), AllocError>
    ensures { OnOk result ((line : List ℕ) × IsLine name.now (is_none fault.entry.now) line
        × (text.new.items ≡ text.old.items ++ line)) }
{
    match fault {
        None => push_holds(text, name),
        Some(fault) => push_fails(alloc, text, name, fault),
    }
}

/// Puts behind others that a scenario holds.
fn push_holds(text: &mut Vec<u8>, name: &str) -> Result<(), AllocError>
    ensures { OnOk result (text.new.items ≡ text.old.items ++ (name.now ++ codes " holds\n")) }
{
    text.extend_from_slice(name.as_bytes())?;
    text.extend_from_slice(b" holds\n".as_slice())?;
    Ok(())
}

/// Puts behind others that a scenario doesn't hold, and why.
fn push_fails(
    alloc: Global,
    text: &mut Vec<u8>,
    name: &str,
    fault: &Fault<'_>,
) -> Result<(), AllocError>
    ensures { OnOk result ((why : List ℕ)
        × (text.new.items ≡ text.old.items ++ (name.now ++ codes " fails: " ++ why))) }
{
    let why = why(alloc, fault)?;
    text.extend_from_slice(name.as_bytes())?;
    text.extend_from_slice(b" fails: ".as_slice())?;
    text.extend_from_slice(&why)?;
    Ok(())
}

/// Puts the last line behind the others.
fn push_closing(text: &mut Vec<u8>, total: usize, failed: usize) -> Result<(), AllocError>
    ensures { OnOk result (text.new.items ≡ text.old.items ++ closing_line total failed) }
{
    let written = if failed == 0 {
        writeln!(text, "{total} scenarios hold")
    } else {
        writeln!(text, "{failed} of {total} scenarios fail")
    };
    written.map_err(|_| AllocError)
}

/// The block that doesn't hold, and what is wrong with it, as lines.
fn why(alloc: Global, fault: &Fault<'_>) -> Result<Vec<u8>, AllocError> {
    let mut text = fault.head.to_vec(alloc)?;
    match &fault.failure {
        Failure::Undone => text.extend_from_slice(b"\n  can't be done\n".as_slice())?,
        Failure::Printed { printed, wanted } => {
            text.push(b'\n')?;
            push_differences(&mut text, printed, wanted)?;
        }
    }
    Ok(text)
}

/// Puts the first line of each stream that differs behind others, and the exit status where that differs.
fn push_differences(
    text: &mut Vec<u8>,
    printed: &Output,
    wanted: &Output,
) -> Result<(), AllocError> {
    push_difference(text, "standard output", &printed.out, &wanted.out)?;
    push_difference(text, "standard error", &printed.err, &wanted.err)?;
    if printed.status != wanted.status {
        writeln!(
            text,
            "  status {}, wanted {}",
            printed.status, wanted.status
        )
        .map_err(|_| AllocError)?;
    }
    Ok(())
}

/// Puts the first line in which two texts differ behind others, if there is one.
fn push_difference(
    text: &mut Vec<u8>,
    stream: &str,
    printed: &[u8],
    wanted: &[u8],
) -> Result<(), AllocError> {
    let Some(difference) = first_difference(printed, wanted) else {
        return Ok(());
    };
    text.extend_from_slice(b"  ".as_slice())?;
    text.extend_from_slice(stream.as_bytes())?;
    text.extend_from_slice(b", wanted: ".as_slice())?;
    push_part(text, difference.wanted)?;
    text.extend_from_slice(b"\n    got: ".as_slice())?;
    push_part(text, difference.printed)?;
    text.push(b'\n')?;
    Ok(())
}

/// Puts a line behind others, or that there is none.
fn push_part(text: &mut Vec<u8>, line: Option<&[u8]>) -> Result<(), AllocError> {
    match line {
        Some(line) => text.extend_from_slice(line),
        None => text.extend_from_slice(b"(nothing more)".as_slice()),
    }
}

/// The first line in which two texts differ.
fn first_difference<'a>(printed: &'a [u8], wanted: &'a [u8]) -> Option<Difference<'a>>
    ensures { option_map (λ d. (option_map (λ line. line.now) d.printed, option_map (λ line. line.now) d.wanted))
        result ≡ first_other (parts 10 printed.entry.now) (parts 10 wanted.entry.now) }
{
    let mut printed = Parts::new(b'\n', printed);
    let mut wanted = Parts::new(b'\n', wanted);
    while let Some(line) = printed.take_part() {
        let other = wanted.take_part();
        if !is_line(other, line) {
            return Some(Difference {
                printed: Some(line),
                wanted: other,
            });
        }
    }
    let other = wanted.take_part()?;
    Some(Difference {
        printed: None,
        wanted: Some(other),
    })
}

/// Whether a line is there and is this one.
fn is_line(line: Option<&[u8]>, other: &[u8]) -> bool
    ensures { result ≡ is_line (option_map (λ line. line.now) line.entry) other.now }
{
    match line {
        Some(line) => line == other,
        None => false,
    }
}
