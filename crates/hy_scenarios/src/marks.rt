//! The lines of a scenario, and what their marks say.

ghost use Rattle.std.specs.Prelude.{◌≡◌, ◌++◌, IfOk, OnOk, bytes_eq, is_some, option_map};
ghost use Rattle.std.specs.List.{list_any};
ghost use Rattle.hy_cli.specs.CommandLine.{texts_of};
ghost use Rattle.hy_scenarios.specs.Marks.{behind, body_of, is_head, is_status, line_of, output_in, output_of, status_in, step_in, steps_of, text_behind};

use hy_events::Lines;
use std::alloc::{AllocError, Global};

/// The part of a line behind its indentation, if it has that.
fn step_in(line: &[u8]) -> Option<&[u8]>
    ensures { option_map (λ step. step.now) result ≡ step_in line.now }
{
    if line.starts_with(b"    ".as_slice()) {
        Some(&line[4..])
    } else {
        None
    }
}

/// The lines of a scenario that say what is done, without their indentation.
pub fn steps_of<'a>(alloc: Global, text: &'a [u8]) -> Result<Vec<&'a [u8]>, AllocError>
    ensures { IfOk result (λ steps. texts_of steps.items ≡ steps_of text.entry.now) }
{
    let mut steps = Vec::new(alloc);
    for line in Lines::new(text) {
        if let Some(step) = step_in(line.bytes) {
            steps.push(step)?;
        }
    }
    Ok(steps)
}

/// What stands behind a mark and a space, or behind a mark alone.
pub fn behind(mark: u8, step: &[u8]) -> Option<&[u8]>
    ensures { option_map (λ text. text.now) result ≡ behind mark step.now }
{
    if step.is_empty() || step[0] != mark {
        return None;
    }
    if step.len() == 1 {
        return Some(&step[1..]);
    }
    if step[1] == b' ' {
        Some(&step[2..])
    } else {
        None
    }
}

/// Whether a step begins a block: a command, a new file or a change of a file.
pub fn is_head(step: &[u8]) -> bool
    ensures { result ≡ is_head step.now }
{
    behind(b'$', step).is_some() || behind(b'>', step).is_some() || behind(b'@', step).is_some()
}

/// The steps up to the next one that begins a block.
pub fn body_of<'a, 'b>(later: &'b [&'a [u8]]) -> &'b [&'a [u8]]
    ensures { texts_of result.now ≡ body_of (texts_of later.entry.now) }
{
    for (place, step) in later.iter().enumerate() {
        if is_head(step) {
            return &later[..place];
        }
    }
    later
}

/// Puts a text and a line feed behind others, where there is one.
fn push_line(lines: &mut Vec<u8>, text: Option<&[u8]>) -> Result<(), AllocError>
    ensures { OnOk result (lines.new.items ≡ lines.old.items ++ line_of (option_map (λ text. text.now) text.entry)) }
{
    if let Some(text) = text {
        lines.extend_from_slice(text)?;
        lines.push(b'\n')?;
    }
    Ok(())
}

/// The lines behind a mark.
pub fn text_behind(alloc: Global, mark: u8, steps: &[&[u8]]) -> Result<Vec<u8>, AllocError>
    ensures { IfOk result (λ text. text.items ≡ text_behind mark (texts_of steps.entry.now)) }
{
    let mut text = Vec::new(alloc);
    for step in steps {
        push_line(&mut text, behind(mark, step))?;
    }
    Ok(text)
}

/// Whether some step has a mark.
pub fn has_mark(mark: u8, steps: &[&[u8]]) -> bool
    ensures { result ≡ list_any (λ step. is_some (behind mark step)) (texts_of steps.entry.now) }
{
    for step in steps {
        if behind(mark, step).is_some() {
            return true;
        }
    }
    false
}

/// A line of standard output, if a step behind a command is one.
fn output_in(step: &[u8]) -> Option<&[u8]>
    ensures { option_map (λ text. text.now) result ≡ output_in step.now }
{
    if behind(b'<', step).is_some()
        || behind(b'!', step).is_some()
        || step == b"[1]".as_slice()
        || step == b"[2]".as_slice()
    {
        None
    } else {
        Some(step)
    }
}

/// The lines of standard output.
pub fn output_of(alloc: Global, steps: &[&[u8]]) -> Result<Vec<u8>, AllocError>
    ensures { IfOk result (λ text. text.items ≡ output_of (texts_of steps.entry.now)) }
{
    let mut text = Vec::new(alloc);
    for step in steps {
        push_line(&mut text, output_in(step))?;
    }
    Ok(text)
}

/// Whether some step is this one.
fn has_step(steps: &[&[u8]], wanted: &[u8]) -> bool
    ensures { result ≡ list_any (λ step. bytes_eq step wanted.now) (texts_of steps.entry.now) }
{
    for step in steps {
        if *step == wanted {
            return true;
        }
    }
    false
}

/// The exit status that is wanted.
pub fn status_in(steps: &[&[u8]]) -> u8
    ensures { result ≡ status_in (texts_of steps.entry.now) }
{
    if has_step(steps, b"[2]".as_slice()) {
        2
    } else if has_step(steps, b"[1]".as_slice()) {
        1
    } else {
        0
    }
}
