//! Runs a scenario.

ghost use Rattle.std.specs.Prelude.{◌≡◌, IfOk, MatchOption, OnOk, false, is_none, option_map};
ghost use Rattle.hy_files.specs.MemoryFiles.{files_on};
ghost use Rattle.hy_cli.specs.CommandLine.{texts_of};
ghost use Rattle.hy_files.specs.Files.{no_files};
ghost use Rattle.hy_scenarios.specs.Commands.{given_words, words_of};
ghost use Rattle.hy_scenarios.specs.Marks.{blocks_of};
ghost use Rattle.hy_scenarios.specs.Scenarios.{AreDone, IsChanged, IsCommand, IsDone, IsFile, IsMade, IsRun, IsVerdict, Puts, PutsEvents, input_on};

use crate::changes::{bytes_of, replaced};
use crate::commands::{Output, as_texts, given_words, is_same, run, wanted_by};
use crate::marks::{behind, body_of, has_mark, is_head, steps_of, text_behind};
use hy_files::{FileSystem, MemoryFiles};
use std::alloc::{AllocError, Global};
use std::io;
use std::sync::Wait;
use std::thread::Threads;

/// Why a block of a scenario doesn't hold.
#[derive(Drop)]
pub enum Failure {
    /// It can't be done: it is no command of the program, a path or a word is no text, a step of a new file says no
    /// bytes, or a file doesn't have the lines that are taken out.
    Undone,
    /// A command printed something else than what is wanted.
    Printed { printed: Output, wanted: Output },
}

/// Puts a file at a path.
fn put(stored: &mut MemoryFiles, path: &str, bytes: &[u8]) -> Result<(), AllocError>
    ensures { OnOk result (Puts (files_on stored.old) (files_on stored.new) path.now bytes.now) }
{
    match stored.write(path, bytes) {
        Ok(()) => Ok(()),
        Err(_) => Err(AllocError),
    }
}

/// Puts the lines of events into the file `events`, where there are some.
fn put_events(alloc: Global, body: &[&[u8]], stored: &mut MemoryFiles) -> Result<(), AllocError>
    ensures { OnOk result (PutsEvents (files_on stored.old) (files_on stored.new) (texts_of body.entry.now)) }
{
    if !has_mark(b'<', body) {
        return Ok(());
    }
    let events = text_behind(alloc, b'<', body)?;
    put(stored, "events", &events)
}

/// What a command may read on standard input.
fn input_in(alloc: Global, stored: &mut MemoryFiles) -> Result<Vec<u8>, AllocError>
    ensures input { IfOk result (λ input. input.items ≡ input_on (files_on stored.old)) }
    ensures stays { files_on stored.new ≡ files_on stored.old }
{
    match file_at(alloc, "events", stored)? {
        Some(bytes) => Ok(bytes),
        None => Ok(Vec::new(alloc)),
    }
}

/// Runs a command on files in memory, and compares what it prints.
fn do_command<R: Threads + Wait + Sync>(
    rt: &R,
    alloc: Global,
    words: &[&str],
    body: &[&[u8]],
    stored: &mut MemoryFiles,
) -> Result<Option<Failure>, AllocError>
    ensures { IfOk result (λ failure.
        IsRun (texts_of words.entry.now) (texts_of body.entry.now) (files_on stored.old) (files_on stored.new)
        (is_none failure)) }
{
    put_events(alloc, body, stored)?;
    let input = input_in(alloc, stored)?;
    let wanted = wanted_by(alloc, body)?;
    let printed = run(rt, alloc, words, &input, stored)?;
    if is_same(&printed, &wanted) {
        Ok(None)
    } else {
        Ok(Some(Failure::Printed { printed, wanted }))
    }
}

/// Makes a file.
fn do_file(
    alloc: Global,
    path: &str,
    body: &[&[u8]],
    stored: &mut MemoryFiles,
) -> Result<Option<Failure>, AllocError>
    ensures { IfOk result (λ failure.
        IsMade path.now (texts_of body.entry.now) (files_on stored.old) (files_on stored.new) (is_none failure)) }
{
    let Some(bytes) = bytes_of(alloc, body)? else {
        return Ok(Some(Failure::Undone));
    };
    put(stored, path, &bytes)?;
    Ok(None)
}

/// The file at a path, if it is there.
fn file_at(
    alloc: Global,
    path: &str,
    stored: &mut MemoryFiles,
) -> Result<Option<Vec<u8>>, AllocError>
    ensures file { IfOk result (λ file. option_map (λ bytes. bytes.items) file ≡ files_on stored.old path.now) }
    ensures stays { files_on stored.new ≡ files_on stored.old }
{
    match stored.read(alloc, path) {
        Ok(bytes) => Ok(Some(bytes)),
        Err(error) => match error.kind() {
            io::ErrorKind::OutOfMemory => Err(AllocError),
            _ => Ok(None),
        },
    }
}

/// Changes a file.
fn do_change(
    alloc: Global,
    path: &str,
    body: &[&[u8]],
    stored: &mut MemoryFiles,
) -> Result<Option<Failure>, AllocError>
    ensures { IfOk result (λ failure.
        IsChanged path.now (texts_of body.entry.now) (files_on stored.old) (files_on stored.new) (is_none failure)) }
{
    let Some(bytes) = file_at(alloc, path, stored)? else {
        return Ok(Some(Failure::Undone));
    };
    let old = text_behind(alloc, b'-', body)?;
    let new = text_behind(alloc, b'+', body)?;
    let Some(changed) = replaced(alloc, &old, &new, &bytes)? else {
        return Ok(Some(Failure::Undone));
    };
    put(stored, path, &changed)?;
    Ok(None)
}

/// Does a command line, where it names the program.
fn do_line<R: Threads + Wait + Sync>(
    rt: &R,
    alloc: Global,
    line: &[u8],
    body: &[&[u8]],
    stored: &mut MemoryFiles,
) -> Result<Option<Failure>, AllocError>
    ensures { IfOk result (λ failure. MatchOption (given_words (words_of line.now)) (is_none failure ≡ false)
        (λ words. IsCommand words (texts_of body.entry.now) (files_on stored.old) (files_on stored.new)
        (is_none failure))) }
{
    let Some(words) = given_words(alloc, line)? else {
        return Ok(Some(Failure::Undone));
    };
    let Some(texts) = as_texts(alloc, &words)? else {
        return Ok(Some(Failure::Undone));
    };
    do_command(rt, alloc, &texts, body, stored)
}

/// Does a block of a scenario.
fn do_block<R: Threads + Wait + Sync>(
    rt: &R,
    alloc: Global,
    head: &[u8],
    body: &[&[u8]],
    stored: &mut MemoryFiles,
) -> Result<Option<Failure>, AllocError>
    ensures { IfOk result (λ failure. IsDone (record { head = head.now; body = texts_of body.entry.now })
        (files_on stored.old) (files_on stored.new) (is_none failure)) }
{
    if let Some(line) = behind(b'$', head) {
        return do_line(rt, alloc, line, body, stored);
    }
    if let Some(path) = behind(b'>', head) {
        return match std::str::from_utf8(path) {
            Ok(path) => do_file(alloc, path, body, stored),
            Err(_) => Ok(Some(Failure::Undone)),
        };
    }
    let Some(path) = behind(b'@', head) else {
        return Ok(Some(Failure::Undone));
    };
    match std::str::from_utf8(path) {
        Ok(path) => do_change(alloc, path, body, stored),
        Err(_) => Ok(Some(Failure::Undone)),
    }
}

/// Why a scenario doesn't hold: the step that begins the block, and what is wrong with it.
#[derive(Drop)]
pub struct Fault<'a> {
    /// The step that begins the block.
    pub head: &'a [u8],
    /// What is wrong with it.
    pub failure: Failure,
}

/// Runs a scenario on files in memory: its first block that doesn't hold, or none.
pub fn run_scenario<'a, R: Threads + Wait + Sync>(
    rt: &R,
    alloc: Global,
    text: &'a [u8],
) -> Result<Option<Fault<'a>>, AllocError>
    ensures { IfOk result (λ fault. IsVerdict text.entry.now (is_none fault)) }
{
    let steps = steps_of(alloc, text)?;
    if steps.is_empty() || !is_head(steps[0]) {
        return Ok(Some(Fault {
            head: text,
            failure: Failure::Undone,
        }));
    }
    run_steps(rt, alloc, &steps)
}

/// Runs the blocks of steps.
fn run_steps<'a, R: Threads + Wait + Sync>(
    rt: &R,
    alloc: Global,
    steps: &[&'a [u8]],
) -> Result<Option<Fault<'a>>, AllocError>
    ensures { IfOk result (λ fault. AreDone (blocks_of (texts_of steps.entry.now)) no_files (is_none fault)) }
{
    let mut stored = MemoryFiles::new(alloc);
    for (place, head) in steps.iter().enumerate() {
        if !is_head(head) {
            continue;
        }
        let body = body_of(&steps[place + 1..]);
        if let Some(failure) = do_block(rt, alloc, head, body, &mut stored)? {
            return Ok(Some(Fault { head, failure }));
        }
    }
    Ok(None)
}
