//! The commands of a scenario: their words, and what they print.

ghost use Rattle.std.specs.Prelude.{◌≡◌, ◌++◌, [], ◌↔◌, All, IfOk, IsTrue, IsUtf8, MatchOption, OnOk, option_map};
ghost use Rattle.hy_files.specs.MemoryFiles.{files_on};
ghost use Rattle.hy_cli.specs.CommandLine.{texts_of};
ghost use Rattle.hy_output.specs.Streams.{writer_of};
ghost use Rattle.hy_program.specs.declared.ending.Ending.{Ending};
ghost use Rattle.hy_program.specs.Runs.{status_of};
ghost use Rattle.hy_scenarios.specs.Commands.{Prints, given_words, printed_in, unquoted_words, wanted_by, words_of};

use crate::marks::{output_of, status_in, text_behind};
use hy_events::Parts;
use hy_files::MemoryFiles;
use hy_output::Stream;
use hy_program::{Ending, run_words};
use std::alloc::{AllocError, Global};
use std::sync::Wait;
use std::thread::Threads;

/// What a command printed, and its exit status.
#[derive(Drop)]
pub struct Output {
    /// What stands on standard output.
    pub out: Vec<u8>,
    /// What stands on standard error.
    pub err: Vec<u8>,
    /// The exit status.
    pub status: u8,
}

/// Whether two outputs are the same.
pub fn is_same(printed: &Output, wanted: &Output) -> bool
    ensures { IsTrue result ↔ (printed_in printed.now ≡ printed_in wanted.now) }
{
    printed.out.as_slice() == wanted.out.as_slice()
        && printed.err.as_slice() == wanted.err.as_slice()
        && printed.status == wanted.status
}

/// The words of a command line.
fn words_of<'a>(alloc: Global, line: &'a [u8]) -> Result<Vec<&'a [u8]>, AllocError>
    ensures { IfOk result (λ words. texts_of words.items ≡ words_of line.entry.now) }
{
    let mut words = Vec::new(alloc);
    let mut parts = Parts::new(b'"', line);
    while let Some(part) = parts.take_part() {
        push_unquoted(&mut words, part)?;
        match parts.take_part() {
            Some(quoted) => words.push(quoted)?,
            None => return Ok(words),
        }
    }
    Ok(words)
}

/// Puts the words that stand between spaces behind others.
fn push_unquoted<'a>(words: &mut Vec<&'a [u8]>, part: &'a [u8]) -> Result<(), AllocError>
    ensures { OnOk result (texts_of words.new.items ≡ texts_of words.old.items ++ unquoted_words part.entry.now) }
{
    let mut rest = Parts::new(b' ', part);
    while let Some(word) = rest.take_part() {
        if !word.is_empty() {
            words.push(word)?;
        }
    }
    Ok(())
}

/// The words that the program is given, where a command line names it.
pub fn given_words<'a>(alloc: Global, line: &'a [u8]) -> Result<Option<Vec<&'a [u8]>>, AllocError>
    ensures { IfOk result (λ found. option_map (λ words. texts_of words.items) found
        ≡ given_words (words_of line.entry.now)) }
{
    let mut words = words_of(alloc, line)?;
    if words.is_empty() || words[0] != b"./hyper".as_slice() {
        return Ok(None);
    }
    words.remove(0);
    Ok(Some(words))
}

/// Words as texts, where each is one.
pub fn as_texts<'a>(alloc: Global, words: &[&'a [u8]]) -> Result<Option<Vec<&'a str>>, AllocError>
    ensures { IfOk result (λ found. MatchOption found (¬ (All IsUtf8 (texts_of words.entry.now)))
        (λ texts. texts_of texts.items ≡ texts_of words.entry.now)) }
{
    let mut texts = Vec::with_capacity(alloc, words.len())?;
    for word in words {
        match std::str::from_utf8(word) {
            Ok(text) => texts.push(text)?,
            Err(_) => return Ok(None),
        }
    }
    Ok(Some(texts))
}

/// Runs the program on files in memory, with bytes to read on standard input.
pub fn run<R: Threads + Wait + Sync>(
    rt: &R,
    alloc: Global,
    words: &[&str],
    input: &[u8],
    stored: &mut MemoryFiles,
) -> Result<Output, AllocError>
    ensures { IfOk result (λ output. (end : Ending)
        × Prints (texts_of words.entry.now) input.entry.now (files_on stored.old) (files_on stored.new)
        (printed_in output) end) }
{
    let mut out = nothing(alloc);
    let mut err = nothing(alloc);
    match run_words(rt, alloc, words, stored, input, &mut out, &mut err) {
        Ending::WriterFailed => Err(AllocError),
        ending => Ok(printed(out, err, ending)),
    }
}

/// An output in memory on which nothing stands.
fn nothing(alloc: Global) -> Stream<Vec<u8>>
    ensures { (writer_of result).items ≡ [] }
{
    Stream::new(Vec::new(alloc))
}

/// What stands on two outputs in memory behind a run that ended so.
fn printed(out: Stream<Vec<u8>>, err: Stream<Vec<u8>>, ending: Ending) -> Output
    ensures { printed_in result ≡ record {
      out = (writer_of out).items;
      err = (writer_of err).items;
      status = status_of ending;
    } }
{
    Output {
        out: out.into_writer(),
        err: err.into_writer(),
        status: ending.status(),
    }
}

/// What the steps behind a command want it to print.
pub fn wanted_by(alloc: Global, steps: &[&[u8]]) -> Result<Output, AllocError>
    ensures { IfOk result (λ output. printed_in output ≡ wanted_by (texts_of steps.entry.now)) }
{
    Ok(Output {
        out: output_of(alloc, steps)?,
        err: text_behind(alloc, b'!', steps)?,
        status: status_in(steps),
    })
}
