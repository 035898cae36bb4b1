//! Answers that are held.

ghost use Rattle.std.specs.Prelude.{◌≡◌, ◌++◌, [], ℕ, IfErr, List, OnOk};
ghost use Rattle.std.specs.Io.KnownBytes.{Appends};
ghost use Rattle.hy_schema.specs.declared.refusal.Refusal.TheVariants as Refusal;
ghost use Rattle.hy_hyper_answers.specs.Served.{AnswersSaid, bad_event_text, line_count, printed};
ghost use Rattle.hy_hyper_input.specs.Received.{Said};

use hy_output::{Output, Stream};
use hy_schema::Refusal;
use hy_script::{Database, Unanswered, answer_line};
use hy_session::hy_partition::Loaded;
use std::alloc::Global;
use std::io::Write;
use std::marker::Model;
use std::mem;

/// How answers are printed.
#[derive(Clone, Copy, Debug, PartialEq, Eq)]
pub enum Style {
    /// One behind another, as a script prints them.
    Plain,
    /// Each behind a line `@L N`: the number of its event's line in the input, and how many lines the answer has.
    Numbered,
}

/// Answers to events that were done, in their order, which may not be printed so far.
#[derive(Drop)]
pub struct Answers {
    style: Style,
    held: Vec<u8>,
    // room for one answer
    answer: Vec<u8>,
}

impl Model for Answers {
    ghost use Rattle.std.specs.Prelude.{◌≡◌, []};
    ghost use Rattle.hy_hyper_answers.specs.Served.{HeldAnswers};

    ghost Value = { HeldAnswers };

    ghost view = { λ answers. record { style = answers.style; text = answers.held.items } };

    ghost invariant = { λ answers. answers.answer.items ≡ [] };
}

impl Answers {
    /// None so far. Takes no memory.
    pub fn new(alloc: Global, style: Style) -> Answers
        ensures { result ≡ record { style = style; text = [] } }
    {
        Answers {
            style,
            held: Vec::new(alloc),
            answer: Vec::new(alloc),
        }
    }

    /// What is to be printed of them.
    pub fn text(&self) -> &[u8]
        ensures { result.now ≡ self.now.text }
    {
        &self.held
    }

    /// Holds none any more, and keeps the memory for others.
    pub fn clear(&mut self)
        ensures { self.new ≡ record self.old { text = [] } }
    {
        self.held.clear();
    }

    /// Does the event that a line of an input says, and holds its answer; a bad event changes nothing, and its answer tells the
    /// number of its line. E1 where the answer finds no memory: then the event may be done or not, and nothing that is held may
    /// be printed any more.
    pub fn answer<const N: usize, K: Loaded>(
        &mut self,
        alloc: Global,
        database: &mut Database<N, K>,
        number: u64,
        line: &[u8],
    ) -> Result<(), Refusal>
        ensures answered { OnOk result ((text : List ℕ)
            × AnswersSaid N (Said.a_line number line.now) database.old database.new text
            × (self.new ≡ record self.old { text = self.old.text ++ printed self.old.style number text })) }
        ensures refused { IfErr result (λ why. why ≡ Refusal.NoMemory) }
    {
        let mut out = Stream::new(mem::replace(&mut self.answer, Vec::new(alloc)));
        match answer_line(alloc, database, line, &mut out) {
            Ok(()) => self.hold(number, out.into_writer()),
            Err(Unanswered::BadEvent) => {
                write_bad_event(&mut out, number)?;
                self.hold(number, out.into_writer())
            }
            Err(Unanswered::Output(_)) => Err(Refusal::NoMemory),
        }
    }

    /// Holds the answer to a line that is too long, which is a bad event. E1 where it finds no memory.
    pub fn answer_too_long(&mut self, alloc: Global, number: u64) -> Result<(), Refusal>
        ensures answered { OnOk result
            (self.new ≡ record self.old { text = self.old.text ++ printed self.old.style number (bad_event_text number) }) }
        ensures refused { IfErr result (λ why. why ≡ Refusal.NoMemory) }
    {
        let mut out = Stream::new(mem::replace(&mut self.answer, Vec::new(alloc)));
        write_bad_event(&mut out, number)?;
        self.hold(number, out.into_writer())
    }

    /// Holds an answer behind the others, and keeps its memory.
    fn hold(&mut self, number: u64, mut text: Vec<u8>) -> Result<(), Refusal>
        ensures held { OnOk result
            (self.new ≡ record self.old { text = self.old.text ++ printed self.old.style number text.items }) }
        ensures refused { IfErr result (λ why. why ≡ Refusal.NoMemory) }
    {
        if self.style == Style::Numbered && !text.is_empty() {
            let lines = count_lines(&text);
            if writeln!(self.held, "@{number} {lines}").is_err() {
                return Err(Refusal::NoMemory);
            }
        }
        self.held.extend_from_slice(&text)?;
        text.clear();
        self.answer = text;
        Ok(())
    }
}

/// How many lines a text has.
fn count_lines(text: &[u8]) -> usize
    ensures { result ≡ line_count text.now }
{
    text.iter().filter(|byte| **byte == b'\n').count()
}

/// Writes that a line is a bad event. E1 where that finds no memory.
fn write_bad_event<O: Output>(out: &mut O, number: u64) -> Result<(), Refusal>
    ensures written { OnOk result (Appends (O.contents out.old) (O.contents out.new) (bad_event_text number)) }
    ensures refused { IfErr result (λ why. why ≡ Refusal.NoMemory) }
{
    match writeln!(out, "bad event on line {number}") {
        Ok(()) => Ok(()),
        Err(_) => Err(Refusal::NoMemory),
    }
}
