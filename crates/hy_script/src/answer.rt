//! What an event asks of one warehouse, and the answer.

ghost use Rattle.std.specs.Prelude.{◌≡◌, ◌<◌, ◌++◌, IsTrue, OnErr, OnOk, codes, decimal, length};
ghost use Rattle.std.specs.Io.KnownBytes.{Appends};
ghost use Rattle.hy_session.specs.of_crossing.Lists.{ChangesAt};
ghost use Rattle.hy_session.specs.of_partition.Jobs.{Log};
ghost use Rattle.hy_script.specs.Answers.{AnswersQuery, Grants, begun_text, count_text, progress_text, refused_text, waiting_text};
ghost use Rattle.hy_script.specs.Printed.{IsGranted, IsWritten};
ghost use Rattle.hy_script.specs.inside.Invariants.{IsServed, IsServedAt, KeepsServed};

use crate::terminal::Terminal;
use hy_commands::{Command, Commit, Reply};
use hy_events::{QueryText, write_reply};
use hy_output::Output;
use hy_passes::Journal;
use hy_schema::Refusal;
use hy_session::Session;
use hy_session::hy_forks::OwnPartitions;
use hy_session::hy_partition::{Loaded, Progress};
use std::alloc::Global;
use std::io;

/// What an event asks of one warehouse.
#[derive(Debug, Drop)]
pub enum Request {
    /// Run a command as a whole.
    Run(Command),
    /// Begin a command.
    Begin(Command),
    /// Do a slice of what runs.
    Step,
    /// Take the reply that waits.
    Done,
    /// Say how many pages the job that runs has written.
    Touched,
    /// Say how many frames are free.
    Free,
    /// Say how many frames more than one page table maps.
    Shared,
    /// Let the warehouse have so many frames more than it uses.
    Limit(u64),
}

/// Does what is asked of the warehouse at a place, by its partition and its terminal, and writes the answer.
pub fn grant<const N: usize, K: Loaded, O: Output>(
    partitions: &mut OwnPartitions<N, K>,
    place: usize,
    terminal: &mut Terminal<K>,
    journal: &mut Journal<Commit, K>,
    request: Request,
    out: &mut O,
) -> io::Result<()>
    requires there { place < length partitions.old }
    requires served { IsServedAt partitions.old place terminal.old }
    ensures granted { ChangesAt (λ p q. OnOk result (IsGranted request journal.old.list.log journal.new.list.log p q
        (O.contents out.old) (O.contents out.new)) × IsServed q terminal.new) place partitions.old partitions.new }
    ensures failed { OnErr result (IsTrue (O.has_failed out.new)) }
{
    match request {
        Request::Run(command) => run(partitions, place, terminal, journal, command, out),
        Request::Begin(command) => begin(partitions, place, terminal, command, out),
        Request::Step => step(partitions, place, journal, out),
        Request::Done => write_waiting(out, terminal.take_reply(partitions, place)),
        Request::Touched => write_count(out, "touched", partitions.part(place).touched()),
        Request::Free => write_count(out, "free", partitions.part(place).free()),
        Request::Shared => write_count(out, "shared", partitions.part(place).shared()),
        Request::Limit(more) => limit(partitions, place, terminal, more, out),
    }
}

/// Asks a query in a session, and writes the answer, or why there is none.
pub fn write_answer<const N: usize, O: Output>(
    alloc: Global,
    session: &Session<N>,
    text: &QueryText<'_>,
    out: &mut O,
) -> io::Result<()>
    ensures written { OnOk result
        (IsWritten (AnswersQuery N text.now session.now) (O.contents out.old) (O.contents out.new)) }
    ensures failed { OnErr result (IsTrue (O.has_failed out.new)) }
{
    match session.ask(alloc, text.as_bytes()) {
        Ok(answer) => out.write_all(&answer),
        Err(refusal) => write_refused(out, refusal),
    }
}

/// Runs a command as a whole, and writes its reply.
fn run<const N: usize, K: Loaded, O: Output>(
    partitions: &mut OwnPartitions<N, K>,
    place: usize,
    terminal: &mut Terminal<K>,
    journal: &mut Journal<Commit, K>,
    command: Command,
    out: &mut O,
) -> io::Result<()>
    requires there { place < length partitions.old }
    requires served { IsServedAt partitions.old place terminal.old }
    ensures granted { ChangesAt (λ p q. OnOk result (IsGranted (Request.Run command) journal.old.list.log
        journal.new.list.log p q (O.contents out.old) (O.contents out.new)) × IsServed q terminal.new) place
        partitions.old partitions.new }
    ensures failed { OnErr result (IsTrue (O.has_failed out.new)) }
{
    let reply = terminal.run(partitions, place, journal, command);
    write_reply(out, &reply)
}

/// Begins a command, and writes that it did or why not.
fn begin<const N: usize, K: Loaded, O: Output>(
    partitions: &mut OwnPartitions<N, K>,
    place: usize,
    terminal: &mut Terminal<K>,
    command: Command,
    out: &mut O,
) -> io::Result<()>
    requires there { place < length partitions.old }
    requires served { IsServedAt partitions.old place terminal.old }
    ensures granted { (log : Log) → ChangesAt (λ p q. OnOk result (IsGranted (Request.Begin command) log log p q
        (O.contents out.old) (O.contents out.new)) × IsServed q terminal.new) place partitions.old partitions.new }
    ensures failed { OnErr result (IsTrue (O.has_failed out.new)) }
{
    match terminal.begin(partitions, place, command) {
        Ok(()) => writeln!(out, "begun"),
        Err(refusal) => write_refused(out, refusal),
    }
}

/// Does a slice of what runs, and writes whether more are to come.
fn step<const N: usize, K: Loaded, O: Output>(
    partitions: &mut OwnPartitions<N, K>,
    place: usize,
    journal: &mut Journal<Commit, K>,
    out: &mut O,
) -> io::Result<()>
    requires there { place < length partitions.old }
    ensures granted { ChangesAt (λ p q. OnOk result (IsGranted Request.Step journal.old.list.log journal.new.list.log p q
        (O.contents out.old) (O.contents out.new)) × KeepsServed p q) place partitions.old partitions.new }
    ensures failed { OnErr result (IsTrue (O.has_failed out.new)) }
{
    match partitions.step(place, journal) {
        Ok(progress) => write_progress(out, progress),
        Err(refusal) => write_refused(out, refusal),
    }
}

/// Sets the limit on frames, and writes how many more there may be.
fn limit<const N: usize, K: Loaded, O: Output>(
    partitions: &mut OwnPartitions<N, K>,
    place: usize,
    terminal: &mut Terminal<K>,
    more: u64,
    out: &mut O,
) -> io::Result<()>
    requires there { place < length partitions.old }
    requires served { IsServedAt partitions.old place terminal.old }
    ensures granted { (log : Log) → ChangesAt (λ p q. OnOk result (IsGranted (Request.Limit more) log log p q
        (O.contents out.old) (O.contents out.new)) × IsServed q terminal.new) place partitions.old partitions.new }
    ensures failed { OnErr result (IsTrue (O.has_failed out.new)) }
{
    match terminal.limit(partitions, place, more) {
        Ok(()) => write_count(out, "free", more),
        Err(refusal) => write_refused(out, refusal),
    }
}

/// Writes what a step left of a job.
fn write_progress<O: Output>(out: &mut O, progress: Progress) -> io::Result<()>
    ensures written { OnOk result (Appends (O.contents out.old) (O.contents out.new) (progress_text progress)) }
    ensures failed { OnErr result (IsTrue (O.has_failed out.new)) }
{
    match progress {
        Progress::More => writeln!(out, "more"),
        Progress::Finished => writeln!(out, "finished"),
    }
}

/// Writes the reply that waits, or that there is none.
fn write_waiting<O: Output>(out: &mut O, reply: Option<Reply>) -> io::Result<()>
    ensures written { OnOk result (Appends (O.contents out.old) (O.contents out.new) (waiting_text reply)) }
    ensures failed { OnErr result (IsTrue (O.has_failed out.new)) }
{
    match reply {
        Some(reply) => write_reply(out, &reply),
        None => writeln!(out, "none"),
    }
}

/// Writes a word and a number.
fn write_count<O: Output>(out: &mut O, word: &str, number: u64) -> io::Result<()>
    ensures written { OnOk result
        (Appends (O.contents out.old) (O.contents out.new) (count_text word.now number)) }
    ensures failed { OnErr result (IsTrue (O.has_failed out.new)) }
{
    writeln!(out, "{word} {number}")
}

/// Writes a refusal.
pub fn write_refused<O: Output>(out: &mut O, refusal: Refusal) -> io::Result<()>
    ensures written { OnOk result (Appends (O.contents out.old) (O.contents out.new) (refused_text refusal)) }
    ensures failed { OnErr result (IsTrue (O.has_failed out.new)) }
{
    writeln!(out, "refused {refusal}")
}
