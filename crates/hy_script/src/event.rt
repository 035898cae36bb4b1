//! The events of a script, each with its answer.

ghost use Rattle.std.specs.Prelude.{◌≡◌, IfErr, IsTrue, OnErr, OnOk};
ghost use Rattle.hy_events.specs.declared.event.Event.TheVariants as events;
ghost use Rattle.hy_script.specs.declared.event.Unanswered.TheVariants as unanswered;
ghost use Rattle.std.specs.Io.KnownBytes.{Appends};
ghost use Rattle.hy_script.specs.Answers.{closed_text};
ghost use Rattle.hy_script.specs.Printed.{IsAnswered, IsLineAnswered, IsUnanswered};
ghost use Rattle.hy_script.specs.Ends.{IsLineFault};

use crate::answer::{Request, write_refused};
use crate::database::Database;
use hy_commands::Command;
use hy_events::{Event, EventFault, QueryText, SnapshotName, read_event, write_reply};
use hy_output::Output;
use hy_schema::Refusal;
use hy_session::hy_partition::Loaded;
use std::alloc::Global;
use std::io;

/// Why an event has no answer.
#[derive(Debug, Drop)]
pub enum Unanswered {
    /// It is a bad event: its line says none, or it names a snapshot that isn't open, or opens one of an open name.
    BadEvent,
    /// The output failed.
    Output(io::Error),
}

impl From<io::Error> for Unanswered {
    ghost from_gives = { λ error made. made ≡ unanswered.Output error };

    fn from(error: io::Error) -> Unanswered {
        Unanswered::Output(error)
    }
}

/// Does the event that a line says, and writes its answer; an empty line has none. A bad event changes nothing, and nothing is
/// written for it. `refused E1 NoMemory` is the answer where there is no memory to read the event.
pub fn answer_line<const N: usize, K: Loaded, O: Output>(
    alloc: Global,
    database: &mut Database<N, K>,
    line: &[u8],
    out: &mut O,
) -> Result<(), Unanswered>
    ensures answered { OnOk result
        (IsLineAnswered N line.now database.old database.new (O.contents out.old) (O.contents out.new)) }
    ensures fault { IfErr result
        (IsLineFault database.old line.now
        ((O.contents out.new ≡ O.contents out.old) × (database.new ≡ database.old)) (IsTrue (O.has_failed out.new))) }
{
    match read_event(alloc, line) {
        Ok(None) => Ok(()),
        Ok(Some(event)) => answer(database, event, out),
        Err(EventFault::BadEvent) => Err(Unanswered::BadEvent),
        Err(EventFault::NoMemory) => Ok(write_refused(out, Refusal::NoMemory)?),
    }
}

/// Does an event, and writes its answer.
fn answer<const N: usize, K: Loaded, O: Output>(
    database: &mut Database<N, K>,
    event: Event<'_>,
    out: &mut O,
) -> Result<(), Unanswered>
    ensures answered { OnOk result
        (IsAnswered N event.entry database.old database.new (O.contents out.old) (O.contents out.new)) }
    ensures unanswered { IfErr result
        (IsUnanswered database.old event.entry ((O.contents out.new ≡ O.contents out.old) × (database.new ≡ database.old))
        (IsTrue (O.has_failed out.new))) }
{
    match event {
        Event::Run(command) => run(database, command, out)?,
        Event::Begin(command) => {
            let home = command.home();
            database.ask(home, Request::Begin(command), out)?;
        }
        Event::Step(warehouse) => database.ask(warehouse, Request::Step, out)?,
        Event::Done(warehouse) => database.ask(warehouse, Request::Done, out)?,
        Event::Touched(warehouse) => database.ask(warehouse, Request::Touched, out)?,
        Event::Free(warehouse) => database.ask(warehouse, Request::Free, out)?,
        Event::Shared(warehouse) => database.ask(warehouse, Request::Shared, out)?,
        Event::Limit { warehouse, frames } => {
            database.ask(warehouse, Request::Limit(frames), out)?;
        }
        Event::Fork(name) => return fork(database, &name, out),
        Event::ForkFrom(name, from) => return fork_from(database, &name, &from, out),
        Event::Close(name) => return close(database, name, out),
        Event::Query(name, text) => return query(database, &name, &text, out),
        Event::Check(name) => return check(database, &name, out),
    }
    Ok(())
}

/// Runs a command as a whole, over several warehouses where it names several, else in its home, and writes its reply. A
/// home that isn't there comes before all else.
fn run<const N: usize, K: Loaded, O: Output>(
    database: &mut Database<N, K>,
    command: Command,
    out: &mut O,
) -> io::Result<()>
    ensures answered { OnOk result
        (IsAnswered N (events.Run command) database.old database.new (O.contents out.old) (O.contents out.new)) }
    ensures failed { OnErr result (IsTrue (O.has_failed out.new)) }
{
    let home = command.home();
    if !database.has_warehouse(home) {
        return write_refused(out, Refusal::NoSuchWarehouse);
    }
    if command.is_crossing() {
        let reply = database.cross(command);
        return write_reply(out, &reply);
    }
    database.ask(home, Request::Run(command), out)
}

/// Opens a snapshot of a name, and writes behind how many commits each warehouse is in it. Where that is refused, no
/// snapshot is left of it.
fn fork<const N: usize, K: Loaded, O: Output>(
    database: &mut Database<N, K>,
    name: &SnapshotName<'_>,
    out: &mut O,
) -> Result<(), Unanswered>
    ensures answered { OnOk result
        (IsAnswered N (events.Fork name.now) database.old database.new (O.contents out.old) (O.contents out.new)) }
    ensures unanswered { IfErr result
        (IsUnanswered database.old (events.Fork name.now) ((O.contents out.new ≡ O.contents out.old) × (database.new ≡ database.old))
        (IsTrue (O.has_failed out.new))) }
{
    if database.place_of_name(name).is_some() {
        return Err(Unanswered::BadEvent);
    }
    match database.fork(name) {
        Ok(()) => database.write_opened(name.as_bytes(), out)?,
        Err(refusal) => write_refused(out, refusal)?,
    }
    Ok(())
}

/// Opens a snapshot of a name, of what the one of another name sees, and writes the same.
fn fork_from<const N: usize, K: Loaded, O: Output>(
    database: &mut Database<N, K>,
    name: &SnapshotName<'_>,
    from: &SnapshotName<'_>,
    out: &mut O,
) -> Result<(), Unanswered>
    ensures answered { OnOk result (IsAnswered N (events.ForkFrom name.now from.now) database.old database.new
        (O.contents out.old) (O.contents out.new)) }
    ensures unanswered { IfErr result (IsUnanswered database.old (events.ForkFrom name.now from.now)
        ((O.contents out.new ≡ O.contents out.old) × (database.new ≡ database.old)) (IsTrue (O.has_failed out.new))) }
{
    let (None, Some(place)) = (database.place_of_name(name), database.place_of_name(from)) else {
        return Err(Unanswered::BadEvent);
    };
    if let Err(refusal) = database.fork_from(name, place) {
        write_refused(out, refusal)?;
        return Ok(());
    }
    database.write_opened(name.as_bytes(), out)?;
    Ok(())
}

/// Closes the snapshot of a name, and writes that it did.
fn close<const N: usize, K: Loaded, O: Output>(
    database: &mut Database<N, K>,
    name: SnapshotName<'_>,
    out: &mut O,
) -> Result<(), Unanswered>
    ensures answered { OnOk result
        (IsAnswered N (events.Close name.entry) database.old database.new (O.contents out.old) (O.contents out.new)) }
    ensures unanswered { IfErr result
        (IsUnanswered database.old (events.Close name.entry) ((O.contents out.new ≡ O.contents out.old) × (database.new ≡ database.old))
        (IsTrue (O.has_failed out.new))) }
{
    let Some(place) = database.place_of_name(&name) else {
        return Err(Unanswered::BadEvent);
    };
    database.close(place);
    write_closed(out, name.as_bytes())?;
    Ok(())
}

/// Asks a query of the snapshot of a name, and writes its answer.
fn query<const N: usize, K: Loaded, O: Output>(
    database: &mut Database<N, K>,
    name: &SnapshotName<'_>,
    text: &QueryText<'_>,
    out: &mut O,
) -> Result<(), Unanswered>
    ensures answered { OnOk result (IsAnswered N (events.Query name.now text.now) database.old database.new
        (O.contents out.old) (O.contents out.new)) }
    ensures unanswered { IfErr result (IsUnanswered database.old (events.Query name.now text.now)
        ((O.contents out.new ≡ O.contents out.old) × (database.new ≡ database.old)) (IsTrue (O.has_failed out.new))) }
{
    let Some(place) = database.place_of_name(name) else {
        return Err(Unanswered::BadEvent);
    };
    database.query(place, text, out)?;
    Ok(())
}

/// Tests the consistency conditions in the snapshot of a name, and writes what was found.
fn check<const N: usize, K: Loaded, O: Output>(
    database: &mut Database<N, K>,
    name: &SnapshotName<'_>,
    out: &mut O,
) -> Result<(), Unanswered>
    ensures answered { OnOk result (IsAnswered N (events.Check name.now) database.old database.new
        (O.contents out.old) (O.contents out.new)) }
    ensures unanswered { IfErr result (IsUnanswered database.old (events.Check name.now)
        ((O.contents out.new ≡ O.contents out.old) × (database.new ≡ database.old)) (IsTrue (O.has_failed out.new))) }
{
    let Some(place) = database.place_of_name(name) else {
        return Err(Unanswered::BadEvent);
    };
    database.check(place, out)?;
    Ok(())
}

/// Writes that a snapshot was closed.
fn write_closed<O: Output>(out: &mut O, name: &[u8]) -> io::Result<()>
    ensures written { OnOk result (Appends (O.contents out.old) (O.contents out.new) (closed_text name.now)) }
    ensures failed { OnErr result (IsTrue (O.has_failed out.new)) }
{
    out.write_all(b"closed ")?;
    out.write_all(name)?;
    out.write_all(b"\n")
}
