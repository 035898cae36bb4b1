//! Events, as a script says them.

ghost use Rattle.std.specs.Prelude.{◌≡◌, ◌≤◌, IfOk, IsSomeAnd, IsTrue, OnErr, bytes_eq, codes, length, take, true};
ghost use Rattle.hy_events.specs.Events.{IsRead, TakesMemory, begun_of, event_named, event_of, fork_of, limit_of, query_of, snapshot_of, takes_memory, warehouse_of};

use crate::command::{is, read_command};
use crate::parts::{Parts, first_end};
use hy_commands::Command;
use std::alloc::{AllocError, Global};
use std::marker::Model;

/// The name of a snapshot, as it stands in a script: at least one byte, and no space.
#[derive(Debug, Drop)]
pub struct SnapshotName<'a> {
    bytes: &'a [u8],
}

impl<'a> Model for SnapshotName<'a> {
    ghost use Rattle.std.specs.Prelude.{ℕ, List};

    ghost Value = { List ℕ };

    ghost view = { λ name. name.bytes.now };
}

impl<'a> SnapshotName<'a> {
    /// Its bytes.
    pub fn as_bytes(&self) -> &'a [u8]
        ensures { result.now ≡ self.now }
    {
        self.bytes
    }
}

/// The text of a query, as it stands in a script: any bytes.
#[derive(Debug, Drop)]
pub struct QueryText<'a> {
    bytes: &'a [u8],
}

impl<'a> Model for QueryText<'a> {
    ghost use Rattle.std.specs.Prelude.{ℕ, List};

    ghost Value = { List ℕ };

    ghost view = { λ text. text.bytes.now };
}

impl<'a> QueryText<'a> {
    /// Its bytes.
    pub fn as_bytes(&self) -> &'a [u8]
        ensures { result.now ≡ self.now }
    {
        self.bytes
    }
}

/// What a line of a script asks for. The numbers of warehouses are those that were read: nothing is known of them.
#[derive(Debug, Drop)]
pub enum Event<'a> {
    /// Run a command as a whole.
    Run(Command),
    /// Begin a command.
    Begin(Command),
    /// Run the next slice of what this warehouse has begun.
    Step(u64),
    /// Take the answer of this warehouse.
    Done(u64),
    /// Open a snapshot of this name.
    Fork(SnapshotName<'a>),
    /// Open a snapshot of this name, of what the one of the second name sees.
    ForkFrom(SnapshotName<'a>, SnapshotName<'a>),
    /// Close the snapshot of this name.
    Close(SnapshotName<'a>),
    /// Ask a query of the snapshot of this name.
    Query(SnapshotName<'a>, QueryText<'a>),
    /// Test the consistency conditions in the snapshot of this name.
    Check(SnapshotName<'a>),
    /// How many pages what runs at this warehouse has written.
    Touched(u64),
    /// How many frames of this warehouse are free.
    Free(u64),
    /// How many frames of this warehouse more than one page table maps.
    Shared(u64),
    /// Let a warehouse have so many frames more than it uses.
    Limit {
        /// The warehouse.
        warehouse: u64,
        /// How many frames.
        frames: u64,
    },
}

/// Why a line of a script that isn't empty gives no event.
#[derive(Clone, Copy, Debug, PartialEq, Eq)]
pub enum EventFault {
    /// It says none.
    BadEvent,
    /// A growth in memory was refused.
    NoMemory,
}

impl From<AllocError> for EventFault {
    ghost use Rattle.hy_events.specs.declared.event.EventFault.TheVariants.{NoMemory};

    ghost from_gives = { λ _ fault. fault ≡ NoMemory };

    fn from(_refused: AllocError) -> EventFault {
        EventFault::NoMemory
    }
}

/// The event that a line of a script says, without the line's end. An empty line says none. `BadEvent` where it isn't
/// empty and is no event, also where memory is refused; `NoMemory` where it is an event, and the lines of its purchase or
/// its last name find no memory.
pub fn read_event<'a>(alloc: Global, line: &'a [u8]) -> Result<Option<Event<'a>>, EventFault>
    ensures { IsRead line.now result }
{
    if line.is_empty() {
        return Ok(None);
    }
    match event_of(alloc, line)? {
        Some(event) => Ok(Some(event)),
        None => Err(EventFault::BadEvent),
    }
}

/// The event that a line says, if it says one.
fn event_of<'a>(alloc: Global, line: &'a [u8]) -> Result<Option<Event<'a>>, AllocError>
    ensures read { IfOk result (λ found. found ≡ event_of line.now) }
    ensures refused { OnErr result (IsSomeAnd (event_of line.now) TakesMemory) }
{
    if begins_query(line) {
        return Ok(read_query(&line[QUERY.len()..]));
    }
    let mut words = Parts::new(b' ', line);
    match words.take_part() {
        Some(name) => event_named(alloc, name, &mut words),
        None => Ok(None),
    }
}

/// The event of a name with these words behind it, if they are one.
fn event_named<'a>(
    alloc: Global,
    name: &'a [u8],
    given: &mut Parts<'a>,
) -> Result<Option<Event<'a>>, AllocError>
    ensures read { IfOk result (λ found. found ≡ event_named name.now given.old) }
    ensures refused { OnErr result (IsSomeAnd (event_named name.now given.old) TakesMemory) }
{
    if is(name, "begin") {
        return Ok(read_begun(alloc, given)?.map(|command| Event::Begin(command)));
    }
    if is(name, "step") {
        return Ok(read_warehouse(given).map(|warehouse| Event::Step(warehouse)));
    }
    if is(name, "done") {
        return Ok(read_warehouse(given).map(|warehouse| Event::Done(warehouse)));
    }
    if is(name, "fork") {
        return Ok(read_fork(given));
    }
    if is(name, "close") {
        return Ok(read_name(given).map(|name| Event::Close(name)));
    }
    if is(name, "check") {
        return Ok(read_name(given).map(|name| Event::Check(name)));
    }
    if is(name, "touched") {
        return Ok(read_warehouse(given).map(|warehouse| Event::Touched(warehouse)));
    }
    if is(name, "free") {
        return Ok(read_warehouse(given).map(|warehouse| Event::Free(warehouse)));
    }
    if is(name, "shared") {
        return Ok(read_warehouse(given).map(|warehouse| Event::Shared(warehouse)));
    }
    if is(name, "limit") {
        return Ok(read_limit(given));
    }
    Ok(read_command(alloc, name, given)?.map(|command| Event::Run(command)))
}

/// A command of its own words.
fn read_begun(alloc: Global, given: &mut Parts<'_>) -> Result<Option<Command>, AllocError>
    ensures read { IfOk result (λ found. found ≡ begun_of given.old) }
    ensures refused { OnErr result
        (IsSomeAnd (begun_of given.old) (λ command. takes_memory command ≡ true)) }
{
    match given.take_part() {
        Some(name) => read_command(alloc, name, given),
        None => Ok(None),
    }
}

/// The number of a warehouse, and nothing else.
fn read_warehouse(given: &mut Parts<'_>) -> Option<u64>
    ensures { result ≡ warehouse_of given.old }
{
    let warehouse = given.take_number()?;
    if given.has_more() {
        return None;
    }
    Some(warehouse)
}

/// The name of a snapshot that is opened, and nothing else or `from` and the name of another one.
fn read_fork<'a>(given: &mut Parts<'a>) -> Option<Event<'a>>
    ensures { result ≡ fork_of given.old }
{
    let bytes = given.take_part()?;
    if bytes.is_empty() {
        return None;
    }
    let name = SnapshotName { bytes };
    let Some(word) = given.take_part() else {
        return Some(Event::Fork(name));
    };
    if !is(word, "from") {
        return None;
    }
    let other = read_name(given)?;
    Some(Event::ForkFrom(name, other))
}

/// The name of a snapshot, and nothing else.
fn read_name<'a>(given: &mut Parts<'a>) -> Option<SnapshotName<'a>>
    ensures { result ≡ snapshot_of given.old }
{
    let bytes = given.take_part()?;
    if bytes.is_empty() || given.has_more() {
        return None;
    }
    Some(SnapshotName { bytes })
}

/// How a line begins that asks a query.
const QUERY: &str = "query ";

/// Whether a line begins so.
fn begins_query(line: &[u8]) -> bool
    ensures begins { result ≡ bytes_eq (take 6 line.now) (codes "query ") }
    ensures long { IsTrue result → 6 ≤ length line.now }
{
    line.len() >= QUERY.len() && is(&line[..QUERY.len()], QUERY)
}

/// The name of a snapshot, and a query behind a space: all that is left.
fn read_query<'a>(given: &'a [u8]) -> Option<Event<'a>>
    ensures { result ≡ query_of given.now }
{
    let end = first_end(given, b' ');
    if end == 0 || end >= given.len() {
        return None;
    }
    let name = SnapshotName {
        bytes: &given[..end],
    };
    let text = QueryText {
        bytes: &given[end + 1..],
    };
    Some(Event::Query(name, text))
}

/// A limit on frames: `W F`.
fn read_limit<'a>(given: &mut Parts<'a>) -> Option<Event<'a>>
    ensures { result ≡ limit_of given.old }
{
    let warehouse = given.take_number()?;
    let frames = given.take_number()?;
    if given.has_more() {
        return None;
    }
    Some(Event::Limit { warehouse, frames })
}
