//! The database of a script: its partitions, and the snapshots that are open.

ghost use Rattle.std.specs.Prelude.{◌≡◌, ℕ, suc, ◌+◌, ◌<◌, ◌≤◌, ◌↔◌, ◌++◌, ◌∷◌, [], true, All, IfErr, IfOk, IsSomeAnd, IsTrue, List, MatchOption, None, OnErr, OnOk, is_some, length, map, remove, slice_get};
ghost use mathlib.Core.List.{IsPrefix};
ghost use Rattle.std.specs.List.{flat_map, range_with_len};
ghost use Rattle.std.specs.Io.KnownBytes.{Appends};
ghost use Rattle.hy_passes.specs.Worlds.{new_partition};
ghost use Rattle.hy_schema.specs.declared.refusal.Refusal.{Refusal};
ghost use Rattle.hy_frames.specs.FrameTable.{IsPageSize, max_frames as most_frames};
ghost use Rattle.hy_session.specs.of_partition.Limits.{most_kept};
ghost use Rattle.hy_session.specs.of_crossing.Lists.{Pairwise};
ghost use Rattle.hy_session.specs.of_crossing.Making.{IsWhyNoneMade};
ghost use Rattle.hy_batches.specs.Batches.{Batch as BatchState};
ghost use Rattle.hy_session.specs.of_forks.Drains.{TellsHere, are_new, drained_of};
ghost use Rattle.hy_session.specs.of_forks.Logged.{SaySame};
ghost use Rattle.hy_session.specs.of_forks.Forks.{IsUnforked, IsUnforkedUntold, IsWhyUnforked};
ghost use Rattle.hy_script.specs.Answers.{AnswersCheck, AnswersQuery, commits_text, kept_text, snapshot_text};
ghost use Rattle.hy_script.specs.Databases.{HasName, IsAtRest, IsNameAt, OpenSnapshot, part_at};
ghost use Rattle.hy_script.specs.Printed.{IsAsked, IsWritten};
ghost use Rattle.hy_script.specs.Scripts.{StartsFrom};
ghost use Rattle.hy_script.specs.Steps.{ClosesAt, Opens, OpensFrom, RunsAcross, is_crossing};

use crate::answer::{Request, grant, write_answer, write_refused};
use crate::named::{Named, copy_of, place_of_name};
use crate::terminal::{Terminal, terminals_of};
use hy_commands::{Command, Commit, Reply};
use hy_events::{QueryText, SnapshotName};
use hy_loads::Load;
use hy_output::Output;
use hy_passes::{Cursor, Journal, PartitionSeat, Pass};
use hy_schema::Refusal;
use hy_session::Session;
use hy_session::hy_forks::{Batch, OwnPartitions};
use hy_session::hy_partition::{Job, Loaded, Snapshot};
use std::alloc::Global;
use std::io;
use std::marker::Model;

/// The partitions of the warehouses in order, each with its terminal; the snapshots that are open, in the order of
/// their forks; the journal of the commits, and the pass of the client who takes the snapshots and runs the commands
/// over several warehouses, which is always here between calls. It is given up by `end`.
pub struct Database<const N: usize, K: Loaded> {
    partitions: OwnPartitions<N, K>,
    terminals: Vec<Terminal<K>>,
    snapshots: Vec<Named<N>>,
    journal: Journal<Commit, K>,
    pass: Option<Pass<Commit, K>>,
}

// Clauses see all but the terminals and the pass; `specs/Databases.antt` has the words.
impl<const N: usize, K: Loaded> Model for Database<N, K> {
    ghost use Rattle.hy_script.specs.Databases.{DatabaseState};
    ghost use Rattle.hy_script.specs.inside.Invariants.{IsDatabase};

    ghost Value = { DatabaseState };

    ghost view = { λ database. record {
      parts = database.partitions;
      snapshots = database.snapshots.items;
      log = database.journal.list.log;
    } };

    ghost invariant = { λ database. IsDatabase K.passes K.load database.partitions database.terminals.items
        database.snapshots.items database.pass };
}

impl<const N: usize, K: Loaded> Database<N, K> {
    /// The partitions of the load, and no snapshot: each with a seat, and with the pass of the client whose commands it
    /// runs. E2 only where `max_frames` is no more than the frames that the rows of one and their entries take at most;
    /// E1.
    pub fn new(
        alloc: Global,
        load: &Load,
        journal: Journal<Commit, K>,
        seats: Vec<PartitionSeat<Commit, K>>,
        passes: Vec<Pass<Commit, K>>,
        max_frames: u64,
        max_kept: u64,
    ) -> Result<Database<N, K>, Refusal>
        requires size { IsPageSize N }
        requires some_frames { 1 ≤ max_frames }
        requires frames { max_frames ≤ most_frames }
        requires some_kept { 1 ≤ max_kept }
        requires kept { max_kept ≤ most_kept }
        requires load { load.now ≡ K.load }
        requires log { journal.list.log ≡ [] }
        requires seats { seats.items ≡ map new_partition (range_with_len 1 (length load.now.tables.warehouses)) }
        requires passes { length passes.items ≡ length load.now.tables.warehouses + 1 }
        ensures starts { IfOk result (StartsFrom load.now max_frames max_kept) }
        ensures refused { IfErr result (IsWhyNoneMade N load.now max_frames) }
    {
        let partitions = OwnPartitions::of_load(alloc, load, seats, max_frames, max_kept)?;
        Database::over(alloc, partitions, journal, passes, max_frames)
    }

    /// These partitions, at rest and under one limit on frames, and no snapshot: each gets the pass of a client whose commands
    /// it runs, and there is one more. E1.
    pub fn over(
        alloc: Global,
        partitions: OwnPartitions<N, K>,
        journal: Journal<Commit, K>,
        mut passes: Vec<Pass<Commit, K>>,
        max_frames: u64,
    ) -> Result<Database<N, K>, Refusal>
        requires rest { All (IsAtRest max_frames) partitions }
        requires passes { length passes.items ≡ length partitions + 1 }
        ensures over { IfOk result (λ database. database
            ≡ record { parts = partitions; snapshots = []; log = journal.list.log }) }
        ensures refused { IfErr result (λ refusal. refusal ≡ Refusal.NoMemory) }
    {
        let terminals = terminals_of(alloc, &mut passes, partitions.len(), max_frames)?;
        Ok(Database {
            partitions,
            terminals,
            snapshots: Vec::new(alloc),
            journal,
            pass: Some(passes.take_last()),
        })
    }

    /// The commits of each warehouse behind the place of a cursor, as a batch of the second edition; the cursor then stands at
    /// the end of the serial list. Refused with E1, and then it stays where it was. Each partition is told of the whole list.
    pub fn drain(&mut self, alloc: Global, cursor: &mut Cursor<Commit, K>) -> Result<Batch, Refusal>
        ensures drained { IfOk result (λ batch. batch ≡ drained_of cursor.old self.new.parts) }
        ensures new { IfOk result (λ batch. are_new batch ≡ true) }
        ensures follows { IfOk result (λ batch. K.passes.partitions ≡ length K.load.tables.warehouses
            → (batches : List BatchState) → SaySame K.load batches cursor.old
            → SaySame K.load (batches ++ batch ∷ []) self.old.log) }
        ensures moved { OnOk result (cursor.new ≡ self.old.log) }
        ensures begins { IsPrefix cursor.old self.old.log }
        ensures refused { IfErr result (λ refusal. refusal ≡ Refusal.NoMemory) }
        ensures err { OnErr result (cursor.new ≡ cursor.old) }
        ensures told { Pairwise (TellsHere self.old.log) 1 self.old.parts self.new.parts }
        ensures snapshots { self.new.snapshots ≡ self.old.snapshots }
        ensures log { self.new.log ≡ self.old.log }
    {
        self.partitions.drain(alloc, &mut self.journal, cursor)
    }

    /// How many commits the serial list has.
    pub fn commits(&self) -> u64
        ensures { result ≡ length self.now.log }
    {
        self.journal.list.len()
    }

    /// Whether nothing was committed behind the place of a cursor, before which so many commits stand. Changes nothing.
    pub fn is_drained(&mut self, cursor: &mut Cursor<Commit, K>, passed: u64) -> bool
        requires { passed ≡ length cursor.old }
        ensures drained { IsTrue result ↔ self.old.log ≡ cursor.old }
        ensures same { self.new ≡ self.old }
        ensures cursor { cursor.new ≡ cursor.old }
    {
        cursor.find(&mut self.journal);
        self.journal.list.len() == passed
    }

    /// Writes how many commits each warehouse has kept.
    pub fn write_kept<O: Output>(&self, out: &mut O) -> io::Result<()>
        ensures written { OnOk result
            (Appends (O.contents out.old) (O.contents out.new) (flat_map kept_text self.now.parts)) }
        ensures failed { OnErr result (IsTrue (O.has_failed out.new)) }
    {
        write_kept(&self.partitions, out)
    }

    /// Asks something of the warehouse of a number, and writes the answer.
    pub fn ask<O: Output>(&mut self, number: u64, request: Request, out: &mut O) -> io::Result<()>
        ensures asked { OnOk result
            (IsAsked number request self.old self.new (O.contents out.old) (O.contents out.new)) }
        ensures failed { OnErr result (IsTrue (O.has_failed out.new)) }
    {
        match self.place_of(number) {
            Some(place) => grant(
                &mut self.partitions,
                place,
                &mut self.terminals[place],
                &mut self.journal,
                request,
                out,
            ),
            None => write_refused(out, Refusal::NoSuchWarehouse),
        }
    }

    /// The place of the warehouse of a number, if it is there.
    fn place_of(&self, number: u64) -> Option<usize>
        ensures { MatchOption result (part_at self.now number ≡ None)
            (λ place. (number ≡ suc place) × (place < length self.now.parts)) }
    {
        let place = number.checked_sub(1)? as usize;
        if place < self.partitions.len() {
            Some(place)
        } else {
            None
        }
    }

    /// Whether the warehouse of a number is there.
    pub fn has_warehouse(&self, number: u64) -> bool
        ensures { result ≡ is_some (part_at self.now number) }
    {
        self.place_of(number).is_some()
    }

    /// Runs a command over several warehouses as a whole. Its reply is the refusal where it is refused.
    pub fn cross(&mut self, command: Command) -> Reply
        requires { is_crossing command ≡ true }
        ensures { RunsAcross command self.old self.new result }
    {
        let Some(pass) = self.pass.take() else {
            unreachable!();
        };
        self.partitions.sound();
        let done = self
            .partitions
            .cross(&mut self.journal, Job::new(command, pass));
        let (reply, pass, _share) = done.open();
        self.pass = Some(pass);
        reply
    }

    /// The place of the snapshot of a name, if it is open.
    pub fn place_of_name(&self, name: &SnapshotName<'_>) -> Option<usize>
        ensures { MatchOption result (¬ HasName self.now.snapshots name.now) (IsNameAt self.now.snapshots name.now) }
    {
        place_of_name(&self.snapshots, name)
    }

    /// Opens a snapshot of this name: forks each partition. Where one is refused, no snapshot is left.
    pub fn fork(&mut self, name: &SnapshotName<'_>) -> Result<(), Refusal>
        ensures opens { OnOk result (Opens N name.now self.old self.new) }
        ensures refused { IfErr result (IsWhyUnforked self.old.parts) }
        ensures stays { OnErr result (Pairwise (λ number. IsUnforked self.old.log) 1 self.old.parts self.new.parts) }
        ensures snapshots { OnErr result (self.new.snapshots ≡ self.old.snapshots) }
        ensures log { self.new.log ≡ self.old.log }
    {
        let alloc = *self.snapshots.allocator();
        let copy = copy_of(alloc, name)?;
        self.snapshots.reserve(1)?;
        let Some(pass) = &mut self.pass else {
            unreachable!();
        };
        self.partitions.sound();
        let snapshot = self.partitions.fork_all(alloc, &mut self.journal, pass)?;
        self.partitions.sound();
        let session = Session::new(snapshot);
        self.snapshots.push_reserved(Named::new(copy, session));
        Ok(())
    }

    /// Opens a snapshot of this name, of what the one at a place sees, in each partition. Where that is refused, no snapshot
    /// is left of it.
    pub fn fork_from(&mut self, name: &SnapshotName<'_>, place: usize) -> Result<(), Refusal>
        requires { place < length self.old.snapshots }
        ensures opens { OnOk result (OpensFrom place name.now self.old self.new) }
        ensures refused { IfErr result (λ why. why ≡ Refusal.NoMemory) }
        ensures stays { OnErr result (Pairwise (λ number. IsUnforkedUntold) 1 self.old.parts self.new.parts) }
        ensures snapshots { OnErr result (self.new.snapshots ≡ self.old.snapshots) }
        ensures log { self.new.log ≡ self.old.log }
    {
        let alloc = *self.snapshots.allocator();
        let copy = copy_of(alloc, name)?;
        self.snapshots.reserve(1)?;
        self.partitions.sound();
        match self.snapshots[place]
            .session()
            .fork(alloc, &mut self.partitions)
        {
            Ok(session) => {
                self.partitions.sound();
                self.snapshots.push_reserved(Named::new(copy, session));
                Ok(())
            }
            Err(refusal) => Err(refusal),
        }
    }

    /// Closes the snapshot at a place.
    pub fn close(&mut self, place: usize)
        requires { place < length self.old.snapshots }
        ensures closes { ClosesAt place self.old self.new }
        ensures count { length self.new.snapshots + 1 ≡ length self.old.snapshots }
    {
        let session = self.snapshots.remove(place).into_session();
        self.partitions.sound();
        match session.close_all(&mut self.partitions) {
            Ok(()) => {}
            Err(_) => unreachable!(),
        }
    }

    /// Asks a query of the snapshot at a place, and writes the answer, or why there is none.
    pub fn query<O: Output>(
        &self,
        place: usize,
        text: &QueryText<'_>,
        out: &mut O,
    ) -> io::Result<()>
        requires { place < length self.now.snapshots }
        ensures written { OnOk result (IsSomeAnd (slice_get self.now.snapshots place)
            (λ snapshot. IsWritten (AnswersQuery N text.now snapshot.parts) (O.contents out.old) (O.contents out.new))) }
        ensures failed { OnErr result (IsTrue (O.has_failed out.new)) }
    {
        let alloc = *self.snapshots.allocator();
        write_answer(alloc, self.snapshots[place].session(), text, out)
    }

    /// Tests the consistency conditions in the snapshot at a place, and writes the first broken one, or that all hold.
    pub fn check<O: Output>(&self, place: usize, out: &mut O) -> io::Result<()>
        requires { place < length self.now.snapshots }
        ensures written { OnOk result (IsSomeAnd (slice_get self.now.snapshots place)
            (λ snapshot. IsWritten (AnswersCheck N snapshot.parts) (O.contents out.old) (O.contents out.new))) }
        ensures failed { OnErr result (IsTrue (O.has_failed out.new)) }
    {
        let alloc = *self.snapshots.allocator();
        match self.snapshots[place].session().check_conditions(alloc) {
            Ok(None) => out.write_all(b"conditions 1 2 3 4 5 6 7 8 9 10 12 hold\n"),
            Ok(Some(number)) => writeln!(out, "condition {number} broken"),
            Err(refusal) => write_refused(out, refusal),
        }
    }

    /// Writes that the snapshot that was opened last is open under this name, and behind how many commits each warehouse is
    /// in it.
    pub fn write_opened<O: Output>(&self, name: &[u8], out: &mut O) -> io::Result<()>
        requires { 1 ≤ length self.now.snapshots }
        ensures written { OnOk result ((others : List OpenSnapshot) (opened : OpenSnapshot)
            → self.now.snapshots ≡ others ++ opened ∷ []
            → Appends (O.contents out.old) (O.contents out.new) (snapshot_text name.now opened.parts)) }
        ensures failed { OnErr result (IsTrue (O.has_failed out.new)) }
    {
        let opened = &self.snapshots[self.snapshots.len() - 1];
        write_snapshot(name, opened.session().snapshot().parts(), out)
    }

    /// Closes what is open, and gives the database up.
    pub fn end(mut self) {
        for _ in 0..self.snapshots.len() {
            let last = self.snapshots.len() - 1;
            self.close(last);
        }
        let Database {
            partitions: _,
            terminals: _,
            snapshots,
            journal: _,
            pass: _,
        } = self;
        snapshots.destroy_empty();
    }
}

/// Writes that a snapshot is open under a name, and behind how many commits each warehouse is in it.
fn write_snapshot<const N: usize, O: Output>(
    name: &[u8],
    parts: &[Snapshot<N>],
    out: &mut O,
) -> io::Result<()>
    ensures written { OnOk result
        (Appends (O.contents out.old) (O.contents out.new) (snapshot_text name.now parts.now)) }
    ensures failed { OnErr result (IsTrue (O.has_failed out.new)) }
{
    out.write_all(b"snapshot ")?;
    out.write_all(name)?;
    out.write_all(b" commits")?;
    write_commits(parts, out)?;
    out.write_all(b"\n")
}

/// Writes behind how many commits the snapshot of each warehouse is.
fn write_commits<const N: usize, O: Output>(parts: &[Snapshot<N>], out: &mut O) -> io::Result<()>
    ensures written { OnOk result
        (Appends (O.contents out.old) (O.contents out.new) (flat_map commits_text parts.now)) }
    ensures failed { OnErr result (IsTrue (O.has_failed out.new)) }
{
    for part in parts {
        let commits = part.commits();
        write!(out, " {commits}")?;
    }
    Ok(())
}

/// Writes how many commits each partition has kept.
fn write_kept<const N: usize, K: Loaded, O: Output>(
    partitions: &OwnPartitions<N, K>,
    out: &mut O,
) -> io::Result<()>
    ensures written { OnOk result
        (Appends (O.contents out.old) (O.contents out.new) (flat_map kept_text partitions.now)) }
    ensures failed { OnErr result (IsTrue (O.has_failed out.new)) }
{
    for place in 0..partitions.len() {
        let count = partitions.part(place).kept().len();
        write!(out, " {count}")?;
    }
    Ok(())
}
