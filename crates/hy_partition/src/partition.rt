//! The partition of one warehouse.

ghost use Rattle.std.specs.Prelude.{◌≡◌, ◌≢◌, ℕ, ◌+◌, ◌^◌, ◌++◌, ◌∷◌, ◌<◌, ◌≤◌, ◌==◌, not, filter, true, false, vec_capacity, slice_index_or, ◌↔◌, ◌⊎◌, IsTrue, IsSome, IsSomeAnd, IfSome, List, [], length, take, Option, Some, None, Ok, Err, IfOk, IfErr, IsOk, IsOkAnd, OnOk, OnErr, MatchOption, MatchResult};
ghost use Rattle.std.specs.List.{list_all};
ghost use mathlib.Core.List.{IsPrefix};
ghost use Rattle.hy_worlds.specs.Origins.{desk_of, replayed_of};
ghost use Rattle.hy_rows.specs.Spelling.{Spells};
ghost use Rattle.hy_ledger.specs.Books.{with_book};
ghost use Rattle.hy_frames.specs.FrameTable.{free_of, shared_of, IsLimitFor, IsPageSize, max_frames as most_frames};
ghost use Rattle.hy_schema.specs.Loads.{IsLoad};
ghost use Rattle.hy_schema.specs.declared.refusal.Refusal.{Refusal};
ghost use Rattle.hy_commands.specs.declared.command.Commit.TheVariants as commits;
ghost use Rattle.hy_commands.specs.Commands.{customer_home_of, is_reader};
ghost use Rattle.hy_commands.specs.Transactions.{has_items};
ghost use Rattle.hy_tpcc.specs.Parts.{DoesPart as DoesStoredPart, FindsPayer, HasPart, reply_of_part};
ghost use Rattle.hy_commands.specs.Growth.{HasGrownBy};
ghost use Rattle.hy_tpcc.specs.Writes.{IsWritableStore, LeavesStore, WritesStore, stored_in};
ghost use Rattle.hy_undo.specs.UndoLog.{empty_log};
ghost use Rattle.hy_tpcc.specs.Waiting.{IsSoundStore};
ghost use Rattle.hy_space.specs.Space.{SameForChildren, owner_bytes};
ghost use Rattle.hy_partition.specs.Accounts.{IsBookOf};
ghost use Rattle.hy_partition.specs.Headline.{Headline};
ghost use Rattle.hy_partition.specs.Partition.{PartitionState, is_new, layout_of, may_be_kept, may_run, own_commits, projection_of, replays, rows_now};
ghost use Rattle.hy_partition.specs.Limits.{IsWhyUnmade, most_kept};
ghost use Rattle.hy_partition.specs.inside.Soundness.{IsLaid};
ghost use Rattle.hy_partition.specs.inside.Room.{IsUndone, LacksRoom, room_refusal};
ghost use Rattle.hy_partition.specs.Jobs.{Log, is_last, told};
ghost use Rattle.hy_undo.specs.Touched.{touched};
ghost use Rattle.hy_undo.specs.PrivatePages.{GivesUpPages, IsUndoLog};
ghost use Rattle.hy_partition.specs.Parts.{DoesPart, HasNoPart, IsWhyUndone, KeepsPart, reply_now, rows_with_part, share_of_part};
ghost use Rattle.hy_partition.specs.Unsettled.{part_of, with_part_done, with_part_kept, with_part_undone};
ghost use Rattle.hy_partition.specs.Steps.{begin_refusal, is_from, is_full, with_job, Accepts, Begins, Closes, Forks, IsUnbegun, KeepsJob, Refuses, ForksFrom, StaysUnforked, StepsTo};

use crate::answer::{accept, enter_part};
use crate::job::{Done, Job, Progress, Running};
use crate::part::Part;
use crate::snapshot::{SharedPages, Snapshot};
use crate::unsettled::UnsettledParts;
use crate::world::Loaded;
use hy_commands::{Command, Commit, Edition, Reply};
use hy_fill::filled_store;
use hy_layout::Layout;
use hy_ledger::{Balance, Book};
use hy_loads::Load;
use hy_passes::{Journal, KeptList, PartitionSeat, Pass, SerialList};
use hy_schema::Refusal;
use hy_space::Space;
use hy_tickets::Desk;
use hy_tpcc::{Executor, refusal_of_shortage};
use hy_undo::Undo;
use std::alloc::Global;
use std::marker::Model;

/// One warehouse: its rows on pages of `N` bytes, the commits that are kept, the job that runs, and the open snapshots.
#[derive(Drop)]
pub struct Partition<const N: usize, K: Loaded> {
    executor: Executor,
    kept: KeptList<Commit, K>,
    desk: Desk<K>,
    book: Book<K>,
    max_kept: u64,
    replayed: u64,
    running: Option<Running<K>>,
    part: Option<Part>,
    undo: Undo<N>,
    finished: Option<Done<K>>,
    space: Space<N>,
    snapshots: Vec<Option<u64>>,
}

// Clauses see the whole of it; `specs/Partition.antt` has the words.
impl<const N: usize, K: Loaded> Model for Partition<N, K> {
    ghost use Rattle.hy_partition.specs.Partition.{PartitionState};
    ghost use Rattle.hy_partition.specs.inside.Soundness.{IsSound, IsTied};

    ghost Value = { PartitionState };

    ghost use Rattle.hy_partition.specs.inside.Views.{partition_of};

    ghost view = { partition_of };

    ghost invariant = { λ p. IsSound N p.kept.room p.executor (partition_of p) × IsTied K.load K.passes p.kept p.desk (partition_of p) };
}

impl<const N: usize, K: Loaded> Partition<N, K> {
    /// The warehouse's rows of the load, with nothing kept and no snapshot; at most `max_kept` commits will be kept. A
    /// refusal gives the seat back: E2 only where `max_frames` is no more than the frames that the rows and their entries
    /// take at most; E1.
    pub fn new(
        alloc: Global,
        load: &Load,
        warehouse: u8,
        seat: PartitionSeat<Commit, K>,
        max_frames: u64,
        max_kept: u64,
    ) -> Result<Partition<N, K>, (PartitionSeat<Commit, K>, Refusal)>
        requires size { IsPageSize N }
        requires some_frames { 1 ≤ max_frames }
        requires frames { max_frames ≤ most_frames }
        requires some_kept { 1 ≤ max_kept }
        requires kept { max_kept ≤ most_kept }
        requires first { 1 ≤ warehouse }
        requires last { warehouse ≤ length load.now.tables.warehouses }
        requires load { load.now ≡ K.load }
        requires seat { seat ≡ record { warehouse = warehouse; seen = [] } }
        ensures begins { IfOk result (Begins load.now warehouse max_frames max_kept) }
        ensures refused { IfErr result (λ refused. IsWhyUnmade N load.now warehouse max_frames refused.1) }
        ensures back { IfErr result (λ refused. refused.0 ≡ seat) }
    {
        match rows_on_pages(alloc, load, warehouse, max_frames) {
            Ok((executor, space, undo)) => {
                let (list, desk, book) = seat.part();
                let replayed = list.replayed();
                Ok(Partition {
                    executor,
                    kept: KeptList::new(alloc, list),
                    desk,
                    book,
                    max_kept,
                    replayed,
                    running: None,
                    part: None,
                    undo,
                    finished: None,
                    space,
                    snapshots: Vec::new(alloc),
                })
            }
            Err(refusal) => Err((seat, refusal)),
        }
    }

    /// The theorem that holds of every partition whenever nobody holds it.
    pub fn headline(&self)
        ensures { Headline N self.now }
    {
        self.space.sound();
    }

    /// That the load is a load, and the one that the world names, and the warehouse one of the kit; that as many commits
    /// come from a log as the kit says, the others are of the second edition, all are such as may be kept, and no more are
    /// kept than may be; and that the book has what was taken in.
    pub fn ties(&self)
        ensures load { self.now.load ≡ K.load }
        ensures sound { IsLoad self.now.load }
        ensures range { (1 ≤ self.now.warehouse) × (self.now.warehouse ≤ K.passes.partitions) }
        ensures replayed { self.now.replayed ≡ replayed_of K.passes self.now.warehouse }
        ensures new { list_all is_new (own_commits self.now) ≡ true }
        ensures known { list_all (may_be_kept self.now.load self.now.warehouse) self.now.kept ≡ true }
        ensures few { length self.now.kept ≤ self.now.max_kept }
        ensures limit { self.now.max_kept ≤ most_kept }
        ensures book { IsBookOf self.now.load self.now.warehouse self.now.kept self.now.book }
    {
        let _number = self.kept.warehouse();
        let _replayed = self.replayed;
    }

    /// Begins a job, and makes room for its commit, if it will have one. A job of the first edition begins only while a log
    /// is replayed. A refusal gives the job back and changes nothing. It is the first of these that holds: E9 where a job
    /// runs, the part of a command over several warehouses is done, or an answer wasn't taken; E8, E4, E5, E6 of the
    /// command; E3 where the command doesn't only read and as many commits are kept as may be; E1.
    pub fn begin(&mut self, job: Job<K>) -> Result<(), (Job<K>, Refusal)>
        requires edition { may_run (replays self.old) job.edition ≡ true }
        ensures begun { OnOk result (self.new ≡ with_job self.old job) }
        ensures accepted { OnOk result (begin_refusal self.old job.command ≡ None) }
        ensures refused { IfErr result (λ refused. IsUnbegun self.old job.command refused.1) }
        ensures back { IfErr result (λ refused. refused.0 ≡ job) }
        ensures err { OnErr result (self.new ≡ self.old) }
    {
        if self.running.is_some() || self.part.is_some() || self.finished.is_some() {
            return Err((job, Refusal::Busy));
        }
        if let Err(refusal) = self.executor.begin(&self.space, job.command()) {
            return Err((job, refusal));
        }
        if let Err(refusal) = make_room(&mut self.kept, self.max_kept, job.command()) {
            return Err((job, refusal));
        }
        put(&mut self.running, job.begin());
        Ok(())
    }

    /// Does one slice of the job that runs. The last one accepts the command; a slice that is refused undoes what was
    /// done: E7 exactly where its item isn't there, else E2 where it writes and no frame is free, or E1. In both cases the
    /// answer waits to be taken. E10 where nothing runs. The journal is used at the last slice alone.
    pub fn step(&mut self, journal: &mut Journal<Commit, K>) -> Result<Progress, Refusal>
        ensures { MatchOption self.old.running
            ((result ≡ Err Refusal.NotRunning) × (self.new ≡ self.old) × (journal.new.list.log ≡ journal.old.list.log))
            (λ job. IsOkAnd result (StepsTo job (Some journal.old.list.log) (Some journal.new.list.log) self.old self.new)) }
    {
        if self.at_last() {
            Ok(self.step_last(journal))
        } else {
            self.step_early()
        }
    }

    /// The same without the journal, where the next slice isn't the job's last (`at_last`).
    pub fn step_early(&mut self) -> Result<Progress, Refusal>
        requires { IsSomeAnd self.old.running (λ job. is_last job ≡ true) → ⊥ }
        ensures { MatchOption self.old.running ((result ≡ Err Refusal.NotRunning) × (self.new ≡ self.old))
            (λ job. IsOkAnd result (λ progress. (log : Option Log) → StepsTo job log log self.old self.new progress)) }
    {
        let Some(running) = &mut self.running else {
            return Err(Refusal::NotRunning);
        };
        let done = running.slices();
        match self.executor.slice(
            &mut self.space,
            &mut self.undo,
            running.edition(),
            running.command(),
            done,
        ) {
            Ok(None) => {
                running.advance();
                Ok(Progress::More)
            }
            Ok(Some(_reply)) => unreachable!(),
            Err(refusal) => {
                self.space.sound();
                self.undo.roll_back(&mut self.space);
                let Some(running) = self.running.take() else {
                    unreachable!();
                };
                put(&mut self.finished, running.refuse(refusal));
                Ok(Progress::Finished)
            }
        }
    }

    /// The last slice.
    fn step_last(&mut self, journal: &mut Journal<Commit, K>) -> Progress
        requires { IsSomeAnd self.old.running (λ job. is_last job ≡ true) }
        ensures { IsSomeAnd self.old.running
            (λ job. StepsTo job (Some journal.old.list.log) (Some journal.new.list.log) self.old self.new result) }
    {
        let Some(running) = self.running.take() else {
            unreachable!();
        };
        let done = running.slices();
        match self.executor.slice(
            &mut self.space,
            &mut self.undo,
            running.edition(),
            running.command(),
            done,
        ) {
            Ok(None) => unreachable!(),
            Ok(Some(reply)) => {
                let done = accept(&mut self.kept, &mut self.book, journal, running, reply);
                self.undo.commit(&self.space);
                put(&mut self.finished, done);
                Progress::Finished
            }
            Err(refusal) => {
                self.space.sound();
                self.undo.roll_back(&mut self.space);
                put(&mut self.finished, running.refuse(refusal));
                Progress::Finished
            }
        }
    }

    /// Steps until nothing runs.
    pub fn finish_running(&mut self, journal: &mut Journal<Commit, K>)
        ensures { MatchOption self.old.running
            ((self.new ≡ self.old) × (journal.new.list.log ≡ journal.old.list.log))
            (λ job. Accepts job (Some journal.old.list.log) (Some journal.new.list.log) self.old self.new
            ⊎ Refuses job (Some journal.old.list.log) (Some journal.new.list.log) self.old self.new) }
    {
        while self.running.is_some() {
            let _progress = self.step(journal);
        }
    }

    /// The answer to the job that ended, once.
    pub fn take_done(&mut self) -> Option<Done<K>>
        ensures taken { result ≡ self.old.finished }
        ensures after { self.new ≡ record self.old { finished = None } }
    {
        self.finished.take()
    }

    /// A snapshot of the rows after all kept commits, which are all that the serial list has of the warehouse; list and
    /// client are told all of it. Where a job runs or a part is done, the snapshot has it undone, and takes a frame for
    /// each page that it has touched. E2 exactly where fewer frames are free than that; else E1.
    pub fn fork(
        &mut self,
        journal: &mut Journal<Commit, K>,
        pass: &mut Pass<Commit, K>,
    ) -> Result<Snapshot<N>, Refusal>
        ensures forks { IfOk result (Forks N K.passes journal.old.list.log pass.old.seen self.old self.new) }
        ensures told { OnOk result (pass.new ≡ told pass.old journal.old.list.log) }
        ensures log { journal.new.list.log ≡ journal.old.list.log }
        ensures no_frame { result ≡ Err Refusal.NoFrame
            ↔ (free_of self.old.space.frames < touched self.old.undo) }
        ensures refused { IfErr result
            (λ refusal. (refusal ≡ Refusal.NoFrame) ⊎ (refusal ≡ Refusal.NoMemory)) }
        ensures err { OnErr result (StaysUnforked self.old self.new) }
        ensures untold { OnErr result (pass.new ≡ pass.old) }
    {
        match self.fork_untold(journal) {
            Ok(snapshot) => {
                journal.tell_client(pass);
                Ok(snapshot)
            }
            Err(refusal) => Err(refusal),
        }
    }

    /// The same snapshot, of which no client is told so far: it is as for one who had seen nothing. Who forks several
    /// partitions tells the client once all of them are forked.
    pub fn fork_untold(&mut self, journal: &mut Journal<Commit, K>) -> Result<Snapshot<N>, Refusal>
        ensures forks { IfOk result (Forks N K.passes journal.old.list.log [] self.old self.new) }
        ensures log { journal.new.list.log ≡ journal.old.list.log }
        ensures no_frame { result ≡ Err Refusal.NoFrame
            ↔ (free_of self.old.space.frames < touched self.old.undo) }
        ensures refused { IfErr result
            (λ refusal. (refusal ≡ Refusal.NoFrame) ⊎ (refusal ≡ Refusal.NoMemory)) }
        ensures err { OnErr result (StaysUnforked self.old self.new) }
    {
        self.space.sound();
        if self.space.free() < self.undo.touched() {
            return Err(Refusal::NoFrame);
        }
        let layout = self.executor.layout();
        let Ok(load) = layout.load().share() else {
            return Err(Refusal::NoMemory);
        };
        if self.snapshots.reserve(1).is_err() {
            return Err(Refusal::NoMemory);
        }
        let Ok(child) = self.undo.fork(&mut self.space) else {
            return Err(Refusal::NoMemory);
        };
        let kept = self.kept.noted();
        let alloc = *self.snapshots.allocator();
        let Ok(shared) = SharedPages::of(alloc, &mut self.space, child, kept) else {
            self.space.close(child);
            return Err(Refusal::NoMemory);
        };
        self.kept.tell(journal);
        let commits = self.kept.list().len() as u64;
        open_snapshot(&mut self.snapshots, child, commits);
        let ticket = self.desk.give(child);
        Ok(Snapshot::new(load, ticket, commits, shared))
    }

    /// A snapshot of what another one of this partition sees, with a ticket of its own: it lives on when that one is closed.
    /// No frame is taken, and nobody is told of the serial list. E11 exactly where the snapshot is another warehouse's or
    /// one of a kit with another name; else E1.
    pub fn fork_from(&mut self, snapshot: &Snapshot<N>) -> Result<Snapshot<N>, Refusal>
        ensures forks { IfOk result (ForksFrom K.passes snapshot.now self.old self.new) }
        ensures mine { result ≡ Err Refusal.NotMine ↔ (is_from snapshot.now self.old.warehouse K.passes ≡ false) }
        ensures refused { IfErr result
            (λ refusal. (refusal ≡ Refusal.NotMine) ⊎ (refusal ≡ Refusal.NoMemory)) }
        ensures err { OnErr result (StaysUnforked self.old self.new) }
    {
        if !self.is_mine(snapshot) {
            return Err(Refusal::NotMine);
        }
        // It is open, as only its ticket knows, so that its number is one of an open snapshot.
        let Some(count) = commits_at(&self.snapshots, snapshot.ticket().number()) else {
            return Err(Refusal::NoMemory);
        };
        let Ok((load, shared)) = snapshot.share() else {
            return Err(Refusal::NoMemory);
        };
        if self.snapshots.reserve(1).is_err() {
            return Err(Refusal::NoMemory);
        }
        let Ok(child) = self.space.fork_child(snapshot.ticket().number()) else {
            return Err(Refusal::NoMemory);
        };
        open_snapshot(&mut self.snapshots, child, count);
        let own = self.desk.give(child);
        Ok(Snapshot::new(load, own, snapshot.commits(), shared))
    }

    /// Closes a snapshot of this partition: the frames that only it had are free again. E11 where the snapshot is
    /// another warehouse's or one of a kit with another name; it comes back. A snapshot with the warehouse and the kit's
    /// name has to be one of that kit. Takes no memory.
    pub fn close(&mut self, snapshot: Snapshot<N>) -> Result<(), (Snapshot<N>, Refusal)>
        requires { is_from snapshot self.old.warehouse K.passes ≡ true → snapshot.desk ≡ desk_of K.passes self.old.warehouse }
        ensures mine { IsOk result ↔ IsTrue (is_from snapshot.entry self.old.warehouse K.passes) }
        ensures closes { OnOk result (Closes self.old self.new snapshot.entry.child) }
        ensures refused { IfErr result
            (λ refused. (refused.0 ≡ snapshot.entry) × (refused.1 ≡ Refusal.NotMine)) }
        ensures err { OnErr result (self.new ≡ self.old) }
    {
        if !self.desk.is_from_here(snapshot.ticket()) {
            return Err((snapshot, Refusal::NotMine));
        }
        let child = self.desk.take_back(snapshot.spend());
        self.space.close(child);
        self.snapshots[child as usize] = None;
        Ok(())
    }

    /// Whether a snapshot says that it is one of this partition: by its warehouse and the name of its kit.
    pub fn is_mine(&self, snapshot: &Snapshot<N>) -> bool
        ensures { result ≡ is_from snapshot.now self.now.warehouse K.passes }
    {
        self.desk.is_from_here(snapshot.ticket())
    }

    /// Whether as many commits are kept as may be.
    pub fn is_full(&self) -> bool
        ensures { result ≡ is_full self.now }
    {
        self.kept().len() as u64 == self.max_kept
    }

    /// Whether the items that a command names are there. Takes no memory.
    pub fn has_items(&self, command: &Command) -> bool
        ensures { result ≡ has_items self.now.load.items command.now }
    {
        self.executor.has_items(command)
    }

    /// The number of the customer whom a command names, who is one of this warehouse; none where there is no such
    /// customer. Takes no memory.
    pub fn find_customer(&self, command: &Command) -> Option<u64>
        requires idle { (self.now.running ≡ None) × (self.now.part ≡ None) }
        requires here { customer_home_of command.now ≡ self.now.warehouse }
        ensures { FindsPayer command.now (rows_now self.now) result }
    {
        self.executor.find_customer(&self.space, command)
    }

    /// Tells the partition of the whole serial list, of which it has kept all that names it. Takes no memory.
    pub fn tell(&mut self, journal: &mut Journal<Commit, K>)
        ensures told { self.new ≡ record self.old { seen = journal.old.list.log } }
        ensures begins { IsPrefix self.old.seen journal.old.list.log }
        ensures all { self.old.kept ≡ projection_of self.old.warehouse journal.old.list.log }
        ensures log { journal.new.list.log ≡ journal.old.list.log }
    {
        self.kept.tell(journal);
    }

    /// Does the part of a command over several warehouses, which the database doesn't refuse, by an edition, the first one
    /// only while a log is replayed, and makes room for its commit. It is counted among those that are to be kept or undone,
    /// and the warehouse whose customer the command names notes the reply there. A refusal undoes what was done: E2 where no
    /// frame is free, or E1.
    pub fn do_part(
        &mut self,
        unsettled: &mut UnsettledParts<K>,
        edition: Edition,
        command: Command,
    ) -> Result<(), Refusal>
        requires idle { (self.old.running ≡ None) × (self.old.part ≡ None) }
        requires has_part { HasPart (layout_of self.old) command }
        requires few { length self.old.kept < self.old.max_kept }
        requires edition { may_run (replays self.old) edition ≡ true }
        requires same { part_of unsettled.old ≡ record { edition = edition; command = command } }
        requires countable { unsettled.old.count + 1 < 2 ^ 64 }
        ensures done { OnOk result (DoesPart edition command self.old self.new (reply_now self.old edition command)) }
        ensures counted { OnOk result
            (unsettled.new ≡ with_part_done unsettled.old (reply_now self.old edition command)) }
        ensures pages { OnOk result (Spells N (owner_bytes self.new.space) (rows_with_part self.old edition command)) }
        ensures undone { OnErr result (HasNoPart self.old self.new) }
        ensures uncounted { OnErr result (unsettled.new ≡ unsettled.old) }
        ensures refused { IfErr result (IsWhyUndone self.old.space self.new.space) }
    {
        put(&mut self.part, Part::new(edition, command));
        let Some(part) = &self.part else {
            unreachable!();
        };
        match run_part(
            &mut self.kept,
            &self.executor,
            &mut self.space,
            &mut self.undo,
            part,
        ) {
            Ok(reply) => {
                unsettled.note_done(reply);
                Ok(())
            }
            Err(refusal) => {
                clear(&mut self.part);
                Err(refusal)
            }
        }
    }

    /// Undoes the part that is done, which is one of those that are counted. Takes no memory and no frame.
    pub fn undo_part(&mut self, unsettled: &mut UnsettledParts<K>)
        requires idle { self.old.running ≡ None }
        requires part { self.old.part ≡ Some (part_of unsettled.old) }
        requires counted { 1 ≤ unsettled.old.count }
        ensures undone { HasNoPart self.old self.new }
        ensures gives_up { GivesUpPages self.old.space self.new.space }
        ensures settled { unsettled.new ≡ with_part_undone unsettled.old }
    {
        clear(&mut self.part);
        self.undo.roll_back(&mut self.space);
        unsettled.note_undone();
    }

    /// Keeps the part that is done, which is one of those that are counted and whose command has just entered the serial list
    /// under its number among those of several warehouses. Its home gives the share. Takes no memory.
    pub fn keep_part(
        &mut self,
        unsettled: &mut UnsettledParts<K>,
        list: &mut SerialList<Commit, K>,
        number: u64,
    )
        requires part { self.old.part ≡ Some (part_of unsettled.old) }
        requires counted { 1 ≤ unsettled.old.count }
        requires entered { projection_of self.old.warehouse list.old.log ≡ self.old.kept
            ++ commits.Cross unsettled.old.edition number unsettled.old.command ∷ [] }
        ensures kept { KeepsPart unsettled.old.edition unsettled.old.command number list.old.log self.old self.new
            (share_of_part self.old.warehouse unsettled.old.command) }
        ensures settled { unsettled.new
            ≡ with_part_kept unsettled.old (share_of_part self.old.warehouse unsettled.old.command) }
        ensures log { list.new.log ≡ list.old.log }
        ensures behind { list.new.behind ≡ filter (λ w. not (w == self.old.warehouse)) list.old.behind }
    {
        let Some(part) = self.part.take() else {
            unreachable!();
        };
        let (edition, command) = part.open();
        let share = enter_part(&mut self.book, self.executor.layout().warehouse(), &command);
        self.kept
            .enter(list, Commit::Cross(edition, number, command));
        self.undo.commit(&self.space);
        unsettled.note_kept(share);
    }

    /// Whether the next slice is the job's last. False where nothing runs.
    pub fn at_last(&self) -> bool
        ensures { IsTrue result ↔ IsSomeAnd self.now.running (λ job. IsTrue (is_last job)) }
    {
        match &self.running {
            Some(running) => running.is_last(),
            None => false,
        }
    }

    /// The load that the warehouse began from.
    pub fn load(&self) -> &Load
        ensures { result.now ≡ self.now.load }
    {
        self.executor.layout().load()
    }

    /// The number of the warehouse.
    pub fn warehouse(&self) -> u8
        ensures { result ≡ self.now.warehouse }
    {
        self.executor.layout().warehouse()
    }

    /// Whether the part of a command over several warehouses is done, and neither kept nor undone so far.
    pub fn has_part(&self) -> bool
        ensures { IsTrue result ↔ IsSome self.now.part }
    {
        matches!(self.part, Some(_))
    }

    /// The commits that are kept, in order.
    pub fn kept(&self) -> &[Commit]
        ensures { result.now ≡ self.now.kept }
    {
        self.kept.list()
    }

    /// The accounts: the commits of this warehouse, and the cents that it took in since the load.
    pub fn book(&self) -> &Book<K>
        ensures { result.now ≡ self.now.book }
    {
        &self.book
    }

    /// Lays the accounts beside purses.
    pub fn audit(&mut self, balance: &mut Balance<K>)
        requires next { self.old.warehouse ≡ balance.old.audited + 1 }
        ensures partition { self.new ≡ self.old }
        ensures balance { balance.new ≡ record {
          shares = balance.old.shares;
          audited = balance.old.audited + 1;
          books = with_book balance.old.books self.old.book;
        } }
    {
        balance.audit(&mut self.book);
    }

    /// How many pages that were there at its begin the job that runs has written, or the part that is done. No snapshot
    /// shares one of them.
    pub fn touched(&self) -> u64
        ensures touched { result ≡ touched self.now.undo }
        ensures undo_log { IsUndoLog N self.now.space self.now.undo }
    {
        self.undo.touched()
    }

    /// How many frames are free.
    pub fn free(&self) -> u64
        ensures { result ≡ free_of self.now.space.frames }
    {
        self.space.free()
    }

    /// How many frames more than one page table maps.
    pub fn shared(&self) -> u64
        ensures { result ≡ shared_of self.now.space.frames }
    {
        self.space.shared()
    }

    /// Sets how many frames may be in use. E8 exactly where `max` isn't 1 to 10,000,000 or is less than the frames in
    /// use.
    pub fn set_max(&mut self, max: u64) -> Result<(), Refusal>
        ensures range { IsOk result ↔ IsLimitFor self.old.space.frames max }
        ensures max { OnOk result (self.new.space.frames.max ≡ max) }
        ensures job { OnOk result (KeepsJob self.old self.new) }
        ensures seen { self.new.seen ≡ self.old.seen }
        ensures snapshots { self.new.snapshots ≡ self.old.snapshots }
        ensures children { SameForChildren self.old.space self.new.space }
        ensures refused { IfErr result (λ refusal. refusal ≡ Refusal.OutOfRange) }
        ensures err { OnErr result (self.new ≡ self.old) }
    {
        match self.space.set_max(max) {
            Ok(()) => Ok(()),
            Err(_) => Err(Refusal::OutOfRange),
        }
    }
}

/// The warehouse's rows of the load on pages, with an executor that runs commands on them and an empty undo log.
fn rows_on_pages<const N: usize>(
    alloc: Global,
    load: &Load,
    warehouse: u8,
    max_frames: u64,
) -> Result<(Executor, Space<N>, Undo<N>), Refusal>
    requires size { IsPageSize N }
    requires some_frames { 1 ≤ max_frames }
    requires frames { max_frames ≤ most_frames }
    requires first { 1 ≤ warehouse }
    requires last { warehouse ≤ length load.now.tables.warehouses }
    ensures laid { IfOk result (λ laid. IsLaid N load.now warehouse max_frames laid.0 laid.1 laid.2) }
    ensures refused { IfErr result (IsWhyUnmade N load.now warehouse max_frames) }
{
    load.sound();
    let layout = Layout::new(alloc, load, warehouse)?;
    match filled_store(alloc, &layout, max_frames) {
        Ok(space) => {
            let undo = Undo::new(alloc, &space)?;
            Ok((Executor::new(alloc, layout), space, undo))
        }
        Err(shortage) => Err(refusal_of_shortage(shortage)),
    }
}

/// Makes room for the commit of a command that doesn't only read. E3 where the list is full; E1.
fn make_room<K: Loaded>(
    kept: &mut KeptList<Commit, K>,
    max_kept: u64,
    command: &Command,
) -> Result<(), Refusal>
    ensures kept { kept.new ≡ record kept.old { room = kept.new.room } }
    ensures room { OnOk result (is_reader command.now ≡ false
        → (length (projection_of kept.old.warehouse kept.old.seen) ≢ max_kept) × (1 ≤ kept.new.room)) }
    ensures accepted { OnOk result
        (room_refusal command.now (length (projection_of kept.old.warehouse kept.old.seen)) max_kept ≡ None) }
    ensures refused { IfErr result
        (λ refusal. LacksRoom command.now (length (projection_of kept.old.warehouse kept.old.seen)) max_kept refusal) }
{
    if command.is_reader() {
        return Ok(());
    }
    if kept.list().len() as u64 == max_kept {
        return Err(Refusal::HistoryFull);
    }
    kept.reserve()?;
    Ok(())
}

/// Makes room for the commit of a command over several warehouses, and does its part. Where that is refused, what was
/// done is undone.
fn run_part<const N: usize, K: Loaded>(
    kept: &mut KeptList<Commit, K>,
    executor: &Executor,
    space: &mut Space<N>,
    undo: &mut Undo<N>,
    part: &Part,
) -> Result<Option<Reply>, Refusal>
    requires writable { IsWritableStore N space.old undo.old }
    requires none { undo.old ≡ empty_log space.old }
    requires sound { IsSoundStore executor.now.layout (stored_in N space.old) }
    requires part { HasPart executor.now.layout part.now.command }
    requires small { HasGrownBy 100_000_000 (stored_in N space.old).tables }
    ensures kept { kept.new ≡ record kept.old { room = kept.new.room } }
    ensures room { OnOk result (1 ≤ kept.new.room) }
    ensures done { OnOk result (LeavesStore N space.old space.new
        (DoesStoredPart executor.now.layout part.now.edition part.now.command)) }
    ensures reply { IfOk result (λ reply. reply
        ≡ reply_of_part executor.now.layout part.now.edition part.now.command (stored_in N space.old).tables) }
    ensures writes { OnOk result (WritesStore N space.old space.new undo.old undo.new) }
    ensures undone { OnErr result (IsUndone N space.old space.new undo.new) }
    ensures refused { IfErr result (IsWhyUndone space.old space.new) }
{
    kept.reserve()?;
    match executor.run_part(space, undo, part.edition(), part.command()) {
        Ok(reply) => Ok(reply),
        Err(refusal) => {
            space.sound();
            undo.roll_back(space);
            Err(refusal)
        }
    }
}

/// Puts a value at a place.
fn put<T: Drop>(place: &mut Option<T>, value: T)
    ensures { place.new ≡ Some value }
{
    *place = Some(value);
}

/// Takes away what stands at a place.
fn clear<T: Drop>(place: &mut Option<T>)
    ensures { place.new ≡ None }
{
    *place = None;
}

/// Notes a snapshot's number of commits.
fn open_snapshot(snapshots: &mut Vec<Option<u64>>, child: u64, commits: u64)
    requires within { child ≤ length snapshots.old.items }
    requires room { length snapshots.old.items < vec_capacity snapshots.old }
    ensures opened { slice_index_or snapshots.new.items child None ≡ Some commits }
    ensures others { (other : ℕ) → other ≢ child
        → slice_index_or snapshots.new.items other None ≡ slice_index_or snapshots.old.items other None }
{
    let place = child as usize;
    if place == snapshots.len() {
        snapshots.push_reserved(Some(commits));
    } else {
        snapshots[place] = Some(commits);
    }
}

/// The number of commits of an open snapshot; none where no snapshot has this number.
fn commits_at(snapshots: &Vec<Option<u64>>, child: u64) -> Option<u64>
    ensures { result ≡ slice_index_or snapshots.now.items child None }
{
    match snapshots.get(child as usize) {
        Some(commits) => *commits,
        None => None,
    }
}
