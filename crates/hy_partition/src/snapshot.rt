//! Snapshots: the committed rows of a warehouse at one moment.

ghost use Rattle.std.specs.Prelude.{◌≡◌, ◌<◌, length, Some, IfOk, IsSome};
ghost use Rattle.std.specs.Arc.{arc_value};
ghost use Rattle.hy_rows.specs.Spelling.{Spells, list_at};
ghost use Rattle.hy_rows.specs.Catalogue.{segments};
ghost use Rattle.hy_space.specs.Space.{IsUnchanged, KeepsOwn, child_bytes, child_table};
ghost use Rattle.hy_commands.specs.Replay.{rows_after};
ghost use Rattle.hy_partition.specs.Snapshots.{IsTakenBehind, IsWhole, lists_in, pages_of, snapshot_of, ticket_of};

use hy_commands::Commit;
use hy_frames::Hold;
use hy_loads::Load;
use hy_relation::Relation;
use hy_rows::{Item, Listed, Row, RowSource, Source};
use hy_space::Space;
use hy_tickets::Ticket;
use std::alloc::{AllocError, Global};
use std::marker::Model;
use std::snapshot::Snapshot as Noted;
use std::sync::Arc;

/// The pages of a snapshot, each with a hold, and the commits that they are behind. Snapshots that are forked from it
/// share them.
#[derive(Drop)]
pub(crate) struct SharedPages<const N: usize> {
    kept: Noted<Vec<Commit>>,
    pages: Vec<Vec<Hold<N>>>,
}

// Clauses see the commits, and the bytes of the pages by segment.
impl<const N: usize> Model for SharedPages<N> {
    ghost use Rattle.std.specs.Prelude.{map};
    ghost use Rattle.hy_partition.specs.Snapshots.{PagesState};

    ghost Value = { PagesState };

    ghost view = { λ shared. record {
      kept = shared.kept.value.items;
      bytes = map (λ segment. segment.items) shared.pages.items;
    } };
}

impl<const N: usize> SharedPages<N> {
    /// The pages that an open child sees, with a hold on each, and the commits that they are behind. E1.
    pub(crate) fn of(
        alloc: Global,
        space: &mut Space<N>,
        child: u64,
        kept: Noted<Vec<Commit>>,
    ) -> Result<Arc<SharedPages<N>>, AllocError>
        requires { IsSome (child_table space.old child) }
        ensures kept { IfOk result (λ shared. (arc_value shared).kept ≡ kept.value.items) }
        ensures holds { IfOk result (λ shared. child_bytes space.old child ≡ Some (arc_value shared).bytes) }
        ensures unchanged { IsUnchanged space.old space.new }
        ensures own { KeepsOwn space.old space.new }
    {
        let pages = space.holds(child)?;
        match Arc::new(alloc, SharedPages { kept, pages }) {
            Ok(shared) => Ok(shared),
            Err(_) => Err(AllocError),
        }
    }

    /// The pages of a segment.
    fn segment(&self, number: usize) -> &[Hold<N>]
        requires { number < length self.now.bytes }
        ensures { result.now ≡ list_at self.now.bytes number }
    {
        self.pages[number].as_slice()
    }

    /// Where memory for rows comes from.
    fn allocator(&self) -> Global {
        *self.pages.allocator()
    }
}

/// The rows of a warehouse after a number of its commits. It has a hold on its pages, so that no lock is needed to
/// read it, and nothing changes it. It must be given back to its partition by `close`, whose ticket it has.
pub struct Snapshot<const N: usize> {
    load: Load,
    ticket: Ticket,
    commits: u64,
    shared: Arc<SharedPages<N>>,
}

// Clauses see the numbers, the commits that it is behind, and the bytes of the pages by segment.
impl<const N: usize> Model for Snapshot<N> {
    ghost use Rattle.std.specs.Arc.{arc_value};
    ghost use Rattle.hy_partition.specs.Snapshots.{SnapshotState, IsTakenBehind, snapshot_of};

    ghost Value = { SnapshotState };

    ghost view = { λ snapshot.
        snapshot_of snapshot.load snapshot.ticket snapshot.commits (arc_value snapshot.shared) };

    ghost invariant = { λ snapshot.
        IsTakenBehind N (snapshot_of snapshot.load snapshot.ticket snapshot.commits (arc_value snapshot.shared)) };
}

impl<const N: usize> Snapshot<N> {
    /// A snapshot of a warehouse of the load, behind these commits, with these pages.
    pub(crate) fn new(
        load: Load,
        ticket: Ticket,
        commits: u64,
        shared: Arc<SharedPages<N>>,
    ) -> Snapshot<N>
        requires { IsTakenBehind N (snapshot_of load ticket commits (arc_value shared)) }
        ensures { result ≡ snapshot_of load ticket commits (arc_value shared.entry) }
    {
        Snapshot {
            load,
            ticket,
            commits,
            shared,
        }
    }

    /// What another snapshot of the same rows shares with it. An error where it finds no memory.
    pub(crate) fn share(&self) -> Result<(Load, Arc<SharedPages<N>>), AllocError>
        ensures taken { IsTakenBehind N self.now }
        ensures load { IfOk result (λ again. again.0 ≡ self.now.load) }
        ensures pages { IfOk result (λ again. arc_value again.1 ≡ pages_of self.now) }
    {
        let load = self.load.share()?;
        let shared = Arc::try_clone(&self.shared)?;
        Ok((load, shared))
    }

    /// The ticket, which is to be given back.
    pub(crate) fn spend(self) -> Ticket
        ensures { result ≡ ticket_of self.entry }
    {
        let Snapshot {
            load: _,
            ticket,
            commits: _,
            shared: _,
        } = self;
        ticket
    }

    /// The ticket.
    pub(crate) fn ticket(&self) -> &Ticket
        ensures { result.now ≡ ticket_of self.now }
    {
        &self.ticket
    }

    /// The number of the warehouse.
    pub fn warehouse(&self) -> u8
        ensures { result ≡ self.now.warehouse }
    {
        self.ticket.warehouse()
    }

    /// The name of the kit.
    pub fn name(&self) -> u64
        ensures { result ≡ self.now.name }
    {
        self.ticket.name()
    }

    /// How many commits there were.
    pub fn commits(&self) -> u64
        ensures { result ≡ self.now.commits }
    {
        self.commits
    }

    /// That its bytes, and so the rows that it lists, are those of the warehouse of the load after `commits()` commits,
    /// replayed one by one: those that were kept when it was taken.
    pub fn spells(&self)
        ensures commits { self.now.commits ≡ length self.now.kept }
        ensures spells { Spells N self.now.bytes (rows_after self.now.load self.now.warehouse self.now.kept) }
    {
        let _commits = self.commits;
    }

    /// The rows of one table: those on its pages, or of ITEM those of the load. Only memory can lack.
    pub fn list<R: Listed>(&self) -> Result<Vec<R>, AllocError>
        ensures { IfOk result (λ rows. rows.items ≡ R.list_in (lists_in N self.now)) }
    {
        R::copy_from(self)
    }

    /// The rows of ITEM, which no pages hold.
    pub fn items(&self) -> &[Item]
        ensures { result.now ≡ self.now.load.items }
    {
        self.load.list()
    }

    /// The pages of a segment, of which the first eight hold a table each (`Row::SEGMENT`).
    pub fn segment(&self, number: u32) -> &[Hold<N>]
        requires { number < segments }
        ensures pages { result.now ≡ list_at self.now.bytes number }
        ensures whole { IsWhole N self.now.bytes }
    {
        self.shared.segment(number as usize)
    }
}

// The tables on pages are scanned, and the items copied.
impl<const N: usize> RowSource for Snapshot<N> {
    ghost tables_of = { λ snapshot. (lists_in N snapshot).tables };

    fn copy_rows<R: Row>(&self) -> Result<Vec<R>, AllocError> {
        Relation::<R>::new().scan_pages(self.shared.allocator(), self.segment(R::SEGMENT))
    }
}

impl<const N: usize> Source for Snapshot<N> {
    ghost items_of = { λ snapshot. snapshot.load.items };

    fn copy_items(&self) -> Result<Vec<Item>, AllocError> {
        let mut items = Vec::new(self.shared.allocator());
        items.extend_from_slice(self.load.list())?;
        Ok(items)
    }
}
