//! The journal: the one serial list of commits.

ghost use Rattle.std.specs.Prelude.{None, ◌≡◌, ℕ, suc, ◌+◌, ◌≤◌, ◌<◌, [], ◌∷◌, ◌++◌, length, not, true, cond, slice_index, ◌==◌, filter, ◌^◌};
ghost use mathlib.Core.List.{IsPrefix};
ghost use Rattle.hy_passes.specs.SerialList.{are_warehouses, is_number, kept_of, max_commits, names, number_after, numbers_of, IsSerial};
ghost use Rattle.hy_passes.specs.Law.{is_told};

use crate::entry::{Commits, Entry};
use crate::pass::Pass;
use crate::passes::Passes;
use crate::seat::SerialSeat;
use crate::view::View;
use atomic_table::Seat;
use hy_worlds::World;
use std::alloc::Global;
use std::marker::Model;
use std::sync::Arc;

/// Fewer commits than these must lie in the kept list of a warehouse that a commit enters.
pub const MAX_COMMITS: u64 = 4_294_967_296;

/// All of the serial list, and which warehouses have still to be told of a commit. The commits themselves lie in the
/// partitions; here they are counted.
#[derive(Drop)]
pub struct SerialList<C: Commits, K: World> {
    pub(crate) passes: Arc<Passes<C, K>, Global>,
    pub(crate) seat: Seat<Entry<C>, View<C>>,
    pub(crate) size: u64,
    pub(crate) crossings: u64,
    pub(crate) counts: Vec<u64>,
}

impl<C: Commits, K: World> Model for SerialList<C, K> {
    ghost use Rattle.hy_passes.specs.Inside.{IsCounted};
    ghost use Rattle.hy_passes.specs.Worlds.{SerialListState};

    ghost Value = { SerialListState C };

    ghost view = { λ h. record { log = h.seat.me.0.mine.seen; behind = h.seat.me.0.behind } };

    ghost invariant = { λ h. IsCounted C.warehouses C.number K.passes h.seat.table_id h.seat.id h.seat.me.0.mine.seen h.size h.crossings h.counts.items };
}

// Counts a commit at each warehouse that it names; the first place is that of warehouse 1.
fn count<C: Commits>(counts: &mut Vec<u64>, commit: &C)
    requires room { (k : ℕ) → k < length counts.old.items → names C.warehouses (k + 1) commit.now ≡ true → slice_index counts.old.items k < max_commits }
    ensures same { length counts.new.items ≡ length counts.old.items }
    ensures counted { (k : ℕ) → k < length counts.old.items → slice_index counts.new.items k ≡ cond (names C.warehouses (k + 1) commit.now) (suc (slice_index counts.old.items k)) (slice_index counts.old.items k) }
{
    for place in 0..counts.len() {
        if commit.names(place as u64 + 1) {
            counts[place] += 1;
        }
    }
}

// How many crossing commits there are with this one.
fn crossings_with<C: Commits>(drawn: u64, commit: &C) -> u64
    requires room { drawn < 2 ^ 63 }
    ensures { result ≡ cond (is_number (C.number commit.now)) (suc drawn) drawn }
{
    if commit.number().is_some() {
        drawn + 1
    } else {
        drawn
    }
}

impl<C: Commits, K: World> SerialList<C, K> {
    /// How many commits there are.
    pub fn len(&self) -> u64
        ensures { result ≡ length self.now.log }
    {
        self.size
    }

    /// How many commits name the warehouse.
    pub fn commits_of(&self, warehouse: u8) -> u64
        requires { (1 ≤ warehouse) × (warehouse ≤ K.passes.partitions) }
        ensures { result ≡ length (kept_of C.warehouses warehouse self.now.log) }
    {
        self.counts[warehouse as usize - 1]
    }

    /// How many commits name each warehouse, that of warehouse 1 first.
    pub(crate) fn counts(&self) -> &[u64]
        ensures places { length result.now ≡ K.passes.partitions }
        ensures counted { (k : ℕ) → k < length result.now
            → slice_index result.now k ≡ length (kept_of C.warehouses (k + 1) self.now.log) }
    {
        self.counts.as_slice()
    }

    /// The number of the next commit that names several warehouses, from 1.
    pub fn next_crossing(&self) -> u64
        ensures { result ≡ length (numbers_of C.warehouses C.number self.now.log) + 1 }
    {
        self.crossings + 1
    }

    /// The list is serial: its commits name warehouses of the kit, the crossing ones are numbered 1, 2, 3 and so on, and
    /// the stamps are respected.
    pub fn sound(&self)
        ensures { IsSerial C.warehouses C.number K.passes.partitions self.now.log }
    {
        let _size = self.size;
    }

    /// A commit enters the end of the list. It takes no memory. The warehouses that it names have then to be told.
    pub fn append(&mut self, entry: &Entry<C>)
        requires named { are_warehouses K.passes.partitions (C.warehouses entry.now.commit) ≡ true }
        requires numbered { C.number entry.now.commit ≡ number_after C.warehouses C.number self.old.log entry.now.commit }
        requires stamped { entry.now.stamp ≤ length self.old.log }
        requires room { (w : ℕ) → names C.warehouses w entry.now.commit ≡ true → length (kept_of C.warehouses w self.old.log) < max_commits }
        ensures log { self.new.log ≡ self.old.log ++ entry.now ∷ [] }
        ensures behind { self.new.behind ≡ self.old.behind ++ C.warehouses entry.now.commit }
    {
        let size = self.size;
        self.passes.append(&mut self.seat, size, entry);
        self.size = size + 1;
        self.crossings = crossings_with(self.crossings, &entry.commit);
        count(&mut self.counts, &entry.commit);
    }

    /// Tells a partition of all commits. What it had been told begins the list; it lacked no commit of its warehouse,
    /// unless that had still to be told.
    pub fn tell(&mut self, seat: &mut SerialSeat<C, K>)
        ensures log { self.new.log ≡ self.old.log }
        ensures behind { self.new.behind ≡ filter (λ w. not (w == seat.old.warehouse)) self.old.behind }
        ensures warehouse { seat.new.warehouse ≡ seat.old.warehouse }
        ensures range { (1 ≤ seat.old.warehouse) × (seat.old.warehouse ≤ K.passes.partitions) }
        ensures seen { seat.new.seen ≡ self.old.log }
        ensures begins { IsPrefix seat.old.seen self.old.log }
        ensures kept { is_told self.old.behind seat.old.warehouse ≡ true → kept_of C.warehouses seat.old.warehouse seat.old.seen ≡ kept_of C.warehouses seat.old.warehouse self.old.log }
    {
        self.passes.meet(&mut self.seat, &mut seat.seat);
        seat.commits = self.counts[seat.warehouse as usize - 1];
    }

    /// Tells a client of all commits, with no look. What the client had seen begins the list.
    pub fn tell_client(&mut self, pass: &mut Pass<C, K>)
        ensures log { self.new.log ≡ self.old.log }
        ensures behind { self.new.behind ≡ self.old.behind }
        ensures client { pass.new.client ≡ pass.old.client }
        ensures looks { pass.new.looks ≡ pass.old.looks }
        ensures seen { pass.new.seen ≡ self.old.log }
        ensures begins { IsPrefix pass.old.seen self.old.log }
    {
        self.passes.meet(&mut self.seat, &mut pass.seat);
        pass.known = self.size;
    }
}

/// The value of the journal's lock: nobody has still to be told.
#[derive(Drop)]
pub struct Journal<C: Commits, K: World> {
    /// The list. A function that lets a commit of several warehouses enter tells each of them before it returns.
    pub list: SerialList<C, K>,
    pub ghost told: { list.behind ≡ [] },
}

impl<C: Commits, K: World> Journal<C, K> {
    /// A commit of one warehouse enters the end of the list, and its partition and its client are told. It takes no
    /// memory. The stamp is how many commits the client knew at some time.
    pub fn commit(&mut self, seat: &mut SerialSeat<C, K>, pass: &mut Pass<C, K>, entry: &Entry<C>)
        requires alone { C.warehouses entry.now.commit ≡ seat.old.warehouse ∷ [] }
        requires unnumbered { C.number entry.now.commit ≡ None }
        requires stamped { entry.now.stamp ≤ length pass.old.seen }
        requires room { length (kept_of C.warehouses seat.old.warehouse seat.old.seen) < max_commits }
        ensures log { self.new.list.log ≡ self.old.list.log ++ entry.now ∷ [] }
        ensures warehouse { seat.new.warehouse ≡ seat.old.warehouse }
        ensures seat { (seat.new.seen ≡ self.new.list.log) × IsPrefix seat.old.seen self.old.list.log }
        ensures kept { kept_of C.warehouses seat.old.warehouse seat.new.seen ≡ kept_of C.warehouses seat.old.warehouse seat.old.seen ++ entry.now.commit ∷ [] }
        ensures client { (pass.new.client ≡ pass.old.client) × (pass.new.looks ≡ pass.old.looks) }
        ensures pass { (pass.new.seen ≡ self.new.list.log) × IsPrefix pass.old.seen self.old.list.log }
    {
        self.tell(seat);
        self.tell_client(pass);
        self.list.append(entry);
        self.list.tell(seat);
        self.tell_client(pass);
    }

    /// Tells a partition of all commits. It lacked none of its warehouse.
    pub fn tell(&mut self, seat: &mut SerialSeat<C, K>)
        ensures log { self.new.list.log ≡ self.old.list.log }
        ensures warehouse { seat.new.warehouse ≡ seat.old.warehouse }
        ensures range { (1 ≤ seat.old.warehouse) × (seat.old.warehouse ≤ K.passes.partitions) }
        ensures seen { seat.new.seen ≡ self.old.list.log }
        ensures begins { IsPrefix seat.old.seen self.old.list.log }
        ensures kept { kept_of C.warehouses seat.old.warehouse seat.old.seen ≡ kept_of C.warehouses seat.old.warehouse self.old.list.log }
    {
        self.list.tell(seat);
    }

    /// Tells a client of all commits, with no look. What the client had seen begins the list.
    pub fn tell_client(&mut self, pass: &mut Pass<C, K>)
        ensures log { self.new.list.log ≡ self.old.list.log }
        ensures client { pass.new.client ≡ pass.old.client }
        ensures looks { pass.new.looks ≡ pass.old.looks }
        ensures seen { pass.new.seen ≡ self.old.list.log }
        ensures begins { IsPrefix pass.old.seen self.old.list.log }
    {
        self.list.tell_client(pass);
    }
}
