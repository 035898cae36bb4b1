//! What a partition has been told.

ghost use Rattle.std.specs.Prelude.{◌≡◌, ℕ, ◌≤◌, [], length};
ghost use Rattle.hy_worlds.specs.Origins.{replayed_of};
ghost use Rattle.hy_ledger.specs.Books.{new_book};
ghost use Rattle.hy_passes.specs.SerialList.{kept_of};

use crate::entry::{Commits, Entry};
use crate::view::View;
use atomic_table::Seat;
use hy_ledger::Book;
use hy_tickets::Desk;
use hy_worlds::World;
use std::marker::{Model, PhantomData};

/// A partition's seat at the serial list: a beginning of it that the partition has been told of.
#[derive(Drop)]
pub struct SerialSeat<C: Commits, K: World> {
    pub(crate) seat: Seat<Entry<C>, View<C>>,
    pub(crate) warehouse: u8,
    pub(crate) commits: u64,
    pub(crate) replayed: u64,
    pub(crate) name: u64,
    pub(crate) of: PhantomData<K>,
}

impl<C: Commits, K: World> Model for SerialSeat<C, K> {
    ghost use Rattle.std.specs.Prelude.{◌≡◌, ◌≤◌, [], length, Some};
    ghost use Rattle.hy_worlds.specs.Origins.{replayed_of};
    ghost use Rattle.hy_passes.specs.SerialList.{kept_of};
    ghost use Rattle.hy_passes.specs.Worlds.{SeatState};

    ghost Value = { SeatState C };

    ghost view = { λ s. record { warehouse = s.warehouse; seen = s.seat.me.0.mine.seen } };

    ghost invariant = { λ s. (s.seat.table_id ≡ K.passes.word) × (s.seat.me.1 ≡ []) × (s.seat.me.0.mine.serves ≡ Some s.warehouse) × (1 ≤ s.warehouse) × (s.warehouse ≤ K.passes.partitions) × (s.commits ≡ length (kept_of C.warehouses s.warehouse s.seat.me.0.mine.seen)) × (s.name ≡ K.passes.name) × (s.replayed ≡ replayed_of K.passes s.warehouse) };
}

impl<C: Commits, K: World> SerialSeat<C, K> {
    /// The partition's warehouse.
    pub fn warehouse(&self) -> u8
        ensures warehouse { result ≡ self.now.warehouse }
        ensures range { (1 ≤ result) × (result ≤ K.passes.partitions) }
    {
        self.warehouse
    }

    /// How many commits of the warehouse the partition has been told of.
    pub fn commits(&self) -> u64
        ensures { result ≡ length (kept_of C.warehouses self.now.warehouse self.now.seen) }
    {
        self.commits
    }

    /// How many commits of the warehouse come from a log.
    pub fn replayed(&self) -> u64
        ensures { result ≡ replayed_of K.passes self.now.warehouse }
    {
        self.replayed
    }

    /// The kit's name.
    pub fn name(&self) -> u64
        ensures { result ≡ K.passes.name }
    {
        self.name
    }
}

/// What a partition is made with: its seat at the serial list, its desk, which has no ticket out, and its book, which is
/// empty.
#[derive(Drop)]
pub struct PartitionSeat<C: Commits, K: World> {
    pub(crate) list: SerialSeat<C, K>,
    pub(crate) desk: Desk<K>,
    pub(crate) book: Book<K>,
}

// Clauses see the warehouse, and what the seat has been told.
impl<C: Commits, K: World> Model for PartitionSeat<C, K> {
    ghost use Rattle.std.specs.Prelude.{◌≡◌, []};
    ghost use Rattle.hy_ledger.specs.Books.{new_book};
    ghost use Rattle.hy_passes.specs.Worlds.{SeatState};

    ghost Value = { SeatState C };

    ghost view = { λ s. record { warehouse = s.list.warehouse; seen = s.list.seen } };

    ghost invariant = { λ s. (s.desk ≡ record { warehouse = s.list.warehouse; out = [] }) × (s.book ≡ new_book s.list.warehouse) };
}

impl<C: Commits, K: World> PartitionSeat<C, K> {
    /// The partition's warehouse.
    pub fn warehouse(&self) -> u8
        ensures warehouse { result ≡ self.now.warehouse }
        ensures range { (1 ≤ result) × (result ≤ K.passes.partitions) }
    {
        self.list.warehouse()
    }

    /// The seat at the serial list, the desk, and the book.
    pub fn part(self) -> (SerialSeat<C, K>, Desk<K>, Book<K>)
        ensures list { result.0 ≡ self }
        ensures desk { result.1 ≡ record { warehouse = self.warehouse; out = [] } }
        ensures book { result.2 ≡ new_book self.warehouse }
    {
        let PartitionSeat { list, desk, book } = self;
        (list, desk, book)
    }
}
