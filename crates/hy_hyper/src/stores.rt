//! A relation and an index of its rows in one space under one undo log, which tests keep beside plain lists.

ghost use Rattle.std.specs.Prelude.{◌≡◌, ◌<◌, ◌^◌};
ghost use Rattle.hy_frames.specs.FrameTable.{IsPageSize};

use hy_frames::{Hold, Shortage};
use hy_index::codec::{push_number, read_number};
use hy_index::{Entry, Index, Key, KeyBytes, Reads};
use hy_relation::Relation;
use hy_rows::NewOrder;
use hy_space::Space;
use hy_undo::Undo;
use std::marker::Model;
use std::process::Abort;

/// How many of the rows belong to one district.
const ROWS_PER_DISTRICT: u64 = 500;

/// How many districts have rows, numbered from 1 on.
pub const DISTRICTS: u8 = 10;

/// The segment of the index, behind those of the tables.
const INDEX_SEGMENT: u32 = 8;

/// The segments of the tables and that of the index.
const SEGMENTS: u32 = 9;

/// How many frames the pages may have.
pub const FRAMES: u64 = 100_000;

/// The primary key of NEW-ORDER (TPC-C clause 1.3.1).
#[derive(Clone, Copy, Debug, PartialEq, Eq)]
pub struct NewOrderKey {
    warehouse: u8,
    district: u8,
    order: u32,
}

impl Key for NewOrderKey {
    ghost use Rattle.std.specs.Prelude.{◌≡◌, ℕ, ◌<◌, ◌^◌, ◌++◌};
    ghost use Rattle.std.proofs.Common.{refl, ap, ap₂, ◌∙◌, rules, sym};
    ghost use Rattle.std.specs.Ordering.{is_lt, nat_cmp, ordering_then};
    ghost use Rattle.hy_page.specs.Bytes.{bytes_at};
    ghost use Rattle.hy_index.specs.KeyBytes.{high_bytes_of, high_number_of};
    ghost use Rattle.hy_index.proofs.KeyLaws.{compared-last, compared-number, high_number_of-bytes};

    const BYTES: usize = 6;

    ghost BYTES = { 6 };

    ghost bytes_of_key = { λ key. high_bytes_of 1 key.warehouse
        ++ high_bytes_of 1 key.district ++ high_bytes_of 4 key.order };

    ghost key_of_bytes = { λ bytes. record {
      warehouse = high_number_of (bytes_at bytes 0 1);
      district = high_number_of (bytes_at bytes 1 1);
      order = high_number_of (bytes_at bytes 2 4);
    } };

    ghost IsKey = { λ key. (key.warehouse < 256) × (key.district < 256) × (key.order < 256 ^ 4) };

    ghost is_less = { λ one other. is_lt (ordering_then (nat_cmp one.warehouse other.warehouse)
        (ordering_then (nat_cmp one.district other.district) (nat_cmp one.order other.order))) };

    fn encode(&self, bytes: &mut KeyBytes) {
        push_number(bytes, self.warehouse.into(), 1);
        push_number(bytes, self.district.into(), 1);
        push_number(bytes, self.order.into(), 4);
    }

    fn decode(bytes: &[u8]) -> NewOrderKey {
        NewOrderKey {
            warehouse: read_number(bytes, 0, 1) as u8,
            district: read_number(bytes, 1, 1) as u8,
            order: read_number(bytes, 2, 4) as u32,
        }
    }

    ghost some = { Prim.search rules };

    ghost fits = { Prim.search rules };

    ghost width = { λ key is_key. refl };

    ghost reads_back = { λ key is_key. ap₂ (λ (w : ℕ) (d : ℕ). record {
      warehouse = w;
      district = d;
      order = high_number_of (high_bytes_of 4 key.order);
    }) (high_number_of-bytes 1 key.warehouse is_key.0) (high_number_of-bytes 1 key.district is_key.1)
        ∙ ap (λ (o : ℕ). record { warehouse = key.warehouse; district = key.district; order = o })
        (high_number_of-bytes 4 key.order is_key.2) };

    ghost ordered = { λ one other is_one is_other. ap is_lt (sym (
        compared-number 1 one.warehouse other.warehouse
        (high_bytes_of 1 one.district ++ high_bytes_of 4 one.order)
        (high_bytes_of 1 other.district ++ high_bytes_of 4 other.order) is_one.0 is_other.0
        ∙ ap (ordering_then (nat_cmp one.warehouse other.warehouse))
        (compared-number 1 one.district other.district
        (high_bytes_of 4 one.order) (high_bytes_of 4 other.order) is_one.1 is_other.1
        ∙ ap (ordering_then (nat_cmp one.district other.district))
        (compared-last 4 one.order other.order is_one.2 is_other.2)))) };
}

/// The row of a number: the first 500 numbers are those of district 1, the next of district 2, and so on.
pub fn row_of(number: u64) -> NewOrder {
    NewOrder {
        order: (number % ROWS_PER_DISTRICT + 1) as u32,
        district: (number / ROWS_PER_DISTRICT % u64::from(DISTRICTS) + 1) as u8,
        warehouse: 1,
    }
}

/// The key of a row.
pub fn key_of(row: &NewOrder) -> NewOrderKey {
    NewOrderKey {
        warehouse: row.warehouse,
        district: row.district,
        order: row.order,
    }
}

/// The key of the row of a number.
pub fn key_at(number: u64) -> NewOrderKey {
    key_of(&row_of(number))
}

/// The least key of a district.
pub fn first_key_of(district: u8) -> NewOrderKey {
    NewOrderKey {
        warehouse: 1,
        district,
        order: 1,
    }
}

/// A key and its slot.
pub fn pair_of(entry: Entry<NewOrderKey>) -> (NewOrderKey, u64) {
    (entry.key, entry.slot)
}

/// The relation of NEW-ORDER and an index of its primary key, in one space under one undo log.
#[derive(Drop)]
pub struct Store<const N: usize> {
    space: Space<N>,
    undo: Undo<N>,
}

// What holds of a store between two calls. Clauses see the space.
impl<const N: usize> Model for Store<N> {
    ghost use Rattle.hy_space.specs.Space.{SpaceState};
    ghost use Rattle.hy_hyper.specs.Stores.{IsStore};

    ghost Value = { SpaceState };

    ghost view = { λ store. store.space };

    ghost invariant = { λ store. IsStore ⟦<NewOrderKey as Key>⟧.BYTES ⟦<NewOrderKey as Key>⟧.bytes_of_key
        ⟦<NewOrderKey as Key>⟧.key_of_bytes ⟦<NewOrderKey as Key>⟧.IsKey N store.space store.undo };
}

/// The table.
pub fn relation() -> Relation<NewOrder> {
    Relation::new()
}

/// The index.
pub fn index() -> Index<NewOrderKey>
    ensures { result ≡ 8 }
{
    Index::new(INDEX_SEGMENT)
}

impl<const N: usize> Store<N> {
    /// A store without rows and keys.
    pub fn new(rt: &(impl Abort + AllocGlobal)) -> Store<N>
        requires { IsPageSize N }
    {
        let mut space: Space<N> = Space::new(rt.alloc(), SEGMENTS, FRAMES).expect(rt, "a space");
        let mut undo = Undo::new(rt.alloc(), &space).expect(rt, "an undo log");
        relation()
            .create(&mut space, &undo)
            .expect(rt, "a relation");
        index().create(&mut space, &mut undo).expect(rt, "an index");
        undo.commit(&space);
        Store { space, undo }
    }

    /// Adds a row, and answers its slot.
    pub fn push(&mut self, rt: &impl Abort, row: &NewOrder) -> u64 {
        relation()
            .push(&mut self.space, &mut self.undo, row)
            .expect(rt, "a slot")
    }

    /// Gives a key a slot.
    pub fn insert(&mut self, rt: &impl Abort, key: &NewOrderKey, slot: u64) {
        index()
            .insert(&mut self.space, &mut self.undo, key, slot)
            .expect(rt, "an entry");
    }

    /// Puts a row in the place of the one that a slot has.
    pub fn put(&mut self, rt: &impl Abort, slot: u64, row: &NewOrder) {
        let Some(_row) = relation().get(&self.space, slot) else {
            panic!(rt; "no row in the slot");
        };
        relation()
            .put(&mut self.space, &mut self.undo, slot, row)
            .expect(rt, "a write");
    }

    /// Erases the row of a slot that has one.
    pub fn erase(&mut self, rt: &impl Abort, slot: u64) {
        let Some(_row) = relation().get(&self.space, slot) else {
            panic!(rt; "no row in the slot");
        };
        relation()
            .erase(&mut self.space, &mut self.undo, slot)
            .expect(rt, "a write");
    }

    /// Takes a key's entry away.
    pub fn remove(&mut self, rt: &impl Abort, key: &NewOrderKey) {
        index()
            .remove(&mut self.space, &mut self.undo, key)
            .expect(rt, "a write");
    }

    /// Lets the writes stand.
    pub fn commit(&mut self) {
        self.undo.commit(&self.space);
    }

    /// Makes the rows and keys what they were at the last commit.
    pub fn roll_back(&mut self) {
        self.undo.roll_back(&mut self.space);
    }

    /// How many slots are used.
    pub fn slots(&self) -> u64 {
        relation().slots(&self.space)
    }

    /// The row of a slot.
    pub fn get(&self, slot: u64) -> Option<NewOrder> {
        relation().get(&self.space, slot)
    }

    /// The rows, in the order of their slots.
    pub fn scan(&self, rt: &(impl Abort + AllocGlobal)) -> Vec<NewOrder> {
        relation()
            .scan(rt.alloc(), &self.space)
            .expect(rt, "the rows")
    }

    /// The slot of a key.
    pub fn find(&self, key: &NewOrderKey) -> Option<u64> {
        index().find(&self.space, key)
    }

    /// The first entry whose key isn't below this one.
    pub fn first_from(&self, key: &NewOrderKey) -> Option<(NewOrderKey, u64)> {
        index().first_from(&self.space, key).map(pair_of)
    }

    /// The entries from one key on that are below another.
    pub fn range(
        &self,
        rt: &(impl Abort + AllocGlobal),
        low: &NewOrderKey,
        high: &NewOrderKey,
    ) -> Vec<Entry<NewOrderKey>> {
        index()
            .range(rt.alloc(), &self.space, low, high)
            .expect(rt, "the entries")
    }

    /// The same, in a list that had others.
    pub fn range_into(
        &self,
        rt: &impl Abort,
        low: &NewOrderKey,
        high: &NewOrderKey,
        entries: &mut Vec<Entry<NewOrderKey>>,
    ) {
        index()
            .range_into(&self.space, low, high, entries)
            .expect(rt, "the entries");
    }
    /// The same, with how many pages the look-up reads.
    pub fn find_counted(&self, key: &NewOrderKey) -> (Option<u64>, u64) {
        let mut reads = Reads::new();
        let slot = index().find_counted(&self.space, key, &mut reads);
        (slot, reads.count())
    }

    /// How many pages stand above each leaf of the index: its first page says it in the bytes 2 and 3.
    pub fn pages_above(&self, rt: &impl Abort) -> u64 {
        assert!(rt; 4 <= N && 0 < self.space.pages(INDEX_SEGMENT));
        self.space.read(INDEX_SEGMENT, 0, 2, 2)
    }

    /// Gives a key a slot, and answers whether it could. Where a frame lacks, all is what it was at the last commit.
    pub fn try_insert(&mut self, rt: &impl Abort, key: &NewOrderKey, slot: u64) -> bool {
        let Err(shortage) = index().insert(&mut self.space, &mut self.undo, key, slot) else {
            return true;
        };
        self.undo.roll_back(&mut self.space);
        assert!(rt; shortage == Shortage::NoFrame);
        false
    }

    /// Takes a key's entry away, and answers whether it could. Where a frame lacks, all is what it was at the last commit.
    pub fn try_remove(&mut self, rt: &impl Abort, key: &NewOrderKey) -> bool {
        let Err(shortage) = index().remove(&mut self.space, &mut self.undo, key) else {
            return true;
        };
        self.undo.roll_back(&mut self.space);
        assert!(rt; shortage == Shortage::NoFrame);
        false
    }

    /// How many pages the index has.
    pub fn pages(&self) -> u32 {
        self.space.pages(INDEX_SEGMENT)
    }

    /// How many pages of the last commit were written since then.
    pub fn touched(&self) -> u64 {
        self.undo.touched()
    }

    /// How many more frames can be taken.
    pub fn free(&self) -> u64 {
        self.space.free()
    }

    /// Sets how many frames the pages may have.
    pub fn limit(&mut self, rt: &impl Abort, frames: u64) {
        assert!(rt; self.space.set_max(frames).is_ok());
    }

    /// Opens a child that sees the last commit, and leaves it open: each page that it sees takes a frame when it is
    /// written next.
    pub fn leave_child(&mut self, rt: &impl Abort) {
        let _child = self.undo.fork(&mut self.space).expect(rt, "a child");
    }

    /// What a child sees that is opened now.
    pub fn fork(&mut self, rt: &impl Abort) -> Child<N> {
        let child = self.undo.fork(&mut self.space).expect(rt, "a child");
        let segments = self.space.holds(child).expect(rt, "the holds");
        self.space.close(child);
        Child { segments }
    }
}

/// The pages that a child sees, by segment. They stay, also once the child is closed.
#[derive(Drop)]
pub struct Child<const N: usize> {
    segments: Vec<Vec<Hold<N>>>,
}

impl<const N: usize> Child<N> {
    /// Both see the same pages.
    pub fn agrees(&self, rt: &impl Abort, other: &Child<N>)
        requires { IsPageSize N }
    {
        assert!(rt; self.segments.len() == other.segments.len());
        for (pages, others) in self.segments.iter().zip(&other.segments) {
            pages_agree(rt, pages, others);
        }
    }
}

/// Both lists have the same pages.
fn pages_agree<const N: usize>(rt: &impl Abort, pages: &[Hold<N>], others: &[Hold<N>])
    requires { IsPageSize N }
{
    assert!(rt; pages.len() == others.len());
    for (page, other) in pages.iter().zip(others) {
        assert!(rt; page.page().bytes() == other.page().bytes());
    }
}
