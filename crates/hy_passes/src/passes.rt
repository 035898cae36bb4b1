//! The shared word: how many commits the serial list has.

ghost use Rattle.std.specs.Prelude.{suc, ◌≡◌, ℕ, ◌+◌, ◌≤◌, ◌<◌, ◌^◌, [], ◌∷◌, length, true, Some, IfOk};
ghost use mathlib.Core.List.{IsPrefix};
ghost use Rattle.hy_worlds.specs.Origins.{replayed_of};
ghost use Rattle.hy_passes.specs.SerialList.{kept_of};
ghost use Rattle.hy_passes.specs.Law.{after_dealing, after_leaving, appended, boarded, is_told, leaving, Looks};
ghost use Rattle.hy_passes.specs.Worlds.{new_client, new_partition};

use crate::entry::{Commits, Entry};
use crate::law::{Admit, Append, Board, Deal, Leave, Look, Meet, Word};
use crate::pass::Pass;
use crate::seat::SerialSeat;
use crate::view::View;
use atomic_table::Seat;
use hy_ledger::{Purse, Purses};
use hy_worlds::World;
use std::alloc::AllocError;
use std::marker::PhantomData;
use std::mem;

/// The number of commits in the journal, as one word that all threads share.
#[derive(Drop)]
pub struct Passes<C: Commits, K: World> {
    pub(crate) table: Word<C>,
    pub(crate) name: u64,
    pub(crate) purses: Purses<K>,
    ghost word_is: { table.shared.table_id ≡ K.passes.word },
    ghost one_word: { table.shared.table_id.words ≡ 1 },
    ghost named: { name ≡ K.passes.name },
}

impl<C: Commits, K: World> Passes<C, K> {
    /// The kit's name.
    pub fn name(&self) -> u64
        ensures { result ≡ K.passes.name }
    {
        self.name
    }

    /// Looks once: answers how many commits the journal has, and the pass then knows them all. It takes no memory, and
    /// waits for nobody.
    pub fn kept_now(&self, pass: &mut Pass<C, K>) -> u64
        ensures looks { pass.new.looks ≡ pass.old.looks + 1 }
        ensures known { result ≡ length pass.new.seen }
        ensures begins { IsPrefix pass.old.seen pass.new.seen }
        ensures at_least { length pass.old.seen ≤ result }
        ensures client { pass.new.client ≡ pass.old.client }
    {
        pass.look(self)
    }

    /// An empty purse, for the shares of accepted commands. E1.
    pub fn purse(&self) -> Result<Purse<K>, AllocError>
        ensures { IfOk result (λ purse. purse.shares ≡ []) }
    {
        self.purses.purse()
    }

    // A look by any seat of the kit.
    pub(crate) fn look(&self, seat: &mut Seat<Entry<C>, View<C>>) -> u64
        requires { seat.old.table_id ≡ K.passes.word }
        ensures place { (seat.new.table_id ≡ seat.old.table_id) × (seat.new.id ≡ seat.old.id) }
        ensures looks { Looks seat.old.me result seat.new.me }
    {
        self.table.shared.load::<Look>(seat, 0)
    }

    // A commit enters the end of the list, by the journal's seat.
    pub(crate) fn append(
        &self,
        journal: &mut Seat<Entry<C>, View<C>>,
        length: u64,
        entry: &Entry<C>,
    )
        requires place { (journal.old.table_id ≡ K.passes.word) × (journal.old.id ≡ 0) }
        requires length { length ≡ Rattle.std.specs.Prelude.length journal.old.me.0.mine.seen }
        requires room { length < 2 ^ 63 }
        ensures place { (journal.new.table_id ≡ journal.old.table_id) × (journal.new.id ≡ journal.old.id) }
        ensures appended { journal.new.me ≡ (appended C.warehouses entry.now journal.old.me.0, journal.old.me.1) }
    {
        self.table
            .shared
            .compare_exchange_with::<Append>(journal, 0, length, length + 1, entry);
    }

    // The seat of the next partition.
    pub(crate) fn deal(
        &self,
        journal: &mut Seat<Entry<C>, View<C>>,
        warehouse: u8,
        replayed: u64,
    ) -> SerialSeat<C, K>
        requires journal { (journal.old.table_id ≡ K.passes.word) × (journal.old.id ≡ 0) }
        requires next { warehouse ≡ suc journal.old.me.0.dealt }
        requires range { warehouse ≤ K.passes.partitions }
        requires replayed { replayed ≡ replayed_of K.passes warehouse }
        requires empty { journal.old.me.0.mine.seen ≡ [] }
        ensures place { (journal.new.table_id ≡ journal.old.table_id) × (journal.new.id ≡ journal.old.id) }
        ensures journal { journal.new.me.0 ≡ after_dealing journal.old.me.0 }
        ensures seat { result ≡ new_partition warehouse }
    {
        let seat = self.table.shared.split_seat::<Deal>(journal);
        SerialSeat {
            seat,
            warehouse,
            commits: 0,
            replayed,
            name: self.name,
            of: PhantomData,
        }
    }

    // The pass of a client.
    pub(crate) fn admit(&self, journal: &mut Seat<Entry<C>, View<C>>, client: u32) -> Pass<C, K>
        requires journal { (journal.old.table_id ≡ K.passes.word) × (journal.old.id ≡ 0) }
        requires empty { journal.old.me.0.mine.seen ≡ [] }
        requires range { client < K.passes.clients }
        ensures place { (journal.new.table_id ≡ journal.old.table_id) × (journal.new.id ≡ journal.old.id) }
        ensures journal { journal.new.me.0 ≡ journal.old.me.0 }
        ensures pass { result ≡ new_client client }
    {
        let seat = self.table.shared.split_seat::<Admit>(journal);
        Pass {
            seat,
            client,
            known: 0,
            of: PhantomData,
        }
    }

    // The journal's seat and another meet: the other is then told all of the list.
    pub(crate) fn meet(
        &self,
        journal: &mut Seat<Entry<C>, View<C>>,
        guest: &mut Seat<Entry<C>, View<C>>,
    )
        requires journal { (journal.old.table_id ≡ K.passes.word) × (journal.old.id ≡ 0) }
        requires guest { (guest.old.table_id ≡ K.passes.word) × (guest.old.me.1 ≡ []) }
        ensures place { (journal.new.table_id ≡ journal.old.table_id) × (journal.new.id ≡ journal.old.id) }
        ensures journal { journal.new.me.0 ≡ after_leaving (boarded journal.old.me.0 guest.old.me.0) }
        ensures guest { (guest.new.table_id ≡ guest.old.table_id) × (guest.new.me ≡ (leaving (boarded journal.old.me.0 guest.old.me.0), [])) }
        ensures begins { IsPrefix guest.old.me.0.mine.seen journal.old.me.0.mine.seen }
        ensures told { (w : ℕ) → guest.old.me.0.mine.serves ≡ Some w → is_told journal.old.me.0.behind w ≡ true → kept_of C.warehouses w guest.old.me.0.mine.seen ≡ kept_of C.warehouses w journal.old.me.0.mine.seen }
    {
        let shared = &self.table.shared;
        let blank = shared.split_seat::<Admit>(journal);
        let boarding = mem::replace(guest, blank);
        shared.join_seat::<Board>(journal, boarding);
        shared.load::<Meet>(journal, 0);
        *guest = shared.split_seat::<Leave>(journal);
    }
}
