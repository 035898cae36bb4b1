//! How passes, the journal and the seats are made.

ghost use Rattle.std.specs.Prelude.{◌≡◌, ℕ, ◌+◌, ◌-◌, ◌≤◌, [], map, length, IfOk, slice_index_or, vec_len};
ghost use Rattle.std.specs.List.{range_with_len};
ghost use Rattle.hy_passes.specs.SerialList.{max_clients, max_partitions};
ghost use Rattle.hy_passes.specs.Law.{beginner};
ghost use Rattle.hy_passes.specs.Worlds.{new_client, new_partition};

use crate::entry::{Commits, Entry};
use crate::journal::{Journal, SerialList};
use crate::law::Word;
use crate::pass::Pass;
use crate::passes::Passes;
use crate::seat::PartitionSeat;
use crate::view::View;
use atomic_table::{Seat, Table};
use hy_ledger::{Blank as Accounts, Ledger};
use hy_tickets::Blank;
use hy_worlds::World;
use std::alloc::{AllocError, Global};
use std::marker::Model;
use std::sync::Arc;

/// How many partitions a kit can have.
pub const MAX_PARTITIONS: u8 = 16;

/// How many clients a kit can have.
pub const MAX_CLIENTS: u32 = 1024;

/// A shared word with an empty list, which belongs to no world yet.
#[derive(Drop)]
pub struct Kit<C: Commits> {
    alloc: Global,
    table: Word<C>,
    seat: Seat<Entry<C>, View<C>>,
    accounts: Accounts,
    desks: Vec<Blank>,
    name: u64,
    partitions: u8,
    clients: u32,
    replayed: Vec<u64>,
}

impl<C: Commits> Model for Kit<C> {
    ghost use Rattle.std.specs.Prelude.{◌≡◌, ◌≤◌, [], length};
    ghost use Rattle.hy_worlds.specs.Origins.{Origin};
    ghost use Rattle.hy_passes.specs.SerialList.{max_clients, max_partitions};
    ghost use Rattle.hy_passes.specs.Law.{beginner};

    ghost Value = { Origin };

    ghost view = { λ k. record {
      word = k.table.shared.table_id;
      accounts = k.accounts;
      desks = k.desks.items;
      name = k.name;
      partitions = k.partitions;
      clients = k.clients;
      replayed = k.replayed.items;
    } };

    ghost invariant = { λ k. (k.table.shared.table_id.words ≡ 1) × (k.seat.table_id ≡ k.table.shared.table_id) × (k.seat.id ≡ 0) × (k.seat.me ≡ (beginner, [])) × (length k.desks.items ≡ k.partitions) × (k.partitions ≤ max_partitions) × (k.clients ≤ max_clients) };
}

/// Makes the shared word for the partitions of warehouses 1, 2, 3 and so on, and for clients that are numbered from 0.
/// The name is the caller's choice. No commit comes from a log.
pub fn make<C: Commits>(
    alloc: Global,
    partitions: u8,
    clients: u32,
    name: u64,
) -> Result<Kit<C>, AllocError>
    requires partitions { (1 ≤ partitions) × (partitions ≤ max_partitions) }
    requires clients { (1 ≤ clients) × (clients ≤ max_clients) }
    ensures made { IfOk result (λ k. (k.partitions ≡ partitions) × (k.clients ≡ clients) × (k.name ≡ name)) }
    ensures new { IfOk result (λ k. k.replayed ≡ []) }
{
    let desks = blank_desks(alloc, partitions)?;
    let accounts = Accounts::new(alloc)?;
    let (table, seat) = Table::of_words(alloc, &[0], &())?;
    Ok(Kit {
        alloc,
        table,
        seat,
        accounts,
        desks,
        name,
        partitions,
        clients,
        replayed: Vec::new(alloc),
    })
}

// A desk for each partition, that of the last warehouse first.
fn blank_desks(alloc: Global, partitions: u8) -> Result<Vec<Blank>, AllocError>
    ensures { IfOk result (λ desks. length desks.items ≡ partitions) }
{
    let mut desks = Vec::with_capacity(alloc, partitions as usize)?;
    for _ in 0..partitions {
        let desk = Blank::new(alloc)?;
        desks.push_reserved(desk);
    }
    Ok(desks)
}

// How many commits of a warehouse come from a log.
fn replayed_at(replayed: &[u64], warehouse: u8) -> u64
    requires { 1 ≤ warehouse }
    ensures { result ≡ slice_index_or replayed.now (warehouse - 1) 0 }
{
    match replayed.get(usize::from(warehouse) - 1) {
        Some(count) => *count,
        None => 0,
    }
}

// The seats of the partitions of warehouses 1 to the last.
fn deal_seats<C: Commits, K: World>(
    alloc: Global,
    passes: &Passes<C, K>,
    ledger: &mut Ledger<K>,
    journal: &mut Seat<Entry<C>, View<C>>,
    mut desks: Vec<Blank>,
    partitions: u8,
    replayed: &[u64],
) -> Result<Vec<PartitionSeat<C, K>>, AllocError>
    requires journal { (journal.old.table_id ≡ K.passes.word) × (journal.old.id ≡ 0) }
    requires ledger { ledger.old ≡ 0 }
    requires desks { desks.items ≡ K.passes.desks }
    requires count { length desks.items ≡ partitions }
    requires partitions { partitions ≡ K.passes.partitions }
    requires replayed { replayed.now ≡ K.passes.replayed }
    requires new { journal.old.me.0 ≡ beginner }
    ensures place { (journal.new.table_id ≡ journal.old.table_id) × (journal.new.id ≡ journal.old.id) }
    ensures journal { (journal.new.me.0.mine.seen ≡ []) × (journal.new.me.0.behind ≡ []) }
    ensures seats { IfOk result (λ seats. seats.items ≡ map new_partition (range_with_len 1 partitions)) }
{
    let mut seats = Vec::with_capacity(alloc, partitions as usize)?;
    for before in 0..partitions {
        let count = replayed_at(replayed, before + 1);
        let list = passes.deal(journal, before + 1, count);
        let desk = desks.take_last().open(before + 1, passes.name());
        let book = ledger.deal(before + 1)?;
        seats.push_reserved(PartitionSeat { list, desk, book });
    }
    Ok(seats)
}

// The passes of the clients from 0 to the last.
fn admit_clients<C: Commits, K: World>(
    alloc: Global,
    passes: &Passes<C, K>,
    journal: &mut Seat<Entry<C>, View<C>>,
    clients: u32,
) -> Result<Vec<Pass<C, K>>, AllocError>
    requires journal { (journal.old.table_id ≡ K.passes.word) × (journal.old.id ≡ 0) }
    requires new { journal.old.me.0.mine.seen ≡ [] }
    requires clients { clients ≡ K.passes.clients }
    ensures place { (journal.new.table_id ≡ journal.old.table_id) × (journal.new.id ≡ journal.old.id) }
    ensures journal { journal.new.me.0 ≡ journal.old.me.0 }
    ensures passes { IfOk result (λ all. all.items ≡ map new_client (range_with_len 0 clients)) }
{
    let mut all = Vec::with_capacity(alloc, clients as usize)?;
    for client in 0..clients {
        all.push_reserved(passes.admit(journal, client));
    }
    Ok(all)
}

impl<C: Commits> Kit<C> {
    /// The kit of a database that is recovered from a log, which has so many commits of the warehouses 1, 2, 3 and so on.
    pub fn replaying(self, replayed: Vec<u64>) -> Kit<C>
        ensures { result ≡ record self { replayed = replayed.items } }
    {
        let Kit {
            alloc,
            table,
            seat,
            accounts,
            desks,
            name,
            partitions,
            clients,
            replayed: _,
        } = self;
        Kit {
            alloc,
            table,
            seat,
            accounts,
            desks,
            name,
            partitions,
            clients,
            replayed,
        }
    }

    /// Opens the kit in the world that names it: the word that all threads share, the journal, the seats of the
    /// partitions of warehouses 1, 2, 3 and so on, and the passes of the clients from 0. E1.
    pub fn open<K: World>(
        self,
    ) -> Result<
        (
            Arc<Passes<C, K>, Global>,
            Journal<C, K>,
            Vec<PartitionSeat<C, K>>,
            Vec<Pass<C, K>>,
        ),
        AllocError,
    >
        requires { self ≡ K.passes }
        ensures journal { IfOk result (λ o. o.1.list.log ≡ []) }
        ensures seats { IfOk result (λ o. o.2.items ≡ map new_partition (range_with_len 1 K.passes.partitions)) }
        ensures clients { IfOk result (λ o. o.3.items ≡ map new_client (range_with_len 0 K.passes.clients)) }
    {
        let Kit {
            alloc,
            table,
            mut seat,
            accounts,
            desks,
            name,
            partitions,
            clients,
            replayed,
        } = self;
        let mut ledger = accounts.open();
        let passes = Passes {
            table,
            name,
            purses: ledger.purses()?,
        };
        let seats = deal_seats(
            alloc,
            &passes,
            &mut ledger,
            &mut seat,
            desks,
            partitions,
            &replayed,
        )?;
        let clients = admit_clients(alloc, &passes, &mut seat, clients)?;
        let counts = Vec::from_elem(alloc, 0u64, partitions as usize)?;
        let passes = Arc::new(alloc, passes)?;
        let list = SerialList {
            passes: Arc::try_clone(&passes)?,
            seat,
            size: 0,
            crossings: 0,
            counts,
        };
        Ok((passes, Journal { list }, seats, clients))
    }
}
