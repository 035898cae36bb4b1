//! Clients with their passes: what they see, on one thread and on two, and what they paid.

ghost use Rattle.std.specs.Prelude.{◌≡◌, ◌≤◌, ◌∷◌, [], length};
ghost use Rattle.hy_passes.specs.Worlds.{new_partition};

use crate::forked::{Body, Forked, On, Size, Taken, begun, give_back, of_items, run, take};
use hy_commands::{Command, Commit, Payment, Reply, Who};
use hy_ledger::{Balance, Purse};
use hy_loads::Load;
use hy_partition::{Job, Loaded, Partition, Progress};
use hy_passes::{Journal, Kit, PartitionSeat, Pass, Passes, make};
use hy_rows::Warehouse;
use hy_schema::Refusal;
use hy_tables::generate;
use std::alloc::Global;
use std::marker::Brand;
use std::process::Abort;
use std::sync::{Mutex, Wait};
use std::thread::{Threads, join};

/// What a test does with a partition.
#[derive(Drop)]
enum Case {
    ReadsItsWrite,
}

impl<const N: usize> Body for On<N, Case> {
    ghost page_size = { N };

    fn run<K: Loaded, R: Abort + AllocGlobal>(
        &self,
        rt: &R,
        load: &Load,
        kit: Kit<Commit>,
        size: Size,
    ) -> Result<(), Refusal> {
        let forked = Forked::<N, K>::new(rt, load, kit, size)?;
        match &self.case {
            Case::ReadsItsWrite => sees_its_payment(rt, forked),
        }
        Ok(())
    }
}

/// A payment of so many cents in a warehouse, by customer 1 of a district there.
fn payment(warehouse: u64, district: u64, amount: u64) -> Command {
    Command::Payment(Payment {
        warehouse,
        district,
        customer_warehouse: warehouse,
        customer_district: district,
        who: Who::Number(1),
        amount,
        at: 1,
    })
}

/// The district and the cents of a payment that was kept.
fn paid(commit: &Commit) -> Option<(u64, u64)> {
    match commit {
        Commit::Local(_, Command::Payment(payment)) => Some((payment.district, payment.amount)),
        _ => None,
    }
}

/// A payment from its begin to its answer.
fn pay<const N: usize, K: Loaded>(rt: &impl Abort, forked: &mut Forked<N, K>, amount: u64) {
    assert!(rt; forked.begin(rt, payment(1, 1, amount)) == Ok(()));
    forked.finish();
    assert!(rt; matches!(forked.answer(rt), Some((Reply::Payment { .. }, true))));
}

/// The client at place 2 pays. It looks first, and another one behind it.
fn sees_its_payment<const N: usize, K: Loaded>(rt: &impl Abort, mut forked: Forked<N, K>) {
    assert!(rt; forked.kept_now(rt, 2) == 0 && forked.kept_now(rt, 1) == 0);
    pay(rt, &mut forked, 100);
    assert!(rt; forked.kept_now(rt, 2) >= 1);
    assert!(rt; forked.fork(rt) == Ok(()) && forked.snapshot(rt, 0).commits() >= 1);
    assert!(rt; forked.kept_now(rt, 1) >= 1);
    forked.close(rt, 0);
    forked.end(rt);
}

#[test]
fn reads_its_write(rt: HostRuntime) {
    assert!(rt;
        run(
            &rt,
            of_items(1),
            &On::<4096, _> {
                case: Case::ReadsItsWrite
            }
        )
        .is_ok()
    );
}

/// Two partitions of the same warehouse, by kits with different names.
fn strangers<K: Loaded, L: Loaded, R: Abort + AllocGlobal>(
    rt: &R,
    load: &Load,
    kit: Kit<Commit>,
    other: Kit<Commit>,
)
    requires load { load.now ≡ K.load }
    requires other_load { load.now ≡ L.load }
    requires warehouse { 1 ≤ length load.now.tables.warehouses }
    requires kit { kit ≡ K.passes }
    requires other { other ≡ L.passes }
    requires partitions { kit.partitions ≡ 1 }
    requires other_partitions { other.partitions ≡ 1 }
{
    let mut own = Forked::<4096, K>::new(rt, load, kit, of_items(1)).expect(rt, "a partition");
    let mut other = Forked::<4096, L>::new(rt, load, other, of_items(1)).expect(rt, "a partition");
    assert!(rt; own.fork(rt) == Ok(()));
    let taken = own.remove(rt, 0);
    let taken = other.hand_back(rt, taken);
    own.take_back(rt, taken);
    own.end(rt);
    other.end(rt);
}

#[test]
fn another_name_comes_back(rt: HostRuntime) {
    let load = generate(rt.alloc(), 1, 3, 1).expect(&rt, "a load");
    assert!(rt; load.tables().warehouses.len() == 1);
    let kit = make::<Commit>(rt.alloc(), 1, 1, 1).expect(&rt, "a kit");
    let other = make::<Commit>(rt.alloc(), 1, 1, 2).expect(&rt, "a kit");
    strangers::<Brand, Brand, _>(&rt, &load, kit, other);
}

/// How many payments each of four clients makes, of 100 cents, 101 cents and so on, half of them in each warehouse.
const TURNS: u64 = 1000;

/// What the warehouses have taken in cents by the load, and what one client pays.
const LOADED: i64 = 30_000;

const PAID: u64 = TURNS * 100 + TURNS * (TURNS - 1) / 2;

type Shared<K> = Mutex<Partition<4096, K>>;

/// What threads share.
#[derive(Drop)]
struct Hall<'a, K: Loaded> {
    passes: &'a Passes<Commit, K>,
    first: Shared<K>,
    second: Shared<K>,
    journal: Mutex<Journal<Commit, K>>,
}

/// One payment. The journal is taken last, for the last slice alone.
fn pay_at<K: Loaded, R: Wait + Abort>(
    rt: &R,
    partition: &Shared<K>,
    journal: &Mutex<Journal<Commit, K>>,
    (pass, purse): (Pass<Commit, K>, &mut Purse<K>),
    command: Command,
) -> Pass<Commit, K> {
    let mut partition = partition.lock(rt);
    assert!(rt; partition.begin(Job::new(command, pass)).is_ok());
    assert!(rt; !partition.at_last());
    assert!(rt; partition.step_early() == Ok(Progress::More));
    assert!(rt; partition.at_last());
    let mut journal = journal.lock(rt);
    assert!(rt; partition.step(&mut journal) == Ok(Progress::Finished));
    let Some(done) = partition.take_done() else {
        panic!(rt; "an answer")
    };
    let (reply, pass, share) = done.open();
    assert!(rt; matches!(reply, Reply::Payment { .. }));
    let Some(share) = share else {
        panic!(rt; "a share")
    };
    purse.add(share);
    pass
}

/// A snapshot, and what the warehouse has taken in it in cents. It is read while nobody is kept from the partition.
fn look_at<K: Loaded, R: Wait + Abort>(
    rt: &R,
    partition: &Shared<K>,
    journal: &Mutex<Journal<Commit, K>>,
    pass: &mut Pass<Commit, K>,
) -> (u64, i64) {
    let taken = taken_at(rt, partition, journal, pass);
    let commits = taken.snapshot.commits();
    let rows = taken.snapshot.list::<Warehouse>().expect(rt, "the rows");
    let [warehouse] = rows.as_slice() else {
        panic!(rt; "one warehouse")
    };
    let ytd = warehouse.ytd;
    let mut partition = partition.lock(rt);
    match give_back(&mut partition, taken) {
        Ok(()) => {}
        Err(_) => panic!(rt; "a snapshot of another partition"),
    }
    (commits, ytd)
}

/// A snapshot, under both locks.
fn taken_at<K: Loaded, R: Wait + Abort>(
    rt: &R,
    partition: &Shared<K>,
    journal: &Mutex<Journal<Commit, K>>,
    pass: &mut Pass<Commit, K>,
) -> Taken<4096, K> {
    let mut partition = partition.lock(rt);
    let mut journal = journal.lock(rt);
    take(&mut partition, &mut journal, pass).expect(rt, "a snapshot")
}

/// A client's payments, in the district of its number. It sees at least what it did and what it saw before, by a look and
/// in snapshots.
fn turns<K: Loaded, R: Wait + Abort>(
    rt: &R,
    hall: &Hall<K>,
    mut pass: Pass<Commit, K>,
) -> (Pass<Commit, K>, Purse<K>) {
    let mut purse = hall.passes.purse().expect(rt, "a purse");
    let district = u64::from(pass.client()).saturating_add(1);
    let (first, second, journal) = (&hall.first, &hall.second, &hall.journal);
    for turn in 0..TURNS {
        let warehouse = turn % 2 + 1;
        let partition = if warehouse == 1 { first } else { second };
        let command = payment(warehouse, district, turn + 100);
        pass = pay_at(rt, partition, journal, (pass, &mut purse), command);
        assert!(rt; hall.passes.kept_now(&mut pass) > turn);
        if turn % 50 < 2 {
            let (commits, ytd) = look_at(rt, partition, journal, &mut pass);
            assert!(rt; commits > turn / 2 && ytd > LOADED);
        }
    }
    (pass, purse)
}

/// How many payments of a district a kept list has: each of 2 cents more than the one before, from so many on.
fn rising<R: Abort>(rt: &R, kept: &[Commit], district: u64, first: u64) -> u64 {
    let mut count = 0u64;
    let mut next = first;
    for commit in kept {
        let Some((its_district, amount)) = paid(commit) else {
            panic!(rt; "a payment")
        };
        if its_district == district {
            assert!(rt; amount == next && amount < TURNS + 100);
            next = amount + 2;
            count = count.wrapping_add(1);
        }
    }
    count
}

/// A kept list has each client's payments, in its order.
fn has_all<R: Abort>(rt: &R, kept: &[Commit], first: u64) {
    assert!(rt; kept.len() as u64 == 4 * TURNS / 2);
    for district in 1..=4 {
        assert!(rt; rising(rt, kept, district, first) == TURNS / 2);
    }
}

/// In the end the lists are what the journal has of their warehouses, and all that was paid is in them, in the purses, in
/// the books and in the rows.
fn ends<K: Loaded, R: Wait + Abort>(
    rt: &R,
    hall: &Hall<K>,
    mut pass: Pass<Commit, K>,
    purse: Purse<K>,
)
    requires { K.passes.partitions ≡ 2 }
{
    let (first, second) = (&hall.first, &hall.second);
    let (_, first_ytd) = look_at(rt, first, &hall.journal, &mut pass);
    let (_, second_ytd) = look_at(rt, second, &hall.journal, &mut pass);
    let (mut first, mut second) = (first.lock(rt), second.lock(rt));
    let journal = hall.journal.lock(rt);
    assert!(rt; journal.list.len() == 4 * TURNS);
    assert!(rt; journal.list.commits_of(1) == first.kept().len() as u64);
    assert!(rt; journal.list.commits_of(2) == second.kept().len() as u64);
    has_all(rt, first.kept(), 100);
    has_all(rt, second.kept(), 101);
    assert!(rt; first.warehouse() == 1 && second.warehouse() == 2);
    let mut balance = Balance::new(purse);
    first.audit(&mut balance);
    second.audit(&mut balance);
    assert!(rt; balance.purses() == balance.books());
    assert!(rt; balance.books().commits == 4 * TURNS && balance.books().cents == 4 * PAID);
    assert!(rt; first_ytd.wrapping_add(second_ytd) == 2 * LOADED + 4 * PAID as i64);
}

/// The partitions of both warehouses of a load.
fn both<K: Loaded, R: Abort>(
    rt: &R,
    alloc: Global,
    load: &Load,
    mut seats: Vec<PartitionSeat<Commit, K>>,
) -> (Shared<K>, Shared<K>)
    requires load { load.now ≡ K.load }
    requires warehouses { 2 ≤ length load.now.tables.warehouses }
    requires seats { seats.items ≡ new_partition 1 ∷ new_partition 2 ∷ [] }
{
    let size = Size {
        items: 1,
        frames: 1000,
        kept: 2 * TURNS,
    };
    let seat = seats.take_last();
    let second = begun::<4096, K>(alloc, load, 2, seat, size).expect(rt, "a partition");
    let seat = seats.take_last();
    let first = begun::<4096, K>(alloc, load, 1, seat, size).expect(rt, "a partition");
    (Mutex::new(first), Mutex::new(second))
}

/// One of the passes.
fn last_of<K: Loaded>(rt: &impl Abort, clients: &mut Vec<Pass<Commit, K>>) -> Pass<Commit, K> {
    let Some(pass) = clients.pop() else {
        panic!(rt; "a pass")
    };
    pass
}

fn two_threads<K: Loaded + Send + Sync, R: Threads + Wait + Abort + Sync>(
    rt: &R,
    alloc: Global,
    load: &Load,
    kit: Kit<Commit>,
)
    requires load { load.now ≡ K.load }
    requires warehouses { 2 ≤ length load.now.tables.warehouses }
    requires kit { kit ≡ K.passes }
    requires partitions { kit.partitions ≡ 2 }
{
    let (passes, journal, seats, mut clients) = kit.open::<K>().expect(rt, "passes");
    let a = last_of(rt, &mut clients);
    let b = last_of(rt, &mut clients);
    let c = last_of(rt, &mut clients);
    let d = last_of(rt, &mut clients);
    let (first, second) = both(rt, alloc, load, seats);
    let hall = Hall {
        passes: &passes,
        first,
        second,
        journal: Mutex::new(journal),
    };
    let ((a, b), (c, d)) = join(
        rt,
        || (turns(rt, &hall, a), turns(rt, &hall, b)),
        || (turns(rt, &hall, c), turns(rt, &hall, d)),
    );
    let (pass, mut purse) = a;
    for (_, other) in [b, c, d] {
        purse.merge(other);
    }
    ends(rt, &hall, pass, purse);
}

#[test]
fn two_threads_and_four_clients(rt: HostRuntime) {
    let load = generate(rt.alloc(), 2, 3, 1).expect(&rt, "a load");
    assert!(rt; load.tables().warehouses.len() == 2);
    let kit = make::<Commit>(rt.alloc(), 2, 4, 1).expect(&rt, "a kit");
    two_threads::<Brand, _>(&rt, rt.alloc(), &load, kit);
}
