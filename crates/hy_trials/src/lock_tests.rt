//! What is done with all partitions by who holds all of their locks.

ghost use Rattle.std.specs.Prelude.{◌≡◌, [], length};

use crate::commands::payment_by;
use crate::halls::TakenAll;
use hy_commands::{Commit, Reply};
use hy_crossing::{Held, partitions_of};
use hy_forks::Partitions;
use hy_loads::Load;
use hy_partition::{Job, Loaded, Partition};
use hy_passes::{Cursor, Journal, Kit, Pass, make};
use hy_tables::generate;
use std::marker::{Brand, PhantomData};
use std::process::Abort;
use std::sync::{Mutex, MutexGuard, Wait};

type Lock<K> = Mutex<Partition<4096, K>>;

type HeldLocks<'a, K> = Held<MutexGuard<'a, Partition<4096, K>>>;

type HeldPartitions<'a, K> = Partitions<4096, K, HeldLocks<'a, K>>;

/// A lock for each partition.
fn locks_of<K: Loaded, R: Abort + AllocGlobal>(
    rt: &R,
    parts: Vec<Partition<4096, K>>,
) -> Vec<Lock<K>> {
    let mut locks = Vec::new(rt.alloc());
    for part in parts {
        locks.push(Mutex::new(part)).expect(rt, "a place");
    }
    locks
}

/// All locks, taken in rising order of warehouse.
fn all_held<'a, K: Loaded, R: Wait + Abort>(rt: &R, locks: &'a [Lock<K>]) -> HeldLocks<'a, K> {
    let mut held = Held::new();
    for lock in locks {
        assert!(rt; held.len() < 16);
        held.push(lock.lock(rt));
    }
    held
}

/// The locks of the first two warehouses, taken in falling order.
fn held_in_falling_order<'a, K: Loaded, R: Wait + Abort>(
    rt: &R,
    locks: &'a [Lock<K>],
) -> HeldLocks<'a, K> {
    assert!(rt; locks.len() >= 2);
    let mut held = Held::new();
    held.push(locks[1].lock(rt));
    held.push(locks[0].lock(rt));
    held
}

/// The warehouses whose locks are held, if they are those of the load.
fn found<'a, K: Loaded>(held: HeldLocks<'a, K>) -> Option<HeldPartitions<'a, K>> {
    Partitions::found(held).ok()
}

/// Pays across two warehouses, takes a snapshot of all and gives it back, and drains; each time with all locks.
fn pay_and_look<K: Loaded, R: Wait + Abort + AllocGlobal>(
    rt: &R,
    locks: &[Lock<K>],
    journal: &Mutex<Journal<Commit, K>>,
    pass: Pass<Commit, K>,
    mut cursor: Cursor<Commit, K>,
) {
    let mut partitions = found(all_held(rt, locks)).expect(rt, "the partitions of the load");
    let mut journal = journal.lock(rt);
    let command = payment_by(2);
    assert!(rt; command.is_crossing());
    let done = partitions.cross(&mut journal, Job::new(command, pass));
    let (reply, mut pass, _share) = done.open();
    assert!(rt;
        matches!(
            reply,
            Reply::Payment {
                customer: 1,
                balance: -1100
            }
        )
    );
    let all = partitions
        .fork_all(rt.alloc(), &mut journal, &mut pass)
        .expect(rt, "a snapshot");
    let taken = TakenAll::<K> {
        all,
        of: PhantomData,
    };
    for place in 0..taken.all.len() {
        let kept = if place < 2 { 1 } else { 0 };
        assert!(rt; taken.all.part(place).commits() == kept);
    }
    let TakenAll { all, of: _ } = taken;
    match partitions.close_all(all) {
        Ok(()) => {}
        Err(_) => panic!(rt; "a snapshot of other partitions"),
    }
    let batch = partitions
        .drain(rt.alloc(), &mut journal, &mut cursor)
        .expect(rt, "a batch");
    assert!(rt; batch.len() == 3 && batch.list(0).len() == 1 && batch.list(2).is_empty());
    partitions.find_history(&mut journal);
}

/// Locks of some of the partitions aren't those of all.
fn are_told_apart<K: Loaded, R: Wait + Abort>(rt: &R, locks: &[Lock<K>]) {
    assert!(rt; locks.len() == 3);
    assert!(rt; found(all_held(rt, &locks[..0])).is_none());
    assert!(rt; found(all_held(rt, &locks[..2])).is_none());
    assert!(rt; found(all_held(rt, &locks[1..])).is_none());
}

/// Nor are they in another order.
fn are_in_order<K: Loaded, R: Wait + Abort>(rt: &R, locks: &[Lock<K>]) {
    let mut turned = held_in_falling_order(rt, locks);
    assert!(rt; locks.len() == 3 && turned.len() == 2);
    turned.push(locks[2].lock(rt));
    assert!(rt; found(turned).is_none());
    assert!(rt; found(all_held(rt, locks)).is_some());
}

/// The same in the world of the load and the kit.
fn run_behind_locks<K: Loaded, R: Wait + Abort + AllocGlobal>(rt: &R, load: &Load, kit: Kit<Commit>)
    requires load { load.now ≡ K.load }
    requires kit { kit ≡ K.passes }
    requires partitions { kit.partitions ≡ length load.now.tables.warehouses }
    requires new { kit.replayed ≡ [] }
{
    let (_passes, mut journal, seats, mut clients) = kit.open::<K>().expect(rt, "passes");
    let (Some(pass), Some(place)) = (clients.pop(), clients.pop()) else {
        panic!(rt; "two clients")
    };
    let cursor = Cursor::new(rt.alloc(), place, &mut journal).expect(rt, "a place");
    let parts = partitions_of(rt.alloc(), load, seats, 2000, 100).expect(rt, "partitions");
    let locks = locks_of(rt, parts);
    let journal = Mutex::new(journal);
    are_told_apart(rt, &locks);
    are_in_order(rt, &locks);
    pay_and_look(rt, &locks, &journal, pass, cursor);
}

#[test]
fn whoever_holds_all_locks(rt: HostRuntime) {
    let load = generate(rt.alloc(), 3, 3, 20).expect(&rt, "a load");
    assert!(&rt; load.tables().warehouses.len() == 3);
    let kit = make::<Commit>(rt.alloc(), 3, 2, 1).expect(&rt, "a kit");
    run_behind_locks::<Brand, HostRuntime>(&rt, &load, kit);
}
