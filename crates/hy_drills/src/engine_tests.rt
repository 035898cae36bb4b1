//! Jobs on their way through the engine, on real threads.

ghost use Rattle.std.specs.Prelude.{◌≡◌, length};

use crate::gates::{Held, waits_for, watch};
use crate::halls::{Hall, Room, TestEngine, comes_back, hand_in, is_refused, paid, payment, pop};
use hy_commands::Commit;
use hy_loads::Load;
use hy_partition::Loaded;
use hy_passes::{Kit, Pass, Passes, make};
use hy_schema::Refusal;
use hy_tables::generate;
use std::marker::Brand;
use std::process::Abort;
use std::sync::Wait;
use std::sync::atomic::{AtomicBool, Ordering};
use std::thread::{Threads, join};

/// A payment in warehouse 2, handed in and answered while the one in warehouse 1 is held before its second slice.
fn pay_while_held<K: Loaded, R: Wait + Abort + AllocGlobal>(
    rt: &R,
    engine: &TestEngine<K>,
    first: Pass<Commit, K>,
    second: Pass<Commit, K>,
) {
    let (one, other) = (first.client(), second.client());
    hand_in(rt, engine, payment(1, 1, 100), first);
    assert!(rt; waits_for(&engine.gate().reached));
    hand_in(rt, engine, payment(2, 2, 200), second);
    paid(rt, engine, other, -1200);
    let gate = engine.gate();
    assert!(rt; gate.answers[0].load(Ordering::SeqCst) == 0);
    gate.opened.store(true, Ordering::SeqCst);
    paid(rt, engine, one, -1100);
    engine.close(rt);
}

/// Two workers, and the clients of the two payments.
fn run_two<K: Loaded + Send + Sync, R: Threads + Wait + Abort + AllocGlobal + Sync>(
    rt: &R,
    engine: &TestEngine<K>,
    first: Pass<Commit, K>,
    second: Pass<Commit, K>,
    ended: &AtomicBool,
) {
    join(
        rt,
        || {
            join(rt, || engine.work(rt, 1), || engine.work(rt, 2));
        },
        || pay_while_held(rt, engine, first, second),
    );
    ended.store(true, Ordering::SeqCst);
}

fn two_warehouses<K: Loaded + Send + Sync, R: Threads + Wait + Abort + AllocGlobal + Sync>(
    rt: &R,
    load: &Load,
    kit: Kit<Commit>,
)
    requires load { load.now ≡ K.load }
    requires kit { kit ≡ K.passes }
    requires partitions { kit.partitions ≡ length load.now.tables.warehouses }
    requires clients { kit.clients ≡ 2 }
{
    let room = Room {
        clients: 2,
        capacity: 64,
    };
    let Hall {
        engine,
        passes: _,
        mut clients,
    } = Hall::<K>::new(rt, load, kit, room, Held::before(2));
    let first = pop(rt, &mut clients);
    let second = pop(rt, &mut clients);
    let ended = AtomicBool::new(false);
    join(
        rt,
        || watch(rt, &ended),
        || run_two(rt, &engine, first, second, &ended),
    );
    assert!(rt; !engine.gate().too_long.load(Ordering::SeqCst));
    assert!(rt; engine.gate().answers[0].load(Ordering::SeqCst) == 1);
    assert!(rt; engine.gate().answers[1].load(Ordering::SeqCst) == 1);
    let (parts, journal) = engine.finish();
    assert!(rt; journal.list.len() == 2 && parts.len() == 2);
}

#[test]
fn gate_two_warehouses(rt: HostRuntime) {
    let load = generate(rt.alloc(), 2, 3, 20).expect(&rt, "a load");
    assert!(&rt; load.tables().warehouses.len() == 2);
    let kit = make::<Commit>(rt.alloc(), 2, 2, 1).expect(&rt, "a kit");
    two_warehouses::<Brand, HostRuntime>(&rt, &load, kit);
}

/// A client takes a snapshot of all warehouses, sees the payment, and closes it.
fn sees_payment<K: Loaded, R: Wait + Abort + AllocGlobal>(
    rt: &R,
    engine: &TestEngine<K>,
    mut pass: Pass<Commit, K>,
) {
    let all = engine
        .fork_all(rt, rt.alloc(), &mut pass)
        .expect(rt, "a snapshot");
    assert!(rt; all.len() == 2);
    assert!(rt; all.part(0).commits() == 1 && all.part(1).commits() == 0);
    match engine.close_all(rt, all) {
        Ok(()) => {}
        Err(_) => panic!(rt; "a snapshot of others"),
    }
}

/// After its answer a client's own write is seen, by its pass, in a snapshot and by another client, who knew nothing.
fn read_back<K: Loaded, R: Wait + Abort + AllocGlobal>(
    rt: &R,
    engine: &TestEngine<K>,
    passes: &Passes<Commit, K>,
    first: Pass<Commit, K>,
    mut second: Pass<Commit, K>,
) {
    let client = first.client();
    hand_in(rt, engine, payment(1, 1, 100), first);
    let mut first = paid(rt, engine, client, -1100);
    assert!(rt; first.known() == 1);
    assert!(rt; passes.kept_now(&mut first) >= 1);
    assert!(rt; second.known() == 0);
    assert!(rt; passes.kept_now(&mut second) >= 1);
    sees_payment(rt, engine, first);
    sees_payment(rt, engine, second);
    engine.close(rt);
}

/// A worker, and who looks.
fn run_reader<K: Loaded + Send + Sync, R: Threads + Wait + Abort + AllocGlobal + Sync>(
    rt: &R,
    engine: &TestEngine<K>,
    passes: &Passes<Commit, K>,
    first: Pass<Commit, K>,
    second: Pass<Commit, K>,
    ended: &AtomicBool,
) {
    join(
        rt,
        || engine.work(rt, 1),
        || read_back(rt, engine, passes, first, second),
    );
    ended.store(true, Ordering::SeqCst);
}

fn reads<K: Loaded + Send + Sync, R: Threads + Wait + Abort + AllocGlobal + Sync>(
    rt: &R,
    load: &Load,
    kit: Kit<Commit>,
)
    requires load { load.now ≡ K.load }
    requires kit { kit ≡ K.passes }
    requires partitions { kit.partitions ≡ length load.now.tables.warehouses }
    requires clients { kit.clients ≡ 2 }
{
    let room = Room {
        clients: 2,
        capacity: 1,
    };
    let Hall {
        engine,
        passes,
        mut clients,
    } = Hall::<K>::new(rt, load, kit, room, Held::never());
    let first = pop(rt, &mut clients);
    let second = pop(rt, &mut clients);
    let passes: &Passes<Commit, K> = &passes;
    let ended = AtomicBool::new(false);
    join(
        rt,
        || watch(rt, &ended),
        || run_reader(rt, &engine, passes, first, second, &ended),
    );
}

#[test]
fn reads_its_write(rt: HostRuntime) {
    let load = generate(rt.alloc(), 2, 3, 20).expect(&rt, "a load");
    assert!(&rt; load.tables().warehouses.len() == 2);
    let kit = make::<Commit>(rt.alloc(), 2, 2, 1).expect(&rt, "a kit");
    reads::<Brand, HostRuntime>(&rt, &load, kit);
}

/// A payment of 99 cents is answered with its refusal, and the pass serves the next job.
fn pay_too_little<K: Loaded, R: Wait + Abort + AllocGlobal>(
    rt: &R,
    engine: &TestEngine<K>,
    pass: Pass<Commit, K>,
) {
    let client = pass.client();
    hand_in(rt, engine, payment(1, 1, 99), pass);
    let pass = is_refused(rt, engine, client);
    hand_in(rt, engine, payment(1, 2, 99), pass);
    let pass = is_refused(rt, engine, client);
    hand_in(rt, engine, payment(1, 2, 100), pass);
    let pass = paid(rt, engine, client, -1100);
    comes_back(
        rt,
        engine,
        payment(3, 3, 100),
        pass,
        Refusal::NoSuchWarehouse,
    );
    engine.close(rt);
}

/// A worker, and who pays too little.
fn run_refused<K: Loaded + Send + Sync, R: Threads + Wait + Abort + AllocGlobal + Sync>(
    rt: &R,
    engine: &TestEngine<K>,
    pass: Pass<Commit, K>,
    ended: &AtomicBool,
) {
    join(
        rt,
        || engine.work(rt, 1),
        || pay_too_little(rt, engine, pass),
    );
    ended.store(true, Ordering::SeqCst);
}

fn refuses<K: Loaded + Send + Sync, R: Threads + Wait + Abort + AllocGlobal + Sync>(
    rt: &R,
    load: &Load,
    kit: Kit<Commit>,
)
    requires load { load.now ≡ K.load }
    requires kit { kit ≡ K.passes }
    requires partitions { kit.partitions ≡ length load.now.tables.warehouses }
    requires clients { kit.clients ≡ 2 }
{
    let room = Room {
        clients: 2,
        capacity: 1,
    };
    let Hall {
        engine,
        passes: _,
        mut clients,
    } = Hall::<K>::new(rt, load, kit, room, Held::never());
    let pass = pop(rt, &mut clients);
    let ended = AtomicBool::new(false);
    join(
        rt,
        || watch(rt, &ended),
        || run_refused(rt, &engine, pass, &ended),
    );
}

#[test]
fn refused_is_answered(rt: HostRuntime) {
    let load = generate(rt.alloc(), 2, 3, 20).expect(&rt, "a load");
    assert!(&rt; load.tables().warehouses.len() == 2);
    let kit = make::<Commit>(rt.alloc(), 2, 2, 1).expect(&rt, "a kit");
    refuses::<Brand, HostRuntime>(&rt, &load, kit);
}

/// The worker is held in its first job: a second one is taken, a third comes back, and a fourth behind the close.
fn fill_and_close<K: Loaded, R: Wait + Abort + AllocGlobal>(
    rt: &R,
    engine: &TestEngine<K>,
    mut clients: Vec<Pass<Commit, K>>,
) {
    let first = pop(rt, &mut clients);
    let second = pop(rt, &mut clients);
    let third = pop(rt, &mut clients);
    let (one, other) = (first.client(), second.client());
    hand_in(rt, engine, payment(1, 1, 100), first);
    assert!(rt; waits_for(&engine.gate().reached));
    hand_in(rt, engine, payment(1, 1, 100), second);
    let third = comes_back(rt, engine, payment(1, 1, 100), third, Refusal::QueueFull);
    engine.close(rt);
    comes_back(rt, engine, payment(1, 1, 100), third, Refusal::Closed);
    engine.gate().opened.store(true, Ordering::SeqCst);
    paid(rt, engine, one, -1100);
    paid(rt, engine, other, -1200);
}

/// A worker, and who fills its queue.
fn run_full<K: Loaded + Send + Sync, R: Threads + Wait + Abort + AllocGlobal + Sync>(
    rt: &R,
    engine: &TestEngine<K>,
    clients: Vec<Pass<Commit, K>>,
    ended: &AtomicBool,
) {
    join(
        rt,
        || engine.work(rt, 1),
        || fill_and_close(rt, engine, clients),
    );
    ended.store(true, Ordering::SeqCst);
}

fn fills<K: Loaded + Send + Sync, R: Threads + Wait + Abort + AllocGlobal + Sync>(
    rt: &R,
    load: &Load,
    kit: Kit<Commit>,
)
    requires load { load.now ≡ K.load }
    requires kit { kit ≡ K.passes }
    requires partitions { kit.partitions ≡ length load.now.tables.warehouses }
    requires clients { kit.clients ≡ 3 }
{
    let room = Room {
        clients: 3,
        capacity: 1,
    };
    let Hall {
        engine,
        passes: _,
        clients,
    } = Hall::<K>::new(rt, load, kit, room, Held::before(1));
    let ended = AtomicBool::new(false);
    join(
        rt,
        || watch(rt, &ended),
        || run_full(rt, &engine, clients, &ended),
    );
    assert!(rt; !engine.gate().too_long.load(Ordering::SeqCst));
    assert!(rt; engine.gate().answers[0].load(Ordering::SeqCst) == 2);
}

#[test]
fn full_and_closed(rt: HostRuntime) {
    let load = generate(rt.alloc(), 2, 3, 20).expect(&rt, "a load");
    assert!(&rt; load.tables().warehouses.len() == 2);
    let kit = make::<Commit>(rt.alloc(), 2, 3, 1).expect(&rt, "a kit");
    fills::<Brand, HostRuntime>(&rt, &load, kit);
}
