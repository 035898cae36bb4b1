//! In which order jobs are done, and who gets which answer.

ghost use Rattle.std.specs.Prelude.{◌≡◌, length};

use crate::gates::{Held, waits_for, watch};
use crate::halls::{Hall, Room, TestEngine, hand_in, is_refused, paid, payment, pop};
use hy_commands::Commit;
use hy_loads::Load;
use hy_partition::Loaded;
use hy_passes::{Kit, Pass, make};
use hy_tables::generate;
use std::marker::Brand;
use std::process::Abort;
use std::sync::Wait;
use std::sync::atomic::{AtomicBool, Ordering};
use std::thread::{Threads, join};

/// Four clients pay for one customer, whose balance tells the order. The worker is held in the first payment, until the
/// others wait. The answers are asked for in another order.
fn pay_in_order<K: Loaded, R: Wait + Abort + AllocGlobal>(
    rt: &R,
    engine: &TestEngine<K>,
    mut clients: Vec<Pass<Commit, K>>,
) {
    let first = pop(rt, &mut clients);
    let second = pop(rt, &mut clients);
    let third = pop(rt, &mut clients);
    let fourth = pop(rt, &mut clients);
    let (one, two) = (first.client(), second.client());
    let (three, four) = (third.client(), fourth.client());
    hand_in(rt, engine, payment(1, 1, 100), first);
    assert!(rt; waits_for(&engine.gate().reached));
    hand_in(rt, engine, payment(1, 1, 200), second);
    hand_in(rt, engine, payment(1, 1, 400), third);
    hand_in(rt, engine, payment(1, 1, 800), fourth);
    engine.gate().opened.store(true, Ordering::SeqCst);
    paid(rt, engine, four, -2500);
    paid(rt, engine, two, -1300);
    paid(rt, engine, three, -1700);
    paid(rt, engine, one, -1100);
    engine.close(rt);
}

/// A worker, and who pays.
fn run_in_order<K: Loaded + Send + Sync, R: Threads + Wait + Abort + AllocGlobal + Sync>(
    rt: &R,
    engine: &TestEngine<K>,
    clients: Vec<Pass<Commit, K>>,
    ended: &AtomicBool,
) {
    join(
        rt,
        || engine.work(rt, 1),
        || pay_in_order(rt, engine, clients),
    );
    ended.store(true, Ordering::SeqCst);
}

fn in_order<K: Loaded + Send + Sync, R: Threads + Wait + Abort + AllocGlobal + Sync>(
    rt: &R,
    load: &Load,
    kit: Kit<Commit>,
)
    requires load { load.now ≡ K.load }
    requires kit { kit ≡ K.passes }
    requires partitions { kit.partitions ≡ length load.now.tables.warehouses }
    requires clients { kit.clients ≡ 4 }
{
    let room = Room {
        clients: 4,
        capacity: 3,
    };
    let Hall {
        engine,
        passes: _,
        clients,
    } = Hall::<K>::new(rt, load, kit, room, Held::before(1));
    let ended = AtomicBool::new(false);
    join(
        rt,
        || watch(rt, &ended),
        || run_in_order(rt, &engine, clients, &ended),
    );
    assert!(rt; !engine.gate().too_long.load(Ordering::SeqCst));
    assert!(rt; engine.gate().answers[0].load(Ordering::SeqCst) == 4);
}

#[test]
fn jobs_are_done_in_their_order(rt: HostRuntime) {
    let load = generate(rt.alloc(), 2, 3, 20).expect(&rt, "a load");
    assert!(&rt; load.tables().warehouses.len() == 2);
    let kit = make::<Commit>(rt.alloc(), 2, 4, 1).expect(&rt, "a kit");
    in_order::<Brand, HostRuntime>(&rt, &load, kit);
}

/// Jobs are handed in where no worker is, one of them with too small an amount. The engine is closed, and then its workers
/// come: they do all that waits, and return.
fn work_after_close<K: Loaded, R: Wait + Abort + AllocGlobal>(
    rt: &R,
    engine: &TestEngine<K>,
    mut clients: Vec<Pass<Commit, K>>,
    ended: &AtomicBool,
) {
    let first = pop(rt, &mut clients);
    let second = pop(rt, &mut clients);
    let third = pop(rt, &mut clients);
    let fourth = pop(rt, &mut clients);
    let (one, two) = (first.client(), second.client());
    let (three, four) = (third.client(), fourth.client());
    hand_in(rt, engine, payment(1, 1, 100), first);
    hand_in(rt, engine, payment(1, 1, 99), second);
    hand_in(rt, engine, payment(1, 1, 400), third);
    hand_in(rt, engine, payment(2, 2, 800), fourth);
    engine.close(rt);
    engine.work(rt, 2);
    engine.work(rt, 1);
    let answers = &engine.gate().answers;
    assert!(rt; answers[0].load(Ordering::SeqCst) == 3 && answers[1].load(Ordering::SeqCst) == 1);
    paid(rt, engine, three, -1500);
    paid(rt, engine, four, -1800);
    paid(rt, engine, one, -1100);
    is_refused(rt, engine, two);
    ended.store(true, Ordering::SeqCst);
}

fn after_close<K: Loaded + Send + Sync, R: Threads + Wait + Abort + AllocGlobal + Sync>(
    rt: &R,
    load: &Load,
    kit: Kit<Commit>,
)
    requires load { load.now ≡ K.load }
    requires kit { kit ≡ K.passes }
    requires partitions { kit.partitions ≡ length load.now.tables.warehouses }
    requires clients { kit.clients ≡ 4 }
{
    let room = Room {
        clients: 4,
        capacity: 3,
    };
    let Hall {
        engine,
        passes: _,
        clients,
    } = Hall::<K>::new(rt, load, kit, room, Held::never());
    let ended = AtomicBool::new(false);
    join(
        rt,
        || watch(rt, &ended),
        || work_after_close(rt, &engine, clients, &ended),
    );
}

#[test]
fn what_waits_is_done_after_the_close(rt: HostRuntime) {
    let load = generate(rt.alloc(), 2, 3, 20).expect(&rt, "a load");
    assert!(&rt; load.tables().warehouses.len() == 2);
    let kit = make::<Commit>(rt.alloc(), 2, 4, 1).expect(&rt, "a kit");
    after_close::<Brand, HostRuntime>(&rt, &load, kit);
}
