//! Which jobs an engine takes, and why others come back.

ghost use Rattle.std.specs.Prelude.{◌≡◌, length};

use crate::gates::{Held, watch};
use crate::halls::{Hall, Room, TestEngine, comes_back, hand_in, paid, payment, pop};
use hy_commands::Commit;
use hy_loads::Load;
use hy_partition::Loaded;
use hy_passes::{Kit, Pass, make};
use hy_schema::Refusal;
use hy_tables::generate;
use std::marker::Brand;
use std::process::Abort;
use std::sync::Wait;
use std::sync::atomic::{AtomicBool, Ordering};
use std::thread::{Threads, join};

/// Each kind of job comes back for the same reason: one of one warehouse, one of two, and two of a home that isn't there.
fn all_come_back<K: Loaded, R: Wait + Abort + AllocGlobal>(
    rt: &R,
    engine: &TestEngine<K>,
    pass: Pass<Commit, K>,
    wanted: Refusal,
) -> Pass<Commit, K> {
    let pass = comes_back(rt, engine, payment(1, 1, 100), pass, wanted);
    let pass = comes_back(rt, engine, payment(2, 1, 100), pass, wanted);
    let pass = comes_back(rt, engine, payment(3, 3, 100), pass, wanted);
    comes_back(rt, engine, payment(0, 1, 100), pass, wanted)
}

/// An open engine takes the jobs whose homes are there, and no others. Closed it takes none, and does the one that waits.
fn close_between<K: Loaded, R: Wait + Abort + AllocGlobal>(
    rt: &R,
    engine: &TestEngine<K>,
    mut clients: Vec<Pass<Commit, K>>,
    ended: &AtomicBool,
) {
    let second = pop(rt, &mut clients);
    let first = pop(rt, &mut clients);
    let (one, two) = (first.client(), second.client());
    assert!(rt; one == 0 && two == 1);
    let first = comes_back(
        rt,
        engine,
        payment(3, 3, 100),
        first,
        Refusal::NoSuchWarehouse,
    );
    let first = comes_back(
        rt,
        engine,
        payment(0, 1, 100),
        first,
        Refusal::NoSuchWarehouse,
    );
    hand_in(rt, engine, payment(2, 1, 100), first);
    hand_in(rt, engine, payment(1, 1, 200), second);
    let first = paid(rt, engine, one, -1100);
    engine.close(rt);
    all_come_back(rt, engine, first, Refusal::Closed);
    engine.work(rt, 0);
    engine.work(rt, 1);
    engine.work(rt, 2);
    engine.work(rt, 3);
    paid(rt, engine, two, -1300);
    ended.store(true, Ordering::SeqCst);
}

fn closes<K: Loaded + Send + Sync, R: Threads + Wait + Abort + AllocGlobal + Sync>(
    rt: &R,
    load: &Load,
    kit: Kit<Commit>,
)
    requires load { load.now ≡ K.load }
    requires kit { kit ≡ K.passes }
    requires partitions { kit.partitions ≡ length load.now.tables.warehouses }
    requires clients { kit.clients ≡ 2 }
{
    let room = Room {
        clients: 2,
        capacity: 1,
    };
    let Hall {
        engine,
        passes: _,
        clients,
    } = Hall::<K>::new(rt, load, kit, room, Held::never());
    let ended = AtomicBool::new(false);
    join(
        rt,
        || watch(rt, &ended),
        || close_between(rt, &engine, clients, &ended),
    );
    let (parts, journal) = engine.finish();
    assert!(rt; journal.list.len() == 2 && parts.len() == 2);
}

#[test]
fn jobs_that_come_back(rt: HostRuntime) {
    let load = generate(rt.alloc(), 2, 3, 20).expect(&rt, "a load");
    assert!(&rt; load.tables().warehouses.len() == 2);
    let kit = make::<Commit>(rt.alloc(), 2, 2, 1).expect(&rt, "a kit");
    closes::<Brand, HostRuntime>(&rt, &load, kit);
}
