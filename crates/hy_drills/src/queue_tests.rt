//! As many jobs in one queue as there can be clients.

ghost use Rattle.std.specs.Prelude.{◌≡◌, length};

use crate::gates::{Held, watch};
use crate::halls::{Hall, Room, TestEngine, comes_back, hand_in, is_refused, payment, pop};
use hy_commands::Commit;
use hy_loads::Load;
use hy_partition::Loaded;
use hy_passes::{Kit, Pass, make};
use hy_schema::Refusal;
use hy_tables::generate;
use std::marker::Brand;
use std::process::Abort;
use std::sync::Wait;
use std::sync::atomic::{AtomicBool, Ordering};
use std::thread::{Threads, join};

/// How many clients a kit has at most.
const CLIENTS: u32 = 1024;

/// All clients but one hand in a payment that is too small, for one warehouse, whose queue has no place for the last one.
/// The worker comes once the engine is closed: each is answered.
fn fill_queue<K: Loaded, R: Wait + Abort + AllocGlobal>(
    rt: &R,
    engine: &TestEngine<K>,
    mut clients: Vec<Pass<Commit, K>>,
    ended: &AtomicBool,
) {
    let last = pop(rt, &mut clients);
    for _ in 1..CLIENTS {
        let pass = pop(rt, &mut clients);
        hand_in(rt, engine, payment(1, 1, 99), pass);
    }
    let last = comes_back(rt, engine, payment(1, 1, 99), last, Refusal::QueueFull);
    assert!(rt; last.client() == CLIENTS - 1);
    engine.close(rt);
    engine.work(rt, 1);
    engine.work(rt, 2);
    for client in 0..CLIENTS - 1 {
        is_refused(rt, engine, client);
    }
    ended.store(true, Ordering::SeqCst);
}

fn fills<K: Loaded + Send + Sync, R: Threads + Wait + Abort + AllocGlobal + Sync>(
    rt: &R,
    load: &Load,
    kit: Kit<Commit>,
)
    requires load { load.now ≡ K.load }
    requires kit { kit ≡ K.passes }
    requires partitions { kit.partitions ≡ length load.now.tables.warehouses }
    requires clients { kit.clients ≡ 1024 }
{
    let room = Room {
        clients: CLIENTS,
        capacity: CLIENTS as usize - 1,
    };
    let Hall {
        engine,
        passes: _,
        clients,
    } = Hall::<K>::new(rt, load, kit, room, Held::never());
    let ended = AtomicBool::new(false);
    join(
        rt,
        || watch(rt, &ended),
        || fill_queue(rt, &engine, clients, &ended),
    );
    let (parts, journal) = engine.finish();
    assert!(rt; journal.list.len() == 0 && parts.len() == 2);
}

#[test]
fn jobs_of_all_clients_but_one_wait(rt: HostRuntime) {
    let load = generate(rt.alloc(), 2, 3, 20).expect(&rt, "a load");
    assert!(&rt; load.tables().warehouses.len() == 2);
    let kit = make::<Commit>(rt.alloc(), 2, CLIENTS, 1).expect(&rt, "a kit");
    fills::<Brand, HostRuntime>(&rt, &load, kit);
}
