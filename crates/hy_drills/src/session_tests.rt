//! A session that forks its snapshot, and passes the fork on to another thread.

ghost use Rattle.std.specs.Prelude.{◌≡◌, length};
ghost use Rattle.std.proofs.Props.{props};
ghost use Rattle.hy_forks.specs.Forks.{AreOfKit};

use crate::gates::{Held, watch};
use crate::halls::{Hall, Room, TestEngine, hand_in, paid, payment, pop};
use hy_commands::Commit;
use hy_loads::Load;
use hy_partition::Loaded;
use hy_passes::{Kit, Pass, make};
use hy_storm::hy_session::Session;
use hy_tables::generate;
use std::marker::{Brand, PhantomData};
use std::process::Abort;
use std::sync::atomic::{AtomicBool, Ordering};
use std::sync::{Mutex, Wait};
use std::thread::{Threads, join};

/// A session over all warehouses of this world.
struct Opened<K: Loaded> {
    session: Session<4096>,
    of: PhantomData<K>,
    ghost own: { AreOfKit K.passes session } by { Prim.hlevel props },
}

fn session_with<K: Loaded>(session: Session<4096>) -> Opened<K>
    requires { AreOfKit K.passes session }
{
    Opened {
        session,
        of: PhantomData,
    }
}

/// A session that this one forks, under the locks of the engine.
fn forked<K: Loaded, R: Wait + Abort + AllocGlobal>(
    rt: &R,
    engine: &TestEngine<K>,
    first: &Opened<K>,
) -> Opened<K> {
    let mut held = engine.hold(rt).expect(rt, "all partitions");
    match first.session.fork(rt.alloc(), &mut held) {
        Ok(again) => session_with(again),
        Err(_) => panic!(rt; "another session"),
    }
}

/// Takes one of the sessions: it has the load and meets the conditions. Then it is closed.
fn look_and_close<K: Loaded, R: Wait + Abort + AllocGlobal>(
    rt: &R,
    engine: &TestEngine<K>,
    sessions: &Mutex<Vec<Opened<K>>>,
) {
    let Some(Opened { session, of: _ }) = sessions.lock(rt).pop() else {
        panic!(rt; "a session")
    };
    let broken = session.check_conditions(rt.alloc());
    let report = session.report(rt.alloc());
    let mut held = engine.hold(rt).expect(rt, "all partitions");
    match session.close_all(&mut held) {
        Ok(()) => {}
        Err(_) => panic!(rt; "a session over others"),
    }
    assert!(rt; broken == Ok(None));
    for line in report.expect(rt, "a report").as_slice() {
        assert!(rt; line.ytd == 30_000);
    }
}

/// The same of two sessions.
fn look_twice<K: Loaded, R: Wait + Abort + AllocGlobal>(
    rt: &R,
    engine: &TestEngine<K>,
    sessions: &Mutex<Vec<Opened<K>>>,
) {
    look_and_close(rt, engine, sessions);
    look_and_close(rt, engine, sessions);
}

/// Another thread looks at the session that was passed on, and this one at its own two.
fn look_beside<K: Loaded + Send + Sync, R: Threads + Wait + Abort + AllocGlobal + Sync>(
    rt: &R,
    engine: &TestEngine<K>,
    passed: &Mutex<Vec<Opened<K>>>,
    own: &Mutex<Vec<Opened<K>>>,
) {
    join(
        rt,
        || look_and_close(rt, engine, passed),
        || look_twice(rt, engine, own),
    );
}

/// Each of the sessions was taken.
fn are_taken<K: Loaded, R: Abort>(rt: &R, sessions: Mutex<Vec<Opened<K>>>) {
    let left = sessions.into_inner();
    assert!(rt; left.is_empty());
    left.destroy_empty();
}

/// While a payment runs, the snapshot of the load is forked by the engine and by a session, which passes its fork on to
/// another thread; all are looked at and closed, each by its thread.
fn pass_on<K: Loaded + Send + Sync, R: Threads + Wait + Abort + AllocGlobal + Sync>(
    rt: &R,
    engine: &TestEngine<K>,
    mut pass: Pass<Commit, K>,
) {
    let client = pass.client();
    let all = engine
        .fork_all(rt, rt.alloc(), &mut pass)
        .expect(rt, "a snapshot");
    hand_in(rt, engine, payment(1, 1, 100), pass);
    let other = engine
        .fork_all_from(rt, rt.alloc(), &all)
        .expect(rt, "another one");
    let first = session_with(Session::new(all));
    let again = forked(rt, engine, &first);
    let mut own = Vec::with_capacity(rt.alloc(), 2).expect(rt, "places");
    own.push_reserved(first);
    own.push_reserved(session_with(Session::new(other)));
    let mut passed = Vec::with_capacity(rt.alloc(), 1).expect(rt, "a place");
    passed.push_reserved(again);
    let own = Mutex::new(own);
    let passed = Mutex::new(passed);
    look_beside(rt, engine, &passed, &own);
    are_taken(rt, own);
    are_taken(rt, passed);
    paid(rt, engine, client, -1100);
    engine.close(rt);
}

/// A worker, and who passes a session on.
fn run_pass_on<K: Loaded + Send + Sync, R: Threads + Wait + Abort + AllocGlobal + Sync>(
    rt: &R,
    engine: &TestEngine<K>,
    pass: Pass<Commit, K>,
    ended: &AtomicBool,
) {
    join(rt, || engine.work(rt, 1), || pass_on(rt, engine, pass));
    ended.store(true, Ordering::SeqCst);
}

fn passes_on<K: Loaded + Send + Sync, R: Threads + Wait + Abort + AllocGlobal + Sync>(
    rt: &R,
    load: &Load,
    kit: Kit<Commit>,
)
    requires load { load.now ≡ K.load }
    requires kit { kit ≡ K.passes }
    requires partitions { kit.partitions ≡ length load.now.tables.warehouses }
    requires clients { kit.clients ≡ 1 }
{
    let room = Room {
        clients: 1,
        capacity: 1,
    };
    let Hall {
        engine,
        passes: _,
        mut clients,
    } = Hall::<K>::new(rt, load, kit, room, Held::never());
    let pass = pop(rt, &mut clients);
    let ended = AtomicBool::new(false);
    join(
        rt,
        || watch(rt, &ended),
        || run_pass_on(rt, &engine, pass, &ended),
    );
    assert!(rt; !engine.gate().too_long.load(Ordering::SeqCst));
    let (parts, _journal) = engine.finish();
    for part in parts.as_slice() {
        assert!(rt; part.shared() == 0);
    }
}

#[test]
fn a_session_is_passed_on(rt: HostRuntime) {
    let load = generate(rt.alloc(), 2, 3, 20).expect(&rt, "a load");
    assert!(&rt; load.tables().warehouses.len() == 2);
    let kit = make::<Commit>(rt.alloc(), 2, 1, 1).expect(&rt, "a kit");
    passes_on::<Brand, HostRuntime>(&rt, &load, kit);
}
