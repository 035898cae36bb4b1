//! Snapshots that an engine is given which aren't its own.

ghost use Rattle.std.specs.Prelude.{◌≡◌, IsTrue, length};
ghost use Rattle.hy_forks.specs.Forks.{AreOfKit};

use crate::gates::Held;
use crate::halls::{Hall, Room, TestEngine, pop};
use hy_commands::Commit;
use hy_forks::SnapshotAll;
use hy_loads::Load;
use hy_partition::Loaded;
use hy_passes::{Kit, Pass, Passes, make};
use hy_schema::Refusal;
use hy_tables::generate;
use std::marker::Brand;
use std::process::Abort;
use std::sync::Wait;

/// How large the engines are.
const ROOM: Room = Room {
    clients: 1,
    capacity: 1,
};

/// Whether no part of a snapshot has the name of a kit.
fn has_another_name<K: Loaded>(passes: &Passes<Commit, K>, all: &SnapshotAll<4096>) -> bool
    ensures { IsTrue result → AreOfKit K.passes all.now }
{
    for place in 0..all.len() {
        if all.part(place).name() == passes.name() {
            return false;
        }
    }
    true
}

/// A snapshot of one engine comes back from another one with E11, and its own engine takes it.
fn comes_back<K: Loaded, L: Loaded, R: Wait + Abort + AllocGlobal>(
    rt: &R,
    own: &TestEngine<K>,
    mut pass: Pass<Commit, K>,
    other: &TestEngine<L>,
    others: &Passes<Commit, L>,
) {
    let all = own
        .fork_all(rt, rt.alloc(), &mut pass)
        .expect(rt, "a snapshot");
    assert!(rt; has_another_name(others, &all));
    let Err((all, refusal)) = other.close_all(rt, all) else {
        panic!(rt; "another engine's snapshot was closed")
    };
    assert!(rt; refusal == Refusal::NotMine && all.len() == 2);
    match own.close_all(rt, all) {
        Ok(()) => {}
        Err(_) => panic!(rt; "its own snapshot"),
    }
}

/// Two engines in worlds of their own, by kits with different names.
fn strangers<K: Loaded, L: Loaded, R: Wait + Abort + AllocGlobal>(
    rt: &R,
    load: &Load,
    kit: Kit<Commit>,
    other: Kit<Commit>,
)
    requires load { load.now ≡ K.load }
    requires other_load { load.now ≡ L.load }
    requires kit { kit ≡ K.passes }
    requires other { other ≡ L.passes }
    requires partitions { kit.partitions ≡ length load.now.tables.warehouses }
    requires clients { (kit.clients ≡ 1) × (other.clients ≡ 1) }
    requires other_partitions { other.partitions ≡ length load.now.tables.warehouses }
{
    let Hall {
        engine,
        passes: _,
        mut clients,
    } = Hall::<K>::new(rt, load, kit, ROOM, Held::never());
    let Hall {
        engine: stranger,
        passes: others,
        clients: _,
    } = Hall::<L>::new(rt, load, other, ROOM, Held::never());
    let pass = pop(rt, &mut clients);
    comes_back(rt, &engine, pass, &stranger, &others);
    let (parts, _journal) = engine.finish();
    for part in parts.as_slice() {
        assert!(rt; part.shared() == 0);
    }
}

#[test]
fn a_snapshot_of_another_engine_comes_back(rt: HostRuntime) {
    let load = generate(rt.alloc(), 2, 3, 20).expect(&rt, "a load");
    assert!(&rt; load.tables().warehouses.len() == 2);
    let kit = make::<Commit>(rt.alloc(), 2, 1, 1).expect(&rt, "a kit");
    let other = make::<Commit>(rt.alloc(), 2, 1, 2).expect(&rt, "a kit");
    strangers::<Brand, Brand, _>(&rt, &load, kit, other);
}
