//! Storms, and what they come to.

ghost use Rattle.std.specs.Prelude.{◌≡◌, length};

use crate::gates::Meeting;
use hy_files::MemoryLog;
use hy_redo::Log;
use hy_storm::hy_engine::{Gate, Open};
use hy_storm::{Figures, Size, storm};
use hy_tables::generate;
use std::process::Abort;
use std::sync::Wait;
use std::sync::atomic::Ordering;
use std::thread::Threads;

/// What a storm of this size comes to, on a load of so many warehouses.
fn figures<G: Gate + Drop + Send + Sync, R: Threads + Wait + Abort + AllocGlobal + Sync>(
    rt: &R,
    warehouses: u64,
    size: (u64, u64, u64),
    gate: G,
) -> Figures {
    let load = generate(rt.alloc(), warehouses, 3, 20).expect(rt, "a load");
    let (terminals, sessions, commands) = size;
    assert!(rt; (1..=64).contains(&terminals) && sessions <= 16 && commands <= 100_000);
    let size = Size {
        terminals,
        sessions,
        commands,
    };
    let (figures, _log) = storm(
        rt,
        rt.alloc(),
        &load,
        size,
        gate,
        Option::<Log<MemoryLog>>::None,
    );
    figures.expect(rt, "a storm")
}

/// The sums that are wanted of a storm.
fn wanted(commits: u64, cents: u64, rounds: u64) -> Figures {
    Figures {
        commits,
        cents,
        kept: commits,
        growth: i128::from(cents),
        rounds,
        shared: 0,
        broken: None,
        refusal: None,
    }
}

#[test]
fn ten_storms_come_to_the_same(rt: HostRuntime) {
    for _ in 0..10 {
        assert!(&rt; figures(&rt, 2, (4, 2, 10), Open) == wanted(24, 836, 6));
        assert!(&rt; figures(&rt, 2, (1, 0, 5), Open) == wanted(3, 102, 0));
        assert!(&rt; figures(&rt, 2, (1, 0, 0), Open) == wanted(0, 0, 0));
    }
}

#[test]
fn storm_two_workers(rt: HostRuntime) {
    let meeting = Meeting::new(rt.alloc()).expect(&rt, "a meeting");
    let shared = meeting.share().expect(&rt, "a share");
    assert!(&rt; figures(&rt, 2, (2, 0, 10), shared) == wanted(12, 418, 0));
    assert!(&rt; !meeting.too_long());
    assert!(&rt; meeting.answers(0) == 8 && meeting.answers(1) == 8);
}

#[test]
fn one_warehouse_is_its_own_other(rt: HostRuntime) {
    assert!(&rt; figures(&rt, 1, (4, 1, 10), Open) == wanted(24, 836, 3));
}

#[test]
fn sixty_four_terminals(rt: HostRuntime) {
    assert!(&rt; figures(&rt, 4, (64, 16, 2000), Open) == wanted(76_800, 28_147_200, 48));
}
