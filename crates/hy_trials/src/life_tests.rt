//! Lives of a log, one behind another.

use crate::commands::payment_by;
use crate::lives::{LOG, Life, Numbers, live, stop};
use hy_batches::{Text, write_lists};
use hy_commands::{Commit, Edition};
use hy_files::{FileSystem, MemoryFiles};
use hy_tables::generate;
use std::process::Abort;

/// A life on a generated load of two warehouses.
fn live_once<R: Abort + AllocGlobal>(
    rt: &R,
    files: &mut MemoryFiles,
    numbers: &mut Numbers,
    least: u64,
) -> Life {
    let load = generate(rt.alloc(), 2, 3, 20).expect(rt, "a load");
    live(rt, &load, files, numbers, least)
}

/// Five lives behind what stands in the log, each of which is stopped, and one more, which is not.
fn live_on<R: Abort + AllocGlobal>(
    rt: &R,
    files: &mut MemoryFiles,
    numbers: &mut Numbers,
    first: u64,
) {
    let mut least = first;
    for _ in 0..5 {
        let life = live_once(rt, files, numbers, least);
        least = stop(rt, files, &life, numbers);
    }
    let life = live_once(rt, files, numbers, least);
    assert!(rt; least <= life.before);
}

/// Writes a batch of the first edition for two warehouses, the first of which has so many payments of 1.00.
fn write_old<R: Abort + AllocGlobal>(rt: &R, text: &mut Text, payments: u64) {
    let mut first = Vec::new(rt.alloc());
    for _ in 0..payments {
        first
            .push(Commit::Local(Edition::First, payment_by(1)))
            .expect(rt, "a commit");
    }
    let mut lists = Vec::new(rt.alloc());
    lists.push(first).expect(rt, "a list");
    lists.push(Vec::new(rt.alloc())).expect(rt, "a list");
    write_lists(text, Edition::First, &lists);
}

/// Files with a log of these first bytes of a text, all where there are fewer.
fn files_with<R: Abort + AllocGlobal>(rt: &R, text: &Text, size: usize) -> MemoryFiles {
    let mut files = MemoryFiles::new(rt.alloc());
    let bytes = text.bytes().expect(rt, "memory lasts");
    let left = match bytes.get(..size) {
        Some(left) => left,
        None => bytes,
    };
    assert!(rt; files.write(LOG, left).is_ok());
    files
}

#[test]
fn five_lives_a_hundred_times(rt: HostRuntime) {
    let mut numbers = Numbers { state: 1 };
    for _ in 0..100 {
        let mut files = MemoryFiles::new(rt.alloc());
        live_on(&rt, &mut files, &mut numbers, 0);
    }
}

#[test]
fn new_batches_stand_behind_old_ones(rt: HostRuntime) {
    let mut text = Text::new(rt.alloc());
    write_old(&rt, &mut text, 2);
    write_old(&rt, &mut text, 0);
    write_old(&rt, &mut text, 1);
    let mut files = files_with(&rt, &text, 1000);
    let mut numbers = Numbers { state: 2 };
    live_on(&rt, &mut files, &mut numbers, 3);
}

#[test]
fn a_life_begins_with_empty_batches(rt: HostRuntime) {
    let mut text = Text::new(rt.alloc());
    write_old(&rt, &mut text, 0);
    write_old(&rt, &mut text, 0);
    let mut files = files_with(&rt, &text, 1000);
    let mut numbers = Numbers { state: 3 };
    let life = live_once(&rt, &mut files, &mut numbers, 2);
    assert!(&rt; life.before == 2);
}

#[test]
fn a_life_begins_with_a_torn_batch(rt: HostRuntime) {
    let mut text = Text::new(rt.alloc());
    write_old(&rt, &mut text, 1);
    for size in [1usize, 4, 11, 12, 30] {
        let mut files = files_with(&rt, &text, size);
        let mut numbers = Numbers { state: 4 };
        let life = live_once(&rt, &mut files, &mut numbers, 0);
        assert!(&rt; life.before == 0);
        let again = live_once(
            &rt,
            &mut files,
            &mut numbers,
            (life.sizes.len() as u64).wrapping_sub(1),
        );
        assert!(&rt; again.before.wrapping_add(1) == life.sizes.len() as u64);
    }
}
