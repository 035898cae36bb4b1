//! A log that is cut anywhere, and one that goes on behind a recovery.

ghost use Rattle.std.specs.Prelude.{◌≡◌, length};
ghost use Rattle.hy_recovery.specs.Recovering.{Counts};

use crate::logs::{payment, read, written};
use crate::recovery_tests::{WIDE, recovered_of};
use hy_batches::{Batches, Text, write_batch};
use hy_commands::{Commit, Edition, Reply};
use hy_forks::OwnPartitions;
use hy_loads::Load;
use hy_partition::{Job, Loaded};
use hy_passes::{Cursor, Journal, Kit, Pass};
use hy_recovery::{kit_for, recover};
use hy_tables::generate;
use std::marker::Brand;
use std::process::Abort;

/// Pays 1.00 once more in the first warehouse.
fn pay_again<K: Loaded>(
    rt: &impl Abort,
    partitions: &mut OwnPartitions<4096, K>,
    journal: &mut Journal<Commit, K>,
    pass: Pass<Commit, K>,
) {
    let done = partitions.run(journal, Job::new(payment(1, 1, 1, 100), pass));
    let (reply, _pass, _share) = done.open();
    match reply {
        Reply::Payment { .. } => {}
        _ => panic!(rt; "the payment is accepted"),
    }
}

/// The bytes of what was kept behind a place.
fn drained_bytes<K: Loaded, R: Abort + AllocGlobal>(
    rt: &R,
    partitions: &mut OwnPartitions<4096, K>,
    journal: &mut Journal<Commit, K>,
    cursor: &mut Cursor<Commit, K>,
) -> Text {
    let batch = partitions
        .drain(rt.alloc(), journal, cursor)
        .expect(rt, "a batch");
    let mut text = Text::new(rt.alloc());
    write_batch(&mut text, &batch);
    text
}

/// Recovers a database, pays once more, and gives the batch of that.
fn live_on<K: Loaded, R: Abort + AllocGlobal>(
    rt: &R,
    load: &Load,
    kit: Kit<Commit>,
    batches: &Batches,
) -> Text
    requires load { load.now ≡ K.load }
    requires kit { kit ≡ K.passes }
    requires partitions { kit.partitions ≡ length load.now.tables.warehouses }
    requires counts { Counts kit load.now batches.now }
{
    let (_passes, journal, seats, mut clients) = kit.open::<K>().expect(rt, "passes");
    let (Some(pass), Some(place)) = (clients.pop(), clients.pop()) else {
        panic!(rt; "two clients")
    };
    let Ok((mut partitions, mut journal, pass)) = recover::<4096, K>(
        rt.alloc(),
        load,
        batches,
        journal,
        seats,
        pass,
        2000,
        100,
    ) else {
        panic!(rt; "it is recovered")
    };
    let mut cursor = partitions
        .end_of(rt.alloc(), &mut journal, place)
        .expect(rt, "a place");
    pay_again(rt, &mut partitions, &mut journal, pass);
    drained_bytes(rt, &mut partitions, &mut journal, &mut cursor)
}

/// The same on a generated load of two warehouses.
fn second_batch<R: Abort + AllocGlobal>(rt: &R, batches: &Batches) -> Text {
    let load = generate(rt.alloc(), 2, 3, 20).expect(rt, "a load");
    let kit = kit_for(rt.alloc(), &load, batches, 2, 1).expect(rt, "a kit");
    live_on::<Brand, R>(rt, &load, kit, batches)
}

/// So many of the first bytes.
fn first<'a>(rt: &impl Abort, bytes: &'a [u8], size: usize) -> &'a [u8] {
    assert!(rt; size <= bytes.len());
    &bytes[..size]
}

/// Each beginning of a log of three batches of 43 bytes, each with a payment of 1.00 in warehouse 1 of two, is recovered as
/// the batches that are whole in it.
fn recovers_each_beginning<R: Abort + AllocGlobal>(rt: &R, bytes: &[u8]) {
    assert!(rt; bytes.len() == 129);
    for size in 0..=129usize {
        let batches = read(rt, first(rt, bytes, size));
        let whole = size as u64 / 43;
        assert!(rt; batches.count() == whole);
        assert!(rt; batches.bytes() == whole * 43);
        let seen = recovered_of(rt, 2, &batches, WIDE).expect(rt, "a database");
        assert!(rt; seen.taken_in.as_slice() == [30000 + 100 * whole as i64, 30000].as_slice());
        assert!(rt; seen.kept.as_slice() == [whole, 0].as_slice());
    }
}

#[test]
fn a_log_is_cut_anywhere(rt: HostRuntime) {
    for edition in [Edition::First, Edition::Second] {
        let text = written(&rt, edition, 2, 3);
        recovers_each_beginning(&rt, text.bytes().expect(&rt, "memory lasts"));
    }
}

/// A log of an edition whose third batch is cut off goes on, behind a recovery, with a batch of the second edition.
fn lives_twice<R: Abort + AllocGlobal>(rt: &R, edition: Edition) {
    let text = written(rt, edition, 2, 3);
    let bytes = text.bytes().expect(rt, "memory lasts");
    assert!(rt; bytes.len() == 129);
    let batches = read(rt, first(rt, bytes, 100));
    assert!(rt; batches.bytes() == 86);
    let more = second_batch(rt, &batches);
    let more = more.bytes().expect(rt, "memory lasts");
    let new = written(rt, Edition::Second, 2, 1);
    assert!(rt; more == new.bytes().expect(rt, "memory lasts"));
    let mut all = Vec::from_slice(rt.alloc(), first(rt, bytes, 86)).expect(rt, "bytes");
    all.extend_from_slice(more).expect(rt, "bytes");
    recovers_each_beginning(rt, &all);
}

#[test]
fn second_life(rt: HostRuntime) {
    lives_twice(&rt, Edition::First);
    lives_twice(&rt, Edition::Second);
}
