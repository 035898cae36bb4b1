use super::*;
use hy_commands::{
    Command, Commit, Delivery, Edition, Name, Payment, Purchase, PurchaseLine, PurchaseLines, Who,
};
use hy_schema::Refusal;
use std::alloc::{AllocError, Global};
use std::test::*;

/// A payment of 1.00 in warehouse 1 of two, with the place of its length, of its amount and of its end.
const SAMPLE: [u8; 43] = [
    0x48, 0x59, 0x42, 0x31, 0x1e, 0, 0, 0, 0, 0, 0, 0, 2, 1, 0, 0, 0, 0, 2, 1, 1, 1, 1, 0, 1, 0,
    0x64, 0, 0, 0, 1, 0, 0, 0, 0, 0, 0, 0, 0, 0, 0, 0, 0x45,
];

/// The place of the byte of the mark that tells the edition.
const EDITION: usize = 3;

const LENGTH: usize = 4;

const AMOUNT: usize = 26;

const END: usize = 42;

fn payment(customer_warehouse: u64, who: Who) -> Command {
    Command::Payment(Payment {
        warehouse: 1,
        district: 1,
        customer_warehouse,
        customer_district: 1,
        who,
        amount: 100,
        at: 1,
    })
}

fn purchase(alloc: Global) -> Result<Command, AllocError> {
    let line = PurchaseLine {
        item: 100_000,
        supply_warehouse: 1,
        quantity: 10,
    };
    Ok(Command::NewOrder(Purchase {
        warehouse: 1,
        district: 10,
        customer: 3_000,
        at: 1_000_000_000_000_000,
        lines: PurchaseLines::new(alloc, &[line; 15])?,
    }))
}

/// The lists of two warehouses, with these commits of the first.
fn lists_of(alloc: Global, commits: Vec<Commit>) -> Result<Vec<Vec<Commit>>, AllocError> {
    let mut lists = Vec::with_capacity(alloc, 2)?;
    lists.push_reserved(commits);
    lists.push_reserved(Vec::new(alloc));
    Ok(lists)
}

/// The sample of the second edition: the mark alone is another one.
fn second() -> [u8; 43] {
    let mut bytes = SAMPLE;
    bytes[EDITION] = 0x32;
    bytes
}

/// The sample, written as a batch of an edition.
fn sample_of(alloc: Global, edition: Edition) -> Result<Text, AllocError> {
    let mut commits = Vec::with_capacity(alloc, 1)?;
    commits.push_reserved(Commit::Local(edition, payment(1, Who::Number(1))));
    let mut text = Text::new(alloc);
    write_lists(&mut text, edition, &lists_of(alloc, commits)?);
    Ok(text)
}

/// Some bytes, and others behind them.
fn joined(alloc: Global, front: &[u8], back: &[u8]) -> Result<Vec<u8>, AllocError> {
    let mut bytes = Vec::new(alloc);
    bytes.extend_from_slice(front)?;
    bytes.extend_from_slice(back)?;
    Ok(bytes)
}

/// The sample three times.
fn log(alloc: Global) -> Result<Vec<u8>, AllocError> {
    let mut bytes = Vec::new(alloc);
    for _ in 0..3 {
        bytes.extend_from_slice(&SAMPLE)?;
    }
    Ok(bytes)
}

/// Where bytes fail.
fn fault(alloc: Global, bytes: &[u8]) -> Option<u64> {
    match read_log(alloc, bytes) {
        Err(Refusal::LogMalformed(place)) => Some(place),
        _ => None,
    }
}

/// The sample with another byte at a place.
fn changed(alloc: Global, place: usize, byte: u8) -> Option<u64> {
    let mut bytes = SAMPLE;
    if place < 43 {
        bytes[place] = byte;
    }
    fault(alloc, &bytes)
}

#[test]
fn sample_is_written(rt: HostRuntime) -> Result<(), Fail> {
    let first = sample_of(rt.alloc(), Edition::First)?;
    assert_eq!(rt; first.bytes(), Some(SAMPLE.as_slice()));
    let other = sample_of(rt.alloc(), Edition::Second)?;
    assert_eq!(rt; other.bytes(), Some(second().as_slice()));
    Ok(())
}

#[test]
fn whole_batches_are_read(rt: HostRuntime) -> Result<(), Fail> {
    let bytes = log(rt.alloc())?;
    for size in 0..bytes.len() {
        let batches = read_log(rt.alloc(), &bytes[..size])?;
        assert_eq!(rt; batches.count(), (size / 43) as u64);
        assert_eq!(rt; batches.bytes(), (size / 43 * 43) as u64);
    }
    let batches = read_log(rt.alloc(), &bytes)?;
    assert_eq!(rt; batches.count(), 3);
    assert_eq!(rt; batches.bytes(), 129);
    Ok(())
}

#[test]
fn faults_are_named(rt: HostRuntime) -> Result<(), Fail> {
    assert_eq!(rt; changed(rt.alloc(), LENGTH, 0x1d), Some(0));
    assert_eq!(rt; changed(rt.alloc(), LENGTH, 0x1f), None);
    assert_eq!(rt; changed(rt.alloc(), AMOUNT, 99), Some(0));
    assert_eq!(rt; changed(rt.alloc(), EDITION, 0x32), None);
    assert_eq!(rt; changed(rt.alloc(), EDITION, 0x33), Some(0));
    assert_eq!(rt; changed(rt.alloc(), EDITION, 0x30), Some(0));
    assert_eq!(rt; changed(rt.alloc(), END, 0x46), Some(0));
    assert_eq!(rt; fault(rt.alloc(), b"HYB".as_slice()), None);
    assert_eq!(rt; fault(rt.alloc(), b"HX".as_slice()), Some(0));
    let mut bytes = log(rt.alloc())?;
    bytes.push(0)?;
    assert_eq!(rt; fault(rt.alloc(), &bytes), Some(129));
    Ok(())
}

#[test]
fn editions_are_read(rt: HostRuntime) -> Result<(), Fail> {
    let bytes = joined(rt.alloc(), &SAMPLE, &second())?;
    let batches = read_log(rt.alloc(), &bytes)?;
    assert_eq!(rt; batches.count(), 2);
    assert_eq!(rt; batches.bytes(), 86);
    assert_eq!(rt; batches.batch(0).edition(), Edition::First);
    assert_eq!(rt; batches.batch(1).edition(), Edition::Second);
    assert_eq!(rt; batches.batch(0).len(), 2);
    assert_eq!(rt; batches.batch(1).len(), 2);
    Ok(())
}

#[test]
fn first_behind_second_is_a_fault(rt: HostRuntime) -> Result<(), Fail> {
    let bytes = joined(rt.alloc(), &second(), &SAMPLE)?;
    assert_eq!(rt; fault(rt.alloc(), &bytes), Some(43));
    let cut = joined(rt.alloc(), &second(), &SAMPLE[..20])?;
    let batches = read_log(rt.alloc(), &cut)?;
    assert_eq!(rt; batches.count(), 1);
    assert_eq!(rt; batches.bytes(), 43);
    assert_eq!(rt; batches.batch(0).edition(), Edition::Second);
    Ok(())
}

#[test]
fn batch_without_commits_keeps_its_edition(rt: HostRuntime) -> Result<(), Fail> {
    let mut text = Text::new(rt.alloc());
    let lists = lists_of(rt.alloc(), Vec::new(rt.alloc()))?;
    write_lists(&mut text, Edition::Second, &lists);
    let bytes = text.bytes().ok_or("memory lasts")?;
    let batches = read_log(rt.alloc(), bytes)?;
    assert_eq!(rt; batches.count(), 1);
    assert_eq!(rt; batches.batch(0).edition(), Edition::Second);
    Ok(())
}

#[test]
fn commands_are_read_as_they_were_written(rt: HostRuntime) -> Result<(), Fail> {
    let edition = Edition::Second;
    let name = Name::new(Vec::from_slice(rt.alloc(), b"BARBAROUGHT".as_slice())?);
    let delivery = Delivery {
        warehouse: 1,
        carrier: 10,
        at: 2,
    };
    let mut commits = Vec::with_capacity(rt.alloc(), 4)?;
    commits.push_reserved(Commit::Local(edition, purchase(rt.alloc())?));
    commits.push_reserved(Commit::Local(edition, payment(1, Who::Last(name))));
    commits.push_reserved(Commit::Local(edition, Command::Delivery(delivery)));
    commits.push_reserved(Commit::Cross(edition, 1, payment(2, Who::Number(65_535))));
    let mut text = Text::new(rt.alloc());
    write_lists(&mut text, edition, &lists_of(rt.alloc(), commits)?);
    let bytes = text.bytes().ok_or("memory lasts")?;
    let batches = read_log(rt.alloc(), bytes)?;
    assert_eq!(rt; batches.count(), 1);
    let mut again = Text::new(rt.alloc());
    write_batch(&mut again, batches.batch(0));
    assert_eq!(rt; again.bytes(), Some(bytes));
    Ok(())
}
