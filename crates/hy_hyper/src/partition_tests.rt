//! A partition by itself: what it refuses, and its limits.

ghost use Rattle.std.specs.Prelude.{◌≤◌};

use crate::forked::{Body, Forked, On, Size, of_items, run};
use hy_commands::{Command, Commit, Payment, Reply, Who};
use hy_loads::Load;
use hy_partition::Loaded;
use hy_passes::Kit;
use hy_schema::Refusal;
use std::process::Abort;

/// What a test does with a partition.
#[derive(Drop)]
enum Case {
    SecondJob,
    RefusesInOrder,
    Limits,
    Spells,
}

impl<const N: usize> Body for On<N, Case> {
    ghost page_size = { N };

    fn run<K: Loaded, R: Abort + AllocGlobal>(
        &self,
        rt: &R,
        load: &Load,
        kit: Kit<Commit>,
        size: Size,
    ) -> Result<(), Refusal> {
        let forked = Forked::<N, K>::new(rt, load, kit, size)?;
        match &self.case {
            Case::SecondJob => second_job(rt, forked),
            Case::RefusesInOrder => refuses_each(rt, forked),
            Case::Limits => one_is_kept(rt, forked),
            Case::Spells => spells(rt, forked),
        }
        Ok(())
    }
}

/// A payment in a district of a warehouse, by the customer of a district of a warehouse.
fn payment(
    (warehouse, district): (u64, u64),
    (customer_warehouse, customer_district, customer): (u64, u64, u64),
    amount: u64,
    at: u64,
) -> Command {
    Command::Payment(Payment {
        warehouse,
        district,
        customer_warehouse,
        customer_district,
        who: Who::Number(customer),
        amount,
        at,
    })
}

/// A payment by customer 1 of district 1.
fn paid(amount: u64) -> Command {
    payment((1, 1), (1, 1, 1), amount, 1)
}

/// The balance after a payment of 1.00, or why it was refused.
fn pay<const N: usize, K: Loaded>(
    rt: &impl Abort,
    forked: &mut Forked<N, K>,
) -> Result<i64, Refusal> {
    forked.begin(rt, paid(100))?;
    forked.finish();
    match forked.answer(rt) {
        Some((Reply::Payment { balance, .. }, true)) => Ok(balance),
        Some((Reply::Refused(refusal), false)) => Err(refusal),
        _ => Err(Refusal::NotRunning),
    }
}

fn second_job<const N: usize, K: Loaded>(rt: &impl Abort, mut forked: Forked<N, K>) {
    assert!(rt; forked.begin(rt, paid(100)).is_ok());
    assert!(rt; forked.begin(rt, paid(200)) == Err(Refusal::Busy));
    forked.end(rt);
}

#[test]
fn a_second_job_is_refused(rt: HostRuntime) {
    assert!(rt;
        run(
            &rt,
            of_items(1),
            &On::<4096, _> {
                case: Case::SecondJob
            }
        )
        .is_ok()
    );
}

fn refuses_each<const N: usize, K: Loaded>(rt: &impl Abort, mut forked: Forked<N, K>) {
    for (command, refusal) in [
        (payment((2, 1), (1, 1, 1), 99, 1), Refusal::OutOfRange),
        (payment((1, 1), (1, 1, 1), 100, 0), Refusal::OutOfRange),
        (
            payment((2, 11), (1, 1, 1), 100, 1),
            Refusal::NoSuchWarehouse,
        ),
        (payment((1, 1), (2, 1, 1), 100, 1), Refusal::NoSuchWarehouse),
        (payment((1, 1), (1, 11, 4), 100, 1), Refusal::NoSuchDistrict),
        (payment((1, 1), (1, 1, 4), 100, 1), Refusal::NoSuchCustomer),
    ] {
        assert!(rt; forked.begin(rt, command) == Err(refusal));
    }
    forked.end(rt);
}

#[test]
fn refuses_in_order(rt: HostRuntime) {
    assert!(rt;
        run(
            &rt,
            of_items(1),
            &On::<4096, _> {
                case: Case::RefusesInOrder
            }
        )
        .is_ok()
    );
}

/// A partition without a free frame, which keeps one commit.
fn one_is_kept<const N: usize, K: Loaded>(rt: &impl Abort, mut forked: Forked<N, K>) {
    assert!(rt; forked.free() == 0 && forked.set_max(16) == Err(Refusal::OutOfRange));
    assert!(rt; pay(rt, &mut forked).is_ok());
    assert!(rt; pay(rt, &mut forked) == Err(Refusal::HistoryFull));
    forked.end(rt);
}

/// What `Limits` says of a partition of at most so many frames.
fn within(frames: u64) -> Size
    requires { (1 ≤ frames) × (frames ≤ 1000) }
    ensures frames { (1 ≤ result.frames) × (result.frames ≤ 1000) }
    ensures kept { (1 ≤ result.kept) × (result.kept ≤ 10000) }
{
    Size {
        items: 1,
        frames,
        kept: 1,
    }
}

#[test]
fn limits_of_a_partition(rt: HostRuntime) {
    assert!(rt;
        run(&rt, within(20), &On::<4096, _> { case: Case::Limits }) == Err(Refusal::NoFrame)
    );
    assert!(rt; run(&rt, within(21), &On::<4096, _> { case: Case::Limits }) == Ok(()));
}

fn spells<const N: usize, K: Loaded>(rt: &impl Abort, mut forked: Forked<N, K>) {
    assert!(rt; forked.fork(rt) == Ok(()));
    forked.snapshot(rt, 0).spells();
    forked.sound();
    forked.close(rt, 0);
    forked.end(rt);
}

#[test]
fn a_snapshot_spells_its_rows(rt: HostRuntime) {
    assert!(rt; run(&rt, of_items(1), &On::<4096, _> { case: Case::Spells }).is_ok());
}
