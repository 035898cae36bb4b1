//! Forks of open snapshots, beside payments, with small and with large pages.

ghost use Rattle.std.specs.Prelude.{◌<◌, ◌≤◌};
ghost use Rattle.hy_frames.specs.FrameTable.{IsPageSize};

use crate::forked::{Body, Forked, On, Size, of_items, run};
use crate::snapshot_tests::{has_commits, has_ytd, pay, pay_half, pay_rest};
use hy_commands::Commit;
use hy_loads::Load;
use hy_partition::{Loaded, Progress};
use hy_passes::Kit;
use hy_rows::Customer;
use hy_schema::Refusal;
use std::process::Abort;

/// What a test does with a partition: it closes two chains in one of the 720 orders, or forks a snapshot beside a half-done
/// payment.
#[derive(Drop)]
enum Case {
    InOrder(u64),
    HalfDone,
}

impl<const N: usize> Body for On<N, Case> {
    ghost page_size = { N };

    fn run<K: Loaded, R: Abort + AllocGlobal>(
        &self,
        rt: &R,
        load: &Load,
        kit: Kit<Commit>,
        size: Size,
    ) -> Result<(), Refusal> {
        let forked = Forked::<N, K>::new(rt, load, kit, size)?;
        match &self.case {
            Case::InOrder(order) => chained(rt, forked, *order),
            Case::HalfDone => half_done(rt, forked),
        }
        Ok(())
    }
}

/// A case with a partition of one item.
fn try_case<const N: usize, R: Abort + AllocGlobal>(rt: &R, case: Case)
    requires { IsPageSize N }
{
    run(rt, of_items(1), &On::<N, _> { case }).expect(rt, "a partition");
}

/// Two snapshots and two forks of each, one of them a fork of a fork, with payments between.
fn open_chains<const N: usize, K: Loaded>(rt: &impl Abort, forked: &mut Forked<N, K>) {
    assert!(rt; forked.fork(rt) == Ok(()));
    assert!(rt; pay(rt, forked, 100) == Ok(-1100));
    assert!(rt; forked.fork_from(rt, 0) == Ok(()));
    assert!(rt; pay(rt, forked, 200) == Ok(-1300));
    assert!(rt; forked.fork_from(rt, 1) == Ok(()));
    assert!(rt; forked.fork(rt) == Ok(()));
    assert!(rt; pay(rt, forked, 300) == Ok(-1600));
    assert!(rt; forked.fork_from(rt, 3) == Ok(()) && forked.fork_from(rt, 4) == Ok(()));
}

/// Each open snapshot has the rows of its chain: no payment, or the first two.
fn keep_their_rows<const N: usize, K: Loaded>(
    rt: &(impl Abort + AllocGlobal),
    forked: &Forked<N, K>,
    are_late: &[bool],
) {
    for place in 0..are_late.len() {
        let (commits, ytd, balance) = if are_late[place] {
            (2, 30_300, -1_300)
        } else {
            (0, 30_000, -1_000)
        };
        assert!(rt; has_commits(rt, forked, place, commits) && has_ytd(rt, forked, place, ytd));
        let customers = forked
            .snapshot(rt, place)
            .list::<Customer>()
            .expect(rt, "the rows");
        assert!(rt; customers.len() == 30 && customers[0].balance == balance);
    }
}

/// Six snapshots of two chains, closed in one of the 720 orders.
fn chained<const N: usize, K: Loaded>(
    rt: &(impl Abort + AllocGlobal),
    mut forked: Forked<N, K>,
    order: u64,
) {
    open_chains(rt, &mut forked);
    let mut are_late = Vec::new(rt.alloc());
    are_late
        .extend_from_slice(&[false, false, false, true, true, true])
        .expect(rt, "places");
    let mut left = order;
    for _ in 0..6 {
        keep_their_rows(rt, &forked, &are_late);
        let count = are_late.len() as u64;
        assert!(rt; count != 0);
        let place = (left % count) as usize;
        left /= count;
        forked.close(rt, place);
        are_late.remove(place);
    }
    assert!(rt; are_late.is_empty());
    forked.end(rt);
}

/// Between the slices of a payment with no frame free, a fork of a snapshot is given, where one of the warehouse is refused.
fn half_done<const N: usize, K: Loaded>(rt: &(impl Abort + AllocGlobal), mut forked: Forked<N, K>) {
    assert!(rt; forked.fork(rt) == Ok(()));
    assert!(rt; pay_half(rt, &mut forked, 100) == Ok(Progress::More));
    let touched = forked.touched();
    assert!(rt; touched > 0);
    forked.limit(rt, 0);
    assert!(rt; forked.fork_from(rt, 0) == Ok(()) && forked.free() == 0);
    assert!(rt; forked.touched() == touched && forked.fork(rt) == Err(Refusal::NoFrame));
    keep_their_rows(rt, &forked, &[false, false]);
    forked.close(rt, 0);
    forked.limit(rt, 100);
    assert!(rt; pay_rest(rt, &mut forked) == Ok(-1100));
    keep_their_rows(rt, &forked, &[false]);
    forked.close(rt, 0);
    forked.end(rt);
}

#[test]
fn chains_closed_in_every_order(rt: HostRuntime) {
    for order in 0..720 {
        try_case::<4096, _>(&rt, Case::InOrder(order));
    }
    try_case::<256, _>(&rt, Case::InOrder(0));
    try_case::<256, _>(&rt, Case::InOrder(719));
}

#[test]
fn a_fork_of_a_snapshot_takes_no_frame(rt: HostRuntime) {
    try_case::<256, _>(&rt, Case::HalfDone);
    try_case::<4096, _>(&rt, Case::HalfDone);
}
