//! Snapshots beside payments, with small and with large pages.

ghost use Rattle.std.specs.Prelude.{◌<◌, ◌≤◌};
ghost use Rattle.hy_frames.specs.FrameTable.{IsPageSize};

use crate::forked::{Body, FRAMES, Forked, On, Size, of_items, run};
use hy_commands::{Command, Commit, Payment, Reply, Who};
use hy_loads::Load;
use hy_partition::{Loaded, Progress};
use hy_passes::Kit;
use hy_rows::{Customer, Warehouse};
use hy_schema::Refusal;
use std::process::Abort;

/// What a test does with a partition. HISTORY grows by so many pages, where a number is said.
#[derive(Drop)]
enum Case {
    Stays,
    ClosedInAnotherOrder(u64),
    WithoutAFrame(u64),
    Many(u64),
    BetweenSlices(u64),
    BetweenTwoPayments(u64),
    RefusedBetweenSlices,
    ThinHalfDone,
    WithoutAFrameBehindTheFork,
    WithoutTheFramesOfAFork,
    OneByOne,
    EachPays,
}

impl<const N: usize> Body for On<N, Case> {
    ghost page_size = { N };

    fn run<K: Loaded, R: Abort + AllocGlobal>(
        &self,
        rt: &R,
        load: &Load,
        kit: Kit<Commit>,
        size: Size,
    ) -> Result<(), Refusal> {
        let forked = Forked::<N, K>::new(rt, load, kit, size)?;
        match &self.case {
            Case::Stays => stays(rt, forked),
            Case::ClosedInAnotherOrder(grown) => closed_in_another_order(rt, forked, *grown),
            Case::WithoutAFrame(grown) => without_a_frame(rt, forked, *grown),
            Case::Many(grown) => many(rt, forked, *grown),
            Case::BetweenSlices(grown) => between_slices(rt, forked, *grown),
            Case::BetweenTwoPayments(grown) => between_two_payments(rt, forked, *grown),
            Case::RefusedBetweenSlices => refused_between_slices(rt, forked),
            Case::ThinHalfDone => thin_half_done(rt, forked),
            Case::WithoutAFrameBehindTheFork => without_a_frame_behind_the_fork(rt, forked),
            Case::WithoutTheFramesOfAFork => without_the_frames_of_a_fork(rt, forked),
            Case::OneByOne => one_by_one(rt, forked),
            Case::EachPays => each_pays(rt, forked),
        }
        Ok(())
    }
}

/// A case with a partition of so many items.
fn try_case<const N: usize, R: Abort + AllocGlobal>(rt: &R, items: u64, case: Case)
    requires { IsPageSize N }
{
    run(rt, of_items(items), &On::<N, _> { case }).expect(rt, "a partition");
}

/// A payment by customer 1 of district 1.
fn payment(amount: u64) -> Command {
    Command::Payment(Payment {
        warehouse: 1,
        district: 1,
        customer_warehouse: 1,
        customer_district: 1,
        who: Who::Number(1),
        amount,
        at: 1,
    })
}

/// The balance that an answer to a payment tells, in cents, or why it was refused. Only an accepted one has a share.
fn balance_of(answer: Option<(Reply, bool)>) -> Result<i64, Refusal> {
    match answer {
        Some((Reply::Payment { balance, .. }, true)) => Ok(balance),
        Some((Reply::Refused(refusal), false)) => Err(refusal),
        _ => Err(Refusal::NotRunning),
    }
}

/// The balance after a payment, or why it was refused.
pub fn pay<const N: usize, K: Loaded>(
    rt: &impl Abort,
    forked: &mut Forked<N, K>,
    amount: u64,
) -> Result<i64, Refusal> {
    forked.begin(rt, payment(amount))?;
    forked.finish();
    balance_of(forked.answer(rt))
}

/// The first slice of a payment.
pub fn pay_half<const N: usize, K: Loaded>(
    rt: &impl Abort,
    forked: &mut Forked<N, K>,
    amount: u64,
) -> Result<Progress, Refusal> {
    forked.begin(rt, payment(amount))?;
    forked.step()
}

/// The last slice of the payment that runs, and the balance after it.
pub fn pay_rest<const N: usize, K: Loaded>(
    rt: &impl Abort,
    forked: &mut Forked<N, K>,
) -> Result<i64, Refusal> {
    match forked.step() {
        Ok(Progress::Finished) => balance_of(forked.answer(rt)),
        _ => Err(Refusal::NotRunning),
    }
}

/// Whether W_YTD is this in the snapshot at a place.
pub fn has_ytd<const N: usize, K: Loaded>(
    rt: &(impl Abort + AllocGlobal),
    forked: &Forked<N, K>,
    place: usize,
    ytd: i64,
) -> bool {
    let rows = forked
        .snapshot(rt, place)
        .list::<Warehouse>()
        .expect(rt, "the rows");
    match rows.as_slice() {
        [warehouse] => warehouse.ytd == ytd,
        _ => false,
    }
}

/// Whether the snapshot at a place has so many commits.
pub fn has_commits<const N: usize, K: Loaded>(
    rt: &impl Abort,
    forked: &Forked<N, K>,
    place: usize,
    commits: u64,
) -> bool {
    forked.snapshot(rt, place).commits() == commits
}

/// A snapshot before a payment and one behind it.
fn stays<const N: usize, K: Loaded>(rt: &(impl Abort + AllocGlobal), mut forked: Forked<N, K>) {
    assert!(rt; forked.fork(rt) == Ok(()));
    assert!(rt; pay(rt, &mut forked, 100) == Ok(-1100));
    assert!(rt; forked.fork(rt) == Ok(()));
    assert!(rt; has_ytd(rt, &forked, 0, 30_000) && has_commits(rt, &forked, 0, 0));
    assert!(rt; has_ytd(rt, &forked, 1, 30_100) && has_commits(rt, &forked, 1, 1));
    forked.close(rt, 0);
    forked.close(rt, 0);
    forked.end(rt);
}

/// Three snapshots with payments between them, closed in another order than they were opened. HISTORY grows by some pages.
fn closed_in_another_order<const N: usize, K: Loaded>(
    rt: &(impl Abort + AllocGlobal),
    mut forked: Forked<N, K>,
    grown: u64,
) {
    let free = forked.free();
    assert!(rt; forked.fork(rt) == Ok(()));
    assert!(rt; pay(rt, &mut forked, 100).is_ok());
    assert!(rt; forked.fork(rt) == Ok(()));
    assert!(rt; pay(rt, &mut forked, 500).is_ok());
    assert!(rt; forked.fork(rt) == Ok(()));
    forked.close(rt, 1);
    assert!(rt; has_ytd(rt, &forked, 0, 30_000) && has_ytd(rt, &forked, 1, 30_600));
    forked.close(rt, 1);
    assert!(rt; has_ytd(rt, &forked, 0, 30_000));
    forked.close(rt, 0);
    assert!(rt; forked.end(rt).saturating_add(grown) == free);
}

/// A payment that finds one free frame, beside a snapshot, and once the snapshot is closed. HISTORY grows by some pages.
fn without_a_frame<const N: usize, K: Loaded>(
    rt: &(impl Abort + AllocGlobal),
    mut forked: Forked<N, K>,
    grown: u64,
) {
    forked.limit(rt, 1);
    assert!(rt; forked.free() == 1 && forked.fork(rt) == Ok(()));
    assert!(rt; pay(rt, &mut forked, 100) == Err(Refusal::NoFrame));
    assert!(rt; forked.fork(rt) == Ok(()) && forked.kept() == 0);
    assert!(rt; has_ytd(rt, &forked, 0, 30_000) && has_ytd(rt, &forked, 1, 30_000));
    forked.close(rt, 0);
    forked.close(rt, 0);
    assert!(rt; pay(rt, &mut forked, 100) == Ok(-1100));
    assert!(rt; forked.fork(rt) == Ok(()) && has_ytd(rt, &forked, 0, 30_100));
    forked.close(rt, 0);
    assert!(rt; forked.end(rt).saturating_add(grown) == 1);
}

/// A snapshot with a payment beside it.
fn paid_beside<const N: usize, K: Loaded>(rt: &impl Abort, forked: &mut Forked<N, K>, free: u64) {
    assert!(rt; forked.fork(rt) == Ok(()));
    assert!(rt; pay(rt, forked, 100).is_ok());
    assert!(rt; forked.free() < free && forked.shared() > 0);
    forked.close(rt, 0);
}

/// Many snapshots, each with a payment beside it. HISTORY grows by some pages.
fn many<const N: usize, K: Loaded>(
    rt: &(impl Abort + AllocGlobal),
    mut forked: Forked<N, K>,
    grown: u64,
) {
    let free = forked.free();
    for _ in 0..50 {
        paid_beside(rt, &mut forked, free);
    }
    assert!(rt; forked.kept() == 50);
    assert!(rt; forked.end(rt).saturating_add(grown) == free);
}

/// Snapshots before, between and after the slices of a payment, closed in another order. HISTORY grows by some pages.
fn between_slices<const N: usize, K: Loaded>(
    rt: &(impl Abort + AllocGlobal),
    mut forked: Forked<N, K>,
    grown: u64,
) {
    let free = forked.free();
    assert!(rt; forked.fork(rt) == Ok(()));
    assert!(rt; pay_half(rt, &mut forked, 100) == Ok(Progress::More));
    assert!(rt; forked.fork(rt) == Ok(()));
    assert!(rt; pay_rest(rt, &mut forked) == Ok(-1100));
    assert!(rt; forked.fork(rt) == Ok(()));
    assert!(rt; has_commits(rt, &forked, 1, 0) && has_commits(rt, &forked, 2, 1));
    forked.close(rt, 1);
    assert!(rt; has_ytd(rt, &forked, 0, 30_000) && has_ytd(rt, &forked, 1, 30_100));
    forked.close(rt, 1);
    assert!(rt; has_ytd(rt, &forked, 0, 30_000));
    forked.close(rt, 0);
    assert!(rt; forked.end(rt).saturating_add(grown) == free);
}

/// Snapshots between the slices of two payments, the later one closed first. HISTORY grows by some pages.
fn between_two_payments<const N: usize, K: Loaded>(
    rt: &(impl Abort + AllocGlobal),
    mut forked: Forked<N, K>,
    grown: u64,
) {
    let free = forked.free();
    assert!(rt; pay_half(rt, &mut forked, 100) == Ok(Progress::More) && forked.fork(rt) == Ok(()));
    assert!(rt; pay_rest(rt, &mut forked) == Ok(-1100));
    assert!(rt; pay_half(rt, &mut forked, 500) == Ok(Progress::More) && forked.fork(rt) == Ok(()));
    assert!(rt; pay_rest(rt, &mut forked) == Ok(-1600));
    assert!(rt; has_ytd(rt, &forked, 0, 30_000) && has_ytd(rt, &forked, 1, 30_100));
    forked.close(rt, 1);
    assert!(rt; has_ytd(rt, &forked, 0, 30_000));
    forked.close(rt, 0);
    assert!(rt; forked.end(rt).saturating_add(grown) == free);
}

/// A half-done payment beside a snapshot, and no frame free: the second slice is refused, and the first undone.
fn refused_between_slices<const N: usize, K: Loaded>(
    rt: &(impl Abort + AllocGlobal),
    mut forked: Forked<N, K>,
) {
    assert!(rt; pay_half(rt, &mut forked, 100) == Ok(Progress::More) && forked.fork(rt) == Ok(()));
    forked.limit(rt, 0);
    assert!(rt; forked.free() == 0 && pay_rest(rt, &mut forked) == Err(Refusal::NoFrame));
    assert!(rt; forked.fork(rt) == Ok(()) && forked.kept() == 0 && forked.touched() == 0);
    assert!(rt; has_ytd(rt, &forked, 0, 30_000) && has_ytd(rt, &forked, 1, 30_000));
    forked.close(rt, 0);
    forked.close(rt, 0);
    forked.end(rt);
}

#[test]
fn first_snapshot_stays(rt: HostRuntime) {
    try_case::<256, _>(&rt, 1, Case::Stays);
    try_case::<4096, _>(&rt, 1, Case::Stays);
}

#[test]
fn forks_closed_in_another_order(rt: HostRuntime) {
    try_case::<256, _>(&rt, 1, Case::ClosedInAnotherOrder(1));
    try_case::<4096, _>(&rt, 1, Case::ClosedInAnotherOrder(0));
}

#[test]
fn a_write_without_a_frame(rt: HostRuntime) {
    try_case::<256, _>(&rt, 1, Case::WithoutAFrame(1));
    try_case::<4096, _>(&rt, 1, Case::WithoutAFrame(0));
}

#[test]
fn frames_come_back(rt: HostRuntime) {
    try_case::<256, _>(&rt, 1, Case::Many(10));
    try_case::<4096, _>(&rt, 1, Case::Many(0));
}

#[test]
fn forks_between_slices(rt: HostRuntime) {
    try_case::<256, _>(&rt, 1, Case::BetweenSlices(1));
    try_case::<4096, _>(&rt, 1, Case::BetweenSlices(0));
    try_case::<256, _>(&rt, 1, Case::BetweenTwoPayments(1));
    try_case::<4096, _>(&rt, 1, Case::BetweenTwoPayments(0));
}

#[test]
fn rollback_without_frames(rt: HostRuntime) {
    try_case::<256, _>(&rt, 1, Case::RefusedBetweenSlices);
    try_case::<4096, _>(&rt, 1, Case::RefusedBetweenSlices);
}

/// A payment of 100 cents by the customer at a place among those of all districts, three of each, where so many frames are
/// free: the balance, or why it was refused.
fn pay_at<const N: usize, K: Loaded>(
    rt: &impl Abort,
    forked: &mut Forked<N, K>,
    place: u64,
    free: u64,
) -> Result<i64, Refusal>
    requires place { place < 30 }
{
    let district = 1 + place / 3;
    forked.set_max(FRAMES)?;
    forked.limit(rt, free);
    forked.begin(
        rt,
        Command::Payment(Payment {
            warehouse: 1,
            district,
            customer_warehouse: 1,
            customer_district: district,
            who: Who::Number(1 + place % 3),
            amount: 100,
            at: 1,
        }),
    )?;
    forked.finish();
    balance_of(forked.answer(rt))
}

/// Whether so many of the first customers have paid 100 cents in the snapshot at a place, and the others nothing.
fn have_paid<const N: usize, K: Loaded>(
    rt: &(impl Abort + AllocGlobal),
    forked: &Forked<N, K>,
    place: usize,
    paid: u64,
) -> bool {
    let rows = forked
        .snapshot(rt, place)
        .list::<Customer>()
        .expect(rt, "the rows");
    let mut same = rows.len() == 30;
    for at in 0..rows.len() {
        let row = &rows[at];
        let balance = if (at as u64) < paid { -1100 } else { -1000 };
        same = same && row.balance == balance && u64::from(row.id) == 1 + at as u64 % 3;
    }
    same
}

/// Beside a new snapshot a customer's payment is refused where so many frames are free, and leaves nothing.
fn refused_beside<const N: usize, K: Loaded>(
    rt: &(impl Abort + AllocGlobal),
    forked: &mut Forked<N, K>,
    place: u64,
    free: u64,
)
    requires place { place < 30 }
{
    assert!(rt; forked.fork(rt) == Ok(()));
    assert!(rt; pay_at(rt, forked, place, free) == Err(Refusal::NoFrame));
    assert!(rt; forked.touched() == 0 && forked.fork(rt) == Ok(()));
    assert!(rt; have_paid(rt, forked, 0, place) && have_paid(rt, forked, 1, place));
    forked.close(rt, 0);
    forked.close(rt, 0);
}

/// A customer's payment is refused where up to four frames are free, and then accepted beside a snapshot.
fn one_pays<const N: usize, K: Loaded>(
    rt: &(impl Abort + AllocGlobal),
    forked: &mut Forked<N, K>,
    place: u64,
)
    requires place { place < 30 }
{
    for free in 0..=4 {
        refused_beside(rt, forked, place, free);
    }
    assert!(rt; forked.fork(rt) == Ok(()));
    assert!(rt; pay_at(rt, forked, place, 8) == Ok(-1100));
    assert!(rt; forked.fork(rt) == Ok(()));
    assert!(rt; have_paid(rt, forked, 0, place) && have_paid(rt, forked, 1, place + 1));
    forked.close(rt, 0);
    forked.close(rt, 0);
}

/// Each customer in turn. A row of 575 bytes begins at another byte of a page of 256 for each of them, and lies on three
/// pages or on four.
fn each_pays<const N: usize, K: Loaded>(rt: &(impl Abort + AllocGlobal), mut forked: Forked<N, K>) {
    for place in 0..30 {
        one_pays(rt, &mut forked, place);
    }
    assert!(rt; forked.kept() == 30);
    forked.end(rt);
}

#[test]
fn each_customer_pays(rt: HostRuntime) {
    try_case::<256, _>(&rt, 1, Case::EachPays);
    try_case::<4096, _>(&rt, 1, Case::EachPays);
}

/// The first slice of a payment of 100 cents, and then so many frames are free. With pages of 4,096 bytes the slice has
/// written the pages of its warehouse and of its district, and two of HISTORY.
fn half_done<const N: usize, K: Loaded>(rt: &impl Abort, forked: &mut Forked<N, K>, free: u64) {
    assert!(rt; pay_half(rt, forked, 100) == Ok(Progress::More));
    assert!(rt; forked.touched() == 4);
    forked.limit(rt, free);
    assert!(rt; forked.free() == free);
}

/// A half-done payment with one frame more than a fork takes.
fn thin_half_done<const N: usize, K: Loaded>(
    rt: &(impl Abort + AllocGlobal),
    mut forked: Forked<N, K>,
) {
    half_done(rt, &mut forked, 5);
    assert!(rt; forked.fork(rt) == Ok(()) && forked.free() == 1);
    assert!(rt; has_ytd(rt, &forked, 0, 30_000));
    assert!(rt; pay_rest(rt, &mut forked) == Ok(-1100) && forked.free() == 0);
    forked.close(rt, 0);
    forked.end(rt);
}

/// With just the frames that a fork takes.
fn without_a_frame_behind_the_fork<const N: usize, K: Loaded>(
    rt: &(impl Abort + AllocGlobal),
    mut forked: Forked<N, K>,
) {
    half_done(rt, &mut forked, 4);
    assert!(rt; forked.fork(rt) == Ok(()) && forked.free() == 0);
    assert!(rt; has_ytd(rt, &forked, 0, 30_000));
    assert!(rt; pay_rest(rt, &mut forked) == Err(Refusal::NoFrame));
    forked.close(rt, 0);
    forked.end(rt);
}

/// With one frame less than a fork takes.
fn without_the_frames_of_a_fork<const N: usize, K: Loaded>(
    rt: &impl Abort,
    mut forked: Forked<N, K>,
) {
    half_done(rt, &mut forked, 3);
    assert!(rt; forked.fork(rt) == Err(Refusal::NoFrame));
    assert!(rt; forked.shared() == 0 && forked.free() == 3 && forked.touched() == 4);
    assert!(rt; pay_rest(rt, &mut forked) == Ok(-1100));
    forked.end(rt);
}

/// What is seen between the slices of a payment.
fn one_by_one<const N: usize, K: Loaded>(rt: &impl Abort, mut forked: Forked<N, K>) {
    assert!(rt; forked.warehouse() == 1 && forked.step() == Err(Refusal::NotRunning));
    assert!(rt; forked.begin(rt, payment(100)) == Ok(()));
    assert!(rt; !forked.at_last() && forked.touched() == 0);
    assert!(rt; forked.step() == Ok(Progress::More));
    assert!(rt; forked.at_last() && forked.touched() == 4 && forked.kept() == 0);
    assert!(rt; forked.begin(rt, payment(200)) == Err(Refusal::Busy));
    assert!(rt; forked.step() == Ok(Progress::Finished));
    assert!(rt; forked.touched() == 0 && forked.kept() == 1);
    assert!(rt; balance_of(forked.answer(rt)) == Ok(-1100));
    assert!(rt; forked.answer(rt).is_none());
    forked.end(rt);
}

#[test]
fn half_done_with_few_frames(rt: HostRuntime) {
    try_case::<4096, _>(&rt, 1, Case::ThinHalfDone);
    try_case::<4096, _>(&rt, 1, Case::WithoutAFrameBehindTheFork);
    try_case::<4096, _>(&rt, 1, Case::WithoutTheFramesOfAFork);
}

#[test]
fn slices_one_by_one(rt: HostRuntime) {
    try_case::<4096, _>(&rt, 1, Case::OneByOne);
}
