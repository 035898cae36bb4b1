//! Snapshots beside orders, with small and with large pages.

ghost use Rattle.std.specs.Prelude.{◌<◌, ◌≤◌};
ghost use Rattle.hy_frames.specs.FrameTable.{IsPageSize};

use crate::forked::{Body, Forked, On, Size, of_items, run};
use hy_commands::{
    Command, Commit, OrderStatus, Purchase, PurchaseLine, PurchaseLines, Reply, Who,
};
use hy_loads::Load;
use hy_partition::{Loaded, Progress, Snapshot};
use hy_passes::Kit;
use hy_rows::{District, Item, Listed, NewOrder, Order, OrderLine, Stock};
use hy_schema::Refusal;
use std::process::Abort;

/// What a test does with a partition.
#[derive(Drop)]
enum Case {
    HalfDone,
    WithoutItsItem,
    OverSplits,
}

impl<const N: usize> Body for On<N, Case> {
    ghost page_size = { N };

    fn run<K: Loaded, R: Abort + AllocGlobal>(
        &self,
        rt: &R,
        load: &Load,
        kit: Kit<Commit>,
        size: Size,
    ) -> Result<(), Refusal> {
        let forked = Forked::<N, K>::new(rt, load, kit, size)?;
        match &self.case {
            Case::HalfDone => half_done_order(rt, forked),
            Case::WithoutItsItem => order_without_its_item(rt, forked),
            Case::OverSplits => orders_over_splits(rt, forked),
        }
        Ok(())
    }
}

/// A case with a partition of twenty items.
fn try_case<const N: usize, R: Abort + AllocGlobal>(rt: &R, case: Case)
    requires { IsPageSize N }
{
    run(rt, of_items(20), &On::<N, _> { case }).expect(rt, "a partition");
}

/// Whether these orders, this next number in district 1 and this stock of item 1 are in the snapshot at a place, with
/// as many items as it has rows of STOCK, the first of which costs 1.37.
fn has_orders<const N: usize, K: Loaded>(
    rt: &(impl Abort + AllocGlobal),
    forked: &Forked<N, K>,
    place: usize,
    (count, next, quantity): (usize, u32, u16),
) -> bool {
    let snapshot = forked.snapshot(rt, place);
    let orders = snapshot.list::<Order>().expect(rt, "the orders");
    let undelivered = snapshot
        .list::<NewOrder>()
        .expect(rt, "the undelivered orders");
    let districts = snapshot.list::<District>().expect(rt, "the districts");
    let stock = snapshot.list::<Stock>().expect(rt, "the stock");
    let items = snapshot.list::<Item>().expect(rt, "the items");
    match (districts.as_slice(), stock.as_slice(), items.as_slice()) {
        ([district, ..], [supply, ..], [item, ..]) => {
            orders.len() == count
                && undelivered.len() == count
                && items.len() == stock.len()
                && district.next_order == next
                && supply.quantity == quantity
                && item.price == 137
        }
        _ => false,
    }
}

/// An order of five lines in district 1, for these items.
fn order_of(rt: &(impl Abort + AllocGlobal), items: [u64; 5]) -> Command {
    let lines = items.map(|item| PurchaseLine {
        item,
        supply_warehouse: 1,
        quantity: 5,
    });
    let lines = PurchaseLines::new(rt.alloc(), &lines).expect(rt, "lines");
    Command::NewOrder(Purchase {
        warehouse: 1,
        district: 1,
        customer: 1,
        at: 1,
        lines,
    })
}

/// Three slices of an order of five lines, where the partition has twenty items.
fn order_three<const N: usize, K: Loaded>(
    rt: &(impl Abort + AllocGlobal),
    forked: &mut Forked<N, K>,
    third: u64,
) {
    assert!(rt; forked.begin(rt, order_of(rt, [1, 2, third, 4, 5])).is_ok());
    for _ in 0..3 {
        assert!(rt; forked.step() == Ok(Progress::More));
    }
}

/// A snapshot of a half-done order has nothing of it, also once the order is whole.
fn half_done_order<const N: usize, K: Loaded>(
    rt: &(impl Abort + AllocGlobal),
    mut forked: Forked<N, K>,
) {
    order_three(rt, &mut forked, 3);
    assert!(rt; forked.fork(rt) == Ok(()) && has_orders(rt, &forked, 0, (0, 1, 18)));
    forked.finish();
    let answer = forked.answer(rt);
    assert!(rt;
        matches!(
            answer,
            Some((
                Reply::NewOrder {
                    order: 1,
                    total: 5536
                },
                true
            ))
        )
    );
    assert!(rt; has_orders(rt, &forked, 0, (0, 1, 18)));
    forked.close(rt, 0);
    assert!(rt; forked.fork(rt) == Ok(()) && has_orders(rt, &forked, 0, (1, 2, 13)));
    forked.close(rt, 0);
    forked.end(rt);
}

/// An order whose third item isn't there leaves nothing.
fn order_without_its_item<const N: usize, K: Loaded>(
    rt: &(impl Abort + AllocGlobal),
    mut forked: Forked<N, K>,
) {
    order_three(rt, &mut forked, 21);
    forked.finish();
    let answer = forked.answer(rt);
    assert!(rt; matches!(answer, Some((Reply::Refused(Refusal::NoSuchItem), false))));
    assert!(rt; forked.kept() == 0 && forked.touched() == 0);
    assert!(rt; forked.fork(rt) == Ok(()) && has_orders(rt, &forked, 0, (0, 1, 18)));
    forked.close(rt, 0);
    forked.end(rt);
}

#[test]
fn snapshots_of_orders(rt: HostRuntime) {
    try_case::<256, _>(&rt, Case::HalfDone);
    try_case::<4096, _>(&rt, Case::HalfDone);
    try_case::<256, _>(&rt, Case::WithoutItsItem);
    try_case::<4096, _>(&rt, Case::WithoutItsItem);
}

/// Whether two snapshots have the same rows of one table.
fn has_same<R: Listed + PartialEq, const N: usize>(
    rt: &impl Abort,
    one: &Snapshot<N>,
    other: &Snapshot<N>,
) -> bool {
    let rows = one.list::<R>().expect(rt, "the rows");
    let others = other.list::<R>().expect(rt, "the rows");
    rows.as_slice() == others.as_slice()
}

/// The snapshot at a place has the rows of the first one, in the tables that an order changes.
fn agrees_with_first<const N: usize, K: Loaded>(
    rt: &impl Abort,
    forked: &Forked<N, K>,
    place: usize,
) {
    let (first, other) = (forked.snapshot(rt, 0), forked.snapshot(rt, place));
    assert!(rt; has_same::<District, N>(rt, first, other));
    assert!(rt; has_same::<Order, N>(rt, first, other));
    assert!(rt; has_same::<NewOrder, N>(rt, first, other));
    assert!(rt; has_same::<OrderLine, N>(rt, first, other));
    assert!(rt; has_same::<Stock, N>(rt, first, other));
}

/// An order whose last item isn't there: snapshots before it, behind its fourth line and once it is rolled back.
fn order_to_its_last<const N: usize, K: Loaded>(
    rt: &(impl Abort + AllocGlobal),
    forked: &mut Forked<N, K>,
) {
    assert!(rt; forked.fork(rt) == Ok(()));
    assert!(rt; forked.begin(rt, order_of(rt, [1, 2, 3, 4, 21])).is_ok());
    for _ in 0..5 {
        assert!(rt; forked.step() == Ok(Progress::More));
    }
    assert!(rt; forked.fork(rt) == Ok(()));
    forked.finish();
    let answer = forked.answer(rt);
    assert!(rt; matches!(answer, Some((Reply::Refused(Refusal::NoSuchItem), false))));
    assert!(rt; forked.fork(rt) == Ok(()));
    for place in 1..3 {
        agrees_with_first(rt, forked, place);
    }
    for _ in 0..3 {
        forked.close(rt, 0);
    }
}

/// The number that an order gets.
fn number_of<const N: usize, K: Loaded>(
    rt: &(impl Abort + AllocGlobal),
    forked: &mut Forked<N, K>,
) -> u32 {
    assert!(rt; forked.begin(rt, order_of(rt, [1, 2, 3, 4, 5])).is_ok());
    forked.finish();
    match forked.answer(rt) {
        Some((Reply::NewOrder { order, .. }, true)) => order,
        _ => panic!(rt; "an order"),
    }
}

/// The number of the last order of the customer who orders, and how many lines it has.
fn last_order<const N: usize, K: Loaded>(
    rt: &impl Abort,
    forked: &mut Forked<N, K>,
) -> (u32, usize) {
    assert!(rt; forked.begin(rt, status()).is_ok());
    forked.finish();
    match forked.answer(rt) {
        Some(
            (
                Reply::OrderStatus {
                    order: Some(order),
                    ..
                },
                false,
            ),
        ) => { (order.number, order.lines.as_slice().len()) }
        _ => panic!(rt; "an order"),
    }
}

/// What the customer who orders has ordered last.
fn status() -> Command {
    Command::OrderStatus(OrderStatus {
        warehouse: 1,
        district: 1,
        who: Who::Number(1),
    })
}

/// Forty orders of five lines, before each of which one is rolled back behind its fourth line. With pages of 256 bytes a
/// leaf of the lines' index has room for 17 of them, and keeps 13 when it is split for a line behind all others. So some
/// third of the orders split one, most of them also when they are half-done.
fn orders_over_splits<const N: usize, K: Loaded>(
    rt: &(impl Abort + AllocGlobal),
    mut forked: Forked<N, K>,
) {
    for number in 1..=40 {
        order_to_its_last(rt, &mut forked);
        assert!(rt; number_of(rt, &mut forked) == number);
        assert!(rt; last_order(rt, &mut forked) == (number, 5));
    }
    forked.end(rt);
}

#[test]
fn half_done_orders_over_splits(rt: HostRuntime) {
    try_case::<256, _>(&rt, Case::OverSplits);
}
