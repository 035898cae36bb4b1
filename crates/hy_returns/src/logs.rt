//! For tests: logs of payments, orders and deliveries.

use hy_batches::{Batches, Text, read_log, write_lists};
use hy_commands::{
    Command, Commit, Delivery, Edition, Payment, Purchase, PurchaseLine, PurchaseLines, Who,
};
use std::alloc::Global;
use std::process::Abort;

/// Lists that are written as a batch of an edition is, whatever stands in them.
#[derive(Drop)]
pub struct LogPage {
    edition: Edition,
    lists: Vec<Vec<Commit>>,
}

/// The page of an edition and of so many warehouses, with these commits, each in the list of a warehouse.
pub fn page(
    rt: &impl Abort,
    alloc: Global,
    edition: Edition,
    count: u64,
    commits: Vec<(u64, Commit)>,
) -> LogPage {
    let mut lists = Vec::new(alloc);
    for _ in 0..count {
        lists.push(Vec::new(alloc)).expect(rt, "a list");
    }
    for (warehouse, commit) in commits {
        let place = (warehouse as usize).wrapping_sub(1);
        assert!(rt; place < lists.len());
        lists[place].push(commit).expect(rt, "a commit");
    }
    LogPage { edition, lists }
}

/// Writes a page behind others.
pub fn write(text: &mut Text, page: &LogPage) {
    write_lists(text, page.edition, &page.lists);
}

/// A payment of so many cents in district 1 of a warehouse, by a customer of district 1 of another or of the same.
pub fn payment(warehouse: u64, customer_warehouse: u64, customer: u64, amount: u64) -> Command {
    Command::Payment(Payment {
        warehouse,
        district: 1,
        customer_warehouse,
        customer_district: 1,
        who: Who::Number(customer),
        amount,
        at: 1,
    })
}

/// An order of customer 1 of district 1 of a warehouse: five lines of an item each.
pub fn order(
    rt: &impl Abort,
    alloc: Global,
    home: u64,
    item: u64,
    supply_warehouse: u64,
) -> Command {
    let line = PurchaseLine {
        item,
        supply_warehouse,
        quantity: 5,
    };
    Command::NewOrder(Purchase {
        warehouse: home,
        district: 1,
        customer: 1,
        at: 1,
        lines: PurchaseLines::new(alloc, &[line; 5]).expect(rt, "lines"),
    })
}

/// A delivery in a warehouse.
pub fn delivery(warehouse: u64) -> Command {
    Command::Delivery(Delivery {
        warehouse,
        carrier: 1,
        at: 2,
    })
}

/// The batches of a log.
pub fn read<R: Abort + AllocGlobal>(rt: &R, bytes: &[u8]) -> Batches {
    match read_log(rt.alloc(), bytes) {
        Ok(batches) => batches,
        Err(_) => panic!(rt; "no log"),
    }
}

/// A log of so many batches of an edition, each with a payment of 1.00 in the first of so many warehouses.
pub fn written<R: Abort + AllocGlobal>(
    rt: &R,
    edition: Edition,
    warehouses: u64,
    count: u64,
) -> Text {
    let mut text = Text::new(rt.alloc());
    for _ in 0..count {
        let mut commits = Vec::new(rt.alloc());
        commits
            .push((1, Commit::Local(edition, payment(1, 1, 1, 100))))
            .expect(rt, "a commit");
        let page = page(rt, rt.alloc(), edition, warehouses, commits);
        write(&mut text, &page);
    }
    text
}
