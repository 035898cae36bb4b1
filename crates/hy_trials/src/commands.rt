//! For tests: orders and payments.

use hy_commands::{Command, Payment, Purchase, PurchaseLine, PurchaseLines, Who};
use std::process::Abort;

/// An order of customer 1 of district 1 of a warehouse: five of each item, by the warehouse beside it.
pub fn order_of(rt: &(impl Abort + AllocGlobal), home: u64, lines: &[(u64, u64)]) -> Command {
    let mut all = Vec::new(rt.alloc());
    for (item, supply_warehouse) in lines {
        all.push(PurchaseLine {
            item: *item,
            supply_warehouse: *supply_warehouse,
            quantity: 5,
        })
        .expect(rt, "a line");
    }
    Command::NewOrder(Purchase {
        warehouse: home,
        district: 1,
        customer: 1,
        at: 1,
        lines: PurchaseLines::new(rt.alloc(), &all).expect(rt, "lines"),
    })
}

/// A payment of 100 cents in warehouse 1, by a customer of a warehouse.
pub fn payment_by(customer_warehouse: u64) -> Command {
    Command::Payment(Payment {
        warehouse: 1,
        district: 1,
        customer_warehouse,
        customer_district: 1,
        who: Who::Number(1),
        amount: 100,
        at: 1,
    })
}

/// The payment with a number, of so many cents and a hundred: in warehouse 1 where the number is odd, else in 2, and by a
/// customer of the other one where five divides it.
pub fn numbered_payment(number: u8) -> Command {
    let number = u64::from(number);
    let home = 2 - number % 2;
    let customer_warehouse = if number % 5 == 0 { 3 - home } else { home };
    Command::Payment(Payment {
        warehouse: home,
        district: number % 10 + 1,
        customer_warehouse,
        customer_district: number % 7 + 1,
        who: Who::Number(number % 3 + 1),
        amount: number + 100,
        at: number,
    })
}
