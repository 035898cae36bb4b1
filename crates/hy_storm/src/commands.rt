//! The commands of a terminal.

ghost use Rattle.std.specs.Prelude.{◌≡◌, ◌≤◌, ◌<◌};

use crate::shape::Shape;
use hy_commands::{
    Command, Delivery, OrderStatus, Payment, Purchase, PurchaseLine, PurchaseLines, StockLevel, Who,
};
use std::alloc::{AllocError, Global};

/// How many lines an order has.
const LINES: u64 = 5;

/// The threshold of Stock-Level.
const THRESHOLD: u64 = 15;

/// Where a turn of a terminal takes place.
#[derive(Clone, Copy, Debug)]
struct Place {
    terminal: u64,
    turn: u64,
    home: u64,
    other: u64,
    district: u64,
}

impl Place {
    /// Where a turn of a terminal takes place, both from 1.
    fn of(shape: &Shape, terminal: u64, turn: u64) -> Place
        requires { (1 ≤ terminal) × (terminal ≤ 64) × (1 ≤ turn) × (turn ≤ 100000) }
        ensures { (result.terminal ≡ terminal) × (result.turn ≡ turn) }
    {
        Place {
            terminal,
            turn,
            home: 1 + (terminal - 1) % shape.warehouses(),
            other: 1 + terminal % shape.warehouses(),
            district: 1 + (terminal + turn) % 10,
        }
    }

    /// Whether this turn, of those of its kind, names the other warehouse.
    fn goes_abroad(&self) -> bool {
        self.turn % 10 < 5
    }

    /// The customer of a warehouse's district.
    fn customer(&self, shape: &Shape, warehouse: u64) -> u64 {
        1 + self.turn % shape.customers(warehouse, self.district)
    }
}

/// The command of a terminal's turn, both from 1: by the turn an order, a payment, an order's status, a stock level or a
/// delivery, and each second order and payment names another warehouse too.
pub fn command_of(
    alloc: Global,
    shape: &Shape,
    terminal: u64,
    turn: u64,
) -> Result<Command, AllocError>
    requires { (1 ≤ terminal) × (terminal ≤ 64) × (1 ≤ turn) × (turn ≤ 100000) }
{
    let place = Place::of(shape, terminal, turn);
    match turn % 5 {
        1 => order(alloc, shape, &place),
        2 => Ok(payment(shape, &place)),
        3 => Ok(Command::OrderStatus(OrderStatus {
            warehouse: place.home,
            district: place.district,
            who: Who::Number(place.customer(shape, place.home)),
        })),
        4 => Ok(Command::StockLevel(StockLevel {
            warehouse: place.home,
            district: place.district,
            threshold: THRESHOLD,
        })),
        _ => Ok(Command::Delivery(Delivery {
            warehouse: place.home,
            carrier: 1 + turn % 10,
            at: turn,
        })),
    }
}

/// An order of five lines. The last one comes from the other warehouse in each second order.
fn order(alloc: Global, shape: &Shape, place: &Place) -> Result<Command, AllocError>
    requires { (place.now.terminal ≤ 64) × (place.now.turn ≤ 100000) }
{
    let mut lines = Vec::with_capacity(alloc, LINES as usize)?;
    for line in 0..LINES {
        let is_abroad = line == LINES - 1 && place.goes_abroad();
        lines.push_reserved(PurchaseLine {
            item: 1 + (place.terminal + place.turn + line) % shape.items(),
            supply_warehouse: if is_abroad { place.other } else { place.home },
            quantity: 1 + (place.turn + line) % 10,
        });
    }
    Ok(Command::NewOrder(Purchase {
        warehouse: place.home,
        district: place.district,
        customer: place.customer(shape, place.home),
        at: place.turn,
        lines: PurchaseLines::new(alloc, &lines)?,
    }))
}

/// A payment. Each second one is by a customer of the other warehouse.
fn payment(shape: &Shape, place: &Place) -> Command
    requires { place.now.turn ≤ 100000 }
{
    let customer_warehouse = if place.goes_abroad() {
        place.other
    } else {
        place.home
    };
    Command::Payment(Payment {
        warehouse: place.home,
        district: place.district,
        customer_warehouse,
        customer_district: place.district,
        who: Who::Number(place.customer(shape, customer_warehouse)),
        amount: 100 + place.turn,
        at: place.turn,
    })
}
