//! Replies.

use hy_rows::{OrderLine, Text};
use hy_schema::Refusal;
use std::marker::Model;

/// The lines of an order, by their numbers.
#[derive(Debug, Drop)]
pub struct StatusLines {
    lines: Vec<OrderLine>,
}

impl Model for StatusLines {
    ghost use Rattle.std.specs.Prelude.{List};
    ghost use Rattle.hy_rows.specs.declared.order_line.OrderLine.{OrderLine};

    ghost Value = { List OrderLine };

    ghost view = { λ lines. lines.lines.items };
}

impl StatusLines {
    ghost use Rattle.std.specs.Prelude.{◌≡◌};

    /// These lines.
    pub fn new(lines: Vec<OrderLine>) -> StatusLines
        ensures { result ≡ lines.items }
    {
        StatusLines { lines }
    }

    /// The lines in their order.
    pub fn as_slice(&self) -> &[OrderLine]
        ensures { result.now ≡ self.now }
    {
        &self.lines
    }
}

/// An order, as Order-Status shows it.
#[derive(Debug, Drop)]
pub struct PlacedOrder {
    /// O_ID.
    pub number: u32,
    /// O_ENTRY_D, a moment.
    pub entry_date: u64,
    /// O_CARRIER_ID, 0 where it isn't delivered.
    pub carrier: u8,
    /// Its lines.
    pub lines: StatusLines,
}

/// The answer to a command.
#[derive(Debug, Drop)]
pub enum Reply {
    /// A purchase was accepted (TPC-C clause 2.4).
    NewOrder {
        /// The number of the order in its district.
        order: u32,
        /// What it comes to with discount and taxes, in cents.
        total: u64,
    },
    /// A payment was accepted (TPC-C clause 2.5).
    Payment {
        /// The number of the customer who paid.
        customer: u16,
        /// The customer's balance after it, in cents.
        balance: i64,
    },
    /// A customer and the customer's last order (TPC-C clause 2.6).
    OrderStatus {
        /// The customer's number.
        customer: u16,
        /// The first name.
        first: Text<16>,
        /// The middle name.
        middle: Text<2>,
        /// The last name.
        last: Text<16>,
        /// The balance in cents.
        balance: i64,
        /// The order with the greatest number, where the customer has one.
        order: Option<PlacedOrder>,
    },
    /// A delivery was done (TPC-C clause 2.7).
    Delivery {
        /// The order that was delivered in each district, 0 where none was.
        orders: [u32; 10],
    },
    /// How many items are low in stock (TPC-C clause 2.8).
    StockLevel {
        /// How many different ones.
        low: u64,
    },
    /// The command changed nothing.
    Refused(Refusal),
}
