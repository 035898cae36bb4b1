//! The commands of a terminal.

use crate::chance::Chance;
use crate::storm::{CUSTOMERS, ITEMS, Size};
use hy_commands::{
    Command, Delivery, Name, OrderStatus, Payment, Purchase, PurchaseLine, PurchaseLines,
    StockLevel, Who,
};
use std::alloc::{AllocError, Global};

/// Once in so many times a number is beyond its range, or names what isn't there.
const RARE: u64 = 40;

/// In the so many first districts most things happen, so that commands meet.
const BUSY_DISTRICTS: u64 = 2;

/// The last names of the three customers of each district, and one of none.
const NAMES: [&str; 4] = ["BARBARBAR", "BARBAROUGHT", "BARBARABLE", "EINGEINGEING"];

/// Who makes the commands of a terminal up.
#[derive(Clone, Copy, Debug, Drop)]
pub struct Asker {
    chance: Chance,
    terminal: u64,
    warehouses: u64,
}

impl Asker {
    /// That of a terminal, by its number.
    pub fn new(size: Size, terminal: u64) -> Asker {
        Asker {
            chance: Chance::new(size.seed, terminal),
            terminal,
            warehouses: size.warehouses,
        }
    }

    /// How often it looks behind an answer.
    pub fn looks(&mut self) -> u64 {
        self.chance.up_to(3).wrapping_sub(1)
    }

    /// The command of a turn. One that writes has a moment that no other has.
    pub fn command(&mut self, alloc: Global, turn: u64) -> Result<Command, AllocError> {
        let at = self.terminal.wrapping_mul(1000).wrapping_add(turn);
        match self.chance.up_to(10) {
            1..=4 => self.order(alloc, at),
            5..=7 => self.payment(alloc, at),
            8 => Ok(self.delivery(at)),
            9 => self.status(alloc),
            _ => Ok(self.level()),
        }
    }

    /// A number up to this one, but rarely the next one.
    fn rarely_beyond(&mut self, most: u64) -> u64 {
        if self.chance.once_in(RARE) {
            most.saturating_add(1)
        } else {
            self.chance.up_to(most)
        }
    }

    /// A district: mostly one of the first.
    fn district(&mut self) -> u64 {
        if self.chance.once_in(4) {
            self.rarely_beyond(10)
        } else {
            self.chance.up_to(BUSY_DISTRICTS)
        }
    }

    /// A customer, by number or by last name.
    fn who(&mut self, alloc: Global) -> Result<Who, AllocError> {
        if !self.chance.once_in(3) {
            return Ok(Who::Number(self.rarely_beyond(CUSTOMERS)));
        }
        let place = self.rarely_beyond(CUSTOMERS).wrapping_sub(1) as usize;
        let name = NAMES.get(place).unwrap_or(&"");
        Ok(Who::Last(Name::new(Vec::from_slice(alloc, name.as_bytes())?)))
    }

    /// A New-Order. In one of three any warehouse supplies each line, else its home.
    fn order(&mut self, alloc: Global, at: u64) -> Result<Command, AllocError> {
        let home = self.rarely_beyond(self.warehouses);
        let is_abroad = self.chance.once_in(3);
        let count = 4u64.saturating_add(self.chance.up_to(3));
        let mut lines = Vec::new(alloc);
        for _ in 0..count {
            lines.push(self.line(home, is_abroad))?;
        }
        Ok(Command::NewOrder(Purchase {
            warehouse: home,
            district: self.district(),
            customer: self.rarely_beyond(CUSTOMERS),
            at,
            lines: PurchaseLines::new(alloc, &lines)?,
        }))
    }

    /// A line of an order.
    fn line(&mut self, home: u64, is_abroad: bool) -> PurchaseLine {
        PurchaseLine {
            item: if self.chance.once_in(4) {
                self.rarely_beyond(ITEMS)
            } else {
                self.chance.up_to(ITEMS)
            },
            supply_warehouse: if is_abroad {
                self.chance.up_to(self.warehouses)
            } else {
                home
            },
            quantity: if self.chance.once_in(4) {
                self.rarely_beyond(10)
            } else {
                self.chance.up_to(10)
            },
        }
    }

    /// A Payment. In one of three the customer is one of any warehouse.
    fn payment(&mut self, alloc: Global, at: u64) -> Result<Command, AllocError> {
        let home = self.rarely_beyond(self.warehouses);
        let is_abroad = self.chance.once_in(3);
        Ok(Command::Payment(Payment {
            warehouse: home,
            district: self.district(),
            customer_warehouse: if is_abroad {
                self.rarely_beyond(self.warehouses)
            } else {
                home
            },
            customer_district: self.district(),
            who: self.who(alloc)?,
            amount: 98u64.saturating_add(self.chance.up_to(RARE)),
            at,
        }))
    }

    /// A Delivery.
    fn delivery(&mut self, at: u64) -> Command {
        Command::Delivery(Delivery {
            warehouse: self.rarely_beyond(self.warehouses),
            carrier: self.rarely_beyond(10),
            at,
        })
    }

    /// An Order-Status.
    fn status(&mut self, alloc: Global) -> Result<Command, AllocError> {
        Ok(Command::OrderStatus(OrderStatus {
            warehouse: self.rarely_beyond(self.warehouses),
            district: self.district(),
            who: self.who(alloc)?,
        }))
    }

    /// A Stock-Level.
    fn level(&mut self) -> Command {
        Command::StockLevel(StockLevel {
            warehouse: self.rarely_beyond(self.warehouses),
            district: self.district(),
            threshold: 9u64.saturating_add(self.rarely_beyond(11)),
        })
    }
}
