//! Commands and commits.

ghost use Rattle.std.specs.Prelude.{◌≡◌, ◌==◌, ◌↔◌, IsTrue, IsOk, IsErrOf, IfOk, length, nat_lt, not};
ghost use Rattle.std.specs.List.{list_all, list_any};
ghost use Rattle.hy_rows.specs.Ranges.{is_between};
ghost use Rattle.hy_commands.specs.declared.command.Command.TheVariants as commands;
ghost use Rattle.hy_commands.specs.Commands.{cents_of, command_of, edition_of, home_of, is_in_range, is_line_in_range, is_moment, is_name, is_reader, is_who, number_of, slice_count, warehouses_of, warehouses_of_commit};
ghost use Rattle.hy_commands.specs.Parts.{with_number};

use crate::{Edition, PurchaseLines};
use hy_rows::{DISTRICTS_PER_WAREHOUSE, MAX_MOMENT};
use hy_schema::Refusal;
use std::alloc::AllocError;
use std::marker::Model;

/// How many characters a last name may have.
pub const MAX_NAME: usize = 16;

/// The least and the greatest number of lines of a purchase (TPC-C clause 2.4.1.3).
pub const MIN_PURCHASE_LINES: usize = 5;

/// See `MIN_PURCHASE_LINES`.
pub const MAX_PURCHASE_LINES: usize = 15;

/// The greatest quantity of a line (TPC-C clause 2.4.1.5).
pub const MAX_LINE_QUANTITY: u64 = 10;

/// The least amount in cents that is paid at once (TPC-C clause 2.5.1.3).
pub const MIN_PAYMENT: u64 = 100;

/// The greatest such amount.
pub const MAX_PAYMENT: u64 = 500_000;

/// The greatest number of a carrier (TPC-C clause 2.7.1.2).
pub const MAX_CARRIER: u64 = 10;

/// The least threshold of Stock-Level (TPC-C clause 2.8.1.2).
pub const MIN_THRESHOLD: u64 = 10;

/// The greatest threshold of Stock-Level.
pub const MAX_THRESHOLD: u64 = 20;

/// A last name, as a command gives it: any bytes.
#[derive(Debug, Drop)]
pub struct Name {
    bytes: Vec<u8>,
}

impl Model for Name {
    ghost use Rattle.std.specs.Prelude.{ℕ, List};

    ghost Value = { List ℕ };

    ghost view = { λ name. name.bytes.items };
}

impl Name {
    ghost use Rattle.std.specs.Prelude.{◌≡◌, IfOk};

    /// The name with these bytes.
    pub fn new(bytes: Vec<u8>) -> Name
        ensures { result ≡ bytes.items }
    {
        Name { bytes }
    }

    /// Its bytes.
    pub fn as_bytes(&self) -> &[u8]
        ensures { result.now ≡ self.now }
    {
        &self.bytes
    }

    /// Another name with the same bytes.
    fn copy(&self) -> Result<Name, AllocError>
        ensures { IfOk result (λ copy. copy ≡ self.now) }
    {
        let bytes = Vec::from_slice(*self.bytes.allocator(), &self.bytes)?;
        Ok(Name { bytes })
    }
}

/// Which customer of a district is meant (TPC-C clauses 2.5.1.2 and 2.6.1.2).
#[derive(Debug, Drop)]
pub enum Who {
    /// The customer with this number.
    Number(u64),
    /// The one in the middle of those with this last name.
    Last(Name),
}

/// A line of a purchase (TPC-C clause 2.4.1.5).
#[derive(Clone, Copy, Debug, PartialEq, Eq)]
pub struct PurchaseLine {
    /// The item.
    pub item: u64,
    /// The warehouse that supplies it.
    pub supply_warehouse: u64,
    /// How many, from 1 to 10.
    pub quantity: u64,
}

/// A New-Order transaction (TPC-C clause 2.4): a customer orders items.
#[derive(Debug, Drop)]
pub struct Purchase {
    /// The home warehouse.
    pub warehouse: u64,
    /// The district of the customer.
    pub district: u64,
    /// The customer.
    pub customer: u64,
    /// The moment, from 1 to `MAX_MOMENT`.
    pub at: u64,
    /// The 5 to 15 lines.
    pub lines: PurchaseLines,
}

/// A Payment transaction (TPC-C clause 2.5): a customer pays an amount at a district of the home warehouse.
#[derive(Debug, Drop)]
pub struct Payment {
    /// The home warehouse.
    pub warehouse: u64,
    /// The district of the home warehouse that takes the payment.
    pub district: u64,
    /// The warehouse of the customer.
    pub customer_warehouse: u64,
    /// The district of the customer.
    pub customer_district: u64,
    /// The customer.
    pub who: Who,
    /// The amount in cents, from 100 to 500,000.
    pub amount: u64,
    /// The moment, from 1 to `MAX_MOMENT`.
    pub at: u64,
}

/// An Order-Status transaction (TPC-C clause 2.6): what became of a customer's last order.
#[derive(Debug, Drop)]
pub struct OrderStatus {
    /// The home warehouse.
    pub warehouse: u64,
    /// The district of the customer.
    pub district: u64,
    /// The customer.
    pub who: Who,
}

/// A Delivery transaction (TPC-C clause 2.7): in each district the oldest undelivered order is delivered.
#[derive(Clone, Copy, Debug, PartialEq, Eq)]
pub struct Delivery {
    /// The home warehouse.
    pub warehouse: u64,
    /// The carrier, from 1 to 10.
    pub carrier: u64,
    /// The moment, from 1 to `MAX_MOMENT`.
    pub at: u64,
}

/// A Stock-Level transaction (TPC-C clause 2.8): how many items of a district's last orders are nearly sold out.
#[derive(Clone, Copy, Debug, PartialEq, Eq)]
pub struct StockLevel {
    /// The home warehouse.
    pub warehouse: u64,
    /// The district.
    pub district: u64,
    /// The threshold of the quantity in stock, from 10 to 20.
    pub threshold: u64,
}

/// A transaction with its parameters, before anything is known of them.
#[derive(Debug, Drop)]
pub enum Command {
    /// A customer orders items.
    NewOrder(Purchase),
    /// A customer pays.
    Payment(Payment),
    /// What became of a customer's last order.
    OrderStatus(OrderStatus),
    /// The oldest undelivered order of each district is delivered.
    Delivery(Delivery),
    /// How many items of a district's last orders are nearly sold out.
    StockLevel(StockLevel),
}

/// A transaction that was accepted, as the kept list has it.
#[derive(Debug, Drop)]
pub enum Commit {
    /// A command that names one warehouse.
    Local(Edition, Command),
    /// A command that names several warehouses, with its number among those commits, from 1.
    Cross(Edition, u64, Command),
}

/// Whether a byte is a printable character.
fn is_printable(byte: u8) -> bool
    ensures { result ≡ is_between 32 126 byte }
{
    (32..=126).contains(&byte)
}

/// Whether all bytes are printable characters.
fn are_printable(bytes: &[u8]) -> bool
    ensures { result ≡ list_all (is_between 32 126) bytes.now }
{
    bytes.iter().all(|byte| is_printable(*byte))
}

impl Name {
    /// Whether it is at most `MAX_NAME` printable characters.
    fn is_name(&self) -> bool
        ensures { result ≡ is_name self.now }
    {
        self.bytes.len() <= MAX_NAME && are_printable(&self.bytes)
    }
}

impl Who {
    /// Whether a last name is in range.
    fn is_in_range(&self) -> bool
        ensures { result ≡ is_who self.now }
    {
        match self {
            Who::Number(_) => true,
            Who::Last(name) => name.is_name(),
        }
    }

    /// The same customer once more.
    fn copy(&self) -> Result<Who, AllocError>
        ensures { IfOk result (λ copy. copy ≡ self.now) }
    {
        match self {
            Who::Number(number) => Ok(Who::Number(*number)),
            Who::Last(name) => Ok(Who::Last(name.copy()?)),
        }
    }

    /// Whether they name a customer the same way.
    fn is_same(&self, other: &Who) -> bool
        ensures { IsTrue result ↔ (self.now ≡ other.now) }
    {
        match (self, other) {
            (Who::Number(number), Who::Number(same)) => number == same,
            (Who::Last(name), Who::Last(same)) => name.as_bytes() == same.as_bytes(),
            _ => false,
        }
    }
}

/// Whether a moment is in range.
fn is_moment(moment: u64) -> bool
    ensures { result ≡ is_moment moment }
{
    (1..=MAX_MOMENT).contains(&moment)
}

impl PurchaseLine {
    /// Whether the quantity is in range.
    pub(crate) fn is_in_range(&self) -> bool
        ensures { result ≡ is_line_in_range self.now }
    {
        (1..=MAX_LINE_QUANTITY).contains(&self.quantity)
    }
}

impl Purchase {
    /// Whether the lines and the moment are in range.
    fn is_in_range(&self) -> bool
        ensures { result ≡ is_in_range (commands.NewOrder self.now) }
    {
        (MIN_PURCHASE_LINES..=MAX_PURCHASE_LINES).contains(&self.lines.len())
            && self.lines.are_in_range()
            && is_moment(self.at)
    }

    /// Whether the warehouse is the home, or supplies a line.
    fn names(&self, warehouse: u64) -> bool
        ensures { result ≡ list_any (λ named. named == warehouse) (warehouses_of (commands.NewOrder self.now)) }
    {
        self.warehouse == warehouse || self.lines.any_comes_from(warehouse)
    }

    /// Whether another warehouse than the home supplies a line.
    fn is_crossing(&self) -> bool
        ensures { result ≡ nat_lt 1 (length (warehouses_of (commands.NewOrder self.now))) }
    {
        !self.lines.all_come_from(self.warehouse)
    }

    /// The same purchase once more.
    fn copy(&self) -> Result<Purchase, AllocError>
        ensures { IfOk result (λ copy. copy ≡ self.now) }
    {
        Ok(Purchase {
            warehouse: self.warehouse,
            district: self.district,
            customer: self.customer,
            at: self.at,
            lines: self.lines.copy()?,
        })
    }

    /// Whether they are the same purchase.
    fn is_same(&self, other: &Purchase) -> bool
        ensures { IsTrue result ↔ (self.now ≡ other.now) }
    {
        self.warehouse == other.warehouse
            && self.district == other.district
            && self.customer == other.customer
            && self.at == other.at
            && self.lines.are_same(&other.lines)
    }
}

impl Payment {
    /// Whether the amount, the moment and a last name are in range.
    fn is_in_range(&self) -> bool
        ensures { result ≡ is_in_range (commands.Payment self.now) }
    {
        (MIN_PAYMENT..=MAX_PAYMENT).contains(&self.amount)
            && is_moment(self.at)
            && self.who.is_in_range()
    }

    /// Whether the warehouse is the home, or that of the customer.
    fn names(&self, warehouse: u64) -> bool
        ensures { result ≡ list_any (λ named. named == warehouse) (warehouses_of (commands.Payment self.now)) }
    {
        self.warehouse == warehouse || self.customer_warehouse == warehouse
    }

    /// Whether the customer's warehouse is another than the home.
    fn is_crossing(&self) -> bool
        ensures { result ≡ nat_lt 1 (length (warehouses_of (commands.Payment self.now))) }
    {
        self.warehouse != self.customer_warehouse
    }

    /// The same payment with its customer named by number.
    fn with_number(self, number: u64) -> Payment
        ensures { commands.Payment result ≡ with_number number (commands.Payment self) }
    {
        let Payment {
            warehouse,
            district,
            customer_warehouse,
            customer_district,
            who: _,
            amount,
            at,
        } = self;
        Payment {
            warehouse,
            district,
            customer_warehouse,
            customer_district,
            who: Who::Number(number),
            amount,
            at,
        }
    }

    /// The same payment once more.
    fn copy(&self) -> Result<Payment, AllocError>
        ensures { IfOk result (λ copy. copy ≡ self.now) }
    {
        Ok(Payment {
            warehouse: self.warehouse,
            district: self.district,
            customer_warehouse: self.customer_warehouse,
            customer_district: self.customer_district,
            who: self.who.copy()?,
            amount: self.amount,
            at: self.at,
        })
    }

    /// Whether they are made by the same customer.
    fn is_by_the_same(&self, other: &Payment) -> bool
        ensures { IsTrue result ↔ ((self.now.customer_warehouse ≡ other.now.customer_warehouse)
            × (self.now.customer_district ≡ other.now.customer_district) × (self.now.who ≡ other.now.who)) }
    {
        self.customer_warehouse == other.customer_warehouse
            && self.customer_district == other.customer_district
            && self.who.is_same(&other.who)
    }

    /// Whether they are the same payment.
    fn is_same(&self, other: &Payment) -> bool
        ensures { IsTrue result ↔ (self.now ≡ other.now) }
    {
        self.warehouse == other.warehouse
            && self.district == other.district
            && self.is_by_the_same(other)
            && self.amount == other.amount
            && self.at == other.at
    }
}

impl OrderStatus {
    /// The same Order-Status once more.
    fn copy(&self) -> Result<OrderStatus, AllocError>
        ensures { IfOk result (λ copy. copy ≡ self.now) }
    {
        Ok(OrderStatus {
            warehouse: self.warehouse,
            district: self.district,
            who: self.who.copy()?,
        })
    }

    /// Whether they are the same question.
    fn is_same(&self, other: &OrderStatus) -> bool
        ensures { IsTrue result ↔ (self.now ≡ other.now) }
    {
        self.warehouse == other.warehouse
            && self.district == other.district
            && self.who.is_same(&other.who)
    }
}

impl Command {
    /// E8 exactly where a value of the command is outside its range: lines 5 to 15, a quantity 1 to 10, an amount 100 to
    /// 500,000 cents, a carrier 1 to 10, a threshold 10 to 20, a moment 1 to 10^15, a last name at most 16 printable
    /// characters (TPC-C clauses 2.4.1, 2.5.1, 2.7.1, 2.8.1). Takes no memory.
    pub fn check(&self) -> Result<(), Refusal>
        ensures ok { IsOk result ↔ IsTrue (is_in_range self.now) }
        ensures out_of_range { IsErrOf result Refusal.OutOfRange ↔ ¬ (IsTrue (is_in_range self.now)) }
    {
        let in_range = match self {
            Command::NewOrder(order) => order.is_in_range(),
            Command::Payment(payment) => payment.is_in_range(),
            Command::OrderStatus(status) => status.who.is_in_range(),
            Command::Delivery(delivery) => {
                (1..=MAX_CARRIER).contains(&delivery.carrier) && is_moment(delivery.at)
            }
            Command::StockLevel(level) => (MIN_THRESHOLD..=MAX_THRESHOLD).contains(
                &level.threshold,
            ),
        };
        if in_range {
            Ok(())
        } else {
            Err(Refusal::OutOfRange)
        }
    }

    /// Whether the command only reads.
    pub fn is_reader(&self) -> bool
        ensures { result ≡ is_reader self.now }
    {
        matches!(self, Command::OrderStatus(_) | Command::StockLevel(_))
    }

    /// The home warehouse.
    pub fn home(&self) -> u64
        ensures { result ≡ home_of self.now }
    {
        match self {
            Command::NewOrder(order) => order.warehouse,
            Command::Payment(payment) => payment.warehouse,
            Command::OrderStatus(status) => status.warehouse,
            Command::Delivery(delivery) => delivery.warehouse,
            Command::StockLevel(level) => level.warehouse,
        }
    }

    /// The cents that the command pays.
    pub fn cents(&self) -> u64
        ensures { result ≡ cents_of self.now }
    {
        match self {
            Command::Payment(payment) => payment.amount,
            _ => 0,
        }
    }

    /// How many slices the command has: a purchase a head and one for each line, a payment two, a delivery one for each
    /// district.
    pub fn slices(&self) -> u64
        ensures { result ≡ slice_count self.now }
    {
        match self {
            Command::NewOrder(order) => order.lines.len() as u64 + 1,
            Command::Payment(_) => 2,
            Command::OrderStatus(_) | Command::StockLevel(_) => 1,
            Command::Delivery(_) => u64::from(DISTRICTS_PER_WAREHOUSE),
        }
    }

    /// The same command, with the customer who pays named by number, if one pays.
    pub fn with_number(self, number: u64) -> Command
        ensures { result ≡ with_number number self }
    {
        match self {
            Command::Payment(payment) => Command::Payment(payment.with_number(number)),
            other => other,
        }
    }

    /// Whether the command names the warehouse, whatever else stands in it. Takes no memory.
    pub fn names(&self, warehouse: u64) -> bool
        ensures { result ≡ list_any (λ named. named == warehouse) (warehouses_of self.now) }
    {
        match self {
            Command::NewOrder(order) => order.names(warehouse),
            Command::Payment(payment) => payment.names(warehouse),
            Command::OrderStatus(status) => status.warehouse == warehouse,
            Command::Delivery(delivery) => delivery.warehouse == warehouse,
            Command::StockLevel(level) => level.warehouse == warehouse,
        }
    }

    /// Whether the command names several warehouses: another than its home. Takes no memory.
    pub fn is_crossing(&self) -> bool
        ensures { result ≡ nat_lt 1 (length (warehouses_of self.now)) }
    {
        match self {
            Command::NewOrder(order) => order.is_crossing(),
            Command::Payment(payment) => payment.is_crossing(),
            _ => false,
        }
    }

    /// The same command once more. An error where it finds no memory.
    pub fn copy(&self) -> Result<Command, AllocError>
        ensures { IfOk result (λ copy. copy ≡ self.now) }
    {
        match self {
            Command::NewOrder(order) => Ok(Command::NewOrder(order.copy()?)),
            Command::Payment(payment) => Ok(Command::Payment(payment.copy()?)),
            Command::OrderStatus(status) => Ok(Command::OrderStatus(status.copy()?)),
            Command::Delivery(delivery) => Ok(Command::Delivery(*delivery)),
            Command::StockLevel(level) => Ok(Command::StockLevel(*level)),
        }
    }

    /// Whether they are the same command, with the same values. Takes no memory.
    pub fn is_same(&self, other: &Command) -> bool
        ensures { IsTrue result ↔ (self.now ≡ other.now) }
    {
        match (self, other) {
            (Command::NewOrder(order), Command::NewOrder(same)) => order.is_same(same),
            (Command::Payment(payment), Command::Payment(same)) => payment.is_same(same),
            (Command::OrderStatus(status), Command::OrderStatus(same)) => status.is_same(same),
            (Command::Delivery(delivery), Command::Delivery(same)) => delivery == same,
            (Command::StockLevel(level), Command::StockLevel(same)) => level == same,
            _ => false,
        }
    }
}

impl Commit {
    /// The command that was accepted.
    pub fn command(&self) -> &Command
        ensures { result.now ≡ command_of self.now }
    {
        match self {
            Commit::Local(_, command) | Commit::Cross(_, _, command) => command,
        }
    }

    /// The edition of the transactions by which it was done.
    pub fn edition(&self) -> Edition
        ensures { result ≡ edition_of self.now }
    {
        match self {
            Commit::Local(edition, _) | Commit::Cross(edition, _, _) => *edition,
        }
    }

    /// Whether the commit names the warehouse.
    pub fn names(&self, warehouse: u64) -> bool
        ensures { result ≡ list_any (λ named. named == warehouse) (warehouses_of_commit self.now) }
    {
        self.command().names(warehouse)
    }

    /// Its number among the commits of several warehouses, if it is one of them.
    pub fn number(&self) -> Option<u64>
        ensures { result ≡ number_of self.now }
    {
        match self {
            Commit::Local(_, _) => None,
            Commit::Cross(_, number, _) => Some(*number),
        }
    }

    /// The same commit once more. An error where it finds no memory.
    pub fn copy(&self) -> Result<Commit, AllocError>
        ensures { IfOk result (λ copy. copy ≡ self.now) }
    {
        match self {
            Commit::Local(edition, command) => Ok(Commit::Local(*edition, command.copy()?)),
            Commit::Cross(edition, number, command) => {
                Ok(Commit::Cross(*edition, *number, command.copy()?))
            }
        }
    }
}
