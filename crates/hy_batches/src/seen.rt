//! Commands as they are read: nothing of them takes memory.

ghost use Rattle.std.specs.Prelude.{◌≡◌, ◌==◌, ◌<◌, ◌≤◌, ◌+◌, ◌*◌, IfOk, drop, length, nat_lt, slice_get};
ghost use Rattle.std.specs.List.{list_all, list_any};
ghost use Rattle.hy_rows.specs.Limits.{max_lines};
ghost use Rattle.hy_rows.specs.Ranges.{is_between};
ghost use Rattle.hy_batches.specs.inside.Reading.{commit_of, line_in, lines_in, may_have};
ghost use Rattle.hy_commands.specs.Commands.{is_in_range, is_line_in_range, is_moment, is_who, warehouses_of};
ghost use Rattle.hy_commands.specs.Parts.{is_by_number};
ghost use Rattle.hy_commands.specs.declared.edition.Edition.{Edition};
ghost use Rattle.hy_commands.specs.declared.command.Command.TheVariants as commands;
ghost use Rattle.hy_batches.specs.Grammar.{is_allowed};
ghost use Rattle.hy_batches.specs.inside.Seen.{payment_seen, purchase_seen, who_seen};

use crate::fault::Malformed;
use crate::values::{line_at, lines_at};
use hy_commands::{
    Delivery, MAX_CARRIER, MAX_LINE_QUANTITY, MAX_NAME, MAX_PAYMENT, MAX_PURCHASE_LINES,
    MIN_PAYMENT, MIN_PURCHASE_LINES, Name, Payment, Purchase, PurchaseLine, PurchaseLines, Who,
};
use hy_rows::MAX_MOMENT;
use std::alloc::{AllocError, Global};
use std::marker::Model;

/// Which customer is meant.
#[derive(Clone, Copy, Debug)]
pub(crate) enum SeenWho<'a> {
    /// The customer with this number.
    Number(u64),
    /// The one in the middle of those with this last name.
    Last(&'a [u8]),
}

/// The lines of a purchase, where they stand, six bytes each.
#[derive(Debug, Drop)]
pub(crate) struct SeenLines<'a> {
    /// How many there are.
    pub count: usize,
    /// Their bytes, and others behind them.
    pub bytes: &'a [u8],
}

impl<'a> Model for SeenLines<'a> {
    ghost use Rattle.std.specs.Prelude.{◌≤◌, ◌*◌, List, length};
    ghost use Rattle.hy_rows.specs.Limits.{max_lines};
    ghost use Rattle.hy_commands.specs.declared.command.PurchaseLine.{PurchaseLine};
    ghost use Rattle.hy_batches.specs.inside.Reading.{lines_in};

    ghost Value = { List PurchaseLine };

    ghost view = { λ lines. lines_in lines.count lines.bytes.now };

    ghost invariant = { λ lines. (lines.count ≤ max_lines) × (6 * lines.count ≤ length lines.bytes.now) };
}

/// A purchase.
#[derive(Debug, Drop)]
pub(crate) struct SeenPurchase<'a> {
    pub warehouse: u64,
    pub district: u64,
    pub customer: u64,
    pub at: u64,
    pub lines: SeenLines<'a>,
}

/// A payment.
#[derive(Clone, Copy, Debug)]
pub(crate) struct SeenPayment<'a> {
    pub warehouse: u64,
    pub district: u64,
    pub customer_warehouse: u64,
    pub customer_district: u64,
    pub who: SeenWho<'a>,
    pub amount: u64,
    pub at: u64,
}

/// Whether a moment is in range.
fn is_moment(moment: u64) -> bool
    ensures { result ≡ is_moment moment }
{
    (1..=MAX_MOMENT).contains(&moment)
}

/// Whether the quantity of a line is in range.
fn is_line_in_range(line: &PurchaseLine) -> bool
    ensures { result ≡ is_line_in_range line.now }
{
    (1..=MAX_LINE_QUANTITY).contains(&line.quantity)
}

/// Whether all bytes are printable characters.
fn are_printable(bytes: &[u8]) -> bool
    ensures { result ≡ list_all (is_between 32 126) bytes.now }
{
    bytes.iter().all(|byte| (32..=126).contains(byte))
}

impl<'a> SeenWho<'a> {
    /// Whether a last name is in range.
    fn is_in_range(&self) -> bool
        ensures { result ≡ is_who (who_seen self.now) }
    {
        match self {
            SeenWho::Number(_) => true,
            SeenWho::Last(name) => { name.len() <= MAX_NAME && are_printable(name) }
        }
    }

    /// The same, kept.
    fn keep(&self, alloc: Global) -> Result<Who, AllocError>
        ensures { IfOk result (λ kept. kept ≡ who_seen self.now) }
    {
        match self {
            SeenWho::Number(number) => Ok(Who::Number(*number)),
            SeenWho::Last(name) => Ok(Who::Last(Name::new(Vec::from_slice(alloc, name)?))),
        }
    }
}

/// The line that stands in some bytes behind so many others.
fn line_behind(bytes: &[u8], place: usize) -> PurchaseLine
    requires few { place < max_lines }
    requires there { 6 * place + 6 ≤ length bytes.now }
    ensures { result ≡ line_in (drop (6 * place) bytes.now) }
{
    match line_at(&bytes[6 * place..]) {
        Ok((line, _rest)) => line,
        Err(Malformed) => unreachable!(),
    }
}

/// As many lines as there is room for, which stand in some bytes.
fn lines_of(bytes: &[u8], lines: &mut [PurchaseLine])
    requires { 6 * length lines.old ≤ length bytes.now }
    ensures { lines.new ≡ lines_in (length lines.old) bytes.now }
{
    match lines_at(lines, bytes) {
        Ok(_rest) => {}
        Err(Malformed) => unreachable!(),
    }
}

impl<'a> SeenLines<'a> {
    /// How many there are.
    fn len(&self) -> usize
        ensures { result ≡ length self.now }
    {
        self.count
    }

    /// The line at a place, from 0.
    fn line(&self, place: usize) -> PurchaseLine
        requires { place < length self.now }
        ensures { slice_get self.now place ≡ Some result }
    {
        line_behind(self.bytes, place)
    }

    /// Whether the quantities of all are in range.
    fn are_in_range(&self) -> bool
        ensures { result ≡ list_all is_line_in_range self.now }
    {
        for place in 0..self.len() {
            if !is_line_in_range(&self.line(place)) {
                return false;
            }
        }
        true
    }

    /// Whether a warehouse supplies each of them.
    fn all_come_from(&self, warehouse: u64) -> bool
        ensures { result ≡ list_all (λ line. line.supply_warehouse == warehouse) self.now }
    {
        for place in 0..self.len() {
            if self.line(place).supply_warehouse != warehouse {
                return false;
            }
        }
        true
    }

    /// Whether a warehouse supplies one of them.
    fn any_comes_from(&self, warehouse: u64) -> bool
        ensures { result ≡ list_any (λ line. line.supply_warehouse == warehouse) self.now }
    {
        for place in 0..self.len() {
            if self.line(place).supply_warehouse == warehouse {
                return true;
            }
        }
        false
    }

    /// The same, kept.
    fn keep(
        &self,
        alloc: Global,
        room: &mut [PurchaseLine; MAX_PURCHASE_LINES],
    ) -> Result<PurchaseLines, AllocError>
        ensures { IfOk result (λ kept. kept ≡ self.now) }
    {
        let whole = &mut room[..];
        let lines = &mut whole[..self.count];
        lines_of(self.bytes, lines);
        PurchaseLines::new(alloc, lines)
    }
}

impl<'a> SeenPurchase<'a> {
    /// Whether the lines and the moment are in range.
    fn is_in_range(&self) -> bool
        ensures { result ≡ is_in_range (commands.NewOrder (purchase_seen self.now)) }
    {
        (MIN_PURCHASE_LINES..=MAX_PURCHASE_LINES).contains(&self.lines.len())
            && self.lines.are_in_range()
            && is_moment(self.at)
    }

    /// Whether the warehouse is the home, or supplies a line.
    fn names(&self, warehouse: u64) -> bool
        ensures { result ≡ list_any (λ named. named == warehouse) (warehouses_of (commands.NewOrder (purchase_seen self.now))) }
    {
        self.warehouse == warehouse || self.lines.any_comes_from(warehouse)
    }

    /// Whether another warehouse than the home supplies a line.
    fn is_crossing(&self) -> bool
        ensures { result ≡ nat_lt 1 (length (warehouses_of (commands.NewOrder (purchase_seen self.now)))) }
    {
        !self.lines.all_come_from(self.warehouse)
    }

    /// Whether its commit names as many warehouses as it may: several where it has a number, and else one.
    fn may_have(&self, number: Option<u64>) -> bool
        ensures { result ≡ may_have number (commands.NewOrder (purchase_seen self.now)) }
    {
        match number {
            None => !self.is_crossing(),
            Some(number) => self.is_crossing() && 1 <= number,
        }
    }

    /// Whether its commit may stand in the list of a warehouse.
    pub(crate) fn is_allowed(&self, number: Option<u64>, warehouse: u64) -> bool
        ensures { (edition : Edition) → result ≡ is_allowed warehouse (commit_of edition number (commands.NewOrder (purchase_seen self.now))) }
    {
        self.is_in_range() && self.names(warehouse) && self.may_have(number)
    }

    /// The same, kept, by way of room for its lines.
    pub(crate) fn keep(
        &self,
        alloc: Global,
        room: &mut [PurchaseLine; MAX_PURCHASE_LINES],
    ) -> Result<Purchase, AllocError>
        ensures { IfOk result (λ kept. kept ≡ purchase_seen self.now) }
    {
        Ok(Purchase {
            warehouse: self.warehouse,
            district: self.district,
            customer: self.customer,
            at: self.at,
            lines: self.lines.keep(alloc, room)?,
        })
    }
}

impl<'a> SeenPayment<'a> {
    /// Whether the amount, the moment and a last name are in range.
    fn is_in_range(&self) -> bool
        ensures { result ≡ is_in_range (commands.Payment (payment_seen self.now)) }
    {
        (MIN_PAYMENT..=MAX_PAYMENT).contains(&self.amount)
            && is_moment(self.at)
            && self.who.is_in_range()
    }

    /// Whether the warehouse is the home, or that of the customer.
    fn names(&self, warehouse: u64) -> bool
        ensures { result ≡ list_any (λ named. named == warehouse) (warehouses_of (commands.Payment (payment_seen self.now))) }
    {
        self.warehouse == warehouse || self.customer_warehouse == warehouse
    }

    /// Whether the customer's warehouse is another than the home.
    fn is_crossing(&self) -> bool
        ensures { result ≡ nat_lt 1 (length (warehouses_of (commands.Payment (payment_seen self.now)))) }
    {
        self.warehouse != self.customer_warehouse
    }

    /// Whether it names the customer by number.
    fn is_by_number(&self) -> bool
        ensures { result ≡ is_by_number (commands.Payment (payment_seen self.now)) }
    {
        matches!(self.who, SeenWho::Number(_))
    }

    /// Whether its commit names as many warehouses as it may: several where it has a number, and else one.
    fn may_have(&self, number: Option<u64>) -> bool
        ensures { result ≡ may_have number (commands.Payment (payment_seen self.now)) }
    {
        match number {
            None => !self.is_crossing(),
            Some(number) => self.is_crossing() && 1 <= number && self.is_by_number(),
        }
    }

    /// Whether its commit may stand in the list of a warehouse.
    pub(crate) fn is_allowed(&self, number: Option<u64>, warehouse: u64) -> bool
        ensures { (edition : Edition) → result ≡ is_allowed warehouse (commit_of edition number (commands.Payment (payment_seen self.now))) }
    {
        self.is_in_range() && self.names(warehouse) && self.may_have(number)
    }

    /// The same, kept.
    pub(crate) fn keep(&self, alloc: Global) -> Result<Payment, AllocError>
        ensures { IfOk result (λ kept. kept ≡ payment_seen self.now) }
    {
        Ok(Payment {
            warehouse: self.warehouse,
            district: self.district,
            customer_warehouse: self.customer_warehouse,
            customer_district: self.customer_district,
            who: self.who.keep(alloc)?,
            amount: self.amount,
            at: self.at,
        })
    }
}

/// Whether the values of a delivery are in range.
fn is_delivery_in_range(delivery: &Delivery) -> bool
    ensures { result ≡ is_in_range (commands.Delivery delivery.now) }
{
    (1..=MAX_CARRIER).contains(&delivery.carrier) && is_moment(delivery.at)
}

/// Whether the commit of a delivery, which names one warehouse, may stand in the list of a warehouse.
pub(crate) fn is_delivery_allowed(delivery: &Delivery, number: Option<u64>, warehouse: u64) -> bool
    ensures { (edition : Edition) → result ≡ is_allowed warehouse (commit_of edition number (commands.Delivery delivery.now)) }
{
    is_delivery_in_range(delivery) && delivery.warehouse == warehouse && number.is_none()
}
