//! Commands, as a script says them.

ghost use Rattle.std.specs.Prelude.{◌≡◌, IfOk, IsSome, IsSomeAnd, None, OnErr, bytes_eq, is_some, option_map, true};
ghost use Rattle.hy_events.specs.Words.{later_words};
ghost use Rattle.hy_events.specs.Events.{command_of, delivery_of, each_line, is_by_name, line_of, lines_of, order_status_of, payment_of, purchase_of, stock_level_of, takes_memory, who_at, who_of};
ghost use Rattle.hy_events.specs.inside.Who.{who_written};

use crate::parts::Parts;
use hy_commands::{
    Command, Delivery, Name, OrderStatus, Payment, Purchase, PurchaseLine, PurchaseLines,
    StockLevel, Who,
};
use hy_decimal::number;
use std::alloc::{AllocError, Global};

/// A customer as a word says it: a number, or a last name, which is a part of the word.
#[derive(Clone, Copy, Debug)]
pub enum WrittenWho<'a> {
    /// The number.
    Number(u64),
    /// The last name.
    Last(&'a [u8]),
}

/// The command of a name with these words behind it, if they are one. An error where it finds no memory.
pub fn read_command(
    alloc: Global,
    name: &[u8],
    given: &mut Parts<'_>,
) -> Result<Option<Command>, AllocError>
    ensures read { IfOk result (λ found. found ≡ command_of name.now given.old) }
    ensures refused { OnErr result
        (IsSomeAnd (command_of name.now given.old) (λ command. takes_memory command ≡ true)) }
{
    if is(name, "neworder") {
        return Ok(read_purchase(alloc, given)?.map(|order| Command::NewOrder(order)));
    }
    if is(name, "payment") {
        return Ok(read_payment(alloc, given)?.map(|payment| Command::Payment(payment)));
    }
    if is(name, "orderstatus") {
        return Ok(read_order_status(alloc, given)?.map(|status| Command::OrderStatus(status)));
    }
    if is(name, "delivery") {
        return Ok(read_delivery(given).map(|delivery| Command::Delivery(delivery)));
    }
    if is(name, "stocklevel") {
        return Ok(read_stock_level(given).map(|level| Command::StockLevel(level)));
    }
    Ok(None)
}

/// Whether a word is this one.
pub fn is(word: &[u8], other: &str) -> bool
    ensures { result ≡ bytes_eq word.now other.now }
{
    word == other.as_bytes()
}

/// A purchase: `W D C AT ITEM:SUPPLY:QTY ..`.
fn read_purchase(alloc: Global, given: &mut Parts<'_>) -> Result<Option<Purchase>, AllocError>
    ensures read { IfOk result (λ found. found ≡ purchase_of given.old) }
    ensures refused { OnErr result (IsSome (purchase_of given.old)) }
{
    let Some(warehouse) = given.take_number() else {
        return Ok(None);
    };
    let Some(district) = given.take_number() else {
        return Ok(None);
    };
    let Some(customer) = given.take_number() else {
        return Ok(None);
    };
    let Some(at) = given.take_number() else {
        return Ok(None);
    };
    let Some(lines) = read_lines(alloc, given)? else {
        return Ok(None);
    };
    Ok(Some(Purchase {
        warehouse,
        district,
        customer,
        at,
        lines,
    }))
}

/// The lines of a purchase, of which there is at least one.
fn read_lines(alloc: Global, given: &mut Parts<'_>) -> Result<Option<PurchaseLines>, AllocError>
    ensures read { IfOk result (λ found. found ≡ lines_of given.old) }
    ensures refused { OnErr result (IsSome (lines_of given.old)) }
{
    if !given.has_more() {
        return Ok(None);
    }
    let mut lines = Vec::new(alloc);
    while let Some(word) = given.take_part() {
        let Some(line) = read_line(word) else {
            return Ok(None);
        };
        let Ok(()) = lines.push(line) else {
            return without_memory(given);
        };
    }
    Ok(Some(PurchaseLines::new(alloc, &lines)?))
}

/// What is read of a purchase one of whose lines finds no memory: nothing, where a word behind it is no line.
fn without_memory(given: &mut Parts<'_>) -> Result<Option<PurchaseLines>, AllocError>
    ensures bad { IfOk result (λ found. (found ≡ None) × (each_line given.old ≡ None)) }
    ensures refused { OnErr result (IsSome (each_line given.old)) }
{
    if are_lines(given) {
        Err(AllocError)
    } else {
        Ok(None)
    }
}

/// Whether each of these words is a line of a purchase.
fn are_lines(given: &mut Parts<'_>) -> bool
    ensures { result ≡ is_some (each_line given.old) }
{
    while let Some(word) = given.take_part() {
        let Some(_line) = read_line(word) else {
            return false;
        };
    }
    true
}

/// A line of a purchase: `ITEM:SUPPLY:QTY`.
fn read_line(word: &[u8]) -> Option<PurchaseLine>
    ensures { result ≡ line_of word.now }
{
    let mut given = Parts::new(b':', word);
    let item = given.take_number()?;
    let supply_warehouse = given.take_number()?;
    let quantity = given.take_number()?;
    if given.has_more() {
        return None;
    }
    Some(PurchaseLine {
        item,
        supply_warehouse,
        quantity,
    })
}

/// A payment: `W D CW CD WHO AMOUNT AT`.
fn read_payment(alloc: Global, given: &mut Parts<'_>) -> Result<Option<Payment>, AllocError>
    ensures read { IfOk result (λ found. found ≡ payment_of given.old) }
    ensures refused { OnErr result
        (IsSomeAnd (payment_of given.old) (λ payment. is_by_name payment.who ≡ true)) }
{
    let Some(warehouse) = given.take_number() else {
        return Ok(None);
    };
    let Some(district) = given.take_number() else {
        return Ok(None);
    };
    let Some(customer_warehouse) = given.take_number() else {
        return Ok(None);
    };
    let Some(customer_district) = given.take_number() else {
        return Ok(None);
    };
    let Some(who) = read_who(given) else {
        return Ok(None);
    };
    let Some(amount) = given.take_number() else {
        return Ok(None);
    };
    let Some(at) = given.take_number() else {
        return Ok(None);
    };
    if given.has_more() {
        return Ok(None);
    }
    let who = owned(alloc, who)?;
    Ok(Some(Payment {
        warehouse,
        district,
        customer_warehouse,
        customer_district,
        who,
        amount,
        at,
    }))
}

/// Order-Status: `W D WHO`.
fn read_order_status(
    alloc: Global,
    given: &mut Parts<'_>,
) -> Result<Option<OrderStatus>, AllocError>
    ensures read { IfOk result (λ found. found ≡ order_status_of given.old) }
    ensures refused { OnErr result
        (IsSomeAnd (order_status_of given.old) (λ status. is_by_name status.who ≡ true)) }
{
    let Some(warehouse) = given.take_number() else {
        return Ok(None);
    };
    let Some(district) = given.take_number() else {
        return Ok(None);
    };
    let Some(who) = read_who(given) else {
        return Ok(None);
    };
    if given.has_more() {
        return Ok(None);
    }
    let who = owned(alloc, who)?;
    Ok(Some(OrderStatus {
        warehouse,
        district,
        who,
    }))
}

/// A delivery: `W CARRIER AT`.
fn read_delivery(given: &mut Parts<'_>) -> Option<Delivery>
    ensures { result ≡ delivery_of given.old }
{
    let warehouse = given.take_number()?;
    let carrier = given.take_number()?;
    let at = given.take_number()?;
    if given.has_more() {
        return None;
    }
    Some(Delivery {
        warehouse,
        carrier,
        at,
    })
}

/// Stock-Level: `W D T`.
fn read_stock_level(given: &mut Parts<'_>) -> Option<StockLevel>
    ensures { result ≡ stock_level_of given.old }
{
    let warehouse = given.take_number()?;
    let district = given.take_number()?;
    let threshold = given.take_number()?;
    if given.has_more() {
        return None;
    }
    Some(StockLevel {
        warehouse,
        district,
        threshold,
    })
}

/// A customer: a number, or `=` and a last name.
fn read_who<'a>(given: &mut Parts<'a>) -> Option<WrittenWho<'a>>
    ensures who { option_map who_written result ≡ who_at 0 given.old }
    ensures later { given.new ≡ later_words given.old }
{
    who(given.take_part()?)
}

/// The customer that a word says.
fn who<'a>(word: &'a [u8]) -> Option<WrittenWho<'a>>
    ensures { option_map who_written result ≡ who_of word.now }
{
    if !word.is_empty() && word[0] == b'=' {
        return Some(WrittenWho::Last(&word[1..]));
    }
    let number = number(word)?;
    Some(WrittenWho::Number(number))
}

/// The same customer, with a name of its own. An error where the name finds no memory.
fn owned(alloc: Global, who: WrittenWho<'_>) -> Result<Who, AllocError>
    ensures who { IfOk result (λ made. made ≡ who_written who.entry) }
    ensures refused { OnErr result (is_by_name (who_written who.entry) ≡ true) }
{
    match who {
        WrittenWho::Number(number) => Ok(Who::Number(number)),
        WrittenWho::Last(name) => {
            let bytes = Vec::from_slice(alloc, name)?;
            Ok(Who::Last(Name::new(bytes)))
        }
    }
}
