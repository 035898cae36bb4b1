//! Commands, read from bytes.

ghost use Rattle.std.specs.Prelude.{◌≡◌, ◌≤◌, IfOk, length};
ghost use Rattle.hy_page.specs.Bytes.{number_of};
ghost use Rattle.hy_batches.specs.inside.Seen.{payment_seen, purchase_seen, who_seen};
ghost use Rattle.hy_batches.specs.inside.Reading.{Sees, counted_lines_at, delivery_at, front_at, line_at, lines_at, number_at, payment_at, purchase_at, who_at};

use crate::fault::Malformed;
use crate::seen::{SeenLines, SeenPayment, SeenPurchase, SeenWho};
use hy_commands::{Delivery, MAX_PURCHASE_LINES, PurchaseLine};
use hy_page::number;

/// What stands in the place of a line before it is read.
pub(crate) const NO_LINE: PurchaseLine = PurchaseLine {
    item: 0,
    supply_warehouse: 0,
    quantity: 0,
};

/// So many bytes, and what is left.
#[tactic(auto, unfolding(crate::specs::inside::Reading::front_at))]
pub(crate) fn front_at(count: usize, bytes: &[u8]) -> Result<(&[u8], &[u8]), Malformed>
    ensures front { Sees (λ read. (read.0.now, read.1.now)) result (front_at count bytes.now) }
    ensures size { IfOk result (λ read. length read.0.now ≡ count) }
{
    if bytes.len() < count {
        return Err(Malformed);
    }
    Ok(bytes.split_at(count))
}

/// The number that eight bytes spell, the lowest first.
fn word(bytes: &[u8]) -> u64
    requires { length bytes.now ≡ 8 }
    ensures { result ≡ number_of bytes.now }
{
    let mut digits = [0; 8];
    let whole = &mut digits[..];
    whole.copy_from_slice(bytes);
    u64::from_le_bytes(digits)
}

/// The number that a few bytes spell, the lowest first.
fn spelled(bytes: &[u8]) -> u64
    requires { length bytes.now ≤ 8 }
    ensures { result ≡ number_of bytes.now }
{
    if bytes.len() == 8 {
        word(bytes)
    } else {
        number(bytes)
    }
}

/// A number of so many bytes, the lowest first, and what is left.
#[tactic(auto, unfolding(crate::specs::inside::Reading::number_at))]
pub(crate) fn number_at(width: usize, bytes: &[u8]) -> Result<(u64, &[u8]), Malformed>
    requires { width ≤ 8 }
    ensures { Sees (λ read. (read.0, read.1.now)) result (number_at width bytes.now) }
{
    let (front, rest) = front_at(width, bytes)?;
    Ok((spelled(front), rest))
}

/// Which customer is meant.
#[tactic(auto, unfolding(crate::specs::inside::Reading::who_at))]
fn who_at(bytes: &[u8]) -> Result<(SeenWho<'_>, &[u8]), Malformed>
    ensures { Sees (λ read. (who_seen read.0, read.1.now)) result (who_at bytes.now) }
{
    match bytes {
        [0, rest @ ..] => {
            let (number, rest) = number_at(2, rest)?;
            Ok((SeenWho::Number(number), rest))
        }
        [1, rest @ ..] => {
            let (size, rest) = number_at(1, rest)?;
            let (name, rest) = front_at(size as usize, rest)?;
            Ok((SeenWho::Last(name), rest))
        }
        _ => Err(Malformed),
    }
}

/// A line of a purchase.
#[tactic(auto, unfolding(crate::specs::inside::Reading::line_at))]
pub(crate) fn line_at(bytes: &[u8]) -> Result<(PurchaseLine, &[u8]), Malformed>
    ensures { Sees (λ read. (read.0, read.1.now)) result (line_at bytes.now) }
{
    let (item, rest) = number_at(4, bytes)?;
    let (supply_warehouse, rest) = number_at(1, rest)?;
    let (quantity, rest) = number_at(1, rest)?;
    let line = PurchaseLine {
        item,
        supply_warehouse,
        quantity,
    };
    Ok((line, rest))
}

/// As many lines as there is room for, and what is left.
pub(crate) fn lines_at<'a>(
    lines: &mut [PurchaseLine],
    bytes: &'a [u8],
) -> Result<&'a [u8], Malformed>
    ensures { Sees (λ rest. (lines.new, rest.now)) result (lines_at (length lines.old) bytes.now) }
{
    let mut rest = bytes;
    for place in 0..lines.len() {
        let (line, after) = line_at(rest)?;
        lines[place] = line;
        rest = after;
    }
    Ok(rest)
}

/// How many lines there are, and they.
fn counted_lines_at(bytes: &[u8]) -> Result<(SeenLines<'_>, &[u8]), Malformed>
    ensures { Sees (λ read. (read.0, read.1.now)) result (counted_lines_at bytes.now) }
{
    let (count, bytes) = number_at(1, bytes)?;
    let count = count as usize;
    if MAX_PURCHASE_LINES < count {
        return Err(Malformed);
    }
    if bytes.len() < 6 * count {
        return Err(Malformed);
    }
    Ok((SeenLines { count, bytes }, &bytes[6 * count..]))
}

/// A purchase.
#[tactic(auto, unfolding(crate::specs::inside::Reading::purchase_at))]
pub(crate) fn purchase_at(bytes: &[u8]) -> Result<(SeenPurchase<'_>, &[u8]), Malformed>
    ensures { Sees (λ read. (purchase_seen read.0, read.1.now)) result (purchase_at bytes.now) }
{
    let (warehouse, rest) = number_at(1, bytes)?;
    let (district, rest) = number_at(1, rest)?;
    let (customer, rest) = number_at(2, rest)?;
    let (at, rest) = number_at(8, rest)?;
    let (lines, rest) = counted_lines_at(rest)?;
    let order = SeenPurchase {
        warehouse,
        district,
        customer,
        at,
        lines,
    };
    Ok((order, rest))
}

/// A payment.
#[tactic(auto, unfolding(crate::specs::inside::Reading::payment_at))]
pub(crate) fn payment_at(bytes: &[u8]) -> Result<(SeenPayment<'_>, &[u8]), Malformed>
    ensures { Sees (λ read. (payment_seen read.0, read.1.now)) result (payment_at bytes.now) }
{
    let (warehouse, rest) = number_at(1, bytes)?;
    let (district, rest) = number_at(1, rest)?;
    let (customer_warehouse, rest) = number_at(1, rest)?;
    let (customer_district, rest) = number_at(1, rest)?;
    let (who, rest) = who_at(rest)?;
    let (amount, rest) = number_at(4, rest)?;
    let (at, rest) = number_at(8, rest)?;
    let payment = SeenPayment {
        warehouse,
        district,
        customer_warehouse,
        customer_district,
        who,
        amount,
        at,
    };
    Ok((payment, rest))
}

/// A delivery.
#[tactic(auto, unfolding(crate::specs::inside::Reading::delivery_at))]
pub(crate) fn delivery_at(bytes: &[u8]) -> Result<(Delivery, &[u8]), Malformed>
    ensures { Sees (λ read. (read.0, read.1.now)) result (delivery_at bytes.now) }
{
    let (warehouse, rest) = number_at(1, bytes)?;
    let (carrier, rest) = number_at(1, rest)?;
    let (at, rest) = number_at(8, rest)?;
    let delivery = Delivery {
        warehouse,
        carrier,
        at,
    };
    Ok((delivery, rest))
}
