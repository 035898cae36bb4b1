//! The lines that stand for replies.

ghost use Rattle.std.specs.Prelude.{◌≡◌, ◌++◌, IsTrue, List, ℕ, OnErr, OnOk, codes, decimal};
ghost use Rattle.std.specs.Fmt.{signed_decimal};
ghost use Rattle.std.specs.List.{flat_map};
ghost use Rattle.std.specs.Io.KnownBytes.{Appends};
ghost use Rattle.hy_events.specs.Replies.{customer_text, line_text, order_text, reply_text};

use hy_commands::{PlacedOrder, Reply};
use hy_output::Output;
use hy_rows::{OrderLine, Text};
use std::io;

/// Writes the line or lines that stand for a reply. Fails as the output does.
pub fn write_reply<O: Output>(out: &mut O, reply: &Reply) -> io::Result<()>
    ensures written { OnOk result (Appends (O.contents out.old) (O.contents out.new) (reply_text reply.now)) }
    ensures failed { OnErr result (IsTrue (O.has_failed out.new)) }
{
    match reply {
        Reply::NewOrder { order, total } => writeln!(out, "order {order} total {total}"),
        Reply::Payment { customer, balance } => write_paid(out, *customer, *balance),
        Reply::OrderStatus {
            customer,
            first,
            middle,
            last,
            balance,
            order,
        } => {
            write_customer(out, *customer, first, middle, last)?;
            write_balance(out, *balance)?;
            write_order(out, order)
        }
        Reply::Delivery { orders } => write_delivered(out, orders),
        Reply::StockLevel { low } => writeln!(out, "low {low}"),
        Reply::Refused(refusal) => writeln!(out, "refused {refusal}"),
    }
}

/// Writes the number of the customer who paid, and the balance.
fn write_paid<O: Output>(out: &mut O, customer: u16, balance: i64) -> io::Result<()>
    ensures written { OnOk result (Appends (O.contents out.old) (O.contents out.new)
        (codes "paid customer " ++ decimal customer ++ codes " balance " ++ signed_decimal balance ++ codes "\n")) }
    ensures failed { OnErr result (IsTrue (O.has_failed out.new)) }
{
    writeln!(out, "paid customer {customer} balance {balance}")
}

/// Writes the balance of a customer behind the names.
fn write_balance<O: Output>(out: &mut O, balance: i64) -> io::Result<()>
    ensures written { OnOk result (Appends (O.contents out.old) (O.contents out.new)
        (codes " balance " ++ signed_decimal balance ++ codes "\n")) }
    ensures failed { OnErr result (IsTrue (O.has_failed out.new)) }
{
    writeln!(out, " balance {balance}")
}

/// Writes the number and the names of a customer.
fn write_customer<O: Output>(
    out: &mut O,
    customer: u16,
    first: &Text<16>,
    middle: &Text<2>,
    last: &Text<16>,
) -> io::Result<()>
    ensures written { OnOk result (Appends (O.contents out.old) (O.contents out.new)
        (customer_text customer first.now middle.now last.now)) }
    ensures failed { OnErr result (IsTrue (O.has_failed out.new)) }
{
    write!(out, "status customer {customer} ")?;
    out.write_all(first.as_bytes())?;
    out.write_all(b" ")?;
    out.write_all(middle.as_bytes())?;
    out.write_all(b" ")?;
    out.write_all(last.as_bytes())
}

/// Writes an order and its lines, or that there is none.
fn write_order<O: Output>(out: &mut O, order: &Option<PlacedOrder>) -> io::Result<()>
    ensures written { OnOk result (Appends (O.contents out.old) (O.contents out.new) (order_text order.now)) }
    ensures failed { OnErr result (IsTrue (O.has_failed out.new)) }
{
    let Some(order) = order else {
        return out.write_all(b"no order\n");
    };
    let number = order.number;
    let entry = order.entry_date;
    let carrier = order.carrier;
    writeln!(out, "order {number} entry {entry} carrier {carrier}")?;
    write_lines(out, order.lines.as_slice())
}

/// Writes the lines of an order.
fn write_lines<O: Output>(out: &mut O, lines: &[OrderLine]) -> io::Result<()>
    ensures written { OnOk result (Appends (O.contents out.old) (O.contents out.new) (flat_map line_text lines.now)) }
    ensures failed { OnErr result (IsTrue (O.has_failed out.new)) }
{
    for line in lines {
        write_line(out, line)?;
    }
    Ok(())
}

/// Writes a line of an order.
fn write_line<O: Output>(out: &mut O, line: &OrderLine) -> io::Result<()>
    ensures written { OnOk result (Appends (O.contents out.old) (O.contents out.new) (line_text line.now)) }
    ensures failed { OnErr result (IsTrue (O.has_failed out.new)) }
{
    let number = line.number;
    let item = line.item;
    let supplier = line.supply_warehouse;
    let quantity = line.quantity;
    let amount = line.amount;
    let delivered = line.delivery_date;
    write!(out, "line {number} item {item} from {supplier}")?;
    writeln!(
        out,
        " quantity {quantity} amount {amount} delivered {delivered}"
    )
}

/// Writes the orders of a delivery.
fn write_delivered<O: Output>(out: &mut O, orders: &[u32]) -> io::Result<()>
    ensures written { OnOk result (Appends (O.contents out.old) (O.contents out.new)
        (codes "delivered" ++ flat_map (λ order. codes " " ++ decimal order) orders.now ++ codes "\n")) }
    ensures failed { OnErr result (IsTrue (O.has_failed out.new)) }
{
    out.write_all(b"delivered")?;
    for order in orders {
        write!(out, " {order}")?;
    }
    out.write_all(b"\n")
}
