//! Order-Status (TPC-C clause 2.6): a customer's last order.

ghost use Rattle.std.specs.Prelude.{◌≡◌, ◌<◌, ◌≤◌, All, IfOk, length};
ghost use Rattle.hy_rows.specs.RowParts.{identity_of};
ghost use Rattle.hy_rows.specs.declared.customer.Customer.{Customer};
ghost use Rattle.hy_space.specs.Space.{owner_bytes};
ghost use Rattle.hy_writers.specs.of_index.Index.{found};
ghost use Rattle.hy_writers.specs.of_index.declared.key.Entry.{Entry};
ghost use Rattle.hy_commands.specs.OrderStatus.{last_placed, placed};
ghost use Rattle.hy_commands.specs.Transactions.{asker, status_reply};
ghost use Rattle.hy_layout.specs.Layout.{IsMeantAt};
ghost use Rattle.hy_writers.specs.of_store.Keys.{is_lesser_customer};
ghost use Rattle.hy_writers.specs.of_store.Stored.{HasStore};
ghost use Rattle.hy_writers.specs.of_store.Writes.{stored_in};
ghost use Rattle.hy_writers.specs.of_store.declared.keys.LineKey.{LineKey};
ghost use Rattle.hy_writers.specs.Waiting.{IsSoundStore};
ghost use Rattle.hy_tpcc.specs.Lines.{lines_named};

use hy_commands::{OrderStatus, PlacedOrder, Reply, StatusLines};
use hy_layout::Layout;
use hy_rows::{CustomerAccount, CustomerIdentity, Order, OrderLine};
use hy_space::Space;
use hy_writers::hy_index::Entry;
use hy_writers::hy_store::{
    CustomerKey, LineKey, find_slot, know_entries, part_at, read_entries, row_at,
};
use std::alloc::{AllocError, Global};

/// Order-Status (TPC-C clause 2.6) for the customer at a place: the customer's number, names and balance, in cents, and
/// the order with the greatest number, if the customer has one. The entries of its lines are read into the list. Fails
/// only for want of memory.
pub(crate) fn order_status<const N: usize>(
    alloc: Global,
    layout: &Layout,
    space: &Space<N>,
    status: &OrderStatus,
    place: u64,
    entries: &mut Vec<Entry<LineKey>>,
) -> Result<Reply, AllocError>
    requires store { HasStore N (owner_bytes space.now) }
    requires sound { IsSoundStore layout.now (stored_in N space.now) }
    requires home { status.now.warehouse ≡ layout.now.warehouse }
    requires asker { IsMeantAt layout.now.warehouse status.now.district status.now.who
        (stored_in N space.now).tables.customers place }
    ensures { IfOk result (λ reply. reply
        ≡ status_reply (asker status.now (stored_in N space.now).tables) (stored_in N space.now).tables) }
{
    let identity: CustomerIdentity = part_at(space, place);
    let account: CustomerAccount = part_at(space, place);
    let order = last_order(alloc, layout, space, &identity, entries)?;
    Ok(reply_for(&identity, &account, order))
}

/// The reply for a customer with a last order, or none.
fn reply_for(
    identity: &CustomerIdentity,
    account: &CustomerAccount,
    order: Option<PlacedOrder>,
) -> Reply
    ensures { result ≡ Reply.OrderStatus identity.now.id identity.now.first identity.now.middle identity.now.last
        account.now.balance order }
{
    Reply::OrderStatus {
        customer: identity.id,
        first: identity.first,
        middle: identity.middle,
        last: identity.last,
        balance: account.balance,
        order,
    }
}

/// A customer's last order with its lines. Their entries are read into the list.
fn last_order<const N: usize>(
    alloc: Global,
    layout: &Layout,
    space: &Space<N>,
    identity: &CustomerIdentity,
    entries: &mut Vec<Entry<LineKey>>,
) -> Result<Option<PlacedOrder>, AllocError>
    requires store { HasStore N (owner_bytes space.now) }
    requires sound { IsSoundStore layout.now (stored_in N space.now) }
    requires home { identity.now.warehouse ≡ layout.now.warehouse }
    ensures { IfOk result (λ order. (row : Customer) → identity_of row ≡ identity.now
        → order ≡ last_placed row (stored_in N space.now).tables) }
{
    match place_of_last(space, identity) {
        Some(place) => {
            let order = row_at::<Order, N>(space, place);
            let lines = order_lines(alloc, layout, space, &order, entries)?;
            Ok(Some(placed_order(&order, lines)))
        }
        None => Ok(None),
    }
}

/// The place of a customer's last order.
fn place_of_last<const N: usize>(space: &Space<N>, identity: &CustomerIdentity) -> Option<u64>
    requires { HasStore N (owner_bytes space.now) }
    ensures { result ≡ found is_lesser_customer
        (record { district = identity.now.district; customer = identity.now.id }) (stored_in N space.now).last_orders }
{
    let key = CustomerKey {
        district: identity.district,
        customer: identity.id,
    };
    find_slot(space, &key)
}

/// An order with its lines.
fn placed_order(order: &Order, lines: StatusLines) -> PlacedOrder
    ensures { result ≡ record {
      number = order.now.id;
      entry_date = order.now.entry_date;
      carrier = order.now.carrier;
      lines = lines;
    } }
{
    PlacedOrder {
        number: order.id,
        entry_date: order.entry_date,
        carrier: order.carrier,
        lines,
    }
}

/// The lines of an order, by their numbers. Their entries are read into the list.
fn order_lines<const N: usize>(
    alloc: Global,
    layout: &Layout,
    space: &Space<N>,
    order: &Order,
    entries: &mut Vec<Entry<LineKey>>,
) -> Result<StatusLines, AllocError>
    requires store { HasStore N (owner_bytes space.now) }
    requires sound { IsSoundStore layout.now (stored_in N space.now) }
    requires home { order.now.warehouse ≡ layout.now.warehouse }
    requires district { order.now.district ≤ 10 }
    ensures { IfOk result (λ lines. lines ≡ (placed (stored_in N space.now).tables.order_lines order.now).lines) }
{
    know_entries::<LineKey, N>(space);
    let low = LineKey {
        order: order.id,
        district: order.district,
        number: 0,
    };
    let high = LineKey {
        district: order.district + 1,
        ..low
    };
    read_entries(space, &low, &high, entries)?;
    read_lines(alloc, space, entries)
}

/// The lines that entries name, in their order.
fn read_lines<const N: usize>(
    alloc: Global,
    space: &Space<N>,
    entries: &[Entry<LineKey>],
) -> Result<StatusLines, AllocError>
    requires store { HasStore N (owner_bytes space.now) }
    requires there { All (λ (entry : Entry LineKey). entry.slot < length (stored_in N space.now).tables.order_lines)
        entries.now }
    ensures { IfOk result (λ lines. lines ≡ lines_named (stored_in N space.now).tables.order_lines entries.now) }
{
    let mut lines = Vec::with_capacity(alloc, entries.len())?;
    for entry in entries {
        lines.push(row_at::<OrderLine, N>(space, entry.slot))?;
    }
    Ok(StatusLines::new(lines))
}
