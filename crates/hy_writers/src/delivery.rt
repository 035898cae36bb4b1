//! Delivery (TPC-C clause 2.7): the oldest undelivered order of a district.

ghost use Rattle.std.specs.Prelude.{◌≡◌, ◌+◌, ◌*◌, ◌≤◌, ◌<◌, ◌+ℤ◌, ◌≤ℤ◌, pos, Some, true, length, All, IfSome, OnOk, IfOk, IsErrOf};
ghost use Rattle.hy_rows.specs.declared.order_line.OrderLine.{OrderLine};
ghost use Rattle.hy_rows.specs.Limits.{max_carriers, max_line_cents, max_lines};
ghost use Rattle.hy_rows.specs.Ranges.{IsBetween};
ghost use Rattle.hy_commands.specs.Growth.{IsLineAmount};
ghost use Rattle.hy_space.specs.Space.{owner_bytes};
ghost use Rattle.hy_undo.specs.Writes.{IsOutOfFrames};
ghost use Rattle.hy_indexes.specs.of_index.declared.key.Entry.{Entry};
ghost use Rattle.hy_commands.specs.Deliveries.{carried, customer_delivered, oldest, order_cents};
ghost use Rattle.hy_indexes.specs.of_index.Index.{found};
ghost use Rattle.hy_relation.specs.Relation.{IsLive};
ghost use Rattle.hy_commands.specs.Growth.{IsCustomerUpTo, max_order_cents};
ghost use Rattle.hy_rows.specs.Finding.{is_customer};
ghost use Rattle.std.specs.List.{list_any};
ghost use Rattle.hy_commands.specs.declared.command.Who.{Who};
ghost use Rattle.hy_layout.specs.Layout.{IsMeantAt, KeepsPlaces, own_rows};
ghost use Rattle.hy_indexes.specs.of_store.Keys.{is_lesser_order};
ghost use Rattle.hy_indexes.specs.of_store.Stored.{HasStore};
ghost use Rattle.hy_indexes.specs.of_store.Writes.{ChangesStore, IsWritableStore, LeavesStore, WritesStore, stored_in};
ghost use Rattle.hy_indexes.specs.of_store.declared.keys.LineKey.{LineKey};
ghost use Rattle.hy_writers.specs.Limits.{most_applied};
ghost use Rattle.hy_writers.specs.Deliveries.{ChargesCustomer, DeliversLine, DeliversOldest, HasLinesOf, places_of, walk_over, with_lines_of, with_walked};
ghost use Rattle.hy_writers.specs.Accounts.{ChangesAccount, IsAccountOf};
ghost use Rattle.hy_writers.specs.Begun.{IsBegunDelivery};
ghost use Rattle.hy_writers.specs.Waiting.{IsOldest, IsSoundStore, IsWaiting, with_entry_delivered, without_waiting};

use hy_commands::Delivery;
use hy_frames::Shortage;
use hy_indexes::hy_index::Entry;
use hy_indexes::hy_store::{
    LineKey, OrderKey, WaitingKey, erase_new_order, find_slot, first_entry, know_entries,
    know_store, part_at, put_part, put_row, read_entries, remove_entry, row_at,
};
use hy_layout::Layout;
use hy_rows::{CustomerAccount, Order, OrderLine};
use hy_space::Space;
use hy_undo::Undo;

/// Gives the order line at a place its delivery date, and answers the line as it was.
fn deliver_line<const N: usize>(
    space: &mut Space<N>,
    undo: &mut Undo<N>,
    moment: u64,
    place: u64,
) -> Result<OrderLine, Shortage>
    requires writable { IsWritableStore N space.old undo.old }
    requires there { place < length (stored_in N space.old).tables.order_lines }
    ensures delivered { IfOk result (λ row. LeavesStore N space.old space.new (DeliversLine moment place row)) }
    ensures writes { WritesStore N space.old space.new undo.old undo.new }
    ensures no_frame { IsErrOf result Shortage.NoFrame → IsOutOfFrames space.new }
{
    let row = row_at::<OrderLine, N>(space, place);
    let delivered = OrderLine {
        delivery_date: moment,
        ..row
    };
    put_row(space, undo, place, &delivered)?;
    Ok(row)
}

/// Gives the order lines that entries name their delivery date, and answers what they come to, in cents.
fn deliver_lines<const N: usize>(
    space: &mut Space<N>,
    undo: &mut Undo<N>,
    moment: u64,
    entries: &[Entry<LineKey>],
) -> Result<i64, Shortage>
    requires writable { IsWritableStore N space.old undo.old }
    requires there { All (λ (entry : Entry LineKey). entry.slot < length (stored_in N space.old).tables.order_lines)
        entries.now }
    requires amounts { All (λ (row : OrderLine). IsLineAmount row.amount)
        (stored_in N space.old).tables.order_lines }
    requires few { length entries.now ≤ max_lines }
    ensures delivered { OnOk result (ChangesStore N space.old space.new (with_walked moment (places_of entries.now))) }
    ensures cents { IfOk result (λ cents. cents
        ≡ (walk_over moment (places_of entries.now) (stored_in N space.old)).cents) }
    ensures writes { WritesStore N space.old space.new undo.old undo.new }
    ensures no_frame { IsErrOf result Shortage.NoFrame → IsOutOfFrames space.new }
{
    let mut cents = 0;
    for entry in entries {
        let row = deliver_line(space, undo, moment, entry.slot)?;
        cents = sum_of(cents, &row);
    }
    Ok(cents)
}

/// The cents of lines and of one more.
fn sum_of(cents: i64, row: &OrderLine) -> i64
    requires low { pos 0 ≤ℤ cents }
    requires high { cents ≤ℤ pos (max_lines * max_line_cents) }
    requires amount { IsLineAmount row.now.amount }
    ensures { result ≡ cents +ℤ row.now.amount }
{
    let amount = row.amount;
    cents + amount
}

/// Gives all lines of an order their delivery date, and answers what they come to, in cents. The entries of the lines
/// are read into the list.
fn deliver_order_lines<const N: usize>(
    space: &mut Space<N>,
    undo: &mut Undo<N>,
    moment: u64,
    order: &Order,
    entries: &mut Vec<Entry<LineKey>>,
) -> Result<i64, Shortage>
    requires writable { IsWritableStore N space.old undo.old }
    requires lines { HasLinesOf order.now.warehouse order.now (stored_in N space.old) }
    requires district { order.now.district ≤ 10 }
    ensures delivered { OnOk result (ChangesStore N space.old space.new (with_lines_of moment order.now)) }
    ensures cents { IfOk result (λ cents. cents
        ≡ order_cents order.now (stored_in N space.old).tables.order_lines) }
    ensures writes { WritesStore N space.old space.new undo.old undo.new }
    ensures no_frame { IsErrOf result Shortage.NoFrame → IsOutOfFrames space.new }
{
    know_entries::<LineKey, N>(space);
    let low = LineKey {
        order: order.id,
        district: order.district,
        number: 0,
    };
    let high = LineKey {
        district: order.district + 1,
        ..low
    };
    read_entries(space, &low, &high, entries)?;
    deliver_lines(space, undo, moment, entries)
}

/// Takes the row of NEW-ORDER that an entry names, and the entry.
fn take_waiting<const N: usize>(
    space: &mut Space<N>,
    undo: &mut Undo<N>,
    waiting: &Entry<WaitingKey>,
) -> Result<(), Shortage>
    requires writable { IsWritableStore N space.old undo.old }
    requires live { IsLive (stored_in N space.old).new_order_slots waiting.now.slot }
    ensures taken { OnOk result (ChangesStore N space.old space.new (without_waiting waiting.now)) }
    ensures writes { WritesStore N space.old space.new undo.old undo.new }
    ensures no_frame { IsErrOf result Shortage.NoFrame → IsOutOfFrames space.new }
{
    erase_new_order(space, undo, waiting.slot)?;
    remove_entry(space, undo, &waiting.key)
}

/// A customer's account after an order of some cents was delivered.
fn account_after(account: &CustomerAccount, cents: i64) -> CustomerAccount
    requires account { IsAccountOf account.now (IsCustomerUpTo most_applied (10 * most_applied)) }
    requires low { pos 0 ≤ℤ cents }
    requires high { cents ≤ℤ pos max_order_cents }
    ensures { ChangesAccount account.now result (customer_delivered cents) }
{
    let CustomerAccount {
        balance,
        delivery_count,
        ..
    } = *account;
    CustomerAccount {
        balance: balance + cents,
        delivery_count: delivery_count + 1,
        ..*account
    }
}

/// The customer at a place owes some cents more, and has one delivery more.
fn charge<const N: usize>(
    space: &mut Space<N>,
    undo: &mut Undo<N>,
    place: u64,
    cents: i64,
) -> Result<(), Shortage>
    requires writable { IsWritableStore N space.old undo.old }
    requires there { place < length (stored_in N space.old).tables.customers }
    requires customers { All (IsCustomerUpTo most_applied (10 * most_applied))
        (stored_in N space.old).tables.customers }
    requires low { pos 0 ≤ℤ cents }
    requires high { cents ≤ℤ pos max_order_cents }
    ensures charged { OnOk result (LeavesStore N space.old space.new (ChargesCustomer cents place)) }
    ensures writes { WritesStore N space.old space.new undo.old undo.new }
    ensures no_frame { IsErrOf result Shortage.NoFrame → IsOutOfFrames space.new }
{
    let before: CustomerAccount = part_at(space, place);
    put_part(space, undo, place, &account_after(&before, cents))
}

/// An order after a delivery.
fn order_after(row: &Order, carrier: u64) -> Order
    requires { IsBetween 1 max_carriers carrier }
    ensures { result ≡ carried carrier row.now }
{
    Order {
        carrier: carrier as u8,
        ..*row
    }
}

/// Delivers the order of an entry: it, its lines and its customer. The entries of its lines are read into the list.
fn deliver_order<const N: usize>(
    layout: &Layout,
    space: &mut Space<N>,
    undo: &mut Undo<N>,
    delivery: &Delivery,
    waiting: &Entry<WaitingKey>,
    entries: &mut Vec<Entry<LineKey>>,
) -> Result<(), Shortage>
    requires writable { IsWritableStore N space.old undo.old }
    requires sound { IsSoundStore layout.now (stored_in N space.old) }
    requires waiting { IsWaiting layout.now.warehouse (stored_in N space.old) waiting.now }
    requires delivery { IsBegunDelivery layout.now.warehouse delivery.now }
    ensures delivered { OnOk result (ChangesStore N space.old space.new
        (with_entry_delivered layout.now.warehouse delivery.now waiting.now)) }
    ensures writes { WritesStore N space.old space.new undo.old undo.new }
    ensures no_frame { IsErrOf result Shortage.NoFrame → IsOutOfFrames space.new }
{
    know_store(space);
    know_entries::<OrderKey, N>(space);
    know_entries::<WaitingKey, N>(space);
    let place = order_place(layout, space, waiting);
    let order = row_at::<Order, N>(space, place);
    let customer = buyer_place(layout, space, &order);
    take_waiting(space, undo, waiting)?;
    put_row(space, undo, place, &order_after(&order, delivery.carrier))?;
    let cents = deliver_order_lines(space, undo, delivery.at, &order, entries)?;
    charge(space, undo, customer, cents)
}

/// The place of the order of an entry.
fn order_place<const N: usize>(
    layout: &Layout,
    space: &Space<N>,
    waiting: &Entry<WaitingKey>,
) -> u64
    requires store { HasStore N (owner_bytes space.now) }
    requires sound { IsSoundStore layout.now (stored_in N space.now) }
    requires waiting { IsWaiting layout.now.warehouse (stored_in N space.now) waiting.now }
    ensures found { found is_lesser_order
        (record { order = waiting.now.key.order; district = waiting.now.key.district })
        (stored_in N space.now).orders ≡ Some result }
    ensures there { result < length (stored_in N space.now).tables.orders }
{
    know_store(space);
    know_entries::<OrderKey, N>(space);
    let key = OrderKey {
        order: waiting.key.order,
        district: waiting.key.district,
    };
    match find_slot(space, &key) {
        Some(place) => place,
        None => unreachable!(),
    }
}

/// The place of the customer of an order.
fn buyer_place<const N: usize>(layout: &Layout, space: &Space<N>, order: &Order) -> u64
    requires store { HasStore N (owner_bytes space.now) }
    requires places { KeepsPlaces (own_rows layout.now) (stored_in N space.now).tables }
    requires buyer { list_any (is_customer layout.now.warehouse order.now.district order.now.customer)
        (stored_in N space.now).tables.customers ≡ true }
    ensures { IsMeantAt layout.now.warehouse order.now.district (Who.Number order.now.customer)
        (stored_in N space.now).tables.customers result }
{
    know_store(space);
    match layout.place_of_number(order.district.into(), order.customer.into()) {
        Some(place) => place,
        None => unreachable!(),
    }
}

/// Delivers the oldest undelivered order of a district, and answers its number; 0 where there is none. The entries of
/// its lines are read into the list.
pub fn deliver_in<const N: usize>(
    layout: &Layout,
    space: &mut Space<N>,
    undo: &mut Undo<N>,
    delivery: &Delivery,
    district: u8,
    entries: &mut Vec<Entry<LineKey>>,
) -> Result<u32, Shortage>
    requires writable { IsWritableStore N space.old undo.old }
    requires sound { IsSoundStore layout.now (stored_in N space.old) }
    requires delivery { IsBegunDelivery layout.now.warehouse delivery.now }
    ensures delivered { OnOk result (LeavesStore N space.old space.new (DeliversOldest delivery.now district)) }
    ensures number { IfOk result (λ number. number
        ≡ oldest layout.now.warehouse district (stored_in N space.old).tables) }
    ensures writes { WritesStore N space.old space.new undo.old undo.new }
    ensures no_frame { IsErrOf result Shortage.NoFrame → IsOutOfFrames space.new }
{
    know_store(space);
    know_entries::<OrderKey, N>(space);
    know_entries::<WaitingKey, N>(space);
    match waiting_in(layout, space, district) {
        Some(waiting) => {
            deliver_order(layout, space, undo, delivery, &waiting, entries)?;
            Ok(waiting.key.order)
        }
        None => Ok(0),
    }
}

/// The entry of the oldest undelivered order of a district, if there is one.
fn waiting_in<const N: usize>(
    layout: &Layout,
    space: &Space<N>,
    district: u8,
) -> Option<Entry<WaitingKey>>
    requires store { HasStore N (owner_bytes space.now) }
    requires sound { IsSoundStore layout.now (stored_in N space.now) }
    ensures waiting { IfSome result (IsWaiting layout.now.warehouse (stored_in N space.now)) }
    ensures oldest { IsOldest layout.now.warehouse district (stored_in N space.now).tables result }
{
    know_store(space);
    know_entries::<WaitingKey, N>(space);
    let key = WaitingKey { district, order: 0 };
    match first_entry(space, &key) {
        Some(found) => {
            if found.key.district == district {
                Some(found)
            } else {
                None
            }
        }
        None => None,
    }
}
