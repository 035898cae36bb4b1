//! New-Order (TPC-C clause 2.4): the head of an order; then its lines, one by one.

ghost use Rattle.std.specs.Prelude.{◌≡◌, ◌*◌, ◌≤◌, ◌<◌, ◌^◌, true, false, length, All, OnOk, IsErrOf};
ghost use Rattle.hy_frames.specs.FrameTable.{free_of};
ghost use Rattle.hy_undo.specs.Writes.{IsOutOfFrames};
ghost use Rattle.hy_rows.specs.Limits.{max_line_cents, max_lines, max_price, max_quantity, max_stock};
ghost use Rattle.hy_schema.specs.Keys.{IsOneWarehouse};
ghost use Rattle.hy_space.specs.Space.{owner_bytes};
ghost use Rattle.hy_commands.specs.declared.command.Who.{Who};
ghost use Rattle.hy_commands.specs.Growth.{IsDistrictUpTo, IsStockUpTo, max_order_cents};
ghost use Rattle.hy_commands.specs.NewOrders.{has_item, is_all_local, line_cents, new_order_row, order_row, purchase_cents, purchase_total, quantity_left, sold, total_of, with_next_order};
ghost use Rattle.hy_commands.proofs.GrowthLaws.{ItemsFit};
ghost use Rattle.hy_layout.specs.Layout.{IsMeantAt};
ghost use Rattle.hy_indexes.specs.of_store.Stored.{HasStore};
ghost use Rattle.hy_indexes.specs.of_store.Writes.{ChangesStore, IsWritableStore, WritesStore, stored_in};
ghost use Rattle.hy_writers.specs.Begun.{IsBegunLine, IsBegunPurchase};
ghost use Rattle.hy_writers.specs.Limits.{most_applied};
ghost use Rattle.hy_writers.specs.Purchases.{CanAddLine, CanAddOrder, CanSellLine, line_for, with_line_sold, with_order, with_order_entries, with_order_line, with_waiting};

use crate::finds::{own_district, own_district_tax, own_next_order, own_stock, own_tax};
use hy_commands::{Purchase, PurchaseLine, PurchaseLines};
use hy_frames::Shortage;
use hy_indexes::hy_store::{
    CustomerKey, LineKey, OrderKey, WaitingKey, insert_entry, part_at, push_new_order, push_row,
    put_row,
};
use hy_layout::Layout;
use hy_rows::{CustomerDiscount, District, Item, NewOrder, Order, OrderLine, Stock};
use hy_space::Space;
use hy_undo::Undo;

/// A district after an order.
fn district_after(row: &District) -> District
    requires { IsDistrictUpTo most_applied row.now }
    ensures { result ≡ with_next_order row.now }
{
    District {
        next_order: row.next_order + 1,
        ..*row
    }
}

/// Whether the home warehouse supplies all lines.
fn is_all_local(order: &Purchase) -> bool
    ensures { result ≡ is_all_local order.now }
{
    order.lines.all_come_from(order.warehouse)
}

/// The row of ORDER for a purchase with a number.
fn order_for(order: &Purchase, home: u8, number: u32) -> Order
    requires order { IsBegunPurchase home order.now }
    requires customer { order.now.customer < 2 ^ 16 }
    ensures { result ≡ order_row order.now number }
{
    Order {
        id: number,
        district: order.district as u8,
        warehouse: home,
        customer: order.customer as u16,
        entry_date: order.at,
        carrier: 0,
        line_count: order.lines.len() as u8,
        all_local: is_all_local(order).into(),
    }
}

/// The row of NEW-ORDER for it.
fn new_order_for(order: &Purchase, home: u8, number: u32) -> NewOrder
    requires order { IsBegunPurchase home order.now }
    ensures { result ≡ new_order_row order.now number }
{
    NewOrder {
        order: number,
        district: order.district as u8,
        warehouse: home,
    }
}

/// Gives an order with a number its entries: that it stands at a place, and that it is its customer's last one.
fn enter_order<const N: usize>(
    space: &mut Space<N>,
    undo: &mut Undo<N>,
    order: &Purchase,
    number: u32,
    place: u64,
) -> Result<(), Shortage>
    requires writable { IsWritableStore N space.old undo.old }
    requires order { IsBegunPurchase order.now.warehouse order.now }
    requires customer { order.now.customer < 2 ^ 16 }
    ensures entered { OnOk result (ChangesStore N space.old space.new (with_order_entries order.now number place)) }
    ensures writes { WritesStore N space.old space.new undo.old undo.new }
    ensures no_frame { IsErrOf result Shortage.NoFrame → free_of space.new.frames ≡ 0 }
{
    let district = order.district as u8;
    let key = OrderKey {
        order: number,
        district,
    };
    insert_entry(space, undo, &key, place)?;
    let key = CustomerKey {
        district,
        customer: order.customer as u16,
    };
    insert_entry(space, undo, &key, place)
}

/// Adds the row of NEW-ORDER for an order with a number, and its entry.
fn add_waiting<const N: usize>(
    space: &mut Space<N>,
    undo: &mut Undo<N>,
    order: &Purchase,
    home: u8,
    number: u32,
) -> Result<(), Shortage>
    requires writable { IsWritableStore N space.old undo.old }
    requires order { IsBegunPurchase home order.now }
    ensures added { OnOk result (ChangesStore N space.old space.new (with_waiting order.now number)) }
    ensures writes { WritesStore N space.old space.new undo.old undo.new }
    ensures no_frame { IsErrOf result Shortage.NoFrame → free_of space.new.frames ≡ 0 }
{
    let slot = push_new_order(space, undo, &new_order_for(order, home, number))?;
    let key = WaitingKey {
        district: order.district as u8,
        order: number,
    };
    insert_entry(space, undo, &key, slot)
}

/// The head: the district's next number is taken, and the order is there without its lines.
pub fn add_order<const N: usize>(
    layout: &Layout,
    space: &mut Space<N>,
    undo: &mut Undo<N>,
    order: &Purchase,
) -> Result<(), Shortage>
    requires writable { IsWritableStore N space.old undo.old }
    requires can { CanAddOrder layout.now order.now (stored_in N space.old) }
    ensures added { OnOk result (ChangesStore N space.old space.new (with_order order.now)) }
    ensures writes { WritesStore N space.old space.new undo.old undo.new }
    ensures no_frame { IsErrOf result Shortage.NoFrame → free_of space.new.frames ≡ 0 }
{
    let home = layout.warehouse();
    let district = own_district(layout, space, order.district);
    let number = district.next_order;
    put_row(space, undo, order.district - 1, &district_after(&district))?;
    let place = push_row(space, undo, &order_for(order, home, number))?;
    enter_order(space, undo, order, number, place)?;
    add_waiting(space, undo, order, home, number)
}

/// The quantity of a row of STOCK after a line of a quantity.
fn quantity_left(stock: u16, quantity: u16) -> u16
    requires stock { stock ≤ max_stock }
    requires quantity { quantity ≤ max_quantity }
    ensures { result ≡ quantity_left stock quantity }
{
    if quantity + 10 <= stock {
        stock - quantity
    } else {
        stock + 91 - quantity
    }
}

/// A row of STOCK after a line of a purchase, from here or from another home.
fn stock_after(row: &Stock, quantity: u64, is_remote: bool) -> Stock
    requires row { IsStockUpTo (max_lines * most_applied) row.now }
    requires quantity { quantity ≤ max_quantity }
    ensures { result ≡ sold is_remote quantity row.now }
{
    Stock {
        quantity: quantity_left(row.quantity, quantity as u16),
        ytd: row.ytd + quantity,
        order_count: row.order_count + 1,
        remote_count: row.remote_count + u64::from(is_remote),
        ..*row
    }
}

/// Sells the stock of a line, where this warehouse supplies it. The line is one of a purchase from here, or from
/// another home, which S_REMOTE_CNT counts.
pub fn sell_line<const N: usize>(
    layout: &Layout,
    space: &mut Space<N>,
    undo: &mut Undo<N>,
    line: &PurchaseLine,
    is_remote: bool,
) -> Result<(), Shortage>
    requires writable { IsWritableStore N space.old undo.old }
    requires can { CanSellLine layout.now line.now (stored_in N space.old) }
    ensures sold { OnOk result (ChangesStore N space.old space.new
        (with_line_sold layout.now.warehouse is_remote line.now)) }
    ensures writes { WritesStore N space.old space.new undo.old undo.new }
    ensures no_frame { IsErrOf result Shortage.NoFrame → IsOutOfFrames space.new }
{
    if line.supply_warehouse != u64::from(layout.warehouse()) {
        return Ok(());
    }
    let stock = own_stock(layout, space, line.item);
    put_row(
        space,
        undo,
        line.item - 1,
        &stock_after(&stock, line.quantity, is_remote),
    )
}

/// What a line of a quantity costs, in cents.
fn cents_of(item: &Item, quantity: u64) -> u64
    requires price { item.now.price ≤ max_price }
    requires quantity { quantity ≤ max_quantity }
    ensures cents { result ≡ quantity * item.now.price }
    ensures small { result ≤ max_line_cents }
{
    quantity * u64::from(item.price)
}

/// The row of ORDER-LINE for a line at a place, of an order with a number.
fn line_for(
    order: &Purchase,
    home: u8,
    number: u32,
    place: u8,
    line: &PurchaseLine,
    cents: u64,
) -> OrderLine
    requires order { IsBegunPurchase home order.now }
    requires line { IsBegunLine line.now }
    requires item { line.now.item < 2 ^ 32 }
    requires cents { cents ≤ max_line_cents }
    ensures { result ≡ line_for order.now number place line.now cents }
{
    OrderLine {
        order: number,
        district: order.district as u8,
        warehouse: home,
        number: place,
        item: line.item as u32,
        supply_warehouse: line.supply_warehouse as u8,
        delivery_date: 0,
        quantity: line.quantity as u8,
        amount: cents as i64,
    }
}

/// A line of an order whose head is done, behind so many others; its stock is sold where this warehouse supplies it.
/// The item of the line is lent.
pub fn add_line<const N: usize>(
    layout: &Layout,
    space: &mut Space<N>,
    undo: &mut Undo<N>,
    order: &Purchase,
    lines: u8,
    line: &PurchaseLine,
    item: &Item,
) -> Result<(), Shortage>
    requires writable { IsWritableStore N space.old undo.old }
    requires can { CanAddLine layout.now order.now lines line.now item.now (stored_in N space.old) }
    ensures added { OnOk result (ChangesStore N space.old space.new
        (with_order_line layout.now.load.items layout.now.warehouse order.now lines line.now)) }
    ensures writes { WritesStore N space.old space.new undo.old undo.new }
    ensures no_frame { IsErrOf result Shortage.NoFrame → free_of space.new.frames ≡ 0 }
{
    let home = layout.warehouse();
    let cents = cents_of(item, line.quantity);
    let number = own_next_order(layout, space, order.district) - 1;
    sell_line(layout, space, undo, line, false)?;
    let row = line_for(order, home, number, lines + 1, line, cents);
    let place = push_row(space, undo, &row)?;
    let key = LineKey {
        order: number,
        district: order.district as u8,
        number: lines + 1,
    };
    insert_entry(space, undo, &key, place)
}

/// What an order comes to with a discount and two taxes, all in ten-thousandths, rounded to the cent.
fn total_of(cents: u64, discount: u16, warehouse_tax: u16, district_tax: u16) -> u64
    requires { cents ≤ max_order_cents }
    ensures { result ≡ total_of cents discount warehouse_tax district_tax }
{
    let rate = 10_000 - u64::from(discount).min(10_000);
    let taxed = 10_000 + u64::from(warehouse_tax) + u64::from(district_tax);
    (cents * rate * taxed + 50_000_000) / 100_000_000
}

/// The lines' cents together, where all their items are there.
fn purchase_cents(layout: &Layout, lines: &PurchaseLines) -> u64
    requires items { ItemsFit layout.now.load.items }
    requires known { All (λ line. has_item layout.now.load.items line ≡ true) lines.now }
    requires quantities { All (λ line. line.quantity ≤ max_quantity) lines.now }
    requires few { length lines.now ≤ max_lines }
    ensures cents { result ≡ purchase_cents layout.now.load.items lines.now }
    ensures small { result ≤ max_order_cents }
{
    let mut cents = 0;
    for place in 0..lines.len() {
        cents += line_cents(layout, &lines.line(place));
    }
    cents
}

/// What a line costs, in cents, whose item is there.
fn line_cents(layout: &Layout, line: &PurchaseLine) -> u64
    requires items { ItemsFit layout.now.load.items }
    requires known { has_item layout.now.load.items line.now ≡ true }
    requires quantity { line.now.quantity ≤ max_quantity }
    ensures cents { result ≡ line_cents layout.now.load.items line.now }
    ensures small { result ≤ max_line_cents }
{
    match layout.item(line.item) {
        Some(item) => cents_of(item, line.quantity),
        None => unreachable!(),
    }
}

/// What an order comes to whose items are all there, for the customer at a place.
pub fn purchase_total<const N: usize>(
    layout: &Layout,
    space: &Space<N>,
    order: &Purchase,
    place: u64,
) -> u64
    requires store { HasStore N (owner_bytes space.now) }
    requires rows { IsOneWarehouse layout.now.warehouse (stored_in N space.now).tables }
    requires order { IsBegunPurchase layout.now.warehouse order.now }
    requires items { ItemsFit layout.now.load.items }
    requires known { All (λ line. has_item layout.now.load.items line ≡ true) order.now.lines }
    requires buyer { IsMeantAt layout.now.warehouse order.now.district (Who.Number order.now.customer)
        (stored_in N space.now).tables.customers place }
    ensures { result ≡ purchase_total layout.now.load.items order.now (stored_in N space.now).tables }
{
    let warehouse_tax = own_tax(layout, space);
    let district_tax = own_district_tax(layout, space, order.district);
    let customer: CustomerDiscount = part_at(space, place);
    let cents = purchase_cents(layout, &order.lines);
    total_of(cents, customer.discount, warehouse_tax, district_tax)
}
