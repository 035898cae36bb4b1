//! Reading ahead: rows that a command will need, fetched side by side.

ghost use Rattle.hy_space.specs.Space.{owner_bytes};
ghost use Rattle.hy_writers.specs.of_store.Stored.{HasStore};

use hy_commands::{Command, PurchaseLines};
use hy_layout::Layout;
use hy_rows::{Customer, Stock};
use hy_space::Space;
use hy_writers::hy_store::glance_at;

/// Looks at the rows of CUSTOMER, ITEM and STOCK that a command will need, whose customer stands at a place. No look
/// waits for another one, so that the processor fetches the rows side by side, and the slices find them near. The number
/// says nothing.
pub(crate) fn read_ahead<const N: usize>(
    layout: &Layout,
    space: &Space<N>,
    command: &Command,
    place: u64,
) -> u64
    requires { HasStore N (owner_bytes space.now) }
{
    let lines = match command {
        Command::NewOrder(order) => glance_at_lines(layout, space, &order.lines),
        _ => 0,
    };
    if command.customer().is_some() {
        lines ^ glance_at::<Customer, N>(space, place)
    } else {
        lines
    }
}

/// Looks at the rows of the items of lines.
fn glance_at_lines<const N: usize>(layout: &Layout, space: &Space<N>, lines: &PurchaseLines) -> u64
    requires { HasStore N (owner_bytes space.now) }
{
    let mut mixed = 0;
    for place in 0..lines.len() {
        mixed ^= glance_at_item(layout, space, lines.line(place).item);
    }
    mixed
}

/// Looks at the rows of an item, if it is there.
fn glance_at_item<const N: usize>(layout: &Layout, space: &Space<N>, item: u64) -> u64
    requires { HasStore N (owner_bytes space.now) }
{
    match layout.item(item) {
        Some(row) => glance_at::<Stock, N>(space, item - 1) ^ u64::from(row.price),
        None => 0,
    }
}
