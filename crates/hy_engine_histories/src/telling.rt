//! What is written of a storm.

use crate::history::{Event, History, Moment};
use crate::storm::{CUSTOMERS, ITEMS, Size};
use hy_commands::{Command, Commit, Edition, Payment, Purchase, Who};
use hy_engine::hy_redo_drains::hy_partition::{Loaded, Partition};
use hy_events::write_reply;
use hy_output::Output;
use std::io;

/// Writes the figures that are the same each time.
pub fn tell_in_short<O: Output>(out: &mut O, size: Size, histories: &[History]) -> io::Result<()> {
    let (terminals, commands) = (size.terminals, size.commands);
    let mut answered = 0usize;
    for history in histories {
        answered = answered.saturating_add(answers_in(history));
    }
    writeln!(
        out,
        "terminals {terminals} commands {commands} answered {answered}"
    )
}

/// How many commands were answered.
fn answers_in(history: &History) -> usize {
    let mut count = 0usize;
    for event in history.events() {
        if matches!(event, Event::Told(_, _, _)) {
            count = count.saturating_add(1);
        }
    }
    count
}

/// Writes the size, what happened at each terminal, and what each warehouse kept.
pub fn tell_storm<const N: usize, K: Loaded, O: Output>(
    out: &mut O,
    size: Size,
    histories: &[History],
    parts: &[Partition<N, K>],
) -> io::Result<()> {
    let (seed, warehouses) = (size.seed, size.warehouses);
    writeln!(
        out,
        "storm {seed} warehouses {warehouses} customers {CUSTOMERS} items {ITEMS}"
    )?;
    for history in histories {
        tell_history(out, history)?;
    }
    for part in parts {
        tell_kept(out, part)?;
    }
    out.write_all(b"end\n")
}

/// Writes what happened at a terminal.
fn tell_history<O: Output>(out: &mut O, history: &History) -> io::Result<()> {
    out.write_all(b"terminal\n")?;
    for event in history.events() {
        tell_event(out, event)?;
    }
    Ok(())
}

/// Writes one thing that happened at a terminal, with its moment.
fn tell_event<O: Output>(out: &mut O, event: &Event) -> io::Result<()> {
    match event {
        Event::Asks(moment, command) => {
            out.write_all(b"asks")?;
            tell_moment(out, moment)?;
            tell_command(out, command)?;
            out.write_all(b"\n")
        }
        Event::Told(moment, is_shared, reply) => {
            out.write_all(b"told")?;
            tell_moment(out, moment)?;
            out.write_all(if *is_shared {
                " share\n".as_bytes()
            } else {
                " -\n".as_bytes()
            })?;
            write_reply(out, reply)
        }
        Event::Looks(begun, moment) => {
            write!(out, "looks {begun}")?;
            tell_moment(out, moment)?;
            out.write_all(b"\n")
        }
    }
}

/// Writes a tick, and how many commits were known.
fn tell_moment<O: Output>(out: &mut O, moment: &Moment) -> io::Result<()> {
    let (tick, known) = (moment.tick, moment.known);
    write!(out, " {tick} {known}")
}

/// Writes what a warehouse kept.
fn tell_kept<const N: usize, K: Loaded, O: Output>(
    out: &mut O,
    part: &Partition<N, K>,
) -> io::Result<()> {
    let warehouse = part.warehouse();
    writeln!(out, "warehouse {warehouse}")?;
    for commit in part.kept() {
        tell_commit(out, commit)?;
    }
    Ok(())
}

/// Writes a commit, with its edition, and 0 or its number.
fn tell_commit<O: Output>(out: &mut O, commit: &Commit) -> io::Result<()> {
    let edition = match commit.edition() {
        Edition::First => 1u8,
        Edition::Second => 2u8,
    };
    let number = commit.number().unwrap_or(0);
    write!(out, "kept {edition} {number}")?;
    tell_command(out, commit.command())?;
    out.write_all(b"\n")
}

/// Writes a command as scripts have it, behind a space.
fn tell_command<O: Output>(out: &mut O, command: &Command) -> io::Result<()> {
    match command {
        Command::NewOrder(order) => tell_order(out, order),
        Command::Payment(payment) => tell_payment(out, payment),
        Command::OrderStatus(status) => {
            let (warehouse, district) = (status.warehouse, status.district);
            write!(out, " orderstatus {warehouse} {district}")?;
            tell_who(out, &status.who)
        }
        Command::Delivery(delivery) => {
            let (warehouse, carrier, at) = (delivery.warehouse, delivery.carrier, delivery.at);
            write!(out, " delivery {warehouse} {carrier} {at}")
        }
        Command::StockLevel(level) => {
            let (warehouse, district, threshold) = (
                level.warehouse,
                level.district,
                level.threshold,
            );
            write!(out, " stocklevel {warehouse} {district} {threshold}")
        }
    }
}

/// Writes an order.
fn tell_order<O: Output>(out: &mut O, order: &Purchase) -> io::Result<()> {
    let (warehouse, district, customer, at) = (
        order.warehouse,
        order.district,
        order.customer,
        order.at,
    );
    write!(out, " neworder {warehouse} {district} {customer} {at}")?;
    for place in 0..order.lines.len() {
        let line = order.lines.line(place);
        let (item, supplier, quantity) = (line.item, line.supply_warehouse, line.quantity);
        write!(out, " {item}:{supplier}:{quantity}")?;
    }
    Ok(())
}

/// Writes a payment.
fn tell_payment<O: Output>(out: &mut O, payment: &Payment) -> io::Result<()> {
    let (warehouse, district) = (payment.warehouse, payment.district);
    let (home, place) = (payment.customer_warehouse, payment.customer_district);
    let (amount, at) = (payment.amount, payment.at);
    write!(out, " payment {warehouse} {district} {home} {place}")?;
    tell_who(out, &payment.who)?;
    write!(out, " {amount} {at}")
}

/// Writes a customer's number, or the last name behind a sign.
fn tell_who<O: Output>(out: &mut O, who: &Who) -> io::Result<()> {
    match who {
        Who::Number(number) => write!(out, " {number}"),
        Who::Last(name) => {
            out.write_all(b" =")?;
            out.write_all(name.as_bytes())
        }
    }
}
