//! Rounds of questions to a session over two warehouses with orders and deliveries.

ghost use Rattle.std.specs.Prelude.{◌≡◌, [], length};

use crate::payment_rounds::{SIZE, generated_load};
use crate::shop::Shop;
use hy_commands::{Command, Commit, Delivery, Purchase, PurchaseLine, PurchaseLines};
use hy_loads::Load;
use hy_partition::Loaded;
use hy_passes::{Kit, Pass, make};
use hy_query::parse_query;
use hy_schema::Refusal;
use hy_session::{Session, text_of};
use std::alloc::{AllocError, Global};
use std::marker::Brand;
use std::thread::Threads;

/// How many warehouses there are.
const WAREHOUSES: u8 = 2;

/// How many customers each of their districts has.
const CUSTOMERS: u64 = 3_000;

/// How many items there are.
const ITEMS: u64 = 100_000;

/// What the numbers of items are made from.
const MIXING: u64 = 0x9e37_79b9_7f4a_7c15;

/// What is done before a session is opened.
#[derive(Clone, Copy)]
pub(crate) struct Past {
    /// How many orders.
    pub orders: u64,
    /// How many deliveries, behind all orders.
    pub deliveries: u64,
}

/// What a session is asked.
#[derive(Clone, Copy)]
enum Question<'t> {
    Query(&'t str),
    /// The same by threads.
    Threads(&'t str),
    Report,
    Conditions,
}

/// What a work asks, if it is one of these. The text is that of a query.
fn question_of<'t>(work: &str, text: &'t str) -> Option<Question<'t>> {
    match work {
        "query" => Some(Question::Query(text)),
        "par" => Some(Question::Threads(text)),
        "report" => Some(Question::Report),
        "conditions" => Some(Question::Conditions),
        _ => None,
    }
}

/// Rounds of a work over the database as it is then.
pub fn run<R: Threads + Sync>(
    rt: &R,
    alloc: Global,
    work: &str,
    rounds: u64,
    past: Past,
    text: &str,
) -> Option<u64> {
    let question = question_of(work, text)?;
    let load = generated_load(alloc, WAREHOUSES, CUSTOMERS, ITEMS)?;
    let kit = make::<Commit>(alloc, WAREHOUSES, 2, 1).ok()?;
    questions::<Brand, R>(rt, alloc, &load, kit, question, rounds, past).ok()
}

/// The same in the world of the load and the kit.
fn questions<K: Loaded, R: Threads + Sync>(
    rt: &R,
    alloc: Global,
    load: &Load,
    kit: Kit<Commit>,
    question: Question<'_>,
    rounds: u64,
    past: Past,
) -> Result<u64, Refusal>
    requires load { load.now ≡ K.load }
    requires kit { kit ≡ K.passes }
    requires partitions { kit.partitions ≡ length load.now.tables.warehouses }
    requires new { kit.replayed ≡ [] }
{
    let (mut shop, pass) = Shop::<K>::open(alloc, load, kit)?;
    let pass = order(alloc, &mut shop, pass, past.orders)?;
    let mut pass = deliver(&mut shop, pass, past.deliveries)?;
    let session = shop.session(alloc, &mut pass)?;
    let seen = asked(rt, alloc, &session, question, rounds);
    shop.close(session);
    seen
}

/// So many orders.
fn order<K: Loaded>(
    alloc: Global,
    shop: &mut Shop<K>,
    mut pass: Pass<Commit, K>,
    orders: u64,
) -> Result<Pass<Commit, K>, Refusal> {
    for number in 0..orders {
        let command = order_of(alloc, number)?;
        pass = shop.run(command, pass)?;
    }
    Ok(pass)
}

/// The order of a number, in the two warehouses in turn.
fn order_of(alloc: Global, number: u64) -> Result<Command, AllocError> {
    let warehouse = number % 2 + 1;
    Ok(Command::NewOrder(Purchase {
        warehouse,
        district: number / 2 % 10 + 1,
        customer: number / 20 % CUSTOMERS + 1,
        at: 1,
        lines: lines_of(alloc, number, warehouse)?,
    }))
}

/// The 5 to 15 lines of the order of a number, whose items jump about. All come from this warehouse.
fn lines_of(alloc: Global, number: u64, warehouse: u64) -> Result<PurchaseLines, AllocError> {
    let mut lines = Vec::new(alloc);
    for line in 0..number % 11 + 5 {
        let mixed = number
            .wrapping_mul(15)
            .wrapping_add(line)
            .wrapping_mul(MIXING)
            >> 32;
        lines.push(PurchaseLine {
            item: mixed % ITEMS + 1,
            supply_warehouse: warehouse,
            quantity: line % 10 + 1,
        })?;
    }
    PurchaseLines::new(alloc, &lines)
}

/// So many deliveries, in the two warehouses in turn.
fn deliver<K: Loaded>(
    shop: &mut Shop<K>,
    mut pass: Pass<Commit, K>,
    deliveries: u64,
) -> Result<Pass<Commit, K>, Refusal> {
    for number in 0..deliveries {
        pass = shop.run(delivery_of(number), pass)?;
    }
    Ok(pass)
}

/// The delivery of a number. The carriers take turns, and each delivery of a warehouse is a moment behind the one before.
fn delivery_of(number: u64) -> Command {
    Command::Delivery(Delivery {
        warehouse: number % 2 + 1,
        carrier: number / 2 % 10 + 1,
        at: number / 2 + 2,
    })
}

/// What so many rounds of a question left to see.
fn asked<R: Threads + Sync>(
    rt: &R,
    alloc: Global,
    session: &Session<SIZE>,
    question: Question<'_>,
    rounds: u64,
) -> Result<u64, Refusal> {
    match question {
        Question::Query(text) => answers(alloc, session, text.as_bytes(), rounds),
        Question::Threads(text) => thread_answers(rt, alloc, session, text.as_bytes(), rounds),
        Question::Report => reports(alloc, session, rounds),
        Question::Conditions => conditions(alloc, session, rounds),
    }
}

/// What the bytes of an answer say, and how many bytes were answered in so many rounds.
fn answers(
    alloc: Global,
    session: &Session<SIZE>,
    text: &[u8],
    rounds: u64,
) -> Result<u64, Refusal> {
    let mut seen = digest(&session.ask(alloc, text)?);
    for _ in 0..rounds {
        seen = seen.wrapping_add(session.ask(alloc, text)?.len() as u64);
    }
    Ok(seen)
}

/// The same by threads.
fn thread_answers<R: Threads + Sync>(
    rt: &R,
    alloc: Global,
    session: &Session<SIZE>,
    text: &[u8],
    rounds: u64,
) -> Result<u64, Refusal> {
    let query = parse_query(alloc, text)?;
    let mut seen = digest(&text_of(alloc, &session.query(rt, alloc, &query)?)?);
    for _ in 0..rounds {
        let answer = session.query(rt, alloc, &query)?;
        seen = seen.wrapping_add(text_of(alloc, &answer)?.len() as u64);
    }
    Ok(seen)
}

/// A number of all bytes of a text in their order.
fn digest(text: &[u8]) -> u64 {
    let mut seen = 0u64;
    for byte in text {
        seen = seen.wrapping_mul(31).wrapping_add(u64::from(*byte));
    }
    seen
}

/// The sum of all numbers in so many reports.
fn reports(alloc: Global, session: &Session<SIZE>, rounds: u64) -> Result<u64, Refusal> {
    let mut seen = 0u64;
    for _ in 0..rounds {
        seen = seen.wrapping_add(report(alloc, session)?);
    }
    Ok(seen)
}

/// The sum of all numbers in a report.
fn report(alloc: Global, session: &Session<SIZE>) -> Result<u64, Refusal> {
    let mut seen = 0u64;
    for line in &session.report(alloc)? {
        let number = u64::from(line.warehouse).wrapping_add(line.ytd.cast_unsigned());
        seen = seen.wrapping_add(number).wrapping_add(line.undelivered);
    }
    Ok(seen)
}

/// How many times all conditions held, or else the sum of those that were broken first.
fn conditions(alloc: Global, session: &Session<SIZE>, rounds: u64) -> Result<u64, Refusal> {
    let mut seen = 0u64;
    for _ in 0..rounds {
        let broken = session.check_conditions(alloc)?.unwrap_or(0);
        seen = seen.wrapping_add(u64::from(broken) * 1000 + 1);
    }
    Ok(seen)
}
