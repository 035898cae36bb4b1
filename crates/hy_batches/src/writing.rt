//! Commits as bytes.

ghost use Rattle.std.specs.Prelude.{◌≡◌, ◌≤◌, [], ◌∷◌, length, map};
ghost use Rattle.std.specs.List.{flat_map};
ghost use Rattle.hy_batches.specs.Encoding.{batch_bytes, command_bytes, commit_bytes, content_bytes, delivery_bytes, line_bytes, list_bytes, mark, number_bytes, payment_bytes, purchase_bytes, who_bytes};

use crate::batch::Batch;
use crate::sink::{Counter, Sink};
use hy_commands::{
    Command, Commit, Delivery, Edition, Payment, Purchase, PurchaseLine, PurchaseLines, Who,
};

/// What a batch of the first edition begins with.
pub(crate) const FIRST_MARK: [u8; 4] = *b"HYB1";

/// What one of the second edition begins with.
pub(crate) const SECOND_MARK: [u8; 4] = *b"HYB2";

/// What it ends with.
pub(crate) const END: u8 = b'E';

/// What a batch of an edition begins with.
pub(crate) fn mark(edition: Edition) -> [u8; 4]
    ensures { result ≡ mark edition }
{
    match edition {
        Edition::First => FIRST_MARK,
        Edition::Second => SECOND_MARK,
    }
}

/// Writes the lowest `width` bytes of a number, the lowest first.
fn write_number<S: Sink>(sink: &mut S, width: usize, number: u64)
    requires { width ≤ 8 }
    ensures { S.takes sink.old sink.new (number_bytes width number) }
{
    sink.put(&number.to_le_bytes()[..width]);
}

/// The lowest byte of a number.
fn low(number: u64) -> u8
    ensures { result ∷ [] ≡ number_bytes 1 number }
{
    let [first, _, _, _, _, _, _, _] = number.to_le_bytes();
    first
}

/// The two lowest bytes of a number, the lowest first.
fn low_two(number: u64) -> [u8; 2]
    ensures { result ≡ number_bytes 2 number }
{
    let [first, second, _, _, _, _, _, _] = number.to_le_bytes();
    [first, second]
}

/// The four lowest bytes of a number, the lowest first.
fn low_four(number: u64) -> [u8; 4]
    ensures { result ≡ number_bytes 4 number }
{
    let [first, second, third, fourth, _, _, _, _] = number.to_le_bytes();
    [first, second, third, fourth]
}

/// All bytes of a number, the lowest first.
fn all_eight(number: u64) -> [u8; 8]
    ensures { result ≡ number_bytes 8 number }
{
    number.to_le_bytes()
}

/// Writes which customer is meant.
fn write_who<S: Sink>(sink: &mut S, who: &Who)
    ensures { S.takes sink.old sink.new (who_bytes who.now) }
{
    match who {
        Who::Number(number) => {
            let [first, second] = low_two(*number);
            sink.put(&[0, first, second]);
        }
        Who::Last(name) => {
            let name = name.as_bytes();
            sink.put(&[1, low(name.len() as u64)]);
            sink.put(name);
        }
    }
}

/// Writes a line of a purchase.
fn write_line<S: Sink>(sink: &mut S, line: &PurchaseLine)
    ensures { S.takes sink.old sink.new (line_bytes line.now) }
{
    let [first, second, third, fourth] = low_four(line.item);
    let supplier = low(line.supply_warehouse);
    let quantity = low(line.quantity);
    sink.put(&[first, second, third, fourth, supplier, quantity]);
}

/// Writes the lines of a purchase.
fn write_lines<S: Sink>(sink: &mut S, lines: &PurchaseLines)
    ensures { S.takes sink.old sink.new (flat_map line_bytes lines.now) }
{
    for place in 0..lines.len() {
        write_line(sink, &lines.line(place));
    }
}

/// Writes a purchase, behind the tag of one.
fn write_purchase<S: Sink>(sink: &mut S, order: &Purchase)
    ensures { S.takes sink.old sink.new (1 ∷ purchase_bytes order.now) }
{
    let warehouse = low(order.warehouse);
    let district = low(order.district);
    let [low_customer, high_customer] = low_two(order.customer);
    let [a, b, c, d, e, f, g, h] = all_eight(order.at);
    let count = low(order.lines.len() as u64);
    sink.put(&[
        1,
        warehouse,
        district,
        low_customer,
        high_customer,
        a,
        b,
        c,
        d,
        e,
        f,
        g,
        h,
        count,
    ]);
    write_lines(sink, &order.lines);
}

/// Writes a payment, behind the tag of one.
fn write_payment<S: Sink>(sink: &mut S, payment: &Payment)
    ensures { S.takes sink.old sink.new (2 ∷ payment_bytes payment.now) }
{
    let warehouse = low(payment.warehouse);
    let district = low(payment.district);
    let customer_warehouse = low(payment.customer_warehouse);
    let customer_district = low(payment.customer_district);
    sink.put(&[
        2,
        warehouse,
        district,
        customer_warehouse,
        customer_district,
    ]);
    write_who(sink, &payment.who);
    let [first, second, third, fourth] = low_four(payment.amount);
    let [a, b, c, d, e, f, g, h] = all_eight(payment.at);
    sink.put(&[first, second, third, fourth, a, b, c, d, e, f, g, h]);
}

/// Writes a delivery, behind the tag of one.
fn write_delivery<S: Sink>(sink: &mut S, delivery: &Delivery)
    ensures { S.takes sink.old sink.new (3 ∷ delivery_bytes delivery.now) }
{
    let warehouse = low(delivery.warehouse);
    let carrier = low(delivery.carrier);
    let [a, b, c, d, e, f, g, h] = all_eight(delivery.at);
    sink.put(&[3, warehouse, carrier, a, b, c, d, e, f, g, h]);
}

/// Writes a command. One that only reads has no bytes.
fn write_command<S: Sink>(sink: &mut S, command: &Command)
    ensures { S.takes sink.old sink.new (command_bytes command.now) }
{
    match command {
        Command::NewOrder(order) => write_purchase(sink, order),
        Command::Payment(payment) => write_payment(sink, payment),
        Command::Delivery(delivery) => write_delivery(sink, delivery),
        Command::OrderStatus(_) | Command::StockLevel(_) => {}
    }
}

/// Writes a commit.
fn write_commit<S: Sink>(sink: &mut S, commit: &Commit)
    ensures { S.takes sink.old sink.new (commit_bytes commit.now) }
{
    match commit {
        Commit::Local(_, command) => {
            sink.put(&[0]);
            write_command(sink, command);
        }
        Commit::Cross(_, number, command) => {
            sink.put(&[1]);
            write_number(sink, 8, *number);
            write_command(sink, command);
        }
    }
}

/// Writes commits one behind another.
fn write_commits<S: Sink>(sink: &mut S, commits: &[Commit])
    ensures { S.takes sink.old sink.new (flat_map commit_bytes commits.now) }
{
    for commit in commits {
        write_commit(sink, commit);
    }
}

/// Writes the commits of a warehouse.
fn write_list<S: Sink>(sink: &mut S, commits: &[Commit])
    ensures { S.takes sink.old sink.new (list_bytes commits.now) }
{
    write_number(sink, 4, commits.len() as u64);
    write_commits(sink, commits);
}

/// Writes the lists of all warehouses one behind another.
fn write_each<S: Sink>(sink: &mut S, lists: &[Vec<Commit>])
    ensures { S.takes sink.old sink.new (flat_map list_bytes (map (λ commits. commits.items) lists.now)) }
{
    for commits in lists {
        write_list(sink, commits);
    }
}

/// Writes the content of a batch of these lists.
fn write_content<S: Sink>(sink: &mut S, lists: &[Vec<Commit>])
    ensures { S.takes sink.old sink.new (content_bytes (map (λ commits. commits.items) lists.now)) }
{
    write_number(sink, 1, lists.len() as u64);
    write_each(sink, lists);
}

/// How many bytes the content of a batch of these lists has; of a number that needs more, the lowest 64 bits.
fn content_length(lists: &[Vec<Commit>]) -> u64
    ensures { number_bytes 8 result
        ≡ number_bytes 8 (length (content_bytes (map (λ commits. commits.items) lists.now))) }
{
    let mut counter = Counter { count: 0 };
    write_content(&mut counter, lists);
    counter.count
}

/// Writes any lists as a batch of an edition is written, one for each warehouse in rising order. Nothing says that what
/// comes out is a batch, nor that it is read as these lists: `write_batch` is for batches, and this is for tests that want
/// other bytes.
pub fn write_lists<S: Sink>(sink: &mut S, edition: Edition, lists: &[Vec<Commit>])
    ensures { S.takes sink.old sink.new
        (batch_bytes (record { edition = edition; lists = map (λ commits. commits.items) lists.now })) }
{
    sink.put(&mark(edition));
    write_number(sink, 8, content_length(lists));
    write_content(sink, lists);
    sink.put(&[END]);
}

/// Writes a batch.
pub fn write_batch<S: Sink>(sink: &mut S, batch: &Batch)
    ensures { S.takes sink.old sink.new (batch_bytes batch.now) }
{
    write_lists(sink, batch.edition(), batch.lists());
}
