//! Payments that C_DATA of their customers notes, with small and with large pages and few frames.

ghost use Rattle.std.specs.Prelude.{◌<◌, ◌≤◌};
ghost use Rattle.hy_frames.specs.FrameTable.{IsPageSize};

use crate::forked::{Body, FRAMES, Forked, On, Size, of_items, run_on};
use hy_commands::{Command, Commit, Payment, Reply, Who};
use hy_loads::Load;
use hy_partition::Loaded;
use hy_passes::Kit;
use hy_rows::Customer;
use hy_schema::Refusal;
use hy_tables::{generate, load, save};
use std::process::Abort;

/// How many customers a district has.
const EACH: u64 = 26;

/// How many a warehouse has: 575 bytes of each begin at every byte of a page of 256.
const ALL: u64 = 260;

/// A load of a warehouse whose customers all have bad credit, as texts say it.
fn of_bad_credit<R: Abort + AllocGlobal>(rt: &R) -> Load {
    let good = generate(rt.alloc(), 1, EACH, 1).expect(rt, "a load");
    let mut texts = save(rt.alloc(), &good).expect(rt, "texts");
    for byte in texts[2].iter_mut() {
        if *byte == b'G' {
            *byte = b'B';
        }
    }
    let [
        warehouse,
        district,
        customer,
        item,
        stock,
        order,
        new_order,
        order_line,
        history,
    ] = &texts;
    load(
        rt.alloc(),
        &[
            warehouse, district, customer, item, stock, order, new_order, order_line, history,
        ],
    )
    .expect(rt, "a load")
}

/// A payment of 100 cents by the customer at a place among those of all districts.
fn payment(place: u64) -> Command
    requires place { place < 260 }
{
    let district = 1 + place / EACH;
    Command::Payment(Payment {
        warehouse: 1,
        district,
        customer_warehouse: 1,
        customer_district: district,
        who: Who::Number(1 + place % EACH),
        amount: 100,
        at: 1,
    })
}

/// What comes of it where so many frames are free.
fn pay_at<const N: usize, K: Loaded>(
    rt: &impl Abort,
    forked: &mut Forked<N, K>,
    place: u64,
    free: u64,
) -> Result<(), Refusal>
    requires place { place < 260 }
{
    forked.set_max(FRAMES)?;
    forked.limit(rt, free);
    forked.begin(rt, payment(place))?;
    forked.finish();
    match forked.answer(rt) {
        Some((Reply::Payment { .. }, true)) => Ok(()),
        Some((Reply::Refused(refusal), false)) => Err(refusal),
        _ => panic!(rt; "an answer"),
    }
}

/// Whether a customer's row is the loaded one, or that behind a payment of 100 cents which C_DATA notes.
fn has_paid(rt: &(impl Abort + AllocGlobal), row: &Customer, is_paid: bool) -> bool {
    let (id, district) = (row.id, row.district);
    let note = format!(in rt.alloc(); "{id} {district} 1 {district} 1 100;").expect(rt, "a text");
    let wanted: &[u8] = if is_paid { note.as_bytes() } else { b"" };
    row.balance == (if is_paid { -1100 } else { -1000 }) && row.information.as_bytes() == wanted
}

/// Whether so many of the first customers have paid in the snapshot at a place, and the others nothing.
fn have_paid<const N: usize, K: Loaded>(
    rt: &(impl Abort + AllocGlobal),
    forked: &Forked<N, K>,
    place: usize,
    paid: u64,
) -> bool {
    let rows = forked
        .snapshot(rt, place)
        .list::<Customer>()
        .expect(rt, "the rows");
    let mut same = rows.len() as u64 == ALL;
    for at in 0..rows.len() {
        same = same && has_paid(rt, &rows[at], (at as u64) < paid);
    }
    same
}

/// A customer pays beside a snapshot with so many frames free. Where that is refused it leaves nothing, and else the
/// snapshot stays and a new one has the note. Whether it was accepted.
fn pays_beside<const N: usize, K: Loaded>(
    rt: &(impl Abort + AllocGlobal),
    forked: &mut Forked<N, K>,
    place: u64,
    free: u64,
) -> bool
    requires place { place < 260 }
{
    assert!(rt; forked.fork(rt) == Ok(()));
    let reply = pay_at(rt, forked, place, free);
    assert!(rt; matches!(reply, Ok(()) | Err(Refusal::NoFrame)));
    let is_paid = reply.is_ok();
    assert!(rt; forked.touched() == 0 && forked.fork(rt) == Ok(()));
    assert!(rt; have_paid(rt, forked, 0, place));
    assert!(rt; have_paid(rt, forked, 1, place + u64::from(is_paid)));
    forked.close(rt, 0);
    forked.close(rt, 0);
    is_paid
}

/// How many frames a customer's payment takes beside a snapshot: with each lesser number it is refused.
fn frames_of<const N: usize, K: Loaded>(
    rt: &(impl Abort + AllocGlobal),
    forked: &mut Forked<N, K>,
    place: u64,
) -> u64
    requires place { place < 260 }
{
    for free in 0..=8 {
        if pays_beside(rt, forked, place, free) {
            return free;
        }
    }
    panic!(rt; "eight frames are enough")
}

/// Each customer pays in turn. Some of them have what a payment writes on one page, and others on two.
fn each_pays<const N: usize, K: Loaded>(rt: &(impl Abort + AllocGlobal), mut forked: Forked<N, K>) {
    let mut on_two_pages = 0u64;
    for place in 0..ALL {
        let frames = frames_of(rt, &mut forked, place);
        assert!(rt; (4..=6).contains(&frames));
        if frames == 6 {
            on_two_pages = on_two_pages.wrapping_add(1);
        }
    }
    assert!(rt; 0 < on_two_pages && on_two_pages < ALL / 2);
    assert!(rt; forked.kept() as u64 == ALL);
    forked.end(rt);
}

/// Each customer pays in turn.
#[derive(Drop)]
struct EachPays;

impl<const N: usize> Body for On<N, EachPays> {
    ghost page_size = { N };

    fn run<K: Loaded, R: Abort + AllocGlobal>(
        &self,
        rt: &R,
        load: &Load,
        kit: Kit<Commit>,
        size: Size,
    ) -> Result<(), Refusal> {
        each_pays(rt, Forked::<N, K>::new(rt, load, kit, size)?);
        Ok(())
    }
}

/// The same with pages of one size.
fn try_pages<const N: usize, R: Abort + AllocGlobal>(rt: &R)
    requires { IsPageSize N }
{
    let load = of_bad_credit(rt);
    let body = On::<N, _> { case: EachPays };
    run_on(rt, &load, of_items(1), &body).expect(rt, "a partition");
}

#[test]
fn each_customer_notes(rt: HostRuntime) {
    try_pages::<256, _>(&rt);
    try_pages::<4096, _>(&rt);
}
