//! Commands over several warehouses, and snapshots of all of them.

ghost use Rattle.std.specs.Prelude.{◌≡◌, [], ◌≤◌, length};

use crate::commands::order_of;
use crate::halls::{Hall, MAX_FRAMES, Request};
use crate::model::{Model, Rows, random_command};
use hy_commands::{Command, Commit, Edition, Name, Payment, Reply, Who};
use hy_loads::Load;
use hy_partition::Loaded;
use hy_passes::{Kit, make};
use hy_schema::Refusal;
use hy_tables::generate;
use std::marker::Brand;
use std::process::Abort;

/// What a test does with the partitions of a generated load.
#[derive(Clone, Copy)]
enum Case {
    KeepsNumber,
    StaysHalfDone,
    SeenInBoth,
    RefusedAfar,
    FullAfar,
    FifteenLines,
    AtRandom,
    DrainedOnce,
}

/// Makes partitions for so many warehouses, three customers a district and twenty items, and runs a test on them.
fn run<R: Abort + AllocGlobal>(rt: &R, warehouses: u64, kept: u64, case: Case)
    requires kept { (1 ≤ kept) × (kept ≤ 10000) }
{
    assert!(rt; (1..=16).contains(&warehouses));
    let load = generate(rt.alloc(), warehouses, 3, 20).expect(rt, "a load");
    assert!(rt; load.tables().warehouses.len() as u64 == warehouses);
    let kit = make::<Commit>(rt.alloc(), warehouses as u8, 3, 1).expect(rt, "a kit");
    run_in_world::<Brand, R>(rt, &load, kit, kept, case);
}

/// The same in the world of the load and the kit.
fn run_in_world<K: Loaded, R: Abort + AllocGlobal>(
    rt: &R,
    load: &Load,
    kit: Kit<Commit>,
    kept: u64,
    case: Case,
)
    requires kept { (1 ≤ kept) × (kept ≤ 10000) }
    requires load { load.now ≡ K.load }
    requires kit { kit ≡ K.passes }
    requires partitions { kit.partitions ≡ length load.now.tables.warehouses }
    requires new { kit.replayed ≡ [] }
{
    let hall = Hall::<K>::new(rt, load, kit, kept);
    match case {
        Case::KeepsNumber => keeps_number(rt, hall),
        Case::StaysHalfDone => stays_half_done(rt, hall),
        Case::SeenInBoth => seen_in_both(rt, hall),
        Case::RefusedAfar => refused_afar(rt, hall),
        Case::FullAfar => full_afar(rt, hall),
        Case::FifteenLines => fifteen_lines(rt, hall),
        Case::AtRandom => at_random(rt, hall),
        Case::DrainedOnce => drained(rt, hall),
    }
}

/// A payment in district 1 of warehouse 1, by a customer of a district of a warehouse.
fn paid_by(warehouse: u64, district: u64, who: Who) -> Command {
    Command::Payment(Payment {
        warehouse: 1,
        district: 1,
        customer_warehouse: warehouse,
        customer_district: district,
        who,
        amount: 100,
        at: 1,
    })
}

/// The number of a commit among those of several warehouses, and the number of the customer who pays.
fn numbers_of(commit: &Commit) -> Option<(u64, u64)> {
    match commit {
        Commit::Cross(_, number, Command::Payment(payment)) => match payment.who {
            Who::Number(customer) => Some((*number, customer)),
            Who::Last(_) => None,
        },
        _ => None,
    }
}

/// A payment by last name is kept in both lists, with the customer's number; a refused order draws no number.
fn keeps_number<K: Loaded, R: Abort + AllocGlobal>(rt: &R, mut hall: Hall<K>) {
    let mut name = Vec::new(rt.alloc());
    name.extend_from_slice(b"BARBAROUGHT").expect(rt, "a name");
    let named = paid_by(2, 1, Who::Last(Name::new(name)));
    assert!(rt;
        matches!(
            hall.run(rt, named),
            Reply::Payment {
                customer: 2,
                balance: -1100
            }
        )
    );
    for warehouse in 1..=2 {
        let [commit] = hall.kept(rt, warehouse) else {
            panic!(rt; "one commit")
        };
        assert!(rt; numbers_of(commit) == Some((1, 2)));
    }
    let unknown = order_of(rt, 1, &[(1, 2), (2, 1), (3, 1), (4, 1), (21, 1)]);
    assert!(rt; matches!(hall.run(rt, unknown), Reply::Refused(Refusal::NoSuchItem)));
    assert!(rt; hall.numbers() == (1, 2));
    assert!(rt;
        matches!(
            hall.run(rt, paid_by(2, 1, Who::Number(1))),
            Reply::Payment { .. }
        )
    );
    let Some(last) = hall.kept(rt, 2).last() else {
        panic!(rt; "a commit")
    };
    assert!(rt; numbers_of(last) == Some((2, 1)) && hall.numbers() == (2, 3));
    hall.agree();
}

#[test]
fn crossing_keeps_number(rt: HostRuntime) {
    run(&rt, 2, 100, Case::KeepsNumber);
}

/// An order at home, of which three slices are done; a command over the other two leaves the rest to be done.
fn stays_half_done<K: Loaded, R: Abort + AllocGlobal>(rt: &R, mut hall: Hall<K>) {
    let order = order_of(rt, 3, &[(1, 3), (2, 3), (3, 3), (4, 3), (5, 3)]);
    assert!(rt; hall.ask(rt, 3, Request::Begin(order)).is_ok());
    for _ in 0..3 {
        assert!(rt; hall.ask(rt, 3, Request::Step).is_ok());
    }
    let touched = hall.part(rt, 3).touched();
    assert!(rt;
        matches!(
            hall.run(rt, paid_by(2, 1, Who::Number(1))),
            Reply::Payment { .. }
        )
    );
    assert!(rt; hall.part(rt, 3).touched() == touched && touched > 0);
    for _ in 0..2 {
        assert!(rt; !hall.part(rt, 3).at_last());
        assert!(rt; hall.ask(rt, 3, Request::Step).is_ok());
    }
    assert!(rt; hall.part(rt, 3).at_last() && hall.kept(rt, 3).is_empty());
    assert!(rt; hall.ask(rt, 3, Request::Step).is_ok() && hall.kept(rt, 3).len() == 1);
}

#[test]
fn elsewhere_stays_half_done(rt: HostRuntime) {
    run(&rt, 3, 100, Case::StaysHalfDone);
}

/// The rows of a warehouse as they are now.
fn rows_now<K: Loaded, R: Abort + AllocGlobal>(rt: &R, hall: &mut Hall<K>, warehouse: u64) -> Rows {
    let taken = hall.fork(rt, rt.alloc()).expect(rt, "a snapshot");
    let rows = Rows::of(rt, &taken, warehouse);
    hall.close(rt, taken);
    rows
}

/// An order of which warehouse 2 supplies a line, as a snapshot of both has it, and a payment behind it, which it lacks.
fn seen_in_both<K: Loaded, R: Abort + AllocGlobal>(rt: &R, mut hall: Hall<K>) {
    let order = order_of(rt, 1, &[(1, 2), (2, 1), (3, 1), (4, 1), (5, 1)]);
    assert!(rt;
        matches!(
            hall.run(rt, order),
            Reply::NewOrder {
                order: 1,
                total: 5536
            }
        )
    );
    let taken = hall.fork(rt, rt.alloc()).expect(rt, "a snapshot");
    assert!(rt;
        matches!(
            hall.run(rt, paid_by(2, 1, Who::Number(1))),
            Reply::Payment { .. }
        )
    );
    let (first, second) = (Rows::of(rt, &taken, 1), Rows::of(rt, &taken, 2));
    assert!(rt; first.stock_of(rt, 1) == (18, 0, 0, 0) && second.stock_of(rt, 1) == (14, 5, 1, 1));
    assert!(rt; first.stock_of(rt, 2) == (20, 5, 1, 0) && second.stock_of(rt, 2) == (26, 0, 0, 0));
    let [placed] = first.orders.as_slice() else {
        panic!(rt; "one order")
    };
    assert!(rt; placed.all_local == 0 && second.orders.is_empty());
    for (place, line) in first.lines.iter().enumerate() {
        assert!(rt; line.supply_warehouse == if place == 0 { 2 } else { 1 });
    }
    assert!(rt; first.history.len() == 30 && first.lines.len() == 5);
    hall.close(rt, taken);
    let (first, second) = (rows_now(rt, &mut hall, 1), rows_now(rt, &mut hall, 2));
    assert!(rt; first.history.len() == 31 && second.history.len() == 30);
    assert!(rt; hall.part(rt, 1).shared() == 0 && hall.part(rt, 2).shared() == 0);
}

#[test]
fn an_order_is_seen_in_both(rt: HostRuntime) {
    run(&rt, 2, 100, Case::SeenInBoth);
}

/// A refused command leaves the rows of both warehouses, and the serial list.
fn is_refused<K: Loaded, R: Abort + AllocGlobal>(
    rt: &R,
    hall: &mut Hall<K>,
    command: Command,
    refusal: Refusal,
) {
    let (first, second) = (rows_now(rt, hall, 1), rows_now(rt, hall, 2));
    let numbers = hall.numbers();
    let Reply::Refused(why) = hall.run(rt, command) else {
        panic!(rt; "a refusal")
    };
    assert!(rt; why == refusal);
    assert!(rt; hall.numbers() == numbers);
    assert!(rt; rows_now(rt, hall, 1).is_same(&first) && rows_now(rt, hall, 2).is_same(&second));
}

/// What the other warehouse refuses: a customer, a district, a warehouse, an item, and a frame while a snapshot is open.
fn refused_afar<K: Loaded, R: Abort + AllocGlobal>(rt: &R, mut hall: Hall<K>) {
    is_refused(
        rt,
        &mut hall,
        paid_by(2, 1, Who::Number(4)),
        Refusal::NoSuchCustomer,
    );
    is_refused(
        rt,
        &mut hall,
        paid_by(2, 11, Who::Number(1)),
        Refusal::NoSuchDistrict,
    );
    is_refused(
        rt,
        &mut hall,
        paid_by(3, 1, Who::Number(1)),
        Refusal::NoSuchWarehouse,
    );
    let unknown = order_of(rt, 1, &[(1, 1), (2, 1), (3, 1), (4, 1), (21, 2)]);
    is_refused(rt, &mut hall, unknown, Refusal::NoSuchItem);
    let taken = hall.fork(rt, rt.alloc()).expect(rt, "a snapshot");
    let used = MAX_FRAMES.saturating_sub(hall.part(rt, 2).free());
    assert!(rt; hall.ask(rt, 2, Request::Frames(used)).is_ok());
    let order = order_of(rt, 1, &[(1, 2), (2, 1), (3, 1), (4, 1), (5, 1)]);
    is_refused(rt, &mut hall, order, Refusal::NoFrame);
    hall.close(rt, taken);
    let order = order_of(rt, 1, &[(1, 2), (2, 1), (3, 1), (4, 1), (5, 1)]);
    assert!(rt; matches!(hall.run(rt, order), Reply::NewOrder { order: 1, .. }));
    assert!(rt; hall.numbers() == (1, 2));
}

#[test]
fn refused_by_another_warehouse(rt: HostRuntime) {
    run(&rt, 2, 100, Case::RefusedAfar);
}

/// The kept list of the other warehouse is full, and then that of the home.
fn full_afar<K: Loaded, R: Abort + AllocGlobal>(rt: &R, mut hall: Hall<K>) {
    let own = order_of(rt, 2, &[(1, 2), (2, 2), (3, 2), (4, 2), (5, 2)]);
    assert!(rt; matches!(hall.run(rt, own), Reply::NewOrder { .. }));
    is_refused(
        rt,
        &mut hall,
        paid_by(2, 1, Who::Number(1)),
        Refusal::HistoryFull,
    );
    assert!(rt; hall.kept(rt, 1).is_empty() && hall.kept(rt, 2).len() == 1);
}

#[test]
fn refused_by_a_full_list(rt: HostRuntime) {
    run(&rt, 2, 1, Case::FullAfar);
}

/// Fifteen lines from four warehouses, in turn; and an order of which no line is supplied at home.
fn fifteen_lines<K: Loaded, R: Abort + AllocGlobal>(rt: &R, mut hall: Hall<K>) {
    let mut lines = Vec::new(rt.alloc());
    for item in 1..=15 {
        lines.push((item, item % 4 + 1)).expect(rt, "a line");
    }
    let order = order_of(rt, 1, &lines);
    assert!(rt; matches!(hall.run(rt, order), Reply::NewOrder { order: 1, .. }));
    for item in 1..=15 {
        for warehouse in 1..=4 {
            let (_, sold, orders, remote) = rows_now(rt, &mut hall, warehouse).stock_of(rt, item);
            let supplies = u64::from(item % 4 + 1 == warehouse);
            assert!(rt; sold == supplies * 5 && orders == supplies);
            assert!(rt; remote == if warehouse == 1 { 0 } else { supplies });
        }
    }
    let order = order_of(rt, 1, &[(16, 2), (17, 3), (18, 4), (19, 2), (20, 3)]);
    assert!(rt; matches!(hall.run(rt, order), Reply::NewOrder { order: 2, .. }));
    assert!(rt; rows_now(rt, &mut hall, 1).stock_of(rt, 16).1 == 0);
    for warehouse in 1..=4 {
        assert!(rt; hall.kept(rt, warehouse).len() == 2);
    }
}

#[test]
fn fifteen_lines_from_four_warehouses(rt: HostRuntime) {
    run(&rt, 4, 100, Case::FifteenLines);
}

/// Commands at random, and after each eighth a snapshot of all, which is compared at the end with what a list of numbers
/// had then.
fn at_random<K: Loaded, R: Abort + AllocGlobal>(rt: &R, mut hall: Hall<K>) {
    let mut model = Model::new(rt);
    for warehouse in 1..=3 {
        model.load(rt, &rows_now(rt, &mut hall, warehouse));
    }
    let mut snapshots = Vec::new(rt.alloc());
    let mut seed = 7u64;
    for turn in 1..=32u64 {
        let command = random_command(rt, &mut seed, turn);
        let copy = command.copy().expect(rt, "a copy");
        assert!(rt; !matches!(hall.run(rt, command), Reply::Refused(_)));
        model.run(rt, &copy);
        if turn % 8 == 0 {
            let taken = hall.fork(rt, rt.alloc()).expect(rt, "a snapshot");
            snapshots
                .push((taken, model.copied(rt)))
                .expect(rt, "a place");
        }
    }
    for _ in 0..4 {
        let Some((taken, model)) = snapshots.pop() else {
            panic!(rt; "a snapshot")
        };
        for warehouse in 1..=3 {
            model.agrees(rt, warehouse, &Rows::of(rt, &taken, warehouse));
        }
        hall.close(rt, taken);
    }
    assert!(rt; snapshots.is_empty());
    snapshots.destroy_empty();
    hall.agree();
}

#[test]
fn thirty_two_commands_at_random(rt: HostRuntime) {
    run(&rt, 3, 100, Case::AtRandom);
}

/// A drain has what came since the one before, of each warehouse, and one behind it has nothing.
fn drained<K: Loaded, R: Abort + AllocGlobal>(rt: &R, mut hall: Hall<K>) {
    let own = order_of(rt, 2, &[(1, 2), (2, 2), (3, 2), (4, 2), (5, 2)]);
    assert!(rt; matches!(hall.run(rt, own), Reply::NewOrder { .. }));
    assert!(rt;
        matches!(
            hall.run(rt, paid_by(2, 1, Who::Number(3))),
            Reply::Payment { .. }
        )
    );
    let batch = hall.drain(rt);
    assert!(rt; batch.len() == 2);
    let ([first], [own, second]) = (batch.list(0), batch.list(1)) else {
        panic!(rt; "three commits")
    };
    assert!(rt; matches!(own, Commit::Local(Edition::Second, Command::NewOrder(_))));
    assert!(rt; numbers_of(first) == Some((1, 3)) && numbers_of(second) == Some((1, 3)));
    let batch = hall.drain(rt);
    assert!(rt; batch.len() == 2 && batch.list(0).is_empty() && batch.list(1).is_empty());
    assert!(rt; hall.kept(rt, 1).len() == 1 && hall.kept(rt, 2).len() == 2);
}

#[test]
fn drained_in_batches(rt: HostRuntime) {
    run(&rt, 2, 100, Case::DrainedOnce);
}
