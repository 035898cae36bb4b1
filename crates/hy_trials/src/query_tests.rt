//! What sessions answer while payments run.

ghost use Rattle.std.specs.Prelude.{◌≡◌, [], length};

use crate::commands::{numbered_payment, order_of, payment_by};
use crate::halls::Hall;
use hy_commands::{Commit, Reply};
use hy_loads::Load;
use hy_partition::Loaded;
use hy_passes::{Kit, make};
use hy_query::parse_query;
use hy_schema::Refusal;
use hy_storm::hy_session::{Session, WarehouseReport, run_counted, text_of};
use hy_tables::generate;
use std::marker::Brand;
use std::process::Abort;
use std::thread::Threads;

/// What a test does with the partitions of a generated load.
#[derive(Clone, Copy)]
enum Case {
    AnswersTheSame,
    PassedOn,
    WithoutMemory,
    InPieces,
    Counted,
    BrokenTexts,
}

/// Makes partitions for two warehouses, with as many customers a district and items as a test wants, and runs it on them.
fn run<R: Threads + Abort + AllocGlobal + Sync>(rt: &R, case: Case) {
    let (customers, items) = match case {
        Case::InPieces => (3, 4_097),
        Case::Counted => (3_000, 20),
        _ => (3, 20),
    };
    let load = generate(rt.alloc(), 2, customers, items).expect(rt, "a load");
    assert!(rt; load.tables().warehouses.len() == 2);
    let kit = make::<Commit>(rt.alloc(), 2, 3, 1).expect(rt, "a kit");
    run_in_world::<Brand, R>(rt, &load, kit, case);
}

/// The same in the world of the load and the kit.
fn run_in_world<K: Loaded, R: Threads + Abort + AllocGlobal + Sync>(
    rt: &R,
    load: &Load,
    kit: Kit<Commit>,
    case: Case,
)
    requires load { load.now ≡ K.load }
    requires kit { kit ≡ K.passes }
    requires partitions { kit.partitions ≡ length load.now.tables.warehouses }
    requires new { kit.replayed ≡ [] }
{
    let frames = match case {
        Case::Counted => 10_000,
        _ => 200,
    };
    let hall = Hall::<K>::new(rt, load, kit, frames);
    match case {
        Case::AnswersTheSame => answers_the_same(rt, hall),
        Case::PassedOn => passed_on(rt, hall),
        Case::WithoutMemory => without_memory(rt, hall),
        Case::InPieces => in_pieces(rt, hall),
        Case::Counted => counted(rt, hall),
        Case::BrokenTexts => broken_texts(rt, hall),
    }
}

/// What a session says of two warehouses.
#[derive(Clone, Copy)]
struct Said {
    /// The prices of the ordered items, by images.
    ordered: &'static str,
    /// The stock of items 3, 2 and 1 in both warehouses.
    stocked: &'static str,
    /// The payments in each warehouse.
    paid: &'static str,
    /// W_YTD and the undelivered orders of each warehouse.
    report: [WarehouseReport; 2],
}

/// What a report says of a warehouse.
fn report_line(warehouse: u8, ytd: i64, undelivered: u64) -> WarehouseReport {
    WarehouseReport {
        warehouse,
        ytd,
        undelivered,
    }
}

/// Behind one order of warehouse 1. Item i costs 100 + 37 * i cents and has the image 1 + i mod 10; warehouse w has
/// 10 + ((7 * i + w) mod 91) of it, less five where it supplied the order.
fn said_first() -> Said {
    Said {
        ordered: "4,1,1055\n2,2,3220\n3,2,3590\n3 rows\n",
        stocked: "3,1,27,5,0\n3,2,33,0,0\n2,1,20,5,0\n2,2,26,0,0\n1,1,18,0,0\n1,2,14,5,1\n6 rows\n",
        paid: "1,30,30000\n2,30,30000\n2 rows\n",
        report: [report_line(1, 30_000, 1), report_line(2, 30_000, 0)],
    }
}

/// Behind the payments too, which are of 101, 103 and so on to 199 cents in warehouse 1 and of 102 to 200 in 2, and an
/// order of warehouse 2. There 14 of item 1 are left, too few for five of them, so that 91 came.
fn said_later() -> Said {
    Said {
        ordered: "4,3,5015\n2,3,3905\n3,2,3590\n5,1,3090\n6,1,3275\n5 rows\n",
        stocked: "3,1,22,10,1\n3,2,33,0,0\n2,1,20,5,0\n2,2,26,0,0\n1,1,18,0,0\n1,2,100,10,1\n6 rows\n",
        paid: "1,80,37500\n2,80,37550\n2 rows\n",
        report: [report_line(1, 37_500, 1), report_line(2, 37_550, 1)],
    }
}

/// The answer to a query is this text.
fn answers<R: Abort + AllocGlobal>(rt: &R, session: &Session<4096>, query: &str, wanted: &str) {
    let text = session
        .ask(rt.alloc(), query.as_bytes())
        .expect(rt, "an answer");
    assert!(rt; text.as_slice() == wanted.as_bytes());
}

/// A session says this, and its rows break no condition.
fn says<R: Abort + AllocGlobal>(rt: &R, session: &Session<4096>, said: Said) {
    answers(
        rt,
        session,
        "from orderline, item where ol_i_id = i_id group i_im_id select i_im_id, count, sum ol_amount",
        said.ordered,
    );
    answers(
        rt,
        session,
        "from stock where s_i_id <= 3 select s_i_id, s_w_id, s_quantity, s_ytd, s_remote_cnt order 1 desc",
        said.stocked,
    );
    answers(
        rt,
        session,
        "from history group h_w_id select h_w_id, count, sum h_amount",
        said.paid,
    );
    let report = session.report(rt.alloc()).expect(rt, "a report");
    assert!(rt; report.as_slice() == said.report.as_slice());
    let broken = session
        .check_conditions(rt.alloc())
        .expect(rt, "conditions");
    assert!(rt; broken.is_none());
}

/// An order of warehouse 1, of which warehouse 2 supplies two of five lines.
fn place_first<K: Loaded, R: Abort + AllocGlobal>(rt: &R, hall: &mut Hall<K>) {
    let order = order_of(rt, 1, &[(3, 1), (11, 2), (2, 1), (1, 2), (12, 1)]);
    assert!(rt;
        matches!(
            hall.run(rt, order),
            Reply::NewOrder {
                order: 1,
                total: 8254
            }
        )
    );
}

/// Two orders more.
fn place_two<K: Loaded, R: Abort + AllocGlobal>(rt: &R, hall: &mut Hall<K>) {
    for warehouse in [2, 1] {
        let order = order_of(rt, warehouse, &[(3, 1), (1, 1), (2, 2), (11, 2), (7, 1)]);
        assert!(rt; matches!(hall.run(rt, order), Reply::NewOrder { .. }));
    }
}

/// Pays a hundred times in both warehouses, each fifth time over both, and then places an order of warehouse 2.
fn pay_and_order<K: Loaded, R: Abort + AllocGlobal>(rt: &R, hall: &mut Hall<K>) {
    for number in 1..=100 {
        let command = numbered_payment(number);
        assert!(rt; matches!(hall.run(rt, command), Reply::Payment { .. }));
    }
    let order = order_of(rt, 2, &[(3, 1), (13, 2), (14, 2), (15, 1), (1, 2)]);
    assert!(rt; matches!(hall.run(rt, order), Reply::NewOrder { order: 1, .. }));
}

/// A session says the same while payments run and a later session says what they changed.
fn answers_the_same<K: Loaded, R: Abort + AllocGlobal>(rt: &R, mut hall: Hall<K>) {
    place_first(rt, &mut hall);
    let first = hall.open_session(rt, rt.alloc());
    says(rt, &first.session, said_first());
    pay_and_order(rt, &mut hall);
    let later = hall.open_session(rt, rt.alloc());
    says(rt, &later.session, said_later());
    hall.close_session(rt, later);
    says(rt, &first.session, said_first());
    assert!(rt; hall.part(rt, 1).shared() > 0 && hall.part(rt, 2).shared() > 0);
    hall.close_session(rt, first);
    assert!(rt; hall.part(rt, 1).shared() == 0 && hall.part(rt, 2).shared() == 0);
}

#[test]
fn a_snapshot_answers_the_same(rt: HostRuntime) {
    run(&rt, Case::AnswersTheSame);
}

/// What a session reports of W_YTD in both warehouses.
fn totals<R: Abort + AllocGlobal>(rt: &R, session: &Session<4096>) -> (i64, i64) {
    let report = session.report(rt.alloc()).expect(rt, "a report");
    match report.as_slice() {
        [first, second] => (first.ytd, second.ytd),
        _ => panic!(rt; "two warehouses"),
    }
}

/// A session on the load is passed on behind a payment: the other one has the load when the first one is closed.
fn passed_on<K: Loaded, R: Abort + AllocGlobal>(rt: &R, mut hall: Hall<K>) {
    let first = hall.open_session(rt, rt.alloc());
    assert!(rt; matches!(hall.run(rt, payment_by(1)), Reply::Payment { .. }));
    let second = hall
        .fork_session(rt.alloc(), &first)
        .expect(rt, "a session");
    hall.close_session(rt, first);
    assert!(rt; matches!(hall.run(rt, payment_by(1)), Reply::Payment { .. }));
    assert!(rt; totals(rt, &second.session) == (30_000, 30_000));
    let third = hall.open_session(rt, rt.alloc());
    assert!(rt; totals(rt, &third.session) == (30_200, 30_000));
    hall.close_session(rt, third);
    hall.close_session(rt, second);
    assert!(rt; hall.part(rt, 1).shared() == 0 && hall.part(rt, 2).shared() == 0);
}

#[test]
fn session_forks(rt: HostRuntime) {
    run(&rt, Case::PassedOn);
}

/// The answer to a query, which is asked for again where memory is refused.
fn answer_at_last<R: Abort + AllocGlobal>(rt: &R, session: &Session<4096>, query: &str) -> Vec<u8> {
    for _ in 0..1000 {
        match session.ask(rt.alloc(), query.as_bytes()) {
            Ok(text) => return text,
            Err(refusal) => assert!(rt; refusal == Refusal::NoMemory),
        }
    }
    panic!(rt; "an answer")
}

/// A query of three tables has its whole answer, behind E1 where memory is refused, and the session closes. Nothing is
/// refused in an ordinary run: `rt try --test --fail-alloc N` refuses the request with a number.
fn without_memory<K: Loaded, R: Abort + AllocGlobal>(rt: &R, mut hall: Hall<K>) {
    place_first(rt, &mut hall);
    let opened = hall.open_session(rt, rt.alloc());
    let text = answer_at_last(
        rt,
        &opened.session,
        "from orderline, item, stock where ol_i_id = i_id and i_price > 150 and s_i_id = i_id and s_w_id = ol_supply_w_id group i_name select i_name, sum ol_amount, min s_quantity, count order 2 desc",
    );
    assert!(rt;
        text.as_slice()
            == b"ITEM12,2720,90,1\nITEM11,2535,84,1\nITEM3,1055,27,1\nITEM2,870,20,1\n4 rows\n".as_slice()
    );
    hall.close_session(rt, opened);
    assert!(rt; hall.part(rt, 1).shared() == 0 && hall.part(rt, 2).shared() == 0);
}

#[test]
fn a_query_without_memory(rt: HostRuntime) {
    run(&rt, Case::WithoutMemory);
}

/// A query has the same text in so many pieces as in one, and on all processors.
fn same_in_pieces<R: Threads + Abort + AllocGlobal + Sync>(
    rt: &R,
    session: &Session<4096>,
    text: &str,
    pieces: usize,
) {
    let query = parse_query(rt.alloc(), text.as_bytes()).expect(rt, "a query");
    let whole = session.answer(rt.alloc(), &query).expect(rt, "an answer");
    let parts = session
        .query_in(rt, rt.alloc(), &query, pieces)
        .expect(rt, "an answer in pieces");
    let beside = session
        .query(rt, rt.alloc(), &query)
        .expect(rt, "an answer by threads");
    let parts = text_of(rt.alloc(), &parts).expect(rt, "a text");
    let beside = text_of(rt.alloc(), &beside).expect(rt, "a text");
    assert!(rt; parts == whole);
    assert!(rt; beside == whole);
}

/// Queries whose outermost table has one row, two, sixty, 4,097 or 8,194, alone and joined, with groups and without.
const BEHIND_ONE_ORDER: [&str; 12] = [
    "from stock where s_quantity < 20 select sum s_ytd",
    "from stock select s_i_id, s_w_id, s_quantity",
    "from stock group s_quantity select s_quantity, count, min s_i_id, max s_w_id order 2 desc, 1",
    "from stock, item where s_i_id = i_id and i_price > 9000 group i_name select i_name, sum s_quantity",
    "from item, stock where i_id = s_i_id group i_im_id select i_im_id, count order 1",
    "from warehouse select w_id, w_name",
    "from customer, district where c_w_id = d_w_id and c_d_id = d_id select c_last, d_name, c_id",
    "from neworder, item select count",
    "from orderline, item, stock where ol_i_id = i_id and s_i_id = i_id and s_w_id = ol_supply_w_id select i_name, s_quantity",
    "from item where i_price > 1000 select count, sum i_price, min i_name",
    "from item, stock, warehouse where i_id = s_i_id and s_w_id = w_id and i_im_id < 3 select w_name, i_im_id, s_quantity, i_id order 3, 1, 2 desc",
    "from orders, orderline where o_w_id = ol_w_id and o_d_id = ol_d_id and o_id = ol_o_id group o_d_id select o_d_id, count, sum ol_amount",
];

/// Queries whose outermost table has three rows or fifteen.
const BEHIND_THREE_ORDERS: [&str; 4] = [
    "from orders select o_w_id, o_d_id, o_id, o_entry_d",
    "from orders, orderline where o_w_id = ol_w_id and o_d_id = ol_d_id and o_id = ol_o_id group ol_i_id select ol_i_id, count, sum ol_amount",
    "from orderline, orders where o_w_id = ol_w_id and o_d_id = ol_d_id and o_id = ol_o_id select o_id, ol_number order 2, 1",
    "from neworder, warehouse, district where no_w_id = w_id and no_d_id = d_id and w_id = d_w_id select w_name, d_name, no_o_id",
];

/// Queries have the same text in fewer pieces than blocks and in more than rows.
fn all_same_in_pieces<R: Threads + Abort + AllocGlobal + Sync>(
    rt: &R,
    session: &Session<4096>,
    texts: &[&str],
) {
    for text in texts {
        for pieces in [0, 1, 2, 3, 4, 16, 20_000] {
            same_in_pieces(rt, session, text, pieces);
        }
    }
}

/// Each query has the same text in any number of pieces.
fn in_pieces<K: Loaded, R: Threads + Abort + AllocGlobal + Sync>(rt: &R, mut hall: Hall<K>) {
    place_first(rt, &mut hall);
    let opened = hall.open_session(rt, rt.alloc());
    all_same_in_pieces(rt, &opened.session, &BEHIND_ONE_ORDER);
    hall.close_session(rt, opened);
    place_two(rt, &mut hall);
    let opened = hall.open_session(rt, rt.alloc());
    all_same_in_pieces(rt, &opened.session, &BEHIND_THREE_ORDERS);
    hall.close_session(rt, opened);
}

#[test]
fn queries_in_pieces(rt: HostRuntime) {
    run(&rt, Case::InPieces);
}

/// 60,000 customers with as many payments, joined by three columns: each row is scanned once, and each customer tries the one
/// payment that is theirs.
fn counted<K: Loaded, R: Abort + AllocGlobal>(rt: &R, mut hall: Hall<K>) {
    let taken = hall.fork(rt, rt.alloc()).expect(rt, "a snapshot");
    let text =
        "from customer, history where c_w_id = h_c_w_id and c_d_id = h_c_d_id and c_id = h_c_id group h_w_id select h_w_id, count";
    let query = parse_query(rt.alloc(), text.as_bytes()).expect(rt, "a query");
    let (answer, count) = run_counted(rt.alloc(), &query, &taken.all).expect(rt, "an answer");
    let printed = text_of(rt.alloc(), &answer).expect(rt, "a text");
    assert!(rt; printed.as_slice() == b"1,30000\n2,30000\n2 rows\n".as_slice());
    assert!(rt; count == 180_000);
    hall.close(rt, taken);
}

#[test]
fn customers_with_their_payments(rt: HostRuntime) {
    run(&rt, Case::Counted);
}

/// A text that says no query is refused where it fails, and the session answers the next one.
fn broken_texts<K: Loaded, R: Abort + AllocGlobal>(rt: &R, mut hall: Hall<K>) {
    let opened = hall.open_session(rt, rt.alloc());
    for (text, place) in [
        ("", 0),
        ("from item", 9),
        ("from order select o_id", 5),
        ("from item where i_name = 5 select i_id", 25),
        ("from item where i_name = 'ITEM1 select i_id", 25),
        ("from item select count, i_id", 24),
        ("from item select i_id order 2", 28),
    ] {
        let asked = opened.session.ask(rt.alloc(), text.as_bytes());
        assert!(rt; asked.err() == Some(Refusal::BadQuery(place)));
        answers(
            rt,
            &opened.session,
            "from item where i_price < 200 select i_id",
            "1\n2\n2 rows\n",
        );
    }
    hall.close_session(rt, opened);
}

#[test]
fn texts_that_say_no_query(rt: HostRuntime) {
    run(&rt, Case::BrokenTexts);
}
