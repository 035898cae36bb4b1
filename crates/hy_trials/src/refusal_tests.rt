//! Memory that is refused between two marks: the call that meets it answers E1, and leaves rows, kept lists and counts as
//! they were. Nothing here refuses memory by itself. `tools/refuse_allocations` runs these tests again and again, each time
//! with another request between the marks refused, and sees the marks by the sizes of theirs.

ghost use Rattle.std.specs.Prelude.{◌≡◌, [], length};
ghost use Rattle.hy_recovery.specs.Recovering.{Counts};

use crate::commands::{order_of, payment_by};
use crate::halls::{Hall, OpenSession, Request, TakenAll};
use crate::model::Rows;
use hy_batches::{Batches, Text, read_log, write_batch};
use hy_commands::{Command, Commit, Name, Payment, Reply, Who};
use hy_loads::Load;
use hy_partition::Loaded;
use hy_passes::{Kit, make};
use hy_query::{Query, parse_query};
use hy_recovery::{kit_for, recover};
use hy_schema::Refusal;
use hy_storm::hy_session::text_of;
use hy_tables::generate;
use std::marker::Brand;
use std::process::Abort;
use std::thread::Threads;

/// So many bytes are asked for where the requests begin that may be refused, and where they end.
const BEGINS: usize = 1_234_567;

const ENDS: usize = 1_234_569;

/// A query of three tables, and its answer behind all commands of these tests.
const QUERY: &str =
    "from orderline, item, stock where ol_i_id = i_id and s_i_id = i_id and s_w_id = ol_supply_w_id and i_price > 150 group i_name select i_name, sum ol_amount, min s_quantity, count order 2 desc, 1";

/// Asks for so many bytes, and gives them back.
fn mark<R: Abort + AllocGlobal>(rt: &R, size: usize) {
    let room = Vec::<u8>::with_capacity(rt.alloc(), size).expect(rt, "a mark");
    assert!(rt; room.is_empty());
}

/// What a test sees of two warehouses: the rows behind what they have kept, how much that is, the numbers of the serial list,
/// and how many frames are free and shared.
#[derive(Drop)]
struct Seen {
    first: Rows,
    second: Rows,
    kept: (usize, usize),
    numbers: (u64, u64),
    free: (u64, u64),
    shared: (u64, u64),
}

impl Seen {
    /// What stands there now.
    fn of<K: Loaded, R: Abort + AllocGlobal>(rt: &R, hall: &mut Hall<K>) -> Seen {
        let (free, shared) = (
            (hall.part(rt, 1).free(), hall.part(rt, 2).free()),
            (hall.part(rt, 1).shared(), hall.part(rt, 2).shared()),
        );
        let kept = (hall.kept(rt, 1).len(), hall.kept(rt, 2).len());
        let taken = hall.fork(rt, rt.alloc()).expect(rt, "a snapshot");
        let (first, second) = (Rows::of(rt, &taken, 1), Rows::of(rt, &taken, 2));
        hall.close(rt, taken);
        Seen {
            first,
            second,
            kept,
            numbers: hall.numbers(),
            free,
            shared,
        }
    }

    /// Whether rows, kept lists and the serial list are the same.
    fn has_same_rows(&self, other: &Seen) -> bool {
        self.first.is_same(&other.first)
            && self.second.is_same(&other.second)
            && self.kept == other.kept
            && self.numbers == other.numbers
    }

    /// Whether all is the same.
    fn is_same(&self, other: &Seen) -> bool {
        self.has_same_rows(other) && self.free == other.free && self.shared == other.shared
    }
}

/// Runs a command between the marks. Where it is refused, all is as it was, and it runs once more.
fn run_marked<K: Loaded, R: Abort + AllocGlobal>(
    rt: &R,
    hall: &mut Hall<K>,
    command: Command,
) -> Reply {
    let again = command.copy().expect(rt, "a copy");
    let before = Seen::of(rt, hall);
    mark(rt, BEGINS);
    let reply = hall.run(rt, command);
    mark(rt, ENDS);
    match reply {
        Reply::Refused(why) => assert!(rt; why == Refusal::NoMemory),
        _ => return reply,
    }
    assert!(rt; Seen::of(rt, hall).has_same_rows(&before));
    hall.run(rt, again)
}

/// The order of which two slices are done.
fn half_order<R: Abort + AllocGlobal>(rt: &R) -> Command {
    order_of(rt, 1, &[(6, 1), (7, 1), (8, 1), (9, 1), (10, 1)])
}

/// The order over two warehouses.
fn far_order<R: Abort + AllocGlobal>(rt: &R) -> Command {
    order_of(rt, 1, &[(1, 2), (2, 1), (3, 1), (4, 1), (5, 1)])
}

/// The payment over two warehouses, by last name.
fn named_payment<R: Abort + AllocGlobal>(rt: &R) -> Command {
    let mut name = Vec::new(rt.alloc());
    name.extend_from_slice(b"BARBAROUGHT").expect(rt, "a name");
    Command::Payment(Payment {
        warehouse: 1,
        district: 1,
        customer_warehouse: 2,
        customer_district: 1,
        who: Who::Last(Name::new(name)),
        amount: 100,
        at: 1,
    })
}

/// Begins the order and does two slices, with nothing refused.
fn begin_half<K: Loaded, R: Abort + AllocGlobal>(rt: &R, hall: &mut Hall<K>) {
    assert!(rt; hall.ask(rt, 1, Request::Begin(half_order(rt))).is_ok());
    for _ in 0..2 {
        assert!(rt; hall.ask(rt, 1, Request::Step).is_ok());
    }
}

/// One slice between the marks; whether it was refused, which the job's reply then says.
fn is_slice_refused<K: Loaded, R: Abort + AllocGlobal>(rt: &R, hall: &mut Hall<K>) -> bool {
    mark(rt, BEGINS);
    let stepped = hall.ask(rt, 1, Request::Step);
    mark(rt, ENDS);
    assert!(rt; stepped.is_ok());
    match hall.ask(rt, 1, Request::Take) {
        Ok(Some(Reply::Refused(why))) => {
            assert!(rt; why == Refusal::NoMemory);
            true
        }
        Ok(None) => false,
        _ => panic!(rt; "an order that goes on"),
    }
}

/// Begins the order and does two slices between the marks. Where one of the three is refused, all is as at the begin, and it
/// is begun once more.
fn begin_half_marked<K: Loaded, R: Abort + AllocGlobal>(rt: &R, hall: &mut Hall<K>) {
    let command = half_order(rt);
    let before = Seen::of(rt, hall);
    mark(rt, BEGINS);
    let begun = hall.ask(rt, 1, Request::Begin(command));
    mark(rt, ENDS);
    if let Err(why) = begun {
        assert!(rt; why == Refusal::NoMemory && Seen::of(rt, hall).is_same(&before));
        begin_half(rt, hall);
        return;
    }
    for _ in 0..2 {
        if is_slice_refused(rt, hall) {
            assert!(rt; Seen::of(rt, hall).has_same_rows(&before));
            begin_half(rt, hall);
            return;
        }
    }
}

/// A snapshot of all between the marks. Where it is refused, all is as it was, and it is taken once more.
fn fork_marked<K: Loaded, R: Abort + AllocGlobal>(rt: &R, hall: &mut Hall<K>) -> TakenAll<K> {
    let before = Seen::of(rt, hall);
    let touched = hall.part(rt, 1).touched();
    mark(rt, BEGINS);
    let forked = hall.fork(rt, rt.alloc());
    mark(rt, ENDS);
    match forked {
        Ok(taken) => taken,
        Err(why) => {
            assert!(rt; why == Refusal::NoMemory && hall.part(rt, 1).touched() == touched);
            assert!(rt; Seen::of(rt, hall).is_same(&before));
            hall.fork(rt, rt.alloc()).expect(rt, "a snapshot")
        }
    }
}

/// The order over two warehouses between the marks, while another one is half done. Where it is refused, all is as behind
/// the end of what ran, and it runs once more.
fn cross_marked<K: Loaded, R: Abort + AllocGlobal>(rt: &R, hall: &mut Hall<K>, ended: &Seen) {
    let command = far_order(rt);
    mark(rt, BEGINS);
    let reply = hall.run(rt, command);
    mark(rt, ENDS);
    let reply = match reply {
        Reply::Refused(why) => {
            assert!(rt; why == Refusal::NoMemory);
            assert!(rt; Seen::of(rt, hall).has_same_rows(ended));
            hall.run(rt, far_order(rt))
        }
        other => other,
    };
    assert!(rt;
        matches!(
            reply,
            Reply::NewOrder {
                order: 3,
                total: 5536
            }
        )
    );
    let Ok(Some(Reply::NewOrder { order: 2, .. })) = hall.ask(rt, 1, Request::Take) else {
        panic!(rt; "the order that was half done")
    };
}

/// The conditions between the marks.
fn check_marked<K: Loaded, R: Abort + AllocGlobal>(rt: &R, opened: &OpenSession<K>) {
    mark(rt, BEGINS);
    let broken = opened.session.check_conditions(rt.alloc());
    mark(rt, ENDS);
    match broken {
        Ok(broken) => assert!(rt; broken == None),
        Err(why) => {
            assert!(rt; why == Refusal::NoMemory);
            assert!(rt; opened.session.check_conditions(rt.alloc()) == Ok(None));
        }
    }
}

/// The query between the marks, on one processor and on all. Where it is refused, it is asked once more.
fn ask_marked<K: Loaded, R: Threads + Abort + AllocGlobal + Sync>(
    rt: &R,
    opened: &OpenSession<K>,
    query: &Query<'_>,
) {
    mark(rt, BEGINS);
    let alone = opened.session.answer(rt.alloc(), query);
    let beside = opened.session.query(rt, rt.alloc(), query);
    mark(rt, ENDS);
    let alone = match alone {
        Ok(text) => text,
        Err(why) => {
            assert!(rt; why == Refusal::NoMemory);
            opened
                .session
                .answer(rt.alloc(), query)
                .expect(rt, "an answer")
        }
    };
    let beside = match beside {
        Ok(answer) => text_of(rt.alloc(), &answer).expect(rt, "a text"),
        Err(why) => {
            assert!(rt; why == Refusal::NoMemory);
            opened
                .session
                .answer(rt.alloc(), query)
                .expect(rt, "an answer")
        }
    };
    assert!(rt; alone == beside && !alone.is_empty());
}

/// A session on what another one sees between the marks. Where it is refused, all is as it was, and it is taken once more.
fn fork_session_marked<K: Loaded, R: Abort + AllocGlobal>(
    rt: &R,
    hall: &mut Hall<K>,
    opened: &OpenSession<K>,
) -> OpenSession<K> {
    let before = Seen::of(rt, hall);
    mark(rt, BEGINS);
    let forked = hall.fork_session(rt.alloc(), opened);
    mark(rt, ENDS);
    match forked {
        Ok(again) => again,
        Err(why) => {
            assert!(rt; why == Refusal::NoMemory && Seen::of(rt, hall).is_same(&before));
            hall.fork_session(rt.alloc(), opened)
                .expect(rt, "a session")
        }
    }
}

/// Closes a session between the marks, which takes no memory.
fn close_marked<K: Loaded, R: Abort + AllocGlobal>(
    rt: &R,
    hall: &mut Hall<K>,
    opened: OpenSession<K>,
) {
    mark(rt, BEGINS);
    hall.close_session(rt, opened);
    mark(rt, ENDS);
}

/// What stands there behind the first order, and the one that is half done once it has ended.
fn ended_before<K: Loaded, R: Abort + AllocGlobal>(rt: &R, mut hall: Hall<K>) -> Seen {
    let order = order_of(rt, 1, &[(1, 1), (2, 1), (3, 1), (4, 1), (5, 1)]);
    assert!(rt; matches!(hall.run(rt, order), Reply::NewOrder { order: 1, .. }));
    begin_half(rt, &mut hall);
    assert!(rt; hall.ask(rt, 1, Request::Finish).is_ok());
    Seen::of(rt, &mut hall)
}

/// The sessions: one of a snapshot, its conditions and the query, one on what it sees, and both closed.
fn look_marked<K: Loaded, R: Threads + Abort + AllocGlobal + Sync>(rt: &R, hall: &mut Hall<K>) {
    let query = parse_query(rt.alloc(), QUERY.as_bytes()).expect(rt, "a query");
    let taken = fork_marked(rt, hall);
    let opened = OpenSession::of(taken);
    check_marked(rt, &opened);
    ask_marked(rt, &opened, &query);
    let again = fork_session_marked(rt, hall, &opened);
    close_marked(rt, hall, opened);
    check_marked(rt, &again);
    close_marked(rt, hall, again);
    assert!(rt; hall.part(rt, 1).shared() == 0 && hall.part(rt, 2).shared() == 0);
}

/// All commands and looks, each between the marks, and what stands there in the end, with the log of it.
fn run_all_marked<K: Loaded, R: Threads + Abort + AllocGlobal + Sync>(
    rt: &R,
    mut hall: Hall<K>,
    ended: &Seen,
) -> (Seen, Text) {
    let order = order_of(rt, 1, &[(1, 1), (2, 1), (3, 1), (4, 1), (5, 1)]);
    let reply = run_marked(rt, &mut hall, order);
    assert!(rt;
        matches!(
            reply,
            Reply::NewOrder {
                order: 1,
                total: 5536
            }
        )
    );
    begin_half_marked(rt, &mut hall);
    let taken = fork_marked(rt, &mut hall);
    hall.close(rt, taken);
    cross_marked(rt, &mut hall, ended);
    let reply = run_marked(rt, &mut hall, named_payment(rt));
    assert!(rt;
        matches!(
            reply,
            Reply::Payment {
                customer: 2,
                balance: -1100
            }
        )
    );
    let reply = run_marked(rt, &mut hall, payment_by(1));
    assert!(rt; matches!(reply, Reply::Payment { .. }));
    look_marked(rt, &mut hall);
    let batch = hall.drain(rt);
    let mut text = Text::new(rt.alloc());
    write_batch(&mut text, &batch);
    (Seen::of(rt, &mut hall), text)
}

/// The batches of a log between the marks.
fn read_marked<R: Abort + AllocGlobal>(rt: &R, bytes: &[u8]) -> Batches {
    mark(rt, BEGINS);
    let read = read_log(rt.alloc(), bytes);
    mark(rt, ENDS);
    match read {
        Ok(batches) => batches,
        Err(why) => {
            assert!(rt; why == Refusal::NoMemory);
            read_log(rt.alloc(), bytes).expect(rt, "batches")
        }
    }
}

/// Recovers a database behind a mark, which says whether memory may be refused; none where it is.
fn recover_marked<K: Loaded, R: Abort + AllocGlobal>(
    rt: &R,
    load: &Load,
    kit: Kit<Commit>,
    batches: &Batches,
    size: usize,
) -> Option<Seen>
    requires load { load.now ≡ K.load }
    requires kit { kit ≡ K.passes }
    requires partitions { kit.partitions ≡ length load.now.tables.warehouses }
    requires counts { Counts kit load.now batches.now }
{
    let (_passes, journal, seats, mut clients) = kit.open::<K>().expect(rt, "passes");
    let Some(pass) = clients.pop() else {
        panic!(rt; "a client")
    };
    mark(rt, size);
    let recovered = recover::<4096, K>(
        rt.alloc(),
        load,
        batches,
        journal,
        seats,
        pass,
        20_000,
        100,
    );
    mark(rt, ENDS);
    match recovered {
        Ok((partitions, journal, pass)) => {
            clients.push(pass).expect(rt, "a place");
            let mut hall = Hall::with(partitions, journal, clients);
            Some(Seen::of(rt, &mut hall))
        }
        Err(why) => {
            assert!(rt; why == Refusal::NoMemory);
            None
        }
    }
}

/// The same with a kit of its own.
fn recovered_once<R: Abort + AllocGlobal>(
    rt: &R,
    load: &Load,
    batches: &Batches,
    size: usize,
) -> Option<Seen> {
    let kit = kit_for(rt.alloc(), load, batches, 1, 1).expect(rt, "a kit");
    recover_marked::<Brand, R>(rt, load, kit, batches, size)
}

/// What is recovered from a log on the load, which is asked for once more where it is refused.
fn recovered_of<R: Abort + AllocGlobal>(rt: &R, load: &Load, bytes: &[u8]) -> Seen {
    let batches = read_marked(rt, bytes);
    match recovered_once(rt, load, &batches, BEGINS) {
        Some(seen) => seen,
        None => recovered_once(rt, load, &batches, ENDS).expect(rt, "a database"),
    }
}

/// What stands there behind the end of what ran, in the world of the load and the kit.
fn ended_in<K: Loaded, R: Abort + AllocGlobal>(rt: &R, load: &Load, kit: Kit<Commit>) -> Seen
    requires load { load.now ≡ K.load }
    requires kit { kit ≡ K.passes }
    requires partitions { kit.partitions ≡ length load.now.tables.warehouses }
    requires new { kit.replayed ≡ [] }
{
    ended_before(rt, Hall::<K>::new(rt, load, kit, 100))
}

/// All between marks, in the world of the load and the kit.
fn marked_in<K: Loaded, R: Threads + Abort + AllocGlobal + Sync>(
    rt: &R,
    load: &Load,
    kit: Kit<Commit>,
    ended: &Seen,
) -> (Seen, Text)
    requires load { load.now ≡ K.load }
    requires kit { kit ≡ K.passes }
    requires partitions { kit.partitions ≡ length load.now.tables.warehouses }
    requires new { kit.replayed ≡ [] }
{
    run_all_marked(rt, Hall::<K>::new(rt, load, kit, 100), ended)
}

/// What stands there behind the end of what ran, on the load.
fn ended_of<R: Abort + AllocGlobal>(rt: &R, load: &Load) -> Seen {
    assert!(rt; load.tables().warehouses.len() == 2);
    let kit = make::<Commit>(rt.alloc(), 2, 3, 1).expect(rt, "a kit");
    ended_in::<Brand, R>(rt, load, kit)
}

/// All between marks, on the load.
fn marked_of<R: Threads + Abort + AllocGlobal + Sync>(
    rt: &R,
    load: &Load,
    ended: &Seen,
) -> (Seen, Text) {
    assert!(rt; load.tables().warehouses.len() == 2);
    let kit = make::<Commit>(rt.alloc(), 2, 3, 1).expect(rt, "a kit");
    marked_in::<Brand, R>(rt, load, kit, ended)
}

#[test]
fn each_call_with_memory_refused(rt: HostRuntime) {
    let load = generate(rt.alloc(), 2, 3, 20).expect(&rt, "a load");
    let ended = ended_of(&rt, &load);
    let (seen, log) = marked_of(&rt, &load, &ended);
    let bytes = log.bytes().expect(&rt, "memory lasts");
    assert!(&rt; recovered_of(&rt, &load, bytes).has_same_rows(&seen));
}
