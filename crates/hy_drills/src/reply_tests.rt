//! Replies of all kinds through the engine, as a script prints them.

ghost use Rattle.std.specs.Prelude.{◌≡◌, length};

use crate::gates::{Held, watch};
use crate::halls::{Hall, Room, TestEngine, hand_in, pop};
use hy_commands::{Command, Commit, Reply};
use hy_events::{Event, read_event, write_reply};
use hy_loads::Load;
use hy_output::Stream;
use hy_partition::Loaded;
use hy_passes::{Kit, Pass, make};
use hy_tables::generate;
use std::marker::Brand;
use std::process::Abort;
use std::sync::Wait;
use std::sync::atomic::{AtomicBool, Ordering};
use std::thread::{Threads, join};

/// The command that a line of a script says.
fn command_in<R: Abort + AllocGlobal>(rt: &R, line: &str) -> Command {
    match read_event(rt.alloc(), line.as_bytes()) {
        Ok(Some(Event::Run(command))) => command,
        _ => panic!(rt; "a command"),
    }
}

/// What a script prints of a reply.
fn printed<R: Abort + AllocGlobal>(rt: &R, reply: &Reply) -> Vec<u8> {
    let mut out = Stream::new(Vec::new(rt.alloc()));
    write_reply(&mut out, reply).expect(rt, "memory");
    out.into_writer()
}

/// Hands in what a line says, and wants this answer.
fn says<K: Loaded, R: Wait + Abort + AllocGlobal>(
    rt: &R,
    engine: &TestEngine<K>,
    pass: Pass<Commit, K>,
    line: &str,
    wanted: &str,
) -> Pass<Commit, K> {
    pass.sound();
    let client = pass.client();
    hand_in(rt, engine, command_in(rt, line), pass);
    let (reply, pass, _share) = engine.answer(rt, client).open();
    assert!(rt; printed(rt, &reply).as_slice() == wanted.as_bytes());
    pass
}

/// An order with a line from warehouse 2, its status before and behind its delivery, and how many of its items are low in stock.
fn order_and_look<K: Loaded, R: Wait + Abort + AllocGlobal>(
    rt: &R,
    engine: &TestEngine<K>,
    pass: Pass<Commit, K>,
) -> Pass<Commit, K> {
    let order = "neworder 1 1 1 1 1:2:5 2:1:5 3:1:5 4:1:5 5:1:5";
    let pass = says(rt, engine, pass, order, "order 1 total 5536\n");
    let wanted =
        "status customer 1 F0001 OE BARBARBAR balance -1000\norder 1 entry 1 carrier 0\nline 1 item 1 from 2 quantity 5 amount 685 delivered 0\nline 2 item 2 from 1 quantity 5 amount 870 delivered 0\nline 3 item 3 from 1 quantity 5 amount 1055 delivered 0\nline 4 item 4 from 1 quantity 5 amount 1240 delivered 0\nline 5 item 5 from 1 quantity 5 amount 1425 delivered 0\n";
    let pass = says(rt, engine, pass, "orderstatus 1 1 1", wanted);
    let pass = says(rt, engine, pass, "stocklevel 1 1 19", "low 1\n");
    let pass = says(rt, engine, pass, "stocklevel 1 1 18", "low 0\n");
    let wanted = "delivered 1 0 0 0 0 0 0 0 0 0\n";
    let pass = says(rt, engine, pass, "delivery 1 7 2", wanted);
    let wanted =
        "status customer 1 F0001 OE BARBARBAR balance 4275\norder 1 entry 1 carrier 7\nline 1 item 1 from 2 quantity 5 amount 685 delivered 2\nline 2 item 2 from 1 quantity 5 amount 870 delivered 2\nline 3 item 3 from 1 quantity 5 amount 1055 delivered 2\nline 4 item 4 from 1 quantity 5 amount 1240 delivered 2\nline 5 item 5 from 1 quantity 5 amount 1425 delivered 2\n";
    says(rt, engine, pass, "orderstatus 1 1 1", wanted)
}

/// Payments over two warehouses, one of them by last name, and commands that are refused.
fn pay_and_refuse<K: Loaded, R: Wait + Abort + AllocGlobal>(
    rt: &R,
    engine: &TestEngine<K>,
    pass: Pass<Commit, K>,
) -> Pass<Commit, K> {
    let paid = "payment 1 1 2 1 =BARBAROUGHT 100 3";
    let pass = says(rt, engine, pass, paid, "paid customer 2 balance -1100\n");
    let unpaid = "payment 1 1 2 1 1 99 5";
    let pass = says(rt, engine, pass, unpaid, "refused E8 OutOfRange\n");
    let unknown = "neworder 1 1 1 4 1:2:5 2:2:5 3:2:5 4:2:5 21:1:5";
    let pass = says(rt, engine, pass, unknown, "refused E7 NoSuchItem\n");
    let nobody = "payment 2 1 2 1 =NOBODY 100 6";
    let pass = says(rt, engine, pass, nobody, "refused E6 NoSuchCustomer\n");
    let nothing = "delivered 0 0 0 0 0 0 0 0 0 0\n";
    says(rt, engine, pass, "delivery 2 7 6", nothing)
}

/// All that one client asks.
fn ask_all<K: Loaded, R: Wait + Abort + AllocGlobal>(
    rt: &R,
    engine: &TestEngine<K>,
    pass: Pass<Commit, K>,
    ended: &AtomicBool,
) {
    let pass = order_and_look(rt, engine, pass);
    pay_and_refuse(rt, engine, pass);
    engine.close(rt);
    ended.store(true, Ordering::SeqCst);
}

/// Two workers, and the client.
fn run_asker<K: Loaded + Send + Sync, R: Threads + Wait + Abort + AllocGlobal + Sync>(
    rt: &R,
    engine: &TestEngine<K>,
    pass: Pass<Commit, K>,
    ended: &AtomicBool,
) {
    join(
        rt,
        || {
            join(rt, || engine.work(rt, 1), || engine.work(rt, 2));
        },
        || ask_all(rt, engine, pass, ended),
    );
}

fn replies<K: Loaded + Send + Sync, R: Threads + Wait + Abort + AllocGlobal + Sync>(
    rt: &R,
    load: &Load,
    kit: Kit<Commit>,
)
    requires load { load.now ≡ K.load }
    requires kit { kit ≡ K.passes }
    requires partitions { kit.partitions ≡ length load.now.tables.warehouses }
    requires clients { kit.clients ≡ 1 }
{
    let room = Room {
        clients: 1,
        capacity: 1,
    };
    let Hall {
        engine,
        passes: _,
        mut clients,
    } = Hall::<K>::new(rt, load, kit, room, Held::never());
    let pass = pop(rt, &mut clients);
    let ended = AtomicBool::new(false);
    join(
        rt,
        || watch(rt, &ended),
        || run_asker(rt, &engine, pass, &ended),
    );
}

#[test]
fn replies_are_those_of_a_script(rt: HostRuntime) {
    let load = generate(rt.alloc(), 2, 3, 20).expect(&rt, "a load");
    assert!(&rt; load.tables().warehouses.len() == 2);
    let kit = make::<Commit>(rt.alloc(), 2, 1, 1).expect(&rt, "a kit");
    replies::<Brand, HostRuntime>(&rt, &load, kit);
}
