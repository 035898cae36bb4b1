//! For tests: the engine of a generated load with its clients, and what these ask of it.

ghost use Rattle.std.specs.Prelude.{◌≡◌, length};

use crate::gates::Held;
use hy_commands::{Command, Commit, Payment, Reply, Who};
use hy_crossing::partitions_of;
use hy_loads::Load;
use hy_partition::{Job, Loaded};
use hy_passes::{Kit, Pass, Passes};
use hy_schema::Refusal;
use hy_storm::hy_engine::Engine;
use std::alloc::Global;
use std::process::Abort;
use std::sync::{Arc, Wait};

/// An engine over pages of 4,096 bytes, with a gate at which a worker may be held. One type of gate serves all tests, since
/// an engine over any gate would have any size.
pub type TestEngine<K> = Engine<4096, K, Held>;

/// The engine of a load, the shared word, and the clients.
pub struct Hall<K: Loaded> {
    pub engine: TestEngine<K>,
    pub passes: Arc<Passes<Commit, K>, Global>,
    pub clients: Vec<Pass<Commit, K>>,
}

/// How large an engine is: for how many clients, and with how many places in a warehouse's queue.
#[derive(Clone, Copy)]
pub struct Room {
    pub clients: u32,
    pub capacity: usize,
}

impl<K: Loaded> Hall<K> {
    /// The engine of a load, with all clients of a kit.
    pub fn new<R: Abort + AllocGlobal>(
        rt: &R,
        load: &Load,
        kit: Kit<Commit>,
        room: Room,
        gate: Held,
    ) -> Hall<K>
        requires load { load.now ≡ K.load }
        requires kit { kit ≡ K.passes }
        requires partitions { kit.partitions ≡ length load.now.tables.warehouses }
        requires clients { room.clients ≡ kit.clients }
    {
        load.sound();
        let alloc = rt.alloc();
        let (passes, journal, seats, clients) = kit.open::<K>().expect(rt, "passes");
        let parts = partitions_of(alloc, load, seats, 2000, 100).expect(rt, "partitions");
        match Engine::new(alloc, parts, journal, room.clients, room.capacity, gate) {
            Ok(engine) => Hall {
                engine,
                passes,
                clients,
            },
            Err(_) => panic!(rt; "an engine"),
        }
    }
}

/// A payment in a warehouse by a customer of a warehouse.
pub fn payment(warehouse: u64, customer_warehouse: u64, amount: u64) -> Command {
    Command::Payment(Payment {
        warehouse,
        district: 1,
        customer_warehouse,
        customer_district: 1,
        who: Who::Number(1),
        amount,
        at: 1,
    })
}

/// One of the clients.
pub fn pop<K: Loaded>(rt: &impl Abort, clients: &mut Vec<Pass<Commit, K>>) -> Pass<Commit, K> {
    let Some(pass) = clients.pop() else {
        panic!(rt; "a client")
    };
    pass
}

/// Hands a command in, which has to be taken.
pub fn hand_in<K: Loaded, R: Wait + Abort + AllocGlobal>(
    rt: &R,
    engine: &TestEngine<K>,
    command: Command,
    pass: Pass<Commit, K>,
) {
    match engine.submit(rt, Job::new(command, pass)) {
        Ok(()) => {}
        Err(_) => panic!(rt; "a place in the queue"),
    }
}

/// Hands a command in, which has to come back with a refusal and its client's pass.
pub fn comes_back<K: Loaded, R: Wait + Abort + AllocGlobal>(
    rt: &R,
    engine: &TestEngine<K>,
    command: Command,
    pass: Pass<Commit, K>,
    wanted: Refusal,
) -> Pass<Commit, K> {
    let client = pass.client();
    match engine.submit(rt, Job::new(command, pass)) {
        Ok(()) => panic!(rt; "a job that comes back"),
        Err((job, refusal)) => {
            let (_command, pass) = job.open();
            assert!(rt; refusal == wanted && pass.client() == client);
            pass
        }
    }
}

/// Waits for the answer, which has to be a payment that was accepted with a balance.
pub fn paid<K: Loaded, R: Wait + Abort>(
    rt: &R,
    engine: &TestEngine<K>,
    client: u32,
    wanted: i64,
) -> Pass<Commit, K> {
    assert!(rt; (client as usize) < engine.clients());
    let (reply, pass, share) = engine.answer(rt, client).open();
    assert!(rt; pass.client() == client);
    assert!(rt; share.is_some());
    match reply {
        Reply::Payment {
            customer: 1,
            balance,
        } => assert!(rt; balance == wanted),
        _ => panic!(rt; "a payment"),
    }
    pass
}

/// Waits for the answer, which has to be that an amount is out of range.
pub fn is_refused<K: Loaded, R: Wait + Abort>(
    rt: &R,
    engine: &TestEngine<K>,
    client: u32,
) -> Pass<Commit, K> {
    assert!(rt; (client as usize) < engine.clients());
    let (reply, pass, share) = engine.answer(rt, client).open();
    assert!(rt; pass.client() == client);
    assert!(rt; matches!(reply, Reply::Refused(Refusal::OutOfRange)) && share.is_none());
    pass
}
