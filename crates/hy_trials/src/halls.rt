//! For tests: the partitions of all warehouses of a load, with their journal and a client.

ghost use Rattle.std.specs.Prelude.{◌≡◌, [], ◌≤◌, None, length};
ghost use Rattle.hy_recovery.specs.Recovering.{Counts};
ghost use Rattle.std.proofs.Props.{props};
ghost use Rattle.hy_forks.specs.Forks.{AreOfKit};
ghost use Rattle.hy_forks.specs.Logged.{SaySame};

use hy_batches::Batches;
use hy_commands::{Command, Commit, Reply};
use hy_forks::{Batch, OwnPartitions, SnapshotAll};
use hy_loads::Load;
use hy_partition::{Job, Loaded, Partition};
use hy_passes::{Cursor, Journal, Kit, Pass};
use hy_recovery::{recover, recovered_say_the_same};
use hy_redo::LogOut;
use hy_schema::Refusal;
use hy_storm::hy_redo_drains::DrainLog;
use hy_storm::hy_session::Session;
use std::alloc::Global;
use std::marker::PhantomData;
use std::process::Abort;

/// So many frames may be in use in each partition that a test makes here.
pub const MAX_FRAMES: u64 = 20_000;

/// What a test asks of one partition.
#[derive(Drop)]
pub enum Request {
    Begin(Command),
    Step,
    Finish,
    Take,
    /// So many frames may be in use.
    Frames(u64),
}

/// A snapshot of all warehouses of this world.
pub struct TakenAll<K: Loaded> {
    pub all: SnapshotAll<4096>,
    pub of: PhantomData<K>,
    ghost own: { AreOfKit K.passes all } by { Prim.hlevel props },
}

/// A session over all warehouses of this world.
pub struct OpenSession<K: Loaded> {
    pub session: Session<4096>,
    pub of: PhantomData<K>,
    ghost own: { AreOfKit K.passes session } by { Prim.hlevel props },
}

impl<K: Loaded> OpenSession<K> {
    /// A session over this snapshot.
    pub fn of(taken: TakenAll<K>) -> OpenSession<K> {
        let TakenAll { all, of } = taken;
        OpenSession {
            session: Session::new(all),
            of,
        }
    }
}

/// The partitions of all warehouses, their journal, and the clients who are at home. Where they weren't recovered, also the
/// place up to which their commits were drained.
#[derive(Drop)]
pub struct Hall<K: Loaded> {
    partitions: OwnPartitions<4096, K>,
    journal: Journal<Commit, K>,
    clients: Vec<Pass<Commit, K>>,
    cursor: Option<Cursor<Commit, K>>,
}

impl<K: Loaded> Hall<K> {
    /// All partitions of a load.
    pub fn new<R: Abort + AllocGlobal>(rt: &R, load: &Load, kit: Kit<Commit>, kept: u64) -> Hall<K>
        requires kept { (1 ≤ kept) × (kept ≤ 10000) }
        requires load { load.now ≡ K.load }
        requires kit { kit ≡ K.passes }
        requires partitions { kit.partitions ≡ length load.now.tables.warehouses }
        requires new { kit.replayed ≡ [] }
    {
        let (_passes, mut journal, seats, mut clients) = kit.open::<K>().expect(rt, "passes");
        let Some(place) = clients.pop() else {
            panic!(rt; "a client")
        };
        let cursor = Cursor::new(rt.alloc(), place, &mut journal).expect(rt, "a place");
        let partitions = OwnPartitions::of_load(rt.alloc(), load, seats, MAX_FRAMES, kept).expect(
            rt,
            "partitions",
        );
        Hall {
            partitions,
            journal,
            clients,
            cursor: Some(cursor),
        }
    }

    /// All partitions of a load, recovered from batches, and the place behind these, from which a log goes on.
    pub fn recovered<R: Abort + AllocGlobal>(
        rt: &R,
        load: &Load,
        kit: Kit<Commit>,
        batches: &Batches,
    ) -> (Hall<K>, Cursor<Commit, K>)
        requires load { load.now ≡ K.load }
        requires kit { kit ≡ K.passes }
        requires partitions { kit.partitions ≡ length load.now.tables.warehouses }
        requires counts { Counts kit load.now batches.now }
        ensures same { SaySame K.load batches.now result.1 }
        ensures partitions { K.passes.partitions ≡ length K.load.tables.warehouses }
    {
        batches.sound();
        recovered_say_the_same();
        let (_passes, journal, seats, mut clients) = kit.open::<K>().expect(rt, "passes");
        let (Some(place), Some(pass)) = (clients.pop(), clients.pop()) else {
            panic!(rt; "two clients")
        };
        let (mut partitions, mut journal, pass) = recover(
            rt.alloc(),
            load,
            batches,
            journal,
            seats,
            pass,
            MAX_FRAMES,
            10_000,
        )
        .expect(rt, "partitions");
        clients.push(pass).expect(rt, "a place");
        let cursor = partitions
            .end_of(rt.alloc(), &mut journal, place)
            .expect(rt, "a place");
        (Hall::with(partitions, journal, clients), cursor)
    }

    /// These partitions, with their journal and their clients.
    pub fn with(
        partitions: OwnPartitions<4096, K>,
        journal: Journal<Commit, K>,
        clients: Vec<Pass<Commit, K>>,
    ) -> Hall<K> {
        Hall {
            partitions,
            journal,
            clients,
            cursor: None,
        }
    }

    /// Asks something of the partition of a warehouse. What is taken is the reply that waits.
    pub fn ask(
        &mut self,
        rt: &impl Abort,
        warehouse: u64,
        asked: Request,
    ) -> Result<Option<Reply>, Refusal> {
        let place = (warehouse as usize).wrapping_sub(1);
        assert!(rt; place < self.partitions.len());
        match asked {
            Request::Begin(command) => self.begin(rt, place, command)?,
            Request::Step => {
                self.partitions.step(place, &mut self.journal)?;
            }
            Request::Finish => self.partitions.finish_running(place, &mut self.journal),
            Request::Take => return Ok(self.take(rt, place)),
            Request::Frames(max) => self.partitions.set_max(place, max)?,
        }
        Ok(None)
    }

    /// Begins a command for the client.
    fn begin(&mut self, rt: &impl Abort, place: usize, command: Command) -> Result<(), Refusal> {
        assert!(rt; place < self.partitions.len());
        let Some(pass) = self.clients.pop() else {
            panic!(rt; "a client")
        };
        match self.partitions.begin(place, Job::new(command, pass)) {
            Ok(()) => Ok(()),
            Err((job, refusal)) => {
                let (_command, pass) = job.open();
                self.clients.push(pass).expect(rt, "a place");
                Err(refusal)
            }
        }
    }

    /// Takes the reply that waits, if one does.
    fn take(&mut self, rt: &impl Abort, place: usize) -> Option<Reply> {
        assert!(rt; place < self.partitions.len());
        let (reply, pass, _share) = self.partitions.take_done(place)?.open();
        self.clients.push(pass).expect(rt, "a place");
        Some(reply)
    }

    /// Runs a command, of one warehouse or of several. A refusal is the reply.
    pub fn run(&mut self, rt: &impl Abort, command: Command) -> Reply {
        let crosses = command.is_crossing();
        let Some(pass) = self.clients.pop() else {
            panic!(rt; "a client")
        };
        let done = self
            .partitions
            .run(&mut self.journal, Job::new(command, pass));
        let (reply, pass, share) = done.open();
        assert!(rt; !crosses || share.is_none() == matches!(reply, Reply::Refused(_)));
        self.clients.push(pass).expect(rt, "a place");
        reply
    }

    /// Takes a snapshot of all warehouses.
    pub fn fork(&mut self, rt: &impl Abort, alloc: Global) -> Result<TakenAll<K>, Refusal> {
        let Some(client) = self.clients.last_mut() else {
            panic!(rt; "a client")
        };
        let all = self.partitions.fork_all(alloc, &mut self.journal, client)?;
        Ok(TakenAll {
            all,
            of: PhantomData,
        })
    }

    /// Closes a snapshot of all warehouses.
    pub fn close(&mut self, rt: &impl Abort, taken: TakenAll<K>) {
        let TakenAll { all, of: _ } = taken;
        match self.partitions.close_all(all) {
            Ok(()) => {}
            Err(_) => panic!(rt; "a snapshot of other partitions"),
        }
    }

    /// Opens a session over all warehouses.
    pub fn open_session(&mut self, rt: &impl Abort, alloc: Global) -> OpenSession<K> {
        OpenSession::of(self.fork(rt, alloc).expect(rt, "a snapshot"))
    }

    /// Opens a session on what another one sees.
    pub fn fork_session(
        &mut self,
        alloc: Global,
        opened: &OpenSession<K>,
    ) -> Result<OpenSession<K>, Refusal> {
        let session = opened.session.fork(alloc, &mut self.partitions)?;
        Ok(OpenSession {
            session,
            of: PhantomData,
        })
    }

    /// Closes a session.
    pub fn close_session(&mut self, rt: &impl Abort, opened: OpenSession<K>) {
        let OpenSession { session, of: _ } = opened;
        match session.close_all(&mut self.partitions) {
            Ok(()) => {}
            Err(_) => panic!(rt; "a session over other partitions"),
        }
    }

    /// The commits since the last drain.
    pub fn drain<R: Abort + AllocGlobal>(&mut self, rt: &R) -> Batch {
        let Some(cursor) = &mut self.cursor else {
            panic!(rt; "a place")
        };
        self.partitions
            .drain(rt.alloc(), &mut self.journal, cursor)
            .expect(rt, "a batch")
    }

    /// Hands a log the commits since its last drain, and writes them, which may be refused.
    pub fn drain_to<W: LogOut, R: Abort + AllocGlobal>(
        &mut self,
        rt: &R,
        drains: &mut DrainLog<W, K>,
    ) -> Result<(), Refusal>
        requires due { drains.old.due ≡ None }
        ensures due { drains.new.due ≡ None }
    {
        drains
            .drain(rt.alloc(), &mut self.partitions, &mut self.journal)
            .expect(rt, "a batch");
        drains.write()
    }

    /// Finds that the lists are those of one history.
    pub fn agree(&mut self) {
        self.partitions.find_history(&mut self.journal);
    }

    /// What the partition of a warehouse has kept.
    pub fn kept(&self, rt: &impl Abort, warehouse: u64) -> &[Commit] {
        self.part(rt, warehouse).kept()
    }

    /// The partition of a warehouse.
    pub fn part(&self, rt: &impl Abort, warehouse: u64) -> &Partition<4096, K> {
        let place = (warehouse as usize).wrapping_sub(1);
        assert!(rt; place < self.partitions.len());
        self.partitions.part(place)
    }

    /// How many commits the serial list has, and which number the next one of several warehouses gets.
    pub fn numbers(&self) -> (u64, u64) {
        (self.journal.list.len(), self.journal.list.next_crossing())
    }
}
