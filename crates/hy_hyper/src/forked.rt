//! For tests: a partition of one warehouse, with what its kit has and the snapshots that are open of it.

ghost use Rattle.std.specs.Prelude.{◌≡◌, ℕ, ◌≤◌, length};
ghost use Rattle.hy_frames.specs.FrameTable.{IsPageSize};
ghost use Rattle.hy_worlds.specs.Origins.{desk_of};
ghost use Rattle.hy_passes.specs.Worlds.{new_partition};

use hy_commands::{Command, Commit, Reply};
use hy_loads::Load;
use hy_partition::{Job, Loaded, Partition, Progress, Snapshot};
use hy_passes::{Journal, Kit, PartitionSeat, Pass, Passes, make};
use hy_schema::Refusal;
use hy_tables::generate;
use std::alloc::Global;
use std::marker::{Brand, PhantomData};
use std::process::Abort;
use std::sync::Arc;

/// How many frames partitions may have where a test says nothing else.
pub const FRAMES: u64 = 1000;

/// The size of a partition: items of a generated warehouse of three customers a district, and what it may have at most.
#[derive(Clone, Copy)]
pub struct Size {
    pub items: u64,
    pub frames: u64,
    pub kept: u64,
}

/// A size with so many items.
pub fn of_items(items: u64) -> Size
    ensures frames { (1 ≤ result.frames) × (result.frames ≤ 1000) }
    ensures kept { (1 ≤ result.kept) × (result.kept ≤ 10000) }
{
    Size {
        items,
        frames: FRAMES,
        kept: 1000,
    }
}

/// What a test does with a partition that it makes, on pages of one size. A call that says which kit it has can't say how
/// large pages are, so it takes one of these.
pub trait Body {
    ghost page_size: { ℕ };

    fn run<K: Loaded, R: Abort + AllocGlobal>(
        &self,
        rt: &R,
        load: &Load,
        kit: Kit<Commit>,
        size: Size,
    ) -> Result<(), Refusal>
        requires page { IsPageSize page_size }
        requires frames { (1 ≤ size.frames) × (size.frames ≤ 1000) }
        requires kept { (1 ≤ size.kept) × (size.kept ≤ 10000) }
        requires load { load.now ≡ K.load }
        requires warehouse { 1 ≤ length load.now.tables.warehouses }
        requires kit { kit ≡ K.passes }
        requires partitions { kit.partitions ≡ 1 };
}

/// A case of a test, on pages of `N` bytes.
#[derive(Drop)]
pub struct On<const N: usize, C> {
    pub case: C,
}

/// Makes a load and a kit for a partition with three clients, and hands them to a test.
pub fn run<B: Body, R: Abort + AllocGlobal>(rt: &R, size: Size, body: &B) -> Result<(), Refusal>
    requires page { IsPageSize B.page_size }
    requires frames { (1 ≤ size.frames) × (size.frames ≤ 1000) }
    requires kept { (1 ≤ size.kept) × (size.kept ≤ 10000) }
{
    let load = generate(rt.alloc(), 1, 3, size.items).expect(rt, "a load");
    run_on(rt, &load, size, body)
}

/// The same on a load of one warehouse.
pub fn run_on<B: Body, R: Abort + AllocGlobal>(
    rt: &R,
    load: &Load,
    size: Size,
    body: &B,
) -> Result<(), Refusal>
    requires page { IsPageSize B.page_size }
    requires frames { (1 ≤ size.frames) × (size.frames ≤ 1000) }
    requires kept { (1 ≤ size.kept) × (size.kept ≤ 10000) }
{
    assert!(rt; load.tables().warehouses.len() == 1);
    let kit = make::<Commit>(rt.alloc(), 1, 3, 1).expect(rt, "a kit");
    run_in_world::<Brand, _, _>(rt, load, kit, size, body)
}

/// The same in the world of the load and the kit.
fn run_in_world<K: Loaded, B: Body, R: Abort + AllocGlobal>(
    rt: &R,
    load: &Load,
    kit: Kit<Commit>,
    size: Size,
    body: &B,
) -> Result<(), Refusal>
    requires page { IsPageSize B.page_size }
    requires frames { (1 ≤ size.frames) × (size.frames ≤ 1000) }
    requires kept { (1 ≤ size.kept) × (size.kept ≤ 10000) }
    requires load { load.now ≡ K.load }
    requires warehouse { 1 ≤ length load.now.tables.warehouses }
    requires kit { kit ≡ K.passes }
    requires partitions { kit.partitions ≡ 1 }
{
    body.run::<K, R>(rt, load, kit, size)
}

/// A snapshot of a partition of this world.
pub struct Taken<const N: usize, K: Loaded> {
    pub snapshot: Snapshot<N>,
    pub of: PhantomData<K>,
    ghost own: { snapshot.desk ≡ desk_of K.passes snapshot.warehouse },
}

/// Takes a snapshot of all that is kept.
pub fn take<const N: usize, K: Loaded>(
    partition: &mut Partition<N, K>,
    journal: &mut Journal<Commit, K>,
    client: &mut Pass<Commit, K>,
) -> Result<Taken<N, K>, Refusal> {
    let snapshot = partition.fork(journal, client)?;
    Ok(Taken {
        snapshot,
        of: PhantomData,
    })
}

/// Takes a snapshot of what another one sees.
pub fn take_from<const N: usize, K: Loaded>(
    partition: &mut Partition<N, K>,
    from: &Taken<N, K>,
) -> Result<Taken<N, K>, Refusal> {
    let snapshot = partition.fork_from(&from.snapshot)?;
    Ok(Taken {
        snapshot,
        of: PhantomData,
    })
}

/// Closes a snapshot of this world, where it is the partition's.
pub fn give_back<const N: usize, K: Loaded>(
    partition: &mut Partition<N, K>,
    taken: Taken<N, K>,
) -> Result<(), (Taken<N, K>, Refusal)> {
    let Taken { snapshot, of: _ } = taken;
    match partition.close(snapshot) {
        Ok(()) => Ok(()),
        Err((snapshot, refusal)) => Err((
            Taken {
                snapshot,
                of: PhantomData,
            },
            refusal,
        )),
    }
}

/// A partition with its journal, the clients who are at home, and the snapshots that are open of it, in the order in
/// which they were taken.
pub struct Forked<const N: usize, K: Loaded> {
    partition: Partition<N, K>,
    passes: Arc<Passes<Commit, K>, Global>,
    journal: Journal<Commit, K>,
    clients: Vec<Pass<Commit, K>>,
    snapshots: Vec<Taken<N, K>>,
}

impl<const N: usize, K: Loaded> Forked<N, K> {
    /// The partition of the kit's only warehouse.
    pub fn new<R: Abort + AllocGlobal>(
        rt: &R,
        load: &Load,
        kit: Kit<Commit>,
        size: Size,
    ) -> Result<Forked<N, K>, Refusal>
        requires page { IsPageSize N }
        requires frames { (1 ≤ size.frames) × (size.frames ≤ 1000) }
        requires kept { (1 ≤ size.kept) × (size.kept ≤ 10000) }
        requires load { load.now ≡ K.load }
        requires warehouse { 1 ≤ length load.now.tables.warehouses }
        requires kit { kit ≡ K.passes }
        requires partitions { kit.partitions ≡ 1 }
    {
        let (passes, journal, mut seats, clients) = kit.open::<K>()?;
        let seat = seats.take_last();
        let partition = begun(rt.alloc(), load, 1, seat, size)?;
        Ok(Forked {
            partition,
            passes,
            journal,
            clients,
            snapshots: Vec::new(rt.alloc()),
        })
    }

    /// Takes a snapshot of all that is kept, behind the others, for the client who came home last.
    pub fn fork(&mut self, rt: &impl Abort) -> Result<(), Refusal> {
        self.snapshots.reserve(1).expect(rt, "a place");
        let Some(client) = self.clients.last_mut() else {
            panic!(rt; "a client")
        };
        let taken = take(&mut self.partition, &mut self.journal, client)?;
        self.snapshots.push_reserved(taken);
        Ok(())
    }

    /// Takes a snapshot of what the one at a place sees, behind the others.
    pub fn fork_from(&mut self, rt: &impl Abort, place: usize) -> Result<(), Refusal> {
        self.snapshots.reserve(1).expect(rt, "a place");
        let from = self.snapshots.get(place).expect(rt, "a snapshot");
        let taken = take_from(&mut self.partition, from)?;
        self.snapshots.push_reserved(taken);
        Ok(())
    }

    /// Lets go of the snapshot at a place.
    pub fn remove(&mut self, rt: &impl Abort, place: usize) -> Taken<N, K> {
        assert!(rt; place < self.snapshots.len());
        self.snapshots.remove(place)
    }

    /// Closes the snapshot at a place.
    pub fn close(&mut self, rt: &impl Abort, place: usize) {
        let taken = self.remove(rt, place);
        self.take_back(rt, taken);
    }

    /// Closes a snapshot of this partition.
    pub fn take_back(&mut self, rt: &impl Abort, taken: Taken<N, K>) {
        match give_back(&mut self.partition, taken) {
            Ok(()) => {}
            Err(_) => panic!(rt; "a snapshot of another partition"),
        }
    }

    /// A snapshot of a kit with another name comes back from a close.
    pub fn hand_back<L: Loaded>(&mut self, rt: &impl Abort, taken: Taken<N, L>) -> Taken<N, L> {
        assert!(rt; taken.snapshot.name() != self.passes.name());
        let Taken { snapshot, of: _ } = taken;
        let Err((snapshot, refusal)) = self.partition.close(snapshot) else {
            panic!(rt; "another kit's snapshot was closed")
        };
        assert!(rt; refusal == Refusal::NotMine);
        Taken {
            snapshot,
            of: PhantomData,
        }
    }

    /// Begins a command for a client who is at home.
    pub fn begin(&mut self, rt: &impl Abort, command: Command) -> Result<(), Refusal> {
        let Some(client) = self.clients.pop() else {
            panic!(rt; "a client")
        };
        let Err((job, refusal)) = self.partition.begin(Job::new(command, client)) else {
            return Ok(());
        };
        let (reply, client, share) = job.refuse(refusal).open();
        assert!(rt; share.is_none());
        self.clients.push(client).expect(rt, "a place");
        match reply {
            Reply::Refused(refusal) => Err(refusal),
            _ => panic!(rt; "a refusal"),
        }
    }

    /// One slice of the job that runs, without the journal where others follow it.
    pub fn step(&mut self) -> Result<Progress, Refusal> {
        if self.partition.at_last() {
            self.partition.step(&mut self.journal)
        } else {
            self.partition.step_early()
        }
    }

    /// All slices of the job that runs.
    pub fn finish(&mut self) {
        self.partition.finish_running(&mut self.journal);
    }

    /// The answer that waits to be taken. It has a share where the command was accepted and doesn't only read.
    pub fn answer(&mut self, rt: &impl Abort) -> Option<(Reply, bool)> {
        let (reply, client, share) = self.partition.take_done()?.open();
        self.clients.push(client).expect(rt, "a place");
        Some((reply, share.is_some()))
    }

    /// Lets so many frames be free, of which there may be `FRAMES` until then.
    pub fn limit(&mut self, rt: &impl Abort, free: u64) {
        let used = FRAMES.saturating_sub(self.partition.free());
        assert!(rt; self.partition.set_max(used.saturating_add(free)).is_ok());
    }

    /// The number of the warehouse.
    pub fn warehouse(&self) -> u8 {
        self.partition.warehouse()
    }

    /// Whether the next slice is the last one.
    pub fn at_last(&self) -> bool {
        self.partition.at_last()
    }

    /// Sets how many frames may be in use.
    pub fn set_max(&mut self, max: u64) -> Result<(), Refusal> {
        self.partition.set_max(max)
    }

    /// What always holds of a partition.
    pub fn sound(&self) {
        self.partition.headline();
        self.partition.ties();
    }

    /// How many frames are free.
    pub fn free(&self) -> u64 {
        self.partition.free()
    }

    /// How many frames more than one page table maps.
    pub fn shared(&self) -> u64 {
        self.partition.shared()
    }

    /// How many pages the job that runs has written.
    pub fn touched(&self) -> u64 {
        self.partition.touched()
    }

    /// How many commits are kept.
    pub fn kept(&self) -> usize {
        self.partition.kept().len()
    }

    /// The snapshot at a place.
    pub fn snapshot(&self, rt: &impl Abort, place: usize) -> &Snapshot<N> {
        &self.snapshots.get(place).expect(rt, "a snapshot").snapshot
    }

    /// How many commits the serial list has, as the client at a place sees it, from 0.
    pub fn kept_now(&mut self, rt: &impl Abort, place: usize) -> u64 {
        let Some(client) = self.clients.get_mut(place) else {
            panic!(rt; "a client")
        };
        self.passes.kept_now(client)
    }

    /// The partition, of which no snapshot is open any more, is given up. Answers how many frames are free.
    pub fn end(self, rt: &impl Abort) -> u64 {
        let Forked {
            partition,
            passes: _,
            journal: _,
            clients: _,
            snapshots,
        } = self;
        assert!(rt; snapshots.is_empty() && partition.shared() == 0);
        snapshots.destroy_empty();
        partition.free()
    }
}

/// The partition of a warehouse.
pub fn begun<const N: usize, K: Loaded>(
    alloc: Global,
    load: &Load,
    warehouse: u8,
    seat: PartitionSeat<Commit, K>,
    size: Size,
) -> Result<Partition<N, K>, Refusal>
    requires page { IsPageSize N }
    requires frames { (1 ≤ size.frames) × (size.frames ≤ 1000) }
    requires kept { (1 ≤ size.kept) × (size.kept ≤ 10000) }
    requires load { load.now ≡ K.load }
    requires first { 1 ≤ warehouse }
    requires last { warehouse ≤ length load.now.tables.warehouses }
    requires seat { seat ≡ new_partition warehouse }
{
    match Partition::new(alloc, load, warehouse, seat, size.frames, size.kept) {
        Ok(partition) => Ok(partition),
        Err((_seat, refusal)) => Err(refusal),
    }
}
