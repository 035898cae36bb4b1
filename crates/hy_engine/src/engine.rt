//! The engine, and how it is made and taken apart.

ghost use Rattle.std.specs.Prelude.{◌≡◌, ◌↔◌, ◌⊎◌, ◌≤◌, [], IfErr, IfOk, IsTrue, OnOk, length, vec_capacity};
ghost use Rattle.hy_schema.specs.declared.refusal.Refusal.{Refusal};
ghost use Rattle.hy_rows.specs.Limits.{max_warehouses};
ghost use Rattle.hy_engine.specs.Engines.{HavePlaces, IsCapacity};

use crate::answer::Answer;
use crate::gate::Gate;
use crate::new_job::NewJob;
use hy_commands::Commit;
use hy_passes::Journal;
use hy_queues::Line;
use hy_redo_drains::hy_partition::{Loaded, Partition};
use hy_rows::MAX_WAREHOUSES;
use hy_schema::Refusal;
use std::alloc::{AllocError, Global};
use std::marker::Model;
use std::sync::{Mutex, Wait};

/// How many jobs a warehouse's queue can hold at most.
pub const MAX_CAPACITY: usize = 4096;

/// The partitions of all warehouses and their journal, each behind a lock, with a queue of jobs for each warehouse and
/// one of answers for each client. All threads share it.
#[derive(Drop)]
pub struct Engine<const N: usize, K: Loaded, G: Gate> {
    pub(crate) parts: Vec<Mutex<Partition<N, K>>>,
    pub(crate) journal: Mutex<Journal<Commit, K>>,
    pub(crate) turn: Mutex<()>,
    pub(crate) jobs: Vec<Line<NewJob<K>>>,
    pub(crate) answers: Vec<Line<Answer<K>>>,
    pub(crate) gate: G,
    capacity: usize,
    spare: Mutex<Spare<N, K>>,
}

// Clauses see how many warehouses there are, and how many places the queue of each has. A queue of answers is there for each
// client of the kit, with one place.
impl<const N: usize, K: Loaded, G: Gate> Model for Engine<N, K, G> {
    ghost use Rattle.std.specs.Prelude.{◌≡◌, ◌≤◌, length};
    ghost use Rattle.hy_rows.specs.Limits.{max_warehouses};
    ghost use Rattle.hy_engine.specs.Engines.{EngineState, HavePlaces};

    ghost Value = { EngineState };

    ghost view = { λ e. record { warehouses = length e.parts.items; capacity = e.capacity } };

    ghost invariant = { λ e.
        (length e.jobs.items ≡ length e.parts.items)
        × (length e.parts.items ≤ max_warehouses)
        × (length e.answers.items ≡ K.passes.clients)
        × HavePlaces e.capacity e.jobs.items
        × HavePlaces 1 e.answers.items };
}

impl<const N: usize, K: Loaded, G: Gate + Drop> Engine<N, K, G> {
    /// An engine over the partitions of all warehouses in order and their journal, for the clients of the kit, of which there
    /// are so many, with room for so many jobs in the queue of each warehouse. A refusal gives all of it back: E8 exactly
    /// where the capacity isn't 1 to 4,096; else E1.
    pub fn new(
        alloc: Global,
        parts: Vec<Partition<N, K>>,
        journal: Journal<Commit, K>,
        clients: u32,
        capacity: usize,
        gate: G,
    ) -> Result<Engine<N, K, G>, (Vec<Partition<N, K>>, Journal<Commit, K>, G, Refusal)>
        requires few { length parts.items ≤ max_warehouses }
        requires clients { clients ≡ K.passes.clients }
        ensures warehouses { IfOk result (λ engine. engine.warehouses ≡ length parts.items) }
        ensures capacity { IfOk result (λ engine. engine.capacity ≡ capacity) }
        ensures range { OnOk result (IsCapacity capacity) }
        ensures refused { IfErr result (λ refused. (refused.3 ≡ Refusal.OutOfRange) ⊎ (refused.3 ≡ Refusal.NoMemory)) }
        ensures out_of_range { IfErr result
            (λ refused. (refused.3 ≡ Refusal.OutOfRange) ↔ (IsCapacity capacity → ⊥)) }
        ensures back { IfErr result
            (λ refused. (refused.0 ≡ parts) × (refused.1 ≡ journal) × (refused.2 ≡ gate)) }
    {
        if !is_capacity(capacity) {
            return Err((parts, journal, gate, Refusal::OutOfRange));
        }
        match reserve(alloc, parts.len(), clients as usize, capacity) {
            Ok(rooms) => Ok(engine_in(rooms, parts, journal, gate, capacity)),
            Err(_) => Err((parts, journal, gate, Refusal::NoMemory)),
        }
    }

    /// How many warehouses there are.
    pub fn warehouses(&self) -> usize
        ensures { result ≡ self.now.warehouses }
    {
        self.parts.len()
    }

    /// How many clients there are: those of the kit.
    pub fn clients(&self) -> usize
        ensures { result ≡ K.passes.clients }
    {
        self.answers.len()
    }

    /// The gate.
    pub fn gate(&self) -> &G {
        &self.gate
    }

    /// From now on no job is taken. The jobs that wait are still done, and then the workers return.
    pub fn close<R: Wait>(&self, rt: &R) {
        for line in &self.jobs {
            line.close(rt);
        }
    }

    /// The partitions in order and their journal, once no thread uses the engine. Takes no memory.
    pub fn finish(self) -> (Vec<Partition<N, K>>, Journal<Commit, K>)
        ensures { length result.0.items ≡ self.warehouses }
    {
        let Engine {
            parts,
            journal,
            turn: _,
            jobs: _,
            answers: _,
            gate: _,
            capacity: _,
            spare,
        } = self;
        (
            unlocked(parts, spare.into_inner().open()),
            journal.into_inner(),
        )
    }
}

/// Room for the partitions of all warehouses, for when the engine is taken apart. It lies behind a lock, which nobody takes
/// before: a partition can't be shared.
#[derive(Drop)]
struct Spare<const N: usize, K: Loaded> {
    room: Vec<Partition<N, K>>,
    ghost empty: { room.items ≡ [] },
    ghost wide: { max_warehouses ≤ vec_capacity room },
}

impl<const N: usize, K: Loaded> Spare<N, K> {
    /// Such room. E1.
    fn new(alloc: Global) -> Result<Spare<N, K>, AllocError> {
        Ok(Spare {
            room: Vec::with_capacity(alloc, usize::from(MAX_WAREHOUSES))?,
        })
    }

    /// The room.
    fn open(self) -> Vec<Partition<N, K>>
        ensures empty { result.items ≡ [] }
        ensures wide { max_warehouses ≤ vec_capacity result }
    {
        let Spare { room } = self;
        room
    }
}

/// Whether a queue of jobs may have so many places.
fn is_capacity(capacity: usize) -> bool
    ensures { IsTrue result ↔ IsCapacity capacity }
{
    (1..=MAX_CAPACITY).contains(&capacity)
}

/// The values behind locks, in order, in this room.
fn unlocked<T: Drop>(locks: Vec<Mutex<T>>, room: Vec<T>) -> Vec<T>
    requires empty { room.items ≡ [] }
    requires room { length locks.items ≤ vec_capacity room }
    ensures { length result.items ≡ length locks.items }
{
    let mut values = room;
    for lock in locks {
        values.push_reserved(lock.into_inner());
    }
    values
}

/// The memory of an engine.
#[derive(Drop)]
struct Rooms<const N: usize, K: Loaded> {
    parts: Vec<Mutex<Partition<N, K>>>,
    jobs: Vec<Line<NewJob<K>>>,
    answers: Vec<Line<Answer<K>>>,
    spare: Spare<N, K>,
}

// Clauses see how many places the queues of jobs have, and those of answers.
impl<const N: usize, K: Loaded> Model for Rooms<N, K> {
    ghost use Rattle.std.specs.Prelude.{◌≡◌, ◌≤◌, [], length, vec_capacity};
    ghost use Rattle.hy_engine.specs.inside.Rooms.{RoomsState};

    ghost Value = { RoomsState };

    ghost view = { λ r. record { jobs = r.jobs.items; answers = r.answers.items } };

    ghost invariant = { λ r. (r.parts.items ≡ []) × (length r.jobs.items ≤ vec_capacity r.parts) };
}

/// So many queues of a capacity.
fn lines<T: Drop>(alloc: Global, count: usize, capacity: usize) -> Result<Vec<Line<T>>, AllocError>
    requires { 1 ≤ capacity }
    ensures count { IfOk result (λ lines. length lines.items ≡ count) }
    ensures places { IfOk result (λ lines. HavePlaces capacity lines.items) }
{
    let mut lines = Vec::with_capacity(alloc, count)?;
    for _ in 0..count {
        lines.push_reserved(Line::new(alloc, capacity)?);
    }
    Ok(lines)
}

/// The memory of an engine for so many warehouses and clients.
fn reserve<const N: usize, K: Loaded>(
    alloc: Global,
    warehouses: usize,
    clients: usize,
    capacity: usize,
) -> Result<Rooms<N, K>, AllocError>
    requires { 1 ≤ capacity }
    ensures jobs { IfOk result (λ rooms. (length rooms.jobs ≡ warehouses) × HavePlaces capacity rooms.jobs) }
    ensures answers { IfOk result (λ rooms. (length rooms.answers ≡ clients) × HavePlaces 1 rooms.answers) }
{
    let parts = Vec::with_capacity(alloc, warehouses)?;
    let jobs = lines(alloc, warehouses, capacity)?;
    let answers = lines(alloc, clients, 1)?;
    let spare = Spare::new(alloc)?;
    Ok(Rooms {
        parts,
        jobs,
        answers,
        spare,
    })
}

/// A lock for each value, in order, in this room.
fn locked<T: Drop>(values: Vec<T>, room: Vec<Mutex<T>>) -> Vec<Mutex<T>>
    requires empty { room.items ≡ [] }
    requires room { length values.items ≤ vec_capacity room }
    ensures { length result.items ≡ length values.items }
{
    let mut locks = room;
    for value in values {
        locks.push_reserved(Mutex::new(value));
    }
    locks
}

/// The engine in this memory.
fn engine_in<const N: usize, K: Loaded, G: Gate>(
    rooms: Rooms<N, K>,
    parts: Vec<Partition<N, K>>,
    journal: Journal<Commit, K>,
    gate: G,
    capacity: usize,
) -> Engine<N, K, G>
    requires few { length parts.items ≤ max_warehouses }
    requires jobs { (length rooms.jobs ≡ length parts.items) × HavePlaces capacity rooms.jobs }
    requires answers { (length rooms.answers ≡ K.passes.clients) × HavePlaces 1 rooms.answers }
    ensures { result ≡ record { warehouses = length parts.items; capacity = capacity } }
{
    let Rooms {
        parts: locks,
        jobs,
        answers,
        spare,
    } = rooms;
    Engine {
        parts: locked(parts, locks),
        journal: Mutex::new(journal),
        turn: Mutex::new(()),
        jobs,
        answers,
        gate,
        capacity,
        spare: Mutex::new(spare),
    }
}
