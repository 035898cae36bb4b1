//! A bounded queue on which a thread can sleep, and which can be closed.

ghost use Rattle.std.specs.Prelude.{◌≡◌, ◌++◌, ◌∷◌, [], ◌<◌, true, false, IsTrue, IfErr, IfOk, OnErr, OnOk, MatchOption};
ghost use Rattle.hy_queues.specs.Queues.{FrontState, IsWhyUnput, with_put};

use crate::rule::{InOrder, Log, Put, Sides, Take};
use crossbeam_queue::{Pass, RuledArrayQueue};
use hy_schema::Refusal;
use std::alloc::{AllocError, Global};
use std::hint::spin_loop;
use std::marker::Model;
use std::sync::atomic::{AtomicU64, Ordering};
use std::sync::{Arc, Condvar, Mutex, Wait};
use std::thread::yield_now;

/// So often a thread looks at most whether an item was put before it sleeps: some fifteen microseconds.
const MOST_LOOKS: u64 = 3000;

/// So often it looks at least: less than a microsecond.
const LEAST_LOOKS: u64 = 100;

/// So many waits are short once a long one was in vain.
const SHORT_WAITS: u64 = 32;

/// A queue under the rule.
type Queue<T> = RuledArrayQueue<T, Log<T>, InOrder>;

/// The side of a queue at which items are put.
#[derive(Drop)]
struct Front<T> {
    queue: Arc<Queue<T>, Global>,
    pass: Pass<T, Log<T>>,
    is_closed: bool,
}

// Clauses see what was put, how many places there are, and whether it is closed.
impl<T> Model for Front<T> {
    ghost use Rattle.std.specs.Prelude.{◌≡◌, true, false};
    ghost use Rattle.std.specs.Arc.{arc_value};
    ghost use Rattle.crossbeam_queue.specs.Passes.{IsPassOf, ruled_capacity};
    ghost use Rattle.hy_queues.specs.Queues.{FrontState, log_of};

    ghost Value = { FrontState T };

    ghost view = { λ front. record {
      put = (log_of front.pass).put;
      capacity = ruled_capacity (arc_value front.queue);
      is_closed = front.is_closed;
    } };

    ghost invariant = { λ front. IsPassOf (arc_value front.queue) front.pass × ((log_of front.pass).puts ≡ true) };
}

impl<T: Drop> Front<T> {
    /// Puts an item at the end. It comes back with E16 exactly where the queue is closed; else with E17, only where the
    /// queue was full at one moment.
    fn put<R: Wait>(&mut self, rt: &R, item: T) -> Result<(), (T, Refusal)>
        ensures open { OnOk result (self.old.is_closed ≡ false) }
        ensures put { OnOk result (self.new ≡ with_put self.old item) }
        ensures back { IfErr result (λ refused. refused.0 ≡ item) }
        ensures refused { IfErr result (λ refused. IsWhyUnput self.old refused.1) }
        ensures err { OnErr result (self.new ≡ self.old) }
    {
        if self.is_closed {
            return Err((item, Refusal::Closed));
        }
        match self.queue.push_as::<Put, R>(rt, &mut self.pass, item) {
            Ok(()) => Ok(()),
            Err(item) => Err((item, Refusal::QueueFull)),
        }
    }

    /// Whether it is closed.
    fn is_closed(&self) -> bool
        ensures { result ≡ self.now.is_closed }
    {
        self.is_closed
    }

    /// From now on nothing is put. What was put can be taken.
    fn close(&mut self)
        ensures { self.new ≡ record self.old { is_closed = true } }
    {
        self.is_closed = true;
    }
}

/// The side at which items are taken.
#[derive(Drop)]
struct Back<T> {
    queue: Arc<Queue<T>, Global>,
    pass: Pass<T, Log<T>>,
}

// Clauses see what was taken.
impl<T> Model for Back<T> {
    ghost use Rattle.std.specs.Prelude.{◌≡◌, List, true};
    ghost use Rattle.std.specs.Arc.{arc_value};
    ghost use Rattle.crossbeam_queue.specs.Passes.{IsPassOf};
    ghost use Rattle.hy_queues.specs.Queues.{log_of};

    ghost Value = { List T };

    ghost view = { λ back. (log_of back.pass).taken };

    ghost invariant = { λ back. IsPassOf (arc_value back.queue) back.pass × ((log_of back.pass).takes ≡ true) };
}

impl<T: Drop> Back<T> {
    /// The first item, which is taken out. None only where the queue was empty at one moment.
    fn take<R: Wait>(&mut self, rt: &R) -> Option<T>
        ensures { MatchOption result (self.new ≡ self.old) (λ item. self.new ≡ self.old ++ item ∷ []) }
    {
        self.queue.pop_as::<Take, R>(rt, &mut self.pass)
    }
}

/// A queue of at most so many items, in the order in which they were put. Whoever waits for one sleeps.
#[derive(Drop)]
pub struct Line<T> {
    queue: Arc<Queue<T>, Global>,
    front: Mutex<Front<T>>,
    back: Mutex<Back<T>>,
    moved: Condvar,
    short_waits: AtomicU64,
}

// Clauses see how many places there are.
impl<T> Model for Line<T> {
    ghost use Rattle.std.specs.Prelude.{ℕ};
    ghost use Rattle.std.specs.Arc.{arc_value};
    ghost use Rattle.crossbeam_queue.specs.Passes.{ruled_capacity};

    ghost Value = { ℕ };

    ghost view = { λ line. ruled_capacity (arc_value line.queue) };
}

impl<T: Drop> Line<T> {
    /// An empty queue with so many places. All memory that it ever takes is taken here.
    pub fn new(alloc: Global, capacity: usize) -> Result<Line<T>, AllocError>
        requires { 0 < capacity }
        ensures { IfOk result (λ line. line ≡ capacity) }
    {
        let (queue, mut pass) = Queue::<T>::ruled(alloc, capacity)?;
        let taking = queue.another::<Sides>(&mut pass);
        let queue = Arc::new(alloc, queue)?;
        let front = Front {
            queue: Arc::try_clone(&queue)?,
            pass,
            is_closed: false,
        };
        let back = Back {
            queue: Arc::try_clone(&queue)?,
            pass: taking,
        };
        Ok(Line {
            queue,
            front: Mutex::new(front),
            back: Mutex::new(back),
            moved: Condvar::new(),
            short_waits: AtomicU64::new(SHORT_WAITS),
        })
    }

    /// Puts an item at the end, and wakes whoever waits for one. It comes back with E16 where the queue was closed, and
    /// with E17 where it was full, as whoever holds its front finds it.
    pub fn put<R: Wait>(&self, rt: &R, item: T) -> Result<(), (T, Refusal)>
        ensures back { IfErr result (λ refused. refused.0 ≡ item) }
        ensures refused { IfErr result (λ refused. (front : FrontState T) × IsWhyUnput front refused.1) }
    {
        self.front.lock(rt).put(rt, item)?;
        self.moved.notify_one();
        Ok(())
    }

    /// Puts an item into a queue that nobody closes, where a place is free or will be.
    pub fn put_soon<R: Wait>(&self, rt: &R, item: T) {
        let mut item = item;
        for _ in rt.forever() {
            match self.put(rt, item) {
                Ok(()) => return,
                Err((back, _)) => item = back,
            }
            yield_now();
        }
        unreachable!()
    }

    /// The first item, which is taken out. Whoever finds none looks a while for one that is put, and then sleeps until
    /// one is. None once the queue is closed and empty.
    pub fn take<R: Wait>(&self, rt: &R) -> Option<T> {
        for _ in rt.forever() {
            let seen = self.moved.notifications();
            if let Some(item) = self.back.lock(rt).take(rt) {
                return Some(item);
            }
            if self.sees_put(seen) {
                continue;
            }
            let front = self.front.lock(rt);
            // While this lock is held nothing is put.
            if let Some(item) = self.back.lock(rt).take(rt) {
                return Some(item);
            }
            if front.is_closed() {
                return None;
            }
            drop(self.moved.wait(rt, front));
        }
        unreachable!()
    }

    /// Looks a while, and says whether more was put than had been seen, or the queue was closed.
    fn sees_put(&self, seen: u64) -> bool {
        let is_short = self.waits_short();
        let looks = if is_short { LEAST_LOOKS } else { MOST_LOOKS };
        for _ in 0..looks {
            if self.moved.notifications() != seen {
                return true;
            }
            spin_loop();
        }
        if !is_short {
            self.short_waits.store(0, Ordering::SeqCst);
        }
        false
    }

    /// Whether the next wait is a short one. Looking pays where items come soon, and takes a processor from others where
    /// they don't: a long wait in vain is followed by some short ones, and then a long one is tried again.
    fn waits_short(&self) -> bool {
        let before = self.short_waits.load(Ordering::SeqCst);
        if before >= SHORT_WAITS {
            return false;
        }
        self.short_waits.store(before + 1, Ordering::SeqCst);
        true
    }

    /// Whether it is closed, as whoever holds its front finds it.
    pub fn is_closed<R: Wait>(&self, rt: &R) -> bool
        ensures { IsTrue result → (front : FrontState T) × (front.is_closed ≡ true) }
    {
        self.front.lock(rt).is_closed()
    }

    /// From now on nothing is put. What was put is still taken, and then whoever waits gets none.
    pub fn close<R: Wait>(&self, rt: &R) {
        self.front.lock(rt).close();
        self.moved.notify_all();
    }
}
