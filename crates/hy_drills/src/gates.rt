//! For tests: gates at which workers are held.

use hy_storm::hy_engine::Gate;
use std::alloc::{AllocError, Global};
use std::process::Abort;
use std::sync::atomic::{AtomicBool, AtomicU64, Ordering};
use std::sync::{Arc, Wait};
use std::thread::yield_now;

/// So often somebody who waits looks at most.
const TURNS: u64 = 1_000_000_000;

/// Waits until a flag is set. False where it isn't after so many turns.
pub fn waits_for(flag: &AtomicBool) -> bool {
    for _ in 0..TURNS {
        if flag.load(Ordering::SeqCst) {
            return true;
        }
        yield_now();
    }
    false
}

/// Waits until a test has come to its end, which has to be soon. So a test in which somebody waits for ever fails.
pub fn watch(rt: &impl Abort, ended: &AtomicBool) {
    assert!(rt; waits_for(ended), "an end");
}

/// Holds the worker of warehouse 1 before a slice with a number, until the gate is opened.
#[derive(Drop)]
pub struct Held {
    slice: u64,
    pub reached: AtomicBool,
    pub opened: AtomicBool,
    pub too_long: AtomicBool,
    pub answers: [AtomicU64; 2],
}

impl Held {
    /// Never held, since slices have numbers from 1.
    pub fn never() -> Held {
        Held::before(0)
    }

    /// Held before this slice.
    pub fn before(slice: u64) -> Held {
        Held {
            slice,
            reached: AtomicBool::new(false),
            opened: AtomicBool::new(false),
            too_long: AtomicBool::new(false),
            answers: [AtomicU64::new(0), AtomicU64::new(0)],
        }
    }
}

impl Gate for Held {
    fn before_step<R: Wait>(&self, _rt: &R, warehouse: u8, slice: u64) {
        if warehouse != 1 || slice != self.slice {
            return;
        }
        self.reached.store(true, Ordering::SeqCst);
        if !waits_for(&self.opened) {
            self.too_long.store(true, Ordering::SeqCst);
        }
    }

    fn answered<R: Wait>(&self, _rt: &R, warehouse: u8) {
        if warehouse == 1 {
            self.answers[0].fetch_add(1, Ordering::SeqCst);
        } else {
            self.answers[1].fetch_add(1, Ordering::SeqCst);
        }
    }
}

/// What the workers of two warehouses have come to.
#[derive(Drop)]
struct Counts {
    answers: [AtomicU64; 2],
    too_long: AtomicBool,
}

/// At its first answer each of two workers waits for that of the other.
#[derive(Drop)]
pub struct Meeting {
    counts: Arc<Counts>,
}

impl Meeting {
    /// Nobody came so far.
    pub fn new(alloc: Global) -> Result<Meeting, AllocError> {
        let counts = Counts {
            answers: [AtomicU64::new(0), AtomicU64::new(0)],
            too_long: AtomicBool::new(false),
        };
        Ok(Meeting {
            counts: Arc::new(alloc, counts)?,
        })
    }

    /// The same meeting.
    pub fn share(&self) -> Result<Meeting, AllocError> {
        Ok(Meeting {
            counts: Arc::try_clone(&self.counts)?,
        })
    }

    /// How many answers the worker at a place has given.
    pub fn answers(&self, place: usize) -> u64 {
        if place == 0 {
            self.counts.answers[0].load(Ordering::SeqCst)
        } else {
            self.counts.answers[1].load(Ordering::SeqCst)
        }
    }

    /// Whether one of them waited too long.
    pub fn too_long(&self) -> bool {
        self.counts.too_long.load(Ordering::SeqCst)
    }

    /// Whether the worker at a place has answered, which may take so many turns.
    fn waits_for_answer(&self, place: usize) -> bool {
        for _ in 0..TURNS {
            if self.answers(place) != 0 {
                return true;
            }
            yield_now();
        }
        false
    }
}

impl Gate for Meeting {
    fn before_step<R: Wait>(&self, _rt: &R, _warehouse: u8, _slice: u64) {}

    fn answered<R: Wait>(&self, _rt: &R, warehouse: u8) {
        let before = if warehouse == 1 {
            self.counts.answers[0].fetch_add(1, Ordering::SeqCst)
        } else {
            self.counts.answers[1].fetch_add(1, Ordering::SeqCst)
        };
        let other = if warehouse == 1 { 1 } else { 0 };
        if before == 0 && !self.waits_for_answer(other) {
            self.counts.too_long.store(true, Ordering::SeqCst);
        }
    }
}
