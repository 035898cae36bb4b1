//! What a terminal noted.

use hy_commands::{Command, Commit, Reply};
use hy_engine::hy_redo_drains::hy_partition::Loaded;
use hy_passes::Pass;
use std::alloc::{AllocError, Global};
use std::sync::atomic::{AtomicU64, Ordering};

/// How many commits a pass knew, and the tick of the clock behind that.
#[derive(Clone, Copy, Debug, Drop)]
pub struct Moment {
    /// The tick.
    pub tick: u64,
    /// The commits.
    pub known: u64,
}

impl Moment {
    /// That of a pass.
    pub fn of<K: Loaded>(clock: &AtomicU64, pass: &Pass<Commit, K>) -> Moment {
        let known = pass.known();
        Moment {
            tick: next_tick(clock),
            known,
        }
    }
}

/// The next tick of the clock, which all terminals share.
pub fn next_tick(clock: &AtomicU64) -> u64 {
    clock.fetch_add(1, Ordering::SeqCst)
}

/// What happens at a terminal.
#[derive(Drop)]
pub enum Event {
    /// A command is handed in.
    Asks(Moment, Command),
    /// It is answered, with a share or without.
    Told(Moment, bool, Reply),
    /// A look that began behind a tick.
    Looks(u64, Moment),
}

/// What happened at a terminal, in order.
#[derive(Drop)]
pub struct History {
    events: Vec<Event>,
}

impl History {
    /// Nothing.
    pub fn new(alloc: Global) -> History {
        History {
            events: Vec::new(alloc),
        }
    }

    /// One thing more. E1.
    pub fn note(&mut self, event: Event) -> Result<(), AllocError> {
        self.events.push(event)?;
        Ok(())
    }

    /// All of it.
    pub fn events(&self) -> &[Event] {
        &self.events
    }
}
