//! What an analyst does.

ghost use Rattle.hy_session.specs.of_forks.Forks.{AreOfKit};
ghost use Rattle.hy_engine.specs.Engines.{AreMine};

use crate::PAGE_BYTES;
use crate::kept::Kept;
use crate::logging::{Logged, drain_to};
use hy_commands::Commit;
use hy_engine::{Engine, Gate};
use hy_passes::Pass;
use hy_redo::LogOut;
use hy_schema::Refusal;
use hy_session::Session;
use hy_session::hy_partition::Loaded;
use std::alloc::Global;
use std::sync::Wait;

/// How many rounds a session makes.
const ROUNDS: u64 = 3;

/// How a session ended: the rounds whose conditions held, a refusal where it ended early, and one where the log wasn't
/// written.
#[derive(Clone, Copy, Debug, Drop)]
pub struct SessionEnd {
    /// How many rounds held.
    pub held: u64,
    /// Why it ended early.
    pub refusal: Option<Refusal>,
    /// Why what it drained first in vain wasn't acknowledged.
    pub unlogged: Option<Refusal>,
}

impl SessionEnd {
    /// The end of sessions that made no round.
    pub fn without_rounds(refusal: Option<Refusal>) -> SessionEnd {
        SessionEnd {
            held: 0,
            refusal,
            unlogged: None,
        }
    }

    /// Puts another session's end to this one.
    pub fn merge(&mut self, other: SessionEnd) {
        self.held = self.held.saturating_add(other.held);
        self.refusal = self.refusal.or(other.refusal);
        self.unlogged = self.unlogged.or(other.unlogged);
    }
}

/// Makes three rounds of a snapshot, its conditions, its report, its end and a drain.
pub fn run_session<K: Loaded, G: Gate + Drop, W: LogOut, R: Wait>(
    rt: &R,
    alloc: Global,
    engine: &Engine<PAGE_BYTES, K, Kept<G>>,
    log: Logged<'_, W, K>,
    mut pass: Pass<Commit, K>,
) -> SessionEnd {
    let mut end = SessionEnd::without_rounds(None);
    for _ in 0..ROUNDS {
        if let Err(refusal) = run_round(rt, alloc, engine, log, &mut pass, &mut end) {
            end.refusal = Some(refusal);
            return end;
        }
    }
    end
}

/// One round.
fn run_round<K: Loaded, G: Gate + Drop, W: LogOut, R: Wait>(
    rt: &R,
    alloc: Global,
    engine: &Engine<PAGE_BYTES, K, Kept<G>>,
    log: Logged<'_, W, K>,
    pass: &mut Pass<Commit, K>,
    end: &mut SessionEnd,
) -> Result<(), Refusal> {
    let session = Session::new(engine.fork_all(rt, alloc, pass)?);
    let broken = session.check_conditions(alloc);
    let report = session.report(alloc);
    close(rt, engine, session);
    end.unlogged = end.unlogged.or(drain_to(rt, alloc, engine, log));
    report?;
    if broken?.is_none() {
        end.held = end.held.saturating_add(1);
    }
    Ok(())
}

/// Closes a session. Where the partitions weren't those of the load any more, which no thread can bring about, it would wait
/// for ever.
fn close<K: Loaded, G: Gate + Drop, R: Wait>(
    rt: &R,
    engine: &Engine<PAGE_BYTES, K, Kept<G>>,
    session: Session<PAGE_BYTES>,
)
    requires kit { AreOfKit K.passes session }
    requires mine { AreMine K.passes K.load session }
{
    let Ok(mut partitions) = engine.hold(rt) else {
        wait_for_ever(rt);
        unreachable!()
    };
    partitions.sound();
    match session.close_all(&mut partitions) {
        Ok(()) => {}
        Err(_) => unreachable!(),
    }
}

/// Waits, and doesn't return.
fn wait_for_ever<R: Wait>(rt: &R)
    ensures never { ⊥ }
{
    for _ in rt.forever() {}
    unreachable!()
}
