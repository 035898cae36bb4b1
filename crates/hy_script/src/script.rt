//! Runs a script.

ghost use Rattle.std.specs.Prelude.{◌≡◌, ◌≤◌, IfErr, IsTrue, None, OnOk};
ghost use Rattle.hy_frames.specs.FrameTable.{IsPageSize, max_frames as most_frames};
ghost use Rattle.hy_session.specs.of_partition.Limits.{most_kept};
ghost use Rattle.hy_events.specs.Lines.{lines, numbered};
ghost use Rattle.hy_script.specs.declared.script.ScriptFault.TheVariants as faults;
ghost use Rattle.hy_script.specs.Printed.{ArePrinted};
ghost use Rattle.hy_script.specs.Scripts.{IsPrinted};
ghost use Rattle.hy_script.specs.Ends.{IsLinesFault, IsRunFault, IsScriptFault};
ghost use Rattle.hy_script.specs.inside.Held.{contents_behind, failed_behind, output_behind};

use crate::database::Database;
use crate::event::{Unanswered, answer_line};
use crate::held::{HELD_BYTES, Held};
use crate::kit::{Pages, kit_for, run_over};
use hy_events::{Lines, ScriptLine};
use hy_loads::Load;
use hy_output::{Output, Take};
use hy_schema::Refusal;
use hy_session::hy_partition::Loaded;
use std::alloc::Global;
use std::marker::Brand;
use std::{io, mem};

/// How many bytes more there is room for: no answer has more, where the names of its snapshots are short.
const ANSWER_BYTES: usize = 8192;

/// Why a script wasn't run to its end.
#[derive(Debug, Drop)]
pub enum ScriptFault {
    /// The partitions can't be made: E2 or E1. Nothing was printed.
    Refused(Refusal),
    /// The line of this number, counted from 1, isn't empty and says no event, or names a snapshot that isn't open, or
    /// opens one of an open name. The events before it are done, and their answers are printed.
    BadEvent(u64),
    /// The output failed.
    Output(io::Error),
}

impl From<Refusal> for ScriptFault {
    ghost from_gives = { λ refusal made. made ≡ faults.Refused refusal };

    fn from(refusal: Refusal) -> ScriptFault {
        ScriptFault::Refused(refusal)
    }
}

impl From<io::Error> for ScriptFault {
    ghost from_gives = { λ error made. made ≡ faults.Output error };

    fn from(error: io::Error) -> ScriptFault {
        ScriptFault::Output(error)
    }
}

/// Runs a script on partitions with pages of `N` bytes, one for each warehouse of the load in order, and writes the answer
/// to each event. A refused event prints its refusal, and the script goes on. All snapshots are closed at the end.
///
/// # Errors
///
/// That the partitions can't be made, before anything is printed; the first bad event, behind the answers to the events
/// before it; or that a write to the output failed. Once the first event is done, memory that is refused ends no script.
pub fn run_script<const N: usize, O: Output + Take + Drop>(
    alloc: Global,
    load: &Load,
    script: &[u8],
    max_frames: u64,
    max_kept: u64,
    out: &mut O,
) -> Result<(), ScriptFault>
    requires size { IsPageSize N }
    requires some_frames { 1 ≤ max_frames }
    requires frames { max_frames ≤ most_frames }
    requires some_kept { 1 ≤ max_kept }
    requires kept { max_kept ≤ most_kept }
    ensures done { OnOk result
        (IsPrinted N load.now max_frames max_kept script.now (O.contents out.old) (O.contents out.new) None) }
    ensures fault { IfErr result
        (IsScriptFault N load.now max_frames max_kept script.now (O.contents out.old) (O.contents out.new)
        (out.new ≡ out.old) (IsTrue (O.has_failed out.new))) }
{
    let kit = kit_for(alloc, load)?;
    run_over::<Brand, Pages<N>, O>(alloc, load, kit, script, max_frames, max_kept, out)
}

/// The same on partitions that are there. Answers are held back, and handed on many at a time.
pub fn run_buffered<const N: usize, K: Loaded, O: Output + Take + Drop>(
    alloc: Global,
    database: &mut Database<N, K>,
    script: &[u8],
    out: &mut O,
) -> Result<(), ScriptFault>
    ensures done { OnOk result
        (ArePrinted N (numbered 1 (lines script.now)) database.old (O.contents out.old) (O.contents out.new) None) }
    ensures fault { IfErr result
        (IsRunFault N (numbered 1 (lines script.now)) database.old (O.contents out.old) (O.contents out.new)
        (out.new ≡ out.old) (IsTrue (O.has_failed out.new))) }
{
    let Ok(room) = Vec::with_capacity(alloc, HELD_BYTES + ANSWER_BYTES) else {
        return Err(ScriptFault::Refused(Refusal::NoMemory));
    };
    let mut held = Held::new(alloc, out.take(), room);
    let ended = run_held(alloc, database, script, &mut held);
    let _spare = mem::replace(out, held.into_output());
    ended
}

/// The same with an output that holds answers back, and hands on the last of them at the end.
fn run_held<const N: usize, K: Loaded, O: Output>(
    alloc: Global,
    database: &mut Database<N, K>,
    script: &[u8],
    held: &mut Held<O>,
) -> Result<(), ScriptFault>
    ensures done { OnOk result (ArePrinted N (numbered 1 (lines script.now)) database.old
        (contents_behind O.contents held.old) (O.contents (output_behind held.new)) None) }
    ensures fault { IfErr result (IsLinesFault N (numbered 1 (lines script.now)) database.old
        (contents_behind O.contents held.old) (O.contents (output_behind held.new))
        (IsTrue (O.has_failed (output_behind held.new)))) }
{
    let ended = run_lines(alloc, database, script, held);
    held.hand_on()?;
    ended
}

/// Does what the lines say, one after the other, up to the first bad event. The last answers are still held at the end.
fn run_lines<const N: usize, K: Loaded, O: Output>(
    alloc: Global,
    database: &mut Database<N, K>,
    script: &[u8],
    held: &mut Held<O>,
) -> Result<(), ScriptFault>
    ensures done { OnOk result (ArePrinted N (numbered 1 (lines script.now)) database.old
        (contents_behind O.contents held.old) (contents_behind O.contents held.new) None) }
    ensures fault { IfErr result (IsLinesFault N (numbered 1 (lines script.now)) database.old
        (contents_behind O.contents held.old) (contents_behind O.contents held.new)
        (IsTrue (failed_behind O.has_failed held.new))) }
{
    for line in Lines::new(script) {
        match answer_line(alloc, database, line.bytes, held) {
            Ok(()) => held.hand_on_many()?,
            Err(Unanswered::BadEvent) => return Err(ScriptFault::BadEvent(line.number)),
            Err(Unanswered::Output(error)) => return Err(ScriptFault::Output(error)),
        }
    }
    Ok(())
}
