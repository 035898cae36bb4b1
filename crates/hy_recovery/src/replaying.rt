//! The commits of a batch are run again, in a serial order.

ghost use Rattle.std.specs.Prelude.{◌≡◌, ◌≢◌, ◌<◌, ◌≤◌, ℕ, IfErr, IfOk, OnOk, length};
ghost use Rattle.hy_rows.specs.Limits.{max_warehouses};
ghost use Rattle.hy_sound.specs.Merges.{count_of, left_of};
ghost use Rattle.hy_sound.specs.inside.Steps.{IsAtCrossing};
ghost use Rattle.hy_recovery.specs.Recovering.{StopsAtCommit};
ghost use Rattle.hy_recovery.specs.inside.Ways.{Aim, AreOnWay, AreThere, IsShortage, crossings_in, untouched};

use crate::running::{run_crossing, run_local};
use hy_batches::Batch;
use hy_commands::Commit;
use hy_forks::hy_partition::{Loaded, Partition};
use hy_passes::{Journal, Pass};
use hy_schema::Refusal;
use hy_sound::Merge;

/// Runs the commits of one warehouse in the list at a place, each by its edition, up to the next one of several. E2
/// where no frame is left for one, or E1.
fn run_locals<const N: usize, K: Loaded>(
    parts: &mut Vec<Partition<N, K>>,
    journal: &mut Journal<Commit, K>,
    merge: &mut Merge<'_>,
    place: usize,
    mut pass: Pass<Commit, K>,
) -> Result<Pass<Commit, K>, Refusal>
    requires within { place < count_of merge.old }
    requires way { (aim : Aim) × AreOnWay K.load aim merge.old journal.old.list.log parts.old.items }
    ensures way { OnOk result ((aim : Aim) → AreOnWay K.load aim merge.old journal.old.list.log parts.old.items
        → AreOnWay K.load aim merge.new journal.new.list.log parts.new.items) }
    ensures stops { OnOk result (IsAtCrossing (left_of merge.new place)) }
    ensures others { (other : ℕ) → other ≢ place → left_of merge.new other ≡ left_of merge.old other }
    ensures count { count_of merge.new ≡ count_of merge.old }
    ensures numbers { OnOk result (crossings_in journal.new.list.log ≡ crossings_in journal.old.list.log) }
    ensures client { IfOk result (λ after. after.client ≡ pass.client) }
    ensures refused { IfErr result (λ why. (aim : Aim) → AreOnWay K.load aim merge.old journal.old.list.log parts.old.items
        → IsShortage (StopsAtCommit N K.load aim.frames aim.goal) why) }
{
    'commits: while let Some(Commit::Local(edition, command)) = merge.next(place) {
        pass = run_local(&mut parts[place], journal, *edition, command.copy()?, pass)?;
        merge.pass(place);
    }
    Ok(pass)
}

/// The same in all lists.
fn run_all_locals<const N: usize, K: Loaded>(
    parts: &mut Vec<Partition<N, K>>,
    journal: &mut Journal<Commit, K>,
    merge: &mut Merge<'_>,
    mut pass: Pass<Commit, K>,
) -> Result<Pass<Commit, K>, Refusal>
    requires way { (aim : Aim) × AreOnWay K.load aim merge.old journal.old.list.log parts.old.items }
    ensures way { OnOk result ((aim : Aim) → AreOnWay K.load aim merge.old journal.old.list.log parts.old.items
        → AreOnWay K.load aim merge.new journal.new.list.log parts.new.items) }
    ensures stops { OnOk result ((place : ℕ) → place < count_of merge.new → IsAtCrossing (left_of merge.new place)) }
    ensures numbers { OnOk result (crossings_in journal.new.list.log ≡ crossings_in journal.old.list.log) }
    ensures client { IfOk result (λ after. after.client ≡ pass.client) }
    ensures refused { IfErr result (λ why. (aim : Aim) → AreOnWay K.load aim merge.old journal.old.list.log parts.old.items
        → IsShortage (StopsAtCommit N K.load aim.frames aim.goal) why) }
{
    for place in 0..merge.count() {
        pass = run_locals(parts, journal, merge, place, pass)?;
    }
    Ok(pass)
}

/// Runs all commits of a batch: those of one warehouse up to the next one of several, then that one, and so on. E2
/// where no frame is left for one, or E1.
pub(crate) fn run_batch<const N: usize, K: Loaded>(
    parts: &mut Vec<Partition<N, K>>,
    journal: &mut Journal<Commit, K>,
    batch: &Batch,
    mut pass: Pass<Commit, K>,
) -> Result<Pass<Commit, K>, Refusal>
    requires few { length batch.now.lists ≤ max_warehouses }
    requires way { (aim : Aim) × AreOnWay K.load aim (untouched batch.now) journal.old.list.log parts.old.items }
    ensures way { OnOk result ((aim : Aim)
        → AreOnWay K.load aim (untouched batch.now) journal.old.list.log parts.old.items
        → AreThere K.load aim journal.new.list.log parts.new.items) }
    ensures client { IfOk result (λ after. after.client ≡ pass.client) }
    ensures refused { IfErr result (λ why. (aim : Aim)
        → AreOnWay K.load aim (untouched batch.now) journal.old.list.log parts.old.items
        → IsShortage (StopsAtCommit N K.load aim.frames aim.goal) why) }
{
    let mut merge = Merge::new(batch);
    'crossings: loop {
        pass = run_all_locals(parts, journal, &mut merge, pass)?;
        let last = journal.list.next_crossing() - 1;
        let Some((edition, number, command)) = merge.find_crossing(last) else {
            return Ok(pass);
        };
        pass = run_crossing(parts, journal, edition, number, command.copy()?, pass)?;
        if !merge.pass_crossing(edition, number, command) {
            unreachable!();
        }
    }
}
