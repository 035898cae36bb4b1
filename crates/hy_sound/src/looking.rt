//! Whether batches can be replayed, seen before anything is run.

ghost use Rattle.std.specs.Prelude.{◌≡◌, ◌≢◌, ◌<◌, ◌↔◌, ℕ, false, [], IsTrue, MatchBool, MatchOption};
ghost use Rattle.hy_sound.specs.Sound.{IsSoundBatch, Looks, are_replayable};
ghost use Rattle.hy_sound.specs.Merges.{count_of, left_of};
ghost use Rattle.hy_sound.specs.inside.Steps.{IsRefusedAt, PassesAllLocals, PassesLocals, Takes};

use crate::known::Known;
use crate::lengths::place_of;
use crate::merge::Merge;
use hy_batches::{Batch, Batches};
use hy_commands::Commit;
use hy_loads::Load;
use hy_schema::Refusal;
use std::alloc::Global;

/// What a step of a merge came to.
#[derive(Clone, Copy, Debug, PartialEq, Eq)]
pub(crate) enum Step {
    /// The commit of several warehouses with this number was passed.
    Passed(u64),
    /// All lists are at their end.
    AtEnd,
    /// What is left isn't sound.
    Unsound,
}

/// Passes the commits of one warehouse in the list at a place, up to the next one of several. False at one that isn't
/// replayable.
fn pass_locals(known: &Known<'_>, merge: &mut Merge<'_>, place: usize) -> bool
    requires { place < count_of merge.old }
    ensures count { count_of merge.new ≡ count_of merge.old }
    ensures here { MatchBool result (PassesLocals known.now (left_of merge.old place) (left_of merge.new place))
        (are_replayable known.now (left_of merge.old place) ≡ false) }
    ensures others { (other : ℕ) → other ≢ place → left_of merge.new other ≡ left_of merge.old other }
{
    'commits: while let Some(Commit::Local(_, command)) = merge.next(place) {
        if !known.accepts(command) {
            return false;
        }
        merge.pass(place);
    }
    true
}

/// The same in all lists.
fn pass_all_locals(known: &Known<'_>, merge: &mut Merge<'_>) -> bool
    ensures { MatchBool result (PassesAllLocals known.now merge.old merge.new) (IsRefusedAt known.now merge.old) }
{
    for place in 0..merge.count() {
        if !pass_locals(known, merge, place) {
            return false;
        }
    }
    true
}

/// Whether no list has a commit left.
fn is_at_end(merge: &Merge<'_>) -> bool
    ensures { IsTrue result ↔ ((place : ℕ) → place < count_of merge.now → left_of merge.now place ≡ []) }
{
    for place in 0..merge.count() {
        if merge.next(place).is_some() {
            return false;
        }
    }
    true
}

/// Passes commits of one warehouse in all lists, and then the next one of several.
fn take_step(known: &Known<'_>, merge: &mut Merge<'_>, last: u64) -> Step
    ensures { Takes known.now last merge.old merge.new result }
{
    if !pass_all_locals(known, merge) {
        return Step::Unsound;
    }
    match merge.find_crossing(last) {
        Some((edition, number, command)) => {
            if known.accepts(command) && merge.pass_crossing(edition, number, command) {
                Step::Passed(number)
            } else {
                Step::Unsound
            }
        }
        None => {
            if is_at_end(merge) {
                Step::AtEnd
            } else {
                Step::Unsound
            }
        }
    }
}

/// The last number behind a batch, where it is sound behind those before; none where it isn't.
fn look_at(known: &Known<'_>, batch: &Batch, before: u64) -> Option<u64>
    ensures { MatchOption result ((after : ℕ) → IsSoundBatch known.now before after batch.now → ⊥)
        (λ after. IsSoundBatch known.now before after batch.now) }
{
    if batch.len() != known.count() {
        return None;
    }
    let mut merge = Merge::new(batch);
    let mut last = before;
    'steps: loop {
        match take_step(known, &mut merge, last) {
            Step::Passed(number) => last = number,
            Step::AtEnd => return Some(last),
            Step::Unsound => return None,
        }
    }
}

/// Looks at batches beside the load: each has to have a list for each warehouse; the lists have to agree on the commits of
/// several warehouses, whose numbers go on from 1; and the database of the load has to refuse no command. `LogMalformed`
/// names the place of the first batch that isn't so, and nothing else is refused: where memory lacks, the answer is the
/// same, and comes later. Takes time in proportion to the commits, and n log n for the n customers of the load, whose places
/// are noted first. Where memory lacks for that, each commit that names a customer takes a binary search among the customers
/// and a look at each of one district.
pub fn check_log(alloc: Global, load: &Load, batches: &Batches) -> Result<(), Refusal>
    ensures { Looks load.now batches.now result }
{
    let known = Known::new(alloc, load);
    let mut last = 0;
    for place in 0..batches.count() as usize {
        match look_at(&known, batches.batch(place), last) {
            Some(after) => last = after,
            None => return Err(Refusal::LogMalformed(place_of(batches, place))),
        }
    }
    Ok(())
}
