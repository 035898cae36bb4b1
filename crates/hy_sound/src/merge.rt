//! The lists of a batch on their way into one.

ghost use Rattle.std.specs.Prelude.{◌≡◌, ◌↔◌, suc, IsTrue, Some};
ghost use Rattle.std.specs.Option.{option_copied};
ghost use Rattle.hy_commands.specs.declared.command.Commit.TheVariants as commits;

use hy_batches::Batch;
use hy_commands::{Command, Commit, Edition};
use hy_rows::MAX_WAREHOUSES;
use std::marker::Model;

/// A batch, of each list of which some commits were passed. Takes no memory.
#[derive(Drop)]
pub struct Merge<'a> {
    batch: &'a Batch,
    // how many commits of each list were passed
    passed: [usize; MAX_WAREHOUSES as usize],
}

// Clauses see both.
impl<'a> Model for Merge<'a> {
    ghost use Rattle.std.specs.Prelude.{◌≡◌, ◌≤◌, length};
    ghost use Rattle.hy_rows.specs.Limits.{max_warehouses};
    ghost use Rattle.hy_sound.specs.Merges.{MergeState};

    ghost Value = { MergeState };

    ghost view = { λ merge. record { lists = merge.batch.now.lists; passed = merge.passed } };

    ghost invariant = { λ merge. (length merge.batch.now.lists ≤ max_warehouses) × (length merge.passed ≡ max_warehouses) };
}

impl<'a> Merge<'a> {
    ghost use Rattle.std.specs.Prelude.{◌≡◌, ◌≢◌, ◌<◌, ◌≤◌, ℕ, drop, length, slice_get};
    ghost use Rattle.std.specs.Option.{option_copied};
    ghost use Rattle.hy_rows.specs.Limits.{max_warehouses};
    ghost use Rattle.hy_sound.specs.Sound.{list_at};
    ghost use Rattle.hy_sound.specs.Merges.{count_of, left_of};

    /// A batch of which nothing was passed.
    pub fn new(batch: &'a Batch) -> Merge<'a>
        requires { length batch.now.lists ≤ max_warehouses }
        ensures count { count_of result ≡ length batch.entry.now.lists }
        ensures left { (place : ℕ) → left_of result place ≡ list_at batch.entry.now.lists place }
    {
        Merge {
            batch,
            passed: [0; MAX_WAREHOUSES as usize],
        }
    }

    /// How many lists there are.
    pub fn count(&self) -> usize
        ensures { result ≡ count_of self.now }
    {
        self.batch.len()
    }

    /// The next commit of the list at a place, from 0.
    pub fn next(&self, place: usize) -> Option<&'a Commit>
        requires { place < count_of self.now }
        ensures { option_copied result ≡ slice_get (left_of self.now place) 0 }
    {
        let commits = self.batch.list(place);
        commits.get(self.passed[place])
    }

    /// Passes the next commit of the list at a place, if one is left.
    pub fn pass(&mut self, place: usize)
        requires { place < count_of self.old }
        ensures count { count_of self.new ≡ count_of self.old }
        ensures here { left_of self.new place ≡ drop 1 (left_of self.old place) }
        ensures others { (other : ℕ) → other ≢ place → left_of self.new other ≡ left_of self.old other }
    {
        let commits = self.batch.list(place);
        if self.passed[place] < commits.len() {
            self.passed[place] += 1;
        }
    }
}

/// Whether a commit is this command of this edition under this number.
fn is_crossing(commit: &Commit, edition: Edition, number: u64, command: &Command) -> bool
    ensures { IsTrue result ↔ (commit.now ≡ commits.Cross edition number command.now) }
{
    match commit {
        Commit::Local(_, _) => false,
        Commit::Cross(by, other, same) => {
            *by == edition && *other == number && same.is_same(command)
        }
    }
}

/// Whether a list goes on with this command of this edition under this number.
fn goes_on(next: Option<&Commit>, edition: Edition, number: u64, command: &Command) -> bool
    ensures { IsTrue result ↔ (option_copied next.entry ≡ Some (commits.Cross edition number command.now)) }
{
    match next {
        Some(commit) => is_crossing(commit, edition, number, command),
        None => false,
    }
}

impl<'a> Merge<'a> {
    ghost use Rattle.std.specs.Prelude.{MatchBool, MatchOption};
    ghost use Rattle.hy_sound.specs.Merges.{FindsCrossing, FindsNone, LacksCrossing, PassesCrossing};

    /// The command of several warehouses with which some list goes on, under the number behind the last one; with its
    /// edition and the number.
    pub fn find_crossing(&self, last: u64) -> Option<(Edition, u64, &'a Command)>
        ensures { MatchOption result (FindsNone self.now last)
            (λ found. FindsCrossing self.now last found.0 found.1 found.2.now) }
    {
        for place in 0..self.count() {
            if let Some(Commit::Cross(edition, number, command)) = self.next(place) {
                if is_behind(*number, last) && command.names(place as u64 + 1) {
                    return Some((*edition, *number, command));
                }
            }
        }
        None
    }

    /// Passes a command of several warehouses in all lists whose warehouses it names. False where one of them goes on
    /// otherwise.
    pub fn pass_crossing(&mut self, edition: Edition, number: u64, command: &Command) -> bool
        ensures { MatchBool result (PassesCrossing edition number command.now self.old self.new)
            (LacksCrossing edition number command.now self.old) }
    {
        for place in 0..self.count() {
            if command.names(place as u64 + 1) {
                if !goes_on(self.next(place), edition, number, command) {
                    return false;
                }
                self.pass(place);
            }
        }
        true
    }
}

/// Whether a number is the one behind another.
fn is_behind(number: u64, last: u64) -> bool
    ensures { IsTrue result ↔ (number ≡ suc last) }
{
    number > 0 && number - 1 == last
}
