//! Lines in groups.

ghost use Rattle.std.specs.Prelude.{◌≡◌, ◌++◌, [], IfOk, List, OnOk, false, length, map, replicate};
ghost use Rattle.std.specs.List.{AllByRecursion};
ghost use Rattle.hy_tallies.specs.Lines.{Line, column_in, lines_of};
ghost use Rattle.hy_tallies.specs.Tallies.{IsTally, answered_from, groups_in};

use crate::aggregate::Aggregate;
use crate::groups::{Groups, new_groups};
use crate::line::LineColumn;
use crate::noting::note_columns;
use crate::numbering::number_lines;
use crate::owned::{OwnedValues, empty_columns};
use std::alloc::{AllocError, Global};
use std::marker::Model;

/// What is answered of lines in groups, as far as they have come: lines with equal keys are a group, in the order of the
/// groups' first ones, or each line is one for itself.
#[derive(Drop)]
pub struct Tallies {
    alone: bool,
    aggregates: Vec<Aggregate>,
    groups: Groups,
    columns: Vec<OwnedValues>,
    // These are used again from call to call: which lines have the key of the line before, and the numbers of their groups.
    repeats: Vec<bool>,
    numbers: Vec<usize>,
}

// Clauses see the groups' keys and what is answered of them.
impl Model for Tallies {
    ghost use Rattle.std.specs.Prelude.{◌≡◌, false};
    ghost use Rattle.hy_tallies.specs.Tallies.{TalliesState};
    ghost use Rattle.hy_tallies.specs.inside.Groups.{IsRoomy};
    ghost use Rattle.hy_tallies.specs.inside.Steps.{state_of};

    ghost Value = { TalliesState };

    ghost view = { λ tallies. state_of tallies.alone tallies.aggregates.items tallies.columns.items tallies.groups };

    ghost invariant = { λ tallies. tallies.alone ≡ false → IsRoomy tallies.groups };
}

/// Copies of what is answered at each place.
fn copied(alloc: Global, aggregates: &[Aggregate]) -> Result<Vec<Aggregate>, AllocError>
    ensures { IfOk result (λ made. made.items ≡ aggregates.now) }
{
    let mut made = Vec::new(alloc);
    made.extend_from_slice(aggregates)?;
    Ok(made)
}

/// Columns of lines that are values of groups.
fn kept_columns<'s>(
    alloc: Global,
    columns: &'s [OwnedValues],
) -> Result<Vec<LineColumn<'s>>, AllocError>
    ensures { IfOk result (λ made. map column_in made.items ≡ columns.now) }
{
    let mut made = Vec::new(alloc);
    for column in columns {
        made.push(LineColumn::Kept(column))?;
    }
    Ok(made)
}

impl Tallies {
    /// Of no line. `keys` says how many columns of keys there are, `aggregates` what is answered at each place, and `alone`
    /// whether each line is a group for itself.
    pub fn new(
        alloc: Global,
        alone: bool,
        keys: usize,
        aggregates: &[Aggregate],
    ) -> Result<Tallies, AllocError>
        ensures shape { IfOk result (λ tallies. (tallies.alone ≡ alone) × (length tallies.keys ≡ keys)
            × (tallies.aggregates ≡ aggregates.now)) }
        ensures tally { IfOk result (IsTally []) }
    {
        let groups = new_groups(alloc, keys)?;
        let columns = empty_columns(alloc, aggregates.len())?;
        let aggregates = copied(alloc, aggregates)?;
        Ok(Tallies {
            alone,
            aggregates,
            groups,
            columns,
            repeats: Vec::new(alloc),
            numbers: Vec::new(alloc),
        })
    }

    /// So many lines more.
    fn take(
        &mut self,
        keys: &[LineColumn<'_>],
        values: &[LineColumn<'_>],
        count: usize,
    ) -> Result<(), AllocError>
        requires keys { self.old.alone ≡ false → length keys.now ≡ length self.old.keys }
        ensures shape { (self.new.alone ≡ self.old.alone) × (length self.new.keys ≡ length self.old.keys)
            × (self.new.aggregates ≡ self.old.aggregates) }
        ensures tally { OnOk result ((lines : List Line) → length values.now ≡ length self.old.aggregates
            → IsTally lines self.old
            → IsTally (lines ++ lines_of (map column_in keys.now) (map column_in values.now) count) self.new) }
    {
        number_lines(
            self.alone,
            &mut self.groups,
            keys,
            &mut self.repeats,
            &mut self.numbers,
            count,
        )?;
        note_columns(&mut self.columns, &self.aggregates, &self.numbers, values)
    }

    /// So many lines more, by the columns of their keys and of their values.
    pub fn add(
        &mut self,
        keys: &[LineColumn<'_>],
        values: &[LineColumn<'_>],
        count: usize,
    ) -> Result<(), AllocError>
        requires keys { length keys.now ≡ length self.old.keys }
        requires values { length values.now ≡ length self.old.aggregates }
        requires long { AllByRecursion (λ column. length (column_in column) ≡ count) keys.now }
        requires each { AllByRecursion (λ column. length (column_in column) ≡ count) values.now }
        ensures shape { (self.new.alone ≡ self.old.alone) × (length self.new.keys ≡ length self.old.keys)
            × (self.new.aggregates ≡ self.old.aggregates) }
        ensures tally { OnOk result ((lines : List Line) → IsTally lines self.old
            → IsTally (lines ++ lines_of (map column_in keys.now) (map column_in values.now) count) self.new) }
    {
        self.take(keys, values, count)
    }

    /// The lines of others behind its own.
    pub fn append(&mut self, other: &Tallies) -> Result<(), AllocError>
        requires alone { other.now.alone ≡ self.old.alone }
        requires keys { length other.now.keys ≡ length self.old.keys }
        requires values { other.now.aggregates ≡ self.old.aggregates }
        ensures shape { (self.new.alone ≡ self.old.alone) × (length self.new.keys ≡ length self.old.keys)
            × (self.new.aggregates ≡ self.old.aggregates) }
        ensures tally { OnOk result ((lines more : List Line) → IsTally lines self.old → IsTally more other.now
            → IsTally (lines ++ more) self.new) }
    {
        let alloc = *other.numbers.allocator();
        let keys = kept_columns(alloc, &other.groups.keys)?;
        let values = kept_columns(alloc, &other.columns)?;
        self.take(&keys, &values, other.groups.count)
    }

    /// What is answered at each place of the groups, and how many groups there are.
    pub fn into_columns(self) -> (Vec<OwnedValues>, usize)
        ensures columns { result.0.items ≡ self.columns }
        ensures count { result.1 ≡ self.count }
    {
        (self.columns, self.groups.count)
    }
}
