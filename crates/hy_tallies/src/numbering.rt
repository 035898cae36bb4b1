//! The numbers of the groups that lines belong to.

ghost use Rattle.std.specs.Prelude.{◌≡◌, ◌+◌, [], ℕ, true, false, OnOk, length, map, replicate};
ghost use Rattle.hy_tallies.specs.Lines.{column_in};
ghost use Rattle.hy_tallies.specs.inside.Groups.{AreGroups, HasCounted, HasNumbered, IsRoomy, Stays};
ghost use Rattle.hy_tallies.specs.inside.Keys.{rising};
ghost use Rattle.hy_tallies.specs.inside.Repeats.{Repeat};

use crate::groups::{Groups, number_for};
use crate::line::LineColumn;
use crate::repeats::{begin_repeats, keep_repeats};
use crate::weights::line_code;
use std::alloc::AllocError;

/// The numbers of lines by their keys, where it is known which of them have the key of the line before.
fn number_keys(
    groups: &mut Groups,
    columns: &[LineColumn<'_>],
    repeats: &[bool],
    numbers: &mut Vec<usize>,
) -> Result<(), AllocError>
    requires room { IsRoomy groups.old }
    requires keys { length columns.now ≡ length groups.old.keys.items }
    ensures stays { Stays groups.old groups.new }
    ensures numbered { OnOk result (AreGroups groups.old → Repeat (map column_in columns.now) repeats.now
        → HasNumbered (map column_in columns.now) (length repeats.now) groups.old groups.new numbers.new.items) }
{
    numbers.clear();
    let mut last = 0;
    for line in 0..repeats.len() {
        if !repeats[line] {
            last = number_for(groups, columns, line, line_code(columns, line))?;
        }
        numbers.push(last)?;
    }
    Ok(())
}

/// The numbers of lines by their keys.
fn number_by_code(
    groups: &mut Groups,
    columns: &[LineColumn<'_>],
    repeats: &mut Vec<bool>,
    numbers: &mut Vec<usize>,
    count: usize,
) -> Result<(), AllocError>
    requires room { IsRoomy groups.old }
    requires keys { length columns.now ≡ length groups.old.keys.items }
    ensures stays { Stays groups.old groups.new }
    ensures numbered { OnOk result (AreGroups groups.old
        → HasNumbered (map column_in columns.now) count groups.old groups.new numbers.new.items) }
{
    begin_repeats(repeats, count)?;
    keep_repeats(repeats, columns);
    number_keys(groups, columns, repeats, numbers)
}

/// Makes so many numbers 0.
fn begin_numbers(numbers: &mut Vec<usize>, count: usize) -> Result<(), AllocError>
    ensures { OnOk result (numbers.new.items ≡ replicate count 0) }
{
    numbers.clear();
    numbers.resize(count, 0)
}

/// The numbers of lines without keys: all are one group.
fn number_together(
    groups: &mut Groups,
    columns: &[LineColumn<'_>],
    numbers: &mut Vec<usize>,
    count: usize,
) -> Result<(), AllocError>
    requires room { IsRoomy groups.old }
    requires none { columns.now ≡ [] }
    requires keys { length columns.now ≡ length groups.old.keys.items }
    ensures stays { Stays groups.old groups.new }
    ensures numbered { OnOk result (AreGroups groups.old
        → HasNumbered (map column_in columns.now) count groups.old groups.new numbers.new.items) }
{
    begin_numbers(numbers, count)?;
    if count == 0 {
        return Ok(());
    }
    number_for(groups, columns, 0, 0)?;
    Ok(())
}

/// The numbers of lines each of which is a group for itself.
fn number_alone(
    groups: &mut Groups,
    numbers: &mut Vec<usize>,
    count: usize,
) -> Result<(), AllocError>
    ensures stays { groups.new.keys ≡ groups.old.keys }
    ensures numbers { OnOk result (numbers.new.items ≡ rising groups.old.count count) }
    ensures count { OnOk result (groups.new.count ≡ groups.old.count + count) }
{
    let Some(end) = groups.count.checked_add(count) else {
        return Err(AllocError);
    };
    numbers.clear();
    for line in 0..count {
        numbers.push(groups.count + line)?;
    }
    groups.count = end;
    Ok(())
}

/// The numbers of lines by their keys, if there are any.
fn number_groups(
    groups: &mut Groups,
    columns: &[LineColumn<'_>],
    repeats: &mut Vec<bool>,
    numbers: &mut Vec<usize>,
    count: usize,
) -> Result<(), AllocError>
    requires room { IsRoomy groups.old }
    requires keys { length columns.now ≡ length groups.old.keys.items }
    ensures stays { Stays groups.old groups.new }
    ensures numbered { OnOk result (AreGroups groups.old
        → HasNumbered (map column_in columns.now) count groups.old groups.new numbers.new.items) }
{
    if columns.is_empty() {
        number_together(groups, columns, numbers, count)
    } else {
        number_by_code(groups, columns, repeats, numbers, count)
    }
}

/// The number of the group that each of so many lines belongs to.
pub(crate) fn number_lines(
    alone: bool,
    groups: &mut Groups,
    columns: &[LineColumn<'_>],
    repeats: &mut Vec<bool>,
    numbers: &mut Vec<usize>,
    count: usize,
) -> Result<(), AllocError>
    requires room { alone ≡ false → IsRoomy groups.old }
    requires keys { alone ≡ false → length columns.now ≡ length groups.old.keys.items }
    ensures room { alone ≡ false → IsRoomy groups.new }
    ensures keys { length groups.new.keys.items ≡ length groups.old.keys.items }
    ensures counted { OnOk result
        (HasCounted alone (map column_in columns.now) count groups.old groups.new numbers.new.items) }
{
    if alone {
        number_alone(groups, numbers, count)
    } else {
        number_groups(groups, columns, repeats, numbers, count)
    }
}
