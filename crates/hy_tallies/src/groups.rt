//! Groups by their keys, found in buckets.

ghost use Rattle.std.specs.Prelude.{◌≡◌, ◌≢◌, ◌-◌, ◌<◌, ◌≤◌, [], ℕ, IfOk, OnOk, length, map, replicate};
ghost use Rattle.hy_query.specs.Meaning.{are_equal};
ghost use Rattle.hy_query.specs.Values.{is_equal};
ghost use Rattle.hy_rows.specs.Rows.{value_at};
ghost use Rattle.hy_tallies.specs.Lines.{column_in, row_at};
ghost use Rattle.hy_tallies.specs.inside.Groups.{AreGroups, HasMade, IsNumbered, IsRoomy, Stays};
ghost use Rattle.hy_tallies.specs.inside.Keys.{AreFound, code_from, with_row};

use crate::line::LineColumn;
use crate::owned::{OwnedValues, empty_columns};
use crate::values::is_equal;
use crate::weights::group_code;
use hy_buckets::Buckets;
use std::alloc::{AllocError, Global};

/// The keys of groups, and buckets with room for so many. A group lies in the bucket of its key's code, the first one as the
/// last row of the buckets, since rows are put into them from the last one on.
#[derive(Drop)]
pub(crate) struct Groups {
    /// The keys, column by column.
    pub keys: Vec<OwnedValues>,
    /// How many groups there are.
    pub count: usize,
    /// How many the buckets have room for.
    pub room: usize,
    /// The buckets.
    pub buckets: Buckets,
}

/// The fewest groups that buckets are made for.
const FEWEST: usize = 16;

/// No groups, with so many columns of keys.
pub(crate) fn new_groups(alloc: Global, columns: usize) -> Result<Groups, AllocError>
    ensures keys { IfOk result (λ groups. groups.keys.items ≡ replicate columns []) }
    ensures none { IfOk result (λ groups. groups.count ≡ 0) }
    ensures room { IfOk result IsRoomy }
{
    let keys = empty_columns(alloc, columns)?;
    let buckets = Buckets::new(alloc, 0)?;
    Ok(Groups {
        keys,
        count: 0,
        room: 0,
        buckets,
    })
}

/// Whether a group and a line have the same value in a column of keys.
fn have_same(values: &OwnedValues, column: &LineColumn<'_>, group: usize, line: usize) -> bool
    ensures { result ≡ is_equal (value_at values.now group) (value_at (column_in column.now) line) }
{
    if let (Some(one), Some(other)) = (values.whole(group), column.whole(line)) {
        return one == other;
    }
    is_equal(&values.value(group), &column.value(line))
}

/// Whether a group and a line have equal keys.
fn have_equal(keys: &[OwnedValues], columns: &[LineColumn<'_>], group: usize, line: usize) -> bool
    ensures { result ≡ are_equal (row_at keys.now group) (row_at (map column_in columns.now) line) }
{
    let Some((values, keys)) = keys.split_first() else {
        return columns.is_empty();
    };
    let Some((column, columns)) = columns.split_first() else {
        return false;
    };
    have_same(values, column, group, line) && have_equal(keys, columns, group, line)
}

/// The group that lies in buckets as this row, where its key is that of a line. Else how many groups there are.
fn group_in(groups: &Groups, columns: &[LineColumn<'_>], line: usize, row: usize) -> usize
    ensures within { result ≤ groups.now.count }
    ensures there { result < groups.now.count
        → row_at groups.now.keys.items result ≡ row_at (map column_in columns.now) line }
    ensures none { result ≡ groups.now.count → groups.now.count ≤ groups.now.room → (group : ℕ) → group < groups.now.count
        → row ≡ groups.now.room - 1 - group → row_at groups.now.keys.items group ≢ row_at (map column_in columns.now) line }
{
    if row >= groups.room {
        return groups.count;
    }
    let group = groups.room - 1 - row;
    if group >= groups.count {
        return groups.count;
    }
    if have_equal(&groups.keys, columns, group, line) {
        group
    } else {
        groups.count
    }
}

/// The group whose key is that of a line. Where there is none, how many groups there are.
fn group_of(groups: &Groups, columns: &[LineColumn<'_>], line: usize, code: u64) -> usize
    ensures within { result ≤ groups.now.count }
    ensures there { result < groups.now.count
        → row_at groups.now.keys.items result ≡ row_at (map column_in columns.now) line }
    ensures none { result ≡ groups.now.count → groups.now.count ≤ groups.now.room
        → AreFound groups.now.buckets.buckets groups.now.room groups.now.keys.items groups.now.count
        → code ≡ code_from 0 (row_at (map column_in columns.now) line)
        → (group : ℕ) → group < groups.now.count
        → row_at groups.now.keys.items group ≢ row_at (map column_in columns.now) line }
{
    for row in groups.buckets.rows(code) {
        let group = group_in(groups, columns, line, row);
        if group < groups.count {
            return group;
        }
    }
    groups.count
}

/// Buckets with room for so many groups, in which some are found.
fn buckets_for(
    alloc: Global,
    keys: &[OwnedValues],
    count: usize,
    room: usize,
) -> Result<Buckets, AllocError>
    requires { count ≤ room }
    ensures found { IfOk result (λ made. AreFound made.buckets room keys.now count) }
    ensures lowest { IfOk result (λ made. made.lowest ≡ room - count) }
{
    let mut buckets = Buckets::new(alloc, room)?;
    for group in 0..count {
        let code = group_code(keys, group);
        buckets.put(room - 1 - group, code);
    }
    Ok(buckets)
}

/// Makes room for twice as many groups.
fn grow(groups: &mut Groups) -> Result<(), AllocError>
    requires { IsRoomy groups.old }
    ensures made { HasMade groups.old groups.new }
    ensures room { OnOk result (groups.new.count < groups.new.room) }
    ensures found { OnOk result (AreFound groups.new.buckets.buckets groups.new.room groups.new.keys.items groups.new.count) }
{
    let room = groups.room.saturating_mul(2).max(FEWEST);
    if room <= groups.count {
        return Err(AllocError);
    }
    let alloc = *groups.keys.allocator();
    groups.buckets = buckets_for(alloc, &groups.keys, groups.count, room)?;
    groups.room = room;
    Ok(())
}

/// Makes room for a group more, where there is none.
fn make_room(groups: &mut Groups) -> Result<(), AllocError>
    requires { IsRoomy groups.old }
    ensures made { HasMade groups.old groups.new }
    ensures room { OnOk result (groups.new.count < groups.new.room) }
    ensures found { OnOk result (AreFound groups.old.buckets.buckets groups.old.room groups.old.keys.items groups.old.count
        → AreFound groups.new.buckets.buckets groups.new.room groups.new.keys.items groups.new.count) }
{
    if groups.count < groups.room {
        return Ok(());
    }
    grow(groups)
}

/// Puts the key of a line behind the others.
fn push_key(
    keys: &mut [OwnedValues],
    columns: &[LineColumn<'_>],
    line: usize,
) -> Result<(), AllocError>
    ensures { OnOk result (keys.new ≡ with_row keys.old (row_at (map column_in columns.now) line)) }
{
    let Some((values, keys)) = keys.split_first_mut() else {
        return Ok(());
    };
    let Some((column, columns)) = columns.split_first() else {
        return Ok(());
    };
    values.push(&column.value(line))?;
    push_key(keys, columns, line)
}

/// A group more, with the key of a line.
fn push_group(
    groups: &mut Groups,
    columns: &[LineColumn<'_>],
    line: usize,
    code: u64,
) -> Result<usize, AllocError>
    requires room { IsRoomy groups.old }
    requires keys { length columns.now ≡ length groups.old.keys.items }
    ensures stays { Stays groups.old groups.new }
    ensures pushed { IfOk result (λ number. AreGroups groups.old
        → code ≡ code_from 0 (row_at (map column_in columns.now) line)
        → ((group : ℕ) → group < groups.old.count
        → row_at groups.old.keys.items group ≢ row_at (map column_in columns.now) line)
        → IsNumbered (row_at (map column_in columns.now) line) groups.old groups.new number) }
{
    make_room(groups)?;
    let number = groups.count;
    push_key(&mut groups.keys, columns, line)?;
    groups.buckets.put(groups.room - 1 - number, code);
    groups.count = number + 1;
    Ok(number)
}

/// The number of the group that a line belongs to, which may be a new one.
pub(crate) fn number_for(
    groups: &mut Groups,
    columns: &[LineColumn<'_>],
    line: usize,
    code: u64,
) -> Result<usize, AllocError>
    requires room { IsRoomy groups.old }
    requires keys { length columns.now ≡ length groups.old.keys.items }
    ensures stays { Stays groups.old groups.new }
    ensures numbered { IfOk result (λ number. AreGroups groups.old
        → code ≡ code_from 0 (row_at (map column_in columns.now) line)
        → IsNumbered (row_at (map column_in columns.now) line) groups.old groups.new number) }
{
    let found = group_of(groups, columns, line, code);
    if found < groups.count {
        return Ok(found);
    }
    push_group(groups, columns, line, code)
}
