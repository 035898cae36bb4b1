//! Which lines have the key of the line before them.

ghost use Rattle.std.specs.Prelude.{◌≡◌, ◌<◌, ℕ, true, false, OnOk, length, map, slice_index_or};
ghost use Rattle.hy_columns.specs.Columns.{values_of};
ghost use Rattle.hy_rows.specs.Rows.{value_at};
ghost use Rattle.hy_tallies.specs.Lines.{column_in};
ghost use Rattle.hy_tallies.specs.inside.Repeats.{AreRepeats, HasRepeated};

use crate::by_place::{Ones, Owned, Picked};
use crate::line::LineColumn;
use crate::values::is_equal;
use hy_columns::{ByPlace, ColumnValues, Copied, Numbers, Signed, Texts};
use std::alloc::AllocError;

/// Lets stand those lines whose value is that of the line before.
fn keep_equal<V: ByPlace>(repeats: &mut [bool], values: &V)
    ensures { HasRepeated (V.values values.now) repeats.old repeats.new }
{
    for line in 1..repeats.len() {
        repeats[line] = repeats[line] && is_equal(&values.value(line), &values.value(line - 1));
    }
}

/// The same by the values at some places of a table's column.
fn keep_picked(repeats: &mut [bool], values: &ColumnValues<'_>, places: &[usize])
    ensures { HasRepeated (map (λ place. value_at (values_of values.now) place) places.now) repeats.old repeats.new }
{
    match values {
        ColumnValues::Numbers(numbers) => {
            let values = Numbers(numbers);
            keep_equal(repeats, &Picked { values, places });
        }
        ColumnValues::Signed(numbers) => {
            let values = Signed(numbers);
            keep_equal(repeats, &Picked { values, places });
        }
        ColumnValues::Texts(texts) => {
            let values = Texts(texts);
            keep_equal(repeats, &Picked { values, places });
        }
        ColumnValues::CopiedTexts(texts) => {
            let values = Copied(texts);
            keep_equal(repeats, &Picked { values, places });
        }
    }
}

/// The same by a column of lines.
fn keep_column(repeats: &mut [bool], column: &LineColumn<'_>)
    ensures { HasRepeated (column_in column.now) repeats.old repeats.new }
{
    match column {
        LineColumn::Picked { values, places } => keep_picked(repeats, values, places),
        LineColumn::Ones(count) => keep_equal(repeats, &Ones(*count)),
        LineColumn::Kept(values) => keep_equal(repeats, &Owned(values)),
    }
}

/// Lets stand those lines whose key is that of the line before.
pub(crate) fn keep_repeats(repeats: &mut [bool], columns: &[LineColumn<'_>])
    ensures long { length repeats.new ≡ length repeats.old }
    ensures repeats { AreRepeats (map column_in columns.now) repeats.old repeats.new }
{
    for column in columns {
        keep_column(repeats, column);
    }
}

/// So many lines, of which each may have the key of the line before it, but the first.
pub(crate) fn begin_repeats(repeats: &mut Vec<bool>, count: usize) -> Result<(), AllocError>
    ensures long { OnOk result (length repeats.new.items ≡ count) }
    ensures behind { OnOk result ((line : ℕ) → slice_index_or repeats.new.items line false ≡ true → 0 < line) }
{
    repeats.clear();
    repeats.resize(count, true)?;
    if count > 0 {
        repeats[0] = false;
    }
    Ok(())
}
