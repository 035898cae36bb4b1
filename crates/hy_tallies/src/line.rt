//! Columns of lines.

ghost use Rattle.std.specs.Prelude.{◌≡◌, IfSome, map, pos, replicate};
ghost use Rattle.hy_columns.specs.Columns.{values_of};
ghost use Rattle.hy_rows.specs.Rows.{value_at};
ghost use Rattle.hy_rows.specs.declared.value.Value.TheVariants.{Whole};
ghost use Rattle.hy_tallies.specs.Lines.{column_in};

use crate::owned::OwnedValues;
use hy_columns::ColumnValues;
use hy_query::Value;

/// The values of some lines at one place.
#[derive(Drop)]
pub enum LineColumn<'s> {
    /// Those of the rows at some places of a table's column. Past its end, 0.
    Picked {
        /// The column.
        values: &'s ColumnValues<'s>,
        /// The places of the rows.
        places: &'s [usize],
    },
    /// 1 for each of so many.
    Ones(usize),
    /// Values that are kept.
    Kept(&'s OwnedValues),
}

impl<'s> LineColumn<'s> {
    /// The value of a line, where numbers stand there.
    pub(crate) fn whole(&self, line: usize) -> Option<i128>
        ensures { IfSome result (λ number. value_at (column_in self.now) line ≡ Whole number) }
    {
        match self {
            LineColumn::Picked { values, places } => match places.get(line) {
                Some(place) => values.whole(*place),
                None => None,
            },
            LineColumn::Ones(_) => None,
            LineColumn::Kept(values) => values.whole(line),
        }
    }

    /// The value of a line. Past the end, 0.
    pub(crate) fn value(&self, line: usize) -> Value<'_>
        ensures { result ≡ value_at (column_in self.now) line }
    {
        match self {
            LineColumn::Picked { values, places } => picked_value(values, places, line),
            LineColumn::Ones(count) => one_of(*count, line),
            LineColumn::Kept(values) => values.value(line),
        }
    }
}

/// 1, where a line is one of so many. Else 0.
fn one_of<'a>(count: usize, line: usize) -> Value<'a>
    ensures { result ≡ value_at (replicate count (Whole (pos 1))) line }
{
    if line < count {
        Value::Whole(1)
    } else {
        Value::Whole(0)
    }
}

/// The value of the row at one of some places. Past the end, 0.
fn picked_value<'s>(values: &'s ColumnValues<'_>, places: &[usize], line: usize) -> Value<'s>
    ensures { result ≡ value_at (map (λ place. value_at (values_of values.now) place) places.now) line }
{
    match places.get(line) {
        Some(place) => values.value(*place),
        None => Value::Whole(0),
    }
}
