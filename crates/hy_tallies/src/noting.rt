//! What is answered of groups, with the values of more lines.

ghost use Rattle.std.specs.Prelude.{◌≡◌, ◌+ℤ◌, ◌<◌, [], ◌∷◌, ◌++◌, OnOk, if◌then◌else◌, length, map, pos};
ghost use Rattle.hy_columns.specs.Columns.{values_of};
ghost use Rattle.hy_query.specs.Meaning.{number_in, wrapped};
ghost use Rattle.hy_rows.specs.Rows.{value_at};
ghost use Rattle.hy_tallies.specs.declared.aggregate.Aggregate.TheVariants as aggregates;
ghost use Rattle.hy_tallies.specs.Lines.{column_in};
ghost use Rattle.hy_tallies.specs.inside.Steps.{aggregate_of, more_of, noted, noted_all, noted_upto};

use crate::aggregate::Aggregate;
use crate::by_place::{Ones, Owned, Picked};
use crate::line::LineColumn;
use crate::owned::{OwnedValues, number_of};
use crate::values::is_less;
use hy_columns::{ByPlace, ColumnValues, Copied, Numbers, Signed, Texts};
use hy_query::Value;
use std::alloc::AllocError;

/// Which of two values is the better one.
#[derive(Clone, Copy)]
enum Extreme {
    /// The lesser.
    Least,
    /// The greater.
    Greatest,
}

/// Whether a value is better than the best so far.
fn is_better(extreme: Extreme, best: &Value<'_>, value: &Value<'_>) -> bool
    ensures { (if result then value.now else best.now) ≡ more_of (aggregate_of extreme) best.now value.now }
{
    match extreme {
        Extreme::Least => is_less(value, best),
        Extreme::Greatest => is_less(best, value),
    }
}

/// The value of a line, where it begins a group.
fn note_first<V: ByPlace>(
    column: &mut OwnedValues,
    number: usize,
    values: &V,
    line: usize,
) -> Result<(), AllocError>
    ensures { OnOk result
        (column.new ≡ noted aggregates.First column.old number (value_at (V.values values.now) line)) }
{
    if number < column.len() {
        return Ok(());
    }
    column.push(&values.value(line))
}

/// The value of a line for the sum of its group.
fn note_sum<V: ByPlace>(
    column: &mut OwnedValues,
    number: usize,
    values: &V,
    line: usize,
) -> Result<(), AllocError>
    ensures { OnOk result
        (column.new ≡ noted aggregates.Sum column.old number (value_at (V.values values.now) line)) }
{
    let added = number_of(&values.value(line));
    if number >= column.len() {
        return column.push_number(added);
    }
    if column.add_small(number, added) {
        return Ok(());
    }
    column.add(number, added)
}

/// Puts a value in the place of a group's best, where it is better.
fn improve(
    column: &mut OwnedValues,
    number: usize,
    value: &Value<'_>,
    extreme: Extreme,
) -> Result<(), AllocError>
    requires { number < length column.old }
    ensures { OnOk result (column.new ≡ noted (aggregate_of extreme) column.old number value.now) }
{
    if is_better(extreme, &column.value(number), value) {
        return column.set(number, value);
    }
    Ok(())
}

/// The value of a line for the best of its group.
fn note_best<V: ByPlace>(
    column: &mut OwnedValues,
    number: usize,
    values: &V,
    line: usize,
    extreme: Extreme,
) -> Result<(), AllocError>
    ensures { OnOk result
        (column.new ≡ noted (aggregate_of extreme) column.old number (value_at (V.values values.now) line)) }
{
    let value = values.value(line);
    if number < column.len() {
        return improve(column, number, &value, extreme);
    }
    column.push(&value)
}

/// The values of the lines that begin groups.
fn note_firsts<V: ByPlace>(
    column: &mut OwnedValues,
    numbers: &[usize],
    values: &V,
) -> Result<(), AllocError>
    ensures { OnOk result (column.new
        ≡ noted_upto aggregates.First column.old numbers.now (V.values values.now) (length numbers.now)) }
{
    for line in 0..numbers.len() {
        note_first(column, numbers[line], values, line)?;
    }
    Ok(())
}

/// The values of lines for sums.
fn note_sums<V: ByPlace>(
    column: &mut OwnedValues,
    numbers: &[usize],
    values: &V,
) -> Result<(), AllocError>
    ensures { OnOk result (column.new
        ≡ noted_upto aggregates.Sum column.old numbers.now (V.values values.now) (length numbers.now)) }
{
    for line in 0..numbers.len() {
        note_sum(column, numbers[line], values, line)?;
    }
    Ok(())
}

/// The values of lines for the best of their groups.
fn note_bests<V: ByPlace>(
    column: &mut OwnedValues,
    numbers: &[usize],
    values: &V,
    extreme: Extreme,
) -> Result<(), AllocError>
    ensures { OnOk result (column.new
        ≡ noted_upto (aggregate_of extreme) column.old numbers.now (V.values values.now) (length numbers.now)) }
{
    for line in 0..numbers.len() {
        note_best(column, numbers[line], values, line, extreme)?;
    }
    Ok(())
}

/// The values of lines for what is answered.
fn note_values<V: ByPlace>(
    column: &mut OwnedValues,
    aggregate: Aggregate,
    numbers: &[usize],
    values: &V,
) -> Result<(), AllocError>
    ensures { OnOk result (column.new
        ≡ noted_upto aggregate column.old numbers.now (V.values values.now) (length numbers.now)) }
{
    match aggregate {
        Aggregate::First => note_firsts(column, numbers, values),
        Aggregate::Sum => note_sums(column, numbers, values),
        Aggregate::Least => note_bests(column, numbers, values, Extreme::Least),
        Aggregate::Greatest => note_bests(column, numbers, values, Extreme::Greatest),
    }
}

/// The values at some places of a table's column.
fn note_picked(
    column: &mut OwnedValues,
    aggregate: Aggregate,
    numbers: &[usize],
    values: &ColumnValues<'_>,
    places: &[usize],
) -> Result<(), AllocError>
    ensures { OnOk result (column.new ≡ noted_upto aggregate column.old numbers.now
        (map (λ place. value_at (values_of values.now) place) places.now) (length numbers.now)) }
{
    match values {
        ColumnValues::Numbers(all) => {
            let values = Numbers(all);
            note_values(column, aggregate, numbers, &Picked { values, places })
        }
        ColumnValues::Signed(all) => {
            let values = Signed(all);
            note_values(column, aggregate, numbers, &Picked { values, places })
        }
        ColumnValues::Texts(all) => {
            let values = Texts(all);
            note_values(column, aggregate, numbers, &Picked { values, places })
        }
        ColumnValues::CopiedTexts(all) => {
            let values = Copied(all);
            note_values(column, aggregate, numbers, &Picked { values, places })
        }
    }
}

/// The values of a column of lines.
fn note_column(
    column: &mut OwnedValues,
    aggregate: Aggregate,
    numbers: &[usize],
    lines: &LineColumn<'_>,
) -> Result<(), AllocError>
    ensures { OnOk result (column.new
        ≡ noted_upto aggregate column.old numbers.now (column_in lines.now) (length numbers.now)) }
{
    match lines {
        LineColumn::Picked { values, places } => {
            note_picked(column, aggregate, numbers, values, places)
        }
        LineColumn::Ones(count) => note_values(column, aggregate, numbers, &Ones(*count)),
        LineColumn::Kept(values) => note_values(column, aggregate, numbers, &Owned(values)),
    }
}

/// The values of all columns of lines.
pub(crate) fn note_columns(
    columns: &mut [OwnedValues],
    aggregates: &[Aggregate],
    numbers: &[usize],
    lines: &[LineColumn<'_>],
) -> Result<(), AllocError>
    ensures { OnOk result (columns.new
        ≡ noted_all aggregates.now columns.old numbers.now (map column_in lines.now) (length numbers.now)) }
{
    let Some((aggregate, aggregates)) = aggregates.split_first() else {
        return Ok(());
    };
    let Some((column, columns)) = columns.split_first_mut() else {
        return Ok(());
    };
    let Some((one, lines)) = lines.split_first() else {
        return Ok(());
    };
    note_column(column, *aggregate, numbers, one)?;
    note_columns(columns, aggregates, numbers, lines)
}
