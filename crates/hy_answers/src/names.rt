//! The columns that a query names.

ghost use Rattle.std.specs.Prelude.{◌≡◌, [], IfOk, OnOk, fold};
ghost use Rattle.std.specs.List.{flat_map, list_any};
ghost use Rattle.hy_query.specs.Language.{is_column};
ghost use Rattle.hy_answers.specs.inside.Names.{with_name};
ghost use Rattle.hy_answers.specs.inside.Reading.{names_in_condition, names_in_item, names_of};

use crate::sources::same_column;
use hy_query::{Column, Condition, Operand, Query, SelectItem};
use std::alloc::{AllocError, Global};

/// Whether a column is among some.
fn has_name(names: &[Column], column: &Column) -> bool
    ensures { result ≡ list_any (λ other. is_column other column.now) names.now }
{
    names.iter().any(|other| same_column(other, column))
}

/// Notes a column, unless it is noted already.
fn note(names: &mut Vec<Column>, column: &Column) -> Result<(), AllocError>
    ensures { OnOk result (names.new.items ≡ with_name names.old.items column.now) }
{
    if has_name(names, column) {
        return Ok(());
    }
    names.push(*column)?;
    Ok(())
}

/// Notes the columns of a condition.
fn note_condition(names: &mut Vec<Column>, condition: &Condition<'_>) -> Result<(), AllocError>
    ensures { OnOk result
        (names.new.items ≡ fold with_name names.old.items (names_in_condition condition.now)) }
{
    note(names, &condition.left)?;
    match &condition.right {
        Operand::Column(column) => note(names, column),
        Operand::Value(_) => Ok(()),
    }
}

/// Notes the columns of conditions.
fn note_conditions(names: &mut Vec<Column>, conditions: &[Condition<'_>]) -> Result<(), AllocError>
    ensures { OnOk result
        (names.new.items ≡ fold with_name names.old.items (flat_map names_in_condition conditions.now)) }
{
    for condition in conditions {
        note_condition(names, condition)?;
    }
    Ok(())
}

/// Notes columns.
fn note_columns(names: &mut Vec<Column>, columns: &[Column]) -> Result<(), AllocError>
    ensures { OnOk result (names.new.items ≡ fold with_name names.old.items columns.now) }
{
    for column in columns {
        note(names, column)?;
    }
    Ok(())
}

/// Notes the column of an item.
fn note_item(names: &mut Vec<Column>, item: &SelectItem) -> Result<(), AllocError>
    ensures { OnOk result (names.new.items ≡ fold with_name names.old.items (names_in_item item.now)) }
{
    match item {
        SelectItem::Count => Ok(()),
        SelectItem::Column(column)
        | SelectItem::Sum(column)
        | SelectItem::Min(column)
        | SelectItem::Max(column) => note(names, column),
    }
}

/// Notes the columns of items.
fn note_items(names: &mut Vec<Column>, items: &[SelectItem]) -> Result<(), AllocError>
    ensures { OnOk result
        (names.new.items ≡ fold with_name names.old.items (flat_map names_in_item items.now)) }
{
    for item in items {
        note_item(names, item)?;
    }
    Ok(())
}

/// The columns that a query names, each once.
pub(crate) fn names_of(alloc: Global, query: &Query<'_>) -> Result<Vec<Column>, AllocError>
    ensures { IfOk result (λ names. names.items ≡ fold with_name [] (names_of query.now)) }
{
    let mut names = Vec::new(alloc);
    note_conditions(&mut names, query.conditions())?;
    note_columns(&mut names, query.groups())?;
    note_items(&mut names, query.items())?;
    Ok(names)
}
