//! Writing rows as records.

ghost use Rattle.std.specs.Prelude.{◌≡◌, ◌<◌, ◌∷◌, ◌++◌, ◌^◌, [], ℕ, IfOk, List, OnOk, length};
ghost use Rattle.std.specs.List.{flat_map};
ghost use Rattle.csv.specs.Writing.{default_writer, row_text};
ghost use Rattle.hy_answers.specs.Texts.{field_of, record_text};
ghost use Rattle.hy_answers.specs.inside.Answers.{rows_in};
ghost use Rattle.hy_tallies.specs.Lines.{row_at};
ghost use Rattle.hy_answers.specs.inside.Writers.{HasFields};

use csv::{Writer, WriterBuilder};
use hy_query::Value;
use hy_tallies::OwnedValues;
use itoa::Buffer;
use std::alloc::{AllocError, Global};

/// Writes one field more.
fn write_field(writer: &mut Writer<Vec<u8>>, field: &[u8]) -> Result<(), AllocError>
    ensures { OnOk result ((text : List ℕ) (fields : List (List ℕ)) → length fields < 2 ^ 63
        → HasFields text fields writer.old → HasFields text (fields ++ field.now ∷ []) writer.new) }
{
    match writer.write_field(field) {
        Ok(()) => Ok(()),
        Err(_) => Err(AllocError),
    }
}

/// Ends a record.
fn end_record(writer: &mut Writer<Vec<u8>>) -> Result<(), AllocError>
    ensures { OnOk result ((text : List ℕ) (fields : List (List ℕ)) → HasFields text fields writer.old
        → HasFields (text ++ row_text default_writer fields) [] writer.new) }
{
    match writer.end_record() {
        Ok(()) => Ok(()),
        Err(_) => Err(AllocError),
    }
}

/// Writes a value as one field more.
fn write_value(writer: &mut Writer<Vec<u8>>, value: &Value<'_>) -> Result<(), AllocError>
    ensures { OnOk result ((text : List ℕ) (fields : List (List ℕ)) → length fields < 2 ^ 63
        → HasFields text fields writer.old → HasFields text (fields ++ field_of value.now ∷ []) writer.new) }
{
    match value {
        Value::Whole(number) => {
            let mut digits = Buffer::new();
            write_field(writer, digits.format(*number).as_bytes())
        }
        Value::Text(text) => write_field(writer, text.as_bytes()),
    }
}

/// Writes a row as a record.
fn write_row(
    writer: &mut Writer<Vec<u8>>,
    columns: &[OwnedValues],
    row: usize,
) -> Result<(), AllocError>
    ensures { OnOk result ((text : List ℕ) → HasFields text [] writer.old
        → HasFields (text ++ record_text (row_at columns.now row)) [] writer.new) }
{
    for column in columns {
        write_value(writer, &column.value(row))?;
    }
    end_record(writer)
}

/// Writes rows as records, in some order.
fn write_rows(
    writer: &mut Writer<Vec<u8>>,
    columns: &[OwnedValues],
    order: &[usize],
) -> Result<(), AllocError>
    ensures { OnOk result ((text : List ℕ) → HasFields text [] writer.old
        → HasFields (text ++ flat_map record_text (rows_in columns.now order.now)) [] writer.new) }
{
    for row in order {
        write_row(writer, columns, *row)?;
    }
    Ok(())
}

/// The text of rows in some order, a record for each.
pub(crate) fn records(
    alloc: Global,
    columns: &[OwnedValues],
    order: &[usize],
) -> Result<Vec<u8>, AllocError>
    ensures { IfOk result
        (λ text. text.items ≡ flat_map record_text (rows_in columns.now order.now)) }
{
    let mut writer = WriterBuilder::new().from_writer(Vec::new(alloc));
    write_rows(&mut writer, columns, order)?;
    match writer.into_inner() {
        Ok(text) => Ok(text),
        Err(_) => Err(AllocError),
    }
}
