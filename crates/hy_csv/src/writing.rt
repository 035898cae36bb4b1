//! Writing the rows of a table as a text.

ghost use Rattle.std.specs.Prelude.{◌≡◌, All, IfOk, None, OnOk, option_map};
ghost use Rattle.hy_rows.specs.Catalogue.{columns_of};
ghost use Rattle.hy_csv.specs.Fields.{AllFitFields, fields_of};
ghost use Rattle.hy_csv.specs.Texts.{Reading, table_reading, table_text};
ghost use Rattle.hy_csv.specs.inside.Names.{names_in};
ghost use Rattle.hy_csv.specs.inside.Writers.{with_record};

use crate::record::RecordWriter;
use hy_rows::{ColumnDefinition, Record};
use std::alloc::{AllocError, Global};

/// The text of rows: the names of their columns, and a record for each row.
pub fn write<R: Record>(alloc: Global, rows: &[R]) -> Result<Vec<u8>, AllocError>
    ensures { IfOk result (λ text. text.items ≡ table_text R.TABLE R.values_of rows.now) }
{
    let mut records = RecordWriter::new(alloc);
    write_names(&mut records, R::TABLE.columns())?;
    for row in rows {
        write_row(&mut records, row)?;
    }
    records.into_text()
}

/// Writes a record of the names of columns.
fn write_names(records: &mut RecordWriter, columns: &[ColumnDefinition]) -> Result<(), AllocError>
    ensures { OnOk result (records.new ≡ option_map (with_record (names_in columns.now)) records.old) }
{
    for column in columns {
        records.field(column.name)?;
    }
    records.end()
}

/// Writes a row as a record.
fn write_row<R: Record>(records: &mut RecordWriter, row: &R) -> Result<(), AllocError>
    ensures { OnOk result (records.new ≡ option_map (with_record (fields_of (R.values_of row.now))) records.old) }
{
    row.put(records)?;
    records.end()
}

/// What is written is read again: a text of rows that fields can say says these rows, and no record besides.
pub fn reads_back<R: Record>(rows: &[R])
    ensures { All (λ row. AllFitFields (columns_of R.TABLE) (R.values_of row)) rows.now
        → table_reading R.TABLE R.row_with (table_text R.TABLE R.values_of rows.now)
        ≡ record { rows = rows.now; unread = None } }
{}
