//! The headers of the files of a table.

ghost use Rattle.std.specs.Prelude.{◌≡◌, take};
ghost use Rattle.csv.specs.Records.{fields_of};
ghost use Rattle.hy_rows.specs.Catalogue.{names_of};
ghost use Rattle.hy_csv.specs.Texts.{columns_at_first, has_fields, is_header};
ghost use Rattle.hy_csv.specs.inside.Names.{names_in};

use csv::ByteRecord;
use hy_rows::{ColumnDefinition, Table};

/// Whether a record is a header of a table: the names of all columns, or of those that its files had at first.
pub fn is_header(table: Table, fields: &ByteRecord) -> bool
    ensures { result ≡ is_header table (fields_of fields.now) }
{
    has_names(fields, table.columns()) || has_names(fields, first_columns(table))
}

/// The columns that the files of a table had at first: those of CUSTOMER had no C_DATA.
fn first_columns(table: Table) -> &'static [ColumnDefinition]
    ensures { names_in result.now ≡ take (columns_at_first table) (names_of table) }
{
    let columns = table.columns();
    match table {
        Table::Customer => &columns[..12],
        _ => columns,
    }
}

/// Whether the fields of a record are the names of these columns.
fn has_names(fields: &ByteRecord, columns: &[ColumnDefinition]) -> bool
    ensures { result ≡ has_fields (fields_of fields.now) (names_in columns.now) }
{
    if fields.len() != columns.len() {
        return false;
    }
    for (place, column) in columns.iter().enumerate() {
        if fields.get(place) != Some(column.name) {
            return false;
        }
    }
    true
}
