//! The names of tables and columns.

ghost use Rattle.std.specs.Prelude.{◌≡◌, IfSome, IsSome, bytes_eq};
ghost use Rattle.hy_rows.specs.Catalogue.{columns_of};
ghost use Rattle.hy_query.specs.Columns.{column_among, kind_of, lowered, place_named, table_named};

use crate::column::Column;
use hy_rows::{ALL_TABLES, Table};

/// The table that a word stands for.
pub(crate) fn table_named(word: &[u8]) -> Option<Table>
    ensures { result ≡ table_named word.now }
{
    ALL_TABLES
        .iter()
        .copied()
        .find(|table| word == table.word().as_bytes())
}

/// The column with a name, where one of these tables has it.
pub(crate) fn column_among(tables: &[Table], word: &[u8]) -> Option<Column>
    ensures same { result ≡ column_among tables.now word.now }
    ensures known { IfSome result (λ column. IsSome (kind_of column)) }
{
    for table in tables {
        if let Some(place) = place_named(word, *table) {
            return Some(Column {
                table: *table,
                place,
            });
        }
    }
    None
}

/// The place of a table's column with a name.
fn place_named(word: &[u8], table: Table) -> Option<usize>
    ensures { result ≡ place_named word.now (columns_of table) }
{
    table
        .columns()
        .iter()
        .position(|column| is_lowered(word, column.name))
}

/// Whether a word is a name in small letters.
fn is_lowered(word: &[u8], name: &[u8]) -> bool
    ensures { result ≡ bytes_eq word.now (lowered name.now) }
{
    word.len() == name.len()
        && word.iter().zip(name).all(|(letter, written)| *letter == written.to_ascii_lowercase())
}
