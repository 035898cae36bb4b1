//! Reading the rows of a table from a text.

ghost use Rattle.std.specs.Prelude.{◌≡◌, ℕ, List, [], ◌∷◌, length, IfOk, MatchBool};
ghost use Rattle.csv.specs.Reading.{default_config, records, strip_bom};
ghost use Rattle.csv.specs.Records.{fields_of};
ghost use Rattle.hy_csv.specs.Fields.{row_lacking};
ghost use Rattle.hy_csv.specs.Texts.{rows_before, rows_of, table_reading};
ghost use Rattle.hy_csv.specs.inside.Readers.{StandsBefore};

use crate::fields::row_of;
use crate::header::is_header;
use csv::{ByteRecord, Reader, ReaderBuilder};
use hy_rows::OwnedRecord;
use std::alloc::{AllocError, Global};
use std::marker::Model;

/// The rows of a table, as far as a text says them.
#[derive(Drop)]
pub struct Reading<R: Drop> {
    /// The rows of the records before the first one that is no row.
    pub rows: Vec<R>,
    /// The number of the first record that is no row: 0 for the header, 1 for the record behind it. None where the
    /// text ends behind the rows.
    pub unread: Option<u64>,
}

// Clauses see the rows as a list.
impl<R: Drop> Model for Reading<R> {
    ghost use Rattle.hy_csv.specs.Texts.{Reading};

    ghost Value = { Reading R };

    ghost view = { λ reading. record { rows = reading.rows.items; unread = reading.unread } };
}

/// The rows that a text says under its header, which names all columns of the table, or those that its files had at
/// first.
pub fn read<R: OwnedRecord>(alloc: Global, text: &[u8]) -> Result<Reading<R>, AllocError>
    ensures { IfOk result (λ found. found ≡ table_reading R.TABLE R.row_with text.now) }
{
    let mut reader = reader_of(alloc, text);
    let mut fields = ByteRecord::new(alloc);
    if next_record(&mut reader, &mut fields)? && is_header(R::TABLE, &fields) {
        let lacking = R::TABLE.columns().len().saturating_sub(fields.len());
        read_rows(alloc, &mut reader, &mut fields, lacking)
    } else {
        Ok(Reading {
            rows: Vec::new(alloc),
            unread: Some(0),
        })
    }
}

/// A reader of the records of a text, of any lengths, the header as the first.
fn reader_of<'t>(alloc: Global, text: &'t [u8]) -> Reader<&'t [u8]>
    ensures { StandsBefore (records default_config (strip_bom text.now)) result }
{
    ReaderBuilder::new()
        .has_headers(false)
        .flexible(true)
        .from_reader(alloc, text)
}

/// The rows of the records to come, each of which lacks so many fields at its end.
fn read_rows<R: OwnedRecord>(
    alloc: Global,
    reader: &mut Reader<&[u8]>,
    fields: &mut ByteRecord,
    lacking: usize,
) -> Result<Reading<R>, AllocError>
    ensures { IfOk result (λ found. (records : List (List (List ℕ))) → StandsBefore records reader.old
        → found ≡ rows_before (length records) (rows_of (row_lacking R.TABLE R.row_with lacking) records)) }
{
    let mut rows = Vec::new(alloc);
    for _ in 0..u64::MAX {
        if !next_record(reader, fields)? {
            return Ok(Reading { rows, unread: None });
        }
        match row_of(alloc, fields, lacking)? {
            Some(row) => rows.push(row)?,
            None => {
                let unread = Some(rows.len() as u64 + 1);
                return Ok(Reading { rows, unread });
            }
        }
    }
    Err(AllocError)
}

/// Takes the next record of a text, if there is one.
fn next_record(reader: &mut Reader<&[u8]>, fields: &mut ByteRecord) -> Result<bool, AllocError>
    ensures { IfOk result (λ found. (records : List (List (List ℕ))) → StandsBefore records reader.old
        → MatchBool found
        ((later : List (List (List ℕ)))
        × (records ≡ fields_of fields.new ∷ later) × StandsBefore later reader.new)
        (records ≡ [])) }
{
    match reader.read_byte_record(fields) {
        Ok(found) => Ok(found),
        Err(_) => Err(AllocError),
    }
}
