//! The fields of a record, as the values of a row.

ghost use Rattle.std.specs.Prelude.{◌≡◌, ◌++◌, [], IfOk, IfSome, option_map, replicate};
ghost use Rattle.csv.specs.Records.{field_at, fields_of};
ghost use Rattle.hy_decimal.specs.Numbers.{number_of};
ghost use Rattle.hy_rows.specs.Texts.{IsText};
ghost use Rattle.hy_csv.specs.Fields.{row_lacking, said_by, signed_of, text_of};
ghost use Rattle.hy_csv.specs.inside.Signs.{below_zero};

use csv::ByteRecord;
use hy_decimal::number;
use hy_rows::{OwnedRecord, ValueSource, is_printable};
use std::alloc::{AllocError, Global};

/// The row that a record says, if it says one, where it lacks so many fields at its end, which are empty. Only memory can
/// lack.
pub fn row_of<R: OwnedRecord>(
    alloc: Global,
    fields: &ByteRecord,
    lacking: usize,
) -> Result<Option<R>, AllocError>
    ensures { IfOk result (λ row. row ≡ row_lacking R.TABLE R.row_with lacking (fields_of fields.now)) }
{
    let columns = R::TABLE.columns().len();
    if lacking <= columns && fields.len() == columns - lacking {
        R::taken(alloc, &RecordFields { fields, lacking })
    } else {
        Ok(None)
    }
}

/// The fields of a record, and so many empty ones behind them.
#[derive(Drop)]
struct RecordFields<'r> {
    fields: &'r ByteRecord,
    lacking: usize,
}

impl RecordFields<'_> {
    /// The field at a place, if one is there.
    fn field(&self, place: usize) -> Option<&[u8]>
        ensures { option_map (λ field. field.now) result
            ≡ field_at (fields_of self.now.fields.now ++ replicate self.now.lacking []) place }
    {
        let count = self.fields.len();
        if place < count {
            self.fields.get(place)
        } else if place - count < self.lacking {
            Some(b"")
        } else {
            None
        }
    }
}

impl<'r> ValueSource for RecordFields<'r> {
    ghost fields = { λ source. said_by (fields_of source.fields.now ++ replicate source.lacking []) };

    fn u8(&self, place: usize) -> Option<u8> {
        u8_of(self.field(place)?)
    }

    fn u16(&self, place: usize) -> Option<u16> {
        u16_of(self.field(place)?)
    }

    fn u32(&self, place: usize) -> Option<u32> {
        u32_of(self.field(place)?)
    }

    fn u64(&self, place: usize) -> Option<u64> {
        number(self.field(place)?)
    }

    fn i64(&self, place: usize) -> Option<i64> {
        i64_of(self.field(place)?)
    }

    fn text(&self, place: usize, width: usize) -> Option<&[u8]> {
        text_of(self.field(place)?, width)
    }
}

/// The number of 8 bits that a field says.
fn u8_of(field: &[u8]) -> Option<u8>
    ensures { result ≡ number_of 8 field.now }
{
    u8::try_from(number(field)?).ok()
}

/// The number of 16 bits that a field says.
fn u16_of(field: &[u8]) -> Option<u16>
    ensures { result ≡ number_of 16 field.now }
{
    u16::try_from(number(field)?).ok()
}

/// The number of 32 bits that a field says.
fn u32_of(field: &[u8]) -> Option<u32>
    ensures { result ≡ number_of 32 field.now }
{
    u32::try_from(number(field)?).ok()
}

/// The number with a sign that a field says.
fn i64_of(field: &[u8]) -> Option<i64>
    ensures { result ≡ signed_of field.now }
{
    match field.strip_prefix(b"-") {
        Some(digits) => negated(number(digits)?),
        None => i64::try_from(number(field)?).ok(),
    }
}

/// The number with this magnitude below zero.
fn negated(magnitude: u64) -> Option<i64>
    ensures { result ≡ below_zero magnitude }
{
    if magnitude == 0 {
        None
    } else {
        i64::try_from(-i128::from(magnitude)).ok()
    }
}

/// The field as a text, where it is printable and no longer than the width.
fn text_of(field: &[u8], width: usize) -> Option<&[u8]>
    ensures said { option_map (λ text. text.now) result ≡ text_of width field.now }
    ensures fits { IfSome result (λ text. IsText width text.now) }
{
    if field.len() <= width && is_printable(field) {
        Some(field)
    } else {
        None
    }
}
