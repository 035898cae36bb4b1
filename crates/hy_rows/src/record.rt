//! A row as the values of its columns.

ghost use Rattle.std.specs.Prelude.{◌≡◌, pos, ◌&&◌, List, IfOk, IfSome, OnOk, length, option_map};
ghost use Rattle.hy_rows.specs.Catalogue.{columns_of};
ghost use Rattle.hy_rows.specs.Columns.{Column, allows, are_allowed, defined};
ghost use Rattle.hy_rows.specs.Records.{Fields, after_all, values_said};
ghost use Rattle.hy_rows.specs.Texts.{IsText};
ghost use Rattle.hy_rows.specs.declared.catalogue.Table.{Table};
ghost use Rattle.hy_rows.specs.declared.value.Value.{Value};
ghost use Rattle.hy_rows.specs.declared.value.Value.TheVariants.{Text as TextValue, Whole};

use crate::catalogue::Table;
use crate::column::ColumnDefinition;
use std::alloc::{AllocError, Global};

/// What takes the values of a row, one column after another.
pub trait ValueSink {
    /// Why a value isn't taken.
    type Refused: Drop;

    /// What it is behind a value of a column.
    ghost after: { Self → Column → Value → Self };

    /// Takes a number of 8 bits.
    fn u8(&mut self, column: &ColumnDefinition, number: u8) -> Result<(), Self::Refused>
        ensures { OnOk result (self.new ≡ after self.old (defined column.now) (Whole (pos number))) };

    /// Takes a number of 16 bits.
    fn u16(&mut self, column: &ColumnDefinition, number: u16) -> Result<(), Self::Refused>
        ensures { OnOk result (self.new ≡ after self.old (defined column.now) (Whole (pos number))) };

    /// Takes a number of 32 bits.
    fn u32(&mut self, column: &ColumnDefinition, number: u32) -> Result<(), Self::Refused>
        ensures { OnOk result (self.new ≡ after self.old (defined column.now) (Whole (pos number))) };

    /// Takes a number of 64 bits.
    fn u64(&mut self, column: &ColumnDefinition, number: u64) -> Result<(), Self::Refused>
        ensures { OnOk result (self.new ≡ after self.old (defined column.now) (Whole (pos number))) };

    /// Takes a number with a sign.
    fn i64(&mut self, column: &ColumnDefinition, number: i64) -> Result<(), Self::Refused>
        ensures { OnOk result (self.new ≡ after self.old (defined column.now) (Whole number)) };

    /// Takes a text.
    fn text(&mut self, column: &ColumnDefinition, text: &[u8]) -> Result<(), Self::Refused>
        ensures { OnOk result (self.new ≡ after self.old (defined column.now) (TextValue text.now)) };
}

/// What gives the values of a row, by their places.
pub trait ValueSource {
    /// What it says.
    ghost fields: { Self → Fields };

    /// The number of 8 bits at a place, if one is there.
    fn u8(&self, place: usize) -> Option<u8>
        ensures { result ≡ (fields self.now).number 8 place };

    /// The number of 16 bits at a place, if one is there.
    fn u16(&self, place: usize) -> Option<u16>
        ensures { result ≡ (fields self.now).number 16 place };

    /// The number of 32 bits at a place, if one is there.
    fn u32(&self, place: usize) -> Option<u32>
        ensures { result ≡ (fields self.now).number 32 place };

    /// The number of 64 bits at a place, if one is there.
    fn u64(&self, place: usize) -> Option<u64>
        ensures { result ≡ (fields self.now).number 64 place };

    /// The number with a sign at a place, if one is there.
    fn i64(&self, place: usize) -> Option<i64>
        ensures { result ≡ (fields self.now).signed place };

    /// The text of at most so many bytes at a place, if one is there.
    fn text(&self, place: usize, width: usize) -> Option<&[u8]>
        ensures said { option_map (λ text. text.now) result ≡ (fields self.now).text width place }
        ensures fits { IfSome result (λ text. IsText width text.now) };
}

/// A row of a table.
pub trait Record: Drop {
    /// Its table.
    const TABLE: Table;

    /// The same, as clauses name it.
    ghost TABLE: { Table };

    /// The values of a row, in the order of its table's columns.
    ghost values_of: { Self → List Value };

    /// The row with some values.
    ghost row_with: { List Value → Self };

    /// Gives the values, one after another.
    fn put<S: ValueSink>(&self, sink: &mut S) -> Result<(), S::Refused>
        ensures { OnOk result (sink.new ≡ after_all S.after sink.old (columns_of TABLE) (values_of self.now)) };

    /// Whether each column has a value that a load may have.
    fn is_in_range(&self) -> bool
        ensures { result ≡ are_allowed (columns_of TABLE) (values_of self.now) }
    {
        let mut test = RangeTest { holds: true };
        match self.put(&mut test) {
            Ok(()) => test.holds,
            Err(never) => match never {},
        }
    }

    /// A row has a value for each column, and there is one row with them.
    ghost has_all: { (row : Self) → length (values_of row) ≡ length (columns_of TABLE) };

    ghost same_row: { (row : Self) → row_with (values_of row) ≡ row };
}

/// A row that is made and copied where memory is there for it.
pub trait OwnedRecord: Record {
    /// The row that fields say, if each of them says a value of its column. Only memory can lack.
    fn taken<S: ValueSource>(alloc: Global, source: &S) -> Result<Option<Self>, AllocError>
        ensures { IfOk result (λ row. row
            ≡ option_map Self.Record.row_with (values_said (S.fields source.now) (columns_of Self.Record.TABLE) 0)) };

    /// Another row with the same values. Only memory can lack.
    fn copy(&self, alloc: Global) -> Result<Self, AllocError>
        ensures { IfOk result (λ copy. copy ≡ self.now) };
}

/// A row that needs no memory of its own.
pub trait FixedRecord: Record + Copy {
    /// The row that fields say, if each of them says a value of its column.
    fn take<S: ValueSource>(source: &S) -> Option<Self>
        ensures { result
            ≡ option_map Self.Record.row_with (values_said (S.fields source.now) (columns_of Self.Record.TABLE) 0) };
}

impl<R: FixedRecord> OwnedRecord for R {
    fn taken<S: ValueSource>(_alloc: Global, source: &S) -> Result<Option<R>, AllocError> {
        Ok(R::take(source))
    }

    fn copy(&self, _alloc: Global) -> Result<R, AllocError> {
        Ok(*self)
    }
}

/// What isn't: the reason why a value isn't taken, where each is.
#[derive(Clone, Copy)]
pub enum Never {}

/// Whether each value may be in a loaded row.
#[derive(Debug, Drop)]
struct RangeTest {
    holds: bool,
}

impl ValueSink for RangeTest {
    type Refused = Never;

    ghost after = { λ test column value. record { holds = test.holds && allows column.domain value } };

    fn u8(&mut self, column: &ColumnDefinition, number: u8) -> Result<(), Never> {
        self.holds = self.holds && column.allows_number(number.into());
        Ok(())
    }

    fn u16(&mut self, column: &ColumnDefinition, number: u16) -> Result<(), Never> {
        self.holds = self.holds && column.allows_number(number.into());
        Ok(())
    }

    fn u32(&mut self, column: &ColumnDefinition, number: u32) -> Result<(), Never> {
        self.holds = self.holds && column.allows_number(number.into());
        Ok(())
    }

    fn u64(&mut self, column: &ColumnDefinition, number: u64) -> Result<(), Never> {
        self.holds = self.holds && column.allows_number(number);
        Ok(())
    }

    fn i64(&mut self, column: &ColumnDefinition, number: i64) -> Result<(), Never> {
        self.holds = self.holds && column.allows_signed(number);
        Ok(())
    }

    fn text(&mut self, column: &ColumnDefinition, text: &[u8]) -> Result<(), Never> {
        self.holds = self.holds && column.allows_text(text);
        Ok(())
    }
}
