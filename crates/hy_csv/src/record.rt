//! The values of a row, as the fields of a record.

ghost use Rattle.std.specs.Prelude.{◌≡◌, IfOk, OnOk, Some, [], option_map};
ghost use Rattle.hy_csv.specs.inside.Writers.{between, with_end, with_field, with_value};

use csv::{Writer, WriterBuilder};
use hy_rows::{ColumnDefinition, ValueSink};
use itoa::Buffer;
use std::alloc::{AllocError, Global};
use std::marker::Model;

/// A text of records, to which fields and the ends of records are added.
#[derive(Drop)]
pub struct RecordWriter {
    writer: Writer<Vec<u8>>,
    // Whether each field and each end was taken: else nothing is known of the text.
    whole: bool,
}

// Clauses see what was written, where that is known.
impl Model for RecordWriter {
    ghost use Rattle.std.specs.Prelude.{◌≡◌, IsTrue, Option};
    ghost use Rattle.csv.specs.Writing.{default_writer, writer_setup};
    ghost use Rattle.hy_csv.specs.inside.Writers.{Written, written_by};

    ghost Value = { Option Written };

    ghost view = { λ records. written_by records.whole records.writer };

    ghost invariant = { λ records. IsTrue records.whole → writer_setup records.writer ≡ default_writer };
}

impl RecordWriter {
    /// An empty text.
    pub fn new(alloc: Global) -> RecordWriter
        ensures { result ≡ Some (between []) }
    {
        RecordWriter {
            writer: WriterBuilder::new().from_writer(Vec::new(alloc)),
            whole: true,
        }
    }

    /// Adds a field to the record at the end.
    pub fn field(&mut self, field: &[u8]) -> Result<(), AllocError>
        ensures { OnOk result (self.new ≡ option_map (λ written. with_field written field.now) self.old) }
    {
        match self.writer.write_field(field) {
            Ok(()) => Ok(()),
            Err(_) => {
                self.whole = false;
                Err(AllocError)
            }
        }
    }

    /// Ends the record.
    pub fn end(&mut self) -> Result<(), AllocError>
        ensures { OnOk result (self.new ≡ option_map with_end self.old) }
    {
        match self.writer.end_record() {
            Ok(()) => Ok(()),
            Err(_) => {
                self.whole = false;
                Err(AllocError)
            }
        }
    }

    /// The text.
    pub fn into_text(self) -> Result<Vec<u8>, AllocError>
        ensures { IfOk result (λ text. option_map (λ written. written.text) self ≡ Some text.items) }
    {
        if !self.whole {
            return Err(AllocError);
        }
        match self.writer.into_inner() {
            Ok(text) => Ok(text),
            Err(_) => Err(AllocError),
        }
    }
}

impl ValueSink for RecordWriter {
    type Refused = AllocError;

    ghost after = { with_value };

    fn u8(&mut self, _column: &ColumnDefinition, number: u8) -> Result<(), AllocError> {
        let mut digits = Buffer::new();
        self.field(digits.format(number).as_bytes())
    }

    fn u16(&mut self, _column: &ColumnDefinition, number: u16) -> Result<(), AllocError> {
        let mut digits = Buffer::new();
        self.field(digits.format(number).as_bytes())
    }

    fn u32(&mut self, _column: &ColumnDefinition, number: u32) -> Result<(), AllocError> {
        let mut digits = Buffer::new();
        self.field(digits.format(number).as_bytes())
    }

    fn u64(&mut self, _column: &ColumnDefinition, number: u64) -> Result<(), AllocError> {
        let mut digits = Buffer::new();
        self.field(digits.format(number).as_bytes())
    }

    fn i64(&mut self, _column: &ColumnDefinition, number: i64) -> Result<(), AllocError> {
        let mut digits = Buffer::new();
        self.field(digits.format(number).as_bytes())
    }

    fn text(&mut self, _column: &ColumnDefinition, text: &[u8]) -> Result<(), AllocError> {
        self.field(text)
    }
}
