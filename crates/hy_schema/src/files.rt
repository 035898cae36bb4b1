//! How the files of lists were read.

/// How far the file of a list was read.
#[derive(Clone, Copy, Debug, PartialEq, Eq)]
pub enum FileEnd {
    /// To its end: all its records are rows of the list.
    Whole,
    /// To a record that is no row of the table. The list has the rows before it.
    BadRecord,
    /// Not at all: its first record is no header of the table.
    BadHeader,
}
