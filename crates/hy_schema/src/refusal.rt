//! Why a call is refused: E1 to E17.

ghost use Rattle.std.specs.Prelude.{◌≡◌, Some};
ghost use Rattle.hy_schema.specs.declared.refusal.Refusal.TheVariants.{NoMemory};
ghost use Rattle.hy_schema.specs.Refusals.{load_fault_text, refusal_text};

use hy_rows::Table;
use std::alloc::AllocError;
use std::error::Error;
use std::fmt;

/// What is wrong with lists of rows that are no load: the first wrong row, counted from 1, or else the first broken
/// consistency condition.
#[derive(Clone, Copy, Debug, PartialEq, Eq)]
pub enum LoadFault {
    /// This row of this table is wrong or missing.
    Row(Table, u64),
    /// This consistency condition is broken.
    Condition(u8),
}

impl fmt::Display for LoadFault {
    ghost output = { λ fault. Some (load_fault_text fault) };

    fn fmt<W: fmt::Write>(&self, f: &mut fmt::Formatter<W>) -> fmt::Result {
        match self {
            LoadFault::Row(table, number) => write!(f, "{table} row {number}"),
            LoadFault::Condition(number) => write!(f, "condition {number}"),
        }
    }
}

/// Why a call refuses. Each refusal has a number and a name, which are its text.
#[derive(Clone, Copy, Debug, PartialEq, Eq)]
pub enum Refusal {
    /// A growth in memory was refused.
    NoMemory,
    /// Fewer frames are free than the call needs.
    NoFrame,
    /// A kept list that the commit must enter is full.
    HistoryFull,
    /// A named warehouse isn't there.
    NoSuchWarehouse,
    /// A district isn't 1 to 10.
    NoSuchDistrict,
    /// No customer of the district has the number or the last name.
    NoSuchCustomer,
    /// An item number isn't in ITEM.
    NoSuchItem,
    /// A value is outside its range.
    OutOfRange,
    /// A job runs, or its answer wasn't taken.
    Busy,
    /// Nothing runs.
    NotRunning,
    /// The snapshot is another warehouse's.
    NotMine,
    /// Lists of rows are no load.
    BadLoad(LoadFault),
    /// A text is no query. The number is the place of the byte at which it fails.
    BadQuery(u64),
    /// The redo log's writer failed in this call or in an earlier one.
    LogFailed,
    /// Bytes are no redo log. The number is the place of the first byte of the batch at fault.
    LogMalformed(u64),
    /// The engine takes no more jobs.
    Closed,
    /// The warehouse's queue is full.
    QueueFull,
}

impl fmt::Display for Refusal {
    ghost output = { λ refusal. Some (refusal_text refusal) };

    fn fmt<W: fmt::Write>(&self, f: &mut fmt::Formatter<W>) -> fmt::Result {
        match self {
            Refusal::NoMemory => f.write_str("E1 NoMemory"),
            Refusal::NoFrame => f.write_str("E2 NoFrame"),
            Refusal::HistoryFull => f.write_str("E3 HistoryFull"),
            Refusal::NoSuchWarehouse => f.write_str("E4 NoSuchWarehouse"),
            Refusal::NoSuchDistrict => f.write_str("E5 NoSuchDistrict"),
            Refusal::NoSuchCustomer => f.write_str("E6 NoSuchCustomer"),
            Refusal::NoSuchItem => f.write_str("E7 NoSuchItem"),
            Refusal::OutOfRange => f.write_str("E8 OutOfRange"),
            Refusal::Busy => f.write_str("E9 Busy"),
            Refusal::NotRunning => f.write_str("E10 NotRunning"),
            Refusal::NotMine => f.write_str("E11 NotMine"),
            Refusal::BadLoad(fault) => write!(f, "E12 BadLoad {fault}"),
            Refusal::BadQuery(place) => write!(f, "E13 BadQuery {place}"),
            Refusal::LogFailed => f.write_str("E14 LogFailed"),
            Refusal::LogMalformed(place) => write!(f, "E15 LogMalformed {place}"),
            Refusal::Closed => f.write_str("E16 Closed"),
            Refusal::QueueFull => f.write_str("E17 QueueFull"),
        }
    }
}

impl Error for Refusal {}

impl From<AllocError> for Refusal {
    ghost from_gives = { λ _ refusal. refusal ≡ NoMemory };

    fn from(_refused: AllocError) -> Refusal {
        Refusal::NoMemory
    }
}
