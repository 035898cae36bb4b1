//! Sets of columns.

ghost use Rattle.std.specs.Prelude.{◌≡◌, ◌<◌, ◌||◌, false, true, IsSome, length, slice_set};
ghost use Rattle.hy_rows.specs.Catalogue.{place_of};
ghost use Rattle.hy_query.specs.Columns.{kind_of};
ghost use Rattle.hy_query.specs.Language.{is_column};
ghost use Rattle.hy_query.specs.declared.column.Column.{Column};
ghost use Rattle.hy_query.specs.inside.ColumnSets.{has_column};

use crate::column::Column;
use hy_rows::{MAX_COLUMNS, TABLES, Table};
use std::marker::Model;

/// A set of columns of all tables. It takes no memory of an allocator.
#[derive(Debug, Drop)]
pub(crate) struct ColumnSet {
    /// Whether the set has a column, by its table and its place.
    has: [[bool; MAX_COLUMNS]; TABLES],
}

// Clauses see the flags.
impl Model for ColumnSet {
    ghost use Rattle.std.specs.Prelude.{List, Bool};

    ghost Value = { List (List Bool) };

    ghost view = { λ set. set.has };
}

impl ColumnSet {
    /// No columns.
    pub(crate) fn new() -> ColumnSet
        ensures { (column : Column) → has_column result column ≡ false }
    {
        ColumnSet {
            has: [[false; MAX_COLUMNS]; TABLES],
        }
    }

    /// Whether a column is in the set.
    pub(crate) fn contains(&self, column: Column) -> bool
        requires { IsSome (kind_of column) }
        ensures { result ≡ has_column self.now column }
    {
        self.has[place_of(column.table)][column.place]
    }

    /// Adds a column.
    pub(crate) fn insert(&mut self, column: Column)
        requires { IsSome (kind_of column) }
        ensures { (other : Column) → IsSome (kind_of other)
            → has_column self.new other ≡ (has_column self.old other || is_column other column) }
    {
        set_flag(&mut self.has[place_of(column.table)], column.place);
    }
}

/// Sets the flag at a place.
fn set_flag(flags: &mut [bool; MAX_COLUMNS], place: usize)
    requires { place < MAX_COLUMNS }
    ensures set { flags.new ≡ slice_set flags.old place true }
    ensures many { length flags.old ≡ MAX_COLUMNS }
{
    flags[place] = true;
}

/// The place of a table among all.
fn place_of(table: Table) -> usize
    ensures same { result ≡ place_of table }
    ensures few { result < TABLES }
{
    table as usize
}
