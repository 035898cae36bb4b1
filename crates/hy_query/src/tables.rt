//! The tables of a query that is being read.

ghost use Rattle.std.specs.Prelude.{◌≡◌, ◌<◌, [], ◌∷◌, ◌++◌, length};

use hy_rows::Table;
use std::marker::Model;

/// At most four tables. They take no memory of an allocator.
#[derive(Debug, Drop)]
pub(crate) struct Tables {
    places: [Table; 4],
    count: usize,
}

// Clauses see the list.
impl Model for Tables {
    ghost use Rattle.std.specs.Prelude.{List, ◌≤◌, take};
    ghost use Rattle.hy_rows.specs.declared.catalogue.Table.{Table};

    ghost Value = { List Table };

    ghost view = { λ tables. take tables.count tables.places };

    ghost invariant = { λ tables. tables.count ≤ 4 };
}

impl Tables {
    /// No tables.
    pub(crate) fn new() -> Tables
        ensures { result ≡ [] }
    {
        Tables {
            places: [Table::Warehouse; 4],
            count: 0,
        }
    }

    /// The tables.
    pub(crate) fn as_slice(&self) -> &[Table]
        ensures { result.now ≡ self.now }
    {
        &self.places[..self.count]
    }

    /// Puts a table behind the others.
    pub(crate) fn push(&mut self, table: Table)
        requires { length self.old < 4 }
        ensures { self.new ≡ self.old ++ table ∷ [] }
    {
        self.places[self.count] = table;
        self.count += 1;
    }
}
