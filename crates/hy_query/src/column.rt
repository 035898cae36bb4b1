//! The columns of all tables, as queries name them.

ghost use Rattle.std.specs.Prelude.{◌≡◌, IsSome, Some};
ghost use Rattle.hy_rows.specs.Columns.{domain_of};
ghost use Rattle.hy_query.specs.Columns.{kind_in, kind_of};

use hy_rows::{Domain, Table};

/// What the values of a column are.
#[derive(Clone, Copy, Debug, PartialEq, Eq)]
pub enum Kind {
    /// Whole numbers.
    Whole,
    /// Texts.
    Text,
}

/// A column: its table, and its place among the columns of that table, from 0.
#[derive(Clone, Copy, Debug, PartialEq, Eq)]
pub struct Column {
    /// The table.
    pub table: Table,
    /// Its place.
    pub place: usize,
}

impl Column {
    /// What its values are.
    pub fn kind(&self) -> Kind
        requires { IsSome (kind_of self.now) }
        ensures { kind_of self.now ≡ Some result }
    {
        let definition = &self.table.columns()[self.place];
        kind_in(definition.domain)
    }
}

/// What the values of a domain are.
fn kind_in(domain: Domain) -> Kind
    ensures { result ≡ kind_in (domain_of domain) }
{
    match domain {
        Domain::Unsigned { .. } | Domain::Signed { .. } => Kind::Whole,
        Domain::Text { .. } | Domain::OneOf { .. } => Kind::Text,
    }
}
