//! The rows of a load, as lists.

ghost use Rattle.std.specs.Prelude.{◌≡◌};

use crate::item::Item;
use crate::row::Listed;
use crate::tables::Tables;
use std::marker::Model;

/// The rows of all tables, those of a load: of ITEM, which no pages hold, and of the tables in segments.
#[derive(Drop)]
pub struct Lists {
    pub items: Vec<Item>,
    pub tables: Tables,
}

// Clauses see the lists.
impl Model for Lists {
    ghost use Rattle.hy_rows.specs.Tables.{Lists};

    ghost Value = { Lists };

    ghost view = { λ lists. record {
      items = lists.items.items;
      tables = lists.tables;
    } };
}

impl Lists {
    /// The rows of one table.
    pub fn list<R: Listed>(&self) -> &[R]
        ensures { result.now ≡ R.list_in self.now }
    {
        R::list_of(self)
    }
}
