//! What the language asks about a query while it is being read, without memory of an allocator.

ghost use Rattle.std.specs.Prelude.{◌≡◌, ◌<◌, ◌&&◌, IsSome, length, nat_le, nat_lt};
ghost use Rattle.std.specs.List.{list_any};
ghost use Rattle.hy_query.specs.Columns.{kind_of};
ghost use Rattle.hy_query.specs.Language.{is_plain, is_table, may_aggregate, may_be_plain, with_group, with_item, with_table};
ghost use Rattle.hy_query.specs.Queries.{QueryState, no_query};
ghost use Rattle.hy_query.specs.inside.Outlines.{IsOutline};

use crate::column::Column;
use crate::column_set::ColumnSet;
use crate::query::SelectItem;
use crate::tables::Tables;
use hy_rows::Table;

/// What the rest of a text asks about its beginning: which tables, groups and items there are.
#[derive(Debug, Drop)]
pub(crate) struct Outline {
    tables: Tables,
    groups: ColumnSet,
    has_groups: bool,
    /// How many items there are; the greatest number where there are more.
    item_count: usize,
    has_plain: bool,
    has_aggregates: bool,
}

impl Outline {
    /// That of a query of which nothing was read.
    pub(crate) fn new() -> Outline
        ensures { IsOutline result no_query }
    {
        Outline {
            tables: Tables::new(),
            groups: ColumnSet::new(),
            has_groups: false,
            item_count: 0,
            has_plain: false,
            has_aggregates: false,
        }
    }

    /// The tables.
    pub(crate) fn tables(&self) -> &[Table]
        ensures { result.now ≡ self.now.tables }
    {
        self.tables.as_slice()
    }

    /// Whether one table more may come.
    pub(crate) fn has_room(&self) -> bool
        ensures { result ≡ nat_lt (length self.now.tables) 4 }
    {
        self.tables().len() < 4
    }

    /// Whether a table is there.
    pub(crate) fn has_table(&self, table: Table) -> bool
        ensures { result ≡ list_any (is_table table) self.now.tables }
    {
        self.tables().iter().any(|other| is_table(table, *other))
    }

    /// Adds a table.
    pub(crate) fn add_table(&mut self, table: Table)
        requires { length self.old.tables < 4 }
        ensures { (query : QueryState) → IsOutline self.old query → IsOutline self.new (with_table query table) }
    {
        self.tables.push(table);
    }

    /// Adds a column by which rows are grouped.
    pub(crate) fn add_group(&mut self, column: Column)
        requires { IsSome (kind_of column) }
        ensures { (query : QueryState) → IsOutline self.old query → IsOutline self.new (with_group query column) }
    {
        self.groups.insert(column);
        self.has_groups = true;
    }

    /// Adds an item.
    pub(crate) fn add_item(&mut self, item: SelectItem)
        ensures { (query : QueryState) → IsOutline self.old query → IsOutline self.new (with_item query item) }
    {
        self.item_count = self.item_count.saturating_add(1);
        if is_plain(item) {
            self.has_plain = true;
        } else {
            self.has_aggregates = true;
        }
    }

    /// Whether an aggregate may come.
    pub(crate) fn may_aggregate(&self) -> bool
        ensures { (query : QueryState) → IsOutline self.now query → result ≡ may_aggregate query }
    {
        self.has_groups || !self.has_plain
    }

    /// Whether a plain column may come.
    pub(crate) fn may_be_plain(&self, column: Column) -> bool
        requires { IsSome (kind_of column) }
        ensures { (query : QueryState) → IsOutline self.now query → result ≡ may_be_plain query column }
    {
        if self.has_groups {
            self.groups.contains(column)
        } else {
            !self.has_aggregates
        }
    }

    /// Whether an item has this place, from 1.
    pub(crate) fn has_item(&self, place: usize) -> bool
        ensures { (query : QueryState) → IsOutline self.now query
            → result ≡ (nat_le 1 place && nat_le place (length query.items)) }
    {
        1 <= place && place <= self.item_count
    }
}

/// Whether two tables are the same.
fn is_table(one: Table, other: Table) -> bool
    ensures { result ≡ is_table one other }
{
    one == other
}

/// Whether an item is a column.
fn is_plain(item: SelectItem) -> bool
    ensures { result ≡ is_plain item }
{
    matches!(item, SelectItem::Column(_))
}
