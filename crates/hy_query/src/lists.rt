//! The lists of a query that is being read.

ghost use Rattle.std.specs.Prelude.{◌≡◌, [], ◌∷◌, ◌++◌, IfErr, IfOk, IsTrue};
ghost use Rattle.hy_schema.specs.declared.refusal.Refusal.TheVariants.{NoMemory};
ghost use Rattle.hy_query.specs.Language.{with_condition, with_group, with_item, with_key};
ghost use Rattle.hy_query.specs.Queries.{IsQuery, QueryState, no_query};
ghost use Rattle.hy_query.specs.inside.Lists.{HasLists};

use crate::column::Column;
use crate::query::{Condition, Query, SelectItem, SortKey};
use hy_schema::{Refusal, Table};
use std::alloc::Global;

/// What a query has beside its tables, as far as memory has lasted.
#[derive(Debug, Drop)]
pub(crate) struct Lists<'a> {
    conditions: Vec<Condition<'a>>,
    groups: Vec<Column>,
    items: Vec<SelectItem>,
    keys: Vec<SortKey>,
    /// Whether memory has lasted for all of them.
    is_complete: bool,
}

impl<'a> Lists<'a> {
    /// Those of a query of which nothing was read.
    pub(crate) fn new(alloc: Global) -> Lists<'a>
        ensures { HasLists result no_query }
    {
        Lists {
            conditions: Vec::new(alloc),
            groups: Vec::new(alloc),
            items: Vec::new(alloc),
            keys: Vec::new(alloc),
            is_complete: true,
        }
    }

    /// Adds a condition.
    pub(crate) fn push_condition(&mut self, condition: Condition<'a>)
        ensures { (query : QueryState) → HasLists self.old query
            → HasLists self.new
            (with_condition query condition.entry.left condition.entry.comparison condition.entry.right) }
    {
        keep(&mut self.conditions, &mut self.is_complete, condition);
    }

    /// Adds a column by which rows are grouped.
    pub(crate) fn push_group(&mut self, column: Column)
        ensures { (query : QueryState) → HasLists self.old query → HasLists self.new (with_group query column) }
    {
        keep(&mut self.groups, &mut self.is_complete, column);
    }

    /// Adds an item.
    pub(crate) fn push_item(&mut self, item: SelectItem)
        ensures { (query : QueryState) → HasLists self.old query → HasLists self.new (with_item query item) }
    {
        keep(&mut self.items, &mut self.is_complete, item);
    }

    /// Adds a key.
    pub(crate) fn push_key(&mut self, key: SortKey)
        ensures { (query : QueryState) → HasLists self.old query
            → HasLists self.new (with_key query key.place key.descending) }
    {
        keep(&mut self.keys, &mut self.is_complete, key);
    }

    /// The query with these lists and some tables, where memory lasts for it.
    pub(crate) fn into_query(self, alloc: Global, tables: &[Table]) -> Result<Query<'a>, Refusal>
        requires { (query : QueryState) × HasLists self query × (tables.now ≡ query.tables) × IsQuery query }
        ensures made { IfOk result (λ made. (query : QueryState) → HasLists self.entry query → tables.now ≡ query.tables
            → made ≡ query) }
        ensures refused { IfErr result (λ why. why ≡ NoMemory) }
    {
        let mut own_tables = Vec::new(alloc);
        own_tables.extend_from_slice(tables)?;
        if !self.is_complete {
            return Err(Refusal::NoMemory);
        }
        Ok(Query::new(
            own_tables,
            self.conditions,
            self.groups,
            self.items,
            self.keys,
        ))
    }
}

/// Puts an element behind the others of a list, where memory has lasted and lasts for it.
fn keep<T: Drop>(list: &mut Vec<T>, is_complete: &mut bool, element: T)
    ensures { IsTrue is_complete.new
        → IsTrue is_complete.old × (list.new.items ≡ list.old.items ++ element ∷ []) }
{
    *is_complete = *is_complete && list.push(element).is_ok();
}
