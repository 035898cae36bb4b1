//! Queries as values.

ghost use Rattle.std.specs.Prelude.{◌≡◌};
ghost use Rattle.hy_query.specs.Queries.{IsQuery};

use crate::column::Column;
use hy_rows::{Table, Value};
use std::marker::Model;

/// How two values are compared.
#[derive(Clone, Copy, Debug, PartialEq, Eq)]
pub enum Comparison {
    /// `=`.
    Equal,
    /// `<>`.
    NotEqual,
    /// `<`.
    Less,
    /// `<=`.
    LessOrEqual,
    /// `>`.
    Greater,
    /// `>=`.
    GreaterOrEqual,
}

/// What a column is compared with.
#[derive(Debug, Drop)]
pub enum Operand<'a> {
    /// Another column, or the same.
    Column(Column),
    /// A number or a text of the query.
    Value(Value<'a>),
}

/// A condition on the rows of the tables.
#[derive(Debug, Drop)]
pub struct Condition<'a> {
    /// The column.
    pub left: Column,
    /// How it is compared.
    pub comparison: Comparison,
    /// What it is compared with.
    pub right: Operand<'a>,
}

/// What stands at a place of each row of an answer.
#[derive(Clone, Copy, Debug, PartialEq, Eq)]
pub enum SelectItem {
    /// The value of a column.
    Column(Column),
    /// How many rows a group has.
    Count,
    /// The sum of a column over a group.
    Sum(Column),
    /// The least value of a column in a group.
    Min(Column),
    /// The greatest one.
    Max(Column),
}

/// A key by which the rows of an answer are sorted.
#[derive(Clone, Copy, Debug, PartialEq, Eq)]
pub struct SortKey {
    /// The place of the value in a row, from 1.
    pub place: usize,
    /// Whether the greatest comes first.
    pub descending: bool,
}

/// A query: tables, conditions on their rows, the columns by which rows are grouped, what is answered of each row or
/// group, and the keys by which the answer is sorted. It borrows its texts from the text that it was read from, and
/// nothing but `parse_query` makes one.
#[derive(Debug, Drop)]
pub struct Query<'a> {
    tables: Vec<Table>,
    conditions: Vec<Condition<'a>>,
    groups: Vec<Column>,
    items: Vec<SelectItem>,
    keys: Vec<SortKey>,
}

// Clauses see the lists.
impl<'a> Model for Query<'a> {
    ghost use Rattle.hy_query.specs.Queries.{IsQuery, QueryState};

    ghost Value = { QueryState };

    ghost view = { λ query. record {
      tables = query.tables.items;
      conditions = query.conditions.items;
      groups = query.groups.items;
      items = query.items.items;
      keys = query.keys.items;
    } };

    ghost invariant = { λ query. IsQuery (record {
      tables = query.tables.items;
      conditions = query.conditions.items;
      groups = query.groups.items;
      items = query.items.items;
      keys = query.keys.items;
    }) };
}

impl<'a> Query<'a> {
    /// The query with these parts.
    pub(crate) fn new(
        tables: Vec<Table>,
        conditions: Vec<Condition<'a>>,
        groups: Vec<Column>,
        items: Vec<SelectItem>,
        keys: Vec<SortKey>,
    ) -> Query<'a>
        requires { IsQuery (record {
          tables = tables.items;
          conditions = conditions.items;
          groups = groups.items;
          items = items.items;
          keys = keys.items;
        }) }
        ensures { result ≡ record {
          tables = tables.items;
          conditions = conditions.entry.items;
          groups = groups.items;
          items = items.items;
          keys = keys.items;
        } }
    {
        Query {
            tables,
            conditions,
            groups,
            items,
            keys,
        }
    }

    /// The tables, the outermost first.
    pub fn tables(&self) -> &[Table]
        ensures { result.now ≡ self.now.tables }
    {
        &self.tables
    }

    /// The conditions that rows meet.
    pub fn conditions(&self) -> &[Condition<'a>]
        ensures { result.now ≡ self.now.conditions }
    {
        &self.conditions
    }

    /// The columns by which rows are grouped; none where they aren't.
    pub fn groups(&self) -> &[Column]
        ensures { result.now ≡ self.now.groups }
    {
        &self.groups
    }

    /// What is answered of each row or group.
    pub fn items(&self) -> &[SelectItem]
        ensures { result.now ≡ self.now.items }
    {
        &self.items
    }

    /// The keys by which the answer is sorted, the first one first.
    pub fn keys(&self) -> &[SortKey]
        ensures { result.now ≡ self.now.keys }
    {
        &self.keys
    }

    /// What holds of every query.
    pub fn sound(&self)
        ensures { IsQuery self.now }
    {
        let _tables = &self.tables;
    }
}
