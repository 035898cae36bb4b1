//! A query that is being read: what each token adds to it, and what may come behind it.

ghost use Rattle.std.specs.Prelude.{◌≡◌, ◌<◌, IfOk, IfErr, IsSome, Some, None, if◌then◌else◌, length, option_and_then};
ghost use Rattle.hy_schema.specs.declared.refusal.Refusal.TheVariants.{NoMemory};
ghost use Rattle.hy_query.specs.Columns.{column_among, kind_of};
ghost use Rattle.hy_query.specs.Language.{after, aggregate_after, aggregate_named, aggregate_of, behind_conditions, ended, kind_of_operand, may_aggregate, plain_after, with_item, with_key};
ghost use Rattle.hy_query.specs.declared.draft.Draft.{Draft};
ghost use Rattle.hy_query.specs.declared.query.SelectItem.TheVariants as items;
ghost use Rattle.hy_query.specs.Queries.{IsQuery, QueryState, no_query};
ghost use Rattle.hy_query.specs.inside.Drafts.{Ends, IsReady, StandsFor, Takes};
ghost use Rattle.hy_query.specs.declared.parse.Next.TheVariants as nexts;

use crate::column::{Column, Kind};
use crate::lists::Lists;
use crate::names::{column_among, table_named};
use crate::outline::Outline;
use crate::parse::{Aggregate, Next};
use crate::query::{Comparison, Condition, Operand, Query, SelectItem, SortKey};
use crate::words::{aggregate_named, comparison_named, operand_of};
use hy_decimal::number;
use hy_rows::Value;
use hy_schema::Refusal;
use std::alloc::Global;

/// What was read so far. It goes on to the end of the text also where memory lacks: whether the text is a query doesn't
/// depend on memory.
#[derive(Debug, Drop)]
pub(crate) struct Draft<'a> {
    outline: Outline,
    lists: Lists<'a>,
}

impl<'a> Draft<'a> {
    /// Nothing was read.
    pub(crate) fn new(alloc: Global) -> Draft<'a>
        ensures { StandsFor result no_query }
    {
        Draft {
            outline: Outline::new(),
            lists: Lists::new(alloc),
        }
    }

    /// Takes one token more, and says what is to come behind it; nothing where the token can't stand there.
    pub(crate) fn take(&mut self, next: Next, word: &'a [u8]) -> Option<Next>
        requires { IsReady self.old next }
        ensures { Takes self.old self.new result (λ query. after query next word.now) }
    {
        match next {
            Next::From => from(word),
            Next::Table => self.table(word),
            Next::BehindTable => self.behind_table(word),
            Next::Left => self.left(word),
            Next::Comparison(left) => comparison(left, word),
            Next::Right(left, comparison) => self.right(left, comparison, word),
            Next::BehindCondition => behind_condition(word),
            Next::Group => self.group(word),
            Next::BehindGroup => behind_group(word),
            Next::Item => self.item(word),
            Next::Of(aggregate) => self.of_aggregate(aggregate, word),
            Next::BehindItem => behind_item(word),
            Next::Key => self.key(word),
            Next::BehindKey(place) => self.behind_key(place, word),
            Next::BehindDescending => behind_descending(word),
        }
    }

    /// Takes the end of the text, and says whether it can stand there.
    pub(crate) fn end(&mut self, next: Next) -> bool
        ensures { (query : QueryState) → StandsFor self.old query → Ends (ended (query, next)) self.new result }
    {
        match next {
            Next::BehindItem | Next::BehindDescending => true,
            Next::BehindKey(place) => {
                self.add_key(place, false);
                true
            }
            _ => false,
        }
    }

    /// A table.
    fn table(&mut self, word: &[u8]) -> Option<Next>
        requires { length self.old.outline.tables < 4 }
        ensures { Takes self.old self.new result (λ query. after query nexts.Table word.now) }
    {
        let table = table_named(word)?;
        if self.outline.has_table(table) {
            return None;
        }
        self.outline.add_table(table);
        Some(Next::BehindTable)
    }

    /// A comma, `where`, `group` or `select`.
    fn behind_table(&self, word: &[u8]) -> Option<Next>
        ensures { Takes self.now self.now result (λ query. after query nexts.BehindTable word.now) }
    {
        if word == b",".as_slice() {
            return self.outline.has_room().then_some(Next::Table);
        }
        if word == b"where".as_slice() {
            return Some(Next::Left);
        }
        behind_conditions(word)
    }

    /// The left column of a condition.
    fn left(&self, word: &[u8]) -> Option<Next>
        ensures { Takes self.now self.now result (λ query. after query nexts.Left word.now) }
    {
        let column = column_among(self.outline.tables(), word)?;
        Some(Next::Comparison(column))
    }

    /// What a column is compared with.
    fn right(&mut self, left: Column, comparison: Comparison, word: &'a [u8]) -> Option<Next>
        requires { IsSome (kind_of left) }
        ensures { Takes self.old self.new result (λ query. after query (nexts.Right left comparison) word.now) }
    {
        let right = operand_of(self.outline.tables(), word)?;
        if left.kind() != kind_of_operand(&right) {
            return None;
        }
        self.lists.push_condition(Condition {
            left,
            comparison,
            right,
        });
        Some(Next::BehindCondition)
    }

    /// A column by which rows are grouped.
    fn group(&mut self, word: &[u8]) -> Option<Next>
        ensures { Takes self.old self.new result (λ query. after query nexts.Group word.now) }
    {
        let column = column_among(self.outline.tables(), word)?;
        self.outline.add_group(column);
        self.lists.push_group(column);
        Some(Next::BehindGroup)
    }

    /// An item of the answer, or its beginning.
    fn item(&mut self, word: &[u8]) -> Option<Next>
        ensures { Takes self.old self.new result (λ query. after query nexts.Item word.now) }
    {
        if word == b"count".as_slice() {
            return self.count();
        }
        match self.aggregate(word) {
            Some(next) => Some(next),
            None => self.plain(word),
        }
    }

    /// `count`.
    fn count(&mut self) -> Option<Next>
        ensures { Takes self.old self.new result (λ query.
            if may_aggregate query then Some (with_item query items.Count, nexts.BehindItem) else None) }
    {
        if !self.outline.may_aggregate() {
            return None;
        }
        self.add_item(SelectItem::Count);
        Some(Next::BehindItem)
    }

    /// The name of an aggregate.
    fn aggregate(&self, word: &[u8]) -> Option<Next>
        ensures { Takes self.now self.now result
            (λ query. option_and_then (aggregate_after query) (aggregate_named word.now)) }
    {
        let aggregate = aggregate_named(word)?;
        self.outline.may_aggregate().then_some(Next::Of(aggregate))
    }

    /// A column as it is.
    fn plain(&mut self, word: &[u8]) -> Option<Next>
        ensures { Takes self.old self.new result
            (λ query. option_and_then (plain_after query) (column_among query.tables word.now)) }
    {
        let column = column_among(self.outline.tables(), word)?;
        if !self.outline.may_be_plain(column) {
            return None;
        }
        self.add_item(SelectItem::Column(column));
        Some(Next::BehindItem)
    }

    /// The column of an aggregate.
    fn of_aggregate(&mut self, aggregate: Aggregate, word: &[u8]) -> Option<Next>
        ensures { Takes self.old self.new result (λ query. after query (nexts.Of aggregate) word.now) }
    {
        let column = column_among(self.outline.tables(), word)?;
        let item = aggregate_of(aggregate, column)?;
        self.add_item(item);
        Some(Next::BehindItem)
    }

    /// The place of an item, by which the answer is sorted.
    fn key(&self, word: &[u8]) -> Option<Next>
        ensures { Takes self.now self.now result (λ query. after query nexts.Key word.now) }
    {
        let place = number(word)? as usize;
        self.outline
            .has_item(place)
            .then_some(Next::BehindKey(place))
    }

    /// `desc`, or a comma.
    fn behind_key(&mut self, place: usize, word: &[u8]) -> Option<Next>
        ensures { Takes self.old self.new result (λ query. after query (nexts.BehindKey place) word.now) }
    {
        if word == b",".as_slice() {
            self.add_key(place, false);
            return Some(Next::Key);
        }
        if word == b"desc".as_slice() {
            self.add_key(place, true);
            return Some(Next::BehindDescending);
        }
        None
    }

    /// Adds an item.
    fn add_item(&mut self, item: SelectItem)
        ensures { (query : QueryState) → StandsFor self.old query → StandsFor self.new (with_item query item) }
    {
        self.outline.add_item(item);
        self.lists.push_item(item);
    }

    /// Adds a key.
    fn add_key(&mut self, place: usize, descending: bool)
        ensures { (query : QueryState) → StandsFor self.old query
            → StandsFor self.new (with_key query place descending) }
    {
        self.lists.push_key(SortKey { place, descending });
    }

    /// The query that it stands for, where memory lasts for it.
    pub(crate) fn into_query(self, alloc: Global) -> Result<Query<'a>, Refusal>
        requires { (query : QueryState) × StandsFor self query × IsQuery query }
        ensures made { IfOk result (λ made. (query : QueryState) → StandsFor self.entry query → made ≡ query) }
        ensures refused { IfErr result (λ why. why ≡ NoMemory) }
    {
        self.lists.into_query(alloc, self.outline.tables())
    }
}

/// `from`.
fn from(word: &[u8]) -> Option<Next>
    ensures { (draft : Draft) → Takes draft draft result (λ query. after query nexts.From word.now) }
{
    (word == b"from".as_slice()).then_some(Next::Table)
}

/// `group` or `select`.
fn behind_conditions(word: &[u8]) -> Option<Next>
    ensures { (draft : Draft) → Takes draft draft result (λ query. behind_conditions query word.now) }
{
    if word == b"group".as_slice() {
        return Some(Next::Group);
    }
    (word == b"select".as_slice()).then_some(Next::Item)
}

/// A comparison sign.
fn comparison(left: Column, word: &[u8]) -> Option<Next>
    ensures { (draft : Draft) → Takes draft draft result (λ query. after query (nexts.Comparison left) word.now) }
{
    let comparison = comparison_named(word)?;
    Some(Next::Right(left, comparison))
}

/// `and`, `group` or `select`.
fn behind_condition(word: &[u8]) -> Option<Next>
    ensures { (draft : Draft) → Takes draft draft result (λ query. after query nexts.BehindCondition word.now) }
{
    if word == b"and".as_slice() {
        return Some(Next::Left);
    }
    behind_conditions(word)
}

/// A comma, or `select`.
fn behind_group(word: &[u8]) -> Option<Next>
    ensures { (draft : Draft) → Takes draft draft result (λ query. after query nexts.BehindGroup word.now) }
{
    if word == b",".as_slice() {
        return Some(Next::Group);
    }
    (word == b"select".as_slice()).then_some(Next::Item)
}

/// A comma, or `order`.
fn behind_item(word: &[u8]) -> Option<Next>
    ensures { (draft : Draft) → Takes draft draft result (λ query. after query nexts.BehindItem word.now) }
{
    if word == b",".as_slice() {
        return Some(Next::Item);
    }
    (word == b"order".as_slice()).then_some(Next::Key)
}

/// A comma.
fn behind_descending(word: &[u8]) -> Option<Next>
    ensures { (draft : Draft) → Takes draft draft result (λ query. after query nexts.BehindDescending word.now) }
{
    (word == b",".as_slice()).then_some(Next::Key)
}

/// An aggregate of a column; a sum only of whole numbers.
fn aggregate_of(aggregate: Aggregate, column: Column) -> Option<SelectItem>
    requires { IsSome (kind_of column) }
    ensures { result ≡ aggregate_of aggregate column }
{
    match aggregate {
        Aggregate::Sum => match column.kind() {
            Kind::Whole => Some(SelectItem::Sum(column)),
            Kind::Text => None,
        },
        Aggregate::Min => Some(SelectItem::Min(column)),
        Aggregate::Max => Some(SelectItem::Max(column)),
    }
}

/// What the values of an operand are.
fn kind_of_operand(operand: &Operand<'_>) -> Kind
    requires { IsSome (kind_of_operand operand.now) }
    ensures { kind_of_operand operand.now ≡ Some result }
{
    match operand {
        Operand::Column(column) => column.kind(),
        Operand::Value(Value::Whole(_)) => Kind::Whole,
        Operand::Value(Value::Text(_)) => Kind::Text,
    }
}
