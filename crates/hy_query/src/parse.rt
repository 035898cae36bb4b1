//! Reading a query from a text, token by token.

ghost use Rattle.std.specs.Prelude.{◌≡◌, IfOk, IfErr, MatchResult, Ok, fold};
ghost use Rattle.hy_schema.specs.declared.refusal.Refusal.TheVariants.{BadQuery, NoMemory};
ghost use Rattle.hy_query.specs.Language.{query_of, take_token};
ghost use Rattle.hy_query.specs.Queries.{no_query};
ghost use Rattle.hy_query.specs.Tokens.{tokens};
ghost use Rattle.hy_query.specs.declared.parse.Next.TheVariants as nexts;
ghost use Rattle.hy_query.specs.inside.Drafts.{Reads, StandsFor};

use crate::column::Column;
use crate::draft::Draft;
use crate::query::{Comparison, Query};
use crate::tokens::Tokens;
use hy_schema::Refusal;
use std::alloc::Global;

/// The query that a text says. E13 exactly where it says none, with the place of the byte at which the first token
/// starts that can't stand there, or the length of the text where it ends too early; where it says one, E1 alone may
/// refuse it.
pub fn parse_query<'a>(alloc: Global, text: &'a [u8]) -> Result<Query<'a>, Refusal>
    ensures query { IfOk result (λ query. query_of text.now ≡ Ok query) }
    ensures refused { IfErr result (λ why. MatchResult (query_of text.now) (λ query. why ≡ NoMemory)
        (λ place. why ≡ BadQuery place)) }
{
    let mut draft = Draft::new(alloc);
    let next = match read_tokens(&mut draft, text) {
        Ok(next) => next,
        Err(place) => return Err(Refusal::BadQuery(place as u64)),
    };
    if !draft.end(next) {
        return Err(Refusal::BadQuery(text.len() as u64));
    }
    draft.into_query(alloc)
}

/// Reads all tokens of a text, and says what is to come behind them; else the place of the first that can't stand where
/// it does.
fn read_tokens<'a>(draft: &mut Draft<'a>, text: &'a [u8]) -> Result<Next, usize>
    requires { StandsFor draft.old no_query }
    ensures { Reads (fold take_token (Ok (no_query, nexts.From)) (tokens text.now)) draft.new result }
{
    let mut tokens = Tokens::new(text);
    let mut next = Next::From;
    while let Some(token) = tokens.next_token() {
        next = match draft.take(next, token.word) {
            Some(behind) => behind,
            None => return Err(token.place),
        };
    }
    Ok(next)
}

/// An aggregate over a column.
#[derive(Clone, Copy, Debug, PartialEq, Eq)]
pub(crate) enum Aggregate {
    /// `sum`.
    Sum,
    /// `min`.
    Min,
    /// `max`.
    Max,
}

/// What is to come behind the tokens that were read.
#[derive(Clone, Copy, Debug, PartialEq, Eq)]
pub(crate) enum Next {
    /// `from`.
    From,
    /// A table.
    Table,
    /// A comma, `where`, `group` or `select`.
    BehindTable,
    /// The left column of a condition.
    Left,
    /// A comparison sign.
    Comparison(Column),
    /// What a column is compared with.
    Right(Column, Comparison),
    /// `and`, `group` or `select`.
    BehindCondition,
    /// A column by which rows are grouped.
    Group,
    /// A comma, or `select`.
    BehindGroup,
    /// An item of the answer.
    Item,
    /// The column of an aggregate.
    Of(Aggregate),
    /// A comma, `order`, or the end.
    BehindItem,
    /// The place of an item, by which the answer is sorted.
    Key,
    /// `desc`, a comma, or the end.
    BehindKey(usize),
    /// A comma, or the end.
    BehindDescending,
}
