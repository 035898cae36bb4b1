//! The query language: which texts are queries, and which queries they are.
#![tactic(auto)]

mod column;
mod column_set;
mod draft;
mod lists;
mod names;
mod outline;
mod parse;
mod query;
mod tables;
mod tokens;
mod words;

pub use column::{Column, Kind};
pub use hy_rows::{Letters, Value};
pub use parse::parse_query;
pub use query::{Comparison, Condition, Operand, Query, SelectItem, SortKey};
