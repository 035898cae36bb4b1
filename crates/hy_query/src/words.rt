//! What single tokens say.

ghost use Rattle.std.specs.Prelude.{◌≡◌, IfSome, IsSome, option_map};
ghost use Rattle.hy_query.specs.Language.{aggregate_named, comparison_named, kind_of_operand, operand_of, quoted, text_of, value_of, whole_of};

use crate::names::column_among;
use crate::parse::Aggregate;
use crate::query::{Comparison, Operand};
use hy_decimal::number;
use hy_rows::{Letters, Table, Value};

/// The comparison with a sign.
pub(crate) fn comparison_named(word: &[u8]) -> Option<Comparison>
    ensures { result ≡ comparison_named word.now }
{
    if word == b"=".as_slice() {
        Some(Comparison::Equal)
    } else if word == b"<>".as_slice() {
        Some(Comparison::NotEqual)
    } else if word == b"<".as_slice() {
        Some(Comparison::Less)
    } else if word == b"<=".as_slice() {
        Some(Comparison::LessOrEqual)
    } else if word == b">".as_slice() {
        Some(Comparison::Greater)
    } else if word == b">=".as_slice() {
        Some(Comparison::GreaterOrEqual)
    } else {
        None
    }
}

/// The aggregate with a name.
pub(crate) fn aggregate_named(word: &[u8]) -> Option<Aggregate>
    ensures { result ≡ aggregate_named word.now }
{
    if word == b"sum".as_slice() {
        Some(Aggregate::Sum)
    } else if word == b"min".as_slice() {
        Some(Aggregate::Min)
    } else if word == b"max".as_slice() {
        Some(Aggregate::Max)
    } else {
        None
    }
}

/// What a column is compared with: a number, a text, or a column of one of these tables.
pub(crate) fn operand_of<'a>(tables: &[Table], word: &'a [u8]) -> Option<Operand<'a>>
    ensures same { result ≡ operand_of tables.now word.now }
    ensures known { IfSome result (λ operand. IsSome (kind_of_operand operand)) }
{
    if let Some(value) = value_of(word) {
        return Some(Operand::Value(value));
    }
    let column = column_among(tables, word)?;
    Some(Operand::Column(column))
}

/// The number or the text that a word says.
fn value_of<'a>(word: &'a [u8]) -> Option<Value<'a>>
    ensures { result ≡ value_of word.now }
{
    if let Some(number) = whole_of(word) {
        return Some(Value::Whole(number));
    }
    let text = text_of(word)?;
    Some(Value::Text(Letters::new(text)))
}

/// The whole number of 64 bits that a word says, with its sign.
fn whole_of(word: &[u8]) -> Option<i128>
    ensures { result ≡ whole_of word.now }
{
    let (first, digits) = word.split_first()?;
    if *first == b'-' {
        let magnitude = number(digits)?;
        (1..=1 << 63)
            .contains(&magnitude)
            .then_some(-i128::from(magnitude))
    } else {
        let magnitude = number(word)?;
        (magnitude < 1 << 63).then_some(i128::from(magnitude))
    }
}

/// The text that a word has in quotes.
fn text_of<'a>(word: &'a [u8]) -> Option<&'a [u8]>
    ensures { option_map (λ text. text.now) result ≡ text_of word.now }
{
    let (first, later) = word.split_first()?;
    if *first == b'\'' { quoted(later) } else { None }
}

/// The text in front of the quote that closes it.
fn quoted<'a>(text: &'a [u8]) -> Option<&'a [u8]>
    ensures { option_map (λ letters. letters.now) result ≡ quoted text.now }
{
    let (last, letters) = text.split_last()?;
    if *last != b'\'' || letters.contains(&b'\'') {
        return None;
    }
    Some(letters)
}
