//! What a column is.

ghost use Rattle.std.specs.Prelude.{◌≡◌, ◌^◌, ◌<◌, bytes_eq, map, pos};
ghost use Rattle.std.specs.List.{list_any};
ghost use Rattle.hy_rows.specs.Columns.{allows, defined, row_width, width_of};
ghost use Rattle.hy_rows.specs.declared.value.Value.TheVariants.{Text as TextValue, Whole};

use crate::text::is_printable;

/// Which values a column has, how they lie in a row, and which of them a loaded row may have.
#[derive(Clone, Copy, Debug, PartialEq, Eq)]
pub enum Domain {
    /// Whole numbers without sign, in `width` bytes with the lowest first: from `low` to `high`.
    Unsigned {
        width: usize,
        low: u64,
        high: u64,
    },
    /// Whole numbers in eight bytes of two's complement: from `low` to `high`.
    Signed {
        low: i64,
        high: i64,
    },
    /// Texts in a field of `width` bytes: printable ones.
    Text {
        width: usize,
    },
    /// Texts in a field of `width` bytes: one of `words`.
    OneOf {
        width: usize,
        words: &'static [&'static [u8]],
    },
}

/// A column of a table.
#[derive(Clone, Copy, Debug, PartialEq, Eq)]
pub struct ColumnDefinition {
    /// Its name, as TPC-C writes it (clause 1.3).
    pub name: &'static [u8],
    /// Which values it has.
    pub domain: Domain,
}

impl ColumnDefinition {
    /// How many bytes a value takes in a row.
    pub fn width(&self) -> usize
        ensures { result ≡ width_of (defined self.now).domain }
    {
        match self.domain {
            Domain::Signed { .. } => 8,
            Domain::Unsigned { width, .. } | Domain::Text { width } | Domain::OneOf { width, .. } =>
                width,
        }
    }

    /// Whether a loaded row may have this number without sign.
    pub fn allows_number(&self, number: u64) -> bool
        ensures { result ≡ allows (defined self.now).domain (Whole (pos number)) }
    {
        match self.domain {
            Domain::Unsigned { low, high, .. } => low <= number && number <= high,
            Domain::Signed { low, high } => {
                let number = i128::from(number);
                i128::from(low) <= number && number <= i128::from(high)
            }
            Domain::Text { .. } | Domain::OneOf { .. } => false,
        }
    }

    /// Whether a loaded row may have this number with a sign.
    pub fn allows_signed(&self, number: i64) -> bool
        ensures { result ≡ allows (defined self.now).domain (Whole number) }
    {
        match self.domain {
            Domain::Signed { low, high } => low <= number && number <= high,
            Domain::Unsigned { low, high, .. } => match u64::try_from(number) {
                Ok(number) => low <= number && number <= high,
                Err(_) => false,
            },
            Domain::Text { .. } | Domain::OneOf { .. } => false,
        }
    }

    /// Whether a loaded row may have this text.
    pub fn allows_text(&self, text: &[u8]) -> bool
        ensures { result ≡ allows (defined self.now).domain (TextValue text.now) }
    {
        match self.domain {
            Domain::Text { width } => text.len() <= width && is_printable(text),
            Domain::OneOf { words, .. } => is_one_of(words, text),
            Domain::Unsigned { .. } | Domain::Signed { .. } => false,
        }
    }
}

/// Whether a text is one of these. Out of line: few columns ask, and the others are tested faster without it.
#[inline(never)]
fn is_one_of(words: &[&[u8]], text: &[u8]) -> bool
    ensures { result ≡ list_any (λ word. bytes_eq word text.now) (map (λ word. word.now) words.now) }
{
    words.iter().any(|word| *word == text)
}

/// How many bytes the columns take in a row, one behind another.
pub fn row_width(columns: &[ColumnDefinition]) -> usize
    requires { row_width (map defined columns.now) < 2 ^ 32 }
    ensures { result ≡ row_width (map defined columns.now) }
{
    let mut width = 0;
    for column in columns {
        width += column.width();
    }
    width
}
