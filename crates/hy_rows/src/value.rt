//! Values of columns and of answers.

ghost use Rattle.std.specs.Prelude.{◌≡◌};

use std::marker::Model;

/// A text of a row or of a query, where it lies.
#[derive(Debug, Drop)]
pub struct Letters<'a> {
    bytes: &'a [u8],
}

// Clauses see its bytes.
impl<'a> Model for Letters<'a> {
    ghost use Rattle.std.specs.Prelude.{ℕ, List};

    ghost Value = { List ℕ };

    ghost view = { λ letters. letters.bytes.now };
}

impl<'a> Letters<'a> {
    /// The text with these bytes.
    pub fn new(bytes: &'a [u8]) -> Letters<'a>
        ensures { result ≡ bytes.now }
    {
        Letters { bytes }
    }

    /// Its bytes.
    pub fn as_bytes(&self) -> &'a [u8]
        ensures { result.now ≡ self.now }
    {
        self.bytes
    }
}

/// A value: a whole number, or a text.
#[derive(Debug, Drop)]
pub enum Value<'a> {
    /// A whole number.
    Whole(i128),
    /// A text.
    Text(Letters<'a>),
}

impl<'a> Value<'a> {
    /// The same value once more.
    pub fn copy(&self) -> Value<'a>
        ensures { result ≡ self.now }
    {
        match self {
            Value::Whole(number) => Value::Whole(*number),
            Value::Text(text) => Value::Text(Letters::new(text.as_bytes())),
        }
    }
}
