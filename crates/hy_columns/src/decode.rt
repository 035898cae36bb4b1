//! How the value of a column is read from the bytes of a row.

ghost use Rattle.std.specs.Prelude.{◌≡◌};
ghost use Rattle.hy_rows.specs.Texts.{text_of};

use hy_page::number;

/// What reads the values of a column, each from the bytes of its row.
pub(crate) trait Decode<'a>: Copy {
    ghost use Rattle.std.specs.Prelude.{◌≡◌, ℕ, List, length};
    ghost use Rattle.hy_rows.specs.declared.value.Value.{Value};

    /// What a value is read as.
    type Output: Copy;

    /// The column lies within rows of so many bytes.
    ghost fits: { Self → ℕ → Type 0 };

    /// The value that stands in the bytes of a row.
    ghost value_in: { Self → List ℕ → Value };

    /// The value that was read.
    ghost value_of: { Self.Output → Value };

    /// The value in the bytes of a row.
    fn decode(&self, row: &'a [u8]) -> Self::Output
        requires { fits self.now (length row.now) }
        ensures { value_of result ≡ value_in self.now row.now };
}

/// A number of `WIDTH` bytes, which stands at this offset.
#[derive(Clone, Copy)]
pub(crate) struct Unsigned<const WIDTH: usize>(pub(crate) usize);

impl<'a, const WIDTH: usize> Decode<'a> for Unsigned<WIDTH> {
    ghost use Rattle.std.specs.Prelude.{pos, ◌+◌, ◌≤◌};
    ghost use Rattle.hy_rows.specs.Columns.{number_at};
    ghost use Rattle.hy_rows.specs.declared.value.Value.TheVariants.{Whole};

    type Output = u64;

    ghost fits = { λ number row_bytes. (number.0 + WIDTH ≤ row_bytes) × (WIDTH ≤ 8) };

    ghost value_in = { λ number row. Whole (pos (number_at row number.0 WIDTH)) };

    ghost value_of = { λ value. Whole (pos value) };

    fn decode(&self, row: &'a [u8]) -> u64 {
        number(&row[self.0..self.0 + WIDTH])
    }
}

/// A signed number of eight bytes, which stands at this offset.
#[derive(Clone, Copy)]
pub(crate) struct Signed(pub(crate) usize);

impl<'a> Decode<'a> for Signed {
    ghost use Rattle.std.specs.Prelude.{◌+◌, ◌≤◌};
    ghost use Rattle.hy_rows.specs.Columns.{signed_at};
    ghost use Rattle.hy_rows.specs.declared.value.Value.TheVariants.{Whole};

    type Output = i64;

    ghost fits = { λ number row_bytes. number.0 + 8 ≤ row_bytes };

    ghost value_in = { λ number row. Whole (signed_at row number.0) };

    ghost value_of = { λ value. Whole value };

    fn decode(&self, row: &'a [u8]) -> i64 {
        number(&row[self.0..self.0 + 8]).cast_signed()
    }
}

/// A text in a field of so many bytes, which stands at an offset.
#[derive(Clone, Copy)]
pub(crate) struct Padded {
    pub(crate) offset: usize,
    pub(crate) width: usize,
}

impl<'a> Decode<'a> for Padded {
    ghost use Rattle.std.specs.Prelude.{◌+◌, ◌≤◌};
    ghost use Rattle.hy_rows.specs.Columns.{text_at};
    ghost use Rattle.hy_rows.specs.declared.value.Value.TheVariants.{Text};

    type Output = &'a [u8];

    ghost fits = { λ text row_bytes. text.offset + text.width ≤ row_bytes };

    ghost value_in = { λ text row. Text (text_at row text.offset text.width) };

    ghost value_of = { λ value. Text value.now };

    fn decode(&self, row: &'a [u8]) -> &'a [u8] {
        text_in(&row[self.offset..self.offset + self.width])
    }
}

/// The text that a field holds: what stands before its first zero byte.
pub(crate) fn text_in(field: &[u8]) -> &[u8]
    ensures { result.now ≡ text_of field.now }
{
    let len = field
        .iter()
        .position(|byte| *byte == 0)
        .unwrap_or(field.len());
    &field[..len]
}
