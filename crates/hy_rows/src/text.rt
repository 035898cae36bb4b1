//! Texts of a fixed width.

ghost use Rattle.std.specs.Prelude.{◌≡◌, ℕ, ◌==◌, ◌<◌, ◌≤◌, ◌↔◌, List, length, IsSome, IfSome, ◌++◌, take, drop};
ghost use Rattle.std.specs.List.{list_all};
ghost use Rattle.hy_rows.specs.Columns.{is_printable};
ghost use Rattle.hy_rows.specs.Ranges.{is_between};
ghost use Rattle.hy_rows.specs.Texts.{IsText, padded, text_of};

use std::marker::Model;

/// A text of at most `WIDTH` bytes, none of them zero, as it stands in a row: padded at its end with zero bytes.
/// A contract sees it as the list of its bytes.
#[derive(Clone, Copy, Debug, PartialEq, Eq)]
pub struct Text<const WIDTH: usize> {
    field: [u8; WIDTH],
}

impl<const WIDTH: usize> Model for Text<WIDTH> {
    ghost use Rattle.std.specs.Prelude.{ℕ, List, ◌≡◌};
    ghost use Rattle.std.proofs.Common.{ap};
    ghost use Rattle.hy_rows.specs.Texts.{padded, text_of};

    ghost Value = { List ℕ };

    ghost view = { λ text. text_of text.field };

    ghost invariant = { λ text. padded WIDTH (text_of text.field) ≡ text.field };

    ghost inverse = { λ bytes. record { field = padded WIDTH bytes } };

    ghost inverse_ok = { λ text same. ap (λ field. record { field = field }) same };
}

impl<const WIDTH: usize> Text<WIDTH> {
    /// The text with these bytes, if it fits and no byte is zero.
    pub fn new(bytes: &[u8]) -> Option<Text<WIDTH>>
        ensures fits { IsSome result ↔ IsText WIDTH bytes.now }
        ensures bytes { IfSome result (λ text. text ≡ bytes.now) }
    {
        if bytes.len() > WIDTH || bytes.contains(&0) {
            None
        } else {
            Some(Text::of_bytes(bytes))
        }
    }

    /// The text that a field of a row holds: what stands before its first zero byte.
    pub fn of_field(bytes: &[u8]) -> Text<WIDTH>
        requires { length bytes.now ≡ WIDTH }
        ensures { result ≡ text_of bytes.now }
    {
        let len = text_len(bytes);
        if has_only_zeros(&bytes[len..]) {
            Text {
                field: whole(bytes),
            }
        } else {
            Text::of_bytes(&bytes[..len])
        }
    }

    /// The text with these bytes, which fit and are none of them zero.
    pub fn of_bytes(bytes: &[u8]) -> Text<WIDTH>
        requires { IsText WIDTH bytes.now }
        ensures { result ≡ bytes.now }
    {
        Text {
            field: field_of(bytes),
        }
    }

    /// The field of a row that holds the text.
    pub fn field(&self) -> &[u8]
        ensures padded { result.now ≡ padded WIDTH self.now }
        ensures width { length result.now ≡ WIDTH }
        ensures text { IsText WIDTH self.now }
    {
        &self.field
    }

    /// The bytes of the text.
    pub fn as_bytes(&self) -> &[u8]
        ensures bytes { result.now ≡ self.now }
        ensures text { IsText WIDTH self.now }
    {
        let field = self.field();
        &field[..text_len(field)]
    }
}

/// Whether each byte is printable ASCII, from the space to the tilde.
pub fn is_printable(text: &[u8]) -> bool
    ensures { result ≡ is_printable text.now }
{
    text.iter().all(
        |byte: &u8| -> bool
            ensures { result ≡ is_between 32 126 byte.now }
        { (32..=126).contains(byte) },
    )
}

/// How many bytes stand before the first zero byte.
pub(crate) fn text_len(bytes: &[u8]) -> usize
    ensures within { result ≤ length bytes.now }
    ensures text { take result bytes.now ≡ text_of bytes.now }
{
    bytes
        .iter()
        .position(|byte| *byte == 0)
        .unwrap_or(bytes.len())
}

/// Whether each byte is zero.
fn has_only_zeros(bytes: &[u8]) -> bool
    ensures { result ≡ list_all (λ byte. byte == 0) bytes.now }
{
    bytes.iter().all(
        |byte: &u8| -> bool
            ensures { result ≡ (byte.now == 0) }
        { *byte == 0 },
    )
}

/// The bytes of a slice that has the width. The copy is of a width that the compiler knows.
fn whole<const WIDTH: usize>(bytes: &[u8]) -> [u8; WIDTH]
    requires { length bytes.now ≡ WIDTH }
    ensures { result ≡ bytes.now }
{
    let mut field = [0; WIDTH];
    field.copy_from_slice(&bytes[..WIDTH]);
    field
}

/// The bytes, with zeros behind them up to the width.
fn field_of<const WIDTH: usize>(bytes: &[u8]) -> [u8; WIDTH]
    requires { length bytes.now ≤ WIDTH }
    ensures { result ≡ padded WIDTH bytes.now }
{
    let mut field = [0; WIDTH];
    write_front(&mut field, bytes);
    field
}

/// Writes bytes over the first ones of a field.
fn write_front(field: &mut [u8], bytes: &[u8])
    requires { length bytes.now ≤ length field.old }
    ensures { field.new ≡ bytes.now ++ drop (length bytes.now) field.old }
{
    field[..bytes.len()].copy_from_slice(bytes);
}
