//! The bytes of columns in a slot.

ghost use Rattle.std.specs.Prelude.{◌≡◌, ℕ, ◌+◌, ◌-◌, ◌^◌, ◌<◌, ◌≤◌, List, [], ◌∷◌, ◌++◌, IfOk, length, replicate};
ghost use Rattle.arrayvec.specs.ArrayVec.{array_vec_len};
ghost use Rattle.hy_page.specs.Bytes.{bytes_of};
ghost use Rattle.hy_rows.specs.Columns.{number_at, signed_at, text_at, signed_bytes};
ghost use Rattle.hy_rows.specs.Texts.{IsText, padded};

use crate::long_text::LongText;
use crate::text::Text;
use arrayvec::ArrayVec;
use hy_page::number;
use std::alloc::{AllocError, Global};

/// Bytes that were put together.
pub trait ByteBuffer: Drop {
    /// The bytes.
    ghost bytes: { Self → List ℕ };

    /// The bytes.
    fn as_slice(&self) -> &[u8]
        ensures { result.now ≡ bytes self.now };
}

impl<const CAP: usize> ByteBuffer for ArrayVec<u8, CAP> {
    ghost bytes = { λ buffer. buffer.items };

    fn as_slice(&self) -> &[u8] {
        self.as_slice()
    }
}

/// The mark of a live row, with room for the row.
pub fn marked<const CAP: usize>() -> ArrayVec<u8, CAP>
    requires { 1 ≤ CAP }
    ensures bytes { result.items ≡ 1 ∷ [] }
    ensures len { array_vec_len result ≡ 1 }
{
    let mut slot = ArrayVec::new();
    slot.push(1);
    slot
}

/// Appends the first `width` bytes of a number, the lowest first.
pub fn push_number<const CAP: usize>(out: &mut ArrayVec<u8, CAP>, number: u64, width: usize)
    requires { array_vec_len out.old + width ≤ CAP }
    ensures bytes { out.new.items ≡ out.old.items ++ bytes_of width number }
    ensures len { array_vec_len out.new ≡ array_vec_len out.old + width }
{
    let mut rest = number;
    for _ in 0..width {
        out.push((rest % 256) as u8);
        rest /= 256;
    }
}

/// Appends a signed number in eight bytes.
pub fn push_signed<const CAP: usize>(out: &mut ArrayVec<u8, CAP>, number: i64)
    requires { array_vec_len out.old + 8 ≤ CAP }
    ensures bytes { out.new.items ≡ out.old.items ++ signed_bytes number }
    ensures len { array_vec_len out.new ≡ array_vec_len out.old + 8 }
{
    push_number(out, number.cast_unsigned(), 8);
}

/// Appends a text, padded to its width.
pub fn push_text<const WIDTH: usize, const CAP: usize>(
    out: &mut ArrayVec<u8, CAP>,
    text: &Text<WIDTH>,
)
    requires { array_vec_len out.old + WIDTH ≤ CAP }
    ensures bytes { out.new.items ≡ out.old.items ++ padded WIDTH text.now }
    ensures len { array_vec_len out.new ≡ array_vec_len out.old + WIDTH }
    ensures text { IsText WIDTH text.now }
{
    push_bytes(out, text.field());
}

/// Appends a text, padded to its width.
pub fn push_long_text<const WIDTH: usize, const CAP: usize>(
    out: &mut ArrayVec<u8, CAP>,
    text: &LongText<WIDTH>,
)
    requires { array_vec_len out.old + WIDTH ≤ CAP }
    ensures bytes { out.new.items ≡ out.old.items ++ padded WIDTH text.now }
    ensures len { array_vec_len out.new ≡ array_vec_len out.old + WIDTH }
    ensures text { IsText WIDTH text.now }
{
    let bytes = text.as_bytes();
    push_bytes(out, bytes);
    push_zeros(out, WIDTH - bytes.len());
}

/// Appends bytes.
fn push_bytes<const CAP: usize>(out: &mut ArrayVec<u8, CAP>, bytes: &[u8])
    requires { array_vec_len out.old + length bytes.now ≤ CAP }
    ensures bytes { out.new.items ≡ out.old.items ++ bytes.now }
    ensures len { array_vec_len out.new ≡ array_vec_len out.old + length bytes.now }
{
    match out.try_extend_from_slice(bytes) {
        Ok(()) => {}
        Err(_) => unreachable!(),
    }
}

/// Appends so many zero bytes.
fn push_zeros<const CAP: usize>(out: &mut ArrayVec<u8, CAP>, count: usize)
    requires { array_vec_len out.old + count ≤ CAP }
    ensures bytes { out.new.items ≡ out.old.items ++ replicate count 0 }
    ensures len { array_vec_len out.new ≡ array_vec_len out.old + count }
{
    for _ in 0..count {
        out.push(0);
    }
}

/// The number of `width` bytes at an offset.
pub fn read_number(bytes: &[u8], offset: usize, width: usize) -> u64
    requires within { offset + width ≤ length bytes.now }
    requires width { width ≤ 8 }
    ensures value { result ≡ number_at bytes.now offset width }
    ensures range { result < 256 ^ width }
{
    number(&bytes[offset..offset + width])
}

/// The signed number of eight bytes at an offset.
pub fn read_signed(bytes: &[u8], offset: usize) -> i64
    requires { offset + 8 ≤ length bytes.now }
    ensures { result ≡ signed_at bytes.now offset }
{
    read_number(bytes, offset, 8).cast_signed()
}

/// The text of a field of `WIDTH` bytes at an offset.
pub fn read_text<const WIDTH: usize>(bytes: &[u8], offset: usize) -> Text<WIDTH>
    requires { offset + WIDTH ≤ length bytes.now }
    ensures { result ≡ text_at bytes.now offset WIDTH }
{
    Text::of_field(&bytes[offset..offset + WIDTH])
}

/// The text of a field of `WIDTH` bytes at an offset. Only memory can lack.
pub fn read_long_text<const WIDTH: usize>(
    alloc: Global,
    bytes: &[u8],
    offset: usize,
) -> Result<LongText<WIDTH>, AllocError>
    requires { offset + WIDTH ≤ length bytes.now }
    ensures { IfOk result (λ text. text ≡ text_at bytes.now offset WIDTH) }
{
    LongText::of_field(alloc, &bytes[offset..offset + WIDTH])
}
