//! Long texts, which take memory of their own.

ghost use Rattle.std.specs.Prelude.{◌≡◌, IfOk, length};
ghost use Rattle.hy_rows.specs.Texts.{IsText, text_of};

use crate::text::text_len;
use std::alloc::{AllocError, Global};
use std::marker::Model;

/// A text of at most `WIDTH` bytes, none of them zero, which takes no memory where it is empty. A contract sees it as the
/// list of its bytes.
#[derive(Debug, Drop)]
pub struct LongText<const WIDTH: usize> {
    bytes: Vec<u8>,
}

impl<const WIDTH: usize> Model for LongText<WIDTH> {
    ghost use Rattle.std.specs.Prelude.{ℕ, List};
    ghost use Rattle.hy_rows.specs.Texts.{IsText};

    ghost Value = { List ℕ };

    ghost view = { λ text. text.bytes.items };

    ghost invariant = { λ text. IsText WIDTH text.bytes.items };
}

impl<const WIDTH: usize> LongText<WIDTH> {
    /// The text with these bytes, which fit and are none of them zero.
    pub fn of_bytes(alloc: Global, bytes: &[u8]) -> Result<LongText<WIDTH>, AllocError>
        requires { IsText WIDTH bytes.now }
        ensures { IfOk result (λ text. text ≡ bytes.now) }
    {
        Ok(LongText {
            bytes: Vec::from_slice(alloc, bytes)?,
        })
    }

    /// The text that a field of a row holds: what stands before its first zero byte.
    pub fn of_field(alloc: Global, bytes: &[u8]) -> Result<LongText<WIDTH>, AllocError>
        requires { length bytes.now ≡ WIDTH }
        ensures { IfOk result (λ text. text ≡ text_of bytes.now) }
    {
        LongText::of_bytes(alloc, &bytes[..text_len(bytes)])
    }

    /// The bytes of the text.
    pub fn as_bytes(&self) -> &[u8]
        ensures bytes { result.now ≡ self.now }
        ensures text { IsText WIDTH self.now }
    {
        &self.bytes
    }

    /// Another text with the same bytes.
    pub fn copy(&self, alloc: Global) -> Result<LongText<WIDTH>, AllocError>
        ensures { IfOk result (λ copy. copy ≡ self.now) }
    {
        LongText::of_bytes(alloc, self.as_bytes())
    }
}

impl<const WIDTH: usize> PartialEq for LongText<WIDTH> {
    ghost use Rattle.std.specs.Prelude.{nat_eq};
    ghost use Rattle.std.specs.Cmp.{partial_equiv_from_equiv};
    ghost use Rattle.std.specs.Cmp.Lexicographic.{nat_list_eq_equiv, pointwise};

    ghost eq = { λ text other. pointwise nat_eq text other };

    ghost laws = { partial_equiv_from_equiv nat_list_eq_equiv };

    fn eq(&self, other: &LongText<WIDTH>) -> bool {
        self.as_bytes() == other.as_bytes()
    }
}

impl<const WIDTH: usize> Eq for LongText<WIDTH> {
    ghost use Rattle.std.specs.Cmp.Lexicographic.{nat_list_eq_equiv};

    ghost laws = { nat_list_eq_equiv };
}
