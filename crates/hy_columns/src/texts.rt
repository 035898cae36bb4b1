//! Texts that are owned.

ghost use Rattle.std.specs.Prelude.{◌≡◌, ◌==◌, ◌+◌, ◌^◌, ◌<◌, ◌≤◌, ◌∷◌, ◌++◌, [], All, OnErr, OnOk, length};
ghost use Rattle.hy_page.specs.Bytes.{bytes_at};
ghost use Rattle.hy_rows.specs.Spelling.{list_at, slot_bytes};
ghost use Rattle.hy_rows.specs.Texts.{text_of};
ghost use Rattle.hy_columns.specs.inside.Texts.{AreEnds, begin_of, texts_from};

use crate::joined::copy_text;
use hy_frames::Hold;
use std::alloc::{AllocError, Global};
use std::marker::Model;

/// Texts in one buffer, one behind another, with the place at which each ends.
#[derive(Debug, Drop)]
pub struct CopiedTexts {
    bytes: Vec<u8>,
    ends: Vec<usize>,
}

// Clauses see the texts.
impl Model for CopiedTexts {
    ghost use Rattle.std.specs.Prelude.{ℕ, List, length};
    ghost use Rattle.hy_columns.specs.inside.Texts.{AreEnds, texts_from};

    ghost Value = { List (List ℕ) };

    ghost view = { λ texts. texts_from texts.bytes.items 0 texts.ends.items };

    ghost invariant = { λ texts. AreEnds 0 texts.ends.items (length texts.bytes.items) };
}

impl CopiedTexts {
    /// No texts. Takes no memory.
    pub fn new(alloc: Global) -> CopiedTexts
        ensures { result ≡ [] }
    {
        CopiedTexts {
            bytes: Vec::new(alloc),
            ends: Vec::new(alloc),
        }
    }

    /// How many there are.
    pub fn len(&self) -> usize
        ensures { result ≡ length self.now }
    {
        self.ends.len()
    }

    /// Whether there is none.
    pub fn is_empty(&self) -> bool
        ensures { result ≡ (length self.now == 0) }
    {
        self.len() == 0
    }

    /// Takes all away. The memory stays for others.
    pub fn clear(&mut self)
        ensures { self.new ≡ [] }
    {
        self.bytes.clear();
        self.ends.clear();
    }

    /// Where their memory comes from.
    pub(crate) fn allocator(&self) -> Global {
        *self.bytes.allocator()
    }

    /// The text at a place, from 0.
    pub fn text(&self, place: usize) -> &[u8]
        requires { place < length self.now }
        ensures { result.now ≡ list_at self.now place }
    {
        text_at(&self.bytes, &self.ends, place)
    }

    /// Adds a copy of a text behind the others.
    pub fn push(&mut self, text: &[u8]) -> Result<(), AllocError>
        ensures ok { OnOk result (self.new ≡ self.old ++ text.now ∷ []) }
        ensures err { OnErr result (self.new ≡ self.old) }
    {
        self.ends.reserve(1)?;
        self.bytes.extend_from_slice(text)?;
        self.ends.push_reserved(self.bytes.len());
        Ok(())
    }

    /// Adds a copy of the text that a field of the pages from 1 on holds: of so many bytes, from one of them on.
    pub(crate) fn push_field<const N: usize>(
        &mut self,
        pages: &[Hold<N>],
        start: usize,
        width: usize,
    ) -> Result<(), AllocError>
        requires bytes { length (slot_bytes pages.now) < 2 ^ 48 }
        requires sized { All (λ page. length page ≡ N) pages.now }
        requires within { start + width ≤ length (slot_bytes pages.now) }
        requires size { 256 ≤ N }
        requires small { N ≤ 65536 }
        ensures ok { OnOk result
            (self.new ≡ self.old ++ text_of (bytes_at (slot_bytes pages.now) start width) ∷ []) }
        ensures err { OnErr result (self.new ≡ self.old) }
    {
        self.ends.reserve(1)?;
        self.bytes.reserve(width)?;
        copy_text(pages, start, width, &mut self.bytes);
        self.ends.push_reserved(self.bytes.len());
        Ok(())
    }
}

/// Where the text at a place begins: where the one before it ends.
fn begin_of(ends: &[usize], place: usize) -> usize
    requires { place < length ends.now }
    ensures { result ≡ begin_of 0 ends.now place }
{
    if place == 0 {
        return 0;
    }
    ends[place - 1]
}

/// The text at a place of those that lie in some bytes.
fn text_at<'a>(bytes: &'a [u8], ends: &[usize], place: usize) -> &'a [u8]
    requires ends { AreEnds 0 ends.now (length bytes.now) }
    requires there { place < length ends.now }
    ensures { result.now ≡ list_at (texts_from bytes.now 0 ends.now) place }
{
    &bytes[begin_of(ends, place)..ends[place]]
}
