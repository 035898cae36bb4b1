//! The values of a column in slots that are spanned, over the ends of pages.

ghost use Rattle.std.specs.Prelude.{◌≡◌, ◌+◌, ◌*◌, ◌^◌, ◌<◌, ◌≤◌, ◌∷◌, ◌++◌, [], true, All, IsTrue, OnOk, drop, length, map, option_to_list, vec_capacity, vec_len};
ghost use Rattle.hy_rows.specs.Columns.{number_at, text_at};
ghost use Rattle.hy_rows.specs.Spelling.{HasSlots, is_live, is_spanned, row_of_slot, slot_at, slot_bytes, slot_start, slot_width, used_slots};
ghost use Rattle.hy_columns.specs.inside.Fields.{is_width};
ghost use Rattle.hy_columns.specs.inside.Pages.{rows_part, whole_row};
ghost use Rattle.hy_columns.specs.inside.Spanned.{AreSpanned, IsWithin, bits_in, text_in};

use crate::fields::Segment;
use crate::joined::{bytes_on, number_on};
use crate::pages::is_live;
use crate::texts::CopiedTexts;
use hy_frames::Hold;
use std::alloc::AllocError;

/// A number of a column, which the bits of its bytes say.
pub(crate) trait FromBits: Copy {
    ghost use Rattle.std.specs.Prelude.{◌≡◌, ℕ};
    ghost use Rattle.hy_rows.specs.declared.value.Value.{Value};

    /// The value that it is.
    ghost value_of: { Self → Value };

    /// The value that bits say.
    ghost value_of_bits: { ℕ → Value };

    /// The number that these bits say.
    fn from_bits(bits: u64) -> Self
        ensures { value_of result ≡ value_of_bits bits };
}

impl FromBits for u64 {
    ghost use Rattle.std.specs.Prelude.{pos};
    ghost use Rattle.hy_rows.specs.declared.value.Value.TheVariants.{Whole};

    ghost value_of = { λ number. Whole (pos number) };

    ghost value_of_bits = { λ bits. Whole (pos bits) };

    fn from_bits(bits: u64) -> u64 {
        bits
    }
}

impl FromBits for i64 {
    ghost use Rattle.std.specs.Int.{w64, cast_signed};
    ghost use Rattle.hy_rows.specs.declared.value.Value.TheVariants.{Whole};

    ghost value_of = { λ number. Whole number };

    ghost value_of_bits = { λ bits. Whole (cast_signed w64 bits) };

    fn from_bits(bits: u64) -> i64 {
        bits.cast_signed()
    }
}

/// Where a column lies in the rows of slots that are spanned.
#[derive(Clone, Copy)]
pub(crate) struct SpannedColumn {
    /// The segment of its table.
    pub(crate) segment: Segment,
    /// Where the column begins in the bytes of a row.
    pub(crate) offset: usize,
    /// How many bytes it has.
    pub(crate) width: usize,
}

/// Where a used slot begins in the joined bytes.
fn start_of<const N: usize>(row_bytes: usize, pages: &[Hold<N>], slot: usize) -> usize
    requires pages { AreSpanned N row_bytes pages.now }
    requires used { slot < used_slots pages.now }
    requires size { 256 ≤ N }
    requires small { N ≤ 65536 }
    ensures start { result ≡ slot_start N row_bytes slot }
    ensures within { result + slot_width row_bytes ≤ length (slot_bytes pages.now) }
    ensures few { length (slot_bytes pages.now) < 2 ^ 48 }
{
    slot * (1 + row_bytes)
}

/// Whether a used slot has a row: its mark is one byte of one page.
fn has_row<const N: usize>(row_bytes: usize, pages: &[Hold<N>], slot: usize) -> bool
    requires pages { AreSpanned N row_bytes pages.now }
    requires used { slot < used_slots pages.now }
    requires size { 256 ≤ N }
    requires small { N ≤ 65536 }
    ensures { result ≡ is_live (slot_at N row_bytes pages.now slot) }
{
    is_live(bytes_on(pages, start_of(row_bytes, pages, slot), 1))
}

/// The number that a column has in the row of a slot.
fn number_in<const N: usize>(column: SpannedColumn, pages: &[Hold<N>], slot: usize) -> u64
    requires pages { AreSpanned N column.segment.row_bytes pages.now }
    requires used { slot < used_slots pages.now }
    requires live { is_live (slot_at N column.segment.row_bytes pages.now slot) ≡ true }
    requires fits { IsWithin column }
    requires width { IsTrue (is_width column.width) }
    requires size { 256 ≤ N }
    requires small { N ≤ 65536 }
    ensures { result ≡ number_at (drop 1 (slot_at N column.segment.row_bytes pages.now slot)) column.offset column.width }
{
    let start = start_of(column.segment.row_bytes, pages, slot);
    number_on(pages, start + (1 + column.offset), column.width)
}

/// Copies the text that a column has in the row of a slot behind others.
fn copy_text<const N: usize>(
    column: SpannedColumn,
    pages: &[Hold<N>],
    slot: usize,
    texts: &mut CopiedTexts,
) -> Result<(), AllocError>
    requires pages { AreSpanned N column.segment.row_bytes pages.now }
    requires used { slot < used_slots pages.now }
    requires live { is_live (slot_at N column.segment.row_bytes pages.now slot) ≡ true }
    requires fits { IsWithin column }
    requires size { 256 ≤ N }
    requires small { N ≤ 65536 }
    ensures { OnOk result (texts.new ≡ texts.old
        ++ text_at (drop 1 (slot_at N column.segment.row_bytes pages.now slot)) column.offset column.width ∷ []) }
{
    let start = start_of(column.segment.row_bytes, pages, slot);
    texts.push_field(pages, start + (1 + column.offset), column.width)
}

/// Reads the number of a slot's row behind those that were read before, if the slot is live.
fn read_slot<B: FromBits, const N: usize>(
    column: SpannedColumn,
    pages: &[Hold<N>],
    slot: usize,
    numbers: &mut Vec<B>,
)
    requires pages { AreSpanned N column.segment.row_bytes pages.now }
    requires used { slot < used_slots pages.now }
    requires fits { IsWithin column }
    requires width { IsTrue (is_width column.width) }
    requires size { 256 ≤ N }
    requires small { N ≤ 65536 }
    requires room { vec_len numbers.old < vec_capacity numbers.old }
    ensures numbers { map B.value_of numbers.new.items ≡ map B.value_of numbers.old.items
        ++ option_to_list (row_of_slot (bits_in B.value_of_bits column) (slot_at N column.segment.row_bytes pages.now slot)) }
    ensures len { vec_len numbers.new ≤ vec_len numbers.old + 1 }
    ensures capacity { vec_capacity numbers.new ≡ vec_capacity numbers.old }
{
    if has_row(column.segment.row_bytes, pages, slot) {
        numbers.push_reserved(B::from_bits(number_in(column, pages, slot)));
    }
}

/// Copies the text of a slot's row behind those that were copied before, if the slot is live.
fn copy_slot<const N: usize>(
    column: SpannedColumn,
    pages: &[Hold<N>],
    slot: usize,
    texts: &mut CopiedTexts,
) -> Result<(), AllocError>
    requires pages { AreSpanned N column.segment.row_bytes pages.now }
    requires used { slot < used_slots pages.now }
    requires fits { IsWithin column }
    requires size { 256 ≤ N }
    requires small { N ≤ 65536 }
    ensures { OnOk result (texts.new ≡ texts.old
        ++ option_to_list (row_of_slot (text_in column) (slot_at N column.segment.row_bytes pages.now slot))) }
{
    if !has_row(column.segment.row_bytes, pages, slot) {
        return Ok(());
    }
    copy_text(column, pages, slot, texts)
}

/// Reads the numbers of a column in the rows of so many slots of a segment, from one on, behind those that were read before.
pub(crate) fn read_numbers<B: FromBits, const N: usize>(
    column: SpannedColumn,
    pages: &[Hold<N>],
    first: usize,
    count: usize,
    numbers: &mut Vec<B>,
) -> Result<(), AllocError>
    requires slots { HasSlots N column.segment.row_bytes pages.now }
    requires spanned { is_spanned column.segment.row_bytes ≡ true }
    requires sized { All (λ page. length page ≡ N) pages.now }
    requires within { first + count ≤ used_slots pages.now }
    requires fits { IsWithin column }
    requires width { IsTrue (is_width column.width) }
    requires few { length pages.now < 2 ^ 32 }
    requires size { 256 ≤ N }
    requires small { N ≤ 65536 }
    ensures { OnOk result (map B.value_of numbers.new.items ≡ map B.value_of numbers.old.items
        ++ rows_part N column.segment.row_bytes (bits_in B.value_of_bits column) pages.now first count) }
{
    numbers.reserve(count)?;
    for place in 0..count {
        read_slot(column, pages, first + place, numbers);
    }
    Ok(())
}

/// Copies the texts of a column in the rows of so many slots of a segment, from one on, behind those that were copied
/// before.
pub(crate) fn copy_texts<const N: usize>(
    column: SpannedColumn,
    pages: &[Hold<N>],
    first: usize,
    count: usize,
    texts: &mut CopiedTexts,
) -> Result<(), AllocError>
    requires slots { HasSlots N column.segment.row_bytes pages.now }
    requires spanned { is_spanned column.segment.row_bytes ≡ true }
    requires sized { All (λ page. length page ≡ N) pages.now }
    requires within { first + count ≤ used_slots pages.now }
    requires fits { IsWithin column }
    requires few { length pages.now < 2 ^ 32 }
    requires size { 256 ≤ N }
    requires small { N ≤ 65536 }
    ensures { OnOk result (texts.new
        ≡ texts.old ++ rows_part N column.segment.row_bytes (text_in column) pages.now first count) }
{
    for place in 0..count {
        copy_slot(column, pages, first + place, texts)?;
    }
    Ok(())
}

/// How many of so many slots of a segment, from one on, have a row: by their marks.
pub(crate) fn count_spanned<const N: usize>(
    row_bytes: usize,
    pages: &[Hold<N>],
    first: usize,
    count: usize,
) -> usize
    requires slots { HasSlots N row_bytes pages.now }
    requires spanned { is_spanned row_bytes ≡ true }
    requires sized { All (λ page. length page ≡ N) pages.now }
    requires within { first + count ≤ used_slots pages.now }
    requires few { length pages.now < 2 ^ 32 }
    requires size { 256 ≤ N }
    requires small { N ≤ 65536 }
    ensures rows { result ≡ length (rows_part N row_bytes whole_row pages.now first count) }
    ensures most { result ≤ count }
{
    let mut rows = 0;
    for place in 0..count {
        rows += usize::from(has_row(row_bytes, pages, first + place));
    }
    rows
}
