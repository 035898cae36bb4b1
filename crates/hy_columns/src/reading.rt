//! The rows of a table in blocks, and in all warehouses, one behind another.

ghost use Rattle.std.specs.Prelude.{◌≡◌, ◌+◌, ◌^◌, ◌<◌, ◌≤◌, false, true, All, IfOk, IsTrue, length, map};
ghost use Rattle.std.specs.List.{flat_map};
ghost use Rattle.hy_rows.specs.Columns.{number_at, text_at};
ghost use Rattle.hy_frames.specs.FrameTable.{IsPageSize};
ghost use Rattle.hy_rows.specs.Spelling.{HasSlots, IsTable, is_spanned, rows_of, used_slots};
ghost use Rattle.hy_columns.specs.inside.Fields.{is_width};
ghost use Rattle.hy_columns.specs.inside.Pages.{rows_part, whole_row};
ghost use Rattle.hy_columns.specs.inside.Scans.{IsPart, pages_at, read_all, read_in};

use crate::block::Block;
use crate::decode::Decode;
use crate::fields::Segment;
use crate::pages::{count_slots, read_slots, used_on};
use crate::scan::Scan;
use crate::spanned::{FromBits, SpannedColumn, copy_texts, count_spanned, read_numbers};
use crate::texts::CopiedTexts;
use hy_frames::Hold;
use std::alloc::AllocError;

/// The pages of a table in the warehouse at a place.
pub(crate) fn pages_of<'a, const N: usize>(
    scan: &'a Scan<'a, N>,
    place: usize,
    segment: Segment,
) -> &'a [Hold<N>]
    requires place { place < length scan.now.pages }
    requires table { IsTable segment.number segment.row_bytes }
    ensures pages { result.now ≡ pages_at segment scan.now.pages place }
    ensures slots { HasSlots N segment.row_bytes result.now }
    ensures sized { All (λ page. length page ≡ N) result.now }
    ensures few { length result.now < 2 ^ 32 }
    ensures size { IsPageSize N }
{
    scan.segment(place, segment.number)
}

/// The values of a column in blocks whose slots aren't spanned, into a vector that is used again. Only memory can lack.
pub(crate) fn read_blocks<'a, D: Decode<'a>, const N: usize>(
    scan: &'a Scan<'a, N>,
    segment: Segment,
    column: D,
    blocks: &[Block],
    values: Vec<D::Output>,
) -> Result<Vec<D::Output>, AllocError>
    requires table { IsTable segment.number segment.row_bytes }
    requires unspanned { is_spanned segment.row_bytes ≡ false }
    requires fits { D.fits column segment.row_bytes }
    requires blocks { All (IsPart segment scan.now.pages) blocks.now }
    ensures { IfOk result (λ values. map D.value_of values.items
        ≡ flat_map (read_in N segment (D.value_in column) scan.now.pages) blocks.now) }
{
    let mut values = values;
    values.clear();
    for block in blocks {
        let pages = pages_of(scan, block.warehouse, segment);
        read_slots(
            &column,
            pages,
            segment.row_bytes,
            block.first,
            block.slots,
            &mut values,
        )?;
    }
    Ok(values)
}

/// The numbers at an offset of the rows in blocks whose slots are spanned, into a vector that is used again. Only memory can
/// lack.
pub(crate) fn read_number_blocks<'a, B: FromBits, const N: usize>(
    scan: &'a Scan<'a, N>,
    segment: Segment,
    offset: usize,
    width: usize,
    blocks: &[Block],
    numbers: Vec<B>,
) -> Result<Vec<B>, AllocError>
    requires table { IsTable segment.number segment.row_bytes }
    requires spanned { is_spanned segment.row_bytes ≡ true }
    requires fits { offset + width ≤ segment.row_bytes }
    requires width { IsTrue (is_width width) }
    requires blocks { All (IsPart segment scan.now.pages) blocks.now }
    ensures { IfOk result (λ numbers. map B.value_of numbers.items
        ≡ flat_map (read_in N segment (λ row. B.value_of_bits (number_at row offset width)) scan.now.pages) blocks.now) }
{
    let column = SpannedColumn {
        segment,
        offset,
        width,
    };
    let mut numbers = numbers;
    numbers.clear();
    for block in blocks {
        let pages = pages_of(scan, block.warehouse, segment);
        read_numbers(column, pages, block.first, block.slots, &mut numbers)?;
    }
    Ok(numbers)
}

/// Copies of the texts at an offset of the rows in blocks whose slots are spanned, into a buffer that is used again. Only
/// memory can lack.
pub(crate) fn copy_text_blocks<'a, const N: usize>(
    scan: &'a Scan<'a, N>,
    segment: Segment,
    offset: usize,
    width: usize,
    blocks: &[Block],
    texts: CopiedTexts,
) -> Result<CopiedTexts, AllocError>
    requires table { IsTable segment.number segment.row_bytes }
    requires spanned { is_spanned segment.row_bytes ≡ true }
    requires fits { offset + width ≤ segment.row_bytes }
    requires blocks { All (IsPart segment scan.now.pages) blocks.now }
    ensures { IfOk result (λ texts. texts
        ≡ flat_map (read_in N segment (λ row. text_at row offset width) scan.now.pages) blocks.now) }
{
    let column = SpannedColumn {
        segment,
        offset,
        width,
    };
    let mut texts = texts;
    texts.clear();
    for block in blocks {
        let pages = pages_of(scan, block.warehouse, segment);
        copy_texts(column, pages, block.first, block.slots, &mut texts)?;
    }
    Ok(texts)
}

/// How many rows all warehouses have.
pub(crate) fn count_all<'a, const N: usize>(scan: &'a Scan<'a, N>, segment: Segment) -> usize
    requires { IsTable segment.number segment.row_bytes }
    ensures { result ≡ length (read_all N segment whole_row scan.now.pages) }
{
    let mut rows = 0;
    for place in 0..scan.len() {
        rows += count_warehouse(scan, place, segment);
    }
    rows
}

/// How many rows the warehouse at a place has.
fn count_warehouse<'a, const N: usize>(
    scan: &'a Scan<'a, N>,
    place: usize,
    segment: Segment,
) -> usize
    requires place { place < length scan.now.pages }
    requires table { IsTable segment.number segment.row_bytes }
    ensures rows { result ≡ length (rows_of N segment.row_bytes whole_row (pages_at segment scan.now.pages place)) }
    ensures few { result < 2 ^ 56 }
{
    let pages = pages_of(scan, place, segment);
    count_part(pages, segment, 0, used_on(pages))
}

/// How many rows a block has.
pub(crate) fn count_in<'a, const N: usize>(
    scan: &'a Scan<'a, N>,
    segment: Segment,
    block: Block,
) -> usize
    requires table { IsTable segment.number segment.row_bytes }
    requires block { IsPart segment scan.now.pages block }
    ensures { result ≡ length (read_in N segment whole_row scan.now.pages block) }
{
    let pages = pages_of(scan, block.warehouse, segment);
    count_part(pages, segment, block.first, block.slots)
}

/// How many of so many slots of a segment, from one on, have a row.
fn count_part<const N: usize>(
    pages: &[Hold<N>],
    segment: Segment,
    first: usize,
    count: usize,
) -> usize
    requires slots { HasSlots N segment.row_bytes pages.now }
    requires within { first + count ≤ used_slots pages.now }
    requires sized { All (λ page. length page ≡ N) pages.now }
    requires few { length pages.now < 2 ^ 32 }
    requires size { IsPageSize N }
    ensures rows { result ≡ length (rows_part N segment.row_bytes whole_row pages.now first count) }
    ensures most { result ≤ count }
{
    if segment.is_spanned() {
        count_spanned(segment.row_bytes, pages, first, count)
    } else {
        count_slots(pages, segment.row_bytes, first, count)
    }
}
