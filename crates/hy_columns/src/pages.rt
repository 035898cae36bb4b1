//! The values of a column on the pages of a segment.

ghost use Rattle.std.specs.Prelude.{◌≡◌, ◌+◌, ◌-◌, ◌*◌, ◌^◌, ◌<◌, ◌≤◌, ◌++◌, false, All, OnOk, length, map, option_to_list, vec_capacity, vec_len};
ghost use Rattle.hy_rows.specs.Spelling.{HasSlots, is_live, is_spanned, row_of_slot, slot_width, used_slots};
ghost use Rattle.hy_columns.specs.inside.Pages.{AreUnspanned, left_on, rows_on, rows_part, slots_behind, whole_row};

use crate::decode::Decode;
use hy_frames::Hold;
use std::alloc::AllocError;

/// Whether a slot has a row.
pub(crate) fn is_live(slot: &[u8]) -> bool
    requires { 0 < length slot.now }
    ensures { result ≡ is_live slot.now }
{
    slot[0] == 1
}

/// Reads the value of a slot's row behind those that were read before, if the slot is live.
fn read_slot<'a, D: Decode<'a>>(column: &D, slot: &'a [u8], values: &mut Vec<D::Output>)
    requires some { 0 < length slot.now }
    requires fits { D.fits column.now (length slot.now - 1) }
    requires room { vec_len values.old < vec_capacity values.old }
    ensures values { map D.value_of values.new.items
        ≡ map D.value_of values.old.items ++ option_to_list (row_of_slot (D.value_in column.now) slot.now) }
    ensures len { vec_len values.new ≤ vec_len values.old + 1 }
    ensures capacity { vec_capacity values.new ≡ vec_capacity values.old }
{
    if is_live(slot) {
        values.push_reserved(column.decode(&slot[1..]));
    }
}

/// Reads the values of the rows in the first slots of a page behind those that were read before.
fn read_page<'a, D: Decode<'a>>(
    column: &D,
    page: &'a [u8],
    row_bytes: usize,
    count: usize,
    values: &mut Vec<D::Output>,
)
    requires width { slot_width row_bytes ≤ length page.now }
    requires within { count * slot_width row_bytes ≤ length page.now }
    requires fits { D.fits column.now row_bytes }
    requires room { vec_len values.old + count ≤ vec_capacity values.old }
    ensures values { map D.value_of values.new.items
        ≡ map D.value_of values.old.items ++ rows_on row_bytes (D.value_in column.now) page.now count }
    ensures len { vec_len values.new ≤ vec_len values.old + count }
    ensures capacity { vec_capacity values.new ≡ vec_capacity values.old }
{
    let width = 1 + row_bytes;
    let mut at = 0;
    for _ in 0..count {
        read_slot(column, &page[at..at + width], values);
        at += width;
    }
}

/// Each page has all its bytes.
pub(crate) fn know_sizes<const N: usize>(pages: &[Hold<N>])
    ensures { All (λ page. length page ≡ N) pages.now }
{
    for page in pages {
        page.know_size();
    }
}

/// How many slots of a segment are used.
pub(crate) fn used_on<const N: usize>(pages: &[Hold<N>]) -> usize
    requires some { 0 < length pages.now }
    requires size { 256 ≤ N }
    requires small { N ≤ 65536 }
    ensures { result ≡ used_slots pages.now }
{
    pages[0].page().field(0, 8) as usize
}

/// The bytes of the page on which a used slot lies, from this slot on.
fn slots_from<const N: usize>(pages: &[Hold<N>], row_bytes: usize, slot: usize) -> &[u8]
    requires pages { AreUnspanned N row_bytes pages.now }
    requires used { slot < used_slots pages.now }
    requires size { 256 ≤ N }
    requires small { N ≤ 65536 }
    ensures bytes { result.now ≡ slots_behind N row_bytes pages.now slot }
    ensures size { left_on N row_bytes slot * slot_width row_bytes ≤ length result.now }
    ensures some { 0 < left_on N row_bytes slot }
{
    let width = 1 + row_bytes;
    let per_page = N / width;
    &pages[1 + slot / per_page].page().bytes()[slot % per_page * width..]
}

/// How many slots of a page there are from a slot on.
fn left_on<const N: usize>(row_bytes: usize, slot: usize) -> usize
    requires unspanned { is_spanned row_bytes ≡ false }
    requires size { 256 ≤ N }
    ensures left { result ≡ left_on N row_bytes slot }
    ensures some { 0 < result }
{
    let per_page = N / (1 + row_bytes);
    per_page - slot % per_page
}

/// Reads the values of a column in the rows of so many slots of a segment, from one on, behind those that were read before.
/// Only memory can lack.
pub(crate) fn read_slots<'a, D: Decode<'a>, const N: usize>(
    column: &D,
    pages: &'a [Hold<N>],
    row_bytes: usize,
    first: usize,
    count: usize,
    values: &mut Vec<D::Output>,
) -> Result<(), AllocError>
    requires slots { HasSlots N row_bytes pages.now }
    requires unspanned { is_spanned row_bytes ≡ false }
    requires sized { All (λ page. length page ≡ N) pages.now }
    requires within { first + count ≤ used_slots pages.now }
    requires few { length pages.now < 2 ^ 32 }
    requires size { 256 ≤ N }
    requires small { N ≤ 65536 }
    requires fits { D.fits column.now row_bytes }
    ensures { OnOk result (map D.value_of values.new.items
        ≡ map D.value_of values.old.items ++ rows_part N row_bytes (D.value_in column.now) pages.now first count) }
{
    values.reserve(count)?;
    let mut done = 0;
    while done < count {
        let slot = first + done;
        let more = (count - done).min(left_on::<N>(row_bytes, slot));
        read_page(
            column,
            slots_from(pages, row_bytes, slot),
            row_bytes,
            more,
            values,
        );
        done += more;
    }
    Ok(())
}

/// How many of the first slots of a page have a row.
fn count_page(page: &[u8], row_bytes: usize, count: usize) -> usize
    requires width { slot_width row_bytes ≤ length page.now }
    requires within { count * slot_width row_bytes ≤ length page.now }
    ensures rows { result ≡ length (rows_on row_bytes whole_row page.now count) }
    ensures most { result ≤ count }
{
    let width = 1 + row_bytes;
    let mut at = 0;
    let mut rows = 0;
    for _ in 0..count {
        rows += usize::from(is_live(&page[at..at + width]));
        at += width;
    }
    rows
}

/// How many of so many slots of a segment, from one on, have a row.
pub(crate) fn count_slots<const N: usize>(
    pages: &[Hold<N>],
    row_bytes: usize,
    first: usize,
    count: usize,
) -> usize
    requires slots { HasSlots N row_bytes pages.now }
    requires unspanned { is_spanned row_bytes ≡ false }
    requires sized { All (λ page. length page ≡ N) pages.now }
    requires within { first + count ≤ used_slots pages.now }
    requires few { length pages.now < 2 ^ 32 }
    requires size { 256 ≤ N }
    requires small { N ≤ 65536 }
    ensures rows { result ≡ length (rows_part N row_bytes whole_row pages.now first count) }
    ensures most { result ≤ count }
{
    let mut rows = 0;
    let mut done = 0;
    while done < count {
        let slot = first + done;
        let more = (count - done).min(left_on::<N>(row_bytes, slot));
        rows += count_page(slots_from(pages, row_bytes, slot), row_bytes, more);
        done += more;
    }
    rows
}
