//! Slots on lent pages.

ghost use Rattle.std.specs.Prelude.{◌≡◌, ◌+◌, ◌^◌, ◌<◌, ◌≤◌, All, length};
ghost use Rattle.hy_rows.specs.Spelling.{HasSlots, slot_at, slot_width, slots_of, used_slots};
ghost use Rattle.hy_relation.specs.inside.Views.{bytes_of_view};

use crate::address::{address_of, is_spanned};
use crate::view::{SlotCopy, SlotView, push_bytes};
use hy_frames::Hold;
use hy_rows::Row;

/// Each page has all its bytes.
pub(crate) fn know_sizes<const N: usize>(pages: &[Hold<N>])
    ensures { All (λ page. length page ≡ N) pages.now }
{
    for page in pages {
        page.know_size();
    }
}

/// How many slots are used.
pub(crate) fn used_on<R: Row, const N: usize>(pages: &[Hold<N>]) -> u64
    requires slots { HasSlots N R.BYTES pages.now }
    requires size { 256 ≤ N }
    requires small { N ≤ 65536 }
    ensures number { result ≡ used_slots pages.now }
    ensures count { result ≡ length (slots_of N R.BYTES R.row_of_bytes pages.now) }
{
    pages[0].page().field(0, 8)
}

/// A copy of the bytes of a used slot, from as many pages as it lies on.
fn copy_on<R: Row, const N: usize>(pages: &[Hold<N>], slot: u64) -> SlotCopy
    requires slots { HasSlots N R.BYTES pages.now }
    requires sized { All (λ page. length page ≡ N) pages.now }
    requires used { slot < used_slots pages.now }
    requires few { length pages.now < 2 ^ 32 }
    requires size { 256 ≤ N }
    requires small { N ≤ 65536 }
    ensures { result.items ≡ slot_at N R.BYTES pages.now slot }
{
    let at = address_of(N, R::BYTES, slot);
    let mut bytes = SlotCopy::new();
    let mut page = at.page as usize;
    let mut offset = at.offset;
    while bytes.len() < 1 + R::BYTES {
        let count = (1 + R::BYTES - bytes.len()).min(N - offset);
        push_bytes(
            &mut bytes,
            &pages[page].page().bytes()[offset..offset + count],
        );
        page += 1;
        offset = 0;
    }
    bytes
}

/// The bytes of a used slot.
pub(crate) fn slot_on<R: Row, const N: usize>(pages: &[Hold<N>], slot: u64) -> SlotView<'_>
    requires slots { HasSlots N R.BYTES pages.now }
    requires sized { All (λ page. length page ≡ N) pages.now }
    requires used { slot < used_slots pages.now }
    requires few { length pages.now < 2 ^ 32 }
    requires size { 256 ≤ N }
    requires small { N ≤ 65536 }
    ensures bytes { bytes_of_view result ≡ slot_at N R.BYTES pages.now slot }
    ensures width { length (bytes_of_view result) ≡ slot_width R.BYTES }
{
    let at = address_of(N, R::BYTES, slot);
    if !is_spanned(R::BYTES) || at.offset + 1 + R::BYTES <= N {
        let page = pages[at.page as usize].page().bytes();
        SlotView::Lent(&page[at.offset..at.offset + 1 + R::BYTES])
    } else {
        SlotView::Copied(copy_on::<R, N>(pages, slot))
    }
}
