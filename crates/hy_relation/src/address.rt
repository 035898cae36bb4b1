//! Where slots lie: their addresses on pages.

ghost use Rattle.std.specs.Prelude.{◌≡◌, ◌+◌, ◌^◌, ◌<◌, ◌≤◌, true, false};
ghost use Rattle.hy_rows.specs.Spelling.{is_spanned, slot_start, slot_width, slots_end};
ghost use Rattle.hy_relation.specs.Relation.{end_place};
ghost use Rattle.hy_relation.specs.inside.Addresses.{offset_of_byte, page_of_byte, slot_offset, slot_page};

/// No page has fewer bytes.
const LEAST_PAGE: usize = 256;

/// Where a slot begins.
#[derive(Clone, Copy)]
pub(crate) struct Address {
    pub page: u64,
    pub offset: usize,
}

/// Whether slots for rows of so many bytes are spanned, over the ends of pages.
pub(crate) fn is_spanned(row_bytes: usize) -> bool
    requires { row_bytes < 2 ^ 16 }
    ensures { result ≡ is_spanned row_bytes }
{
    1 + row_bytes > LEAST_PAGE
}

/// Where a slot for rows of so many bytes begins, on pages of `size` bytes.
pub(crate) fn address_of(size: usize, row_bytes: usize, slot: u64) -> Address
    requires least { 256 ≤ size }
    requires most { size ≤ 65536 }
    requires row { row_bytes < 2 ^ 16 }
    requires number { slots_end size row_bytes slot < 2 ^ 48 }
    ensures page { result.page ≡ slot_page size row_bytes slot }
    ensures offset { result.offset ≡ slot_offset size row_bytes slot }
    ensures within { result.offset < size }
    ensures fits { is_spanned row_bytes ≡ false → result.offset + slot_width row_bytes ≤ size }
    ensures small { result.page ≤ 2 ^ 48 }
{
    if is_spanned(row_bytes) {
        spanned_address(size, row_bytes, slot)
    } else {
        unspanned_address(size, row_bytes, slot)
    }
}

/// Where a slot begins that is spanned.
fn spanned_address(size: usize, row_bytes: usize, slot: u64) -> Address
    requires spanned { is_spanned row_bytes ≡ true }
    requires least { 256 ≤ size }
    requires most { size ≤ 65536 }
    requires row { row_bytes < 2 ^ 16 }
    requires number { slots_end size row_bytes slot < 2 ^ 48 }
    ensures page { result.page ≡ slot_page size row_bytes slot }
    ensures offset { result.offset ≡ slot_offset size row_bytes slot }
    ensures within { result.offset < size }
    ensures small { result.page ≤ 2 ^ 48 }
{
    let start = slot * (1 + row_bytes) as u64;
    Address {
        page: 1 + start / size as u64,
        offset: (start % size as u64) as usize,
    }
}

/// Where a slot begins that isn't.
fn unspanned_address(size: usize, row_bytes: usize, slot: u64) -> Address
    requires unspanned { is_spanned row_bytes ≡ false }
    requires least { 256 ≤ size }
    requires most { size ≤ 65536 }
    requires row { row_bytes < 2 ^ 16 }
    requires number { slots_end size row_bytes slot < 2 ^ 48 }
    ensures page { result.page ≡ slot_page size row_bytes slot }
    ensures offset { result.offset ≡ slot_offset size row_bytes slot }
    ensures fits { result.offset + slot_width row_bytes ≤ size }
    ensures small { result.page ≤ 2 ^ 48 }
{
    let width = 1 + row_bytes;
    let slots = (size / width) as u64;
    Address {
        page: 1 + slot / slots,
        offset: (slot % slots) as usize * width,
    }
}

/// Where the byte of a slot stands that is behind so many others of it.
pub(crate) fn address_behind(size: usize, row_bytes: usize, slot: u64, skip: usize) -> Address
    requires least { 256 ≤ size }
    requires most { size ≤ 65536 }
    requires row { row_bytes < 2 ^ 16 }
    requires skip { skip ≤ slot_width row_bytes }
    requires number { slots_end size row_bytes slot < 2 ^ 48 }
    ensures page { result.page ≡ page_of_byte size (slot_start size row_bytes slot + skip) }
    ensures offset { result.offset ≡ offset_of_byte size (slot_start size row_bytes slot + skip) }
    ensures within { result.offset < size }
{
    let at = address_of(size, row_bytes, slot);
    Address {
        page: at.page + ((at.offset + skip) / size) as u64,
        offset: (at.offset + skip) % size,
    }
}

/// The number of the page on which a slot ends.
pub(crate) fn last_page_of(size: usize, row_bytes: usize, slot: u64) -> u64
    requires least { 256 ≤ size }
    requires most { size ≤ 65536 }
    requires row { row_bytes < 2 ^ 16 }
    requires number { slots_end size row_bytes slot < 2 ^ 48 }
    ensures { result ≡ end_place size row_bytes slot + 1 }
{
    address_behind(size, row_bytes, slot, row_bytes).page
}
