//! One page of a tree: a header, and behind it items in rising order of their keys. An item is the bytes of a key and a
//! number: in a leaf the slot of the key, in an inner page the page of a child.

ghost use Rattle.std.specs.Prelude.{◌≡◌, ℕ, ◌+◌, ◌-◌, ◌*◌, ◌^◌, ◌<◌, ◌≤◌, ◌↔◌, IsTrue, true, length};
ghost use Rattle.hy_page.specs.Bytes.{bytes_at};
ghost use Rattle.hy_trees.specs.Trees.{is_less_bytes};
ghost use Rattle.hy_nodes.specs.Nodes.{height_field, item_count, item_offset, key_at, next_field, number_at};
ghost use Rattle.hy_trees.specs.Nodes.{item_width};
ghost use Rattle.hy_nodes.specs.Places.{AreRising, HasItems, IsBound, IsChildPlace, IsSought, is_below_at};
ghost use Rattle.hy_nodes.specs.Words.{first_word};
ghost use Rattle.hy_nodes.specs.declared.key.TheConstants.{MAX_KEY_BYTES};

use crate::order::{WORD_BYTES, first_word, is_less_behind, word};

/// How many bytes stand before the items of a page.
pub const HEADER_BYTES: usize = 8;

/// How many bytes the number of an item has.
pub const NUMBER_BYTES: usize = 8;

/// Where a key stands among the items of a page, or would stand: how many items are before it, and whether the next
/// one has it.
#[derive(Clone, Copy)]
pub struct Sought {
    pub place: usize,
    pub is_there: bool,
}

/// How many items a page has.
pub fn count(page: &[u8]) -> usize
    requires { 8 ≤ length page.now }
    ensures value { result ≡ item_count page.now }
    ensures small { result < 65536 }
{
    hy_page::number(&page[0..2]) as usize
}

/// How many pages stand one above another on each way from this page to a leaf, where it is the root.
pub fn height(page: &[u8]) -> usize
    requires { 8 ≤ length page.now }
    ensures value { result ≡ height_field page.now }
    ensures small { result < 65536 }
{
    hy_page::number(&page[2..4]) as usize
}

/// The next free page behind this one, or 0.
pub fn next_free(page: &[u8]) -> u32
    requires { 8 ≤ length page.now }
    ensures { result ≡ next_field page.now }
{
    hy_page::number(&page[4..8]) as u32
}

/// Where an item begins.
pub fn offset(key_bytes: usize, place: usize) -> usize
    requires width { key_bytes ≤ MAX_KEY_BYTES }
    requires small { item_offset key_bytes place < 2 ^ 63 }
    ensures { result ≡ item_offset key_bytes place }
{
    HEADER_BYTES + place * (key_bytes + NUMBER_BYTES)
}

/// The bytes of the items from one place to another.
pub fn run(page: &[u8], key_bytes: usize, start: usize, end: usize) -> &[u8]
    requires width { key_bytes ≤ MAX_KEY_BYTES }
    requires ordered { start ≤ end }
    requires within { item_offset key_bytes end ≤ length page.now }
    ensures bytes { result.now ≡ bytes_at page.now (item_offset key_bytes start)
        ((end - start) * item_width key_bytes) }
    ensures size { length result.now ≡ (end - start) * item_width key_bytes }
{
    &page[offset(key_bytes, start)..offset(key_bytes, end)]
}

/// The key of an item.
pub fn key(page: &[u8], key_bytes: usize, place: usize) -> &[u8]
    requires width { key_bytes ≤ MAX_KEY_BYTES }
    requires within { item_offset key_bytes (place + 1) ≤ length page.now }
    ensures bytes { result.now ≡ key_at key_bytes page.now place }
    ensures size { length result.now ≡ key_bytes }
{
    let begin = offset(key_bytes, place);
    &page[begin..begin + key_bytes]
}

/// The number of an item.
pub fn number(page: &[u8], key_bytes: usize, place: usize) -> u64
    requires width { key_bytes ≤ MAX_KEY_BYTES }
    requires within { item_offset key_bytes (place + 1) ≤ length page.now }
    ensures { result ≡ number_at key_bytes page.now place }
{
    let begin = offset(key_bytes, place) + key_bytes;
    hy_page::number(&page[begin..begin + NUMBER_BYTES])
}

/// How many items have a key below another, where there is an item. Keys that rise come behind all others, so that the
/// last item is looked at first.
fn place_among(page: &[u8], key_bytes: usize, count: usize, sought: &[u8]) -> usize
    requires width { key_bytes ≤ MAX_KEY_BYTES }
    requires some { 0 < count }
    requires same { length sought.now ≡ key_bytes }
    requires within { item_offset key_bytes count ≤ length page.now }
    requires rising { AreRising key_bytes page.now count }
    ensures { IsBound (is_below_at key_bytes page.now sought.now) count result }
{
    let first = first_word(sought);
    if is_below(page, key_bytes, count - 1, sought, first) {
        return count;
    }
    lower_bound(page, key_bytes, count - 1, sought, first)
}

/// Whether the key of an item stands before another, whose first bytes spell the number `first`.
fn is_below(page: &[u8], key_bytes: usize, place: usize, sought: &[u8], first: u64) -> bool
    requires width { key_bytes ≤ MAX_KEY_BYTES }
    requires same { length sought.now ≡ key_bytes }
    requires first { first ≡ first_word sought.now }
    requires within { item_offset key_bytes (place + 1) ≤ length page.now }
    ensures { result ≡ is_below_at key_bytes page.now sought.now place }
{
    let begin = offset(key_bytes, place);
    let number = word(&page[begin..begin + WORD_BYTES]);
    if number != first {
        return number < first;
    }
    is_less_behind(key(page, key_bytes, place), sought)
}

/// How many of the first `count` items have a key below another, whose first bytes spell the number `first`.
fn lower_bound(page: &[u8], key_bytes: usize, count: usize, sought: &[u8], first: u64) -> usize
    requires width { key_bytes ≤ MAX_KEY_BYTES }
    requires same { length sought.now ≡ key_bytes }
    requires first { first ≡ first_word sought.now }
    requires within { item_offset key_bytes count ≤ length page.now }
    requires rising { AreRising key_bytes page.now count }
    ensures { IsBound (is_below_at key_bytes page.now sought.now) count result }
{
    let mut low = 0;
    let mut high = count;
    while low < high {
        let middle = low + (high - low) / 2;
        if is_below(page, key_bytes, middle, sought, first) {
            low = middle + 1;
        } else {
            high = middle;
        }
    }
    low
}

/// Where a key stands among the items, or would stand.
pub fn seek(page: &[u8], sought: &[u8]) -> Sought
    requires header { 8 ≤ length page.now }
    requires width { length sought.now ≤ MAX_KEY_BYTES }
    requires within { HasItems (length sought.now) page.now }
    requires rising { AreRising (length sought.now) page.now (item_count page.now) }
    ensures { IsSought (length sought.now) page.now sought.now result.place result.is_there }
{
    let count = count(page);
    let place = place_of(page, sought);
    if place == count {
        return Sought {
            place,
            is_there: false,
        };
    }
    Sought {
        place,
        is_there: !is_above(page, sought.len(), place, sought),
    }
}

/// How many items have a key below another.
fn place_of(page: &[u8], sought: &[u8]) -> usize
    requires header { 8 ≤ length page.now }
    requires width { length sought.now ≤ MAX_KEY_BYTES }
    requires within { HasItems (length sought.now) page.now }
    requires rising { AreRising (length sought.now) page.now (item_count page.now) }
    ensures { IsBound (is_below_at (length sought.now) page.now sought.now) (item_count page.now) result }
{
    let count = count(page);
    if count == 0 {
        return 0;
    }
    place_among(page, sought.len(), count, sought)
}

/// How many items have a key below another, looked for from a place on: by steps, where those before the place do, and
/// else by halving. A short way is found by looking at few items that lie side by side.
pub fn bound_from(page: &[u8], sought: &[u8], start: usize) -> usize
    requires header { 8 ≤ length page.now }
    requires width { length sought.now ≤ MAX_KEY_BYTES }
    requires within { HasItems (length sought.now) page.now }
    requires rising { AreRising (length sought.now) page.now (item_count page.now) }
    requires start { start ≤ item_count page.now }
    ensures { IsBound (is_below_at (length sought.now) page.now sought.now) (item_count page.now) result }
{
    let count = count(page);
    let first = first_word(sought);
    if start > 0 && !is_below(page, sought.len(), start - 1, sought, first) {
        return place_of(page, sought);
    }
    bound_by_steps(page, sought.len(), count, sought, first, start)
}

/// How many of the first `count` items have a key below another, where those before `start` do.
fn bound_by_steps(
    page: &[u8],
    key_bytes: usize,
    count: usize,
    sought: &[u8],
    first: u64,
    start: usize,
) -> usize
    requires width { key_bytes ≤ MAX_KEY_BYTES }
    requires same { length sought.now ≡ key_bytes }
    requires first { first ≡ first_word sought.now }
    requires within { item_offset key_bytes count ≤ length page.now }
    requires rising { AreRising key_bytes page.now count }
    requires start { start ≤ count }
    requires before { 0 < start → is_below_at key_bytes page.now sought.now (start - 1) ≡ true }
    ensures { IsBound (is_below_at key_bytes page.now sought.now) count result }
{
    let mut place = start;
    while place < count {
        if !is_below(page, key_bytes, place, sought, first) {
            return place;
        }
        place += 1;
    }
    count
}

/// Whether the key of an item stands behind another.
fn is_above(page: &[u8], key_bytes: usize, place: usize, sought: &[u8]) -> bool
    requires width { key_bytes ≤ MAX_KEY_BYTES }
    requires within { item_offset key_bytes (place + 1) ≤ length page.now }
    ensures { result ≡ is_less_bytes sought.now (key_at key_bytes page.now place) }
{
    sought.cmp(key(page, key_bytes, place)).is_lt()
}

/// The place of the child under which a key stands, if it is there: that of the last item whose key isn't above it, or
/// the first one.
pub fn child_place(page: &[u8], sought: &[u8]) -> usize
    requires header { 8 ≤ length page.now }
    requires width { length sought.now ≤ MAX_KEY_BYTES }
    requires some { 0 < item_count page.now }
    requires within { HasItems (length sought.now) page.now }
    requires rising { AreRising (length sought.now) page.now (item_count page.now) }
    ensures { IsChildPlace (length sought.now) page.now sought.now result }
{
    let at = seek(page, sought);
    if at.is_there {
        return at.place;
    }
    if at.place == 0 {
        return 0;
    }
    at.place - 1
}

/// The page of the child at a place.
pub fn child(page: &[u8], key_bytes: usize, place: usize) -> u32
    requires width { key_bytes ≤ MAX_KEY_BYTES }
    requires within { item_offset key_bytes (place + 1) ≤ length page.now }
    requires small { number_at key_bytes page.now place < 2 ^ 32 }
    ensures { result ≡ number_at key_bytes page.now place }
{
    number(page, key_bytes, place) as u32
}
