//! The pages of one tree in a space: how many items they take, and the writes that change their items.

ghost use Rattle.std.specs.Prelude.{◌≡◌, ℕ, ◌+◌, ◌-◌, ◌*◌, ◌^◌, ◌<◌, ◌≤◌, ◌∷◌, [], ◌++◌, length, take, drop, max, slice_index_or, OnOk, IsErrOf};
ghost use Rattle.arrayvec.specs.ArrayVec.{array_vec_len};
ghost use Rattle.hy_page.specs.Bytes.{bytes_at, bytes_of};
ghost use Rattle.hy_space.specs.Space.{HasPage, page_count};
ghost use Rattle.hy_undo.specs.PrivatePages.{IsUndoLog};
ghost use Rattle.hy_undo.specs.Writes.{IsOutOfFrames};
ghost use Rattle.hy_nodes.specs.Writes.{WritesSegment, pages_of};
ghost use Rattle.hy_trees.specs.Nodes.{capacity, item_width, least_items, no_item, node_at, with_height, with_key, with_more, with_node, with_number, with_tail, without_items};
ghost use Rattle.hy_nodes.specs.Nodes.{item_count, item_offset, number_at};
ghost use Rattle.hy_nodes.specs.Pages.{items_in, nodes_in, page_in, with_bytes};
ghost use Rattle.hy_nodes.specs.declared.key.TheConstants.{MAX_KEY_BYTES};

use crate::key::{ItemBytes, KeyBytes, push_bytes};
use crate::node;
use crate::node::{HEADER_BYTES, NUMBER_BYTES};
use hy_frames::Shortage;
use hy_page::Page;
use hy_space::Space;
use hy_undo::Undo;

/// The pages of one index: their segment, and how many bytes each key has.
#[derive(Clone, Copy)]
pub struct Tree {
    pub segment: u32,
    pub key_bytes: usize,
}

/// The bytes of an item.
pub fn item_of(key: &[u8], number: u64) -> ItemBytes
    requires { length key.now ≤ MAX_KEY_BYTES }
    ensures { result.items ≡ key.now ++ bytes_of 8 number }
{
    let mut item = ItemBytes::new();
    push_all(&mut item, key);
    push_all(&mut item, &number.to_le_bytes());
    item
}

/// Appends bytes to those of an item.
fn push_all(item: &mut ItemBytes, bytes: &[u8])
    requires { array_vec_len item.old + length bytes.now ≤ MAX_KEY_BYTES + 8 }
    ensures bytes { item.new.items ≡ item.old.items ++ bytes.now }
    ensures len { array_vec_len item.new ≡ array_vec_len item.old + length bytes.now }
{
    for byte in bytes {
        item.push(*byte);
    }
}

/// The bytes of a key that stands in a page.
pub fn copied(key: &[u8]) -> KeyBytes
    requires { length key.now ≤ MAX_KEY_BYTES }
    ensures { result.items ≡ key.now }
{
    let mut bytes = KeyBytes::new();
    push_bytes(&mut bytes, key);
    bytes
}

/// A page that begins with some bytes, and others behind them. What stands behind both is of no account: it is that of a
/// page that is there, since a page is copied faster than it is cleared.
fn joined<const N: usize>(other: &Page<N>, first: &[u8], behind: &[u8]) -> Page<N>
    requires small { N ≤ 65536 }
    requires fits { length first.now + length behind.now ≤ N }
    ensures { take (length first.now + length behind.now) result ≡ first.now ++ behind.now }
{
    let mut page = other.copy();
    page.write(0, first);
    page.write(first.len(), behind);
    page
}

impl Tree {
    /// How many bytes an item has.
    pub fn item_bytes(self) -> usize
        requires width { self.key_bytes ≤ MAX_KEY_BYTES }
        ensures { result ≡ item_width self.key_bytes }
    {
        self.key_bytes + NUMBER_BYTES
    }

    /// How many items a page has at most.
    pub fn capacity<const N: usize>(self) -> usize
        requires width { self.key_bytes ≤ MAX_KEY_BYTES }
        requires size { 8 ≤ N }
        ensures { result ≡ capacity N self.key_bytes }
    {
        (N - HEADER_BYTES) / self.item_bytes()
    }

    /// How many items each page but the root has at least.
    pub fn least<const N: usize>(self) -> usize
        requires width { self.key_bytes ≤ MAX_KEY_BYTES }
        requires size { 8 ≤ N }
        ensures { result ≡ least_items N self.key_bytes }
    {
        (self.capacity::<N>() / 4).max(2)
    }

    /// The bytes of a page.
    pub fn page<const N: usize>(self, space: &Space<N>, page: u32) -> &[u8]
        requires page { HasPage space.now self.segment page }
        ensures bytes { result.now ≡ page_in space.now self page }
        ensures size { length result.now ≡ N }
    {
        space.sound();
        space.page(self.segment, page).bytes()
    }

    /// How many items a page has.
    pub fn count<const N: usize>(self, space: &Space<N>, page: u32) -> usize
        requires page { HasPage space.now self.segment page }
        ensures value { result ≡ item_count (page_in space.now self page) }
        ensures items { result ≡ length (node_at (nodes_in space.now self) page).items }
    {
        space.sound();
        node::count(self.page(space, page))
    }

    /// How many pages stand one above another on each way from the root to a leaf.
    pub fn height<const N: usize>(self, space: &Space<N>) -> usize
        requires page { HasPage space.now self.segment 0 }
        ensures { result ≡ (node_at (nodes_in space.now self) 0).height }
    {
        space.sound();
        node::height(self.page(space, 0))
    }

    /// The page of a child.
    pub fn child<const N: usize>(self, space: &Space<N>, page: u32, place: usize) -> u32
        requires width { self.key_bytes ≤ MAX_KEY_BYTES }
        requires page { HasPage space.now self.segment page }
        requires place { place < item_count (page_in space.now self page) }
        requires items { item_offset self.key_bytes (item_count (page_in space.now self page)) ≤ N }
        requires small { number_at self.key_bytes (page_in space.now self page) place < 2 ^ 32 }
        ensures { result ≡ (slice_index_or (node_at (nodes_in space.now self) page).items
            place no_item).number }
    {
        space.sound();
        node::child(self.page(space, page), self.key_bytes, place)
    }

    /// Writes bytes into a page over those from `offset` on.
    pub fn write<const N: usize>(
        self,
        space: &mut Space<N>,
        undo: &mut Undo<N>,
        page: u32,
        offset: usize,
        bytes: &[u8],
    ) -> Result<(), Shortage>
        requires page { HasPage space.old self.segment page }
        requires within { offset + length bytes.now ≤ N }
        requires undo_log { IsUndoLog N space.old undo.old }
        ensures writes { WritesSegment N self.segment space.old space.new undo.old undo.new }
        ensures bytes { OnOk result (pages_of space.new self.segment
            ≡ with_bytes (pages_of space.old self.segment) page offset bytes.now) }
        ensures pages { page_count space.new self.segment ≡ page_count space.old self.segment }
        ensures no_frame { IsErrOf result Shortage.NoFrame → IsOutOfFrames space.new }
    {
        space.sound();
        undo.write(space, self.segment, page, offset, bytes)
    }

    /// Puts bytes into a page in the place of `gap` others from `offset` on, and moves the `count` bytes behind these to
    /// where the new ones end.
    fn splice<const N: usize>(
        self,
        space: &mut Space<N>,
        undo: &mut Undo<N>,
        page: u32,
        offset: usize,
        gap: usize,
        bytes: &[u8],
        count: usize,
    ) -> Result<(), Shortage>
        requires page { HasPage space.old self.segment page }
        requires within { offset + (max gap (length bytes.now) + count) ≤ N }
        requires undo_log { IsUndoLog N space.old undo.old }
        ensures writes { WritesSegment N self.segment space.old space.new undo.old undo.new }
        ensures bytes { OnOk result (pages_of space.new self.segment
            ≡ with_bytes (pages_of space.old self.segment) page offset
            (bytes.now ++ bytes_at (page_in space.old self page) (offset + gap) count)) }
        ensures pages { page_count space.new self.segment ≡ page_count space.old self.segment }
        ensures no_frame { IsErrOf result Shortage.NoFrame → IsOutOfFrames space.new }
    {
        space.sound();
        undo.splice(space, self.segment, page, offset, gap, bytes, count)
    }

    /// Writes the header's number of items.
    fn write_count<const N: usize>(
        self,
        space: &mut Space<N>,
        undo: &mut Undo<N>,
        page: u32,
        count: usize,
    ) -> Result<(), Shortage>
        requires page { HasPage space.old self.segment page }
        requires small { count < 65536 }
        requires undo_log { IsUndoLog N space.old undo.old }
        ensures writes { WritesSegment N self.segment space.old space.new undo.old undo.new }
        ensures bytes { OnOk result (pages_of space.new self.segment
            ≡ with_bytes (pages_of space.old self.segment) page 0 (bytes_of 2 count)) }
        ensures pages { page_count space.new self.segment ≡ page_count space.old self.segment }
        ensures no_frame { IsErrOf result Shortage.NoFrame → IsOutOfFrames space.new }
    {
        space.sound();
        let digits = (count as u16).to_le_bytes();
        self.write(space, undo, page, 0, &digits)
    }

    /// Writes how many pages stand one above another.
    pub fn write_height<const N: usize>(
        self,
        space: &mut Space<N>,
        undo: &mut Undo<N>,
        height: usize,
    ) -> Result<(), Shortage>
        requires width { self.key_bytes ≤ MAX_KEY_BYTES }
        requires page { HasPage space.old self.segment 0 }
        requires small { height < 65536 }
        requires undo_log { IsUndoLog N space.old undo.old }
        ensures writes { WritesSegment N self.segment space.old space.new undo.old undo.new }
        ensures nodes { OnOk result (nodes_in space.new self ≡ with_node (nodes_in space.old self) 0
            (with_height (node_at (nodes_in space.old self) 0) height)) }
        ensures pages { page_count space.new self.segment ≡ page_count space.old self.segment }
        ensures no_frame { IsErrOf result Shortage.NoFrame → IsOutOfFrames space.new }
    {
        space.sound();
        let digits = (height as u16).to_le_bytes();
        self.write(space, undo, 0, 2, &digits)
    }

    /// Gives a page other items from a place on: so many, which are these bytes.
    fn write_behind<const N: usize>(
        self,
        space: &mut Space<N>,
        undo: &mut Undo<N>,
        page: u32,
        place: usize,
        items: &[u8],
        count: usize,
    ) -> Result<(), Shortage>
        requires width { self.key_bytes ≤ MAX_KEY_BYTES }
        requires page { HasPage space.old self.segment page }
        requires place { place ≤ item_count (page_in space.old self page) }
        requires fits { item_offset self.key_bytes (place + count) ≤ N }
        requires size { length items.now ≡ count * item_width self.key_bytes }
        requires undo_log { IsUndoLog N space.old undo.old }
        ensures writes { WritesSegment N self.segment space.old space.new undo.old undo.new }
        ensures nodes { OnOk result (nodes_in space.new self ≡ with_node (nodes_in space.old self) page
            (with_tail (node_at (nodes_in space.old self) page) place (items_in self.key_bytes items.now count))) }
        ensures pages { page_count space.new self.segment ≡ page_count space.old self.segment }
        ensures no_frame { IsErrOf result Shortage.NoFrame → IsOutOfFrames space.new }
    {
        space.sound();
        let begin = node::offset(self.key_bytes, place);
        self.write(space, undo, page, begin, items)?;
        self.write_count(space, undo, page, place + count)
    }

    /// Puts an item into a page that has room for it, before the one at a place.
    pub fn put_item<const N: usize>(
        self,
        space: &mut Space<N>,
        undo: &mut Undo<N>,
        page: u32,
        place: usize,
        item: &[u8],
    ) -> Result<(), Shortage>
        requires width { self.key_bytes ≤ MAX_KEY_BYTES }
        requires page { HasPage space.old self.segment page }
        requires place { place ≤ item_count (page_in space.old self page) }
        requires fits { item_offset self.key_bytes (item_count (page_in space.old self page) + 1) ≤ N }
        requires size { length item.now ≡ item_width self.key_bytes }
        requires undo_log { IsUndoLog N space.old undo.old }
        ensures writes { WritesSegment N self.segment space.old space.new undo.old undo.new }
        ensures nodes { OnOk result (nodes_in space.new self ≡ with_node (nodes_in space.old self) page
            (with_more (node_at (nodes_in space.old self) page) place (items_in self.key_bytes item.now 1))) }
        ensures pages { page_count space.new self.segment ≡ page_count space.old self.segment }
        ensures no_frame { IsErrOf result Shortage.NoFrame → IsOutOfFrames space.new }
    {
        space.sound();
        if place == self.count(space, page) {
            return self.write_behind(space, undo, page, place, item, 1);
        }
        self.put_before(space, undo, page, place, item)
    }

    /// Puts an item before the one at a place.
    fn put_before<const N: usize>(
        self,
        space: &mut Space<N>,
        undo: &mut Undo<N>,
        page: u32,
        place: usize,
        item: &[u8],
    ) -> Result<(), Shortage>
        requires width { self.key_bytes ≤ MAX_KEY_BYTES }
        requires page { HasPage space.old self.segment page }
        requires place { place ≤ item_count (page_in space.old self page) }
        requires fits { item_offset self.key_bytes (item_count (page_in space.old self page) + 1) ≤ N }
        requires size { length item.now ≡ item_width self.key_bytes }
        requires undo_log { IsUndoLog N space.old undo.old }
        ensures writes { WritesSegment N self.segment space.old space.new undo.old undo.new }
        ensures nodes { OnOk result (nodes_in space.new self ≡ with_node (nodes_in space.old self) page
            (with_more (node_at (nodes_in space.old self) page) place (items_in self.key_bytes item.now 1))) }
        ensures pages { page_count space.new self.segment ≡ page_count space.old self.segment }
        ensures no_frame { IsErrOf result Shortage.NoFrame → IsOutOfFrames space.new }
    {
        space.sound();
        let count = self.count(space, page);
        let begin = node::offset(self.key_bytes, place);
        let behind = (count - place) * self.item_bytes();
        self.splice(space, undo, page, begin, 0, item, behind)?;
        self.write_count(space, undo, page, count + 1)
    }

    /// Puts the items of one page from `start` to `end` into another that has room for them, before those from a place
    /// on.
    pub fn put_items<const N: usize>(
        self,
        space: &mut Space<N>,
        undo: &mut Undo<N>,
        from: u32,
        start: usize,
        end: usize,
        page: u32,
        place: usize,
    ) -> Result<(), Shortage>
        requires width { self.key_bytes ≤ MAX_KEY_BYTES }
        requires from { HasPage space.old self.segment from }
        requires page { HasPage space.old self.segment page }
        requires part { (start ≤ end) × (end ≤ item_count (page_in space.old self from)) }
        requires from_items { item_offset self.key_bytes (item_count (page_in space.old self from)) ≤ N }
        requires place { place ≤ item_count (page_in space.old self page) }
        requires fits { item_offset self.key_bytes (item_count (page_in space.old self page) + (end - start)) ≤ N }
        requires undo_log { IsUndoLog N space.old undo.old }
        ensures writes { WritesSegment N self.segment space.old space.new undo.old undo.new }
        ensures nodes { OnOk result (nodes_in space.new self ≡ with_node (nodes_in space.old self) page
            (with_more (node_at (nodes_in space.old self) page) place (take (end - start) (drop start (node_at (nodes_in space.old self) from).items)))) }
        ensures pages { page_count space.new self.segment ≡ page_count space.old self.segment }
        ensures no_frame { IsErrOf result Shortage.NoFrame → IsOutOfFrames space.new }
    {
        space.sound();
        let first = node::run(self.page(space, from), self.key_bytes, start, end);
        let whole = space.page(self.segment, page);
        let count = node::count(whole.bytes());
        let behind = node::run(whole.bytes(), self.key_bytes, place, count);
        let items = joined(whole, first, behind);
        let size = first.len() + behind.len();
        let more = end - start + (count - place);
        self.write_behind(space, undo, page, place, &items.bytes()[..size], more)
    }

    /// Takes the items of a page from `start` to `end` out.
    pub fn take_items<const N: usize>(
        self,
        space: &mut Space<N>,
        undo: &mut Undo<N>,
        page: u32,
        start: usize,
        end: usize,
    ) -> Result<(), Shortage>
        requires width { self.key_bytes ≤ MAX_KEY_BYTES }
        requires page { HasPage space.old self.segment page }
        requires part { (start ≤ end) × (end ≤ item_count (page_in space.old self page)) }
        requires items { item_offset self.key_bytes (item_count (page_in space.old self page)) ≤ N }
        requires undo_log { IsUndoLog N space.old undo.old }
        ensures writes { WritesSegment N self.segment space.old space.new undo.old undo.new }
        ensures nodes { OnOk result (nodes_in space.new self ≡ with_node (nodes_in space.old self) page
            (without_items (node_at (nodes_in space.old self) page) start end)) }
        ensures pages { page_count space.new self.segment ≡ page_count space.old self.segment }
        ensures no_frame { IsErrOf result Shortage.NoFrame → IsOutOfFrames space.new }
    {
        space.sound();
        if end == self.count(space, page) {
            return self.write_count(space, undo, page, start);
        }
        self.close_gap(space, undo, page, start, end)
    }

    /// Moves the items of a page from `end` on to those from `start` on.
    fn close_gap<const N: usize>(
        self,
        space: &mut Space<N>,
        undo: &mut Undo<N>,
        page: u32,
        start: usize,
        end: usize,
    ) -> Result<(), Shortage>
        requires width { self.key_bytes ≤ MAX_KEY_BYTES }
        requires page { HasPage space.old self.segment page }
        requires part { (start ≤ end) × (end ≤ item_count (page_in space.old self page)) }
        requires items { item_offset self.key_bytes (item_count (page_in space.old self page)) ≤ N }
        requires undo_log { IsUndoLog N space.old undo.old }
        ensures writes { WritesSegment N self.segment space.old space.new undo.old undo.new }
        ensures nodes { OnOk result (nodes_in space.new self ≡ with_node (nodes_in space.old self) page
            (without_items (node_at (nodes_in space.old self) page) start end)) }
        ensures pages { page_count space.new self.segment ≡ page_count space.old self.segment }
        ensures no_frame { IsErrOf result Shortage.NoFrame → IsOutOfFrames space.new }
    {
        space.sound();
        let count = self.count(space, page);
        let begin = node::offset(self.key_bytes, start);
        let gap = (end - start) * self.item_bytes();
        let behind = (count - end) * self.item_bytes();
        self.splice(space, undo, page, begin, gap, &[], behind)?;
        self.write_count(space, undo, page, count - (end - start))
    }

    /// Gives an item another number.
    pub fn write_number<const N: usize>(
        self,
        space: &mut Space<N>,
        undo: &mut Undo<N>,
        page: u32,
        place: usize,
        number: u64,
    ) -> Result<(), Shortage>
        requires width { self.key_bytes ≤ MAX_KEY_BYTES }
        requires page { HasPage space.old self.segment page }
        requires place { place < item_count (page_in space.old self page) }
        requires items { item_offset self.key_bytes (item_count (page_in space.old self page)) ≤ N }
        requires undo_log { IsUndoLog N space.old undo.old }
        ensures writes { WritesSegment N self.segment space.old space.new undo.old undo.new }
        ensures nodes { OnOk result (nodes_in space.new self ≡ with_node (nodes_in space.old self) page
            (with_number (node_at (nodes_in space.old self) page) place number)) }
        ensures pages { page_count space.new self.segment ≡ page_count space.old self.segment }
        ensures no_frame { IsErrOf result Shortage.NoFrame → IsOutOfFrames space.new }
    {
        space.sound();
        let begin = node::offset(self.key_bytes, place) + self.key_bytes;
        let digits = number.to_le_bytes();
        self.write(space, undo, page, begin, &digits)
    }

    /// Gives an item another key.
    pub fn write_key<const N: usize>(
        self,
        space: &mut Space<N>,
        undo: &mut Undo<N>,
        page: u32,
        place: usize,
        key: &[u8],
    ) -> Result<(), Shortage>
        requires width { self.key_bytes ≤ MAX_KEY_BYTES }
        requires page { HasPage space.old self.segment page }
        requires place { place < item_count (page_in space.old self page) }
        requires items { item_offset self.key_bytes (item_count (page_in space.old self page)) ≤ N }
        requires size { length key.now ≡ self.key_bytes }
        requires undo_log { IsUndoLog N space.old undo.old }
        ensures writes { WritesSegment N self.segment space.old space.new undo.old undo.new }
        ensures nodes { OnOk result (nodes_in space.new self ≡ with_node (nodes_in space.old self) page
            (with_key (node_at (nodes_in space.old self) page) place key.now)) }
        ensures pages { page_count space.new self.segment ≡ page_count space.old self.segment }
        ensures no_frame { IsErrOf result Shortage.NoFrame → IsOutOfFrames space.new }
    {
        space.sound();
        let begin = node::offset(self.key_bytes, place);
        self.write(space, undo, page, begin, key)
    }
}
