//! The slots of a segment of the owner.

ghost use Rattle.std.specs.Prelude.{◌≡◌, ℕ, List, ◌+◌, ◌*◌, ◌/◌, ◌^◌, ◌<◌, ◌≤◌, ◌∷◌, ◌++◌, ◌⊎◌, false, length, Err, IfSome, OnOk, OnErr};
ghost use Rattle.std.specs.Option.{option_map};
ghost use Rattle.hy_page.specs.Bytes.{bytes_at, overwritten};
ghost use Rattle.hy_frames.specs.FrameTable.{free_of};
ghost use Rattle.hy_rows.specs.Spelling.{is_live, is_spanned, least_page, row_of_slot, slot_at, slot_bytes, slot_start, slot_width, slots_end, used_slots};
ghost use Rattle.hy_rows.specs.declared.catalogue.TheConstants.{MAX_SLOT_BYTES};
ghost use Rattle.hy_space.specs.Space.{HasPage, IsOwn, owner_bytes};
ghost use Rattle.hy_undo.specs.PrivatePages.{IsUndoLog};
ghost use Rattle.hy_undo.specs.Writes.{CanUndo, CanUndoGrowth, IsOutOfFrames};
ghost use Rattle.hy_relation.specs.Relation.{ChangesSegment, HasAllSlotsUsed, HasFewPages, HasRelation, owner_pages, pages_after_push, pages_of_slot};
ghost use Rattle.hy_relation.specs.inside.Addresses.{CountsSlots, GrowsSlots, WritesJoined, slot_offset, slot_page};
ghost use Rattle.hy_relation.specs.inside.Views.{bytes_of_view};

use crate::address::{Address, address_behind, address_of, is_spanned, last_page_of};
use crate::view::{SlotCopy, SlotView, is_live, push_bytes};
use hy_frames::Shortage;
use hy_page::Page;
use hy_rows::{Part, Row};
use hy_space::Space;
use hy_undo::Undo;

/// How many slots the table of a row type has used.
pub(crate) fn used_of<R: Row, const N: usize>(space: &Space<N>) -> u64
    requires { HasRelation N R.SEGMENT R.BYTES space.now }
    ensures value { result ≡ used_slots (owner_pages space.now R.SEGMENT) }
    ensures small { result < 2 ^ 56 }
{
    space.sound();
    space.read(R::SEGMENT, 0, 0, 8)
}

/// A relation has few slots, for its pages are few.
pub(crate) fn know_few<R: Row, const N: usize>(space: &Space<N>)
    requires { HasRelation N R.SEGMENT R.BYTES space.now }
    ensures used { used_slots (owner_pages space.now R.SEGMENT) < 2 ^ 56 }
    ensures ends { slots_end N R.BYTES (used_slots (owner_pages space.now R.SEGMENT)) < 2 ^ 48 }
{
    space.sound();
}

/// Where a used slot begins.
fn address_in<R: Row, const N: usize>(space: &Space<N>, slot: u64) -> Address
    requires slots { HasRelation N R.SEGMENT R.BYTES space.now }
    requires used { slot < used_slots (owner_pages space.now R.SEGMENT) }
    ensures page { result.page ≡ slot_page N R.BYTES slot }
    ensures offset { result.offset ≡ slot_offset N R.BYTES slot }
    ensures within { result.offset < N }
    ensures fits { is_spanned R.BYTES ≡ false → result.offset + slot_width R.BYTES ≤ N }
    ensures there { HasPage space.now R.SEGMENT result.page }
    ensures small { result.page < 2 ^ 32 }
{
    space.sound();
    address_of(N, R::BYTES, slot)
}

/// A copy of `total` bytes of a used slot, behind as many as are skipped, from as many pages as they lie on.
fn copy_of<R: Row, const N: usize>(
    space: &Space<N>,
    slot: u64,
    skip: usize,
    total: usize,
) -> SlotCopy
    requires slots { HasRelation N R.SEGMENT R.BYTES space.now }
    requires used { slot < used_slots (owner_pages space.now R.SEGMENT) }
    requires inside { skip + total ≤ slot_width R.BYTES }
    requires short { total ≤ MAX_SLOT_BYTES }
    ensures { result.items ≡ bytes_at (slot_bytes (owner_pages space.now R.SEGMENT)) (slot_start N R.BYTES slot + skip) total }
{
    space.sound();
    know_few::<R, N>(space);
    let at = address_behind(N, R::BYTES, slot, skip);
    let mut bytes = SlotCopy::new();
    let mut page = at.page as u32;
    let mut offset = at.offset;
    while bytes.len() < total {
        let count = (total - bytes.len()).min(N - offset);
        push_bytes(
            &mut bytes,
            &space.page(R::SEGMENT, page).bytes()[offset..offset + count],
        );
        page += 1;
        offset = 0;
    }
    bytes
}

/// The bytes of a used slot.
pub(crate) fn slot_in<R: Row, const N: usize>(space: &Space<N>, slot: u64) -> SlotView<'_>
    requires slots { HasRelation N R.SEGMENT R.BYTES space.now }
    requires used { slot < used_slots (owner_pages space.now R.SEGMENT) }
    ensures bytes { bytes_of_view result ≡ slot_at N R.BYTES (owner_pages space.now R.SEGMENT) slot }
    ensures width { length (bytes_of_view result) ≡ slot_width R.BYTES }
{
    space.sound();
    let at = address_in::<R, N>(space, slot);
    if !is_spanned(R::BYTES) || at.offset + 1 + R::BYTES <= N {
        let page = space.page(R::SEGMENT, at.page as u32).bytes();
        SlotView::Lent(&page[at.offset..at.offset + 1 + R::BYTES])
    } else {
        SlotView::Copied(copy_of::<R, N>(space, slot, 0, 1 + R::BYTES))
    }
}

/// Some columns of the row of a used slot, if the slot is live.
pub(crate) fn part_in<R: Row, P: Part<R>, const N: usize>(space: &Space<N>, slot: u64) -> Option<P>
    requires slots { HasRelation N R.SEGMENT R.BYTES space.now }
    requires used { slot < used_slots (owner_pages space.now R.SEGMENT) }
    ensures { result ≡ option_map P.part_of (row_of_slot R.row_of_bytes
        (slot_at N R.BYTES (owner_pages space.now R.SEGMENT) slot)) }
{
    space.sound();
    let at = address_in::<R, N>(space, slot);
    let page = space.page(R::SEGMENT, at.page as u32).bytes();
    if !is_live(&page[at.offset..at.offset + 1]) {
        return None;
    }
    let from = at.offset + 1 + P::OFFSET;
    if !is_spanned(R::BYTES) || from + P::WIDTH <= N {
        Some(P::decode_part(&page[from..from + P::WIDTH]))
    } else {
        Some(P::decode_part(copy_of::<R, N>(space, slot, 1 + P::OFFSET, P::WIDTH).as_slice()))
    }
}

/// The bytes of the row of the slot at an offset of a page, if the slot is live.
fn bytes_in_slot<R: Row, const N: usize>(page: &Page<N>, offset: usize) -> Option<&[u8]>
    requires { offset + slot_width R.BYTES ≤ N }
    ensures row { option_map (λ bytes. R.row_of_bytes bytes.now) result
        ≡ row_of_slot R.row_of_bytes (bytes_at page.now offset (slot_width R.BYTES)) }
    ensures width { IfSome result (λ bytes. length bytes.now ≡ R.BYTES) }
{
    let slot = &page.bytes()[offset..offset + 1 + R::BYTES];
    let is_live = slot[0] == 1;
    if is_live { Some(&slot[1..]) } else { None }
}

/// The bytes of the row of a used slot, if the slot is live.
pub(crate) fn row_bytes_in<R: Row, const N: usize>(space: &Space<N>, slot: u64) -> Option<&[u8]>
    requires slots { HasRelation N R.SEGMENT R.BYTES space.now }
    requires used { slot < used_slots (owner_pages space.now R.SEGMENT) }
    requires unspanned { is_spanned R.BYTES ≡ false }
    ensures row { option_map (λ bytes. R.row_of_bytes bytes.now) result
        ≡ row_of_slot R.row_of_bytes (slot_at N R.BYTES (owner_pages space.now R.SEGMENT) slot) }
    ensures width { IfSome result (λ bytes. length bytes.now ≡ R.BYTES) }
{
    space.sound();
    let address = address_in::<R, N>(space, slot);
    bytes_in_slot::<R, N>(space.page(R::SEGMENT, address.page as u32), address.offset)
}

/// The first byte of a used slot and the last one on the same page, mixed into one.
pub(crate) fn ends_of<R: Row, const N: usize>(space: &Space<N>, slot: u64) -> u64
    requires slots { HasRelation N R.SEGMENT R.BYTES space.now }
    requires used { slot < used_slots (owner_pages space.now R.SEGMENT) }
{
    space.sound();
    let at = address_in::<R, N>(space, slot);
    let page = space.page(R::SEGMENT, at.page as u32).bytes();
    let ends = page[at.offset] ^ page[(at.offset + R::BYTES).min(N - 1)];
    ends.into()
}

/// Writes bytes into a slot whose pages are there, behind as many of its bytes as are skipped, and keeps those that they
/// take away.
pub(crate) fn write_slot<R: Row, const N: usize>(
    space: &mut Space<N>,
    undo: &mut Undo<N>,
    slot: u64,
    skip: usize,
    bytes: &[u8],
) -> Result<(), Shortage>
    requires there { slot_start N R.BYTES slot + slot_width R.BYTES
        ≤ length (slot_bytes (owner_pages space.old R.SEGMENT)) }
    requires number { slots_end N R.BYTES slot < 2 ^ 48 }
    requires within { skip + length bytes.now ≤ slot_width R.BYTES }
    requires undo_log { IsUndoLog N space.old undo.old }
    ensures slot { OnOk result (WritesJoined (owner_pages space.old R.SEGMENT) (owner_pages space.new R.SEGMENT)
        (slot_start N R.BYTES slot + skip) bytes.now) }
    ensures only { OnOk result (ChangesSegment (owner_bytes space.old) (owner_bytes space.new) R.SEGMENT) }
    ensures few { HasFewPages N R.BYTES (owner_pages space.old R.SEGMENT)
        → HasFewPages N R.BYTES (owner_pages space.new R.SEGMENT) }
    ensures can_undo { CanUndo N (pages_of_slot R.BYTES) space.old space.new undo.old undo.new }
    ensures no_frame { result ≡ Err Shortage.NoFrame → IsOutOfFrames space.new }
    ensures free { is_spanned R.BYTES ≡ false → IsOwn space.old R.SEGMENT (slot_page N R.BYTES slot)
        → free_of space.new.frames ≡ free_of space.old.frames }
    ensures err { OnErr result ((undo.new ≡ undo.old) × (owner_bytes space.new ≡ owner_bytes space.old)) }
{
    if is_spanned(R::BYTES) {
        write_spanned::<R, N>(space, undo, slot, skip, bytes)
    } else {
        write_unspanned::<R, N>(space, undo, slot, skip, bytes)
    }
}

/// Writes bytes into a slot on one page.
fn write_unspanned<R: Row, const N: usize>(
    space: &mut Space<N>,
    undo: &mut Undo<N>,
    slot: u64,
    skip: usize,
    bytes: &[u8],
) -> Result<(), Shortage>
    requires unspanned { is_spanned R.BYTES ≡ false }
    requires there { slot_start N R.BYTES slot + slot_width R.BYTES
        ≤ length (slot_bytes (owner_pages space.old R.SEGMENT)) }
    requires number { slots_end N R.BYTES slot < 2 ^ 48 }
    requires within { skip + length bytes.now ≤ slot_width R.BYTES }
    requires undo_log { IsUndoLog N space.old undo.old }
    ensures slot { OnOk result (WritesJoined (owner_pages space.old R.SEGMENT) (owner_pages space.new R.SEGMENT)
        (slot_start N R.BYTES slot + skip) bytes.now) }
    ensures only { OnOk result (ChangesSegment (owner_bytes space.old) (owner_bytes space.new) R.SEGMENT) }
    ensures few { HasFewPages N R.BYTES (owner_pages space.old R.SEGMENT)
        → HasFewPages N R.BYTES (owner_pages space.new R.SEGMENT) }
    ensures can_undo { CanUndo N 1 space.old space.new undo.old undo.new }
    ensures no_frame { result ≡ Err Shortage.NoFrame → IsOutOfFrames space.new }
    ensures free { IsOwn space.old R.SEGMENT (slot_page N R.BYTES slot)
        → free_of space.new.frames ≡ free_of space.old.frames }
    ensures err { OnErr result ((undo.new ≡ undo.old) × (owner_bytes space.new ≡ owner_bytes space.old)) }
{
    space.sound();
    let at = address_of(N, R::BYTES, slot);
    let written = undo.write(space, R::SEGMENT, at.page as u32, at.offset + skip, bytes);
    space.sound();
    written
}

/// Writes bytes into a slot over the ends of pages.
fn write_spanned<R: Row, const N: usize>(
    space: &mut Space<N>,
    undo: &mut Undo<N>,
    slot: u64,
    skip: usize,
    bytes: &[u8],
) -> Result<(), Shortage>
    requires there { slot_start N R.BYTES slot + slot_width R.BYTES
        ≤ length (slot_bytes (owner_pages space.old R.SEGMENT)) }
    requires number { slots_end N R.BYTES slot < 2 ^ 48 }
    requires within { skip + length bytes.now ≤ slot_width R.BYTES }
    requires undo_log { IsUndoLog N space.old undo.old }
    ensures slot { OnOk result (WritesJoined (owner_pages space.old R.SEGMENT) (owner_pages space.new R.SEGMENT)
        (slot_start N R.BYTES slot + skip) bytes.now) }
    ensures only { OnOk result (ChangesSegment (owner_bytes space.old) (owner_bytes space.new) R.SEGMENT) }
    ensures few { HasFewPages N R.BYTES (owner_pages space.old R.SEGMENT)
        → HasFewPages N R.BYTES (owner_pages space.new R.SEGMENT) }
    ensures can_undo { CanUndo N (slot_width R.BYTES / least_page + 2) space.old space.new undo.old undo.new }
    ensures no_frame { result ≡ Err Shortage.NoFrame → IsOutOfFrames space.new }
    ensures err { OnErr result ((undo.new ≡ undo.old) × (owner_bytes space.new ≡ owner_bytes space.old)) }
{
    space.sound();
    let at = address_behind(N, R::BYTES, slot, skip);
    let written = undo.write_across(space, R::SEGMENT, at.page as u32, at.offset, bytes);
    space.sound();
    written
}

/// Writes how many slots are used.
pub(crate) fn write_count<R: Row, const N: usize>(
    space: &mut Space<N>,
    undo: &mut Undo<N>,
    count: u64,
) -> Result<(), Shortage>
    requires there { 0 < length (owner_pages space.old R.SEGMENT) }
    requires undo_log { IsUndoLog N space.old undo.old }
    ensures count { OnOk result (CountsSlots (owner_pages space.old R.SEGMENT)
        (owner_pages space.new R.SEGMENT) count) }
    ensures only { OnOk result (ChangesSegment (owner_bytes space.old) (owner_bytes space.new) R.SEGMENT) }
    ensures can_undo { CanUndo N 1 space.old space.new undo.old undo.new }
    ensures no_frame { result ≡ Err Shortage.NoFrame → IsOutOfFrames space.old }
    ensures err { OnErr result ((undo.new ≡ undo.old) × (space.new ≡ space.old)) }
{
    space.sound();
    let number = count.to_le_bytes();
    undo.write(space, R::SEGMENT, 0, 0, &number)
}

/// Makes pages for the slot behind the used ones, where there are too few. A refused call may leave one less.
pub(crate) fn make_room<R: Row, const N: usize>(
    space: &mut Space<N>,
    undo: &Undo<N>,
) -> Result<(), Shortage>
    requires slots { HasRelation N R.SEGMENT R.BYTES space.old }
    requires undo_log { IsUndoLog N space.old undo.now }
    ensures room { OnOk result (slot_start N R.BYTES (used_slots (owner_pages space.old R.SEGMENT)) + slot_width R.BYTES
        ≤ length (slot_bytes (owner_pages space.new R.SEGMENT))) }
    ensures grows { GrowsSlots (owner_pages space.old R.SEGMENT) (owner_pages space.new R.SEGMENT) }
    ensures pages { OnOk result (length (owner_pages space.new R.SEGMENT)
        ≡ pages_after_push N R.BYTES (owner_pages space.old R.SEGMENT)) }
    ensures few { HasFewPages N R.BYTES (owner_pages space.old R.SEGMENT)
        → HasFewPages N R.BYTES (owner_pages space.new R.SEGMENT) }
    ensures own { OnOk result (is_spanned R.BYTES ≡ false → (free_of space.new.frames ≡ free_of space.old.frames)
        ⊎ IsOwn space.new R.SEGMENT (slot_page N R.BYTES (used_slots (owner_pages space.old R.SEGMENT)))) }
    ensures only { ChangesSegment (owner_bytes space.old) (owner_bytes space.new) R.SEGMENT }
    ensures can_undo { CanUndoGrowth N 0 (pages_of_slot R.BYTES) space.old space.new undo.now undo.now }
    ensures no_frame { result ≡ Err Shortage.NoFrame → free_of space.new.frames ≡ 0 }
    ensures wanted { result ≡ Err Shortage.NoFrame
        → HasAllSlotsUsed N R.BYTES (owner_pages space.old R.SEGMENT) }
{
    space.sound();
    let last = last_page_of(N, R::BYTES, used_of::<R, N>(space));
    while u64::from(space.pages(R::SEGMENT)) <= last {
        undo.grow(space, R::SEGMENT)?;
    }
    space.sound();
    Ok(())
}
