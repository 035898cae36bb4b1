//! Relations.

ghost use Rattle.std.specs.Prelude.{◌≡◌, ℕ, ◌+◌, ◌^◌, ◌<◌, ◌≤◌, ◌++◌, ◌∷◌, [], ◌↔◌, ◌⊎◌, false, length, slice_set, Some, None, Err, IfOk, IfSome, OnOk, OnErr, IsErrOf};
ghost use Rattle.std.specs.Option.{option_map};
ghost use Rattle.hy_frames.specs.FrameTable.{free_of};
ghost use Rattle.hy_rows.specs.Spelling.{HasSlots, is_spanned, live_rows, rows_of};
ghost use Rattle.hy_space.specs.Space.{owner_bytes, page_count};
ghost use Rattle.hy_undo.specs.PrivatePages.{IsUndoLog};
ghost use Rattle.hy_undo.specs.Writes.{CanUndo, CanUndoGrowth, HasChild, IsOutOfFrames};
ghost use Rattle.hy_relation.specs.Relation.{ChangesSegment, HasAllSlotsUsed, HasFewPages, HasRelation, IsLive, frames_of_push, owner_pages, pages_after_push, pages_of_slot, relation_slots, row_in as row_in_slots};

use crate::lent::{know_sizes, slot_on, used_on};
use crate::slots::{
    ends_of, know_few, make_room, part_in, row_bytes_in, slot_in, used_of, write_count, write_slot,
};
use crate::view::{push_row, row_of};
use hy_frames::{Hold, Shortage};
use hy_rows::{ByteBuffer, FixedRow, Part, Row, WrittenPart};
use hy_space::Space;
use hy_undo::Undo;
use std::alloc::{AllocError, Global};
use std::marker::PhantomData;

/// The rows of one table on the pages of its segment.
#[derive(Clone, Copy)]
pub struct Relation<R> {
    rows: PhantomData<R>,
}

impl<R: Row> Relation<R> {
    /// The relation of a row type.
    pub fn new() -> Relation<R> {
        Relation { rows: PhantomData }
    }

    /// How many slots are used. A slot is used from its push on, also after its row was erased.
    pub fn slots<const N: usize>(&self, space: &Space<N>) -> u64
        requires { HasRelation N R.SEGMENT R.BYTES space.now }
        ensures count { result ≡ length (relation_slots N R.SEGMENT R.BYTES R.row_of_bytes space.now) }
        ensures small { result < 2 ^ 56 }
    {
        used_of::<R, N>(space)
    }

    /// Some columns of the row of a slot; none where it was erased or was never used.
    pub fn part<P: Part<R>, const N: usize>(&self, space: &Space<N>, slot: u64) -> Option<P>
        requires { HasRelation N R.SEGMENT R.BYTES space.now }
        ensures { result ≡ option_map P.part_of
            (row_in_slots (relation_slots N R.SEGMENT R.BYTES R.row_of_bytes space.now) slot) }
    {
        if slot < used_of::<R, N>(space) {
            part_in::<R, P, N>(space, slot)
        } else {
            None
        }
    }

    /// The bytes of the row of a slot that isn't spanned; none where it was erased or was never used.
    pub fn bytes<'a, const N: usize>(&self, space: &'a Space<N>, slot: u64) -> Option<&'a [u8]>
        requires slots { HasRelation N R.SEGMENT R.BYTES space.now }
        requires unspanned { is_spanned R.BYTES ≡ false }
        ensures row { option_map (λ bytes. R.row_of_bytes bytes.now) result
            ≡ row_in_slots (relation_slots N R.SEGMENT R.BYTES R.row_of_bytes space.now) slot }
        ensures width { IfSome result (λ bytes. length bytes.now ≡ R.BYTES) }
    {
        if slot < used_of::<R, N>(space) {
            row_bytes_in::<R, N>(space, slot)
        } else {
            None
        }
    }

    /// Looks at both ends of a slot, where it is used, and so has the processor fetch it. The number says nothing.
    pub fn glance<const N: usize>(&self, space: &Space<N>, slot: u64) -> u64
        requires { HasRelation N R.SEGMENT R.BYTES space.now }
    {
        if slot < used_of::<R, N>(space) {
            ends_of::<R, N>(space, slot)
        } else {
            0
        }
    }

    /// Puts another row into a slot that has one.
    pub fn put<const N: usize>(
        &self,
        space: &mut Space<N>,
        undo: &mut Undo<N>,
        slot: u64,
        row: &R,
    ) -> Result<(), Shortage>
        requires slots { HasRelation N R.SEGMENT R.BYTES space.old }
        requires live { IsLive (relation_slots N R.SEGMENT R.BYTES R.row_of_bytes space.old) slot }
        requires undo_log { IsUndoLog N space.old undo.old }
        ensures slots { OnOk result (HasRelation N R.SEGMENT R.BYTES space.new) }
        ensures put { OnOk result (relation_slots N R.SEGMENT R.BYTES R.row_of_bytes space.new
            ≡ slice_set (relation_slots N R.SEGMENT R.BYTES R.row_of_bytes space.old) slot (Some row.now)) }
        ensures only { OnOk result (ChangesSegment (owner_bytes space.old) (owner_bytes space.new) R.SEGMENT) }
        ensures can_undo { CanUndo N (pages_of_slot R.BYTES) space.old space.new undo.old undo.new }
        ensures few { HasFewPages N R.BYTES (owner_pages space.old R.SEGMENT)
            → HasFewPages N R.BYTES (owner_pages space.new R.SEGMENT) }
        ensures no_frame { result ≡ Err Shortage.NoFrame → IsOutOfFrames space.new }
        ensures err { OnErr result ((undo.new ≡ undo.old) × (owner_bytes space.new ≡ owner_bytes space.old)) }
    {
        space.sound();
        know_few::<R, N>(space);
        let other = row.slot();
        write_slot::<R, N>(space, undo, slot, 0, other.as_slice())
    }

    /// Puts other values of some columns into the row of a slot that has one.
    pub fn put_part<P: WrittenPart<R>, const N: usize>(
        &self,
        space: &mut Space<N>,
        undo: &mut Undo<N>,
        slot: u64,
        part: &P,
    ) -> Result<(), Shortage>
        requires slots { HasRelation N R.SEGMENT R.BYTES space.old }
        requires live { IsLive (relation_slots N R.SEGMENT R.BYTES R.row_of_bytes space.old) slot }
        requires undo_log { IsUndoLog N space.old undo.old }
        ensures slots { OnOk result (HasRelation N R.SEGMENT R.BYTES space.new) }
        ensures put { OnOk result (relation_slots N R.SEGMENT R.BYTES R.row_of_bytes space.new
            ≡ slice_set (relation_slots N R.SEGMENT R.BYTES R.row_of_bytes space.old) slot
            (option_map (λ row. P.with_part row part.now)
            (row_in_slots (relation_slots N R.SEGMENT R.BYTES R.row_of_bytes space.old) slot))) }
        ensures only { OnOk result (ChangesSegment (owner_bytes space.old) (owner_bytes space.new) R.SEGMENT) }
        ensures can_undo { CanUndo N (pages_of_slot R.BYTES) space.old space.new undo.old undo.new }
        ensures few { HasFewPages N R.BYTES (owner_pages space.old R.SEGMENT)
            → HasFewPages N R.BYTES (owner_pages space.new R.SEGMENT) }
        ensures no_frame { result ≡ Err Shortage.NoFrame → IsOutOfFrames space.new }
        ensures err { OnErr result ((undo.new ≡ undo.old) × (owner_bytes space.new ≡ owner_bytes space.old)) }
    {
        space.sound();
        know_few::<R, N>(space);
        let bytes = part.bytes();
        write_slot::<R, N>(space, undo, slot, 1 + P::OFFSET, bytes.as_slice())
    }

    /// Erases the row of a slot that has one. No later push uses the slot again.
    pub fn erase<const N: usize>(
        &self,
        space: &mut Space<N>,
        undo: &mut Undo<N>,
        slot: u64,
    ) -> Result<(), Shortage>
        requires slots { HasRelation N R.SEGMENT R.BYTES space.old }
        requires live { IsLive (relation_slots N R.SEGMENT R.BYTES R.row_of_bytes space.old) slot }
        requires undo_log { IsUndoLog N space.old undo.old }
        ensures slots { OnOk result (HasRelation N R.SEGMENT R.BYTES space.new) }
        ensures erased { OnOk result (relation_slots N R.SEGMENT R.BYTES R.row_of_bytes space.new
            ≡ slice_set (relation_slots N R.SEGMENT R.BYTES R.row_of_bytes space.old) slot None) }
        ensures only { OnOk result (ChangesSegment (owner_bytes space.old) (owner_bytes space.new) R.SEGMENT) }
        ensures can_undo { CanUndo N (pages_of_slot R.BYTES) space.old space.new undo.old undo.new }
        ensures few { HasFewPages N R.BYTES (owner_pages space.old R.SEGMENT)
            → HasFewPages N R.BYTES (owner_pages space.new R.SEGMENT) }
        ensures no_frame { result ≡ Err Shortage.NoFrame → IsOutOfFrames space.new }
        ensures err { OnErr result ((undo.new ≡ undo.old) × (owner_bytes space.new ≡ owner_bytes space.old)) }
    {
        space.sound();
        know_few::<R, N>(space);
        write_slot::<R, N>(space, undo, slot, 0, &[0])
    }

    /// Makes the relation without slots, on a segment that has no page.
    pub fn create<const N: usize>(
        &self,
        space: &mut Space<N>,
        undo: &Undo<N>,
    ) -> Result<(), Shortage>
        requires there { R.SEGMENT < length space.old.owner }
        requires empty { page_count space.old R.SEGMENT ≡ 0 }
        requires undo_log { IsUndoLog N space.old undo.now }
        ensures slots { OnOk result (HasRelation N R.SEGMENT R.BYTES space.new) }
        ensures empty { OnOk result (relation_slots N R.SEGMENT R.BYTES R.row_of_bytes space.new ≡ []) }
        ensures only { OnOk result (ChangesSegment (owner_bytes space.old) (owner_bytes space.new) R.SEGMENT) }
        ensures pages { OnOk result (length (owner_pages space.new R.SEGMENT) ≡ 1) }
        ensures few { OnOk result (HasFewPages N R.BYTES (owner_pages space.new R.SEGMENT)) }
        ensures can_undo { CanUndoGrowth N 0 1 space.old space.new undo.now undo.now }
        ensures full { IsErrOf result Shortage.NoFrame ↔ (free_of space.old.frames ≡ 0) }
        ensures err { OnErr result (space.new ≡ space.old) }
    {
        space.sound();
        undo.grow(space, R::SEGMENT)?;
        Ok(())
    }

    /// Adds a row in a new slot behind the used ones, and answers the slot's number. A refused call leaves the slots.
    pub fn push<const N: usize>(
        &self,
        space: &mut Space<N>,
        undo: &mut Undo<N>,
        row: &R,
    ) -> Result<u64, Shortage>
        requires slots { HasRelation N R.SEGMENT R.BYTES space.old }
        requires undo_log { IsUndoLog N space.old undo.old }
        ensures slots { HasRelation N R.SEGMENT R.BYTES space.new }
        ensures pushed { OnOk result (relation_slots N R.SEGMENT R.BYTES R.row_of_bytes space.new
            ≡ relation_slots N R.SEGMENT R.BYTES R.row_of_bytes space.old ++ Some row.now ∷ []) }
        ensures number { IfOk result (λ slot. slot
            ≡ length (relation_slots N R.SEGMENT R.BYTES R.row_of_bytes space.old)) }
        ensures only { ChangesSegment (owner_bytes space.old) (owner_bytes space.new) R.SEGMENT }
        ensures pages { OnOk result (length (owner_pages space.new R.SEGMENT)
            ≡ pages_after_push N R.BYTES (owner_pages space.old R.SEGMENT)) }
        ensures few { HasFewPages N R.BYTES (owner_pages space.old R.SEGMENT)
            → HasFewPages N R.BYTES (owner_pages space.new R.SEGMENT) }
        ensures can_undo { CanUndoGrowth N (1 + pages_of_slot R.BYTES) (frames_of_push R.BYTES) space.old space.new undo.old undo.new }
        ensures no_frame { result ≡ Err Shortage.NoFrame → free_of space.new.frames ≡ 0 }
        ensures wanted { result ≡ Err Shortage.NoFrame → HasChild space.new
            ⊎ HasAllSlotsUsed N R.BYTES (owner_pages space.old R.SEGMENT) }
        ensures kept { OnErr result (relation_slots N R.SEGMENT R.BYTES R.row_of_bytes space.new
            ≡ relation_slots N R.SEGMENT R.BYTES R.row_of_bytes space.old) }
    {
        space.sound();
        know_few::<R, N>(space);
        let slot = used_of::<R, N>(space);
        make_room::<R, N>(space, undo)?;
        space.sound();
        let bytes = row.slot();
        write_slot::<R, N>(space, undo, slot, 0, bytes.as_slice())?;
        write_count::<R, N>(space, undo, slot + 1)?;
        Ok(slot)
    }

    /// The rows, in the order of their slots. Only memory can lack.
    pub fn scan<const N: usize>(
        &self,
        alloc: Global,
        space: &Space<N>,
    ) -> Result<Vec<R>, AllocError>
        requires { HasRelation N R.SEGMENT R.BYTES space.now }
        ensures { IfOk result (λ rows. rows.items
            ≡ live_rows (relation_slots N R.SEGMENT R.BYTES R.row_of_bytes space.now)) }
    {
        let mut rows = Vec::new(alloc);
        for slot in 0..used_of::<R, N>(space) {
            push_row(alloc, &mut rows, slot_in::<R, N>(space, slot).as_slice())?;
        }
        Ok(rows)
    }

    /// The rows on lent pages of the segment, in the order of their slots. Only memory can lack.
    pub fn scan_pages<const N: usize>(
        &self,
        alloc: Global,
        pages: &[Hold<N>],
    ) -> Result<Vec<R>, AllocError>
        requires slots { HasSlots N R.BYTES pages.now }
        requires few { length pages.now < 2 ^ 32 }
        requires size { 256 ≤ N }
        requires small { N ≤ 65536 }
        ensures { IfOk result (λ rows. rows.items ≡ rows_of N R.BYTES R.row_of_bytes pages.now) }
    {
        know_sizes(pages);
        let mut rows = Vec::new(alloc);
        for slot in 0..used_on::<R, N>(pages) {
            push_row(alloc, &mut rows, slot_on::<R, N>(pages, slot).as_slice())?;
        }
        Ok(rows)
    }
}

impl<R: FixedRow> Relation<R> {
    /// The row of a slot; none where it was erased or was never used.
    pub fn get<const N: usize>(&self, space: &Space<N>, slot: u64) -> Option<R>
        requires { HasRelation N R.SEGMENT R.BYTES space.now }
        ensures { result ≡ row_in_slots (relation_slots N R.SEGMENT R.BYTES R.row_of_bytes space.now) slot }
    {
        if slot < used_of::<R, N>(space) {
            row_of(slot_in::<R, N>(space, slot).as_slice())
        } else {
            None
        }
    }
}
