//! The undo log of the running transaction over a space of pages: for each write the bytes that it took away, so that
//! the pages can be made what they were.
#![tactic(auto)]

ghost use Rattle.std.specs.Prelude.{◌≡◌, ℕ, [], ◌++◌, ◌+◌, ◌*◌, ◌<◌, ◌≤◌, ◌↔◌, IsTrue, length, max, slice_index, slice_index_or, replicate, Some, IsSome, IfOk, OnOk, OnErr, IsErrOf};
ghost use Rattle.std.specs.List.{AllByRecursion};
ghost use Rattle.hy_page.specs.Bytes.{bytes_at, overwritten};
ghost use Rattle.hy_frames.specs.FrameTable.{count_of, lent_at, free_of};
ghost use Rattle.hy_space.specs.Space.{HasPage, IsPrivate, KeepsOwn, IsLeastFree, SameForOwner, SameForOthers, child_table, child_bytes, child_times, owner_bytes, page_count, page_bytes, frame_no, with_page, with_new_page, with_new_frame, with_first_pages, GrowsPage, LacksFrame, ChangesBytesOf, WritesPage};
ghost use Rattle.hy_undo.specs.UndoLog.{first_pages, put_back, restored, undone, empty_log, image_at, with_image};
ghost use Rattle.hy_undo.specs.inside.RollBack.{last_image, without_last};
ghost use Rattle.hy_undo.specs.Writes.{CanUndo, IsOutOfFrames, WritesAcross, pages_of_part};
ghost use Rattle.hy_undo.specs.Touched.{touched};
ghost use Rattle.hy_undo.specs.Fork.{IsAsBefore};
ghost use Rattle.hy_undo.specs.inside.Fork.{rows_of, child_pages, IsBeside, SharesGrown, ChangesChild, AllSplit, AllGrownApart, IsOfPage, IsWritableIn};
ghost use Rattle.hy_undo.specs.PrivatePages.{IsUndoLog, UndoesTheSame, LogsImage, GivesUpPages};
ghost use Rattle.hy_undo.specs.inside.RollBack.{IsPrivateWhereThere, KeepsTable};

mod images;

use hy_frames::Shortage;
use hy_space::Space;
use images::{Images, LastImage};
use std::alloc::{AllocError, Global};
use std::marker::Model;

/// What the running transaction did to a space with pages of `N` bytes. One buffer serves one transaction after
/// another.
#[derive(Drop)]
pub struct Undo<const N: usize> {
    counts: Vec<u32>,
    images: Images,
}

// Clauses see the page counts at the begin, and the images.
impl<const N: usize> Model for Undo<N> {
    ghost use Rattle.hy_undo.specs.UndoLog.{UndoLog};

    ghost Value = { UndoLog };

    ghost view = { λ undo. record { counts = undo.counts.items; images = undo.images } };
}

impl<const N: usize> Undo<N> {
    /// The log of a transaction that begins now.
    pub fn new(alloc: Global, space: &Space<N>) -> Result<Undo<N>, AllocError>
        ensures log { IfOk result (λ log. log ≡ empty_log space.now) }
        ensures undone { IfOk result
            (λ log. undone (owner_bytes space.now) log ≡ owner_bytes space.now) }
        ensures undo_log { IfOk result (λ log. IsUndoLog N space.now log) }
    {
        let mut counts = Vec::new(alloc);
        for segment in 0..space.segments() {
            counts.push(space.pages(segment))?;
        }
        Ok(Undo {
            counts,
            images: Images::new(alloc),
        })
    }

    /// Writes bytes into the owner's page over those from `offset` on, and keeps those for an undo. Where the buffers
    /// have room and the page is private, this needs no memory.
    pub fn write(
        &mut self,
        space: &mut Space<N>,
        segment: u32,
        page: u32,
        offset: usize,
        bytes: &[u8],
    ) -> Result<(), Shortage>
        requires there { HasPage space.old segment page }
        requires within { offset + length bytes.now ≤ N }
        requires undo_log { IsUndoLog N space.old self.old }
        ensures bytes { OnOk result (owner_bytes space.new
            ≡ with_page (owner_bytes space.old) segment page
            (overwritten (page_bytes space.old segment page) offset bytes.now)) }
        ensures logs { OnOk result (LogsImage space.old space.new self.old self.new
            (image_at space.old segment page offset (length bytes.now))) }
        ensures undoes { UndoesTheSame N space.old space.new self.old self.new }
        ensures full { IsErrOf result Shortage.NoFrame ↔ LacksFrame space.old segment page }
        ensures err { OnErr result ((self.new ≡ self.old) × (space.new ≡ space.old)) }
    {
        space.sound();
        self.keep_touched(space, segment, page, offset, bytes.len())?;
        space.write_in_place(segment, page, offset, bytes);
        Ok(())
    }

    /// Writes bytes from an offset of a page on, over the ends of pages, and keeps those that they take away. A refused call
    /// leaves all bytes and this log as they were; pages that it made private stay so.
    pub fn write_across(
        &mut self,
        space: &mut Space<N>,
        segment: u32,
        page: u32,
        offset: usize,
        bytes: &[u8],
    ) -> Result<(), Shortage>
        requires segment { segment < length space.old.owner }
        requires offset { offset < N }
        requires within { page * N + offset + length bytes.now ≤ page_count space.old segment * N }
        requires undo_log { IsUndoLog N space.old self.old }
        ensures bytes { OnOk result (WritesAcross (owner_bytes space.old) (owner_bytes space.new) segment
            (page * N + offset) bytes.now) }
        ensures can_undo { CanUndo N (pages_of_part N offset (length bytes.now)) space.old space.new self.old self.new }
        ensures no_frame { IsErrOf result Shortage.NoFrame → IsOutOfFrames space.new }
        ensures err { OnErr result ((self.new ≡ self.old) × (owner_bytes space.new ≡ owner_bytes space.old)) }
    {
        space.sound();
        if bytes.is_empty() {
            return Ok(());
        }
        let room = N - offset;
        if bytes.len() <= room {
            return self.write_part(space, segment, page, offset, bytes);
        }
        self.write_part(space, segment, page, offset, &bytes[..room])?;
        match self.write_across(space, segment, page + 1, 0, &bytes[room..]) {
            Ok(()) => Ok(()),
            Err(shortage) => {
                self.take_back(space);
                Err(shortage)
            }
        }
    }

    /// Writes bytes into one page, as a part of those that go over the ends of pages.
    fn write_part(
        &mut self,
        space: &mut Space<N>,
        segment: u32,
        page: u32,
        offset: usize,
        bytes: &[u8],
    ) -> Result<(), Shortage>
        requires there { HasPage space.old segment page }
        requires within { offset + length bytes.now ≤ N }
        requires undo_log { IsUndoLog N space.old self.old }
        ensures bytes { OnOk result (owner_bytes space.new
            ≡ with_page (owner_bytes space.old) segment page
            (overwritten (page_bytes space.old segment page) offset bytes.now)) }
        ensures across { OnOk result (WritesAcross (owner_bytes space.old) (owner_bytes space.new) segment
            (page * N + offset) bytes.now) }
        ensures image { OnOk result (self.new
            ≡ with_image self.old (image_at space.old segment page offset (length bytes.now))) }
        ensures can_undo { CanUndo N 1 space.old space.new self.old self.new }
        ensures undo_log { IsUndoLog N space.new self.new }
        ensures segments { length space.new.owner ≡ length space.old.owner }
        ensures pages { page_count space.new segment ≡ page_count space.old segment }
        ensures no_frame { IsErrOf result Shortage.NoFrame → IsOutOfFrames space.new }
        ensures err { OnErr result ((self.new ≡ self.old) × (owner_bytes space.new ≡ owner_bytes space.old)) }
    {
        space.sound();
        self.write(space, segment, page, offset, bytes)
    }

    /// Puts the bytes of the last write back, and forgets the write.
    fn take_back(&mut self, space: &mut Space<N>)
        requires some { 0 < length self.old.images }
        requires undo_log { IsUndoLog N space.old self.old }
        ensures log { self.new ≡ without_last self.old }
        ensures bytes { owner_bytes space.new ≡ put_back (owner_bytes space.old) (last_image self.old) }
        ensures undo_log { IsUndoLog N space.new self.new }
        ensures keeps { KeepsTable space.old space.new }
    {
        put_image_back(space, self.images.last());
        self.images.drop_last();
    }

    /// Puts bytes into the owner's page in the place of `gap` others from `offset` on, and moves the `count` bytes behind
    /// these to where the new ones end. What is overwritten is kept for an undo, and is where the moved bytes are read.
    pub fn splice(
        &mut self,
        space: &mut Space<N>,
        segment: u32,
        page: u32,
        offset: usize,
        gap: usize,
        bytes: &[u8],
        count: usize,
    ) -> Result<(), Shortage>
        requires there { HasPage space.old segment page }
        requires within { offset + (max gap (length bytes.now) + count) ≤ N }
        requires undo_log { IsUndoLog N space.old self.old }
        ensures bytes { OnOk result (owner_bytes space.new
            ≡ with_page (owner_bytes space.old) segment page
            (overwritten (page_bytes space.old segment page) offset
            (bytes.now ++ bytes_at (page_bytes space.old segment page) (offset + gap) count))) }
        ensures logs { OnOk result (LogsImage space.old space.new self.old self.new
            (image_at space.old segment page offset (max gap (length bytes.now) + count))) }
        ensures undoes { UndoesTheSame N space.old space.new self.old self.new }
        ensures full { IsErrOf result Shortage.NoFrame ↔ LacksFrame space.old segment page }
        ensures err { OnErr result ((self.new ≡ self.old) × (space.new ≡ space.old)) }
    {
        space.sound();
        let size = gap.max(bytes.len()) + count;
        self.keep_touched(space, segment, page, offset, size)?;
        let moved = self.images.last_part(gap, count);
        write_both(space, segment, page, offset, bytes, moved);
        Ok(())
    }

    /// Keeps `count` bytes of a page from `offset` on, and makes the page private.
    fn keep_touched(
        &mut self,
        space: &mut Space<N>,
        segment: u32,
        page: u32,
        offset: usize,
        count: usize,
    ) -> Result<(), Shortage>
        requires there { HasPage space.old segment page }
        requires within { offset + count ≤ N }
        requires undo_log { IsUndoLog N space.old self.old }
        ensures bytes { OnOk result (owner_bytes space.new ≡ owner_bytes space.old) }
        ensures logs { OnOk result (LogsImage space.old space.new self.old self.new
            (image_at space.old segment page offset count)) }
        ensures undoes { UndoesTheSame N space.old space.new self.old self.new }
        ensures full { IsErrOf result Shortage.NoFrame ↔ LacksFrame space.old segment page }
        ensures err { OnErr result ((self.new ≡ self.old) × (space.new ≡ space.old)) }
    {
        space.sound();
        if space.lacks_frame(segment, page) {
            return Err(Shortage::NoFrame);
        }
        if self.keep(space, segment, page, offset, count).is_err() {
            return Err(Shortage::NoMemory);
        }
        match space.touch(segment, page) {
            Ok(()) => Ok(()),
            Err(shortage) => {
                self.images.drop_last();
                Err(shortage)
            }
        }
    }

    /// Keeps `count` bytes of a page from `offset` on, as they are now.
    fn keep(
        &mut self,
        space: &Space<N>,
        segment: u32,
        page: u32,
        offset: usize,
        count: usize,
    ) -> Result<(), AllocError>
        requires there { HasPage space.now segment page }
        requires within { offset + count ≤ N }
        ensures image { OnOk result (self.new
            ≡ with_image self.old (image_at space.now segment page offset count)) }
        ensures err { OnErr result (self.new ≡ self.old) }
    {
        space.sound();
        let whole = space.page(segment, page).bytes();
        self.images.push(segment, page, offset as u32, &whole[offset..offset + count])
    }

    /// Adds a page of zeros at a segment's end, and answers its number. An undo cuts it off.
    pub fn grow(&self, space: &mut Space<N>, segment: u32) -> Result<u32, Shortage>
        requires there { segment < length space.old.owner }
        requires undo_log { IsUndoLog N space.old self.now }
        ensures grows { IfOk result (GrowsPage N space.old space.new segment) }
        ensures undoes { UndoesTheSame N space.old space.new self.now self.now }
        ensures full { IsErrOf result Shortage.NoFrame ↔ (free_of space.old.frames ≡ 0) }
        ensures err { OnErr result (space.new ≡ space.old) }
    {
        let page = space.grow(segment)?;
        Ok(page)
    }

    /// How many different pages that were there at the begin were written since then.
    pub fn touched(&self) -> u64
        ensures { result ≡ touched self.now }
    {
        self.images.touched(self.counts.as_slice())
    }

    /// Lets the writes stand, and begins again. This needs no memory, and the buffers keep their room.
    pub fn commit(&mut self, space: &Space<N>)
        requires { length self.old.counts ≡ length space.now.owner }
        ensures log { self.new ≡ empty_log space.now }
        ensures undone { undone (owner_bytes space.now) self.new ≡ owner_bytes space.now }
        ensures undo_log { IsUndoLog N space.now self.new }
    {
        for segment in 0..space.segments() {
            self.counts[segment as usize] = space.pages(segment);
        }
        self.images.clear();
    }

    /// Cuts off the pages that were grown since the begin. This needs no memory.
    fn cut_grown(&self, space: &mut Space<N>)
        requires { IsUndoLog N space.old self.now }
        ensures bytes { owner_bytes space.new ≡ first_pages self.now.counts (owner_bytes space.old) }
        ensures private { AllByRecursion (IsPrivateWhereThere N space.new) self.now.images }
        ensures gives_up { GivesUpPages space.old space.new }
    {
        for segment in 0..space.segments() {
            self.cut_segment(space, segment);
        }
    }

    /// Cuts off the pages of one segment that were grown since the begin.
    fn cut_segment(&self, space: &mut Space<N>, segment: u32)
        requires there { segment < length space.old.owner }
        requires counts { length self.now.counts ≡ length space.old.owner }
        requires within { slice_index self.now.counts segment ≤ page_count space.old segment }
        requires private { AllByRecursion (IsPrivateWhereThere N space.old) self.now.images }
        ensures segments { length space.new.owner ≡ length space.old.owner }
        ensures bytes { owner_bytes space.new
            ≡ with_first_pages (owner_bytes space.old) segment (slice_index self.now.counts segment) }
        ensures private { AllByRecursion (IsPrivateWhereThere N space.new) self.now.images }
        ensures gives_up { GivesUpPages space.old space.new }
    {
        space.cut(segment, self.counts[segment as usize]);
    }

    /// Puts the bytes of the last image back, if its page wasn't cut off, and forgets the image.
    fn put_back_last(&mut self, space: &mut Space<N>)
        requires some { 0 < length self.old.images }
        requires private { AllByRecursion (IsPrivateWhereThere N space.old) self.old.images }
        ensures log { self.new ≡ without_last self.old }
        ensures restored { restored (owner_bytes space.new) self.new.images
            ≡ restored (owner_bytes space.old) self.old.images }
        ensures private { AllByRecursion (IsPrivateWhereThere N space.new) self.new.images }
        ensures keeps { KeepsTable space.old space.new }
    {
        put_image_back(space, self.images.last());
        self.images.drop_last();
    }

    /// Whether nothing is left to put back.
    fn is_empty(&self) -> bool
        ensures { IsTrue result ↔ (length self.now.images ≡ 0) }
    {
        self.images.is_empty()
    }

    /// Makes the pages what they were at the begin, and begins again. This needs no memory and no frame.
    pub fn roll_back(&mut self, space: &mut Space<N>)
        requires { IsUndoLog N space.old self.old }
        ensures bytes { owner_bytes space.new ≡ undone (owner_bytes space.old) self.old }
        ensures log { self.new ≡ empty_log space.new }
        ensures undo_log { IsUndoLog N space.new self.new }
        ensures gives_up { GivesUpPages space.old space.new }
    {
        self.cut_grown(space);
        while !self.is_empty() {
            self.put_back_last(space);
        }
    }
}

impl<const N: usize> Undo<N> {
    /// Opens a child that sees the pages as they were at the begin. It takes one frame for each touched page, and the
    /// transaction goes on. After a refusal everything is as before.
    pub fn fork(&self, space: &mut Space<N>) -> Result<u64, Shortage>
        requires { IsUndoLog N space.old self.now }
        ensures least { IfOk result (IsLeastFree space.old) }
        ensures opened { IfOk result (λ child. IsSome (child_table space.new child)) }
        ensures bytes { IfOk result (λ child. child_bytes space.new child
            ≡ Some (undone (owner_bytes space.old) self.now)) }
        ensures others { IfOk result (SameForOthers space.old space.new) }
        ensures owner { SameForOwner space.old space.new }
        ensures undo_log { IsUndoLog N space.new self.now }
        ensures users { IfOk result (λ child. (f : ℕ) → count_of space.new.frames f
            ≡ count_of space.old.frames f + child_times f (child_table space.new child)) }
        ensures lent { OnOk result ((f : ℕ) → 0 < count_of space.old.frames f
            → lent_at space.new.frames f ≡ lent_at space.old.frames f) }
        ensures free { OnOk result
            (free_of space.new.frames + touched self.now ≡ free_of space.old.frames) }
        ensures full { IsErrOf result Shortage.NoFrame ↔ (free_of space.old.frames < touched self.now) }
        ensures limit { space.new.frames.max ≡ space.old.frames.max }
        ensures err { OnErr result (IsAsBefore space.old space.new) }
    {
        space.sound();
        if self.touched() > space.free() {
            return Err(Shortage::NoFrame);
        }
        let Ok(child) = space.fork() else {
            return Err(Shortage::NoMemory);
        };
        if self.split_touched(space, child).is_err() {
            space.close(child);
            return Err(Shortage::NoMemory);
        }
        self.cut_child(space, child);
        self.put_back_in_child(space, child);
        Ok(child)
    }

    /// Gives a child that was forked just now a page of its own for each touched page.
    fn split_touched(&self, space: &mut Space<N>, child: u64) -> Result<(), Shortage>
        requires beside { IsBeside space.old child }
        requires same { rows_of space.old child ≡ space.old.owner }
        requires images { AllByRecursion (IsOfPage space.old) self.now.images }
        ensures changes { ChangesChild space.old space.new child }
        ensures beside { IsBeside space.new child }
        ensures bytes { child_bytes space.new child ≡ child_bytes space.old child }
        ensures shares { OnOk result ((segment : ℕ) → SharesGrown self.now.counts space.new child segment) }
        ensures split { OnOk result (AllSplit self.now space.new child) }
        ensures free { OnOk result (free_of space.new.frames + touched self.now ≡ free_of space.old.frames) }
        ensures full_only_then { IsErrOf result Shortage.NoFrame
            → free_of space.old.frames < touched self.now }
    {
        for i in 0..self.images.len() {
            if self.images.is_last_touched(i, self.counts.as_slice()) {
                let piece = self.images.piece(i);
                space.child_own(child, piece.segment, piece.page)?;
            }
        }
        Ok(())
    }

    /// Cuts off the pages of a child that were grown since the begin.
    fn cut_child(&self, space: &mut Space<N>, child: u64)
        requires beside { IsBeside space.old child }
        requires counts { length self.now.counts ≡ length space.old.owner }
        requires within { (segment : ℕ) → slice_index self.now.counts segment ≤ page_count space.old segment }
        requires shares { (segment : ℕ) → SharesGrown self.now.counts space.old child segment }
        requires split { AllSplit self.now space.old child }
        ensures changes { ChangesChild space.old space.new child }
        ensures beside { IsBeside space.new child }
        ensures bytes { child_pages space.new child
            ≡ first_pages self.now.counts (child_pages space.old child) }
        ensures short { (segment : ℕ) → segment < length self.now.counts
            → length (slice_index_or (rows_of space.new child) segment [])
            ≡ slice_index self.now.counts segment }
        ensures split { AllSplit self.now space.new child }
        ensures apart { AllGrownApart self.now space.new child }
        ensures free { free_of space.new.frames ≡ free_of space.old.frames }
    {
        for segment in 0..space.segments() {
            space.child_cut(child, segment, self.counts[segment as usize]);
        }
    }

    /// Puts the bytes of all images back in a child's pages, from the last image to the first.
    fn put_back_in_child(&self, space: &mut Space<N>, child: u64)
        requires is_open { child_table space.old child ≡ Some (rows_of space.old child) }
        requires images { AllByRecursion (IsWritableIn N self.now.counts space.old child) self.now.images }
        ensures bytes { child_pages space.new child ≡ restored (child_pages space.old child) self.now.images }
        ensures only { ChangesBytesOf space.old space.new child }
    {
        let mut left = self.images.len();
        let mut end = self.images.byte_count();
        while left > 0 {
            left -= 1;
            let image = self.images.image(left, end);
            end -= image.bytes.len();
            if image.page < self.counts[image.segment as usize] {
                space.child_write(child, image.segment, image.page, image.offset, image.bytes);
            }
        }
    }
}

/// Puts the bytes of an image back, if its page wasn't cut off.
fn put_image_back<const N: usize>(space: &mut Space<N>, image: LastImage<'_>)
    requires segment { image.segment < length space.old.owner }
    requires private { HasPage space.old image.segment image.page
        → IsPrivate space.old image.segment image.page }
    requires within { image.offset + length image.bytes.now ≤ N }
    ensures bytes { owner_bytes space.new ≡ put_back (owner_bytes space.old) (record {
      segment = image.entry.segment;
      page = image.entry.page;
      offset = image.entry.offset;
      bytes = image.entry.bytes.now;
    }) }
    ensures keeps { KeepsTable space.old space.new }
{
    if image.page < space.pages(image.segment) {
        space.write_in_place(image.segment, image.page, image.offset, image.bytes);
    }
}

#[cfg(test)]
mod frame_tests;
#[cfg(test)]
mod tests;

/// Writes bytes into a private page over those from `offset` on, and others behind them. This needs no memory and no
/// frame.
fn write_both<const N: usize>(
    space: &mut Space<N>,
    segment: u32,
    page: u32,
    offset: usize,
    first: &[u8],
    behind: &[u8],
)
    requires there { HasPage space.old segment page }
    requires private { IsPrivate space.old segment page }
    requires within { offset + (length first.now + length behind.now) ≤ N }
    ensures writes { WritesPage space.old space.new segment page
        (overwritten (page_bytes space.old segment page) offset (first.now ++ behind.now)) }
    ensures kept { KeepsOwn space.old space.new }
{
    space.sound();
    space.write_in_place(segment, page, offset + first.len(), behind);
    space.write_in_place(segment, page, offset, first);
}
