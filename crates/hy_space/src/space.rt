//! The space of an owner and its children.

ghost use Rattle.std.specs.Prelude.{◌≡◌, ℕ, true, ◌+◌, ◌^◌, ◌<◌, ◌≤◌, ◌↔◌, [], IsTrue, length, map, replicate, Some, None, IsSome, IsOk, IfOk, OnOk, OnErr, IsErrOf, IsSomeAnd, slice_index_or, drop, unwrap_or};
ghost use Rattle.std.specs.Option.{option_map};
ghost use Rattle.hy_frames.specs.FrameTable.{occurrences, max_frames, count_of, lent_at, in_use, free_of, shared_of, IsLimitFor, IsPageSize};
ghost use Rattle.hy_page.specs.Bytes.{number_of, bytes_at, overwritten};
ghost use Rattle.hy_space.specs.Space.{SpaceState, owner_bytes, table_bytes, child_table, child_bytes, page_count, HasPage, frame_no, page_bytes, IsPrivate, KeepsOwn, AddsUsers, DropsUsers, child_times, times, IsUnchanged, ChangesBytesOf, HasChildPage, child_frame_no, IsChildPrivate, MovesChildPage, page_at, with_new_frame, with_first_frames, with_page, with_new_page, with_first_pages, MakesPrivate, WritesPage, GrowsPage, Lends, LacksFrame, IsLeastFree, SameForChildren, SameForOthers, SameForOwner, IsSound};
ghost use Rattle.hy_space.specs.inside.Children.{IsFirstClosed, IsPadded};

use super::tables::PageTable;
use super::users;
use hy_frames::{Frames, Hold, OutOfRange, Shortage};
use hy_page::Page;
use std::alloc::{AllocError, Global};
use std::marker::Model;

/// The pages of an owner and of its children, in segments. A child sees the pages that the owner had
/// when the child was forked. A page that several see is stored once, and the owner's first write
/// into it takes a frame.
#[derive(Drop)]
pub struct Space<const N: usize> {
    alloc: Global,
    owner: PageTable,
    children: Vec<Option<PageTable>>,
    frames: Frames<N>,
}

// Clauses see the tables and the frames.
impl<const N: usize> Model for Space<N> {
    ghost use Rattle.hy_space.specs.Space.{SpaceState};
    ghost use Rattle.hy_space.specs.inside.Users.{IsCounted};

    ghost Value = { SpaceState };

    ghost view = { λ s. record { owner = s.owner; children = s.children.items; frames = s.frames } };

    ghost invariant = { λ s. IsCounted N
        (record { owner = s.owner; children = s.children.items; frames = s.frames }) };
}

impl<const N: usize> Space<N> {
    /// A space of empty segments with no child, in which at most `max` frames can be in use.
    pub fn new(alloc: Global, segments: u32, max: u64) -> Result<Space<N>, AllocError>
        requires size { IsPageSize N }
        requires some { 1 ≤ max }
        requires limit { max ≤ max_frames }
        ensures owner { IfOk result (λ s. s.owner ≡ replicate segments []) }
        ensures children { IfOk result (λ s. s.children ≡ []) }
        ensures unused { IfOk result (λ s. in_use s.frames ≡ 0) }
        ensures max { IfOk result (λ s. s.frames.max ≡ max) }
    {
        let owner = PageTable::new(alloc, segments)?;
        Ok(Space {
            alloc,
            owner,
            children: Vec::new(alloc),
            frames: Frames::new(alloc, max),
        })
    }

    /// The owner's page.
    pub fn page(&self, segment: u32, page: u32) -> &Page<N>
        requires { HasPage self.now segment page }
        ensures bytes { result.now ≡ page_bytes self.now segment page }
        ensures size { length result.now ≡ N }
    {
        self.frames
            .page(self.owner.frame(segment as usize, page as usize))
    }

    /// The number in the `width` bytes from `offset` on of the owner's page, the lowest byte first.
    pub fn read(&self, segment: u32, page: u32, offset: usize, width: usize) -> u64
        requires there { HasPage self.now segment page }
        requires within { offset + width ≤ N }
        requires width { width ≤ 8 }
        ensures value { result ≡ number_of (bytes_at (page_bytes self.now segment page) offset width) }
        ensures range { result < 256 ^ width }
    {
        let frame = self.owner.frame(segment as usize, page as usize);
        self.frames.page(frame).field(offset, width)
    }

    /// Writes bytes into the owner's page over those from `offset` on. A page that a child sees too
    /// takes a fresh frame, and the child keeps the old bytes.
    pub fn write(
        &mut self,
        segment: u32,
        page: u32,
        offset: usize,
        bytes: &[u8],
    ) -> Result<(), Shortage>
        requires there { HasPage self.old segment page }
        requires within { offset + length bytes.now ≤ N }
        ensures bytes { OnOk result (owner_bytes self.new
            ≡ with_page (owner_bytes self.old) segment page
            (overwritten (page_bytes self.old segment page) offset bytes.now)) }
        ensures made { OnOk result (MakesPrivate self.old self.new segment page) }
        ensures full { IsErrOf result Shortage.NoFrame ↔ LacksFrame self.old segment page }
        ensures err { OnErr result (self.new ≡ self.old) }
    {
        self.touch(segment, page)?;
        self.write_in_place(segment, page, offset, bytes);
        Ok(())
    }

    /// Makes a page private: the owner's own, with bytes that no hold has. A page that a child sees too is copied into
    /// a fresh frame; the owner's own page that a hold has is copied where it stands.
    pub fn touch(&mut self, segment: u32, page: u32) -> Result<(), Shortage>
        requires { HasPage self.old segment page }
        ensures bytes { OnOk result (owner_bytes self.new ≡ owner_bytes self.old) }
        ensures made { OnOk result (MakesPrivate self.old self.new segment page) }
        ensures full { IsErrOf result Shortage.NoFrame ↔ LacksFrame self.old segment page }
        ensures err { OnErr result (self.new ≡ self.old) }
    {
        let frame = self.owner.frame(segment as usize, page as usize);
        if self.frames.count(frame) == 1 {
            self.frames.take_back(frame)?;
            return Ok(());
        }
        self.copy_shared(segment as usize, page as usize)
    }

    /// Whether a page needs a frame of its own, and none is free.
    pub fn lacks_frame(&self, segment: u32, page: u32) -> bool
        requires { HasPage self.now segment page }
        ensures { IsTrue result ↔ LacksFrame self.now segment page }
    {
        let frame = self.owner.frame(segment as usize, page as usize);
        self.frames.count(frame) != 1 && self.frames.free() == 0
    }

    /// Puts a copy of a page that a child sees too into a fresh frame.
    fn copy_shared(&mut self, segment: usize, page: usize) -> Result<(), Shortage>
        requires there { HasPage self.old segment page }
        requires shared { 1 < count_of self.old.frames (frame_no self.old segment page) }
        ensures bytes { OnOk result (owner_bytes self.new ≡ owner_bytes self.old) }
        ensures made { OnOk result (MakesPrivate self.old self.new segment page) }
        ensures full { IsErrOf result Shortage.NoFrame ↔ (free_of self.old.frames ≡ 0) }
        ensures err { OnErr result (self.new ≡ self.old) }
    {
        let shared = self.owner.frame(segment, page);
        let fresh = self.frames.take_copy(shared)?;
        self.frames.drop_one(shared);
        self.owner.replace(segment, page, fresh);
        Ok(())
    }

    /// Writes bytes into a private page over those from `offset` on. This needs no memory and no frame.
    pub fn write_in_place(&mut self, segment: u32, page: u32, offset: usize, bytes: &[u8])
        requires there { HasPage self.old segment page }
        requires private { IsPrivate self.old segment page }
        requires within { offset + length bytes.now ≤ N }
        ensures writes { WritesPage self.old self.new segment page
            (overwritten (page_bytes self.old segment page) offset bytes.now) }
        ensures kept { KeepsOwn self.old self.new }
    {
        let frame = self.owner.frame(segment as usize, page as usize);
        self.frames.write(frame, offset, bytes);
    }

    /// Adds a page of zeros at a segment's end, and answers its number.
    pub fn grow(&mut self, segment: u32) -> Result<u32, Shortage>
        requires { segment < length self.old.owner }
        ensures grows { IfOk result (GrowsPage N self.old self.new segment) }
        ensures full { IsErrOf result Shortage.NoFrame ↔ (free_of self.old.frames ≡ 0) }
        ensures err { OnErr result (self.new ≡ self.old) }
    {
        let page = self.pages(segment);
        self.owner.grow(segment as usize, &mut self.frames)?;
        Ok(page)
    }

    /// Opens a child that sees the owner's pages as they are now. No page is copied, and no frame taken.
    pub fn fork(&mut self) -> Result<u64, AllocError>
        ensures least { IfOk result (IsLeastFree self.old) }
        ensures table { IfOk result (λ child. child_table self.new child ≡ Some self.old.owner) }
        ensures bytes { IfOk result (λ child. child_bytes self.new child ≡ Some (owner_bytes self.old)) }
        ensures others { IfOk result (SameForOthers self.old self.new) }
        ensures owner { OnOk result (SameForOwner self.old self.new) }
        ensures users { OnOk result (AddsUsers self.old.frames self.new.frames
            (λ f. times f self.old.owner)) }
        ensures err { OnErr result (self.new ≡ self.old) }
    {
        let table = self.owner.try_clone(self.alloc)?;
        self.open(table)
    }

    /// Opens a child that sees what an open one sees. No page is copied, and no frame taken.
    pub fn fork_child(&mut self, child: u64) -> Result<u64, AllocError>
        requires { IsSome (child_table self.old child) }
        ensures least { IfOk result (IsLeastFree self.old) }
        ensures table { IfOk result (λ new. child_table self.new new ≡ child_table self.old child) }
        ensures bytes { IfOk result (λ new. child_bytes self.new new ≡ child_bytes self.old child) }
        ensures others { IfOk result (SameForOthers self.old self.new) }
        ensures owner { OnOk result (SameForOwner self.old self.new) }
        ensures users { OnOk result (AddsUsers self.old.frames self.new.frames
            (λ f. child_times f (child_table self.old child))) }
        ensures kept { OnOk result (KeepsOwn self.old self.new) }
        ensures err { OnErr result (self.new ≡ self.old) }
    {
        let table = self.table_of(child).try_clone(self.alloc)?;
        self.open(table)
    }

    /// The table of an open child.
    fn table_of(&self, child: u64) -> &PageTable
        requires { IsSome (child_table self.now child) }
        ensures table { child_table self.now child ≡ Some result.now }
        ensures used { (f : ℕ) → times f result.now ≤ count_of self.now.frames f }
        ensures once { (f : ℕ) → times f result.now ≤ 1 }
    {
        match &self.children[child as usize] {
            Some(table) => table,
            None => unreachable!(),
        }
    }

    /// Opens a child with a table whose frames are in use, each at one place of it at most.
    fn open(&mut self, table: PageTable) -> Result<u64, AllocError>
        requires used { (f : ℕ) → times f table ≤ count_of self.old.frames f }
        requires once { (f : ℕ) → times f table ≤ 1 }
        ensures least { IfOk result (IsLeastFree self.old) }
        ensures table { IfOk result (λ child. child_table self.new child ≡ Some table) }
        ensures bytes { IfOk result (λ child. child_bytes self.new child ≡ Some (table_bytes self.old.frames table)) }
        ensures others { IfOk result (SameForOthers self.old self.new) }
        ensures owner { OnOk result (SameForOwner self.old self.new) }
        ensures users { OnOk result (AddsUsers self.old.frames self.new.frames (λ f. times f table)) }
        ensures err { OnErr result (self.new ≡ self.old) }
    {
        let child = place_for_child(&mut self.children)?;
        users::share_table(&mut self.frames, &table);
        self.children[child] = Some(table);
        Ok(child as u64)
    }

    /// Closes an open child. A frame that nobody else has can be taken again.
    pub fn close(&mut self, child: u64)
        requires { IsSome (child_table self.old child) }
        ensures closed { child_table self.new child ≡ None }
        ensures others { SameForOthers self.old self.new child }
        ensures owner { SameForOwner self.old self.new }
        ensures users { DropsUsers self.old.frames self.new.frames
            (λ f. child_times f (child_table self.old child)) }
        ensures kept { KeepsOwn self.old self.new }
    {
        match self.children[child as usize].take() {
            Some(table) => users::drop_table(&mut self.frames, &table),
            None => unreachable!(),
        }
    }

    /// How many segments there are.
    pub fn segments(&self) -> u32
        ensures { result ≡ length self.now.owner }
    {
        self.owner.segments().len() as u32
    }

    /// How many pages a segment of the owner has.
    pub fn pages(&self, segment: u32) -> u32
        requires { segment < length self.now.owner }
        ensures { result ≡ page_count self.now segment }
    {
        self.frames.sound();
        self.owner.segments()[segment as usize].frames().len() as u32
    }

    /// Keeps the first pages of a segment of the owner, and gives up the others. This needs no memory.
    pub fn cut(&mut self, segment: u32, pages: u32)
        requires there { segment < length self.old.owner }
        requires within { pages ≤ page_count self.old segment }
        ensures table { self.new.owner ≡ with_first_frames self.old.owner segment pages }
        ensures bytes { owner_bytes self.new ≡ with_first_pages (owner_bytes self.old) segment pages }
        ensures children { SameForChildren self.old self.new }
        ensures kept { KeepsOwn self.old self.new }
        ensures users { DropsUsers self.old.frames self.new.frames
            (λ f. occurrences f (drop pages (slice_index_or self.old.owner segment []))) }
    {
        let numbers = self.owner.segments()[segment as usize].frames();
        users::drop_each(&mut self.frames, &numbers[pages as usize..]);
        self.owner.truncate(segment as usize, pages as usize);
    }

    /// Gives a child a page of its own: a copy, in a fresh frame, of a page that other tables have too.
    pub fn child_own(&mut self, child: u64, segment: u32, page: u32) -> Result<(), Shortage>
        requires there { HasChildPage self.old child segment page }
        requires shared { 1 < count_of self.old.frames (child_frame_no self.old child segment page) }
        ensures bytes { OnOk result (child_bytes self.new child ≡ child_bytes self.old child) }
        ensures owner { OnOk result (SameForOwner self.old self.new) }
        ensures others { OnOk result (SameForOthers self.old self.new child) }
        ensures moves { OnOk result (MovesChildPage self.old self.new child segment page) }
        ensures full { IsErrOf result Shortage.NoFrame ↔ (free_of self.old.frames ≡ 0) }
        ensures err { OnErr result (self.new ≡ self.old) }
    {
        let Some(mut table) = self.children[child as usize].take() else {
            unreachable!()
        };
        match users::own_page(
            &mut self.frames,
            &mut table,
            segment as usize,
            page as usize,
        ) {
            Ok(_) => {
                self.children[child as usize] = Some(table);
                Ok(())
            }
            Err(shortage) => {
                self.children[child as usize] = Some(table);
                Err(shortage)
            }
        }
    }

    /// Writes bytes into a child's page over those from `offset` on, where no other table has the page and no hold its
    /// bytes. This needs no memory and no frame.
    pub fn child_write(&mut self, child: u64, segment: u32, page: u32, offset: usize, bytes: &[u8])
        requires there { HasChildPage self.old child segment page }
        requires private { IsChildPrivate self.old child segment page }
        requires within { offset + length bytes.now ≤ N }
        ensures bytes { child_bytes self.new child ≡ option_map (λ pages. with_page pages segment page
            (overwritten (page_at pages segment page) offset bytes.now)) (child_bytes self.old child) }
        ensures only { ChangesBytesOf self.old self.new child }
    {
        let Some(table) = &self.children[child as usize] else {
            unreachable!()
        };
        let frame = table.frame(segment as usize, page as usize);
        self.frames.write(frame, offset, bytes);
    }

    /// Keeps the first pages of a segment of a child, and gives up the others. This needs no memory.
    pub fn child_cut(&mut self, child: u64, segment: u32, pages: u32)
        requires there { IsSomeAnd (child_table self.old child) (λ table.
            (segment < length table) × (pages ≤ length (slice_index_or table segment []))) }
        ensures table { child_table self.new child
            ≡ option_map (λ table. with_first_frames table segment pages) (child_table self.old child) }
        ensures bytes { child_bytes self.new child
            ≡ option_map (λ all. with_first_pages all segment pages) (child_bytes self.old child) }
        ensures owner { SameForOwner self.old self.new }
        ensures others { SameForOthers self.old self.new child }
        ensures users { DropsUsers self.old.frames self.new.frames (λ f. occurrences f
            (drop pages (slice_index_or (unwrap_or (child_table self.old child) []) segment []))) }
    {
        let Some(mut table) = self.children[child as usize].take() else {
            unreachable!()
        };
        let numbers = table.segments()[segment as usize].frames();
        users::drop_each(&mut self.frames, &numbers[pages as usize..]);
        table.truncate(segment as usize, pages as usize);
        self.children[child as usize] = Some(table);
    }

    /// Holds of all that a child sees, by segment. The pages are lent from then on, and nothing else changes.
    pub fn holds(&mut self, child: u64) -> Result<Vec<Vec<Hold<N>>>, AllocError>
        requires { IsSome (child_table self.old child) }
        ensures holds { IfOk result (λ holds. child_bytes self.old child
            ≡ Some (map (λ segment. segment.items) holds.items)) }
        ensures lent { OnOk result ((f : ℕ) → 0 < child_times f (child_table self.old child)
            → lent_at self.new.frames f ≡ true) }
        ensures lends { Lends self.old.frames self.new.frames
            (λ f. child_times f (child_table self.old child)) }
        ensures unchanged { IsUnchanged self.old self.new }
        ensures kept { KeepsOwn self.old self.new }
    {
        match &self.children[child as usize] {
            Some(table) => users::holds_of_table(self.alloc, &mut self.frames, table),
            None => unreachable!(),
        }
    }

    /// How many more frames can be taken.
    pub fn free(&self) -> u64
        ensures { result ≡ free_of self.now.frames }
    {
        self.frames.free()
    }

    /// How many frames more than one table has.
    pub fn shared(&self) -> u64
        ensures { result ≡ shared_of self.now.frames }
    {
        self.frames.shared()
    }

    /// Sets how many frames can be in use. A number outside 1 to 10,000,000, or below the frames in
    /// use, is refused.
    pub fn set_max(&mut self, max: u64) -> Result<(), OutOfRange>
        ensures range { IsOk result ↔ IsLimitFor self.old.frames max }
        ensures max { OnOk result (self.new.frames.max ≡ max) }
        ensures frames { self.new.frames.frames ≡ self.old.frames.frames }
        ensures owner { SameForOwner self.old self.new }
        ensures children { SameForChildren self.old self.new }
        ensures err { OnErr result (self.new ≡ self.old) }
    {
        self.frames.set_max(max)
    }

    /// What always holds of a space.
    pub fn sound(&self)
        ensures { IsSound N self.now }
    {
        self.frames.sound();
    }
}

/// The first place that has no open child, which is a new one where every place has one.
fn place_for_child(children: &mut Vec<Option<PageTable>>) -> Result<usize, AllocError>
    ensures first { IfOk result (IsFirstClosed children.old.items) }
    ensures within { IfOk result (λ place. place < length children.new.items) }
    ensures padded { OnOk result (IsPadded children.old.items children.new.items) }
    ensures err { OnErr result (children.new.items ≡ children.old.items) }
{
    let place = first_closed(children.as_slice());
    if place == children.len() {
        children.push(None)?;
    }
    Ok(place)
}

/// The first place that has no open child, or the number of places.
fn first_closed(children: &[Option<PageTable>]) -> usize
    ensures { IsFirstClosed children.now result }
{
    for (i, child) in children.iter().enumerate() {
        if child.is_none() {
            return i;
        }
    }
    children.len()
}
