//! A table of frames.

ghost use Rattle.std.specs.Prelude.{◌≡◌, ◌≢◌, ℕ, ◌+◌, ◌-◌, ◌^◌, ◌<◌, ◌≤◌, ◌↔◌, [], slice_index_or, length, IsTrue, replicate, true, false, vec_capacity, IfOk, IsOk, OnOk, OnErr, IsErrOf, Err};
ghost use Rattle.hy_page.specs.Bytes.{overwritten};
ghost use Rattle.hy_frames.specs.FrameTable.{FrameTable, max_frames, empty_frame, frame_at, count_of, page_of, lent_at, in_use, free_of, shared_of, Sets, Takes, IsLimitFor, IsPageSize, IsSoundTable, occurrences};
ghost use Rattle.std.specs.Option.{ForSome};
ghost use Rattle.hy_frames.specs.inside.Slots.{IsPut, HasRoom, bytes_or_zeros};

use super::errors::{OutOfRange, Shortage};
use super::frame_no::FrameNo;
use super::hold::Hold;
use super::slot::{Slot, new_page};
use hy_page::Page;
use std::alloc::{AllocError, Global};
use std::marker::Model;

/// The most frames that one table can have.
pub const MAX_FRAMES: u64 = 10_000_000;

/// Frames with pages of `N` bytes, each with a count of its users. The memory of a freed frame stays for the next one
/// that is taken, unless a hold has it.
#[derive(Drop)]
pub struct Frames<const N: usize> {
    alloc: Global,
    slots: Vec<Slot<N>>,
    unused: Vec<FrameNo>,
    spares: Vec<Box<Page<N>>>,
    shared: u64,
    max: u64,
}

// Clauses see the slots as frames, and the limit.
impl<const N: usize> Model for Frames<N> {
    ghost use Rattle.std.specs.Prelude.{vec_capacity, length};
    ghost use Rattle.hy_frames.specs.FrameTable.{FrameTable};
    ghost use Rattle.hy_frames.specs.inside.Slots.{IsSoundSlots};

    ghost Value = { FrameTable };

    ghost view = { λ t. record { max = t.max; frames = t.slots.items } };

    ghost invariant = { λ t. IsSoundSlots N (record { max = t.max; frames = t.slots.items })
        t.unused.items (vec_capacity t.unused) t.shared (length t.spares.items) (vec_capacity t.spares) };
}

impl<const N: usize> Frames<N> {
    /// A table with no frame in use, of which at most `max` can be.
    pub fn new(alloc: Global, max: u64) -> Frames<N>
        requires size { IsPageSize N }
        requires some { 1 ≤ max }
        requires limit { max ≤ max_frames }
        ensures empty { (f : ℕ) → frame_at result f ≡ empty_frame }
        ensures unused { in_use result ≡ 0 }
        ensures max { result.max ≡ max }
        ensures shared { shared_of result ≡ 0 }
    {
        Frames {
            alloc,
            slots: Vec::new(alloc),
            unused: Vec::new(alloc),
            spares: Vec::new(alloc),
            shared: 0,
            max,
        }
    }

    /// Takes a frame with one user for a page of zeros.
    pub fn take_zero(&mut self) -> Result<FrameNo, Shortage>
        ensures takes { IfOk result (λ f. Takes self.old self.new f (replicate N 0)) }
        ensures full { IsErrOf result Shortage.NoFrame ↔ (free_of self.old ≡ 0) }
        ensures err { OnErr result (self.new ≡ self.old) }
    {
        self.take(None)
    }

    /// Takes a frame with one user for a copy of the page in a frame in use.
    pub fn take_copy(&mut self, of: FrameNo) -> Result<FrameNo, Shortage>
        requires { 0 < count_of self.old of }
        ensures takes { IfOk result (λ f. Takes self.old self.new f (page_of self.old of)) }
        ensures full { IsErrOf result Shortage.NoFrame ↔ (free_of self.old ≡ 0) }
        ensures err { OnErr result (self.new ≡ self.old) }
    {
        self.take(Some(of))
    }

    /// Takes a frame with one user for a copy of the page in a frame in use, or for a page of zeros. The bytes are
    /// written once, to where they stay.
    fn take(&mut self, of: Option<FrameNo>) -> Result<FrameNo, Shortage>
        requires { ForSome of (λ f. 0 < count_of self.old f) }
        ensures takes { IfOk result (λ f. Takes self.old self.new f (bytes_or_zeros N self.old.frames of)) }
        ensures full { IsErrOf result Shortage.NoFrame ↔ (free_of self.old ≡ 0) }
        ensures err { OnErr result (self.new ≡ self.old) }
    {
        if self.free() == 0 {
            return Err(Shortage::NoFrame);
        }
        make_room(&mut self.slots, &mut self.unused, &mut self.spares)?;
        let mut page = spare(self.alloc, &mut self.spares)?;
        fill(&mut page, &self.slots, of);
        Ok(put(&mut self.slots, &mut self.unused, Slot::of(page)))
    }

    /// Adds a user to a frame in use.
    pub fn share(&mut self, f: FrameNo)
        requires used { 0 < count_of self.old f }
        requires fits { count_of self.old f + 1 < 2 ^ 64 }
        ensures set { Sets self.old self.new f
            (record (frame_at self.old f) { count = count_of self.old f + 1 }) }
        ensures free { free_of self.new ≡ free_of self.old }
        ensures first { count_of self.old f ≡ 1 → shared_of self.new ≡ shared_of self.old + 1 }
        ensures more { 1 < count_of self.old f → shared_of self.new ≡ shared_of self.old }
    {
        let slot = &mut self.slots[f.index()];
        let count = slot.count();
        slot.add_user();
        if count == 1 {
            self.shared += 1;
        }
    }

    /// Takes a user from a frame in use. The frame of the last one can be taken again. This needs no memory.
    pub fn drop_one(&mut self, f: FrameNo)
        requires { 0 < count_of self.old f }
        ensures last { count_of self.old f ≡ 1 → Sets self.old self.new f empty_frame }
        ensures more { 1 < count_of self.old f → Sets self.old self.new f
            (record (frame_at self.old f) { count = count_of self.old f - 1 }) }
        ensures freed { count_of self.old f ≡ 1 → free_of self.new ≡ free_of self.old + 1 }
        ensures kept { 1 < count_of self.old f → free_of self.new ≡ free_of self.old }
        ensures unshared { count_of self.old f ≡ 2 → shared_of self.new + 1 ≡ shared_of self.old }
        ensures shared { count_of self.old f ≢ 2 → shared_of self.new ≡ shared_of self.old }
    {
        let slot = &mut self.slots[f.index()];
        let count = slot.count();
        if count == 1 {
            let page = slot.empty();
            keep_spare(&mut self.spares, page);
            self.unused.push_reserved(f);
        } else {
            slot.drop_user();
            if count == 2 {
                self.shared -= 1;
            }
        }
    }

    /// How many use a frame: 0 where the table has no such frame.
    pub fn count(&self, f: FrameNo) -> u64
        ensures { result ≡ count_of self.now f }
    {
        if f.index() < self.slots.len() {
            self.slots[f.index()].count()
        } else {
            0
        }
    }

    /// Whether a frame has one user, and its page is nobody else's.
    pub fn is_private(&self, f: FrameNo) -> bool
        requires { 0 < count_of self.now f }
        ensures { IsTrue result ↔ ((count_of self.now f ≡ 1) × (lent_at self.now f ≡ false)) }
    {
        let slot = &self.slots[f.index()];
        slot.count() == 1 && !slot.is_lent()
    }

    /// How many more frames can be taken.
    pub fn free(&self) -> u64
        ensures { result ≡ free_of self.now }
    {
        self.max - (self.slots.len() - self.unused.len()) as u64
    }

    /// How many frames have more than one user.
    pub fn shared(&self) -> u64
        ensures { result ≡ shared_of self.now }
    {
        self.shared
    }

    /// The page in a frame in use.
    pub fn page(&self, f: FrameNo) -> &Page<N>
        requires { 0 < count_of self.now f }
        ensures bytes { result.now ≡ page_of self.now f }
        ensures size { length result.now ≡ N }
    {
        self.slots[f.index()].page()
    }

    /// A hold of the page in a frame in use. It keeps the bytes that are there now, and the page is lent from then on.
    pub fn hold(&mut self, f: FrameNo) -> Result<Hold<N>, AllocError>
        requires { 0 < count_of self.old f }
        ensures hold { IfOk result (λ hold. hold ≡ page_of self.old f) }
        ensures lent { OnOk result (lent_at self.new f ≡ true) }
        ensures still_lent { lent_at self.old f ≡ true → lent_at self.new f ≡ true }
        ensures set { Sets self.old self.new f (record (frame_at self.old f) { lent = lent_at self.new f }) }
        ensures free { free_of self.new ≡ free_of self.old }
        ensures shared { shared_of self.new ≡ shared_of self.old }
    {
        self.slots[f.index()].lend(self.alloc)
    }

    /// Makes the page in a frame with one user nobody else's: each hold of it keeps the bytes, and the frame gets a
    /// copy.
    pub fn take_back(&mut self, f: FrameNo) -> Result<(), AllocError>
        requires { count_of self.old f ≡ 1 }
        ensures set { OnOk result (Sets self.old self.new f (record (frame_at self.old f) { lent = false })) }
        ensures free { OnOk result (free_of self.new ≡ free_of self.old) }
        ensures shared { OnOk result (shared_of self.new ≡ shared_of self.old) }
        ensures err { OnErr result (self.new ≡ self.old) }
    {
        self.slots[f.index()].take_back(self.alloc)
    }

    /// Writes bytes from `offset` on into the page of a frame with one user, where the page is nobody else's. This
    /// needs no memory.
    pub fn write(&mut self, f: FrameNo, offset: usize, bytes: &[u8])
        requires own { count_of self.old f ≡ 1 }
        requires private { lent_at self.old f ≡ false }
        requires within { offset + length bytes.now ≤ N }
        ensures set { Sets self.old self.new f
            (record { count = 1; bytes = overwritten (page_of self.old f) offset bytes.now; lent = false }) }
        ensures free { free_of self.new ≡ free_of self.old }
        ensures shared { shared_of self.new ≡ shared_of self.old }
    {
        self.slots[f.index()].write(offset, bytes);
    }

    /// Sets how many frames can be in use. A number outside 1 to 10,000,000, or below the frames in
    /// use, is refused.
    pub fn set_max(&mut self, max: u64) -> Result<(), OutOfRange>
        ensures range { IsOk result ↔ IsLimitFor self.old max }
        ensures ok { OnOk result (self.new ≡ record self.old { max = max }) }
        ensures err { OnErr result (self.new ≡ self.old) }
    {
        let used = (self.slots.len() - self.unused.len()) as u64;
        if max == 0 || max > MAX_FRAMES || max < used {
            return Err(OutOfRange);
        }
        self.max = max;
        Ok(())
    }

    /// What always holds of a table.
    pub fn sound(&self)
        ensures { IsSoundTable N self.now }
    {
        let _max = &self.max;
    }
}

/// Makes room for one more slot, and for every slot's number and page among the unused ones, unless an unused slot is
/// there.
fn make_room<const N: usize>(
    slots: &mut Vec<Slot<N>>,
    unused: &mut Vec<FrameNo>,
    spares: &mut Vec<Box<Page<N>>>,
) -> Result<(), AllocError>
    requires numbers { length slots.old.items ≤ vec_capacity unused.old }
    requires pages { length slots.old.items ≤ vec_capacity spares.old }
    ensures slots { slots.new.items ≡ slots.old.items }
    ensures unused { unused.new.items ≡ unused.old.items }
    ensures spares { length spares.new.items ≡ length spares.old.items }
    ensures numbers { length slots.new.items ≤ vec_capacity unused.new }
    ensures pages { length slots.new.items ≤ vec_capacity spares.new }
    ensures room { OnOk result
        (HasRoom slots.new.items (vec_capacity slots.new) unused.new.items (vec_capacity unused.new)) }
    ensures page_room { OnOk result
        (unused.new.items ≡ [] → length slots.new.items < vec_capacity spares.new) }
{
    if unused.is_empty() {
        unused.reserve(slots.len() + 1)?;
        spares.reserve(slots.len() + 1)?;
        slots.reserve(1)?;
    }
    Ok(())
}

/// A page that nobody has: one of the spare ones, or one in new memory.
fn spare<const N: usize>(
    alloc: Global,
    spares: &mut Vec<Box<Page<N>>>,
) -> Result<Box<Page<N>>, AllocError>
    requires { N ≤ 65536 }
    ensures one_less { length spares.new.items ≡ length spares.old.items - 1 }
    ensures room { vec_capacity spares.new ≡ vec_capacity spares.old }
{
    match spares.pop() {
        Some(page) => Ok(page),
        None => new_page(alloc),
    }
}

/// Fills a page with a copy of the page in a slot in use, or with zeros.
fn fill<const N: usize>(page: &mut Page<N>, slots: &[Slot<N>], of: Option<FrameNo>)
    requires small { N ≤ 65536 }
    requires used { ForSome of (λ f. 0 < (slice_index_or slots.now f empty_frame).count) }
    ensures bytes { page.new ≡ bytes_or_zeros N slots.now of }
    ensures size { length page.new ≡ N }
{
    match of {
        Some(f) => {
            let slot = &slots[f.index()];
            page.write(0, slot.page().bytes());
        }
        None => page.clear(),
    }
}

/// Keeps a page for the next frame that is taken.
fn keep_spare<const N: usize>(spares: &mut Vec<Box<Page<N>>>, page: Option<Box<Page<N>>>)
    requires { length spares.old.items < vec_capacity spares.old }
    ensures more { length spares.new.items ≤ length spares.old.items + 1 }
    ensures room { vec_capacity spares.new ≡ vec_capacity spares.old }
{
    if let Some(page) = page {
        spares.push_reserved(page);
    }
}

/// Puts a slot where the last unused number says, or behind all slots.
fn put<const N: usize>(
    slots: &mut Vec<Slot<N>>,
    unused: &mut Vec<FrameNo>,
    slot: Slot<N>,
) -> FrameNo
    requires room { HasRoom slots.old.items (vec_capacity slots.old) unused.old.items
        (vec_capacity unused.old) }
    requires room_kept { length slots.old.items ≤ vec_capacity unused.old }
    requires small { length slots.old.items < 2 ^ 32 }
    requires known { (f : ℕ) → 0 < occurrences f unused.old.items → f < length slots.old.items }
    ensures put { IsPut slots.old.items unused.old.items slots.new.items unused.new.items slot.entry result }
    ensures room_kept { length slots.new.items ≤ vec_capacity unused.new }
{
    match unused.pop() {
        Some(f) => {
            slots[f.index()] = slot;
            f
        }
        None => {
            let number = slots.len() as u32;
            slots.push_reserved(slot);
            FrameNo::new(number)
        }
    }
}
