//! One slot of a table of frames.

ghost use Rattle.std.specs.Prelude.{◌≡◌, ◌+◌, ◌-◌, ◌^◌, ◌<◌, ◌≤◌, length, replicate, true, false, IfOk, OnOk, OnErr};
ghost use Rattle.hy_page.specs.Bytes.{overwritten};
ghost use Rattle.hy_frames.specs.FrameTable.{Frame, empty_frame};

use super::hold::Hold;
use hy_page::Page;
use std::alloc::{AllocError, Global};
use std::marker::Model;
use std::mem;

/// The memory of a slot's page.
#[derive(Drop)]
pub(crate) enum Memory<const N: usize> {
    /// The slot has no page.
    Unused,
    /// Nobody else has the page.
    Own(Box<Page<N>>),
    /// Holds may have the page too.
    Lent(Hold<N>),
}

/// A place for one page, with how many use it. The count stands apart from the page's bytes.
#[derive(Drop)]
pub(crate) struct Slot<const N: usize> {
    count: u64,
    memory: Memory<N>,
}

// Clauses see a frame. An unused slot has no page.
impl<const N: usize> Model for Slot<N> {
    ghost use Rattle.std.specs.Prelude.{◌<◌, ◌↔◌};
    ghost use Rattle.hy_frames.specs.FrameTable.{Frame};

    ghost Value = { Frame };

    ghost use Rattle.hy_frames.specs.inside.Memories.{bytes_in, is_lent, HasPage};

    ghost view = { λ slot. record { count = slot.count; bytes = bytes_in slot.memory; lent = is_lent slot.memory } };

    ghost invariant = { λ slot. HasPage slot.memory ↔ (0 < slot.count) };
}

impl<const N: usize> Slot<N> {
    /// A slot with one user, whose page nobody else has.
    pub(crate) fn of(page: Box<Page<N>>) -> Slot<N>
        ensures { result ≡ record { count = 1; bytes = page.entry.value; lent = false } }
    {
        Slot {
            count: 1,
            memory: Memory::Own(page),
        }
    }

    /// How many use the slot.
    pub(crate) fn count(&self) -> u64
        ensures { result ≡ self.now.count }
    {
        self.count
    }

    /// Whether holds may have the page.
    pub(crate) fn is_lent(&self) -> bool
        ensures { result ≡ self.now.lent }
    {
        matches!(&self.memory, Memory::Lent(_))
    }

    /// Adds a user.
    pub(crate) fn add_user(&mut self)
        requires used { 0 < self.old.count }
        requires fits { self.old.count + 1 < 2 ^ 64 }
        ensures { self.new ≡ record { count = self.old.count + 1; bytes = self.old.bytes; lent = self.old.lent } }
    {
        self.count += 1;
    }

    /// Takes a user away that isn't the last one.
    pub(crate) fn drop_user(&mut self)
        requires { 1 < self.old.count }
        ensures { self.new ≡ record { count = self.old.count - 1; bytes = self.old.bytes; lent = self.old.lent } }
    {
        self.count -= 1;
    }

    /// Takes the last user away, and gives out the page where nobody else has it.
    pub(crate) fn empty(&mut self) -> Option<Box<Page<N>>>
        requires { self.old.count ≡ 1 }
        ensures { self.new ≡ empty_frame }
    {
        self.count = 0;
        match mem::replace(&mut self.memory, Memory::Unused) {
            Memory::Own(page) => Some(page),
            Memory::Lent(hold) => hold.into_page().ok(),
            Memory::Unused => None,
        }
    }

    /// The page of a slot in use.
    pub(crate) fn page(&self) -> &Page<N>
        requires { 0 < self.now.count }
        ensures bytes { result.now ≡ self.now.bytes }
        ensures size { length self.now.bytes ≡ N }
    {
        match &self.memory {
            Memory::Own(page) => {
                let _bytes = page.bytes();
                page
            }
            Memory::Lent(hold) => hold.page(),
            Memory::Unused => unreachable!(),
        }
    }

    /// Writes bytes into a page that nobody else has.
    pub(crate) fn write(&mut self, offset: usize, bytes: &[u8])
        requires used { 0 < self.old.count }
        requires not_lent { self.old.lent ≡ false }
        requires small { N ≤ 65536 }
        requires within { offset + length bytes.now ≤ N }
        ensures { self.new ≡ record self.old { bytes = overwritten self.old.bytes offset bytes.now } }
    {
        match &mut self.memory {
            Memory::Own(page) => page.write(offset, bytes),
            _ => unreachable!(),
        }
    }

    /// A hold of the page. From then on holds may have it too.
    pub(crate) fn lend(&mut self, alloc: Global) -> Result<Hold<N>, AllocError>
        requires used { 0 < self.old.count }
        requires small { N ≤ 65536 }
        ensures hold { IfOk result (λ hold. hold ≡ self.old.bytes) }
        ensures lent { OnOk result (self.new.lent ≡ true) }
        ensures still_lent { self.old.lent ≡ true → self.new.lent ≡ true }
        ensures kept { self.new ≡ record self.old { lent = self.new.lent } }
    {
        if let Memory::Lent(hold) = &self.memory {
            return hold.try_clone();
        }
        self.share(alloc)?;
        match &self.memory {
            Memory::Lent(hold) => hold.try_clone(),
            _ => unreachable!(),
        }
    }

    /// Makes a page that nobody else has one that can be shared.
    fn share(&mut self, alloc: Global) -> Result<(), AllocError>
        requires used { 0 < self.old.count }
        requires not_lent { self.old.lent ≡ false }
        requires small { N ≤ 65536 }
        ensures ok { OnOk result (self.new ≡ record self.old { lent = true }) }
        ensures err { OnErr result (self.new ≡ self.old) }
    {
        match mem::replace(&mut self.memory, Memory::Unused) {
            Memory::Own(page) => match Hold::new(alloc, page) {
                Ok(hold) => {
                    self.memory = Memory::Lent(hold);
                    Ok(())
                }
                Err(failed) => {
                    self.memory = Memory::Own(failed.value);
                    Err(AllocError)
                }
            },
            _ => unreachable!(),
        }
    }

    /// Makes the page one that nobody else has: a copy, where a hold has it.
    pub(crate) fn take_back(&mut self, alloc: Global) -> Result<(), AllocError>
        requires used { 0 < self.old.count }
        requires small { N ≤ 65536 }
        ensures ok { OnOk result (self.new ≡ record self.old { lent = false }) }
        ensures err { OnErr result (self.new ≡ self.old) }
    {
        match mem::replace(&mut self.memory, Memory::Unused) {
            Memory::Lent(hold) => match hold.into_page() {
                Ok(page) => {
                    self.memory = Memory::Own(page);
                    Ok(())
                }
                Err(hold) => match copy_of(alloc, hold.page()) {
                    Ok(page) => {
                        self.memory = Memory::Own(page);
                        Ok(())
                    }
                    Err(refused) => {
                        self.memory = Memory::Lent(hold);
                        Err(refused)
                    }
                },
            },
            memory => {
                self.memory = memory;
                Ok(())
            }
        }
    }
}

/// A page in memory of its own.
pub(crate) fn new_page<const N: usize>(alloc: Global) -> Result<Box<Page<N>>, AllocError> {
    Ok(Box::new(alloc, Page::zero())?)
}

/// A copy of a page in memory of its own.
fn copy_of<const N: usize>(alloc: Global, page: &Page<N>) -> Result<Box<Page<N>>, AllocError>
    requires { N ≤ 65536 }
    ensures { IfOk result (λ copy. copy.value ≡ page.now) }
{
    let mut copy = new_page(alloc)?;
    copy.write(0, page.bytes());
    Ok(copy)
}
