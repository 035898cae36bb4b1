//! What an undo log gives back, in the owner and in a child.

ghost use Rattle.std.specs.Prelude.{◌+◌, ◌≤◌, length};

use super::*;
use hy_frames::Hold;
use std::process::Abort;

/// One segment of pages, with the log of the transaction that writes them.
#[derive(Drop)]
struct Pages {
    space: Space<256>,
    undo: Undo<256>,
}

// What holds of them between two calls.
impl Model for Pages {
    ghost use Rattle.std.specs.Prelude.{◌≡◌, length};
    ghost use Rattle.hy_space.specs.Space.{SpaceState};
    ghost use Rattle.hy_undo.specs.PrivatePages.{IsUndoLog};

    ghost Value = { SpaceState };

    ghost view = { λ pages. pages.space };

    ghost invariant = { λ pages. (length pages.undo.counts ≡ 1) × IsUndoLog 256 pages.space pages.undo };
}

/// What a child sees, and what the owner has beside it.
#[derive(Drop)]
struct Child {
    segments: Vec<Vec<Hold<256>>>,
    owner_pages: u32,
    free: u64,
}

impl Pages {
    /// A segment without pages.
    fn new(rt: &(impl Abort + AllocGlobal), frames: u64) -> Pages
        requires { (1 ≤ frames) × (frames ≤ 100) }
    {
        let space = Space::new(rt.alloc(), 1, frames).expect(rt, "a space");
        let undo = Undo::new(rt.alloc(), &space).expect(rt, "a log");
        Pages { space, undo }
    }

    /// Adds a page of zeros, and answers its number.
    fn grow(&mut self, rt: &impl Abort) -> u32 {
        self.undo.grow(&mut self.space, 0).expect(rt, "a page")
    }

    /// Writes bytes into a page.
    fn write(&mut self, rt: &impl Abort, page: u32, offset: usize, bytes: &[u8])
        requires { offset + length bytes.now ≤ 256 }
    {
        assert!(rt; page < self.space.pages(0));
        self.undo
            .write(&mut self.space, 0, page, offset, bytes)
            .expect(rt, "a write");
    }

    /// A number in a page.
    fn read(&self, rt: &impl Abort, page: u32, offset: usize, width: usize) -> u64
        requires within { offset + width ≤ 256 }
        requires width { width ≤ 8 }
    {
        assert!(rt; page < self.space.pages(0));
        self.space.read(0, page, offset, width)
    }

    /// How many pages the segment has.
    fn count(&self) -> u32 {
        self.space.pages(0)
    }

    /// How many pages of the begin the transaction wrote.
    fn touched(&self) -> u64 {
        self.undo.touched()
    }

    /// Lets the writes stand.
    fn commit(&mut self) {
        self.undo.commit(&self.space);
    }

    /// Makes the pages what they were at the last commit.
    fn roll_back(&mut self) {
        self.undo.roll_back(&mut self.space);
    }

    /// A child that is forked now.
    fn into_child(self, rt: &impl Abort) -> Child {
        let mut space = self.space;
        let child = self.undo.fork(&mut space).expect(rt, "a child");
        Child {
            owner_pages: space.pages(0),
            free: space.free(),
            segments: space.holds(child).expect(rt, "the holds"),
        }
    }

    /// A fork is refused for want of a frame, and the frames that are free are as many as before.
    fn refuses_a_child(&mut self) -> bool {
        let free = self.space.free();
        let is_refused = matches!(self.undo.fork(&mut self.space), Err(Shortage::NoFrame));
        is_refused && self.space.free() == free
    }
}

impl Child {
    /// How many pages the child sees.
    fn count(&self) -> usize {
        match self.segments.as_slice() {
            [pages] => pages.len(),
            _ => 0,
        }
    }

    /// A number in a page that the child sees.
    fn read(&self, rt: &impl Abort, page: usize, offset: usize, width: usize) -> u64
        requires within { offset + width ≤ 256 }
        requires width { width ≤ 8 }
    {
        match self.segments.as_slice() {
            [pages] => match pages.get(page) {
                Some(hold) => hold.page().field(offset, width),
                None => panic!(rt; "page {page}"),
            },
            _ => panic!(rt; "one segment"),
        }
    }
}

/// A committed page with some bytes in it.
fn with_page(rt: &(impl Abort + AllocGlobal), frames: u64, offset: usize, bytes: &[u8]) -> Pages
    requires frames { (1 ≤ frames) × (frames ≤ 100) }
    requires within { offset + length bytes.now ≤ 256 }
{
    let mut pages = Pages::new(rt, frames);
    let page = pages.grow(rt);
    pages.write(rt, page, offset, bytes);
    pages.commit();
    pages
}

#[test]
fn a_roll_back_puts_back_what_stood_there(rt: HostRuntime) {
    let mut pages = with_page(&rt, 3, 10, b"one");
    pages.write(&rt, 0, 10, b"two");
    pages.write(&rt, 0, 11, b"ree");
    let grown = pages.grow(&rt);
    pages.write(&rt, grown, 0, b"new");
    assert_eq!(rt; pages.touched(), 1);
    assert_eq!(rt; pages.read(&rt, 0, 10, 3), 0x657274);
    pages.roll_back();
    assert_eq!(rt; pages.count(), 1);
    assert_eq!(rt; pages.read(&rt, 0, 10, 3), 0x656e6f);
    assert_eq!(rt; pages.touched(), 0);
}

#[test]
fn a_commit_lets_the_writes_stand(rt: HostRuntime) {
    let mut pages = with_page(&rt, 3, 0, b"one");
    assert_eq!(rt; pages.touched(), 0);
    pages.roll_back();
    assert_eq!(rt; pages.read(&rt, 0, 0, 3), 0x656e6f);
}

/// Three pages, of which the first two are written, and a fourth one that the transaction adds.
fn four_pages(rt: &(impl Abort + AllocGlobal), frames: u64) -> Pages
    requires { (1 ≤ frames) × (frames ≤ 100) }
{
    let mut pages = with_page(rt, frames, 10, b"one");
    for _ in 0..2 {
        pages.grow(rt);
    }
    pages.commit();
    pages.write(rt, 0, 10, b"two");
    pages.write(rt, 1, 0, b"new");
    pages.grow(rt);
    pages
}

#[test]
fn child_needs_exactly(rt: HostRuntime) {
    let pages = four_pages(&rt, 6);
    assert_eq!(rt; pages.touched(), 2);
    let child = pages.into_child(&rt);
    assert_eq!(rt; child.free, 0);
    assert_eq!(rt; child.owner_pages, 4);
    assert_eq!(rt; child.count(), 3);
    assert_eq!(rt; child.read(&rt, 0, 10, 3), 0x656e6f);
    assert_eq!(rt; child.read(&rt, 1, 0, 3), 0);
}

#[test]
fn child_is_refused_with_a_frame_less(rt: HostRuntime) {
    let mut pages = four_pages(&rt, 5);
    assert!(rt; pages.refuses_a_child());
    assert_eq!(rt; pages.read(&rt, 1, 0, 3), 0x77656e);
}

/// Sixteen bytes that are written over three times, the last time with their whole page.
fn written_over(rt: &(impl Abort + AllocGlobal), frames: u64) -> Pages
    requires { (1 ≤ frames) × (frames ≤ 100) }
{
    let mut pages = with_page(rt, frames, 100, b"sixteen at first");
    pages.write(rt, 0, 100, b"eleven");
    pages.write(rt, 0, 100, b"twelve");
    pages.write(rt, 0, 103, b"over lapping");
    pages.write(rt, 0, 0, &[7; 256]);
    pages
}

#[test]
fn the_same_bytes_overlapping_ones_and_a_whole_page(rt: HostRuntime) {
    let child = written_over(&rt, 2).into_child(&rt);
    assert_eq!(rt; child.count(), 1);
    assert_eq!(rt; child.read(&rt, 0, 100, 8), 0x206e656574786973);
    assert_eq!(rt; child.read(&rt, 0, 108, 8), 0x7473726966207461);
}

#[test]
fn overlapping_writes_are_rolled_back(rt: HostRuntime) {
    let mut pages = written_over(&rt, 1);
    pages.roll_back();
    assert_eq!(rt; pages.read(&rt, 0, 100, 8), 0x206e656574786973);
    assert_eq!(rt; pages.read(&rt, 0, 108, 8), 0x7473726966207461);
}
