//! Page tables: the frame of each page, by segment.

ghost use Rattle.std.specs.Prelude.{◌≡◌, ℕ, ◌+◌, ◌<◌, List, [], ◌∷◌, ◌++◌, ◌↔◌, length, replicate, take, slice_index, slice_index_or, slice_set, IfOk, OnOk, OnErr, IsErrOf};
ghost use Rattle.hy_frames.specs.FrameTable.{free_of, Takes};
ghost use Rattle.hy_space.specs.Space.{with_frame, with_new_frame, with_first_frames};

use hy_frames::{FrameNo, Frames, Shortage};
use std::alloc::{AllocError, Global};
use std::marker::Model;

/// The frames of the pages of one segment.
#[derive(Drop)]
pub(crate) struct Segment {
    pages: Vec<FrameNo>,
}

// Clauses see the frame numbers.
impl Model for Segment {
    ghost use Rattle.std.specs.Prelude.{ℕ, List};

    ghost Value = { List ℕ };

    ghost view = { λ segment. segment.pages.items };
}

impl Segment {
    /// A segment with no page.
    pub(crate) fn new(alloc: Global) -> Segment
        ensures { result ≡ [] }
    {
        Segment {
            pages: Vec::new(alloc),
        }
    }

    /// The frames.
    pub(crate) fn frames(&self) -> &[FrameNo]
        ensures { result.now ≡ self.now }
    {
        self.pages.as_slice()
    }

    /// Puts another frame at one page.
    pub(crate) fn replace(&mut self, page: usize, frame: FrameNo)
        requires { page < length self.old }
        ensures { self.new ≡ slice_set self.old page frame }
    {
        self.pages[page] = frame;
    }

    /// Takes a frame for a page of zeros, and puts it behind all pages.
    pub(crate) fn grow<const N: usize>(
        &mut self,
        frames: &mut Frames<N>,
    ) -> Result<FrameNo, Shortage>
        ensures pushed { IfOk result (λ f. self.new ≡ self.old ++ f ∷ []) }
        ensures takes { IfOk result (λ f. Takes frames.old frames.new f (replicate N 0)) }
        ensures full { IsErrOf result Shortage.NoFrame ↔ (free_of frames.old ≡ 0) }
        ensures err { OnErr result (self.new ≡ self.old) }
        ensures err_frames { OnErr result (frames.new ≡ frames.old) }
    {
        if frames.free() == 0 {
            return Err(Shortage::NoFrame);
        }
        self.pages.reserve(1)?;
        let frame = frames.take_zero()?;
        self.pages.push_reserved(frame);
        Ok(frame)
    }

    /// Keeps the first pages only.
    pub(crate) fn truncate(&mut self, pages: usize)
        ensures { self.new ≡ take pages self.old }
    {
        self.pages.truncate(pages);
    }

    /// A second segment with the same frames.
    pub(crate) fn try_clone(&self, alloc: Global) -> Result<Segment, AllocError>
        ensures { IfOk result (λ segment. segment ≡ self.now) }
    {
        let pages = self.pages.as_slice().to_vec(alloc)?;
        Ok(Segment { pages })
    }
}

/// The frames of all pages, by segment.
#[derive(Drop)]
pub(crate) struct PageTable {
    segments: Vec<Segment>,
}

// Clauses see the frame numbers, by segment.
impl Model for PageTable {
    ghost use Rattle.std.specs.Prelude.{ℕ, List};

    ghost Value = { List (List ℕ) };

    ghost view = { λ table. table.segments.items };
}

impl PageTable {
    /// A table of empty segments.
    pub(crate) fn new(alloc: Global, count: u32) -> Result<PageTable, AllocError>
        ensures { IfOk result (λ table. table ≡ replicate count []) }
    {
        let mut segments = Vec::new(alloc);
        for _i in 0..count {
            segments.push(Segment::new(alloc))?;
        }
        Ok(PageTable { segments })
    }

    /// The segments.
    pub(crate) fn segments(&self) -> &[Segment]
        ensures { result.now ≡ self.now }
    {
        self.segments.as_slice()
    }

    /// The frame of a page.
    pub(crate) fn frame(&self, segment: usize, page: usize) -> FrameNo
        requires segment { segment < length self.now }
        requires page { page < length (slice_index_or self.now segment []) }
        ensures { result ≡ slice_index (slice_index_or self.now segment []) page }
    {
        self.segments[segment].frames()[page]
    }

    /// Puts another frame at one page.
    pub(crate) fn replace(&mut self, segment: usize, page: usize, frame: FrameNo)
        requires segment { segment < length self.old }
        requires page { page < length (slice_index_or self.old segment []) }
        ensures { self.new ≡ with_frame self.old segment page frame }
    {
        self.segments[segment].replace(page, frame);
    }

    /// Takes a frame for a page of zeros, and puts it behind all pages of a segment.
    pub(crate) fn grow<const N: usize>(
        &mut self,
        segment: usize,
        frames: &mut Frames<N>,
    ) -> Result<FrameNo, Shortage>
        requires { segment < length self.old }
        ensures pushed { IfOk result (λ f. self.new ≡ with_new_frame self.old segment f) }
        ensures takes { IfOk result (λ f. Takes frames.old frames.new f (replicate N 0)) }
        ensures full { IsErrOf result Shortage.NoFrame ↔ (free_of frames.old ≡ 0) }
        ensures err { OnErr result (self.new ≡ self.old) }
        ensures err_frames { OnErr result (frames.new ≡ frames.old) }
    {
        self.segments[segment].grow(frames)
    }

    /// Keeps the first pages of a segment only.
    pub(crate) fn truncate(&mut self, segment: usize, pages: usize)
        requires { segment < length self.old }
        ensures { self.new ≡ with_first_frames self.old segment pages }
    {
        self.segments[segment].truncate(pages);
    }

    /// A second table with the same frames.
    pub(crate) fn try_clone(&self, alloc: Global) -> Result<PageTable, AllocError>
        ensures { IfOk result (λ table. table ≡ self.now) }
    {
        let mut segments = Vec::new(alloc);
        for segment in self.segments.as_slice() {
            segments.push(segment.try_clone(alloc)?)?;
        }
        Ok(PageTable { segments })
    }
}
