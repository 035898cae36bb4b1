//! Users of frames, many at once.

ghost use Rattle.std.specs.Prelude.{◌≡◌, ℕ, ◌+◌, ◌<◌, ◌≤◌, ◌^◌, [], length, slice_index, slice_index_or, map, true, ◌↔◌, IfOk, OnOk, OnErr, IsErrOf};
ghost use Rattle.hy_frames.specs.FrameTable.{count_of, page_of, lent_at, free_of, occurrences};
ghost use Rattle.hy_space.specs.Space.{times, table_bytes, with_frame, AddsUsers, DropsUsers, Lends, MovesUser};

use super::tables::PageTable;
use hy_frames::{FrameNo, Frames, Hold, Shortage};
use std::alloc::{AllocError, Global};

/// Adds a user to each of some frames.
fn share_each<const N: usize>(frames: &mut Frames<N>, numbers: &[FrameNo])
    requires used { (f : ℕ) → 0 < occurrences f numbers.now → 0 < count_of frames.old f }
    requires fits { (f : ℕ) → count_of frames.old f + occurrences f numbers.now < 2 ^ 64 }
    ensures { AddsUsers frames.old frames.new (λ f. occurrences f numbers.now) }
{
    for number in numbers {
        frames.share(*number);
    }
}

/// Adds a user to the frame of each page of a table.
pub(crate) fn share_table<const N: usize>(frames: &mut Frames<N>, table: &PageTable)
    requires used { (f : ℕ) → 0 < times f table.now → 0 < count_of frames.old f }
    requires fits { (f : ℕ) → count_of frames.old f + times f table.now < 2 ^ 64 }
    ensures { AddsUsers frames.old frames.new (λ f. times f table.now) }
{
    for segment in table.segments() {
        share_each(frames, segment.frames());
    }
}

/// Takes a user from each of some frames.
pub(crate) fn drop_each<const N: usize>(frames: &mut Frames<N>, numbers: &[FrameNo])
    requires { (f : ℕ) → occurrences f numbers.now ≤ count_of frames.old f }
    ensures { DropsUsers frames.old frames.new (λ f. occurrences f numbers.now) }
{
    for number in numbers {
        frames.drop_one(*number);
    }
}

/// Takes a user from the frame of each page of a table.
pub(crate) fn drop_table<const N: usize>(frames: &mut Frames<N>, table: &PageTable)
    requires { (f : ℕ) → times f table.now ≤ count_of frames.old f }
    ensures { DropsUsers frames.old frames.new (λ f. times f table.now) }
{
    for segment in table.segments() {
        drop_each(frames, segment.frames());
    }
}

/// Holds of the pages in some frames.
fn holds_of_each<const N: usize>(
    alloc: Global,
    frames: &mut Frames<N>,
    numbers: &[FrameNo],
) -> Result<Vec<Hold<N>>, AllocError>
    requires { (f : ℕ) → 0 < occurrences f numbers.now → 0 < count_of frames.old f }
    ensures holds { IfOk result (λ holds. holds.items ≡ map (page_of frames.old) numbers.now) }
    ensures lent { OnOk result ((f : ℕ) → 0 < occurrences f numbers.now → lent_at frames.new f ≡ true) }
    ensures lends { Lends frames.old frames.new (λ f. occurrences f numbers.now) }
{
    let mut holds = Vec::with_capacity(alloc, numbers.len())?;
    for number in numbers {
        holds.push(frames.hold(*number)?)?;
    }
    Ok(holds)
}

/// Holds of the pages of a table, by segment.
pub(crate) fn holds_of_table<const N: usize>(
    alloc: Global,
    frames: &mut Frames<N>,
    table: &PageTable,
) -> Result<Vec<Vec<Hold<N>>>, AllocError>
    requires { (f : ℕ) → 0 < times f table.now → 0 < count_of frames.old f }
    ensures holds { IfOk result
        (λ holds. map (λ segment. segment.items) holds.items ≡ table_bytes frames.old table.now) }
    ensures lent { OnOk result ((f : ℕ) → 0 < times f table.now → lent_at frames.new f ≡ true) }
    ensures lends { Lends frames.old frames.new (λ f. times f table.now) }
{
    let mut holds = Vec::new(alloc);
    for segment in table.segments() {
        holds.push(holds_of_each(alloc, frames, segment.frames())?)?;
    }
    Ok(holds)
}

/// Puts a copy of one page of a table into a fresh frame, where other tables have the page too. Answers the frame.
pub(crate) fn own_page<const N: usize>(
    frames: &mut Frames<N>,
    table: &mut PageTable,
    segment: usize,
    page: usize,
) -> Result<FrameNo, Shortage>
    requires segment { segment < length table.old }
    requires page { page < length (slice_index_or table.old segment []) }
    requires shared { 1 < count_of frames.old (slice_index (slice_index_or table.old segment []) page) }
    ensures table { IfOk result (λ f. table.new ≡ with_frame table.old segment page f) }
    ensures users { IfOk result (λ f.
        MovesUser frames.old frames.new (slice_index (slice_index_or table.old segment []) page) f) }
    ensures full { IsErrOf result Shortage.NoFrame ↔ (free_of frames.old ≡ 0) }
    ensures err { OnErr result (table.new ≡ table.old) }
    ensures err_frames { OnErr result (frames.new ≡ frames.old) }
{
    let shared = table.frame(segment, page);
    let fresh = frames.take_copy(shared)?;
    frames.drop_one(shared);
    table.replace(segment, page, fresh);
    Ok(fresh)
}
