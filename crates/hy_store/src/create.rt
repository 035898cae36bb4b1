//! A store without rows.

ghost use Rattle.std.specs.Prelude.{◌≡◌, ℕ, ◌<◌, ◌≤◌, [], IfOk, IsErrOf};
ghost use Rattle.hy_frames.specs.FrameTable.{IsPageSize, max_frames as most_frames};
ghost use Rattle.hy_space.specs.Space.{owner_bytes};
ghost use Rattle.hy_store.specs.Pages.{HasPagesUpTo};
ghost use Rattle.hy_store.specs.Stored.{HasStore, all_segments, nothing_stored};
ghost use Rattle.hy_store.specs.Writes.{stored_in};

use hy_frames::Shortage;
use hy_rows::SEGMENTS;
use hy_space::Space;
use std::alloc::Global;

/// How many segments a store has: one for each table, and one for each index.
const ALL_SEGMENTS: u32 = SEGMENTS + 4;

/// Pages that say nothing: all tables without rows, and all indexes without entries. Takes one frame for each segment;
/// `NoFrame` where `max_frames` is less.
pub fn empty_store<const N: usize>(alloc: Global, max_frames: u64) -> Result<Space<N>, Shortage>
    requires size { IsPageSize N }
    requires some { 1 ≤ max_frames }
    requires limit { max_frames ≤ most_frames }
    ensures store { IfOk result (λ space. HasStore N (owner_bytes space)) }
    ensures empty { IfOk result (λ space. stored_in N space ≡ nothing_stored) }
    ensures children { IfOk result (λ space. space.children ≡ []) }
    ensures limit { IfOk result (λ space. space.frames.max ≡ max_frames) }
    ensures pages { IfOk result (λ space. (most : ℕ → ℕ) → HasPagesUpTo N most (owner_bytes space)) }
    ensures no_frame { IsErrOf result Shortage.NoFrame → max_frames < all_segments }
{
    let mut space = Space::new(alloc, ALL_SEGMENTS, max_frames)?;
    for segment in 0..ALL_SEGMENTS {
        space.grow(segment)?;
    }
    Ok(space)
}
