//! Why a call was refused.

ghost use Rattle.std.specs.Prelude.{◌≡◌};
ghost use Rattle.hy_frames.specs.declared.errors.Shortage.TheVariants.{NoMemory};

use std::alloc::AllocError;

/// What a table of frames ran out of.
#[derive(Clone, Copy, Debug, PartialEq, Eq)]
pub enum Shortage {
    /// The allocator has no memory.
    NoMemory,
    /// As many frames are in use as may be.
    NoFrame,
}

impl From<AllocError> for Shortage {
    ghost from_gives = { λ _ shortage. shortage ≡ NoMemory };

    fn from(_refused: AllocError) -> Shortage {
        Shortage::NoMemory
    }
}

/// A limit that this table can't have.
#[derive(Clone, Copy, Debug, PartialEq, Eq)]
pub struct OutOfRange;
