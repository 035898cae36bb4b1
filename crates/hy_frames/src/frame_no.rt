//! Numbers of frames.

ghost use Rattle.std.specs.Prelude.{◌≡◌};

use std::marker::Model;

/// The number of a frame.
#[derive(Clone, Copy, Debug, PartialEq, Eq)]
pub struct FrameNo {
    number: u32,
}

impl Model for FrameNo {
    ghost use Rattle.std.specs.Prelude.{ℕ};

    ghost Value = { ℕ };

    ghost view = { λ frame. frame.number };

    ghost inverse = { λ n. record { number = n } };
}

impl FrameNo {
    /// The frame with this number.
    pub(crate) fn new(number: u32) -> FrameNo
        ensures { result ≡ number }
    {
        FrameNo { number }
    }

    /// The frame's place among the slots.
    pub(crate) fn index(self) -> usize
        ensures { result ≡ self }
    {
        self.number as usize
    }
}
