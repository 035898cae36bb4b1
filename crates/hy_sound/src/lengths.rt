//! How many bytes batches have.

ghost use Rattle.std.specs.Prelude.{◌≡◌, ◌≤◌, length, take};
ghost use Rattle.hy_batches.specs.Encoding.{log_bytes};

use hy_batches::{Batches, Sink, write_batch};

/// Counts bytes, up to the greatest number of 64 bits and then from 0 on.
#[derive(Debug, Drop)]
pub(crate) struct Count {
    pub(crate) bytes: u64,
}

impl Sink for Count {
    ghost use Rattle.hy_sound.specs.inside.Lengths.{Counts, counts_both, counts_none};

    ghost takes = { Counts };

    ghost takes_none = { counts_none };

    ghost takes_both = { counts_both };

    fn put(&mut self, bytes: &[u8]) {
        self.bytes = self.bytes.wrapping_add(bytes.len() as u64);
    }
}

/// The place in the log at which the batch behind the first so many begins.
pub(crate) fn place_of(batches: &Batches, end: usize) -> u64
    requires { end ≤ length batches.now }
    ensures { result ≡ length (log_bytes (take end batches.now)) }
{
    let _all = batches.bytes();
    let mut count = Count { bytes: 0 };
    for place in 0..end {
        write_batch(&mut count, batches.batch(place));
    }
    count.bytes
}
