//! What bytes go to.

use std::alloc::Global;
use std::marker::Model;

/// What takes bytes. One that fails says so in the end, and not at each call: what it is handed then is lost.
pub trait Sink {
    ghost use Rattle.std.specs.Prelude.{ℕ, List, [], ◌++◌};

    // what became of the first, now the second, as it was handed these bytes
    ghost takes: { Self → Self → List ℕ → Type 0 };

    /// Hands it bytes.
    fn put(&mut self, bytes: &[u8])
        ensures { takes self.old self.new bytes.now };

    ghost takes_none: { (sink : Self) → takes sink sink [] };

    ghost takes_both: { (first second third : Self) (front back : List ℕ) → takes first second front
        → takes second third back → takes first third (front ++ back) };
}

/// Counts bytes, up to the greatest number of 64 bits and then from 0 on.
#[derive(Debug, Drop)]
pub(crate) struct Counter {
    pub(crate) count: u64,
}

impl Sink for Counter {
    ghost use Rattle.hy_batches.specs.inside.Sinks.{Counts, counts_both, counts_none};

    ghost takes = { Counts };

    ghost takes_none = { counts_none };

    ghost takes_both = { counts_both };

    fn put(&mut self, bytes: &[u8]) {
        self.count = self.count.wrapping_add(bytes.len() as u64);
    }
}

/// Keeps bytes, as far as memory lasts.
#[derive(Debug, Drop)]
pub struct Text {
    bytes: Vec<u8>,
    is_whole: bool,
}

// Clauses see the bytes, or nothing where memory lacked for some.
impl Model for Text {
    ghost use Rattle.std.specs.Prelude.{ℕ, List, None, Option, Some, if◌then◌else◌};

    ghost Value = { Option (List ℕ) };

    ghost view = { λ text. if text.is_whole then Some text.bytes.items else None };
}

impl Text {
    ghost use Rattle.std.specs.Prelude.{◌≡◌, [], Some};
    ghost use Rattle.std.specs.Option.{option_copied};

    /// No bytes.
    pub fn new(alloc: Global) -> Text
        ensures { result ≡ Some [] }
    {
        Text {
            bytes: Vec::new(alloc),
            is_whole: true,
        }
    }

    /// Its bytes, or none where memory lacked for some.
    pub fn bytes(&self) -> Option<&[u8]>
        ensures { option_copied result ≡ self.now }
    {
        if self.is_whole {
            Some(&self.bytes)
        } else {
            None
        }
    }

    /// Lets all bytes go, and keeps the memory.
    pub fn clear(&mut self)
        ensures { self.new ≡ Some [] }
    {
        self.bytes.clear();
        self.is_whole = true;
    }
}

impl Sink for Text {
    ghost use Rattle.hy_batches.specs.Sinks.{Keeps, keeps_both, keeps_none};

    ghost takes = { Keeps };

    ghost takes_none = { keeps_none };

    ghost takes_both = { keeps_both };

    fn put(&mut self, bytes: &[u8]) {
        if self.bytes.extend_from_slice(bytes).is_err() {
            self.is_whole = false;
        }
    }
}
