//! What became of a log, for clauses alone.

ghost use Rattle.std.specs.Prelude.{◌≡◌};
ghost use Rattle.std.specs.Borrow.{ftrue};
ghost use Rattle.hy_redo.specs.Writers.{Told, with_more, with_sync};
ghost use Rattle.hy_files.specs.LogFiles.{all_synced, failed_once, nothing_told};

use std::marker::{Model, PhantomData};

/// What a log's writer has told so far. No memory holds it.
#[derive(Drop)]
pub(crate) struct Noted {
    marker: PhantomData<u8>,
    pub ghost told: { Told },
}

impl Model for Noted {
    ghost also_owns = { λ _. ftrue };
}

// It owns nothing.
unsafe impl Send for Noted {}

impl Noted {
    /// Nothing yet.
    pub(crate) fn new() -> Noted
        ensures { result.told ≡ nothing_told }
    {
        Noted {
            marker: PhantomData,
        }
    }

    /// A file has these bytes, all of them synced.
    pub(crate) fn behind(bytes: &[u8]) -> Noted
        ensures { result.told ≡ all_synced bytes.now }
    {
        let mut noted = Noted::new();
        noted.take(bytes);
        noted.sync();
        noted
    }

    /// These bytes were taken.
    pub(crate) fn take(&mut self, _bytes: &[u8])
        ensures { self.new.told ≡ with_more self.old.told _bytes.now }
    {}

    /// All that were taken are synced.
    pub(crate) fn sync(&mut self)
        ensures { self.new.told ≡ with_sync self.old.told }
    {}

    /// A call has failed.
    pub(crate) fn fail(&mut self)
        ensures { self.new.told ≡ failed_once self.old.told }
    {}
}
