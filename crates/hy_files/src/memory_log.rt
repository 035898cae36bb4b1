//! A log in memory.

ghost use Rattle.std.specs.Prelude.{◌≡◌};
ghost use Rattle.hy_files.specs.LogFiles.{all_synced};

use crate::noted::Noted;
use hy_redo::{Failed, LogOut};

/// The bytes of a log in memory.
#[derive(Drop)]
pub struct MemoryLog {
    bytes: Vec<u8>,
    noted: Noted,
    ghost all: { noted.told.written ≡ bytes.items },
}

impl MemoryLog {
    /// A log that goes on behind these bytes.
    pub(crate) fn behind(bytes: Vec<u8>) -> MemoryLog
        ensures { result.noted.told ≡ all_synced bytes.items }
    {
        let noted = Noted::behind(&bytes);
        MemoryLog { bytes, noted }
    }

    /// All bytes.
    pub(crate) fn into_bytes(self) -> Vec<u8>
        ensures { result.items ≡ self.noted.told.written }
    {
        let MemoryLog { bytes, noted: _ } = self;
        bytes
    }
}

impl LogOut for MemoryLog {
    ghost told = { λ log. log.noted.told };

    fn write(&mut self, bytes: &[u8]) -> Result<usize, Failed> {
        if self.bytes.extend_from_slice(bytes).is_err() {
            self.noted.fail();
            return Err(Failed);
        }
        self.noted.take(bytes);
        Ok(bytes.len())
    }

    fn sync(&mut self) -> Result<(), Failed> {
        self.noted.sync();
        Ok(())
    }
}
