//! Files in memory.

ghost use Rattle.std.specs.Prelude.{◌≡◌, Some, OnErr, OnOk, string_bytes};
ghost use Rattle.hy_files.specs.Files.{HasFile, IsThere, KeepsFile, KeepsOthers, no_files};
ghost use Rattle.hy_files.specs.MemoryFiles.{files_on};

use crate::file_system::FileSystem;
use crate::held_file::{HeldFile, HeldLog};
use crate::memory_log::MemoryLog;
use std::alloc::Global;
use std::collections::BTreeMap;
use std::io;

/// Files in memory, by their paths. Of folders it knows nothing: each is there.
#[derive(Drop)]
pub struct MemoryFiles {
    alloc: Global,
    files: BTreeMap<String, Vec<u8>>,
}

impl MemoryFiles {
    /// No files.
    pub fn new(alloc: Global) -> MemoryFiles
        ensures { files_on result ≡ no_files }
    {
        MemoryFiles {
            alloc,
            files: BTreeMap::new(alloc),
        }
    }

    /// Makes these the bytes of a file. Where memory is refused, nothing changes.
    fn put(&mut self, name: String, bytes: Vec<u8>) -> io::Result<()>
        ensures bytes { OnOk result (HasFile (Some (files_on self.new)) (string_bytes name) bytes.items) }
        ensures unput { OnErr result (KeepsFile (Some (files_on self.old)) (Some (files_on self.new)) (string_bytes name)) }
        ensures others { KeepsOthers (Some (files_on self.old)) (Some (files_on self.new)) (string_bytes name) }
    {
        self.files.insert(name, bytes)?;
        Ok(())
    }

    /// Makes an empty file, where there is none at the path. Where memory is refused, nothing changes.
    fn make_where_missing(&mut self, path: &str) -> io::Result<()>
        ensures there { OnOk result (IsThere (Some (files_on self.old)) (Some (files_on self.new)) path.now) }
        ensures unmade { OnErr result (KeepsFile (Some (files_on self.old)) (Some (files_on self.new)) path.now) }
        ensures others { KeepsOthers (Some (files_on self.old)) (Some (files_on self.new)) path.now }
    {
        if self.files.contains_key(path) {
            return Ok(());
        }
        let name = path.to_string(self.alloc)?;
        self.put(name, Vec::new(self.alloc))
    }
}

impl FileSystem for MemoryFiles {
    type Held = HeldFile<()>;

    type Log = MemoryLog;

    ghost files = { λ memory. Some (files_on memory) };

    fn read(&mut self, _alloc: Global, path: &str) -> io::Result<Vec<u8>> {
        match self.files.get(path) {
            Some(bytes) => Ok(bytes.clone()?),
            None => Err(io::Error::from(io::ErrorKind::NotFound)),
        }
    }

    fn write(&mut self, path: &str, bytes: &[u8]) -> io::Result<()> {
        let name = path.to_string(self.alloc)?;
        let copy = bytes.to_vec(self.alloc)?;
        self.put(name, copy)
    }

    fn make_folder(&mut self, _path: &str) -> io::Result<()> {
        Ok(())
    }

    fn hold_log(&mut self, alloc: Global, path: &str) -> io::Result<HeldFile<()>> {
        let kept_path = path.to_string(alloc)?;
        self.make_where_missing(path)?;
        Ok(HeldFile::new(alloc, (), kept_path))
    }

    fn read_held(&mut self, alloc: Global, held: &mut HeldFile<()>) -> io::Result<()> {
        let bytes = self.read(alloc, held.path())?;
        held.see(bytes);
        Ok(())
    }

    fn go_on_log(&mut self, held: HeldFile<()>, size: u64) -> io::Result<MemoryLog> {
        let ((), path, mut bytes) = held.into_parts();
        bytes.truncate(size as usize);
        let copy = bytes.clone()?;
        self.put(path, copy)?;
        Ok(MemoryLog::behind(bytes))
    }

    fn end_log(&mut self, path: &str, log: MemoryLog) -> io::Result<()> {
        let name = path.to_string(self.alloc)?;
        self.put(name, log.into_bytes())
    }
}
