//! The nine files of a directory.

ghost use Rattle.std.specs.Prelude.{◌≡◌, ◌≢◌, ◌⊎◌, ℕ, List, IfErr, IfOk, OnOk, Some, map, string_bytes};
ghost use Rattle.hy_rows.specs.Catalogue.{file_of, tables_by_file};
ghost use Rattle.hy_schema.specs.declared.refusal.Refusal.TheVariants as refusals;
ghost use Rattle.hy_files.specs.declared.directory.FileFault.TheVariants as fault;
ghost use Rattle.hy_files.specs.Directory.{AreFiles, KeepsOtherFiles, path_of};
ghost use Rattle.hy_files.specs.Faults.{IsOfSystem, IsUnread, IsUnwritten};
ghost use Rattle.hy_files.specs.Files.{HasFile, IsMissing, IsOutOfMemory, KeepsOthers};

use crate::file_system::FileSystem;
use hy_rows::{TABLES, TABLES_BY_FILE, Table};
use hy_schema::Refusal;
use std::alloc::{AllocError, Global};
use std::{fmt, io};

/// Why the files of a directory weren't read or written.
#[derive(Clone, Copy, Debug, PartialEq, Eq)]
pub enum FileFault {
    /// The file of this table can't be read.
    CannotRead(Table),
    /// The file of this table can't be written.
    CannotWrite(Table),
    /// The files were read and are no load, or memory was refused.
    Refused(Refusal),
}

impl From<AllocError> for FileFault {
    ghost from_gives = { λ _ made. made ≡ fault.Refused refusals.NoMemory };

    fn from(_refused: AllocError) -> FileFault {
        FileFault::Refused(Refusal::NoMemory)
    }
}

impl From<Refusal> for FileFault {
    ghost from_gives = { λ refusal made. made ≡ fault.Refused refusal };

    fn from(refusal: Refusal) -> FileFault {
        FileFault::Refused(refusal)
    }
}

/// The name of the file of a table, which is printed as its text.
#[derive(Clone, Copy, Debug)]
pub struct FileName {
    /// The table.
    pub table: Table,
}

impl fmt::Display for FileName {
    ghost output = { λ name. Some (file_of name.table) };

    fn fmt<W: fmt::Write>(&self, f: &mut fmt::Formatter<W>) -> fmt::Result {
        let word = self.table.word();
        write!(f, "{word}.csv")
    }
}

/// The path of the file of a table.
fn path_of(alloc: Global, directory: &str, table: Table) -> Result<String, AllocError>
    ensures { IfOk result (λ path. string_bytes path ≡ path_of directory.now table) }
{
    let name = FileName { table };
    let path = format!(in alloc; "{directory}/{name}")?;
    Ok(path)
}

/// Why a file wasn't reached: memory was refused, or else this.
fn reason(error: io::Error, otherwise: FileFault) -> FileFault
    ensures { (IsOutOfMemory error × (result ≡ fault.Refused refusals.NoMemory))
        ⊎ ((IsOutOfMemory error → ⊥) × (result ≡ otherwise)) }
{
    match error.kind() {
        io::ErrorKind::OutOfMemory => FileFault::Refused(Refusal::NoMemory),
        _ => otherwise,
    }
}

/// The bytes of the file of a table.
fn read_file<F: FileSystem>(
    alloc: Global,
    system: &mut F,
    directory: &str,
    table: Table,
) -> Result<Vec<u8>, FileFault>
    ensures files { F.files system.new ≡ F.files system.old }
    ensures folders { F.folders system.new ≡ F.folders system.old }
    ensures unwritten { F.unwritten system.new ≡ F.unwritten system.old }
    ensures bytes { IfOk result
        (λ bytes. HasFile (F.files system.old) (path_of directory.now table) bytes.items) }
    ensures fault { IfErr result
        (λ why. (why ≡ fault.Refused refusals.NoMemory)
        ⊎ ((why ≡ fault.CannotRead table) × IsMissing (F.files system.old) (path_of directory.now table))) }
{
    let path = path_of(alloc, directory, table)?;
    match system.read(alloc, path.as_str()) {
        Ok(bytes) => Ok(bytes),
        Err(error) => Err(reason(error, FileFault::CannotRead(table))),
    }
}

/// Makes these the bytes of the file of a table.
fn write_file<F: FileSystem>(
    alloc: Global,
    system: &mut F,
    directory: &str,
    table: Table,
    bytes: &[u8],
) -> Result<(), FileFault>
    ensures bytes { OnOk result (HasFile (F.files system.new) (path_of directory.now table) bytes.now) }
    ensures others { KeepsOthers (F.files system.old) (F.files system.new) (path_of directory.now table) }
    ensures fault { IfErr result
        (λ why. (why ≡ fault.Refused refusals.NoMemory) ⊎ (why ≡ fault.CannotWrite table)) }
    ensures folders { F.folders system.new ≡ F.folders system.old }
    ensures written { OnOk result (F.unwritten system.new ≡ F.unwritten system.old) }
    ensures unwritten { IfErr result (IsOfSystem (F.unwritten system.old) (F.unwritten system.new) directory.now) }
{
    let path = path_of(alloc, directory, table)?;
    match system.write(path.as_str(), bytes) {
        Ok(()) => Ok(()),
        Err(error) => Err(reason(error, FileFault::CannotWrite(table))),
    }
}

/// The texts of the nine files, in their order.
pub fn read_files<F: FileSystem>(
    alloc: Global,
    system: &mut F,
    directory: &str,
) -> Result<Vec<Vec<u8>>, FileFault>
    ensures files { F.files system.new ≡ F.files system.old }
    ensures folders { F.folders system.new ≡ F.folders system.old }
    ensures unwritten { F.unwritten system.new ≡ F.unwritten system.old }
    ensures texts { IfOk result
        (λ texts. AreFiles (F.files system.old) directory.now tables_by_file (map (λ text. text.items) texts.items)) }
    ensures fault { IfErr result (IsUnread (F.files system.old) directory.now) }
{
    let mut texts = Vec::with_capacity(alloc, TABLES_BY_FILE.len())?;
    for table in &TABLES_BY_FILE {
        let bytes = read_file(alloc, system, directory, *table)?;
        texts.push_reserved(bytes);
    }
    Ok(texts)
}

/// Makes these the texts of the nine files, in their order.
pub fn write_files<F: FileSystem>(
    alloc: Global,
    system: &mut F,
    directory: &str,
    texts: &[Vec<u8>; TABLES],
) -> Result<(), FileFault>
    ensures files { OnOk result
        (AreFiles (F.files system.new) directory.now tables_by_file (map (λ text. text.items) texts.now)) }
    ensures others { KeepsOtherFiles (F.files system.old) (F.files system.new) directory.now tables_by_file }
    ensures fault { IfErr result
        (IsUnwritten (F.files system.old) (F.files system.new) directory.now (map (λ text. text.items) texts.now)) }
    ensures folders { F.folders system.new ≡ F.folders system.old }
    ensures unwritten { IfErr result (IsOfSystem (F.unwritten system.old) (F.unwritten system.new) directory.now) }
{
    for (number, table) in TABLES_BY_FILE.iter().enumerate() {
        write_file(alloc, system, directory, *table, &texts[number])?;
    }
    Ok(())
}
