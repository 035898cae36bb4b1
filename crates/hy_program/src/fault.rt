//! Why a command line isn't done.

ghost use Rattle.std.specs.Prelude.{◌≡◌, Bool, Some};
ghost use Rattle.hy_schema.specs.declared.refusal.Refusal.TheVariants as refusals;
ghost use Rattle.hy_program.specs.declared.fault.RunFault.TheVariants as fault;
ghost use Rattle.hy_hyper_life.specs.Faults.{IsBlamed};
ghost use Rattle.hy_program.specs.Faults.{IsAboutFiles, IsBlamedRightly, IsOfScript, fault_text, path_text, serve_text};
ghost use Rattle.hy_program.specs.Serve.{IsAboutLife};

use hy_files::{FileFault, FileName};
use hy_hyper_life::LifeFault;
use hy_schema::{Refusal, Table};
use hy_script::ScriptFault;
use std::alloc::AllocError;
use std::{fmt, io};

/// The path of a table's file in a folder, which is printed as its text.
#[derive(Clone, Copy, Debug)]
pub struct FilePath<'a> {
    /// The folder.
    pub directory: &'a str,
    /// The table.
    pub table: Table,
}

impl fmt::Display for FilePath<'_> {
    ghost output = { λ path. Some (path_text path) };

    fn fmt<W: fmt::Write>(&self, f: &mut fmt::Formatter<W>) -> fmt::Result {
        let directory = self.directory;
        let name = FileName { table: self.table };
        write!(f, "{directory}/{name}")
    }
}

/// Why a service isn't served, where that is no refusal and no fault of a load's or a log's file.
#[derive(Debug, Drop)]
pub enum ServeFault<'a> {
    /// The digests beside the log of this path are those of another load.
    OtherLoad(&'a str),
    /// The digests beside the log of this path can't be read.
    CannotReadSums(&'a str),
    /// The digests beside the log of this path can't be written.
    CannotWriteSums(&'a str),
    /// The input couldn't be read.
    Input(io::Error),
}

impl fmt::Display for ServeFault<'_> {
    ghost output = { λ found. Some (serve_text found) };

    fn fmt<W: fmt::Write>(&self, f: &mut fmt::Formatter<W>) -> fmt::Result {
        match self {
            ServeFault::OtherLoad(path) => write!(f, "{path} is the log of another load"),
            ServeFault::CannotReadSums(path) => write!(f, "cannot read {path}.load"),
            ServeFault::CannotWriteSums(path) => write!(f, "cannot write {path}.load"),
            ServeFault::Input(_) => write!(f, "cannot read standard input"),
        }
    }
}

/// Why a command line isn't done.
#[derive(Debug, Drop)]
pub enum RunFault<'a> {
    /// It is refused.
    Refused(Refusal),
    /// A file can't be read.
    CannotRead(FilePath<'a>),
    /// The file of a script or a log can't be read.
    CannotReadFile(&'a str),
    /// The line of this number of a script is a bad event.
    BadEvent(u64),
    /// A file can't be written.
    CannotWrite(FilePath<'a>),
    /// The file of a log can't be written.
    CannotWriteFile(&'a str),
    /// A service isn't served.
    Serve(ServeFault<'a>),
    /// The output for what is found failed.
    Writer(io::Error),
}

impl<'a> RunFault<'a> {
    /// What a fault of the files of a folder is for a command line.
    pub fn of_files(directory: &'a str, found: FileFault) -> RunFault<'a>
        ensures about { IsAboutFiles directory.entry.now found result }
        ensures unblamed { (has_failed : Bool) → IsBlamedRightly has_failed result }
    {
        match found {
            FileFault::Refused(refusal) => RunFault::Refused(refusal),
            FileFault::CannotRead(table) => RunFault::CannotRead(FilePath { directory, table }),
            FileFault::CannotWrite(table) => RunFault::CannotWrite(FilePath { directory, table }),
        }
    }
}

impl<'a> RunFault<'a> {
    /// What a fault of a service over a folder and a log is for a command line.
    pub fn of_life(directory: &'a str, log: &'a str, found: LifeFault) -> RunFault<'a>
        ensures about { IsAboutLife directory.entry.now log.entry.now found result }
        ensures unblamed { (has_failed : Bool) → IsBlamed has_failed found → IsBlamedRightly has_failed result }
    {
        match found {
            LifeFault::Refused(refusal) => RunFault::Refused(refusal),
            LifeFault::CannotRead(table) => RunFault::CannotRead(FilePath { directory, table }),
            LifeFault::CannotReadLog => RunFault::CannotReadFile(log),
            LifeFault::CannotWriteLog => RunFault::CannotWriteFile(log),
            LifeFault::CannotReadSums => RunFault::Serve(ServeFault::CannotReadSums(log)),
            LifeFault::CannotWriteSums => RunFault::Serve(ServeFault::CannotWriteSums(log)),
            LifeFault::OtherLoad => RunFault::Serve(ServeFault::OtherLoad(log)),
            LifeFault::Output(error) => RunFault::Writer(error),
            LifeFault::Input(error) => RunFault::Serve(ServeFault::Input(error)),
        }
    }
}

impl From<Refusal> for RunFault<'_> {
    ghost from_gives = { λ refusal made. made ≡ fault.Refused refusal };

    fn from(refusal: Refusal) -> Self {
        RunFault::Refused(refusal)
    }
}

impl From<AllocError> for RunFault<'_> {
    ghost from_gives = { λ _ made. made ≡ fault.Refused refusals.NoMemory };

    fn from(_refused: AllocError) -> Self {
        RunFault::Refused(Refusal::NoMemory)
    }
}

impl From<io::Error> for RunFault<'_> {
    ghost from_gives = { λ error made. made ≡ fault.Writer error };

    fn from(error: io::Error) -> Self {
        RunFault::Writer(error)
    }
}

impl From<ScriptFault> for RunFault<'_> {
    ghost from_gives = { IsOfScript };

    fn from(found: ScriptFault) -> Self {
        match found {
            ScriptFault::Refused(refusal) => RunFault::Refused(refusal),
            ScriptFault::BadEvent(line) => RunFault::BadEvent(line),
            ScriptFault::Output(error) => RunFault::Writer(error),
        }
    }
}

impl fmt::Display for RunFault<'_> {
    ghost output = { fault_text };

    fn fmt<W: fmt::Write>(&self, f: &mut fmt::Formatter<W>) -> fmt::Result {
        match self {
            RunFault::Refused(refusal) => write!(f, "refused {refusal}"),
            RunFault::CannotRead(path) => write!(f, "cannot read {path}"),
            RunFault::CannotReadFile(path) => write!(f, "cannot read {path}"),
            RunFault::BadEvent(line) => write!(f, "bad event on line {line}"),
            RunFault::CannotWrite(path) => write!(f, "cannot write {path}"),
            RunFault::CannotWriteFile(path) => write!(f, "cannot write {path}"),
            RunFault::Serve(found) => write!(f, "{found}"),
            RunFault::Writer(error) => write!(f, "{error}"),
        }
    }
}
