//! Writers and places that fail, and memory that is refused.

ghost use Rattle.std.specs.Prelude.{None};

use hy_commands::Reply;
use hy_events::write_reply;
use hy_files::{FileFault, FileSystem, HeldFile, MemoryFiles, MemoryLog, read_load, write_load};
use hy_output::{Spare, Stream};
use hy_program::{Ending, run_words};
use hy_schema::{Refusal, Table};
use hy_tables::generate;
use std::alloc::Global;
use std::io;
use std::process::Abort;
use std::sync::Wait;
use std::thread::Threads;

/// A writer that takes so many bytes and then fails.
#[derive(Drop)]
struct Short {
    left: usize,
    is_empty: bool,
}

impl Short {
    /// A writer of which nothing is taken yet.
    fn new(left: usize) -> Short {
        Short {
            left,
            is_empty: true,
        }
    }
}

impl io::Write for Short {
    fn write(&mut self, bytes: &[u8]) -> io::Result<usize> {
        if self.left == 0 {
            return Err(io::Error::from(io::ErrorKind::BrokenPipe));
        }
        let taken = bytes.len().min(self.left);
        self.left -= taken;
        self.is_empty = false;
        Ok(taken)
    }

    fn flush(&mut self) -> io::Result<()> {
        Ok(())
    }
}

impl Spare for Short {
    fn spare(&self) -> Short {
        Short::new(0)
    }
}

/// A place where one file can't be written, and none is kept.
#[derive(Drop)]
struct Locked {
    path: &'static str,
}

impl FileSystem for Locked {
    type Held = HeldFile<()>;

    type Log = MemoryLog;

    ghost files = { λ _. None };

    fn read(&mut self, _alloc: Global, _path: &str) -> io::Result<Vec<u8>> {
        Err(io::Error::from(io::ErrorKind::OutOfMemory))
    }

    fn write(&mut self, path: &str, _bytes: &[u8]) -> io::Result<()> {
        if path == self.path {
            return Err(io::Error::from(io::ErrorKind::PermissionDenied));
        }
        Ok(())
    }

    fn make_folder(&mut self, _path: &str) -> io::Result<()> {
        Err(io::Error::from(io::ErrorKind::AlreadyExists))
    }

    fn hold_log(&mut self, _alloc: Global, _path: &str) -> io::Result<HeldFile<()>> {
        Err(io::Error::from(io::ErrorKind::PermissionDenied))
    }

    fn read_held(&mut self, _alloc: Global, _held: &mut HeldFile<()>) -> io::Result<()> {
        Err(io::Error::from(io::ErrorKind::PermissionDenied))
    }

    fn go_on_log(&mut self, _held: HeldFile<()>, _size: u64) -> io::Result<MemoryLog> {
        Err(io::Error::from(io::ErrorKind::PermissionDenied))
    }

    fn end_log(&mut self, _path: &str, _log: MemoryLog) -> io::Result<()> {
        Ok(())
    }
}

/// Whether a reply of six bytes is written by a writer that takes so many.
fn is_written(bytes: usize) -> bool {
    let mut out = Stream::new(Short::new(bytes));
    write_reply(&mut out, &Reply::StockLevel { low: 1 }).is_ok()
}

#[test]
fn a_reply_fails_as_the_writer_does(rt: HostRuntime) {
    assert!(rt; is_written(6));
    assert!(rt; !is_written(5));
    assert!(rt; !is_written(0));
}

/// How a run of the program ends whose writers take so many bytes, and whether each is left without a text.
fn run(
    rt: &(impl Threads + Wait + Sync),
    stored: &mut MemoryFiles,
    alloc: Global,
    words: &[&str],
    sizes: [usize; 2],
) -> (Ending, [bool; 2]) {
    let mut out = Stream::new(Short::new(sizes[0]));
    let mut err = Stream::new(Short::new(sizes[1]));
    let nothing: &[u8] = &[];
    let ending = run_words(rt, alloc, words, stored, nothing, &mut out, &mut err);
    (
        ending,
        [out.into_writer().is_empty, err.into_writer().is_empty],
    )
}

#[test]
fn answers_1_where_a_writer_fails(rt: HostRuntime) {
    let mut stored = MemoryFiles::new(rt.alloc());
    let failed = Ending::WriterFailed;
    assert!(rt; run(&rt, &mut stored, rt.alloc(), &["first"], [0, 999]) == (failed, [true, false]));
    assert!(rt; run(&rt, &mut stored, rt.alloc(), &["--help"], [999, 0]) == (failed, [true, true]));
    let words = ["first", "--amount", "99"];
    assert!(rt; run(&rt, &mut stored, rt.alloc(), &words, [999, 0]) == (failed, [true, true]));
    assert!(rt; failed.status() == 1);
}

#[test]
fn first_leaves_a_shelf(rt: HostRuntime) {
    let mut stored = MemoryFiles::new(rt.alloc());
    let (ending, _) = run(&rt, &mut stored, rt.alloc(), &["first"], [999, 999]);
    assert!(rt; ending == Ending::Done);
    assert!(rt; stored.read(rt.alloc(), "ytd").is_err());
}

/// Why a load isn't written where one file is locked.
fn locked_out(rt: &(impl Abort + AllocGlobal), path: &'static str) -> Option<FileFault> {
    let load = generate(rt.alloc(), 1, 1, 1).expect(rt, "a load");
    write_load(rt.alloc(), &mut Locked { path }, "data", &load).err()
}

#[test]
fn a_locked_file_is_named(rt: HostRuntime) {
    for (path, table) in [
        ("data/warehouse.csv", Table::Warehouse),
        ("data/neworder.csv", Table::NewOrder),
        ("data/history.csv", Table::History),
    ] {
        assert!(rt; locked_out(&rt, path) == Some(FileFault::CannotWrite(table)));
    }
    assert!(rt; locked_out(&rt, "data") == None);
}

#[test]
fn refused_memory_is_no_missing_file(rt: HostRuntime) {
    let fault = read_load(rt.alloc(), &mut Locked { path: "data" }, "data").err();
    assert!(rt; fault == Some(FileFault::Refused(Refusal::NoMemory)));
}
