//! The program on the system that it runs on.

use hy_files::SystemFiles;
use hy_output::Stream;
use hy_program::{Ending, run_words};
use hy_schema::Refusal;
use std::fs::{self, File};
use std::io::{self, Write};
use std::sync::Wait;
use std::thread::Threads;

/// The file of the system that has nothing.
const NOTHING: &str = "/dev/null";

/// Runs the program on its words, with the files, streams and threads of the system.
pub fn run_on_system<R: Threads + Wait + Sync>(rt: &HostRuntime, threads: &R) -> Ending {
    match run_arguments(rt, threads) {
        Ok(ending) => ending,
        Err(error) => {
            let refusal = Refusal::NoMemory;
            let _ = match error.kind() {
                io::ErrorKind::OutOfMemory => writeln!(rt.stderr(), "refused {refusal}"),
                _ => writeln!(rt.stderr(), "{error}"),
            };
            Ending::Refused
        }
    }
}

/// Opens a file that has nothing as often as there are standard streams. A stream that was closed when the program began leaves its
/// number to the next file that is opened: were that a log, what is printed would go into it. Behind these calls that number is
/// taken, by a file that can't be written, so that such a stream fails; where all are open, they take three numbers more.
fn take_numbers(rt: &HostRuntime) -> [io::Result<File>; 3] {
    [
        fs::open(rt, NOTHING),
        fs::open(rt, NOTHING),
        fs::open(rt, NOTHING),
    ]
}

/// Runs the program on the words after its name, where these can be read.
fn run_arguments<R: Threads + Wait + Sync>(rt: &HostRuntime, threads: &R) -> io::Result<Ending> {
    let _taken = take_numbers(rt);
    let alloc = rt.alloc();
    let words: Vec<String> = std::env::args(rt)?.skip(1).collect(alloc)?;
    let texts: Vec<&str> = words.iter().map(|word| word.as_str()).collect(alloc)?;
    let mut files = SystemFiles::new(rt);
    let ending = run_words(
        threads,
        alloc,
        texts.as_slice(),
        &mut files,
        rt.stdin(),
        &mut Stream::new(rt.stdout()),
        &mut Stream::new(rt.stderr()),
    );
    Ok(ending)
}
