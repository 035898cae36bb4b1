//! Logs in files: which calls of the system they make, in which order, and what becomes of them where one fails.

use super::*;
use crate::noting::{Answer, Call, Noted, Noting, Opened, PATH};
use hy_batches::{Batches, read_log};
use hy_redo::Log;
use hy_schema::Refusal;
use std::alloc::{AllocError, Global};
use std::process::Abort;
use std::test::*;
use std::{fs, io};

/// A payment of 1.00 in warehouse 1 of two.
const SAMPLE: [u8; 43] = [
    0x48, 0x59, 0x42, 0x31, 0x1e, 0, 0, 0, 0, 0, 0, 0, 2, 1, 0, 0, 0, 0, 2, 1, 1, 1, 1, 0, 1, 0,
    0x64, 0, 0, 0, 1, 0, 0, 0, 0, 0, 0, 0, 0, 0, 0, 0, 0x45,
];

/// So many times the sample, and the first bytes of one more.
fn samples(alloc: Global, count: usize, more: usize) -> Result<Vec<u8>, AllocError> {
    let mut bytes = Vec::new(alloc);
    for _ in 0..count {
        bytes.extend_from_slice(&SAMPLE)?;
    }
    bytes.extend_from_slice(&SAMPLE[..more.min(43)])?;
    Ok(bytes)
}

/// How far a log of two batches came: why it didn't begin, or what each batch was answered.
#[derive(Clone, Copy, Debug, PartialEq, Eq)]
enum Outcome {
    Unbegun(io::ErrorKind),
    Answers(Result<(), Refusal>, Result<(), Refusal>),
}

/// Both batches are acknowledged, the first alone, and none.
const BOTH: Outcome = Outcome::Answers(Ok(()), Ok(()));

const FIRST: Outcome = Outcome::Answers(Ok(()), Err(Refusal::LogFailed));

const NONE: Outcome = Outcome::Answers(Err(Refusal::LogFailed), Err(Refusal::LogFailed));

/// A log behind so many bytes of the file.
fn begin<'t>(runtime: &Noting<'t>, size: u64) -> io::Result<Log<LogFile<Opened<'t>>>> {
    let mut files = SystemFiles::new(runtime);
    let mut held = files.hold_log(runtime.alloc, PATH)?;
    if size > 0 {
        files.read_held(runtime.alloc, &mut held)?;
    }
    if size > held.bytes().len() as u64 {
        return Err(io::Error::from(io::ErrorKind::UnexpectedEof));
    }
    let out = files.go_on_log(held, size)?;
    Ok(Log::new(runtime.alloc, out))
}

/// Writes two batches to a log behind so many bytes of the file.
fn write_two(rt: &impl Abort, runtime: &Noting<'_>, size: u64, batches: &Batches) -> Outcome {
    assert_eq!(rt; batches.count(), 2);
    match begin(runtime, size) {
        Ok(mut log) => {
            let first = log.write_batch(batches.batch(0));
            let second = log.write_batch(batches.batch(1));
            Outcome::Answers(first, second)
        }
        Err(error) => Outcome::Unbegun(error.kind()),
    }
}

/// Tries two batches behind so many whole ones that the file has, with some bytes more: which calls are answered in a way of
/// their own, how far the log comes, all calls, and how many bytes of batches the file has then.
fn check(
    rt: &(impl Abort + AllocGlobal),
    old: (usize, usize),
    answers: &[(usize, Answer)],
    outcome: Outcome,
    calls: &[Call],
    size: usize,
) {
    let alloc = rt.alloc();
    let given = samples(alloc, 2, 0).expect(rt, "bytes");
    let batches = read_log(alloc, &given).expect(rt, "batches");
    let kept = samples(alloc, old.0, 0).expect(rt, "bytes");
    let noted = Noted::new(alloc, samples(alloc, old.0, old.1).expect(rt, "bytes"));
    let runtime = Noting {
        alloc,
        noted: &noted,
        answers,
    };
    assert_eq!(rt;
        write_two(rt, &runtime, kept.len() as u64, &batches),
        outcome
    );
    let (made, bytes) = noted.into_parts();
    assert_eq!(rt; made.as_slice(), calls);
    let whole = samples(alloc, size / 43, size % 43).expect(rt, "bytes");
    assert_eq!(rt; bytes, whole);
}

/// The calls with which a new log begins.
const BEGIN: [Call; 7] = [
    Call::Open,
    Call::Lock,
    Call::Cut(0),
    Call::Seek(0),
    Call::Sync,
    Call::OpenFolder,
    Call::SyncFolder,
];

/// The calls of a log from its begin on.
fn calls_of(alloc: Global, behind: &[Call]) -> Result<Vec<Call>, AllocError> {
    let mut calls = Vec::from_slice(alloc, &BEGIN)?;
    calls.extend_from_slice(behind)?;
    Ok(calls)
}

/// The same for a new log that is begun.
fn check_new(
    rt: &(impl Abort + AllocGlobal),
    answers: &[(usize, Answer)],
    outcome: Outcome,
    behind: &[Call],
    size: usize,
) {
    let calls = calls_of(rt.alloc(), behind).expect(rt, "calls");
    check(rt, (0, 0), answers, outcome, &calls, size);
}

#[test]
fn each_batch_is_synced_before_the_next(rt: HostRuntime) {
    let (write, sync) = (Call::Write(43), Call::Sync);
    check_new(&rt, &[], BOTH, &[write, sync, write, sync], 86);
    // a write that takes one byte, one that is interrupted, and both
    let short = (7, Answer::Takes(1));
    let again = (7, Answer::Error(io::ErrorKind::Interrupted));
    let later = (8, Answer::Takes(42));
    check_new(
        &rt,
        &[short],
        BOTH,
        &[write, Call::Write(42), sync, write, sync],
        86,
    );
    check_new(&rt, &[again], BOTH, &[write, write, sync, write, sync], 86);
    check_new(
        &rt,
        &[again, later],
        BOTH,
        &[write, write, Call::Write(1), sync, write, sync],
        86,
    );
}

#[test]
fn a_failure_ends_the_log(rt: HostRuntime) {
    let (write, sync) = (Call::Write(43), Call::Sync);
    let full = Answer::Error(io::ErrorKind::StorageFull);
    check_new(&rt, &[(7, full)], NONE, &[write], 0);
    check_new(&rt, &[(7, Answer::Takes(0))], NONE, &[write], 0);
    check_new(
        &rt,
        &[(7, Answer::Takes(20)), (8, full)],
        NONE,
        &[write, Call::Write(23)],
        20,
    );
    check_new(&rt, &[(8, full)], NONE, &[write, sync], 43);
    check_new(&rt, &[(9, full)], FIRST, &[write, sync, write], 43);
    check_new(&rt, &[(10, full)], FIRST, &[write, sync, write, sync], 86);
}

#[test]
fn a_log_that_goes_on_is_synced_first(rt: HostRuntime) {
    let (write, sync) = (Call::Write(43), Call::Sync);
    for more in [0, 20] {
        check(
            &rt,
            (1, more),
            &[],
            BOTH,
            &[
                Call::Open,
                Call::Lock,
                Call::Seek(0),
                Call::Cut(43),
                Call::Seek(43),
                sync,
                Call::OpenFolder,
                Call::SyncFolder,
                write,
                sync,
                write,
                sync,
            ],
            129,
        );
    }
}

#[test]
fn a_refused_call_leaves_no_log(rt: HostRuntime) {
    let kinds = [
        (0, io::ErrorKind::PermissionDenied, 20),
        (1, io::ErrorKind::WouldBlock, 20),
        (2, io::ErrorKind::PermissionDenied, 20),
        (3, io::ErrorKind::PermissionDenied, 0),
        (4, io::ErrorKind::StorageFull, 0),
        (5, io::ErrorKind::PermissionDenied, 0),
        (6, io::ErrorKind::StorageFull, 0),
    ];
    for (place, kind, left) in kinds {
        let answers = [(place, Answer::Error(kind))];
        check(
            &rt,
            (0, 20),
            &answers,
            Outcome::Unbegun(kind),
            &BEGIN[..place + 1],
            left,
        );
    }
}

#[test]
fn a_held_file_is_read_whole(rt: HostRuntime) -> Result<(), Fail> {
    let alloc = rt.alloc();
    let old = samples(alloc, 1, 20)?;
    let noted = Noted::new(alloc, samples(alloc, 1, 20)?);
    let runtime = Noting {
        alloc,
        noted: &noted,
        answers: &[],
    };
    let mut files = SystemFiles::new(&runtime);
    let mut held = files.hold_log(alloc, PATH)?;
    assert!(rt; held.bytes().is_empty());
    files.read_held(alloc, &mut held)?;
    assert_eq!(rt; held.bytes(), old.as_slice());
    files.read_held(alloc, &mut held)?;
    assert_eq!(rt; held.bytes(), old.as_slice());
    Ok(())
}

/// Why a file of the system isn't held, where it isn't; it is let go at once.
fn hold_once(rt: &HostRuntime, path: &str) -> Option<io::ErrorKind> {
    match SystemFiles::new(rt).hold_log(rt.alloc(), path) {
        Ok(_held) => None,
        Err(error) => Some(error.kind()),
    }
}

#[test]
fn one_alone_holds_a_file_of_the_system(rt: HostRuntime) -> Result<(), Fail> {
    let path = "/tmp/hy_files_one_alone_holds_a_file";
    let mut files = SystemFiles::new(&rt);
    let held = files.hold_log(rt.alloc(), path)?;
    assert_eq!(rt; hold_once(&rt, path), Some(io::ErrorKind::WouldBlock));
    let log = files.go_on_log(held, 0)?;
    assert_eq!(rt; hold_once(&rt, path), Some(io::ErrorKind::WouldBlock));
    files.end_log(path, log)?;
    assert_eq!(rt; hold_once(&rt, path), None);
    fs::remove_file(&rt, path)?;
    Ok(())
}
