//! Loads in files: the nine files of an example, a large generated load, and the files of the system.

use crate::example::FILES;
use hy_cli::{Line, read_words};
use hy_files::{FileSystem, MemoryFiles, SystemFiles, read_load, write_load};
use hy_rows::Customer;
use hy_tables::generate;
use std::fs;
use std::process::Abort;

/// The path of a file in a folder.
fn path_in(rt: &(impl Abort + AllocGlobal), folder: &str, name: &str) -> String {
    format!(in rt.alloc(); "{folder}/{name}").expect(rt, "a path")
}

/// Puts a file of the example into memory, in the folder `db`.
fn put(rt: &(impl Abort + AllocGlobal), stored: &mut MemoryFiles, name: &str, text: &str) {
    let path = path_in(rt, "db", name);
    stored
        .write(path.as_str(), text.as_bytes())
        .expect(rt, "a file");
}

/// Whether a file of the folder `copy` has this text.
fn is_copied(
    rt: &(impl Abort + AllocGlobal),
    stored: &mut MemoryFiles,
    name: &str,
    text: &str,
) -> bool {
    let path = path_in(rt, "copy", name);
    let bytes = stored.read(rt.alloc(), path.as_str()).expect(rt, "a file");
    bytes.as_slice() == text.as_bytes()
}

#[test]
fn a_load_is_saved_as_it_was(rt: HostRuntime) {
    let mut stored = MemoryFiles::new(rt.alloc());
    for (name, text) in FILES {
        put(&rt, &mut stored, name, text);
    }
    let load = read_load(rt.alloc(), &mut stored, "db").expect(&rt, "a load");
    write_load(rt.alloc(), &mut stored, "copy", &load).expect(&rt, "files");
    for (name, text) in FILES {
        assert!(rt; is_copied(&rt, &mut stored, name, text));
    }
}

#[test]
fn generates_many_customers(rt: HostRuntime) {
    let load = generate(rt.alloc(), 1, 1001, 1).expect(&rt, "a load");
    assert!(rt; load.list::<Customer>().len() == 10_010);
}

#[test]
fn a_folder_has_any_letters(rt: HostRuntime) {
    let line = read_words(rt.alloc(), &["check", "ä/ß"]).expect(&rt, "a command line");
    let wanted = Line::Check {
        directory: "ä/ß",
        log: None,
    };
    assert!(rt; line == wanted);
}

#[test]
fn the_system_keeps_files(rt: HostRuntime) {
    let path = "/tmp/hy_hyper_the_system_keeps_files";
    let mut files = SystemFiles::new(&rt);
    for bytes in ["one", "three"] {
        assert!(rt; files.write(path, bytes.as_bytes()).is_ok());
        let read = files.read(rt.alloc(), path).expect(&rt, "a file");
        assert!(rt; read.as_slice() == bytes.as_bytes());
    }
    assert!(rt; fs::remove_file(&rt, path).is_ok());
    assert!(rt; files.read(rt.alloc(), path).is_err());
    assert!(rt; files.write("/tmp/no such folder/file", b"one").is_err());
}
