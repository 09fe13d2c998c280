//! A journal over a file in memory that stops after so many calls, and then the same file opened again.

ghost use Rattle.std.specs.Prelude.{◌≡◌};

use hg_journal::{FileError, Journal, MemoryFile, Recorded, open_file};
use std::alloc::Global;
use std::fs;
use std::test::Fail;

// A row for each count of calls that the file does: how adding the records `b` and `c` to the record `a` ends, and then what was written,
// what of it was on the disk, and what opening either again leaves. `/` is a line feed. Opening takes two calls, and adding five.
const TOLD: &str = "\
0 stopped a// a// a// a//
1 stopped a// a// a// a//
2 Err(Failed) a/// a// a// a//
3 Err(Failed) a///c/ a// a// a//
4 Err(Failed) a///c// a// a// a//
5 Err(Failed) a///c// a///c// a// a//
6 Err(Failed) a/b/c// a///c// a/b/c// a//
7 Ok(()) a/b/c// a/b/c// a/b/c// a/b/c//
";

// Files that are opened, and what they then contain: what a crash left of the first byte, an empty one, a closed gate, one with more
// behind its gate, and two that are no journal.
const OPENED: &str = "\
x = /
 = /
/ = /
a//b = a//
\"/\"/ = refused
ab = refused
";

const PATH: &str = "hg_data_trials_journal";

const KEPT: &str = "\
found Ok(()) true
found b// Ok(()) true
found b/b// Ok(()) true
";

fn tell_bytes(told: &mut String, bytes: &[u8]) {
    let _ = told.push(' ');
    for byte in bytes {
        let _ = told.push(if *byte == b'\n' {
            '/'
        } else {
            char::from(*byte)
        });
    }
}

// Adds what opening a file leaves.
fn tell_opened(alloc: Global, told: &mut String, bytes: &[u8]) {
    let Ok(file) = MemoryFile::new(alloc, bytes, 9) else {
        return;
    };
    match Journal::open(Recorded::new(file, bytes), bytes) {
        Ok(journal) => tell_bytes(told, journal.device.file().seen()),
        Err(_) => {
            let _ = told.push_str(" refused");
        }
    }
}

fn tell_left(alloc: Global, told: &mut String, file: &MemoryFile) {
    tell_bytes(told, file.seen());
    tell_bytes(told, file.disk());
    tell_opened(alloc, told, file.seen());
    tell_opened(alloc, told, file.disk());
    let _ = told.push('\n');
}

// Adds the row of a count of calls.
fn tell_stop(alloc: Global, told: &mut String, calls: usize) {
    let Ok(file) = MemoryFile::new(alloc, b"a\n\n", calls) else {
        return;
    };
    match Journal::open(Recorded::new(file, b"a\n\n"), b"a\n\n") {
        Ok(mut journal) => {
            let answer = journal.append(b"b\nc\n");
            let _ = write!(told, "{calls} {answer:?}");
            tell_left(alloc, told, journal.device.file());
        }
        Err((_, device)) => {
            let _ = write!(told, "{calls} stopped");
            tell_left(alloc, told, device.file());
        }
    }
}

fn stops_told(alloc: Global) -> String {
    let mut told = String::new(alloc);
    for calls in 0..8 {
        tell_stop(alloc, &mut told, calls);
    }
    told
}

// A file of a row, where `/` is a line feed.
fn file_of(alloc: Global, row: &str) -> Vec<u8> {
    let mut bytes = Vec::new(alloc);
    for byte in row.bytes() {
        let _ = bytes.push(if byte == b'/' { b'\n' } else { byte });
    }
    bytes
}

fn opened_told(alloc: Global) -> String {
    let mut told = String::new(alloc);
    for row in OPENED.lines() {
        let file = row.split(" = ").next().unwrap_or("");
        let _ = write!(told, "{file} =");
        tell_opened(alloc, &mut told, &file_of(alloc, file));
        let _ = told.push('\n');
    }
    told
}

// What a file of the system contains, how adding a record to it ends, and whether another open is refused meanwhile.
fn tell_system(rt: &HostRuntime, told: &mut String) {
    let Ok((device, bytes)) = open_file(rt, PATH) else {
        return;
    };
    let _ = told.push_str("found");
    if !bytes.is_empty() {
        tell_bytes(told, &bytes);
    }
    if let Ok(mut journal) = Journal::open(device, &bytes) {
        let answer = journal.append(b"b\n");
        let is_busy = matches!(open_file(rt, PATH), Err(FileError::Busy));
        let _ = write!(told, " {answer:?} {is_busy}\n");
    }
}

#[test]
fn a_group_is_there_whole_or_not_at_all(rt: HostRuntime) -> Result<(), Fail> {
    assert_eq!(rt; stops_told(rt.alloc()).as_str(), TOLD);
    Ok(())
}

#[test]
fn the_end_is_repaired(rt: HostRuntime) -> Result<(), Fail> {
    assert_eq!(rt; opened_told(rt.alloc()).as_str(), OPENED);
    Ok(())
}

#[test]
fn a_file_of_the_system_keeps_what_is_added(rt: HostRuntime) -> Result<(), Fail> {
    let _ = fs::remove_file(&rt, PATH);
    let mut told = String::new(rt.alloc());
    for _ in 0..3 {
        tell_system(&rt, &mut told);
    }
    assert_eq!(rt; told.as_str(), KEPT);
    Ok(())
}
