//! Texts that depend on the schedule, in the one that a gate keeps: it holds workers until others have come as far as they have to.
//! Those of rounds are in `round_tests`.

use crate::order::{Order, Step};
use hg_base::{Gate, NoMemory};
use hg_memory::{MemorySink, MemorySource};
use hg_run::{Status, serve};
use std::alloc::{AllocError, Global};
use std::process::Abort;
use std::sync::Wait;
use std::thread::Threads;

// The number by which a gate knows the reader of a dump.
pub(crate) const READER: u32 = 104;

// Words, as they are between spaces.
fn split(alloc: Global, words: &str) -> Result<Vec<String>, AllocError> {
    let mut all = Vec::new(alloc);
    for word in words.split_whitespace() {
        all.push(String::from_str(alloc, word)?)?;
    }
    Ok(all)
}

fn source_of(alloc: Global, script: &str) -> Result<MemorySource, AllocError> {
    let bytes = Vec::from_slice(alloc, script.as_bytes())?;
    Ok(MemorySource::new(bytes, 4096, Vec::new(alloc)))
}

fn room(alloc: Global) -> Result<MemorySink, NoMemory> {
    let mut sink = MemorySink::new(alloc, 4096, Vec::new(alloc));
    sink.reserve(65_536)?;
    Ok(sink)
}

// A sink that took the text of a script.
fn written<R: Threads + Wait + Sync + Abort, G: Gate + Sync>(
    rt: &R,
    alloc: Global,
    words: &str,
    script: &str,
    gate: &G,
) -> MemorySink {
    let words = split(alloc, words).expect(rt, "words");
    let mut source = source_of(alloc, script).expect(rt, "a source");
    let mut sink = room(alloc).expect(rt, "a sink");
    let status = serve(rt, alloc, &words, &mut source, &mut sink, gate);
    assert_eq!(rt; status, Status::Done);
    sink
}

// The same where workers are held, each of which has to see what it waits for.
pub(crate) fn written_in_order<R: Threads + Wait + Sync + Abort>(
    rt: &R,
    alloc: Global,
    words: &str,
    script: &str,
    holds: &[(Step, Step)],
) -> MemorySink {
    let order = Order::new(alloc, holds).expect(rt, "an order");
    let sink = written(rt, alloc, words, script, &order);
    assert!(rt; order.was_kept());
    sink
}

// Session 1 is in a transaction while session 2 commits twice, and commits after it.
const MEETING: &str =
    "table,t,1\n1,begin\n2,put,t,5,10\n2,put,t,6,20\n1,put,t,1,30\n2,get,t,5\n1,commit\n2,gc,group\n";

// Session 1 is held before its second statement until session 2 comes to its third, which is held until the first is there: so
// both are held at once, unless one finds the other there already.
const MEETING_HOLDS: [(Step, Step); 3] = [((1, 2), (2, 3)), ((2, 3), (1, 2)), ((1, 3), (2, 4))];

// After the snapshot of session 1, which may be any.
const MEETING_LINES: &[u8] =
    b"1,5,stored\n1,7,committed,3\n2,3,at,0,stored,committed,1\n2,4,at,1,stored,committed,2\n2,6,at,2,row,10\n2,8,beside\ntotal,made,3\ntotal,undone,0\ntotal,group,0\ntotal,table,0\ntotal,interval,0\ntotal,left,3\n";

// Whether a text is what is printed then: the snapshot is one digit.
fn is_meeting(text: &[u8]) -> bool {
    match text.strip_prefix(b"1,2,begun,") {
        Some([_, b'\n', rest @ ..]) => rest == MEETING_LINES,
        _ => false,
    }
}

#[test]
fn two_workers_are_held(rt: HostRuntime) {
    let sink = written_in_order(&rt, rt.alloc(), "run --rounds 0", MEETING, &MEETING_HOLDS);
    assert!(rt; is_meeting(sink.bytes()));
}

// The reader waits until session 1 comes to its second put, which waits until the reader has read once. After both puts the group
// collector makes its first round, which finds no snapshot in use, and then all other rounds are made, with nothing to take.
const TWO_PUTS: &str = "table,t,1\n1,put,t,5,7\n1,put,t,5,8\n1,gc,group\n";

const BETWEEN: [(Step, Step); 5] = [
    ((READER, 1), (1, 2)),
    ((1, 2), (READER, 2)),
    ((101, 1), (1, 3)),
    ((102, 1), (101, 2)),
    ((103, 1), (101, 2)),
];

const TWO_PUTS_DUMPED: &[u8] = b"1,2,at,0,stored,committed,1
1,3,at,1,stored,committed,2
1,4,beside
0,1,swept,group,2,2,1
0,2,swept,group,2,2,0
0,1,swept,table,2,2,0
0,2,swept,table,2,2,0
0,1,swept,interval,2,2,0
0,2,swept,interval,2,2,0
total,made,2
total,undone,0
total,group,1
total,table,0
total,interval,0
total,left,1
snapshot,1
table,t,1
1,put,t,5,7
snapshot,2
table,t,1
1,put,t,5,8
";

#[test]
fn a_dump_between_two_puts(rt: HostRuntime) {
    let words = "dump --rounds 2";
    let sink = written_in_order(&rt, rt.alloc(), words, TWO_PUTS, &BETWEEN);
    assert_eq!(rt; sink.bytes(), TWO_PUTS_DUMPED);
}

// Session 2 begins after the first commit of session 1. Its first put of key 5 comes while the second transaction of session 1 has written
// that key, and its second one after session 1 has committed twice more, and before it does so again. Its put of key 6 is stored, since
// session 1 puts that key only after the rollback.
const CONFLICTS: &str =
    "table,t,1\n1,put,t,5,10\n1,begin\n1,put,t,5,11\n1,commit\n1,put,t,5,12\n2,begin\n2,put,t,6,20\n2,put,t,5,21\n2,put,t,5,22\n2,rollback\n2,gc,group\n1,put,t,5,13\n1,put,t,6,14\n";

const CONFLICTS_HOLDS: [(Step, Step); 6] = [
    ((2, 1), (1, 2)),
    ((2, 3), (1, 4)),
    ((1, 4), (2, 4)),
    ((2, 4), (1, 6)),
    ((1, 6), (2, 5)),
    ((1, 7), (2, 6)),
];

const CONFLICTS_TEXT: &[u8] = b"1,2,at,0,stored,committed,1
1,3,begun,1
1,4,stored
1,5,committed,2
1,6,at,2,stored,committed,3
1,13,at,3,stored,committed,4
1,14,at,4,stored,committed,5
2,7,begun,1
2,8,stored
2,9,refused,open,1,2
2,10,refused,newer,3
2,11,undone
2,12,beside
total,made,6
total,undone,1
total,group,0
total,table,3
total,interval,0
total,left,2
";

#[test]
fn each_refusal_names_what_is_there(rt: HostRuntime) {
    let words = "run --rounds 0";
    let sink = written_in_order(&rt, rt.alloc(), words, CONFLICTS, &CONFLICTS_HOLDS);
    assert_eq!(rt; sink.bytes(), CONFLICTS_TEXT);
}
