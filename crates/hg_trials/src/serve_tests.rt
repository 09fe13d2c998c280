//! Calls of `serve` over a source and a sink that fail, that watch how they are called, and that never fail; and a text with every
//! answer.

use crate::watched::{WatchedSink, WatchedSource};
use hg_base::{
    Answer, Kind, Line, LineList, NoMemory, Printed, Reply, Row, RowList, Sink, Source, Sweep,
    TableId, Told, ToldList, Totals, Writer,
};
use hg_memory::{MemorySink, MemorySource, SteadySink, SteadySource};
use hg_report::text_of;
use hg_run::{NoGate, ReaderSource, Status, StdinSource, StdoutSink, serve};
use hg_script::{Code, read_script};
use hg_steady::serve_steadily;
use std::alloc::{AllocError, Global};
use std::process::Abort;
use std::sync::Wait;
use std::test::Fail;
use std::thread::Threads;

const OWN_WRITE: &[u8] = b"table,t,1\n1,begin\n1,put,t,5,7\n1,get,t,5\n1,commit\n";

// One word and a script, from a source and to a sink that move eight bytes a call. Those calls fail that are listed. The answer is the
// status, and how many bytes the sink took.
fn call<R: Threads + Wait + Sync + Abort>(
    rt: &R,
    alloc: Global,
    word: &str,
    failing_reads: &[u64],
    failing_writes: &[u64],
) -> (Status, usize) {
    let words = one_word(alloc, word).expect(rt, "words");
    let mut source = source_of(alloc, failing_reads).expect(rt, "a source");
    let mut sink = sink_of(alloc, failing_writes).expect(rt, "a sink");
    let status = serve(rt, alloc, &words, &mut source, &mut sink, &NoGate);
    (status, sink.bytes().len())
}

fn one_word(alloc: Global, word: &str) -> Result<Vec<String>, AllocError> {
    Ok(vec![in alloc; String::from_str(alloc, word)?]?)
}

// A sink with room for the text, whose listed calls fail.
fn sink_of(alloc: Global, failing: &[u64]) -> Result<MemorySink, NoMemory> {
    let mut sink = MemorySink::new(alloc, 8, failing.to_vec(alloc)?);
    sink.reserve(256)?;
    Ok(sink)
}

// The script from a source whose listed calls fail.
fn source_of(alloc: Global, failing: &[u64]) -> Result<MemorySource, AllocError> {
    let bytes = Vec::from_slice(alloc, OWN_WRITE)?;
    Ok(MemorySource::new(bytes, 8, failing.to_vec(alloc)?))
}

// The script has 49 bytes, which are read by seven calls and an eighth that finds the end.
#[test]
fn each_read_fails_in_turn(rt: HostRuntime) {
    for failing in 1..10 {
        let want = if failing < 9 {
            (Status::ReadFault, 0)
        } else {
            (Status::Done, 135)
        };
        let found = call(&rt, rt.alloc(), "replay", &[failing], &[]);
        assert_eq!(rt; found, want, "at {failing}");
    }
}

// The text has 135 bytes, which are written by seventeen calls.
#[test]
fn each_write_fails_in_turn(rt: HostRuntime) {
    for failing in 1..19u64 {
        let want = if failing < 18 {
            (Status::WriteFault, 8 * (failing as usize - 1))
        } else {
            (Status::Done, 135)
        };
        let found = call(&rt, rt.alloc(), "replay", &[], &[failing]);
        assert_eq!(rt; found, want, "at {failing}");
    }
}

// A run reads as a replay does.
#[test]
fn a_run_cannot_be_read(rt: HostRuntime) {
    let (status, taken) = call(&rt, rt.alloc(), "run", &[2], &[]);
    assert_eq!(rt;
        (status, taken, status.exit_code()),
        (Status::ReadFault, 0, 4)
    );
}

// A sink whose second call fails has what the first one took.
#[test]
fn a_sink_that_fails_keeps_what_it_took(rt: HostRuntime) {
    let words = one_word(rt.alloc(), "replay").expect(&rt, "words");
    let failing = vec![in rt.alloc(); 2].expect(&rt, "a list");
    let mut source = SteadySource::new(Vec::new(rt.alloc()), 8);
    let mut sink = MemorySink::new(rt.alloc(), 4, failing);
    sink.reserve(256).expect(&rt, "room");
    let status = serve(&rt, rt.alloc(), &words, &mut source, &mut sink, &NoGate);
    assert_eq!(rt; (status, status.exit_code()), (Status::WriteFault, 5));
    assert_eq!(rt; sink.bytes(), b"tota".as_slice());
}

// How a call ends that reads so many bytes `1` and may read so many, and whether each call of its source and its sink was as it has to be.
fn watched_end<R: Threads + Wait + Sync>(
    rt: &R,
    alloc: Global,
    words: &[String],
    length: usize,
    most: usize,
) -> (Status, bool) {
    let mut source = WatchedSource::new(length, most);
    let mut sink = WatchedSink::new();
    let status = serve(rt, alloc, words, &mut source, &mut sink, &NoGate);
    let is_well = source.is_well_asked && sink.is_well_given;
    (
        status,
        is_well && sink.is_done() == (status == Status::Done),
    )
}

fn wanted_end(length: usize) -> Status {
    let (line, code) = (1, Code::Word);
    match length {
        0 => Status::Done,
        1..=16_777_216 => Status::BadScript { line, code },
        _ => Status::TooLong,
    }
}

// How a source is asked, to its end and to the limit, and how a sink is given a text.
#[test]
fn calls_have_their_lengths(rt: HostRuntime) {
    let words = one_word(rt.alloc(), "replay").expect(&rt, "words");
    for length in [0, 5_000_000, 16_777_215, 16_777_216, 16_777_217, 20_000_000] {
        let found = watched_end(&rt, rt.alloc(), &words, length, 16_777_217);
        assert_eq!(rt; found, (wanted_end(length), true), "at {length}");
    }
}

// The same of an audit, whose bytes are the script, for no line parts them.
#[test]
fn an_audit_reads_more(rt: HostRuntime) {
    let words = one_word(rt.alloc(), "audit").expect(&rt, "words");
    for (length, wanted) in [
        (16_777_217, Status::TooLong),
        (1_073_741_824, Status::TooLong),
        (1_073_741_825, Status::LongInput),
    ] {
        let found = watched_end(&rt, rt.alloc(), &words, length, 1_073_741_825);
        assert_eq!(rt; found, (wanted, true), "at {length}");
    }
}

// From a source that never fails to a sink that never fails, with room for the text.
#[test]
fn steady_streams_carry_a_script_and_its_text(rt: HostRuntime) {
    let words = one_word(rt.alloc(), "replay").expect(&rt, "words");
    let bytes = Vec::from_slice(rt.alloc(), OWN_WRITE).expect(&rt, "bytes");
    let mut source = SteadySource::new(bytes, 8);
    let mut sink = SteadySink::new(rt.alloc(), 8);
    sink.reserve(135).expect(&rt, "room");
    let status = serve_steadily(&rt, rt.alloc(), &words, &mut source, &mut sink, &NoGate);
    assert_eq!(rt;
        (status, sink.bytes().len(), sink.past()),
        (Status::Done, 135, 0)
    );
}

// Standard input of a test is empty. Standard output takes a byte.
#[test]
fn standard_streams_are_read_and_written(rt: HostRuntime) -> Result<(), Fail> {
    let mut source = StdinSource::new(rt.stdin());
    assert_eq!(rt; source.read(&mut [0; 8])?, 0);
    let mut sink = StdoutSink::new(rt.stdout());
    assert_eq!(rt; sink.write(b"\n")?, 1);
    Ok(())
}

// Whether a source gets its bytes back from a call.
fn are_given_back<R: Threads + Wait + Sync + Abort>(
    rt: &R,
    alloc: Global,
    word: &str,
    bytes: &[u8],
) -> bool {
    let words = one_word(alloc, word).expect(rt, "words");
    let mut source = ReaderSource::new(bytes);
    let mut sink = sink_of(alloc, &[]).expect(rt, "a sink");
    serve(rt, alloc, &words, &mut source, &mut sink, &NoGate);
    source.kept() == Some(bytes)
}

// A script that breaks a rule and a text that is not sound are given back, and a script that is run is not.
#[test]
fn refused_bytes_are_given_back(rt: HostRuntime) {
    assert!(rt; are_given_back(&rt, rt.alloc(), "replay", b"1,get,t,5\n"));
    assert!(rt; are_given_back(&rt, rt.alloc(), "audit", b"table,t,1\n====\n"));
    assert!(rt; !are_given_back(&rt, rt.alloc(), "replay", OWN_WRITE));
}

fn add(
    lines: &mut LineList,
    at: Option<u64>,
    answer: Answer,
    number: Option<u64>,
) -> Result<(), NoMemory> {
    lines.push(Line {
        session: 1,
        place: 2,
        reply: Reply { at, answer, number },
    })
}

fn row(alloc: Global) -> Result<Row, NoMemory> {
    Row::from_slice(alloc, &[7, -8])
}

fn rows(alloc: Global) -> Result<RowList, NoMemory> {
    let mut rows = RowList::from(Vec::new(alloc));
    rows.push(5, row(alloc)?)?;
    Ok(rows)
}

fn swept(alloc: Global) -> Result<Sweep, NoMemory> {
    let mut held = Vec::new(alloc);
    for moved in [true, false] {
        held.push(Told {
            session: 4,
            number: 9,
            moved,
        })?;
    }
    Ok(Sweep {
        kind: Kind::Interval,
        mark: 12,
        horizon: 11,
        removed: 10,
        held: ToldList::from(held),
    })
}

// Every answer, with one row of two values and two held snapshots.
fn add_answers(alloc: Global, lines: &mut LineList) -> Result<(), NoMemory> {
    let writer = Writer {
        session: 4,
        transaction: 3,
    };
    add(lines, None, Answer::Begun(6), None)?;
    add(lines, Some(6), Answer::Stored, Some(7))?;
    add(lines, Some(6), Answer::Gone, Some(8))?;
    add(lines, None, Answer::Found(row(alloc)?), None)?;
    add(lines, Some(6), Answer::Nothing, None)?;
    add(lines, None, Answer::Rows(rows(alloc)?), None)?;
    add(lines, None, Answer::Committed(7), None)?;
    add(lines, None, Answer::Ended, None)?;
    add(lines, None, Answer::Undone, None)?;
    add(lines, None, Answer::Newer(7), None)?;
    add(lines, None, Answer::OpenBy(writer), None)?;
    add(lines, Some(6), Answer::Undeclared(TableId(0)), None)?;
    add(lines, None, Answer::Swept(swept(alloc)?), None)?;
    add(lines, None, Answer::Beside, None)
}

fn printed(alloc: Global) -> Result<Printed, NoMemory> {
    let mut lines = LineList::new(alloc);
    add_answers(alloc, &mut lines)?;
    let totals = Totals {
        made: 21,
        undone: 1,
        group: 2,
        table: 3,
        interval: 4,
        left: 11,
    };
    Ok(Printed { lines, totals })
}

// What is written for them.
fn printed_text(alloc: Global) -> Result<Vec<u8>, Fail> {
    let script = read_script(alloc, b"table,t,2\n")?;
    Ok(text_of(alloc, &script, &printed(alloc)?)?)
}

const PRINTED: &[u8] = b"1,2,begun,6
1,2,at,6,stored,committed,7
1,2,at,6,gone,committed,8
1,2,row,7,-8
1,2,at,6,none
1,2,rows,1
1,2,row,5,7,-8
1,2,committed,7
1,2,ended
1,2,undone
1,2,refused,newer,7
1,2,refused,open,4,3
1,2,at,6,refused,undeclared,t
1,2,swept,interval,12,11,10
1,2,held,4,9,moved
1,2,held,4,9,unmoved
1,2,beside
total,made,21
total,undone,1
total,group,2
total,table,3
total,interval,4
total,left,11
";

#[test]
fn every_answer_has_its_text(rt: HostRuntime) -> Result<(), Fail> {
    assert_eq!(rt; printed_text(rt.alloc())?.as_slice(), PRINTED);
    Ok(())
}
