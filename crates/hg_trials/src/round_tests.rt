//! Texts of rounds that a gate has made while a session stays, or a helper.

use crate::order::Step;
use crate::order_tests::{READER, written_in_order};
use hg_audit::{Verdict, audit};
use hg_script::read_script;
use std::alloc::Global;
use std::process::Abort;

// The numbers by which a gate knows the collectors.
const GROUP: u32 = 101;

const TABLE: u32 = 102;

const INTERVAL: u32 = 103;

// And the first two helpers of the interval collector.
const HELPER_1: u32 = 201;

const HELPER_2: u32 = 202;

// Whether an audit finds a text sound for its script.
fn is_sound<R: Abort>(rt: &R, alloc: Global, script: &str, text: &[u8]) -> bool {
    let script = read_script(alloc, script.as_bytes()).expect(rt, "a script");
    audit(alloc, &script, text).expect(rt, "a verdict") == Verdict::Sound
}

// Session 1 reads at snapshot 1, and stays while session 2 commits twice more and the interval collector makes its first round.
// After that the group collector makes its first round, and then all others are made, with nothing to take.
const BESIDE: &str =
    "table,t,1\n2,put,t,5,10\n1,begin\n2,put,t,5,20\n2,put,t,5,30\n1,get,t,5\n1,commit\n1,gc,interval\n2,gc,interval\n";

const BESIDE_HOLDS: [(Step, Step); 7] = [
    ((1, 1), (2, 2)),
    ((2, 2), (1, 2)),
    ((INTERVAL, 1), (2, 4)),
    ((1, 2), (INTERVAL, 2)),
    ((GROUP, 1), (1, 4)),
    ((TABLE, 1), (GROUP, 2)),
    ((INTERVAL, 2), (GROUP, 2)),
];

const BESIDE_TEXT: &[u8] = b"1,3,begun,1
1,6,row,10
1,7,ended
1,8,beside
2,2,at,0,stored,committed,1
2,4,at,1,stored,committed,2
2,5,at,2,stored,committed,3
2,9,beside
0,1,swept,group,3,3,1
0,2,swept,group,3,3,0
0,1,swept,table,3,3,0
0,2,swept,table,3,3,0
0,1,swept,interval,3,3,1
0,1,held,1,1,unmoved
0,2,swept,interval,3,3,0
total,made,3
total,undone,0
total,group,1
total,table,0
total,interval,1
total,left,1
";

#[test]
fn a_round_beside_a_reader(rt: HostRuntime) {
    let words = "run --rounds 2";
    let sink = written_in_order(&rt, rt.alloc(), words, BESIDE, &BESIDE_HOLDS);
    assert_eq!(rt; sink.bytes(), BESIDE_TEXT);
}

// Session 1 declares the second table at the first snapshot, and stays while session 2 commits six times to the first table and the
// table collector makes its first round. Six commits are long where the words say that six are, and not where they say seven. A round
// moves a long snapshot to its own table, and takes what it need not see. Session 1 goes on once the table collector comes to its second
// round, which is made after session 1 has ended, and before those of the other collectors.
const LONG: &str =
    "table,t,1\ntable,u,1\n1,begin,u\n1,get,u,1\n1,commit\n1,gc,table\n2,put,t,1,10\n2,put,t,1,20\n2,put,t,1,30\n2,put,t,1,40\n2,put,t,1,50\n2,put,t,1,60\n2,gc,table\n";

const LONG_HOLDS: [(Step, Step); 6] = [
    ((2, 1), (1, 2)),
    ((TABLE, 1), (2, 7)),
    ((1, 2), (TABLE, 2)),
    ((TABLE, 2), (1, 4)),
    ((GROUP, 1), (TABLE, 3)),
    ((INTERVAL, 1), (TABLE, 3)),
];

// The same with a reader, which reads between the first two rounds of the table collector.
const LONG_DUMP_HOLDS: [(Step, Step); 8] = [
    ((2, 1), (1, 2)),
    ((TABLE, 1), (2, 7)),
    ((1, 2), (TABLE, 2)),
    ((READER, 1), (TABLE, 2)),
    ((TABLE, 2), (1, 4)),
    ((TABLE, 2), (READER, 2)),
    ((GROUP, 1), (TABLE, 3)),
    ((INTERVAL, 1), (TABLE, 3)),
];

const MOVED_TEXT: &[u8] = b"1,3,begun,0
1,4,none
1,5,ended
1,6,beside
2,7,at,0,stored,committed,1
2,8,at,1,stored,committed,2
2,9,at,2,stored,committed,3
2,10,at,3,stored,committed,4
2,11,at,4,stored,committed,5
2,12,at,5,stored,committed,6
2,13,beside
0,1,swept,group,6,6,0
0,2,swept,group,6,6,0
0,3,swept,group,6,6,0
0,1,swept,table,6,6,5
0,1,held,1,0,moved
0,2,swept,table,6,6,0
0,3,swept,table,6,6,0
0,1,swept,interval,6,6,0
0,2,swept,interval,6,6,0
0,3,swept,interval,6,6,0
total,made,6
total,undone,0
total,group,0
total,table,5
total,interval,0
total,left,1
";

const UNMOVED_TEXT: &[u8] = b"1,3,begun,0
1,4,none
1,5,ended
1,6,beside
2,7,at,0,stored,committed,1
2,8,at,1,stored,committed,2
2,9,at,2,stored,committed,3
2,10,at,3,stored,committed,4
2,11,at,4,stored,committed,5
2,12,at,5,stored,committed,6
2,13,beside
0,1,swept,group,6,6,0
0,2,swept,group,6,6,0
0,3,swept,group,6,6,0
0,1,swept,table,6,6,0
0,1,held,1,0,unmoved
0,2,swept,table,6,6,5
0,3,swept,table,6,6,0
0,1,swept,interval,6,6,0
0,2,swept,interval,6,6,0
0,3,swept,interval,6,6,0
total,made,6
total,undone,0
total,group,0
total,table,5
total,interval,0
total,left,1
";

const LONG_DUMPS: &[u8] = b"snapshot,6
table,t,1
table,u,1
1,put,t,1,60
snapshot,6
table,t,1
table,u,1
1,put,t,1,60
";

#[test]
fn six_commits_are_long_where_six_are(rt: HostRuntime) {
    let run = written_in_order(
        &rt,
        rt.alloc(),
        "run --long 6 --rounds 3",
        LONG,
        &LONG_HOLDS,
    );
    assert_eq!(rt; run.bytes(), MOVED_TEXT);
    let words = "dump --long 6 --rounds 3";
    let dump = written_in_order(&rt, rt.alloc(), words, LONG, &LONG_DUMP_HOLDS);
    assert_eq!(rt; dump.bytes().strip_prefix(MOVED_TEXT), Some(LONG_DUMPS));
}

#[test]
fn six_commits_are_not_long_where_seven_are(rt: HostRuntime) {
    let run = written_in_order(
        &rt,
        rt.alloc(),
        "run --long 7 --rounds 3",
        LONG,
        &LONG_HOLDS,
    );
    assert_eq!(rt; run.bytes(), UNMOVED_TEXT);
    let words = "dump --long 7 --rounds 3";
    let dump = written_in_order(&rt, rt.alloc(), words, LONG, &LONG_DUMP_HOLDS);
    assert_eq!(rt; dump.bytes().strip_prefix(UNMOVED_TEXT), Some(LONG_DUMPS));
}

// Session 1 fetches once at snapshot 2. It is held before its second fetch until session 2 has committed twice more and each collector
// has made its first round, one after the other. The second rounds are made after the cursor is closed.
const FETCHED: &str =
    "table,t,1\n2,put,t,1,10\n2,put,t,2,20\n1,open,t,0,9\n1,fetch,1\n2,put,t,2,21\n2,put,t,2,22\n1,fetch,1\n1,close\n1,gc,interval\n2,gc,interval\n";

const FETCHED_HOLDS: [(Step, Step); 9] = [
    ((1, 1), (2, 3)),
    ((2, 3), (1, 3)),
    ((GROUP, 1), (2, 5)),
    ((TABLE, 1), (GROUP, 2)),
    ((INTERVAL, 1), (TABLE, 2)),
    ((1, 3), (INTERVAL, 2)),
    ((GROUP, 2), (1, 5)),
    ((TABLE, 2), (GROUP, 3)),
    ((INTERVAL, 2), (GROUP, 3)),
];

const FETCHED_TEXT: &[u8] = b"1,4,begun,2
1,5,rows,1
1,5,row,1,10
1,8,rows,1
1,8,row,2,20
1,9,ended
1,10,beside
2,2,at,0,stored,committed,1
2,3,at,1,stored,committed,2
2,6,at,2,stored,committed,3
2,7,at,3,stored,committed,4
2,11,beside
0,1,swept,group,4,4,0
0,1,held,1,2,unmoved
0,2,swept,group,4,4,1
0,3,swept,group,4,4,0
0,1,swept,table,4,4,0
0,1,held,1,2,moved
0,2,swept,table,4,4,0
0,3,swept,table,4,4,0
0,1,swept,interval,4,4,1
0,1,held,1,2,moved
0,2,swept,interval,4,4,0
0,3,swept,interval,4,4,0
total,made,4
total,undone,0
total,group,1
total,table,0
total,interval,1
total,left,2
";

#[test]
fn rounds_are_made_between_two_fetches(rt: HostRuntime) {
    let words = "run --long 1 --rounds 3";
    let sink = written_in_order(&rt, rt.alloc(), words, FETCHED, &FETCHED_HOLDS);
    assert_eq!(rt; sink.bytes(), FETCHED_TEXT);
    assert!(rt; is_sound(&rt, rt.alloc(), FETCHED, FETCHED_TEXT));
}

// Each of two keys is stored twice.
const TWICE: &str =
    "table,t,1\n1,put,t,5,10\n1,put,t,6,20\n1,put,t,5,30\n1,put,t,6,40\n1,gc,interval\n";

// When session 1 has stored all, the interval collector gathers. Its two helpers are each held before a first bucket until the other
// has come to its own: one thread would wait for itself. Meanwhile the group collector makes its first round and takes all that there is
// to take. The second helper waits until the first one has gone on to a second bucket.
const HELPERS_HOLDS: [(Step, Step); 9] = [
    ((INTERVAL, 1), (1, 5)),
    ((HELPER_1, 1), (HELPER_2, 1)),
    ((HELPER_2, 1), (HELPER_1, 1)),
    ((GROUP, 1), (HELPER_1, 1)),
    ((GROUP, 1), (HELPER_2, 1)),
    ((HELPER_1, 1), (GROUP, 2)),
    ((HELPER_2, 1), (GROUP, 2)),
    ((HELPER_2, 1), (HELPER_1, 2)),
    ((TABLE, 1), (GROUP, 2)),
];

const HELPERS_TEXT: &[u8] = b"1,2,at,0,stored,committed,1
1,3,at,1,stored,committed,2
1,4,at,2,stored,committed,3
1,5,at,3,stored,committed,4
1,6,beside
0,1,swept,group,4,4,2
0,2,swept,group,4,4,0
0,1,swept,table,4,4,0
0,2,swept,table,4,4,0
0,1,swept,interval,4,4,0
0,2,swept,interval,4,4,0
total,made,4
total,undone,0
total,group,2
total,table,0
total,interval,0
total,left,2
";

#[test]
fn two_helpers_are_held(rt: HostRuntime) {
    let words = "run --buckets 3 --rounds 2 --sweepers 2";
    let sink = written_in_order(&rt, rt.alloc(), words, TWICE, &HELPERS_HOLDS);
    assert_eq!(rt; sink.bytes(), HELPERS_TEXT);
}
