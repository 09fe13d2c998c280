//! Records of made scripts, as the same rules written in another language make them.

use crate::calls::word_number;
use hg_script::Script;
use hg_seed::make_script;
use std::alloc::Global;
use std::test::Fail;

// A seed and the index of a record; and its place, its session and its statement. The last one of seed 0 has no record after it.
const MADE: &str = "\
0 0 = 4 1 Gc(Group)
0 1 = 5 2 Begin(All)
0 4 = 8 5 Begin(Declared(4))
0 6 = 10 7 Put(Rid { table: TableId(1), key: 210 }, Row { storage: Two([382, 645]) })
0 8 = 12 1 Scan { table: TableId(1), low: 18, high: 33 }
0 9 = 13 2 Commit
0 15999 = 16003 8 Get(Rid { table: TableId(2), key: 84 })
0 16000 = none
18446744073709551615 10 = 14 3 Rollback
18446744073709551615 11 = 15 4 Put(Rid { table: TableId(2), key: 4 }, Row { storage: One([178]) })
4294967296 1 = 5 2 Del(Rid { table: TableId(0), key: 125 })
4294967296 11 = 15 4 Gc(Table)
";

// Adds what a record is. Where memory runs out, the text is cut short, and isn't the one that is wanted.
fn tell_record(told: &mut String, script: &Script, index: usize) {
    if index >= script.record_count() {
        let _ = told.push_str("none");
    } else if let Ok(record) = script.record(index) {
        let _ = write!(
            told,
            "{} {} {:?}",
            record.place, record.session, record.statement
        );
    }
}

// Adds a row again, with what its record is found to be.
fn tell_row(alloc: Global, told: &mut String, row: &str) {
    let mut words = row.split(' ');
    let seed = word_number(words.next());
    let index = word_number(words.next());
    let _ = write!(told, "{seed} {index} = ");
    if let Ok(script) = make_script(alloc, seed) {
        tell_record(told, &script, index as usize);
    }
    let _ = told.push('\n');
}

fn made_told(alloc: Global) -> String {
    let mut told = String::new(alloc);
    for row in MADE.lines() {
        tell_row(alloc, &mut told, row);
    }
    told
}

#[test]
fn scripts_are_made(rt: HostRuntime) -> Result<(), Fail> {
    assert_eq!(rt; made_told(rt.alloc()).as_str(), MADE);
    Ok(())
}
