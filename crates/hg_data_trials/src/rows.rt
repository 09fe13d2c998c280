//! Rows of calls, and what they answer.

use crate::both::{agreed, deletion_told, places_told};
use crate::nodes::nodes_told;
use std::alloc::Global;
use std::test::Fail;

// How answers are shortened, in turn: an image is its number, and a stamp is its number.
const SHORT: &str = "\
Image { row: Some(Row { storage: One([=
]) }) }=
Numbered { number: =
, by: Writer { session: 1, transaction: 1 } }=
";

// The same of what readers see: a number or a dot.
const SEEN: &str = "\
Cut { image: Some((1, 1)), gone: 0 }=1 is cut
None=.
Some(=
)=
";

fn shortened(alloc: Global, told: String, pairs: &str) -> String {
    let mut short = told;
    for pair in pairs.lines() {
        if let Some((long, part)) = pair.split_once('=') {
            if let Ok(next) = short.replace(alloc, long, part) {
                short = next;
            }
        }
    }
    short
}

// Four versions are cut. Five are swept: at two horizons with readers between, with both snapshots at one number, and over the horizon.
const ROWS: &str = "\
put see:0 put see:0 put see:0 put cut:5 see:9 see:4 = Some(1); None; Some(3); None; Some(5); None; Some(7); Cut { image: Some((5, 5)), gone: 2 }; Some(7); None;
put see:0 put see:0 put see:0 put cut:0 see:9 see:4 = Some(1); None; Some(3); None; Some(5); None; Some(7); Cut { image: None, gone: 0 }; Some(7); Some(3);
put see:0 put see:0 put see:0 put cut:9 see:9 see:4 = Some(1); None; Some(3); None; Some(5); None; Some(7); Cut { image: Some((7, 7)), gone: 3 }; None; None;
put see:0 put see:0 put see:0 put see:0 put sweep:9:1:5 see:9 see:7 see:5 see:3 see:1 = Some(1); None; Some(3); None; Some(5); None; Some(7); None; Some(9); Swept { gone: 2, base_gone: false }; Some(9); Some(5); Some(5); Some(1); Some(1);
put see:0 put see:0 put see:0 put see:0 put sweep:6:1:5 see:9 see:7 see:5 see:3 see:1 = Some(1); None; Some(3); None; Some(5); None; Some(7); None; Some(9); Swept { gone: 1, base_gone: false }; Some(9); Some(7); Some(5); Some(1); Some(1);
put see:0 put see:0 put see:0 put see:0 put sweep:9:7:7 see:9 see:7 see:5 see:3 see:1 = Some(1); None; Some(3); None; Some(5); None; Some(7); None; Some(9); Swept { gone: 3, base_gone: false }; Some(9); Some(7); None; None; None;
put see:0 put see:0 put see:0 put see:0 put sweep:9:8:8 see:9 see:7 see:5 see:3 see:1 = Some(1); None; Some(3); None; Some(5); None; Some(7); None; Some(9); Swept { gone: 3, base_gone: false }; Some(9); Some(7); None; None; None;
put see:0 put see:0 put see:0 put see:0 put sweep:9:9:9 see:9 see:7 see:5 see:3 see:1 = Some(1); None; Some(3); None; Some(5); None; Some(7); None; Some(9); Swept { gone: 4, base_gone: false }; Some(9); None; None; None; None;
put see:0 put see:0 put see:0 put see:0 put sweep:2:9:9 see:9 see:7 see:5 see:3 see:1 = Some(1); None; Some(3); None; Some(5); None; Some(7); None; Some(9); Swept { gone: 0, base_gone: false }; Some(9); Some(7); Some(5); Some(3); Some(1);
";

fn rows_told(alloc: Global, rows: &str) -> String {
    let mut told = String::new(alloc);
    for row in rows.lines() {
        let calls = row.split('=').next().unwrap_or("");
        let _ = write!(told, "{calls}={}\n", agreed(alloc, calls));
    }
    told
}

// Two hundred calls.
const CALLS: &str = "\
see:0 see:1 put see:5 see:1 see:0 put put see:0 see:11 see:8 put undo put sweep:10:5:13 put put
see:3 put put cut:8 cut:14 see:12 put put see:28 put put put see:29 put put put put put see:22 put
put see:36 sweep:34:17:35 see:33 see:22 undo put sweep:27:37:42 see:47 see:23 put put put put put
sweep:34:38:50 see:41 sweep:34:44:50 put put see:41 see:47 sweep:42:46:47 sweep:51:40:52 put put
put see:65 see:60 put put sweep:61:52:60 sweep:68:45:66 put sweep:71:55:71 see:51 put put put
see:75 put see:59 see:58 sweep:76:65:82 see:63 put see:76 sweep:79:60:76 put put sweep:72:88:89
put put see:68 put undo put see:94 put see:89 put see:93 undo put see:100 see:100 put
sweep:94:91:100 sweep:88:84:95 put put see:91 see:85 put see:94 put put put see:99 see:98 see:116
sweep:109:112:112 put undo put put see:110 undo undo see:123 see:123 put put put sweep:113:113:114
see:112 undo put put sweep:129:126:137 put see:131 cut:117 sweep:129:121:123 undo put put put put
sweep:147:130:147 undo undo sweep:146:142:150 see:130 put put put see:131 see:132 put undo
sweep:135:139:150 sweep:137:137:140 see:157 sweep:155:140:149 put see:158 put see:159 see:150 put
see:151 put put see:161 put see:151 put see:169 sweep:158:154:169 see:157 sweep:165:156:161 put
undo see:166 see:183 see:159 see:177 put see:166 put sweep:168:181:187 put see:188 put see:195 put
undo sweep:191:172:173 undo put put see:195
";

// A place and a call there, what it answers, and what readers at 1 to 8 see at the places 3 and 4 after it. A put has the number of
// its row.
const PLACES: &str = "\
3 put
4 put
3 put
4 put
3 cut:1
4 undo
3 put
4 sweep:8:8:8
";

const PLACES_TOLD: &str = " 1; 11111111 ........
 2; 11111111 .2222222
 3; 11333333 .2222222
 4; 11333333 .2244444
 1 is cut; ..333333 .2244444
 4; ..333333 .2244444
 7; ..333377 .2244444
 Swept { gone: 1, base_gone: false }; ..333377 ...44444
";

// How many nodes there are, how many are free, and whether there is a version at the places 0, 1, 2 and 5; and what a cut at place 1
// hands out, and whether that leaves nothing there.
const NODES: &str = "\
3 0 [true, true, true, false]
Cut { image: Some((2, Image { row: None })), gone: 0 } true
3 1 [true, false, true, false]
3 0 [true, false, true, true]
";

#[test]
fn calls_answer_as_rows_say(rt: HostRuntime) -> Result<(), Fail> {
    let alloc = rt.alloc();
    let told = shortened(alloc, rows_told(alloc, ROWS), SHORT);
    assert_eq!(rt; told.as_str(), ROWS);
    Ok(())
}

#[test]
fn a_chain_is_the_model_of_a_place(rt: HostRuntime) -> Result<(), Fail> {
    let told = agreed(rt.alloc(), CALLS);
    assert_eq!(rt; told.split(';').count(), 201, "{told}");
    Ok(())
}

#[test]
fn a_place_leaves_another_alone(rt: HostRuntime) -> Result<(), Fail> {
    let alloc = rt.alloc();
    let told = shortened(alloc, places_told(alloc, PLACES), SHORT);
    let told = shortened(alloc, told, SEEN);
    assert_eq!(rt; told.as_str(), PLACES_TOLD);
    Ok(())
}

#[test]
fn a_freed_node_is_given_again(rt: HostRuntime) -> Result<(), Fail> {
    assert_eq!(rt; nodes_told(rt.alloc()).as_str(), NODES);
    Ok(())
}

#[test]
fn the_newest_deletion_stays(rt: HostRuntime) -> Result<(), Fail> {
    let told = deletion_told(rt.alloc());
    assert_eq!(rt;
        told.as_str(),
        " Swept { gone: 0, base_gone: true }; Some(Image { row: None });"
    );
    Ok(())
}
