//! Words, as a person types them, and the options that they are. Words that are refused are rows (tests/words.txt).

use hg_words::read_words;
use std::alloc::Global;
use std::test::Fail;

const TAKEN: &str = "\
replay = Ok(Options { command: Replay, buckets: 64, long: 4, rounds: 8, sweepers: 1 })
replay --buckets 1 = Ok(Options { command: Replay, buckets: 1, long: 4, rounds: 8, sweepers: 1 })
run --rounds=2 --long 4 = Ok(Options { command: Run, buckets: 64, long: 4, rounds: 2, sweepers: 1 })
--long 1048576 run = Ok(Options { command: Run, buckets: 64, long: 1048576, rounds: 8, sweepers: 1 })
run --rounds 0 = Ok(Options { command: Run, buckets: 64, long: 4, rounds: 0, sweepers: 1 })
run --rounds 1000 --buckets 1024 = Ok(Options { command: Run, buckets: 1024, long: 4, rounds: 1000, sweepers: 1 })
load 7 = Ok(Options { command: Load(7), buckets: 64, long: 4, rounds: 8, sweepers: 1 })
load 18446744073709551615 --rounds 3 = Ok(Options { command: Load(18446744073709551615), buckets: 64, long: 4, rounds: 3, sweepers: 1 })
audit = Ok(Options { command: Audit, buckets: 64, long: 4, rounds: 8, sweepers: 1 })
audit --rounds 3 = Ok(Options { command: Audit, buckets: 64, long: 4, rounds: 3, sweepers: 1 })
run --sweepers 16 = Ok(Options { command: Run, buckets: 64, long: 4, rounds: 8, sweepers: 16 })
replay --sweepers 2 = Ok(Options { command: Replay, buckets: 64, long: 4, rounds: 8, sweepers: 2 })
";

// Words, as they are between spaces. Where memory runs out, they aren't the ones that are wanted, and the test fails.
fn split(alloc: Global, words: &str) -> Vec<String> {
    let mut all = Vec::new(alloc);
    for word in words.split_whitespace() {
        if let Ok(word) = String::from_str(alloc, word) {
            let _ = all.push(word);
        }
    }
    all
}

// Adds what words are read as.
fn tell_words(alloc: Global, told: &mut String, words: &str) {
    let all = split(alloc, words);
    let _ = write!(told, "{words} = {:?}\n", read_words(alloc, &all));
}

fn words_told(alloc: Global) -> String {
    let mut told = String::new(alloc);
    for row in TAKEN.lines() {
        tell_words(alloc, &mut told, row.split(" = ").next().unwrap_or(""));
    }
    told
}

#[test]
fn words_are_taken(rt: HostRuntime) -> Result<(), Fail> {
    assert_eq!(rt; words_told(rt.alloc()).as_str(), TAKEN);
    Ok(())
}
