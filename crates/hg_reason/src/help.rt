//! What is asked for by `--help` and `--version`.

// The name and the version.
const VERSION: &str = "hybridgc 1.0.0\n";

// The modes and the options. The man page hybridgc.1 has these sentences too, and the launcher reads them here.
const HELP: &str = "\
hybridgc 1.0.0: in-memory tables, and transactions on them at snapshots

hybridgc MODE [OPTIONS] < SCRIPT > REPLIES

Modes:
  replay         runs all records on one thread, in script order
  run            runs each session in a thread of its own, and the three collectors next to them
  load SEED      replays the script that is made from the number SEED, and prints its totals alone; reads nothing
  audit          checks an output against its script, both on standard input, with a line ==== between them; runs nothing
  dump           a run during which all tables are exported once, and again at its end
  live           a conversation: answers each record before it waits for the next

Options, each at most once and anywhere among the words, with their ranges and (in brackets) their defaults:
  --buckets N    over how many buckets the records of a table are spread, 1 to 1024 (64)
  --long N       a snapshot on declared tables is long in use if it is so many commit numbers below the newest, 1 to 1048576 (4)
  --rounds N     how many rounds each collector of a run or a dump makes, 0 to 1000 (8); live --rounds 0 makes none that nobody asked for
  --sweepers N   how many threads share each round of the interval collector of a run, 1 to 16 (1)

Examples:
  printf 'table,t,1\\n1,put,t,5,7\\n1,get,t,5\\n' | hybridgc replay
  hybridgc live

The formats of scripts and replies: docs/FORMATS.md. Help ends with status 2, since no script was run.
";

/// The page that the words ask for, if they do.
pub(crate) fn page_of(words: &[String]) -> Option<&'static str> {
    for word in words {
        match word.as_str() {
            "--help" | "-h" => return Some(HELP),
            "--version" | "-V" => return Some(VERSION),
            _ => {}
        }
    }
    None
}
