//! From the bytes of a script to the bytes of its answers.
//!
//! `serve` goes through these steps once. Each uses the result of the one above it, or ends the call with a status:
//!
//!     step            needs              gives              or ends with
//!     read_words      the words          options            Usage
//!     read_all        the source         all its bytes      ReadFault, TooLong
//!     read_script     the bytes          a script           BadScript
//!     replay, run_all the script         one text
//!     dump_all        the script         the text of a run, with two dumps
//!     write_all       the text           Done               WriteFault
//!
//! `dump` is a `run` during which one more session, the reader, reads all tables. `load` has a seed instead of a source: the steps
//! between the first and the last are `make_script`, a replay, and the text of its totals only. For `audit` the bytes are split at a
//! line `====` (`part`) into a script, which is read as above, and a text, which is checked against it; the text that is written is
//! the verdict. Running out of memory may end every step but the last. The text is complete before its first byte is written. So a
//! refused script has run nothing, and what a sink took is a prefix of the text of a whole run.
//!
//! `Comes` says when each status comes. Its line for `Done` is the headline: the sink took the text of a printed value that is sound,
//! in the mode that the words ask for, for the script that all the bytes of the source mean, and that fits this script. No other value
//! that fits has this text (`text_determines_what_was_printed`). For `load` the text is that of the totals of such a value, for the
//! script of the seed. For `audit` it says whether the text after the script is sound for it, and if not, what fails first. For `dump` the
//! value is sound next to a reader of all tables at a snapshot, and two dumps of the history that it prints follow: at that snapshot, and
//! at the end. Of each such value one list of steps of `hg_core` printed all replies, all reports and the totals, over the buckets and with
//! the `--long` of the words (`PrintsOneRun`).
//!
//! Reading the source, writing to the sink and the statuses are in `hg_streams`. Bytes that are refused go back to the source
//! (`give_back`).
//!
//! The drivers take the sessions and the collectors of an engine through a script:
//!
//!     open_for        an engine for the tables and the sessions of a script, its sessions and its collectors
//!     replay_on       record by record on one thread: each session in its turn, and a round for each `gc`
//!     run_on          each session and each collector in a thread of its own
//!     dump_on         as run_on, and concurrently one more session, the reader, exports all tables
//!     close           all passes and all sessions go to one pass, which settles and counts
//!
//! A driver leaves lines, and says of them what the logs of the sessions say (`HasDrivenOne`, `HasDrivenAll`): the lines are the replies
//! that the logs give to the records, and the rounds that they report are those that were made. Running out of memory ends a driver
//! early, and leaves no transaction and no cursor open.
#![tactic(auto)]

mod audit;
mod beside;
mod conversation;
mod count;
mod crew;
mod desk;
mod dump;
mod dump_text;
mod end;
mod ended;
mod engine;
mod free;
mod gc;
mod laws;
mod live;
mod load;
mod moment;
mod reader;
mod replay;
mod replay_text;
mod reply;
mod run;
mod run_text;
mod saying;
mod statement;
mod steps;
mod talk;
mod turn;
mod upkeep;
mod work;

pub use conversation::converse;
pub use crew::Crew;
pub use dump::dump_on;
pub use end::{close, close_read};
pub use engine::{open_beside, open_for};
pub use hg_collectors::{Collectors, IntervalWorker, NoGate, Plan};
pub use hg_exact::{rows_have_their_columns, what_is_sound_fits};
pub use hg_streams::{ReaderSource, Status, StdinSource, StdoutSink};
pub use laws::{
    an_idle_collector_holds_too_many, loads_print_the_same, replays_print_the_same,
    text_determines_what_was_printed, what_is_sound_with_a_reader_fits,
};
pub use reader::Reader;
pub use replay::replay_on;
pub use run::run_on;
pub use steps::serve;
