//! The words of the command line, without the program's name.
//!
//!     replay                                     all records on one thread, in script order
//!     run                                        each session in a thread of its own, and the collectors in three more
//!     load SEED                                  a script that is made from the seed, replayed
//!     audit                                      checks a printed text against its script; runs nothing
//!     dump                                       a run during which all tables are exported once, and again at its end
//!     live                                       a conversation: each record is answered before more is read
//!
//!     --buckets N   how many buckets a table's records are spread over     1 to 1,024        default 64
//!     --long N      a declared snapshot so far below the mark is long      1 to 1,048,576    default 4
//!     --rounds N    how many rounds each collector of a run makes;         0 to 1,000        default 8
//!                   0 in a conversation: none that nobody asked for
//!     --sweepers N  how many helpers the interval collector of `run` has   1 to 16           default 1
//!
//! An option may be anywhere among the words, and every mode accepts each. `clap` reads the words by one command without subcommands
//! (`command_line`). Words are refused exactly if `clap` finds a fault in them, or if mode and seed do not go together (`options_of`).
//! `live` is read as `replay` is, by a call of its own (`read_live_words`), since a conversation is another call of the server.
//! So a request for help is refused like an unknown word, and a number may be written as `clap` reads it: `+7` and `007` for 7.
#![tactic(auto)]

mod line;
mod live;
mod options;

pub use line::read_words;
pub use live::{asks_to_talk, read_live_words};
pub use options::{Command, Options, WordsRefusal};
