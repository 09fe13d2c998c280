//! Reads the text that a run prints.
//!
//!     1,2,begun,0           a record that may come first
//!     1,3,stored
//!     1,4,rows,2            two more records of this line are to come
//!     1,4,row,5,7
//!     1,4,row,06,8          refused: the key is not written so
//!
//! `read_text` reads a whole text. It returns what was printed exactly if the bytes are those that `hg_transcript` writes for it;
//! otherwise it returns the first record with which the bytes stop being a prefix of any text (`IsRefusedAt`).
//!
//! The reader guesses. It splits a record at the commas outside of quotes (`part`), takes what the record would say if it may come next
//! (`guess`), writes that, and compares the bytes. So anything that differs from what would be written, such as a leading zero,
//! needless quotes, a carriage return or a field too many, is refused at its record without a rule of its own. Fields keep their quotes
//! while a record is guessed: words and numbers have none, and only a row's text value is taken out of them (`text_in`).
//!
//! The calls that write a text are exported here too, so that a caller of both needs this crate alone.
#![tactic(auto)]

mod answer;
mod fields;
mod guess;
mod law;
mod progress;
mod reader;
mod refusal;
mod reply;
mod values;

pub use hg_transcript::{Transcript, reply_text, text_of, totals_text};
pub use law::{bytes_determine_values, one_record_is_refused};
pub use reader::read_text;
pub use refusal::TextRefusal;
