//! The text that a run prints, written from its replies and totals.
//!
//! A text is a list of CSV records: those of each reply in turn, and then the six totals:
//!
//!     1,2,begun,0           session 1, record 2 of the script: `begin`, at snapshot 0
//!     1,3,stored
//!     1,4,rows,2            a scan, and its rows in further records
//!     1,4,row,5,7
//!     1,4,row,6,8
//!     1,5,committed,1
//!     total,made,2
//!     ..
//!     total,left,2
//!
//! `reply_text` and `totals_text` append the records of a reply and of the totals. `text_of` is the text of all that was printed. A
//! `Transcript` keeps lines as their text while they come, and clauses see the lines. Its one rule is that the bytes are a function of
//! what was printed: each is `text_of` of it. `Piece` is one record of a text, for `hg_report`, which reads texts back.
//!
//! Most replies are one record of few bytes (`usual.rt`). Such a record is written on the stack, from its last byte to the first, and
//! added at once. All others are written field by field.
//!
//! A text value of a row is written as a CSV writer writes it: in quotes if it has a comma, a quote or the end of a line, with each
//! quote inside doubled. So one record may take several lines.
#![tactic(auto)]

mod answer;
mod bytes;
mod line;
mod notes;
mod number_fields;
mod piece;
mod record;
mod row_start;
mod text;
mod told;
mod transcript;
mod usual;
mod values;

pub use notes::{add_line, add_note, add_note_with};
pub use piece::Piece;
pub use text::{reply_text, text_of, totals_text};
pub use transcript::Transcript;
