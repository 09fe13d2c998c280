//! The records of a script: its statements in little memory, and the bytes of the fields of each.
//!
//! # Statements
//!
//! They are kept in the order in which they come.
//!
//!     script         entries                        numbers
//!     1,begin        0: session 1, begin, next 2
//!     2,put,t,5,7    1: session 2, put 0..1         7
//!     1,put,t,6,8,9  2: session 1, put 1..3         8 9
//!
//! A statement takes 24 bytes, and 8 more for each number of its row, or for each of the two keys of a scan. Each leads to the next
//! of its session, so the statements of one session are read without going over the others. `StatementList` takes a statement apart
//! when it is pushed, and puts it together again when it is read: the one rule is that `get` returns what `push` was given.
//!
//! `Asked` is what a statement asks, without its key and its values: the kind of statement and its table. A fetch does not name its
//! table, so a fetch is kept with the table of the cursor that its session opened last.
//!
//! # Fields
//!
//! Scripts, dumps and printed texts are made of the bytes of CSV records.
//!
//!     1,put,t,6,"red, or blue"      add_first, four times add_field, end_record
//!
//! A record is appended to a text field by field. A field is in quotes if it has a comma, a quote or the end of a line, and each quote
//! inside is written twice. So the bytes are those that a CSV writer with its default settings writes (`record_bytes`). A call that
//! runs out of memory may have appended a part of its field; what was there before stays (`kept`).
#![tactic(auto)]

mod asked;
mod cursors;
mod ends;
mod fields;
mod packed;
mod statements;

pub use asked::Asked;
pub use ends::NOWHERE;
pub use fields::{add_field, add_first, add_plain, begin_record, end_record};
pub use statements::StatementList;
