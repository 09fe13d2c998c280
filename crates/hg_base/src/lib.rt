//! The vocabulary of the table server, and the definition of what a printed run must be.
//!
//! A script is a list of session statements. A run prints a reply to each of them, and six totals at the end:
//!
//!     1,begin        1,2,begun,0        a transaction, with the snapshot at which it reads
//!     1,put,t,5,7    1,3,stored
//!     1,get,t,5      1,4,row,7          its own write, seen before it is committed
//!     1,commit       1,5,committed,1    the number of the group in which it is committed
//!
//! `specs/` defines which replies and totals may be printed for a script: `IsSound`. Read `specs/Lib.antt` as a table of contents.
//! Nothing there mentions version chains, registers or collectors. Its one rule: the printed commit numbers give a history of groups
//! (`history_of`), and each reply is the one that a table with that history, which never reclaims a version, would give.
//!
//! A number is `0`, or a digit from 1 to 9 and then digits; an integer may also be `-` and then such a number other than `0`. So each
//! number is written in one way (`read_natural`, `read_integer`).
//!
//! The types here are those of the surface, and the definitions use them as they are. Contracts see a list type as a plain list; it is
//! made from a `Vec`, and turned back into one, without allocating.
#![tactic(auto)]

mod fault;
mod image;
mod inline;
mod laws;
mod limits;
mod line;
mod number;
mod outside;
mod packed;
mod report;
mod rid;
mod row;
mod scope;
mod statement;
mod steps;
mod text;
mod told;
mod value;
mod writer;

pub use fault::{Failed, NoMemory};
pub use image::Image;
pub use laws::{
    committing_line_stays_right, numbers_are_decimal, plain_line_stays_right,
    texts_determine_values, updates_are_kept, visible_is_the_last_write,
};
pub use limits::{
    DEFAULT_BUCKETS, DEFAULT_LONG, DEFAULT_ROUNDS, MOST_BUCKETS, MOST_COLUMNS, MOST_LONG,
    MOST_NAME_BYTES, MOST_NUMBER, MOST_RECORDS, MOST_ROUNDS, MOST_SCRIPT_BYTES, MOST_SESSIONS,
    MOST_TABLES, MOST_TEXT_BYTES,
};
pub use line::{Answer, Line, LineList, Printed, Reply, Totals};
pub use number::{Integer, Natural, read_integer, read_natural};
pub use outside::{Gate, Sink, Source};
pub use report::{Entry, EntryList, Kind, Report, Sweep, Told, ToldList};
pub use rid::{Rid, TableId};
pub use row::{Row, RowList};
pub use scope::{Scope, Snapshot};
pub use statement::{Record, Statement};
pub use steps::Steps;
pub use text::Text;
pub use told::{Piece, ToldBytes};
pub use value::{Column, Value};
pub use writer::Writer;
