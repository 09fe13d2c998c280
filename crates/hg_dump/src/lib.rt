//! A consistent export: all tables of an engine at one snapshot, as a script that puts their rows back.
//!
//! A session's pass begins a transaction of all tables, reads each table in turn by a cursor, and ends. It takes a bucket's lock only
//! while it reads that bucket. So other sessions may write and collectors may remove meanwhile, and no row of the export changes: the
//! snapshot is in use until the end.
//!
//!     begin      a snapshot s of all tables
//!     table 0    fetches of 1,024 rows each, until the cursor is done; the puts of each are appended at once
//!     table 1    ..
//!     end        the transaction wrote nothing, and is over
//!
//! The text is that of `dump_of`. An export holds its text and one fetch, never a whole table's rows.
//!
//! # The text
//!
//! A dump has the version and the tables of another script, and then one put for each row, by table and key. Each put is a statement
//! of session 1 outside a transaction:
//!
//!     version,2
//!     table,t,nt
//!     1,put,t,5,7,red
//!     1,put,t,6,8,"red, or blue"
//!
//! `dump_of` is that script, of a history and a snapshot. `heading_text` writes the records before the rows, and `puts_text` the puts
//! of some rows of one table. So a caller that reads a table in parts never has to hold more than one part. The bytes are those that a
//! CSV writer writes: a text is in quotes if it has a comma, a quote or the end of a line.
//!
//! Reading is the opposite of writing: `read_script` of a dump's text returns the dump, unless memory runs out
//! (`a_dump_is_read_back`).
//!
//! # Backup and restore
//!
//! The laws say what a dump is worth that was read concurrently with a run. A `dump` is a `run` with one more session, the reader, which
//! no record of the script names. It reads all tables at a snapshot while the script's sessions write, and prints nothing of its own
//! among the lines:
//!
//!     sessions 1, 2, ..   the script's records          their lines
//!     the reader          begin, look, .., commit       none: the snapshot and the dump come after the lines
//!     collectors          rounds                        reports, which may name the reader's snapshot as held
//!
//! So the lines alone do not say which session holds that snapshot. With the reader's two lines put in (`lines_with`), they are what a
//! run of all these sessions may print (`IsSoundWith`). This asks no new definition of a right line: a held snapshot of the reader is one
//! at which it read, and is never moved, since it declares no tables.
//!
//! The dump is of the history that the lines print (`printed_history_shows_the_same`), although the machine's own history keeps another
//! order within a group. A replay of a dump stores each of its rows, and at its end shows what the snapshot showed
//! (`a_replay_restores_a_dump`).
//!
//! So a printed dump is a backup (`IsBackup`): each of its rows was put by a statement of the script, and fits its table as that does, and
//! no statement put two of them. So a dump has at most as many records as its script.
//!
//! `HasRunWith` is what a driver shows at its end. Its logs have what the reader did in full, with one look for each bucket that it
//! read; the lines need the begins and ends alone, and `looks_leave_the_log_right` leaves the looks out.
#![tactic(auto)]

mod digits;
mod exports;
mod header;
mod laws;
mod puts;
mod read_back;
mod restore;
mod tables;
mod tools;
mod worked;

pub use exports::export;
pub use header::heading_text;
pub use laws::{
    a_read_at_the_end_is_the_newest, an_export_is_of_the_printed_history, an_export_reads,
    looks_leave_the_log_right, one_change_is_what_the_reader_held, printed_history_shows_the_same,
    reader_holds_what_it_read, run_with_reader_is_sound,
    unless_it_is_held_the_reader_changes_nothing,
};
pub use puts::puts_text;
pub use read_back::{a_dump_is_read_back, a_snapshot_has_one_dump};
pub use restore::{
    a_dump_of_put_rows_is_a_backup, a_replay_of_a_dump_text_restores_it, a_replay_restores_a_dump,
};
pub use tools::Tools;
pub use worked::{a_dump_is_replayed, a_held_reader_is_sound_with_its_lines};
