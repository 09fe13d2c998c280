//! Scripts, read from bytes.
//!
//! A script is a list of CSV records. Table records come first and declare the tables, each with its number of columns. Every other
//! record is a statement of a session: the session's number, and then a word:
//!
//!     table,t,1        a table `t` of one column
//!     1,begin          session 1 begins a transaction on every table
//!     2,begin,t        session 2 begins one that reads and writes only `t`
//!     1,put,t,5,7      the row of key 5 is 7
//!     1,del,t,6
//!     1,get,t,5
//!     1,scan,t,0,9     every row whose key is from 0 to 9
//!     1,commit
//!     2,rollback
//!     1,gc,group       a round of the group collector; `table` and `interval` name the other two
//!     3,get,t,5        outside of a transaction: a transaction of its own
//!     4,open,t,0,9     opens a cursor over every row whose key is from 0 to 9, as the table is now
//!     4,fetch,2        reads the cursor's next 2 rows
//!     4,close          closes the cursor
//!
//! That is version 1 of the format, whose columns hold numbers. In a script whose first record is `version,2` a column can also hold
//! texts, of at most 64 bytes each, and a table record has a letter for each column:
//!
//!     version,2
//!     table,t,nt       a table `t` of a column of numbers and a column of texts
//!     1,put,t,5,7,red  the row of key 5 is 7 and `red`
//!
//! Records are counted from 1, the version record and the table records included, and that count is a statement's place. Places have no
//! gaps, so a script does not store them (`AreNumbered`). `hg_records` keeps the statements, each linked to the next of its session, so a
//! script can lend the records of one session (`RecordList`) without going over the others.
//!
//! A script that breaks a rule is refused as a whole, with the first record that breaks one and its first code (`Code`). docs/FORMATS.md
//! has the rules, and what breaks each.
//!
//! `specs/` defines the same for whole lists of records: `rows_of` is the list of records in the bytes, `refusal_of` the first one that
//! breaks a rule, and `script_of` the script. The reader goes over the bytes once. Of each record it reads the word (`Word`) and then
//! each field (`Draft`), and then it tests the rules that need the fields. `IsLawful` defines independently what a script is that is
//! not refused.
#![tactic(auto)]

mod code;
mod columns;
mod draft;
mod judge;
mod kind;
mod law;
mod reader;
mod record_list;
mod refusal;
mod rules;
mod scope;
mod script;
mod sessions;
mod table;
mod tables;
mod values;
mod word;

pub use code::Code;
pub use hg_base::{Integer, Natural, numbers_are_decimal, read_integer, read_natural};
pub use hg_records::Asked;
pub use judge::{Judge, Judged};
pub use law::{cursors_are_in_order, scopes_have_what_is_named};
pub use reader::read_script;
pub use record_list::RecordList;
pub use refusal::ScriptRefusal;
pub use rules::MOST_FETCHED;
pub use script::Script;
pub use sessions::OpenSessions;
pub use table::Table;
