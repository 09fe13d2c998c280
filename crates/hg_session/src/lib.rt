//! Sessions on one engine.
//!
//! An engine is the board with its words, the buckets, each under a lock of its own, and the queue of transactions to be committed. A
//! session is used by one thread at a time. It takes its snapshot by five steps of the board. It locks a bucket only while it reads or
//! writes one record, or reads the keys of a range, in that bucket. A commit hands the transaction over, and takes the commit lock.
//!
//!     begin      declare, probe, enter, fix, go live              no lock
//!     get        take the bucket, see the key, give it back
//!     put        take the bucket, look and install, give it back
//!     scan       each bucket that can have a key, once, in order; then the rows by key
//!     commit     hand over, into the queue; the commit lock; lead all that waits there, or be led; end
//!     rollback   an undo for each record; end
//!     cursor     begin; for each fetch, the buckets that can have the next rows, each once; end
//!     count      all other sessions hand their parts to one; each bucket, once; each part goes back
//!     look       the same with the collectors' passes, and one load of the mark instead of the buckets
//!
//! The session's log after a call is a function of the log before, the statement, the reply, and what no reply prints (`Answers`): the
//! statement's entries are appended once, and nothing else. So a command that prints the replies has nothing to prove about contents or
//! snapshots. It shows the logs, once, at its end.
//!
//! A statement outside a transaction is a transaction of its own: it begins with its one table declared, does its work, and commits.
//!
//! A cursor is a transaction that reads one range, in parts, and does nothing else. While it is open, no other statement may run.
#![tactic(auto)]

mod answers;
mod commit;
mod cursor;
mod del;
mod engine;
mod finish;
mod get;
mod laws;
mod lending;
mod moment;
mod put;
mod rollback;
mod scan;
mod session;
mod session_list;
mod settlement;
mod so_far;
mod statements;
mod totals;
mod write;

pub use answers::{Deleted, Ended, GetRefusal, PutRefusal, Read, Scanned, Written};
pub use engine::{Engine, Passes, TableDecl};
pub use finish::{finish_all, finish_some, join_all};
pub use laws::{places_differ, replies_are_right};
pub use moment::look_together;
pub use session::Session;
pub use session_list::SessionList;
pub use settlement::settle;
pub use so_far::count_so_far;
