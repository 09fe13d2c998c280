//! Group commit: open transactions become the next group, one or more at a time.
//!
//!     session 2     submit -+
//!     session 5     submit -+->  [ 2/7 ] [ 5/1 ]     the queue: each with its session's part of the state
//!
//!     session 5     turn         takes the commit lock, finds nothing in its place, and leads:
//!                     pop        [ 2/7 ] [ 5/1 ]     all that waits
//!                     room       for a context       or each goes back to its place still open, and nothing was stamped
//!                     stamp      each record, by 9   its bucket is held for that only
//!                     publish    store the mark: 9   one group, in the queue's order
//!                     lay        2: (9, 31)          in each session's place: the group's number, and how many commits
//!                                5: (9, 32)          came before
//!                     keep       [ 7: records ] [ 8: records ] [ 9: records ]     contexts, oldest first, for the collector
//!     session 2     turn         takes the commit lock, and its receipt from its place
//!
//! A session that takes the commit lock and finds nothing in its place leads a batch. All memory is allocated before the first stamp:
//! the first transaction's own list becomes the context's, with room for the records of the others. If memory runs out, each
//! transaction of the batch is handed back open, with its list: a batch goes through whole, or not at all (`TakesTurn`). `finish` is turn
//! after turn, until something is laid for the session. While a leader stamps, others can still read: a version with the next number is
//! above the mark, and no snapshot reaches it until the mark is stored.
//!
//! One rule (`IsKept`): whenever the commit lock is free, no write has the next number, each group that was not taken has its context,
//! with exactly the records that it writes, and the commits follow the queue.
//!
//! A receipt names the group, and how many commits came before this one: no two receipts are equal.
//!
//! A collector takes contexts out, oldest first: one (`take_oldest`), or as many as its list has room for, while the commit lock is
//! held once (`take_some`).
#![tactic(auto)]

mod book;
mod contexts;
mod follower;
mod leader;
mod list;
mod receipt;

pub use book::{Batches, Founding, Laid, Outcome};
pub use contexts::{GroupContext, HeldList};
pub use follower::{Pusher, Submitted};
pub use hg_queue::{OpenTx, RidList};
pub use list::GroupList;
pub use receipt::Receipt;
