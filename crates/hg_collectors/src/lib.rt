//! The three collectors of an engine, and their rounds.
//!
//!     one thread    [ round of the kind that was asked for ]                                   then its report
//!     run           group     gate [ round 1 ]      gate [ round 2 ]      ..    each report in its place
//!                   table        gate [ round 1 ]      gate [ round 2 ]   ..
//!                   interval        gate [ round 1 ]      gate [ round 2 ]    one collector, or a team of helpers
//!
//! A collector works on what an engine lends it (`Lent`): the words of the board, the buckets, and the list of groups. Sessions are
//! not known here: between two rounds a collector's pass may meet them (`HasMetSessions`), which keeps its part and its steps.
//!
//! One rule (`AreRounds`): the reports that are kept are those of the rounds that were made, in their order. Each round is one by its
//! collector's own contract (`IsRoundBy`), all that it removed is reported, and each pass keeps its part alone (`IsLone`). If memory for a
//! report runs out, the round was made all the same, and the list says that it is not whole.
//!
//! A run's rounds are spread over its script (`Pace`).
//!
//! The collectors of tables and of intervals go through all buckets, and are in `hg_rounds`.
//!
//! # The group collector
//!
//! It cuts what the oldest groups wrote, many groups at a time.
//!
//!     gather     the bound is 6: no snapshot in use is below it, nor will be
//!
//!     contexts   [ 4: a, c ] [ 5: b ] [ 6: a ] | [ 7: c ]
//!                |<---------------------->|
//!     take       4, 5 and 6, while the commit lock is held once             a c b a
//!     sort       by bucket and record, each record once                     bucket 0: b    bucket 1: a c
//!     cut        takes bucket 0 and cuts b at 6; takes bucket 1 and cuts a and c at 6
//!
//! Every snapshot in use sees all of a group at or below the bound. So of each record that such a group wrote, only the newest version
//! numbered at or below the bound can still be read, and the older ones go. A round costs as much as the groups that it takes: it looks
//! at no record that they did not write, and at no group above the bound. Collecting by groups follows, in outline, Lee et al., "Hybrid
//! Garbage Collection for Multi-Version Concurrency Control in SAP HANA", SIGMOD 2016.
//!
//! The commit lock is held for at most as many records as there is room for. Those that are taken together visit each of their buckets
//! once (`VisitsEachOnce`). A group that finds no room left is taken too, and is cut from its own list. No bucket is held while the pass
//! waits for the commit lock.
//!
//! One rule (`Collects`): a call of `collect` is one round. It gathers once; it takes groups until the total number taken, by any pass,
//! reaches its bound; and each record that one of these groups wrote is cut at that bound, and was when its bucket was given back. The
//! groups' numbers are above what was taken before the round, and there are as many as steps of the round that take one.
//!
//! The constructor allocates all room. A round allocates nothing, and cannot be refused.
#![tactic(auto)]

mod collectors;
mod cuts;
mod group;
mod intake;
mod interval;
mod lent;
mod noted;
mod pace;
mod round_list;
mod round_lists;

pub use collectors::{Collectors, Room};
pub use group::GroupCollector;
pub use interval::IntervalWorker;
pub use lent::Lent;
pub use noted::{noted_rounds_are_reported, rounds_are_noted};
pub use pace::{NoGate, Pace, READER};
pub use round_list::{Plan, RoundList};
pub use round_lists::{RoundLists, run_collectors};
