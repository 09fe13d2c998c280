//! The collectors that go through all buckets: of tables and of intervals, the latter also by several threads.
//!
//! A round gathers once, visits each bucket, and reports. A visit takes a bucket, goes through its tables and gives it back:
//!
//!     round      [ gather ][ bucket 0 ][ bucket 1 ] .. [ the last one ]  report
//!     bucket     [ take ][ table 0 ][ table 1 ] .. [ give back ]
//!
//! Each visit is of one kind of collector. It adds to the pass's list of visits what it removed there and how it gave the bucket back,
//! and to the pass's steps what it reclaimed (`Visits`, `VisitsAll`). No more versions are removed than were ever made, so the sums do not
//! overflow. Each collector is made around a `Rounds`: its pass, what it gathered last, and the report of its last round. What a report
//! says follows from the round's steps (`Reports`). The group collector visits only what the oldest groups wrote, and is in
//! `hg_collectors`.
//!
//! # The table collector
//!
//! A snapshot that is long in use and declared its tables no longer holds back versions of other tables.
//!
//!     tables       t      u
//!
//!     gather       2      2        a reader at 2 of table u only, which is long in use; the mark is 7
//!     move         7      2        it counts only for u now, and the bound of t is the mark
//!     visit        t is cut at 7, and u at 2, in each bucket
//!
//! A snapshot counts for all tables when it is taken. A round gathers, and moves each snapshot that is long in use to the tables that
//! it declared, if its register still shows it. Then each table has a bound of its own: the least of the horizon and of the snapshots
//! that count for it. No reader of the table is below it, nor will be. Moving a long snapshot to the trackers of its tables follows, in
//! outline, Lee et al., "Hybrid Garbage Collection for Multi-Version Concurrency Control in SAP HANA", SIGMOD 2016.
//!
//! One rule (`Cuts`): a call of `collect` is one round. It gathers once, tries to move what is long in use and nothing else, visits
//! each bucket once, in order, and gives each back with every table cut at its bound after the moves. Its report shows the snapshots as
//! they are then.
//!
//! # The interval collector
//!
//! It removes versions that no snapshot in use sees, also from the middle of a chain.
//!
//!     gather       the horizon, and the snapshots that count for each table
//!
//!     a chain      [ 9 ] -> [ 7 ] -> [ 5 ] -> [ 3 ] -> [ 1 ]       horizon 9, snapshots 1 and 5
//!     lifetimes      9 ..     7, 8     5, 6     3, 4     1, 2
//!                    stays    goes     stays    goes     stays
//!
//! A version lives from its number up to, and not including, its successor's. If that successor is at or below the horizon, no later
//! snapshot falls into the lifetime. So if there is none in it now, the version is never read again. The newest version of a record has
//! no successor, and stays. Merging a chain's numbers with the ordered snapshots follows, in outline, the same publication.
//!
//! One rule (`Sweeps`): a call of `collect` is one round. It gathers once, visits each bucket once, in order, and gives each back with
//! every record of every table clean for what it gathered. A visit goes down the lists of records that can be shortened, and costs
//! nothing for others.
//!
//! # Its team
//!
//! A round of the interval collector may be made by several threads.
//!
//!     pass           [ gather ]                                                     [ unite ]  report
//!     helper 1                   [ bucket 0 ][ bucket 3 ]      [ bucket 4 ]
//!     helper 2                   [ bucket 1 ]   [ bucket 2 ]         [ bucket 5 ]
//!     word           0            1    2    3   4      5       6      7   8         0
//!
//! The team's pass gathers once. It is split for each helper, so each helper's pass has the record of that one gather. A helper draws
//! the number of a bucket from a word that all share, and sweeps that bucket, until it draws a number that no bucket has. Then the
//! passes are united: the visits of all helpers become the team's own.
//!
//! The rule of the word (`IsDrawn`): each number below it is in exactly one view. At the end of a round the team has all views, so it
//! knows that each bucket was visited once, and which numbers each helper drew (`IsShared`).
//!
//! The constructor of each allocates all room. A round allocates nothing for itself, and cannot be refused.
#![tactic(auto)]

mod crew;
mod draws;
mod helper;
mod interval;
mod rounds;
mod table;
mod team;
mod tools;

pub use draws::{Drawer, Drawn, Draws};
pub use helper::{HELPERS, Helper};
pub use interval::IntervalCollector;
pub use rounds::Rounds;
pub use table::TableCollector;
pub use team::SweepTeam;
