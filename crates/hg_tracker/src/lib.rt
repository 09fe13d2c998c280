//! Trackers of snapshots: how a session takes one, and how a collector's pass learns which are in use.
//!
//! A session shows in its register at which snapshot it reads, and takes no lock. It takes a snapshot in five steps (`begin`): it
//! stores the mask of the tables that it declares, loads the mark, stores that it is entering at that mark, loads the mark again, and
//! stores the second mark as its snapshot. One load would not do: a pass may have begun a record between the load and the store, and
//! found the register idle.
//!
//! A pass loads the mark, and then each register in order; after a register that is live and declared it loads the session's mask at
//! once (`gather`). If a session began anew between those two loads, the mask is the newer one, and the new snapshot is at or above the
//! mark that the pass loaded. So a pass can rely on these from then on:
//!
//!     horizon      the least of the mark and of all numbers that enter: no session goes live below it later
//!     for_table    the snapshots that count for a table
//!     bound        the least of both: what a table's readers may still read is at or above it
//!     least        the same for all tables together
//!
//! A snapshot counts for every table, until it is long in use and its tables are declared. Then a pass moves it (`move_long`), and it
//! counts for those tables only. The trackers and the move are those of Lee et al., "Hybrid Garbage Collection for Multi-Version
//! Concurrency Control in SAP HANA", SIGMOD 2016; the entering state is ours.
//!
//! `Gathered` gets its room from its constructor. A gather sorts the live registers once by number, and makes one list for all tables,
//! and one for each table that a moved snapshot declared. So the collectors find the lists ready, and tables cost nothing if nothing is
//! moved.
#![tactic(auto)]

mod gathered;
mod lists;
mod trackers;

pub use gathered::Gathered;
pub use trackers::Trackers;
