//! Versions of records, newest first.
//!
//!     newest                                  oldest
//!     [ written by 3/7 ] -> [ 9 ] -> [ 5 ] -> [ 3 ]
//!
//! At most the first version has no number: it is an open write of transaction 7 of session 3. Numbers fall along the chain. A reader
//! at snapshot s sees the first version numbered at or below s (`visible`), or its own open write (`own`). A commit gives the open
//! write its number (`stamp`), a rollback removes it (`undo`).
//!
//! A version's successor is the next newer one, to its left here. The version lives from its own number up to, and not including, its
//! successor's: readers see it at the snapshots of that lifetime, and at no others.
//!
//! # Cut
//!
//! Once every snapshot in use is at or above a bound, nobody sees the versions below the newest one at that bound: `cut` removes them
//! all, and returns the image of that newest one, which is the record's oldest image from then on.
//!
//! # Sweep
//!
//! A single old snapshot holds a cut back, although it sees only one version. `sweep` goes between the snapshots: it removes each
//! version in whose lifetime there is no snapshot. With snapshots 5 and 1 in use, 7 and 3 go:
//!
//!     lifetimes   [ .. 9 ][ 8 7 ][ 6 5 ][ 4 3 ][ 2 1 ]
//!     versions         9      7      5      3      1
//!     snapshots                      5             1
//!
//! New readers begin at or above the horizon, so a version goes only if its successor is numbered at or below the horizon. Numbers and
//! snapshots are both in order, so one merge from the greatest down decides them all (`Merge`), and each turn settles one version or passes
//! one snapshot.
//!
//! # Chains
//!
//! A bucket has the chains of all its records in two arrays (`Chains`). The first has a head for each place: its newest version, whether that
//! is an open write, and where the others are, if there are any. Most reads want the newest version, so they look at the head alone. The
//! second array has nodes for all other versions. A node has a version, and the number of the next node, which is older. The free nodes are
//! one more chain, linked the same way. Here place 0 has the versions 9 and 5, place 1 has none, place 2 has an open write over a 3 and a 2,
//! and two nodes are free:
//!
//!     place   newest     others   first node          node   0      1         2      3      4
//!     0       [ 9 ]      1        0                          [ 5 ]  ( free )  [ 2 ]  [ 3 ]  ( free )
//!     1                  0        -                   next   -      4         -      2      -
//!     2       [ 3/7 ]    2        3
//!     free               2        1
//!
//! A write puts its version into the head, and the one that was there into a node, before the others; an undo takes it back. Only a write
//! takes a node, and it allocates only if there were never so many versions at the same time: reads, cuts and sweeps allocate nothing. A
//! node whose version they remove becomes the first free one, and no other node moves. No node is in two chains, since each has one owner, a
//! place or the free list, and along a chain each ranks below the node before it. Each call does to the list of its place what the call
//! of the same name on a `Chain` (crates/hg_chain) does to a single record's, and leaves the others alone.
//!
//! # Landmarks
//!
//! A snapshot that stays in use keeps every version of a record that is written meanwhile, and a read at that snapshot wants one of the
//! last. So a long chain has landmarks (`Landmarks`): nodes with their heights, which are multiples of 32. A node's height is the number of
//! versions from it to the end of the chain, so a version that is put in front changes none. Here a chain has 99 versions:
//!
//!     versions    [ 3/7 ] -> [ 805 ] .. [ 517 ] .. [ 230 ] .. [ 12 ]
//!     height        99         98         64         32         1
//!     landmark                             x          x
//!
//! A read at snapshot 300 looks at the first version, which is open. Bisection finds the lowest landmark that is newer than the snapshot:
//! version 517. All versions before it are newer too, so the walk starts there, and ends at most 32 versions on. Chains of up to 32
//! versions have no landmarks, and a read of the first version looks for none.
//!
//! A write puts a landmark at the third version of a chain (`note`): the first has no node, and the second may leave its own (`movable`);
//! the others stay in theirs as long as they are in the chain. An undo leaves all landmarks. A cut or a sweep that removes versions changes heights, so it
//! removes the place's landmarks, and allocates nothing. A landmark only says where a walk may start: if there is no memory for one, reads
//! walk farther, and return the same.
#![tactic(auto)]

mod arena;
mod chains;
mod cursor;
mod head;
mod landmarks;
mod merge;
mod node;
mod outcome;
mod removal;
mod version;
mod walk;
mod write;

pub use chains::Chains;
pub use merge::Merge;
pub use outcome::{Cut, Swept};
pub use version::{Stamp, Version};
