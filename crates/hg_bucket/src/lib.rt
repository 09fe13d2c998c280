//! One bucket: some records with their versions, and counts of the versions that are gone.
//!
//!     index         place   chain, newest first                      oldest image
//!     t/5 -> 0      0       [ written by 3/7 ] -> [ 9 ] -> [ 6 ]     [ 4, row 10 ]
//!     t/9 -> 2      1       ( free )
//!     u/5 -> 3      2                                                [ 2, row 20 ]
//!                   3       [ written by 1/2 ]
//!
//! Each record has a place from its first write on, with its chain and its oldest image, each in an array of its own (`Chains` of
//! `hg_chains`, `TableSpace` of `hg_space`). So a read or a write looks in the index once, and finds the rest by number; and a cut puts
//! an image at the place without allocating. A free place has neither chain nor image, and every other place has at least one of them.
//! A record that loses its last version is dropped, and its place is free again.
//!
//! Only records with a chain can be shortened: an oldest image is always a row. Each table has a list of these records (`Roster` of
//! `hg_space`), which a record enters when its chain begins, and leaves when its chain has become empty. A sweep or a cut of a table
//! goes down that list from its end, so its cost depends on the records that can be shortened, not on how many the table has.
//!
//! The versions that were made are those that were undone, those that a cut or a sweep removed, and those that are held.
#![tactic(auto)]

mod bucket;
mod cut;
mod places;
mod records;
mod refusal;
mod sweep;

pub use bucket::Bucket;
pub use refusal::WriteRefusal;
