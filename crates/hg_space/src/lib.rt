//! Where the oldest images are kept, and which record has which.
//!
//!     index                          space
//!     t/5 -> 0                       0  [ 3, row 10 ]      taken, with an image of number 3
//!     t/9 -> 2                       1  ( free ) -> 3      first of the free places
//!     u/5 -> 4                       2  [ ]                taken, without an image
//!                                    3  ( free )           the last one
//!                                    4  [ 7, row 20 ]
//!
//! Places are numbered from 0 without gaps. A free place holds the number of the next free one, so freeing a place allocates nothing,
//! and a freed place is used again before the space grows (`take_place`). Memory is reserved beforehand (`reserve`): `spare` is the
//! number of places that can still be taken without allocating. The index has a place for each record, and no two records share one. As
//! long as each place in the index is taken, none of them is handed out again.
//!
//!     the index, in order     and in bins of slots, by hash
//!     t/5 -> 0                bin 0   [ t/9 -> 2 ] [ u/5 -> 4 ] [ (empty) ] ..
//!     t/9 -> 2                bin 1   [ t/5 -> 0 ] [ (empty) ] ..
//!     u/5 -> 4
//!
//! The index has its records twice. A range goes by their order (`next_key`). A lookup reads one bin of slots, the only one that the
//! record may be in (`place`): the bin has the record, or it has an empty slot, and then the record has no place. A record that found
//! its bin full is in the order alone, so if the bin has neither, the order is searched. What the slots say is so, but they may leave
//! records out. There is a bin for each four records at least, and the table doubles only where there would be fewer.
//!
//!     lists                                               standings, by place
//!     table 0   [ key 5, place 0 ] [ key 9, place 2 ]     0  table 0, index 0
//!     table 1   [ key 5, place 4 ]                        2  table 0, index 1
//!                                                         4  table 1, index 0
//!
//! A roster lists some records of each table, in no particular order. A record's index in its list is kept by its place, so a record
//! enters at the end of its list, or leaves it, in constant time. When one leaves, the last record of the list moves to its index,
//! which allocates nothing. A caller that goes down a list from its end, and removes only the record that it has come to, meets each
//! record once.
#![tactic(auto)]

mod index;
mod laws;
mod place;
mod roster;
mod slot;
mod slots;
mod space;

pub use index::RidIndex;
pub use laws::named_is_not_given;
pub use roster::Roster;
pub use space::TableSpace;
