//! Locks around values, with contracts that say what is known of a value.
//!
//! Of a value under the standard library's `Mutex` only its type's invariant is known. Here a list of locks has a tag, and a type
//! defines which values fit that tag at which lock of the list (`Fits::fits`).
//!
//!     tag       the board's seats
//!     lock         0            1            2
//!     word         0            1            2
//!                  free         held         held, and somebody may sleep
//!     slot      [ value ]    ( out )      ( out )
//!     place        0            8            16
//!
//! The one rule (`Guarded`): a lock is free exactly while its value is in its slot, and then that value fits. So a thread that takes a
//! lock gets a value that fits, and frees the lock by putting back one that fits. A `Loan` cannot be dropped: it ends in `give`. Each
//! lock is one word and one slot, so two locks of a list can be held at once.
//!
//! The word and the slot of a lock are the first of eight (`line_of`), and the other seven are not used. A cache line has eight words,
//! so a thread that takes one lock does not take the cache line of another lock away from the processor that is using it.
//!
//! # Sleeping
//!
//! `take` swaps the word to 1, and `give` to 0: without contention that is all. A thread that finds the lock held spins briefly, then
//! yields between looks, and at last stores 2 and sleeps. A `give` that finds 2 wakes one sleeper, which takes the lock by storing 2,
//! since others may still be asleep. A thread may overwrite a 2 with a 1; it sees the 2 that it replaced, and its next step is to put
//! it back. So the system is called only if a thread slept or was about to.
//!
//! The tag is for contracts only: it has no bytes at run time.
#![tactic(auto)]

mod fits;
mod guard;
mod loan;
mod locks;

pub use fits::Fits;
pub use loan::Loan;
pub use locks::Locks;
