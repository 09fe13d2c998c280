//! Buckets under locks, each with its seat next to it.
//!
//!     lock 2   free:   [ bucket 2 | seat of bucket 2 ]        the bucket keeps the content that the seat shows
//!              held:   bucket 2 in a `Held`, and the seat's part in the view of the pass that took it
//!
//! `take` waits for one bucket's lock and brings the bucket's part of the state to a pass. `give` returns that part and frees the lock.
//! There is one lock for each bucket and none around the store, so two buckets can be held at once. A `Held` cannot be dropped.
//!
//! A bucket keeps the versions of the content, record by record, and counts what the counters of the state say (`Keeps`). So what is
//! said of the content, which the state machine knows, is what the bucket answers. Each call that changes something changes the bucket
//! and the state at once: afterwards the bucket is still held, and keeps what the view shows (`Holds`).
//!
//! A write is decided by the content that is held and by the mark that its own look loads (`Writes`). If it is refused as open, then by
//! all that the pass has seen, the transaction that holds the record has not ended.
//!
//! A collector's pass cuts or sweeps a table of a bucket that it holds. It visits only the records that have more than their oldest
//! image, with one step for each (`Clears`), and afterwards each record of the table is cut at the table's bound, or clean.
#![tactic(auto)]

mod held;
mod removal;
mod store;
mod write;

pub use held::Held;
pub use removal::Guards;
pub use store::{Slot, Store};
pub use write::Author;
