//! What a session reads of the tables at one snapshot: a record, a range at once, and a range in parts.
//!
//!     read_row, has_row    the record's bucket, once
//!     scan                 each bucket that can have a key of the range, once, in ascending order; then the rows by key
//!     Cursor::fetch        the buckets that can have the next rows, each at most once
//!
//! Each bucket that is taken is logged by one look, at all that was asked for there. A cursor is a scan in parts, whatever is committed
//! and reclaimed in between.
//!
//!     a range of table 0, in 4 buckets     6   7   8   9  10  11  12  13  14 ..     each key has a row, and 3 rows are asked for
//!     copied from bucket 2                 6               10              14       3 rows are up to 14, which is the limit now
//!     copied from bucket 3                     7                                    3 rows are up to 10
//!     copied from bucket 0                         8                                3 rows are up to 8, and bucket 1 begins at 9
//!
//! A fetch takes buckets in the order of their first keys in the rest of the range, each at most once, and copies rows of a bucket
//! by ascending key. A heap keeps the least keys of all rows that were copied, as many as rows are asked for. Once it is full,
//! its greatest key is the limit: no row over it is needed. So in each bucket the fetch stops at the limit, and it ends at the
//! first bucket whose first key is over the limit. The rows over the last limit are dropped: where keys are spread evenly over B
//! buckets, a fetch of n rows copies about n (1 + 1/2 + .. + 1/B). No clause says how many.
//!
//! The session logs one look for each bucket that was taken: at the keys from the first one that the cursor has not passed to the
//! end of its range. So the rows of all fetches are those of one history, at the cursor's snapshot: joined, they are a prefix of
//! the scan, and the whole scan once the cursor is done (`fetches_are_the_scan`).
#![tactic(auto)]

mod buckets;
mod cursor;
mod firsts;
mod laws;
mod looks;
mod own_keys;
mod range;
mod record;
mod request;
mod scans;
mod tables;

pub use cursor::Cursor;
pub use laws::{fetches_are_the_scan, histories_go_on};
pub use range::Range;
pub use record::{has_row, read_row};
pub use scans::scan;
pub use tables::Tables;
