//! What a bucket counts, and a pass's visit of one.

use crate::version::Version;
use hg_base::Rid;

/// How many versions went, by the kind of the collector that took them. No code makes a value of this type: contracts speak
/// of it.
pub struct Removed {
    pub group: u64,
    pub table: u64,
    pub interval: u64,
}

/// The counters of a bucket. No code makes a value of this type: contracts speak of it.
pub struct Counters {
    /// First writes of a record in a transaction.
    pub made: u64,
    /// Open writes that were taken back.
    pub undone: u64,
    pub removed: Removed,
}

/// One taking of a bucket by a collector's pass. No code makes a value of this type: contracts speak of it.
pub struct Visit {
    pub bucket: u32,
    /// The mark of the pass's record when it took the bucket.
    pub mark: u64,
    /// The number of the pass's round then, counted from 1.
    pub round: u64,
    /// What the pass removed there in this visit.
    pub removed: Removed,
    /// The records with their versions as they were given back, once they were.
    pub given: Option<[(Rid, [Version; 0]); 0]>,
}
