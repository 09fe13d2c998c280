//! What a session's transactions did, entry by entry.

use hg_base::{Answer, Image, Rid, RowList, Scope, TableId};

/// An entry of a session's log. No code makes a value of this type: contracts speak of it.
pub enum LogEntry {
    /// A transaction began at a snapshot.
    Began {
        at: u64,
        scope: Scope,
    },
    /// It read a range of keys in one bucket.
    Saw {
        table: TableId,
        low: u64,
        high: u64,
        bucket: u32,
        rows: RowList,
    },
    /// Its write was refused for a conflict.
    Refused {
        rid: Rid,
        answer: Answer,
    },
    /// It named a table that it did not declare.
    Outside {
        table: TableId,
    },
    /// It stored a write, which is open until it is published or undone.
    Wrote {
        rid: Rid,
        image: Image,
    },
    /// An open write was removed.
    Undid {
        rid: Rid,
    },
    /// Its open writes were published in the group of this number.
    Published {
        number: u64,
    },
    /// The transaction is over.
    Over,
}
