//! What a statement asks of the records.

use hg_base::{Rid, TableId};

/// A read of a range of keys, a write of a record, or a table that the transaction did not declare.
#[derive(Clone, Copy)]
pub enum Ask {
    Read { table: TableId, low: u64, high: u64 },
    Write(Rid),
    Outside(TableId),
}
