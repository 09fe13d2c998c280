//! What a fetch asks for.

use hg_base::TableId;

/// The first `most` rows, by key, of a table from `low` to `high`, both included, read at the snapshot `at`.
#[derive(Clone, Copy)]
pub(crate) struct Request {
    pub(crate) at: u64,
    pub(crate) table: TableId,
    pub(crate) low: u64,
    pub(crate) high: u64,
    pub(crate) most: usize,
}
