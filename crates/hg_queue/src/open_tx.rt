//! Open transactions.

use crate::rid_list::RidList;
use hg_base::{Snapshot, Writer};

/// What a session keeps of its open transaction: the transaction that writes, what it reads, and the records that it wrote, each once.
#[derive(Drop)]
pub struct OpenTx {
    pub writer: Writer,
    pub snapshot: Snapshot,
    pub records: RidList,
}
