//! The keys that a scan asks for.

ghost use Rattle.std.specs.Prelude.{◌≡◌, ◌+◌, ◌≤◌, nat_le};
ghost use Rattle.hg_bucket.specs.BucketModel.{record_at};

use hg_base::{Rid, TableId};

/// Those of a table from `low` to `high`, both included; none where `low` is over `high`.
#[derive(Clone, Copy)]
pub struct Range {
    pub table: TableId,
    pub low: u64,
    pub high: u64,
}

impl Range {
    // The record of the least key.
    pub(crate) fn first(self) -> Rid
        ensures { result ≡ record_at self.table self.low }
    {
        Rid {
            table: self.table,
            key: self.low,
        }
    }

    // Whether the key that many over the least is one of them.
    pub(crate) fn reaches(self, ahead: u64) -> bool
        ensures { result ≡ nat_le (self.low + ahead) self.high }
    {
        self.low <= self.high && ahead <= self.high - self.low
    }

    // How many rows to make room for at first: one for each key, and at most 64.
    pub(crate) fn room(self) -> usize
        ensures { result ≤ 64 }
    {
        if self.low > self.high {
            return 0;
        }
        let more = self.high - self.low;
        if more < 64 { more as usize + 1 } else { 64 }
    }
}
