//! At which commit number a transaction reads, and which tables it may name.

ghost use Rattle.std.specs.Prelude.{◌≡◌, ◌<◌, Some};
ghost use Rattle.hg_base.specs.declared.limits.TheConstants.{MOST_TABLES};
ghost use Rattle.hg_base.specs.Transcript.{has, only};

use crate::limits::MOST_TABLES;
use crate::rid::TableId;

/// Every table, or those whose bits are set: bit t stands for table t.
#[derive(Clone, Copy, Debug, PartialEq, Eq)]
pub enum Scope {
    All,
    Declared(u64),
}

impl Scope {
    /// One table alone, as a statement outside of a transaction declares it.
    pub fn only(table: TableId) -> Scope
        requires { table.0 < MOST_TABLES }
        ensures { result ≡ only (Some table) }
    {
        Scope::Declared(1 << table.0)
    }

    /// Whether a transaction of this scope may name the table.
    pub fn has(self, table: TableId) -> bool
        ensures { result ≡ has self table }
    {
        match self {
            Scope::All => true,
            Scope::Declared(mask) => table.0 < MOST_TABLES && (mask >> table.0) & 1 == 1,
        }
    }
}

/// The groups numbered at or below `at` are seen.
#[derive(Clone, Copy)]
pub struct Snapshot {
    pub at: u64,
    pub scope: Scope,
}
