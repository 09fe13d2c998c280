//! What a statement asks, without its values.

ghost use Rattle.std.specs.Prelude.{◌≡◌};
ghost use Rattle.hg_records.specs.Asked.{table_asked};

use hg_base::TableId;

/// What a statement asks, and of which table.
#[derive(Clone, Copy)]
pub enum Asked {
    Begin,
    Get(TableId),
    Put(TableId),
    Del(TableId),
    Scan(TableId),
    CursorOpen(TableId),
    /// With the table of the cursor that the session opened last, if it opened one.
    Fetch(Option<TableId>),
    CursorClose,
    Commit,
    Rollback,
    Gc,
}

impl Asked {
    /// The table of a get, put, del or scan.
    pub fn table(self) -> Option<TableId>
        ensures { result ≡ table_asked self }
    {
        match self {
            Asked::Get(table) => Some(table),
            Asked::Put(table) => Some(table),
            Asked::Del(table) => Some(table),
            Asked::Scan(table) => Some(table),
            _ => None,
        }
    }
}
