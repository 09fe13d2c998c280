//! Which record a statement names.

/// A table by its number, counted from 0 in the order of the declarations.
#[derive(Clone, Copy, Debug, PartialEq, Eq, PartialOrd, Ord)]
pub struct TableId(pub u8);

/// A record's id, ordered by table and then key.
#[derive(Clone, Copy, Debug, PartialEq, Eq, PartialOrd, Ord)]
pub struct Rid {
    pub table: TableId,
    pub key: u64,
}
