//! What the calls of a session answer.

use hg_base::{NoMemory, Row, RowList, TableId};
use hg_group::Receipt;
use thiserror::Error;

/// What a get saw, and the snapshot at which it did.
#[derive(Debug, Drop)]
pub struct Read {
    pub at: u64,
    pub row: Option<Row>,
}

/// The rows that a scan saw, by ascending key.
#[derive(Debug, Drop)]
pub struct Scanned {
    pub at: u64,
    pub rows: RowList,
}

/// A stored write. Outside of a transaction it has a commit number.
#[derive(Clone, Copy, Debug, PartialEq, Eq)]
pub struct Written {
    pub at: u64,
    pub number: Option<u64>,
}

/// A deletion. Where no row was seen, nothing was written.
#[derive(Clone, Copy, Debug, PartialEq, Eq)]
pub struct Deleted {
    pub at: u64,
    pub there: bool,
    pub number: Option<u64>,
}

/// The end of a transaction. One that wrote nothing has no receipt, and uses no number.
#[derive(Clone, Copy, Debug, PartialEq, Eq)]
pub struct Ended {
    pub receipt: Option<Receipt>,
}

/// Why a read is refused.
#[derive(Clone, Copy, Debug, PartialEq, Eq, Error)]
pub enum GetRefusal {
    /// The open transaction didn't declare the table.
    #[error("the transaction did not declare the table")]
    Undeclared { table: TableId },
    #[error("out of memory")]
    NoMemory,
}

/// Why a write is refused. The causes are tested in this order.
#[derive(Clone, Copy, Debug, PartialEq, Eq, Error)]
pub enum PutRefusal {
    /// The open transaction didn't declare the table.
    #[error("the transaction did not declare the table")]
    Undeclared {
        table: TableId,
    },
    /// Another transaction has an open write of the record.
    #[error("transaction {transaction} of session {session} has the record open")]
    Open {
        at: u64,
        session: u32,
        transaction: u64,
    },
    /// The group of this number wrote the record after the snapshot.
    #[error("group {number} wrote the record after snapshot {at}")]
    Newer {
        at: u64,
        number: u64,
    },
    #[error("out of memory")]
    NoMemory,
}

impl From<NoMemory> for GetRefusal {
    ghost use Rattle.std.specs.Prelude.{◌≡◌};
    ghost use Rattle.hg_session.specs.declared.answers.GetRefusal.TheVariants as refusal;

    ghost from_gives = { λ _ e. e ≡ refusal.NoMemory };

    fn from(_: NoMemory) -> GetRefusal {
        GetRefusal::NoMemory
    }
}

impl From<NoMemory> for PutRefusal {
    ghost use Rattle.std.specs.Prelude.{◌≡◌};
    ghost use Rattle.hg_session.specs.declared.answers.PutRefusal.TheVariants as refusal;

    ghost from_gives = { λ _ e. e ≡ refusal.NoMemory };

    fn from(_: NoMemory) -> PutRefusal {
        PutRefusal::NoMemory
    }
}
