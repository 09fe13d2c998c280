//! What a pass of the queue knows. No code makes a value of these types: contracts speak of them.

ghost use Rattle.atomic_table.specs.Seated.{TableId, table_id_coded};
ghost use base.Fml.{ftrue};

use std::marker::Model;

/// Which board the transactions are of.
pub struct BoardId {
    pub ghost id: { TableId } by { table_id_coded },
}

impl Model for BoardId {
    ghost also_owns = { λ _. ftrue };
}

/// Whether the queue has no board yet; whether the pass pops; the board; and the pairs of session and transaction that it knows of,
/// oldest first.
pub struct Known {
    pub opens: bool,
    pub leads: bool,
    pub board: BoardId,
    pub pairs: [(u64, u64); 0],
}
